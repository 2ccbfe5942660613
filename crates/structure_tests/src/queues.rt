use ipc_queues::{Empty, Full, Mailbox, MsgQueue, PutFault};
use rand_core::SeedableRng;
use rand_core::utils::NextWord;
use rand_pcg::Pcg32;
use rt_base::Text;
use std::test::Fail;

#[test]
fn a_mailbox_of_one_word(rt: HostRuntime) -> Result<(), Fail> {
    let mut mailbox = Mailbox::new(rt.alloc(), 1)?;
    assert_eq!(rt; mailbox.try_send(7), Ok(()));
    assert_eq!(rt; mailbox.try_send(8), Err(Full));
    assert_eq!(rt; mailbox.try_urgent(9), Err(Full));
    assert_eq!(rt; mailbox.len(), 1);
    assert_eq!(rt; mailbox.try_recv(), Ok(7));
    assert_eq!(rt; mailbox.try_recv(), Err(Empty));
    Ok(())
}

#[test]
fn a_queue_of_one_short_message(rt: HostRuntime) -> Result<(), Fail> {
    let mut queue = MsgQueue::new(rt.alloc(), 4, 1)?;
    let first = Text::read(b"t=21").ok_or("no text")?;
    let long = Text::read(b"hello").ok_or("no text")?;
    let short = Text::read(b"hi").ok_or("no text")?;
    let too_long = PutFault::TooLong { len: 5, max: 4 };
    assert_eq!(rt; queue.try_urgent(&first), Ok(()));
    assert_eq!(rt; queue.try_send(&long), Err(too_long));
    assert_eq!(rt; queue.try_urgent(&long), Err(too_long));
    assert_eq!(rt; queue.try_send(&short), Err(PutFault::Full));
    assert_eq!(rt; queue.try_urgent(&short), Err(PutFault::Full));
    assert_eq!(rt; queue.len(), 1);
    assert!(rt; queue.try_recv() == Ok(first));
    assert!(rt; queue.try_recv() == Err(Empty));
    Ok(())
}

#[test]
fn a_mailbox_answers_as_a_plain_list(rt: HostRuntime) -> Result<(), Fail> {
    let mut draws = Pcg32::seed_from_u64(18);
    let mut mailbox = Mailbox::new(rt.alloc(), 3)?;
    let mut plain = Vec::new(rt.alloc());
    for _ in 0..500u32 {
        let word = draws.next_word();
        let has_room = plain.len() < 3;
        match word % 3 {
            0 => {
                assert_eq!(rt; mailbox.try_send(word).is_ok(), has_room);
                if has_room {
                    plain.push(word)?;
                }
            }
            1 => {
                assert_eq!(rt; mailbox.try_urgent(word).is_ok(), has_room);
                if has_room {
                    plain.insert(0, word)?;
                }
            }
            _ => {
                let front = if plain.is_empty() {
                    Err(Empty)
                } else {
                    Ok(plain.remove(0))
                };
                assert_eq!(rt; mailbox.try_recv(), front);
            }
        }
    }
    Ok(())
}

#[test]
fn a_queue_answers_as_a_plain_list(rt: HostRuntime) -> Result<(), Fail> {
    let mut draws = Pcg32::seed_from_u64(34);
    let mut queue = MsgQueue::new(rt.alloc(), 4, 3)?;
    let mut plain: Vec<Text> = Vec::new(rt.alloc());
    for _ in 0..500u32 {
        let word = draws.next_word();
        let bytes = word.to_be_bytes();
        let text = Text::read(&bytes).ok_or("no text")?;
        let has_room = plain.len() < 3;
        match word % 3 {
            0 => {
                assert_eq!(rt; queue.try_send(&text).is_ok(), has_room);
                if has_room {
                    plain.push(text)?;
                }
            }
            1 => {
                assert_eq!(rt; queue.try_urgent(&text).is_ok(), has_room);
                if has_room {
                    plain.insert(0, text)?;
                }
            }
            _ => {
                let front = if plain.is_empty() {
                    Err(Empty)
                } else {
                    Ok(plain.remove(0))
                };
                assert!(rt; queue.try_recv() == front);
            }
        }
    }
    Ok(())
}
