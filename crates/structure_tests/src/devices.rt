use rand_core::SeedableRng;
use rand_core::utils::NextWord;
use rand_pcg::Pcg32;
use serial_dev::Serial;
use std::alloc::{AllocError, Global};
use std::test::Fail;

#[test]
fn two_rings_of_four_bytes(rt: HostRuntime) -> Result<(), Fail> {
    let mut serial = Serial::new(rt.alloc(), 4, 4)?;
    let mut into = [0; 8];
    assert_eq!(rt; serial.arrive(b"abcdef"), 2);
    assert_eq!(rt; serial.held(), (4, 0));
    assert_eq!(rt; serial.read(&mut into), 4);
    assert_eq!(rt; &into[..4], b"cdef".as_slice());
    assert_eq!(rt; serial.write(b"hello"), 4);
    assert_eq!(rt; serial.drain(&mut into[..3]), 3);
    assert_eq!(rt; &into[..3], b"hel".as_slice());
    assert!(rt; serial.busy());
    assert_eq!(rt; serial.drain(&mut into[..3]), 1);
    assert_eq!(rt; &into[..3], b"lel".as_slice());
    assert!(rt; !serial.busy());
    Ok(())
}

#[test]
fn rings_that_are_not_there(rt: HostRuntime) -> Result<(), Fail> {
    let mut serial = Serial::new(rt.alloc(), 0, 0)?;
    let mut into = [0; 8];
    assert_eq!(rt; serial.arrive(b"ab"), 2);
    assert_eq!(rt; serial.write(b"ab"), 0);
    assert_eq!(rt; serial.read(&mut into), 0);
    assert_eq!(rt; serial.drain(&mut into), 0);
    assert_eq!(rt; serial.held(), (0, 0));
    Ok(())
}

fn without_front(alloc: Global, bytes: &[u8], count: usize) -> Result<Vec<u8>, AllocError> {
    let mut rest = Vec::new(alloc);
    for byte in bytes.iter().skip(count) {
        rest.push(*byte)?;
    }
    Ok(rest)
}

#[test]
fn a_receive_ring_answers_as_a_plain_list(rt: HostRuntime) -> Result<(), Fail> {
    let mut draws = Pcg32::seed_from_u64(18);
    let mut serial = Serial::new(rt.alloc(), 5, 0)?;
    let mut plain = Vec::new(rt.alloc());
    for _ in 0..300u32 {
        let draw = draws.next_word();
        let mut bytes = draw.to_be_bytes();
        let len = (draw % 5) as usize;
        match draw / 5 % 4 {
            0 => {
                serial.clear_rx();
                plain.clear();
            }
            1 => {
                let count = len.min(plain.len());
                assert_eq!(rt; serial.read(&mut bytes[..len]), count);
                assert_eq!(rt; &bytes[..count], &plain[..count]);
                plain = without_front(rt.alloc(), &plain, count)?;
            }
            _ => {
                plain.extend_from_slice(&bytes[..len])?;
                let pushed_out = plain.len().saturating_sub(5);
                assert_eq!(rt; serial.arrive(&bytes[..len]), pushed_out);
                plain = without_front(rt.alloc(), &plain, pushed_out)?;
            }
        }
    }
    Ok(())
}

#[test]
fn a_transmit_ring_answers_as_a_plain_list(rt: HostRuntime) -> Result<(), Fail> {
    let mut draws = Pcg32::seed_from_u64(42);
    let mut serial = Serial::new(rt.alloc(), 0, 5)?;
    let mut plain = Vec::new(rt.alloc());
    for _ in 0..300u32 {
        let draw = draws.next_word();
        let mut bytes = draw.to_be_bytes();
        let len = (draw % 5) as usize;
        if draw / 5 % 2 == 0 {
            let count = len.min(plain.len());
            assert_eq!(rt; serial.drain(&mut bytes[..len]), count);
            assert_eq!(rt; &bytes[..count], &plain[..count]);
            plain = without_front(rt.alloc(), &plain, count)?;
        } else {
            let count = len.min(5usize.saturating_sub(plain.len()));
            assert_eq!(rt; serial.write(&bytes[..len]), count);
            plain.extend_from_slice(&bytes[..count])?;
        }
        assert_eq!(rt; serial.busy(), !plain.is_empty());
    }
    Ok(())
}
