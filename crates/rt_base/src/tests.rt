use crate::{Bounded, List, Name, Text};
use std::test::Fail;

#[test]
fn a_list_grows_and_gives_back(rt: HostRuntime) -> Result<(), Fail> {
    let mut list = List::new(rt.alloc());
    assert!(rt; list.push(1u8).is_ok());
    list.extend_from_slice(&[2, 3])?;
    assert_eq!(rt; list.pop(), Some(3));
    assert!(rt; list.as_slice() == [1, 2].as_slice());
    Ok(())
}

#[test]
fn names_and_texts_are_read_by_their_bytes(rt: HostRuntime) {
    let long = [b'x'; 65];
    let rows: [(&[u8], bool, bool); 6] = [
        (b"", false, false),
        (b"uart_1", true, true),
        (b"eight_88", true, true),
        (b"nine_chars", false, true),
        (b"a-b", false, true),
        (long.as_slice(), false, false),
    ];
    for (bytes, is_name, is_text) in rows {
        assert_eq!(rt; Name::read(bytes).is_some(), is_name);
        assert_eq!(rt; Text::read(bytes).is_some(), is_text);
    }
}

#[test]
fn a_bounded_list_keeps_its_room(rt: HostRuntime) -> Result<(), Fail> {
    let mut list = Bounded::new(rt.alloc(), 3)?;
    list.push(1u8);
    list.put_at(0, 2);
    list.push(3);
    assert!(rt; list.as_slice() == [2, 1, 3].as_slice());
    assert_eq!(rt; (list.len(), list.spare(), *list.at(1)), (3, 0, 1));
    list.retain(|item| *item != 1);
    assert!(rt; list.as_slice() == [2, 3].as_slice());
    list.clear();
    list.push(4);
    let mut others = Vec::with_capacity(rt.alloc(), 2)?;
    list.move_to(&mut others);
    assert!(rt; others.as_slice() == [4].as_slice());
    assert_eq!(rt; (list.len(), list.spare()), (0, 3));
    Ok(())
}
