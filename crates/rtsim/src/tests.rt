use crate::given_words;
use std::env::FillError;
use std::rt::Env;
use std::test::Fail;

// The words of a process, its name first.
#[derive(Drop)]
struct Words {
    words: [&'static [u8]; 3],
}

impl Env for Words {
    fn arg(&self, i: usize, buf: &mut [u8]) -> Result<usize, FillError> {
        let Some(word) = self.words.get(i) else {
            return Err(FillError::NotPresent);
        };
        if buf.len() < word.len() {
            return Err(FillError::TooLong);
        }
        let (front, _) = buf.split_at_mut(word.len());
        front.copy_from_slice(word);
        Ok(word.len())
    }

    fn var(&self, _name: &str, _buf: &mut [u8]) -> Result<usize, FillError> {
        Err(FillError::NotPresent)
    }

    fn var_at(&self, _i: usize, _buf: &mut [u8]) -> Result<usize, FillError> {
        Err(FillError::NotPresent)
    }
}

#[test]
fn words_that_are_no_text_are_no_command(rt: HostRuntime) -> Result<(), Fail> {
    let text = Words {
        words: [b"rtsim", b"trace", b"b"],
    };
    let words = given_words(&(text, rt.alloc()))?;
    assert_eq!(rt; words.len(), 2);
    assert_eq!(rt; words[0].as_str(), "trace");
    assert_eq!(rt; words[1].as_str(), "b");
    let none = Words {
        words: [b"rtsim", b"trace", b"\xff"],
    };
    assert!(rt; given_words(&(none, rt.alloc()))?.is_empty());
    Ok(())
}
