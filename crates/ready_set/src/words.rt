ghost use Rattle.std.specs.Prelude.{◌≡◌, ◌+◌, ◌<◌, IfOk, length, replicate, slice_index_or, slice_set};

use rt_base::Steps;
use std::alloc::{AllocError, Global};
use std::marker::Model;
use std::sync::ledger::Ledger;

/// Words or rows by number, whose only reader counts each read. Contracts see the list of them.
#[derive(Drop)]
pub struct Words<T> {
    words: Vec<T>,
}

impl<T> Model for Words<T> {
    ghost use Rattle.std.specs.Prelude.{List};

    ghost Value = { List T };

    ghost view = { λ w. w.words.items };
}

impl<T: Copy> Words<T> {
    /// A number of words, all the same. The only error is want of memory.
    pub fn new(alloc: Global, word: T, count: usize) -> Result<Words<T>, AllocError>
        ensures { IfOk result (λ w. w ≡ replicate count word) }
    {
        let mut words = Vec::with_capacity(alloc, count)?;
        for _place in 0..count {
            words.push_reserved(word);
        }
        Ok(Words { words })
    }

    /// The word at a place. It counts as one read.
    pub fn read<L: Ledger>(&self, at: usize, steps: &mut Steps<L>) -> T
        requires { at < length self.now }
        ensures value { result ≡ slice_index_or self.now at result }
        ensures cost { steps.new ≡ steps.old + 1 }
    {
        steps.tick();
        self.words[at]
    }

    /// The word that an edit is about to change or to follow. As it takes `&mut self`, no call that only reads can use it.
    pub fn stored(&mut self, at: usize) -> T
        requires { at < length self.old }
        ensures value { result ≡ slice_index_or self.old at result }
        ensures same { self.new ≡ self.old }
    {
        self.words[at]
    }

    /// Puts a word at a place.
    pub fn write(&mut self, at: usize, word: T)
        requires { at < length self.old }
        ensures { self.new ≡ slice_set self.old at word }
    {
        self.words[at] = word;
    }
}
