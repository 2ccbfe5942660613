ghost use Rattle.std.specs.Prelude.{◌≡◌, ◌+◌, ◌≤◌, ◌∷◌, ◌++◌, [], length, IfOk, IfErr, OnOk, OnErr, IfSome, IfNone};

use std::alloc::{AllocError, Global};
use std::marker::Model;

/// A list that grows by `push` and takes its memory from the allocator that it was made with.
///
/// Contracts see it as a list of its items, in order.
#[derive(Drop)]
pub struct List<T> {
    items: Vec<T>,
}

impl<T> Model for List<T> {
    ghost use Rattle.std.specs.Prelude.{List as Items};

    ghost Value = { Items T };

    ghost view = { λ s. s.items.items };
}

/// There was no memory for one more item. It comes back, and the list is as it was.
#[derive(Drop)]
pub struct AllocFailed<T> {
    /// The item that wasn't pushed.
    pub item: T,
}

/// A type whose values can be made a second time, as the items of a list that is copied.
pub trait Duplicate: Sized + Drop {
    /// An equal value that takes its memory from `alloc`. `AllocError` is want of memory.
    fn duplicate(&self, alloc: Global) -> Result<Self, AllocError>
        ensures { IfOk result (λ copy. copy ≡ self.now) };
}

impl<T> List<T> {
    /// An empty list. It takes no memory before the first `push`.
    pub fn new(alloc: Global) -> List<T>
        ensures { result ≡ [] }
    {
        List {
            items: Vec::new(alloc),
        }
    }

    /// Appends the item. `AllocFailed` is want of memory: it gives the item back and leaves the list as it was.
    pub fn push(&mut self, item: T) -> Result<(), AllocFailed<T>>
        ensures ok { OnOk result (self.new ≡ self.old ++ item ∷ []) }
        ensures err { OnErr result (self.new ≡ self.old) }
        ensures item_returned { IfErr result (λ failed. failed.item ≡ item) }
    {
        match self.items.push(item) {
            Ok(()) => Ok(()),
            Err(failed) => Err(AllocFailed { item: failed.value }),
        }
    }

    /// Takes the last item. `None` exactly where the list is empty.
    pub fn pop(&mut self) -> Option<T>
        ensures some { IfSome result (λ item. self.old ≡ self.new ++ item ∷ []) }
        ensures none { IfNone result ((self.old ≡ []) × (self.new ≡ [])) }
    {
        self.items.pop()
    }

    /// The items in order.
    pub fn as_slice(&self) -> &[T]
        ensures { result.now ≡ self.now }
    {
        self.items.as_slice()
    }

    /// The number of items.
    pub fn len(&self) -> usize
        ensures { result ≡ length self.now }
    {
        self.items.len()
    }
}

impl<T: Copy> List<T> {
    /// Adds copies of items at the end, in order. Want of memory leaves the list as it was.
    pub fn extend_from_slice(&mut self, items: &[T]) -> Result<(), AllocError>
        ensures ok { OnOk result (self.new ≡ self.old ++ items.now) }
        ensures err { OnErr result (self.new ≡ self.old) }
    {
        self.items.extend_from_slice(items)
    }
}

impl<T: Duplicate> List<T> {
    /// A list of equal items in memory of its own. `AllocError` is want of memory.
    pub fn copy(&self, alloc: Global) -> Result<List<T>, AllocError>
        ensures { IfOk result (λ copy. copy ≡ self.now) }
    {
        let mut items = Vec::with_capacity(alloc, self.items.len())?;
        for item in &self.items {
            items.push_reserved(item.duplicate(alloc)?);
        }
        Ok(List { items })
    }
}
