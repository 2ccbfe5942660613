ghost use Rattle.std.specs.Prelude.{◌≡◌, ◌+◌, ◌<◌, ◌≤◌, ◌∷◌, ◌++◌, [], length, slice_get, insert, Some, IfOk, vec_len, vec_capacity};
ghost use Rattle.std.specs.List.Retain.{IsFiltered};
ghost use Rattle.std.specs.Fn.{CalledAt};

use std::alloc::{AllocError, Global};
use std::marker::Model;

/// A list with room for a stated number of items, which is made with it: no call but `new` takes memory.
///
/// Contracts see the items in order (`items`), and how many fit in all (`room`). This project's own.
#[derive(Drop)]
pub struct Bounded<T> {
    room: usize,
    items: Vec<T>,
}

impl<T> Model for Bounded<T> {
    ghost use Rattle.std.specs.Prelude.{◌≤◌, length, vec_capacity};
    ghost use Rattle.rt_base.specs.Roomy.{Roomy};

    ghost Value = { Roomy T };

    ghost view = { λ l. record { items = l.items.items; room = l.room } };

    ghost invariant = { λ l. (length l.items.items ≤ l.room) × (l.room ≤ vec_capacity l.items) };
}

impl<T> Bounded<T> {
    /// An empty list with room for `room` items. The one refusal is want of memory.
    pub fn new(alloc: Global, room: usize) -> Result<Bounded<T>, AllocError>
        ensures { IfOk result (λ list. list ≡ record { items = []; room = room }) }
    {
        let items = Vec::with_capacity(alloc, room)?;
        Ok(Bounded { room, items })
    }

    /// Appends an item, for which there is room.
    pub fn push(&mut self, item: T)
        requires { length self.old.items < self.old.room }
        ensures { self.new ≡ record self.old { items = self.old.items ++ item ∷ [] } }
    {
        self.items.push_reserved(item);
    }

    /// The items in order.
    pub fn as_slice(&self) -> &[T]
        ensures value { result.now ≡ self.now.items }
        ensures fits { length self.now.items ≤ self.now.room }
    {
        self.items.as_slice()
    }

    /// The number of items, at most the room.
    pub fn len(&self) -> usize
        ensures value { result ≡ length self.now.items }
        ensures fits { result ≤ self.now.room }
    {
        self.items.len()
    }

    /// How many more items fit.
    pub fn spare(&self) -> usize
        ensures { length self.now.items + result ≡ self.now.room }
    {
        self.room - self.items.len()
    }

    /// The item at a place, from 0 on.
    pub fn at(&self, place: usize) -> &T
        requires { place < length self.now.items }
        ensures { slice_get self.now.items place ≡ Some result.now }
    {
        &self.items[place]
    }
}

impl<T: Drop> Bounded<T> {
    /// Drops all items, and keeps the room.
    pub fn clear(&mut self)
        ensures { self.new ≡ record self.old { items = [] } }
    {
        self.items.clear();
    }

    /// Puts an item, for which there is room, at a place: those from there on stand one place later.
    pub fn put_at(&mut self, place: usize, item: T)
        requires room { length self.old.items < self.old.room }
        requires within { place ≤ length self.old.items }
        ensures { self.new ≡ record self.old { items = insert self.old.items place item } }
    {
        let _ = self.items.insert(place, item);
    }

    /// Drops the items that don't pass a test, and keeps the order and the room of the others.
    pub fn retain<F: FnMut(&T) -> bool>(&mut self, test: F)
        requires { F.IsAlwaysCallable test }
        ensures filtered { IsFiltered (CalledAt F.FnMut) test self.old.items self.new.items }
        ensures shorter { length self.new.items ≤ length self.old.items }
        ensures room { self.new.room ≡ self.old.room }
    {
        self.items.retain(test);
    }

    /// Moves all items to the end of others, which have room for them. It takes no memory.
    pub fn move_to(&mut self, others: &mut Vec<T>)
        requires { vec_len others.old + length self.old.items ≤ vec_capacity others.old }
        ensures moved { others.new.items ≡ others.old.items ++ self.old.items }
        ensures capacity { vec_capacity others.old ≤ vec_capacity others.new }
        ensures empty { self.new ≡ record self.old { items = [] } }
    {
        if others.append(&mut self.items).is_err() {
            unreachable!();
        }
    }
}
