ghost use Rattle.std.specs.Prelude.{ℕ, ◌≡◌, ◌<◌, ◌≤◌, [], length, map, min, not, ◌==◌, slice_get, vec_capacity, IfOk};
ghost use Rattle.rt_plain.specs.kernel.Ownership.{Ownership, changes};
ghost use Rattle.mutex_chain.specs.Graph.{Keeps};
ghost use Rattle.mutex_chain.specs.Owners.{IsSound};
ghost use Rattle.mutex_chain.specs.Walks.{curs_of};
ghost use Rattle.mutex_chain.specs.Raising.{place_among};
ghost use Rattle.mutex_chain.specs.Noting.{AreNotes, note_of, is_note_of, with_note, settled_note};

use crate::owners::Owners;
use rt_base::{Prio, ThreadNo};
use std::alloc::{AllocError, Global};
use std::marker::Model;

/// A thread whose current priority changed, with both numbers.
#[derive(Clone, Copy, Debug, PartialEq, Eq)]
pub struct Change {
    pub thread: ThreadNo,
    pub old: Prio,
    pub new: Prio,
}

impl Model for Change {
    ghost use Rattle.rt_plain.specs.kernel.Ownership.{CurChange};

    ghost Value = { CurChange };

    ghost view = { λ c. record { thread = c.thread; old = c.old; new = c.new } };

    ghost inverse = { λ c. record { thread = c.thread; old = c.old; new = c.new } };
}

/// The threads whose current priority an edit changed, in thread order. Contracts see them, and for
/// how many threads there is room.
#[derive(Drop)]
pub struct Changes {
    threads: u16,
    changes: Vec<Change>,
}

impl Model for Changes {
    ghost use Rattle.std.specs.Prelude.{◌≤◌, vec_capacity};
    ghost use Rattle.mutex_chain.specs.Graph.{ChangeList};

    ghost Value = { ChangeList };

    ghost view = { λ c. record { threads = c.threads; changes = c.changes.items } };

    ghost invariant = { λ c. c.threads ≤ vec_capacity c.changes };
}

impl Changes {
    /// No change, with room for a number of threads. No other call takes memory.
    pub fn new(alloc: Global, threads: u16) -> Result<Changes, AllocError>
        ensures { IfOk result (λ c. c ≡ record { threads = threads; changes = [] }) }
    {
        let changes = Vec::with_capacity(alloc, threads as usize)?;
        Ok(Changes { threads, changes })
    }

    /// The changes.
    pub fn as_slice(&self) -> &[Change]
        ensures { result.now ≡ self.now.changes }
    {
        self.changes.as_slice()
    }

    // Drops what was there.
    pub(crate) fn clear(&mut self)
        ensures { self.new ≡ record self.old { changes = [] } }
    {
        self.changes.clear();
    }

    // Notes the number that a thread had, unless it has a note already.
    pub(crate) fn note(&mut self, thread: ThreadNo, old: u16)
        requires { length (with_note thread old self.old.changes) ≤ self.old.threads }
        ensures { self.new ≡ record self.old { changes = with_note thread old self.old.changes } }
    {
        let place = place_among(thread, self.changes.as_slice());
        if has_note(thread, self.changes.as_slice(), place) {
            return;
        }
        let _ = self.changes.insert(place, Change::note_of(thread, old));
    }

    // Gives each note the number of now, and drops those of threads that are gone or have the same one.
    pub(crate) fn settle(&mut self, owners: &Owners, numbers: &[u16])
        requires sound { IsSound owners.now }
        requires numbers { numbers.now ≡ curs_of owners.now }
        ensures changes { (o : Ownership) → IsSound o → Keeps o owners.now →
            AreNotes (curs_of o) numbers.now self.old.changes →
            self.new ≡ record self.old { changes = changes o owners.now } }
        ensures room { self.new.threads ≡ self.old.threads }
    {
        renew_notes(owners, numbers, &mut self.changes);
        self.changes.retain(|change| change.is_change());
    }
}

impl Change {
    // The note of a thread.
    fn note_of(thread: ThreadNo, old: u16) -> Change
        ensures { result ≡ note_of thread old }
    {
        let old = number(old);
        Change {
            thread,
            old,
            new: old,
        }
    }

    // Whether its numbers differ.
    fn is_change(&self) -> bool
        ensures { result ≡ not (self.now.old == self.now.new) }
    {
        self.old.0 != self.new.0
    }

    // The note with the number of now, where the thread is there.
    fn settled(&self, owners: &Owners, numbers: &[u16]) -> Change
        requires { length numbers.now ≡ length owners.now.members }
        ensures { result ≡ settled_note owners.now numbers.now self.now }
    {
        let place = self.thread.0 as usize;
        if place >= numbers.len() || !owners.has(self.thread) {
            return *self;
        }
        Change {
            thread: self.thread,
            old: self.old,
            new: number(numbers[place]),
        }
    }
}

// Gives each note the number of now.
fn renew_notes(owners: &Owners, numbers: &[u16], notes: &mut Vec<Change>)
    requires { length numbers.now ≡ length owners.now.members }
    ensures notes { notes.new.items ≡ map (settled_note owners.now numbers.now) notes.old.items }
    ensures room { vec_capacity notes.new ≡ vec_capacity notes.old }
{
    for i in 0..notes.len() {
        let note = notes[i].settled(owners, numbers);
        notes[i] = note;
    }
}

// Whether the note of a thread stands at a place.
fn has_note(thread: ThreadNo, notes: &[Change], place: usize) -> bool
    ensures { result ≡ is_note_of thread (slice_get notes.now place) }
{
    match notes.get(place) {
        None => false,
        Some(note) => note.thread.0 == thread.0,
    }
}

// A number as a priority. That of a thread which is there fits.
pub fn number(cur: u16) -> Prio
    ensures { result ≡ min cur 255 }
{
    Prio(cur.min(255) as u8)
}

// Where the change of a thread belongs in a list in thread order.
fn place_among(thread: ThreadNo, changes: &[Change]) -> usize
    ensures { result ≡ place_among thread changes.now }
{
    for i in 0..changes.len() {
        let change = &changes[i];
        if change.thread.0 >= thread.0 {
            return i;
        }
    }
    changes.len()
}
