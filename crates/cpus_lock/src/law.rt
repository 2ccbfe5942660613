ghost use Rattle.cpus_lock.specs.Rule.{Took, Left, giver, newcomer, joined, spent};

use crate::knows::Knows;
use crate::nested::Nested;
use atomic_table::{Join, Play, Split, TableRule};
use std::marker::PhantomData;
use std::snapshot::Snapshot;

// What the rule knows from the start: for how many cores the lock is, and its first value.
#[derive(Drop)]
pub(crate) struct Start<K> {
    pub(crate) cores: u8,
    pub(crate) value: Snapshot<K>,
}

// The rule of the lock.
pub(crate) struct Law<K> {
    marker: PhantomData<K>,
}

impl<K: Nested> TableRule<Option<K>, Knows, Start<K>> for Law<K> {
    ghost use Rattle.cpus_lock.specs.Rule.{Locked, first_seat};

    ghost holds = { λ start. Locked K.Nested start.cores start.value.value };

    ghost first = { λ start. first_seat start.cores (K.root start.value.value) (K.log start.value.value) };
}

// The step of a try.
pub(crate) struct Take<K> {
    marker: PhantomData<K>,
}

impl<K: Nested> Play<Option<K>, Knows> for Take<K> {
    ghost then = { Took K.Nested };
}

// The step that releases the word.
pub(crate) struct Leave<K> {
    marker: PhantomData<K>,
}

impl<K: Nested> Play<Option<K>, Knows> for Leave<K> {
    ghost then = { Left K.Nested };
}

// The step that makes a seat of a further core.
pub(crate) struct Give;

impl Split<Knows> for Give {
    ghost left = { giver };

    ghost right = { newcomer };
}

// The step that joins a seat into another.
pub(crate) struct TakeIn;

impl Join<Knows> for TakeIn {
    ghost both = { joined };

    ghost spent = { spent };
}
