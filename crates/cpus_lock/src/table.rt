ghost use Rattle.std.specs.Prelude.{◌≡◌, ◌+◌, ◌≤◌, ◌<◌, ℕ, true, false, IfOk, IfErr, [], ◌∷◌, Some, None};
ghost use mathlib.Core.Option.{none};
ghost use Rattle.atomic_table.specs.Table.{step};
ghost use Rattle.cpus_lock.specs.Passes.{AreOwnersBelow, IsNestBelow, GrowsBy};
ghost use Rattle.cpus_lock.specs.Rule.{Took, leaver, first_seat, giver, newcomer, joined, HasCore, who, IsBack};

use crate::knows::Knows;
use crate::law::{Give, Law, Leave, Start, Take, TakeIn};
use crate::lock::Refused;
use crate::nested::Nested;
use atomic_table::{Seat, Table};
use std::alloc::Global;
use std::snapshot::Snapshot;

// The word and the slot under a lock, and the steps of its seats.
#[derive(Drop)]
pub(crate) struct LockTable<K: Nested> {
    pub(crate) table: Table<Option<K>, Knows, Start<K>, Law<K>, Global>,
    pub(crate) cores: u8,
    pub(crate) ghost sized: { (table.shared.table_id.words ≡ 1) × (table.shared.table_id.slots ≡ 1) },
    pub(crate) ghost counted: { (table.shared.key.cores ≡ cores) × (1 ≤ cores) },
}

impl<K: Nested> LockTable<K> {
    // A table round a value, and its first seat.
    pub(crate) fn open(
        alloc: Global,
        value: K,
        cores: u8,
    ) -> Result<(LockTable<K>, Seat<Option<K>, Knows>), Refused<K>>
        requires cores { (1 ≤ cores) × (cores ≤ 8) }
        requires owners { AreOwnersBelow cores (K.log value) }
        requires nest { IsNestBelow cores (K.nest value) }
        ensures table { IfOk result (λ r. (r.1.table_id ≡ r.0.table.shared.table_id) × (r.0.cores ≡ cores) × (r.0.table.shared.key.value.value ≡ value)) }
        ensures seat { IfOk result (λ r. r.1.me ≡ (first_seat cores (K.root value) (K.log value), [])) }
        ensures refused { IfErr result (λ refused. refused.value ≡ value) }
    {
        let Ok(mut slots) = Vec::with_capacity(alloc, 1) else {
            return Err(Refused { value });
        };
        let start = Start {
            cores,
            value: Snapshot::of(&value),
        };
        slots.push_reserved(Some(value));
        match Table::new(alloc, &[0], slots, &start) {
            Ok((table, seat)) => Ok((LockTable { table, cores }, seat)),
            Err(refused) => {
                let mut slots = refused.slots;
                let last = slots.pop();
                let Some(was) = last else { unreachable!() };
                let Some(value) = was else { unreachable!() };
                slots.destroy_empty();
                Err(Refused { value })
            }
        }
    }

    // One compare and exchange, which puts the core plus 1 where the word is 0. The answer is the word found.
    pub(crate) fn take(&self, seat: &mut Seat<Option<K>, Knows>, core: u8) -> u64
        requires table { seat.old.table_id ≡ self.now.table.shared.table_id }
        requires idle { (seat.old.me.1 ≡ []) × (seat.old.me.0.live ≡ true) × (seat.old.me.0.holding ≡ false) }
        requires core { seat.old.me.0.core ≡ core }
        ensures table { (seat.new.table_id ≡ seat.old.table_id) × (seat.new.id ≡ seat.old.id) }
        ensures took { Took K.Nested (step 1 0 0 (core + 1) none) seat.old.me result seat.new.me }
    {
        self.table
            .shared
            .compare_exchange::<Take<K>>(seat, 0, 0, core as u64 + 1)
    }

    // The value out of the slot that the seat holds.
    pub(crate) fn slot_out(&self, seat: &mut Seat<Option<K>, Knows>) -> K
        requires table { seat.old.table_id ≡ self.now.table.shared.table_id }
        requires home { (value : K) × (seat.old.me.1 ≡ (0, Some value) ∷ []) }
        ensures table { (seat.new.table_id ≡ seat.old.table_id) × (seat.new.id ≡ seat.old.id) }
        ensures value { seat.old.me.1 ≡ (0, Some result) ∷ [] }
        ensures out { seat.new.me ≡ (seat.old.me.0, (0, None) ∷ []) }
    {
        let was = self.table.shared.exchange(seat, 0, None);
        let Some(value) = was else { unreachable!() };
        value
    }

    // The value back into the slot, and the word back to 0.
    pub(crate) fn release(&self, seat: &mut Seat<Option<K>, Knows>, value: K)
        requires table { seat.old.table_id ≡ self.now.table.shared.table_id }
        requires holds { (seat.old.me.0.live ≡ true) × (seat.old.me.0.holding ≡ true) × (seat.old.me.0.kept ≡ []) }
        requires out { seat.old.me.1 ≡ (0, None) ∷ [] }
        requires root { K.root value ≡ seat.old.me.0.root }
        requires log { GrowsBy seat.old.me.0.core seat.old.me.0.entered (K.log value) }
        requires nest { IsNestBelow seat.old.me.0.cores (K.nest value) }
        ensures table { (seat.new.table_id ≡ seat.old.table_id) × (seat.new.id ≡ seat.old.id) }
        ensures left { (seat.new.me.1 ≡ []) × (seat.new.me.0 ≡ leaver seat.old.me.0 (K.log value)) }
    {
        let shared = &self.table.shared;
        let was = shared.exchange(seat, 0, Some(value));
        let None = was else { unreachable!() };
        shared.store::<Leave<K>>(seat, 0, 0);
    }

    // A seat of the next core.
    pub(crate) fn split(&self, seat: &mut Seat<Option<K>, Knows>) -> Seat<Option<K>, Knows>
        requires table { seat.old.table_id ≡ self.now.table.shared.table_id }
        requires idle { (seat.old.me.0.live ≡ true) × (seat.old.me.0.holding ≡ false) }
        requires next { (0 < seat.old.me.0.given) × (seat.old.me.0.given < seat.old.me.0.cores) }
        ensures kept { (seat.new.table_id ≡ seat.old.table_id) × (seat.new.me ≡ (giver seat.old.me.0, seat.old.me.1)) }
        ensures made { (result.table_id ≡ seat.old.table_id) × (result.me ≡ (newcomer seat.old.me.0, [])) }
    {
        self.table.shared.split_seat::<Give>(seat)
    }

    // Takes in another seat.
    pub(crate) fn join(&self, seat: &mut Seat<Option<K>, Knows>, other: Seat<Option<K>, Knows>)
        requires table { (seat.old.table_id ≡ self.now.table.shared.table_id) × (other.table_id ≡ self.now.table.shared.table_id) }
        requires idle { (seat.old.me.0.live ≡ true) × (seat.old.me.0.holding ≡ false) }
        requires other { (other.me.1 ≡ []) × (other.me.0.live ≡ true) × (other.me.0.holding ≡ false) }
        ensures { (seat.new.table_id ≡ seat.old.table_id) × (seat.new.me ≡ (joined seat.old.me.0 other.me.0, seat.old.me.1)) }
    {
        self.table.shared.join_seat::<TakeIn>(seat, other);
    }

    // The value, where the seat has every core.
    pub(crate) fn close(self, seat: Seat<Option<K>, Knows>) -> K
        requires table { seat.table_id ≡ self.table.shared.table_id }
        requires idle { (seat.me.0.live ≡ true) × (seat.me.0.holding ≡ false) }
        requires all { (c : ℕ) → c < self.cores → HasCore (who seat.me.0) c }
        ensures { IsBack K.Nested self.cores self.table.shared.key.value.value seat.me.0 result }
    {
        let LockTable { table, cores: _ } = self;
        let mut closed = table.close_with(seat);
        let was = closed.take(0);
        closed.free();
        let Some(value) = was else { unreachable!() };
        value
    }
}
