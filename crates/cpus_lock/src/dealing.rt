ghost use Rattle.std.specs.Prelude.{◌≡◌, ◌≤◌, ◌<◌, true, false, [], reverse, vec_capacity, length, IfOk, IfErr};
ghost use Rattle.cpus_lock.specs.Passes.{first_passes};
ghost use Rattle.cpus_lock.specs.Rule.{first_seat};
ghost use Rattle.cpus_lock.specs.Seats.{AreOf, TookIn, lock_of, taker};

use crate::knows::Knows;
use crate::nested::Nested;
use crate::pass::Pass;
use crate::table::LockTable;
use atomic_table::Seat;
use rt_base::{CoreNo, List};
use std::alloc::Global;

impl<K: Nested> LockTable<K> {
    // A pass for each core, made of the first seat, the last core's first. The row has room for them.
    pub(crate) fn deal(&self, seat: Seat<Option<K>, Knows>, row: Vec<Pass>) -> Vec<Pass>
        requires table { seat.table_id ≡ self.now.table.shared.table_id }
        requires seat { seat.me ≡ (first_seat self.now.cores seat.me.0.root seat.me.0.log, []) }
        requires row { (row.items ≡ []) × (self.now.cores ≤ vec_capacity row) }
        ensures table { AreOf seat.table_id result.items }
        ensures passes { reverse result.items ≡ first_passes (lock_of seat.table_id self.now.cores) seat.me.0.root seat.me.0.log }
    {
        let mut seat = seat;
        let mut row = row;
        for core in 1..self.cores {
            let next = self.split(&mut seat);
            let _ = row.insert(0, Pass::of_seat(CoreNo(core), next));
        }
        row.push_reserved(Pass::of_seat(CoreNo(0), seat));
        row
    }

    // The passes of a row, from its end on. For want of memory, the seat of one that took in all others.
    pub(crate) fn list(
        &self,
        alloc: Global,
        row: Vec<Pass>,
    ) -> Result<List<Pass>, Seat<Option<K>, Knows>>
        requires { AreOf self.now.table.shared.table_id row.items }
        ensures ok { IfOk result (λ passes. passes ≡ reverse row.items) }
        ensures table { IfErr result (λ seat. seat.table_id ≡ self.now.table.shared.table_id) }
        ensures seat { IfErr result (λ seat. (seat.me.0.live ≡ true) × (seat.me.0.holding ≡ false)) }
        ensures took { IfErr result (λ seat. TookIn seat.table_id (reverse row.items) seat.me.0) }
    {
        let mut row = row;
        let mut passes = List::new(alloc);
        while let Some(pass) = row.pop() {
            if let Err(failed) = passes.push(pass) {
                let mut seat = failed.item.into_seat();
                self.take_in(&mut seat, passes);
                self.take_in_row(&mut seat, row);
                return Err(seat);
            }
        }
        Ok(passes)
    }

    // The seat of one of the passes, which took in all others.
    pub(crate) fn gather(&self, passes: List<Pass>) -> Seat<Option<K>, Knows>
        requires some { 0 < length passes }
        requires passes { AreOf self.now.table.shared.table_id passes }
        ensures table { result.table_id ≡ self.now.table.shared.table_id }
        ensures seat { (result.me.0.live ≡ true) × (result.me.0.holding ≡ false) }
        ensures took { TookIn result.table_id passes result.me.0 }
    {
        let mut others = passes;
        let last = others.pop();
        let Some(pass) = last else { unreachable!() };
        let mut seat = pass.into_seat();
        self.take_in(&mut seat, others);
        seat
    }

    // Takes in passes.
    fn take_in(&self, seat: &mut Seat<Option<K>, Knows>, passes: List<Pass>)
        requires table { seat.old.table_id ≡ self.now.table.shared.table_id }
        requires idle { (seat.old.me.0.live ≡ true) × (seat.old.me.0.holding ≡ false) }
        requires passes { AreOf self.now.table.shared.table_id passes }
        ensures { (seat.new.table_id ≡ seat.old.table_id) × (seat.new.me ≡ (taker seat.old.me.0 passes, seat.old.me.1)) }
    {
        let mut passes = passes;
        while let Some(pass) = passes.pop() {
            self.join(seat, pass.into_seat());
        }
    }

    // The same of a row.
    fn take_in_row(&self, seat: &mut Seat<Option<K>, Knows>, row: Vec<Pass>)
        requires table { seat.old.table_id ≡ self.now.table.shared.table_id }
        requires idle { (seat.old.me.0.live ≡ true) × (seat.old.me.0.holding ≡ false) }
        requires row { AreOf self.now.table.shared.table_id row.items }
        ensures { (seat.new.table_id ≡ seat.old.table_id) × (seat.new.me ≡ (taker seat.old.me.0 row.items, seat.old.me.1)) }
    {
        let mut row = row;
        while let Some(pass) = row.pop() {
            self.join(seat, pass.into_seat());
        }
    }
}
