//! Taking a cell by a try or until a deadline, which may be refused.
ghost use Rattle.std.specs.Prelude.{◌≡◌, ◌≢◌, ◌<◌, ◌≤◌, ◌⊎◌, ℕ, MatchOption, MatchResult, ⊤, false};
ghost use Rattle.hall.specs.Fitting.{SharedFits, stands_by};
ghost use Rattle.hall.specs.Passes.{view, IsPassOf, shape_of};
ghost use Rattle.hall.specs.Refusals.{BusyForReading, BusyForWriting, ReadTwoWords};
ghost use Rattle.hall.specs.Slotting.{HasNonePending};
ghost use Rattle.hall.specs.Treading.{IsAt, IsWeakAt, Treads};
ghost use Rattle.hall.specs.Views.{standing};
ghost use Rattle.hall.specs.declared.view.Standing.TheVariants.{Away, Exclusive};
ghost use Rattle.shared_mutex.specs.Refused.{AddsReads};
ghost use Rattle.sync_cell.specs.Gains.{GainedBy, refuses_reader, refuses_writer};
ghost use Rattle.sync_cell.specs.Waits.{AskedInTime, AskedTooLate};
ghost use Rattle.query_cells.specs.Answers.{Took, TurnedAway};

use hall::{Hall, Pass, TryFault};
use map_cargo::MapCargo;
use ql_base::Clock;
use std::sync::Wait;
use std::thread;
use sync_cell::{ReadPtr, WritePtr, rlock_until, try_rlock, try_wlock, wlock_until};

/// Tries to hold the cell for reading, again after each try that another pass came between. `None` comes where the
/// lock's word conflicted, at the first such word.
pub(crate) fn try_to_read<R: Wait>(
    rt: &R,
    hall: &Hall<MapCargo>,
    pass: &mut Pass<MapCargo>,
    cell: u64,
) -> Option<ReadPtr>
    requires pass { IsPassOf hall.now pass.old }
    requires cell { cell < (shape_of hall.now).locks }
    requires away { standing (view pass.old) cell ≡ Away }
    requires clear { HasNonePending (view pass.old) }
    ensures pass { IsPassOf hall.now pass.new }
    ensures trail { Treads (IsWeakAt cell) (view pass.old) (view pass.new) }
    ensures taken { MatchOption result (TurnedAway cell (view pass.old) (view pass.new)) (λ ptr. (ptr.guard.lock ≡ cell) × Took cell (stands_by ptr.guard.form) (view pass.old) (view pass.new)) }
    ensures fits { MatchOption result ⊤ (λ ptr. SharedFits (shape_of hall.now) (view pass.new) ptr.guard) }
    ensures tries { MatchOption result ⊤ (λ _. AddsReads (λ shape number added. GainedBy (λ e. refuses_reader shape.policy e ≡ false) cell number added) (view pass.old) (view pass.new)) }
    ensures busy { MatchOption result (AddsReads (λ shape number added. BusyForReading shape number added cell) (view pass.old) (view pass.new)) (λ _. ⊤) }
{
    for _ in rt.forever() {
        match try_rlock(hall, pass, cell) {
            Ok(ptr) => return Some(ptr),
            Err(TryFault::Busy { .. }) => return None,
            Err(TryFault::Raced { .. }) => thread::yield_now(),
        }
    }
    unreachable!()
}

/// Tries to hold the cell for writing, again after each try that another pass came between. `None` comes where the
/// lock's word conflicted, or counted readers, at the first such word.
pub(crate) fn try_to_write<R: Wait>(
    rt: &R,
    hall: &Hall<MapCargo>,
    pass: &mut Pass<MapCargo>,
    cell: u64,
) -> Option<WritePtr>
    requires pass { IsPassOf hall.now pass.old }
    requires cell { cell < (shape_of hall.now).locks }
    requires away { standing (view pass.old) cell ≡ Away }
    ensures pass { IsPassOf hall.now pass.new }
    ensures trail { Treads (IsAt cell) (view pass.old) (view pass.new) }
    ensures taken { MatchOption result (TurnedAway cell (view pass.old) (view pass.new)) (λ ptr. (ptr.guard.lock ≡ cell) × Took cell Exclusive (view pass.old) (view pass.new)) }
    ensures tries { MatchOption result ⊤ (λ _. AddsReads (λ shape number added. GainedBy (λ e. refuses_writer e ≡ false) cell number added) (view pass.old) (view pass.new)) }
    ensures busy { MatchOption result (AddsReads (λ shape number added. BusyForWriting shape number added cell) (view pass.old) (view pass.new)) (λ _. ⊤) }
{
    for _ in rt.forever() {
        match try_wlock(hall, pass, cell) {
            Ok(ptr) => return Some(ptr),
            Err(TryFault::Busy { .. }) => return None,
            Err(TryFault::Raced { .. }) => thread::yield_now(),
        }
    }
    unreachable!()
}

/// Waits until the cell is held for reading, or until a try was refused and the clock then told the deadline or later:
/// so much it told.
pub(crate) fn read_until<R: Wait, T: Clock>(
    rt: &R,
    hall: &Hall<MapCargo>,
    pass: &mut Pass<MapCargo>,
    cell: u64,
    clock: &mut T,
    deadline: u64,
) -> Result<ReadPtr, u64>
    requires pass { IsPassOf hall.now pass.old }
    requires cell { cell < (shape_of hall.now).locks }
    requires away { standing (view pass.old) cell ≡ Away }
    requires clear { HasNonePending (view pass.old) }
    ensures pass { IsPassOf hall.now pass.new }
    ensures trail { Treads (IsWeakAt cell) (view pass.old) (view pass.new) }
    ensures taken { MatchResult result (λ ptr. (ptr.guard.lock ≡ cell) × Took cell (stands_by ptr.guard.form) (view pass.old) (view pass.new)) (λ _. TurnedAway cell (view pass.old) (view pass.new)) }
    ensures fits { MatchResult result (λ ptr. SharedFits (shape_of hall.now) (view pass.new) ptr.guard) (λ _. ⊤) }
    ensures late { MatchResult result (λ _. ⊤) (λ now. (deadline ≤ now) × (now ≡ T.last clock.new)) }
    ensures clock { MatchResult result (λ _. (refusals : ℕ) × AskedInTime T.last T.answers deadline refusals clock.old clock.new) (λ now. (refusals : ℕ) × AskedTooLate T.last T.answers deadline refusals clock.old clock.new now) }
    ensures reads { MatchResult result (λ _. ⊤) (λ _. AddsReads (λ shape number added. BusyForReading shape number added cell ⊎ ReadTwoWords shape number added cell) (view pass.old) (view pass.new)) }
{
    match rlock_until(rt, hall, pass, cell, clock, deadline) {
        Ok(ptr) => Ok(ptr),
        Err(late) => Err(late.now),
    }
}

/// Waits until the cell is held for writing, or until a try was refused and the clock then told the deadline or later:
/// so much it told.
pub(crate) fn write_until<R: Wait, T: Clock>(
    rt: &R,
    hall: &Hall<MapCargo>,
    pass: &mut Pass<MapCargo>,
    cell: u64,
    clock: &mut T,
    deadline: u64,
) -> Result<WritePtr, u64>
    requires pass { IsPassOf hall.now pass.old }
    requires cell { cell < (shape_of hall.now).locks }
    requires away { standing (view pass.old) cell ≡ Away }
    ensures pass { IsPassOf hall.now pass.new }
    ensures trail { Treads (IsAt cell) (view pass.old) (view pass.new) }
    ensures taken { MatchResult result (λ ptr. (ptr.guard.lock ≡ cell) × Took cell Exclusive (view pass.old) (view pass.new)) (λ _. TurnedAway cell (view pass.old) (view pass.new)) }
    ensures late { MatchResult result (λ _. ⊤) (λ now. (deadline ≤ now) × (now ≡ T.last clock.new)) }
    ensures clock { MatchResult result (λ _. (refusals : ℕ) × AskedInTime T.last T.answers deadline refusals clock.old clock.new) (λ now. (refusals : ℕ) × AskedTooLate T.last T.answers deadline refusals clock.old clock.new now) }
    ensures reads { MatchResult result (λ _. ⊤) (λ _. AddsReads (λ shape number added. BusyForWriting shape number added cell ⊎ ReadTwoWords shape number added cell) (view pass.old) (view pass.new)) }
{
    match wlock_until(rt, hall, pass, cell, clock, deadline) {
        Ok(ptr) => Ok(ptr),
        Err(late) => Err(late.now),
    }
}
