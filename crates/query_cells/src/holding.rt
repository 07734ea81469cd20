//! Taking a cell and giving it back, as the maps see it.
ghost use Rattle.std.specs.Prelude.{◌≡◌, ◌≢◌, ◌<◌, ℕ};
ghost use Rattle.hall.specs.Fitting.{SharedFits, stands_by};
ghost use Rattle.hall.specs.Passes.{view, IsPassOf, shape_of, cargo_of};
ghost use Rattle.hall.specs.Slotting.{HasNonePending};
ghost use Rattle.hall.specs.Treading.{IsAt, IsWeakAt, Treads};
ghost use Rattle.hall.specs.Views.{standing};
ghost use Rattle.hall.specs.declared.view.Standing.TheVariants.{Away, Upgrade, Exclusive};
ghost use Rattle.shared_mutex.specs.Acquiring.{ElsewhereSame};
ghost use Rattle.shared_mutex.specs.Refused.{AddsReads};
ghost use Rattle.shared_mutex.specs.Tries.{AddsSteps};
ghost use Rattle.sync_cell.specs.Gains.{AnyStep, GainedBy, IsQuiet};
ghost use Rattle.map_cargo.specs.History.{IsSettled};
ghost use Rattle.map_cargo.specs.Steps.{Gained, Left};
ghost use Rattle.query_cells.specs.Answers.{LeadsBack, TellsNothing};

use hall::{Hall, Pass};
use map_cargo::MapCargo;
use std::sync::Wait;
use sync_cell::{
    ReadPtr, UpgradePtr, WritePtr, move_from_upgrade_to_write, move_from_write_to_read, rlock,
    ulock, unlock_read, unlock_upgrade_ptr, unlock_write, wlock,
};

/// Waits until the cell can be read, and holds it for reading: the pass knows its map.
pub(crate) fn hold_for_reading<R: Wait>(
    rt: &R,
    hall: &Hall<MapCargo>,
    pass: &mut Pass<MapCargo>,
    cell: u64,
) -> ReadPtr
    requires pass { IsPassOf hall.now pass.old }
    requires cell { cell < (shape_of hall.now).locks }
    requires away { standing (view pass.old) cell ≡ Away }
    requires clear { HasNonePending (view pass.old) }
    ensures pass { IsPassOf hall.now pass.new }
    ensures held { (result.guard.lock ≡ cell) × (standing (view pass.new) cell ≡ stands_by result.guard.form) }
    ensures fits { SharedFits (shape_of hall.now) (view pass.new) result.guard }
    ensures clear { HasNonePending (view pass.new) }
    ensures elsewhere { ElsewhereSame (view pass.old) (view pass.new) cell }
    ensures gained { Gained cell (view pass.old) (view pass.new) }
    ensures tries { AddsReads (λ shape number added. GainedBy AnyStep cell number added) (view pass.old) (view pass.new) }
    ensures trail { Treads (IsWeakAt cell) (view pass.old) (view pass.new) }
{
    rlock(rt, hall, pass, cell)
}

/// Waits until no other pass writes or holds upgrade at the cell, and holds it in upgrade mode: the pass knows its map.
pub(crate) fn hold_for_upgrade<R: Wait>(
    rt: &R,
    hall: &Hall<MapCargo>,
    pass: &mut Pass<MapCargo>,
    cell: u64,
) -> UpgradePtr
    requires pass { IsPassOf hall.now pass.old }
    requires cell { cell < (shape_of hall.now).locks }
    requires away { standing (view pass.old) cell ≡ Away }
    ensures pass { IsPassOf hall.now pass.new }
    ensures held { (result.guard.lock ≡ cell) × (standing (view pass.new) cell ≡ Upgrade) }
    ensures elsewhere { ElsewhereSame (view pass.old) (view pass.new) cell }
    ensures gained { Gained cell (view pass.old) (view pass.new) }
    ensures tries { AddsReads (λ shape number added. GainedBy AnyStep cell number added) (view pass.old) (view pass.new) }
    ensures trail { Treads (IsAt cell) (view pass.old) (view pass.new) }
{
    ulock(rt, hall, pass, cell)
}

/// Waits until the readers of a cell have left that is held in upgrade mode, and holds it for writing. What the pass
/// knows stays true: it holds the cell all the while.
pub(crate) fn go_on_to_write<R: Wait>(
    rt: &R,
    hall: &Hall<MapCargo>,
    pass: &mut Pass<MapCargo>,
    ptr: UpgradePtr,
) -> WritePtr
    requires pass { IsPassOf hall.now pass.old }
    requires cell { ptr.guard.lock < (shape_of hall.now).locks }
    requires held { standing (view pass.old) ptr.guard.lock ≡ Upgrade }
    ensures pass { IsPassOf hall.now pass.new }
    ensures held { (result.guard.lock ≡ ptr.guard.lock) × (standing (view pass.new) ptr.guard.lock ≡ Exclusive) }
    ensures elsewhere { ElsewhereSame (view pass.old) (view pass.new) ptr.guard.lock }
    ensures part { (view pass.new).part ≡ (view pass.old).part }
    ensures nothing { TellsNothing (view pass.old) (view pass.new) }
    ensures trail { Treads (IsAt ptr.guard.lock) (view pass.old) (view pass.new) }
{
    move_from_upgrade_to_write(rt, hall, pass, ptr)
}

/// Waits until the cell can be written, and holds it for writing: the pass knows its map.
pub(crate) fn hold_for_writing<R: Wait>(
    rt: &R,
    hall: &Hall<MapCargo>,
    pass: &mut Pass<MapCargo>,
    cell: u64,
) -> WritePtr
    requires pass { IsPassOf hall.now pass.old }
    requires cell { cell < (shape_of hall.now).locks }
    requires away { standing (view pass.old) cell ≡ Away }
    ensures pass { IsPassOf hall.now pass.new }
    ensures held { (result.guard.lock ≡ cell) × (standing (view pass.new) cell ≡ Exclusive) }
    ensures elsewhere { ElsewhereSame (view pass.old) (view pass.new) cell }
    ensures gained { Gained cell (view pass.old) (view pass.new) }
    ensures tries { AddsReads (λ shape number added. GainedBy AnyStep cell number added) (view pass.old) (view pass.new) }
    ensures trail { Treads (IsAt cell) (view pass.old) (view pass.new) }
{
    wlock(rt, hall, pass, cell)
}

/// Gives a cell back that was held for reading.
pub(crate) fn leave_reading(hall: &Hall<MapCargo>, pass: &mut Pass<MapCargo>, ptr: ReadPtr)
    requires pass { IsPassOf hall.now pass.old }
    requires fits { SharedFits (shape_of hall.now) (view pass.old) ptr.guard }
    ensures pass { IsPassOf hall.now pass.new }
    ensures away { standing (view pass.new) ptr.guard.lock ≡ Away }
    ensures elsewhere { ElsewhereSame (view pass.old) (view pass.new) ptr.guard.lock }
    ensures left { Left (view pass.old) (view pass.new) }
    ensures back { LeadsBack (cargo_of hall.now) (view pass.old) (view pass.new) }
    ensures trail { Treads (IsWeakAt ptr.guard.lock) (view pass.old) (view pass.new) }
    ensures quiet { AddsSteps IsQuiet (view pass.old) (view pass.new) }
{
    unlock_read(hall, pass, ptr);
}

/// Gives a cell back that was held in upgrade mode.
#[tactic(auto, using(crate::proofs::Placing::leads_once))]
pub(crate) fn leave_upgrade(hall: &Hall<MapCargo>, pass: &mut Pass<MapCargo>, ptr: UpgradePtr)
    requires pass { IsPassOf hall.now pass.old }
    requires cell { ptr.guard.lock < (shape_of hall.now).locks }
    requires held { standing (view pass.old) ptr.guard.lock ≡ Upgrade }
    ensures pass { IsPassOf hall.now pass.new }
    ensures away { standing (view pass.new) ptr.guard.lock ≡ Away }
    ensures elsewhere { ElsewhereSame (view pass.old) (view pass.new) ptr.guard.lock }
    ensures left { Left (view pass.old) (view pass.new) }
    ensures back { LeadsBack (cargo_of hall.now) (view pass.old) (view pass.new) }
    ensures trail { Treads (IsAt ptr.guard.lock) (view pass.old) (view pass.new) }
{
    unlock_upgrade_ptr(hall, pass, ptr);
}

/// Gives a cell back that was held for writing. Its words have to mean its map again.
#[tactic(auto, using(crate::proofs::Placing::leads_once))]
pub(crate) fn leave_writing(hall: &Hall<MapCargo>, pass: &mut Pass<MapCargo>, ptr: WritePtr)
    requires pass { IsPassOf hall.now pass.old }
    requires cell { ptr.guard.lock < (shape_of hall.now).locks }
    requires held { standing (view pass.old) ptr.guard.lock ≡ Exclusive }
    requires settled { IsSettled ptr.guard.lock (view pass.old).part }
    ensures pass { IsPassOf hall.now pass.new }
    ensures away { standing (view pass.new) ptr.guard.lock ≡ Away }
    ensures elsewhere { ElsewhereSame (view pass.old) (view pass.new) ptr.guard.lock }
    ensures left { Left (view pass.old) (view pass.new) }
    ensures back { LeadsBack (cargo_of hall.now) (view pass.old) (view pass.new) }
    ensures trail { Treads (IsAt ptr.guard.lock) (view pass.old) (view pass.new) }
    ensures quiet { AddsSteps IsQuiet (view pass.old) (view pass.new) }
{
    unlock_write(hall, pass, ptr);
}

/// Gives a cell back that was held for writing by way of reading: one step lets readers in, and one more gives the cell
/// back. Its words have to mean its map again.
pub(crate) fn leave_lowered(hall: &Hall<MapCargo>, pass: &mut Pass<MapCargo>, ptr: WritePtr)
    requires pass { IsPassOf hall.now pass.old }
    requires cell { ptr.guard.lock < (shape_of hall.now).locks }
    requires held { standing (view pass.old) ptr.guard.lock ≡ Exclusive }
    requires settled { IsSettled ptr.guard.lock (view pass.old).part }
    ensures pass { IsPassOf hall.now pass.new }
    ensures away { standing (view pass.new) ptr.guard.lock ≡ Away }
    ensures elsewhere { ElsewhereSame (view pass.old) (view pass.new) ptr.guard.lock }
    ensures left { Left (view pass.old) (view pass.new) }
    ensures back { LeadsBack (cargo_of hall.now) (view pass.old) (view pass.new) }
    ensures trail { Treads (IsAt ptr.guard.lock) (view pass.old) (view pass.new) }
    ensures quiet { AddsSteps IsQuiet (view pass.old) (view pass.new) }
{
    let ptr = move_from_write_to_read(hall, pass, ptr);
    leave_reading(hall, pass, ptr);
}
