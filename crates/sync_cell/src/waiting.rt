//! Waiting for a cell, for as long as it takes.
ghost use Rattle.std.specs.Prelude.{◌≡◌, ◌<◌, List};
ghost use Rattle.hall.specs.Fitting.{SharedFits, stands_by};
ghost use Rattle.hall.specs.Passes.{view, IsPassOf, shape_of};
ghost use Rattle.hall.specs.Slotting.{HasNonePending};
ghost use Rattle.hall.specs.Views.{standing};
ghost use Rattle.hall.specs.declared.guards.TryFault.{TryFault};
ghost use Rattle.hall.specs.declared.view.Standing.TheVariants.{Away, Upgrade, Exclusive};
ghost use Rattle.shared_mutex.specs.Acquiring.{ElsewhereSame};
ghost use Rattle.sync_cell.specs.Attempts.{ReadsAtLast};
ghost use Rattle.sync_cell.specs.Cells.{maps};
ghost use Rattle.shared_mutex.specs.Tries.{AddsSteps, IsPatientTry, WritesAtLast};
ghost use Rattle.upgrade_mode.specs.Tries.{EntersUpgradeAtLast};

use crate::attempts::{AnnounceAttempt, FinishAttempt, ReadAttempt, UpgradeAttempt};
use crate::pointers::{ReadPtr, UpgradePtr, WritePtr};
use hall::{Hall, Pass};
use map_cargo::MapCargo;
use std::sync::Wait;
use timed_wait::wait;

/// Waits until the cell can be read, and holds it for reading. The pass has to be away from the cell, with no token
/// undecided and no unit owed elsewhere.
///
/// It tries again and again, and lets another thread run between two tries. A refused try only looks, or takes back the
/// token that it placed. Its contract holds if it returns.
pub fn rlock<R: Wait>(
    rt: &R,
    hall: &Hall<MapCargo>,
    pass: &mut Pass<MapCargo>,
    cell: u64,
) -> ReadPtr
    requires pass { IsPassOf hall.now pass.old }
    requires cell { cell < (shape_of hall.now).locks }
    requires away { standing (view pass.old) cell ≡ Away }
    requires clear { HasNonePending (view pass.old) }
    ensures pass { IsPassOf hall.now pass.new }
    ensures cell { result.guard.lock ≡ cell }
    ensures stands { standing (view pass.new) cell ≡ stands_by result.guard.form }
    ensures fits { SharedFits (shape_of hall.now) (view pass.new) result.guard }
    ensures clear { HasNonePending (view pass.new) }
    ensures elsewhere { ElsewhereSame (view pass.old) (view pass.new) cell }
    ensures step { (faults : List TryFault) × ReadsAtLast maps (view pass.old) cell result.guard.form faults (view pass.new) }
    ensures steps { AddsSteps (IsPatientTry (view pass.old) cell) (view pass.old) (view pass.new) }
{
    let guard = wait(rt, &mut ReadAttempt { hall, pass, cell });
    ReadPtr { guard }
}

/// Waits until no other pass writes or holds upgrade at the cell, and holds it in upgrade mode. Readers aren't in the
/// way. The pass has to be away from the cell.
///
/// It tries again and again, and lets another thread run between two tries. A refused try only looks. Its contract
/// holds if it returns.
pub fn ulock<R: Wait>(
    rt: &R,
    hall: &Hall<MapCargo>,
    pass: &mut Pass<MapCargo>,
    cell: u64,
) -> UpgradePtr
    requires pass { IsPassOf hall.now pass.old }
    requires cell { cell < (shape_of hall.now).locks }
    requires away { standing (view pass.old) cell ≡ Away }
    ensures pass { IsPassOf hall.now pass.new }
    ensures cell { result.guard.lock ≡ cell }
    ensures stands { standing (view pass.new) cell ≡ Upgrade }
    ensures clear { HasNonePending (view pass.old) → HasNonePending (view pass.new) }
    ensures elsewhere { ElsewhereSame (view pass.old) (view pass.new) cell }
    ensures step { (faults : List TryFault) × EntersUpgradeAtLast maps (view pass.old) cell faults (view pass.new) }
    ensures steps { AddsSteps (IsPatientTry (view pass.old) cell) (view pass.old) (view pass.new) }
{
    let guard = wait(rt, &mut UpgradeAttempt { hall, pass, cell });
    UpgradePtr { guard }
}

/// Waits until the cell can be written, and holds it for writing. The pass has to be away from the cell.
///
/// It waits until its writer can be announced, and then until the readers have left; it stays announced between its
/// tries, so that no step of it takes an announcement back. Its contract holds if it returns.
pub fn wlock<R: Wait>(
    rt: &R,
    hall: &Hall<MapCargo>,
    pass: &mut Pass<MapCargo>,
    cell: u64,
) -> WritePtr
    requires pass { IsPassOf hall.now pass.old }
    requires cell { cell < (shape_of hall.now).locks }
    requires away { standing (view pass.old) cell ≡ Away }
    ensures pass { IsPassOf hall.now pass.new }
    ensures cell { result.guard.lock ≡ cell }
    ensures stands { standing (view pass.new) cell ≡ Exclusive }
    ensures clear { HasNonePending (view pass.old) → HasNonePending (view pass.new) }
    ensures elsewhere { ElsewhereSame (view pass.old) (view pass.new) cell }
    ensures step { (faults : List TryFault) × (misses : List TryFault) × WritesAtLast maps (view pass.old) cell faults misses (view pass.new) }
    ensures steps { AddsSteps (IsPatientTry (view pass.old) cell) (view pass.old) (view pass.new) }
{
    wait(rt, &mut AnnounceAttempt { hall, pass, cell });
    let from_upgrade = false;
    let guard = wait(
        rt,
        &mut FinishAttempt {
            hall,
            pass,
            cell,
            from_upgrade,
        },
    );
    WritePtr { guard }
}
