//! From one mode of a cell to another, without giving the cell back in between.
ghost use Rattle.std.specs.Prelude.{◌≡◌, ◌<◌, List};
ghost use Rattle.hall.specs.Fitting.{SharedFits};
ghost use Rattle.hall.specs.Passes.{view, IsPassOf, shape_of};
ghost use Rattle.hall.specs.Slotting.{HasNonePending};
ghost use Rattle.hall.specs.Upgrading.{LowersToShared, LowersToUpgrade, LowersUpgrade};
ghost use Rattle.hall.specs.Views.{standing};
ghost use Rattle.hall.specs.declared.guards.Form.TheVariants.{Lowered};
ghost use Rattle.hall.specs.declared.guards.TryFault.{TryFault};
ghost use Rattle.hall.specs.declared.view.Standing.TheVariants.{Inline, Upgrade, Exclusive};
ghost use Rattle.shared_mutex.specs.Acquiring.{ElsewhereSame, MadeAtMost};
ghost use Rattle.shared_mutex.specs.Tries.{AddsSteps};
ghost use Rattle.upgrade_mode.specs.Tries.{RisesAtLast};
ghost use Rattle.map_cargo.specs.History.{IsSettled};
ghost use Rattle.sync_cell.specs.Cells.{maps};
ghost use Rattle.sync_cell.specs.Rising.{IsPatientRise};

use crate::attempts::{BeginAttempt, FinishAttempt};
use crate::pointers::{ReadPtr, UpgradePtr, WritePtr};
use hall::{Hall, Pass, UpgradeGuard};
use map_cargo::MapCargo;
use std::sync::Wait;
use timed_wait::wait;
use upgrade_mode::{exclusive_to_shared, exclusive_to_upgrade, upgrade_to_shared};

/// Waits until the readers of a cell have left that is held in upgrade mode, and holds it for writing.
///
/// It is announced as a writer first and sweeps once; then it tries again and again, stays announced between its tries,
/// and holds upgrade until it writes: nobody can write in between, and what the pass knows of the cell's map stays
/// true. Its contract holds if it returns.
pub fn move_from_upgrade_to_write<R: Wait>(
    rt: &R,
    hall: &Hall<MapCargo>,
    pass: &mut Pass<MapCargo>,
    ptr: UpgradePtr,
) -> WritePtr
    requires pass { IsPassOf hall.now pass.old }
    requires cell { ptr.guard.lock < (shape_of hall.now).locks }
    requires upgrade { standing (view pass.old) ptr.guard.lock ≡ Upgrade }
    ensures pass { IsPassOf hall.now pass.new }
    ensures cell { result.guard.lock ≡ ptr.guard.lock }
    ensures stands { standing (view pass.new) ptr.guard.lock ≡ Exclusive }
    ensures clear { HasNonePending (view pass.old) → HasNonePending (view pass.new) }
    ensures elsewhere { ElsewhereSame (view pass.old) (view pass.new) ptr.guard.lock }
    ensures step { (faults : List TryFault) × (misses : List TryFault) × RisesAtLast maps (view pass.old) ptr.guard.lock faults misses (view pass.new) }
    ensures steps { AddsSteps (IsPatientRise (view pass.old) ptr.guard.lock) (view pass.old) (view pass.new) }
    ensures part { (view pass.new).part ≡ (view pass.old).part }
{
    let UpgradePtr {
        guard: UpgradeGuard { lock: cell },
    } = ptr;
    wait(rt, &mut BeginAttempt { hall, pass, cell });
    let from_upgrade = true;
    let guard = wait(
        rt,
        &mut FinishAttempt {
            hall,
            pass,
            cell,
            from_upgrade,
        },
    );
    WritePtr { guard }
}

/// Goes from writing a cell to reading it, by one step. The words of the cell have to mean its map.
pub fn move_from_write_to_read(
    hall: &Hall<MapCargo>,
    pass: &mut Pass<MapCargo>,
    ptr: WritePtr,
) -> ReadPtr
    requires pass { IsPassOf hall.now pass.old }
    requires cell { ptr.guard.lock < (shape_of hall.now).locks }
    requires exclusive { standing (view pass.old) ptr.guard.lock ≡ Exclusive }
    requires settled { IsSettled ptr.guard.lock (view pass.old).part }
    ensures pass { IsPassOf hall.now pass.new }
    ensures cell { (result.guard.lock ≡ ptr.guard.lock) × (result.guard.form ≡ Lowered) }
    ensures step { LowersToShared maps (view pass.old) ptr.guard.lock 8 (view pass.new) }
    ensures stands { standing (view pass.new) ptr.guard.lock ≡ Inline }
    ensures fits { SharedFits (shape_of hall.now) (view pass.new) result.guard }
    ensures clear { HasNonePending (view pass.old) → HasNonePending (view pass.new) }
    ensures elsewhere { ElsewhereSame (view pass.old) (view pass.new) ptr.guard.lock }
    ensures steps { MadeAtMost (view pass.old) (view pass.new) 1 }
{
    let WritePtr { guard } = ptr;
    ReadPtr {
        guard: exclusive_to_shared(hall, pass, guard),
    }
}

/// Goes from writing a cell to holding it in upgrade mode, by one step: readers may come, and no other pass can write
/// before this one does. The words of the cell have to mean its map.
pub fn move_from_write_to_upgrade(
    hall: &Hall<MapCargo>,
    pass: &mut Pass<MapCargo>,
    ptr: WritePtr,
) -> UpgradePtr
    requires pass { IsPassOf hall.now pass.old }
    requires cell { ptr.guard.lock < (shape_of hall.now).locks }
    requires exclusive { standing (view pass.old) ptr.guard.lock ≡ Exclusive }
    requires settled { IsSettled ptr.guard.lock (view pass.old).part }
    ensures pass { IsPassOf hall.now pass.new }
    ensures cell { result.guard.lock ≡ ptr.guard.lock }
    ensures step { LowersToUpgrade maps (view pass.old) ptr.guard.lock 8 (view pass.new) }
    ensures stands { standing (view pass.new) ptr.guard.lock ≡ Upgrade }
    ensures clear { HasNonePending (view pass.old) → HasNonePending (view pass.new) }
    ensures elsewhere { ElsewhereSame (view pass.old) (view pass.new) ptr.guard.lock }
    ensures steps { MadeAtMost (view pass.old) (view pass.new) 1 }
{
    let WritePtr { guard } = ptr;
    UpgradePtr {
        guard: exclusive_to_upgrade(hall, pass, guard),
    }
}

/// Goes from holding a cell in upgrade mode to reading it, by one step.
pub fn move_from_upgrade_to_read(
    hall: &Hall<MapCargo>,
    pass: &mut Pass<MapCargo>,
    ptr: UpgradePtr,
) -> ReadPtr
    requires pass { IsPassOf hall.now pass.old }
    requires cell { ptr.guard.lock < (shape_of hall.now).locks }
    requires upgrade { standing (view pass.old) ptr.guard.lock ≡ Upgrade }
    ensures pass { IsPassOf hall.now pass.new }
    ensures cell { (result.guard.lock ≡ ptr.guard.lock) × (result.guard.form ≡ Lowered) }
    ensures step { (found : _) × LowersUpgrade maps (view pass.old) ptr.guard.lock found (view pass.new) }
    ensures stands { standing (view pass.new) ptr.guard.lock ≡ Inline }
    ensures fits { SharedFits (shape_of hall.now) (view pass.new) result.guard }
    ensures clear { HasNonePending (view pass.old) → HasNonePending (view pass.new) }
    ensures elsewhere { ElsewhereSame (view pass.old) (view pass.new) ptr.guard.lock }
    ensures steps { MadeAtMost (view pass.old) (view pass.new) 1 }
{
    let UpgradePtr { guard } = ptr;
    ReadPtr {
        guard: upgrade_to_shared(hall, pass, guard),
    }
}
