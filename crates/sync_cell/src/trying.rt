//! Trying for a cell once, and giving one back.
ghost use Rattle.std.specs.Prelude.{◌≡◌, ◌+◌, ◌*◌, ◌<◌, IfOk, MatchResult};
ghost use Rattle.hall.specs.Fitting.{SharedFits, stands_by};
ghost use Rattle.hall.specs.Passes.{view, IsPassOf, shape_of};
ghost use Rattle.hall.specs.Plays.{Releases};
ghost use Rattle.hall.specs.Slotting.{HasNonePending};
ghost use Rattle.hall.specs.Upgrading.{LeavesUpgrade};
ghost use Rattle.hall.specs.Views.{standing};
ghost use Rattle.hall.specs.declared.view.Standing.TheVariants.{Away, Upgrade, Exclusive};
ghost use Rattle.shared_mutex.specs.Acquiring.{ElsewhereSame, EntersBy, LeavesShared, MadeAtMost, RefusesExclusive, RefusesShared, TakesExclusive, steps_to_leave};
ghost use Rattle.shared_mutex.specs.Tries.{AddsSteps, IsTry};
ghost use Rattle.upgrade_mode.specs.Holding.{EntersUpgrade, RefusesUpgrade};
ghost use Rattle.map_cargo.specs.History.{IsSettled};
ghost use Rattle.sync_cell.specs.Cells.{maps};

use crate::pointers::{ReadPtr, UpgradePtr, WritePtr};
use hall::{Hall, Pass, TryFault};
use map_cargo::MapCargo;
use shared_mutex::{try_lock, try_lock_shared, unlock, unlock_shared};
use upgrade_mode::{try_lock_upgrade, unlock_upgrade};

/// Tries to hold the cell for reading. Where the loaded word lets readers defer it places a token in a slot and looks
/// at the word again; else, or where both its slots are taken, it enters by the count, by one exchange. The pass has to
/// be away from the cell, with no token undecided and no unit owed elsewhere, and is away after a refusal.
///
/// `Busy` comes exactly where the loaded word conflicts, or the one at the second look; `Raced` where the exchange
/// failed, or where readers no longer deferred at the second look, for a word that doesn't conflict. At most 6 steps,
/// each made with no mode held at the cell.
pub fn try_rlock(
    hall: &Hall<MapCargo>,
    pass: &mut Pass<MapCargo>,
    cell: u64,
) -> Result<ReadPtr, TryFault>
    requires pass { IsPassOf hall.now pass.old }
    requires cell { cell < (shape_of hall.now).locks }
    requires away { standing (view pass.old) cell ≡ Away }
    requires clear { HasNonePending (view pass.old) }
    ensures pass { IsPassOf hall.now pass.new }
    ensures step { MatchResult result (λ ptr. (ptr.guard.lock ≡ cell) × EntersBy maps (view pass.old) cell ptr.guard.form (view pass.new)) (λ fault. RefusesShared maps (view pass.old) cell (view pass.new) fault) }
    ensures stands { MatchResult result (λ ptr. standing (view pass.new) cell ≡ stands_by ptr.guard.form) (λ _. standing (view pass.new) cell ≡ Away) }
    ensures fits { IfOk result (λ ptr. SharedFits (shape_of hall.now) (view pass.new) ptr.guard) }
    ensures clear { HasNonePending (view pass.new) }
    ensures elsewhere { ElsewhereSame (view pass.old) (view pass.new) cell }
    ensures steps { MadeAtMost (view pass.old) (view pass.new) 6 }
    ensures tries { AddsSteps (IsTry (view pass.old) cell) (view pass.old) (view pass.new) }
{
    match try_lock_shared(hall, pass, cell) {
        Ok(guard) => Ok(ReadPtr { guard }),
        Err(fault) => Err(fault),
    }
}

/// Tries to hold the cell in upgrade mode, by one load and one exchange. Readers aren't in the way. The pass has to be
/// away from the cell, and is away after a refusal.
///
/// `Busy` comes exactly where the loaded word conflicts, `Raced` exactly where the exchange failed. At most 2 steps,
/// each made with no mode held at the cell.
pub fn try_ulock(
    hall: &Hall<MapCargo>,
    pass: &mut Pass<MapCargo>,
    cell: u64,
) -> Result<UpgradePtr, TryFault>
    requires pass { IsPassOf hall.now pass.old }
    requires cell { cell < (shape_of hall.now).locks }
    requires away { standing (view pass.old) cell ≡ Away }
    ensures pass { IsPassOf hall.now pass.new }
    ensures step { MatchResult result (λ ptr. (ptr.guard.lock ≡ cell) × EntersUpgrade maps (view pass.old) cell (view pass.new)) (λ fault. RefusesUpgrade maps (view pass.old) cell (view pass.new) fault) }
    ensures stands { MatchResult result (λ _. standing (view pass.new) cell ≡ Upgrade) (λ _. standing (view pass.new) cell ≡ Away) }
    ensures clear { HasNonePending (view pass.old) → HasNonePending (view pass.new) }
    ensures elsewhere { ElsewhereSame (view pass.old) (view pass.new) cell }
    ensures steps { MadeAtMost (view pass.old) (view pass.new) 2 }
    ensures tries { AddsSteps (IsTry (view pass.old) cell) (view pass.old) (view pass.new) }
{
    match try_lock_upgrade(hall, pass, cell) {
        Ok(guard) => Ok(UpgradePtr { guard }),
        Err(fault) => Err(fault),
    }
}

/// Tries to hold the cell for writing: it announces a writer, sweeps, and tries once to finish. Where readers are
/// inside it takes the announcement back, and answers `Busy` with the word that counted them. The pass has to be away
/// from the cell, and is away after a refusal. At most 2 steps for each slot, and 5 more, each made with no mode held
/// at the cell.
pub fn try_wlock(
    hall: &Hall<MapCargo>,
    pass: &mut Pass<MapCargo>,
    cell: u64,
) -> Result<WritePtr, TryFault>
    requires pass { IsPassOf hall.now pass.old }
    requires cell { cell < (shape_of hall.now).locks }
    requires away { standing (view pass.old) cell ≡ Away }
    ensures pass { IsPassOf hall.now pass.new }
    ensures step { MatchResult result (λ ptr. (ptr.guard.lock ≡ cell) × TakesExclusive maps (view pass.old) cell (view pass.new)) (λ fault. RefusesExclusive maps (view pass.old) cell (view pass.new) fault) }
    ensures stands { MatchResult result (λ _. standing (view pass.new) cell ≡ Exclusive) (λ _. standing (view pass.new) cell ≡ Away) }
    ensures clear { HasNonePending (view pass.old) → HasNonePending (view pass.new) }
    ensures elsewhere { ElsewhereSame (view pass.old) (view pass.new) cell }
    ensures steps { MadeAtMost (view pass.old) (view pass.new) (2 * (shape_of hall.now).slots + 5) }
    ensures tries { AddsSteps (IsTry (view pass.old) cell) (view pass.old) (view pass.new) }
{
    match try_lock(hall, pass, cell) {
        Ok(guard) => Ok(WritePtr { guard }),
        Err(fault) => Err(fault),
    }
}

/// Gives a cell back that was held for reading: by one step from the count, and by at most two from a slot.
pub fn unlock_read(hall: &Hall<MapCargo>, pass: &mut Pass<MapCargo>, ptr: ReadPtr)
    requires pass { IsPassOf hall.now pass.old }
    requires fits { SharedFits (shape_of hall.now) (view pass.old) ptr.guard }
    ensures pass { IsPassOf hall.now pass.new }
    ensures step { LeavesShared maps (view pass.old) ptr.guard.lock ptr.guard.form (view pass.new) }
    ensures away { standing (view pass.new) ptr.guard.lock ≡ Away }
    ensures clear { HasNonePending (view pass.old) → HasNonePending (view pass.new) }
    ensures elsewhere { ElsewhereSame (view pass.old) (view pass.new) ptr.guard.lock }
    ensures steps { MadeAtMost (view pass.old) (view pass.new) (steps_to_leave ptr.guard.form) }
{
    let ReadPtr { guard } = ptr;
    unlock_shared(hall, pass, guard);
}

/// Gives a cell back that was held in upgrade mode, by one step.
pub fn unlock_upgrade_ptr(hall: &Hall<MapCargo>, pass: &mut Pass<MapCargo>, ptr: UpgradePtr)
    requires pass { IsPassOf hall.now pass.old }
    requires cell { ptr.guard.lock < (shape_of hall.now).locks }
    requires upgrade { standing (view pass.old) ptr.guard.lock ≡ Upgrade }
    ensures pass { IsPassOf hall.now pass.new }
    ensures step { (found : _) × LeavesUpgrade maps (view pass.old) ptr.guard.lock found (view pass.new) }
    ensures away { standing (view pass.new) ptr.guard.lock ≡ Away }
    ensures clear { HasNonePending (view pass.old) → HasNonePending (view pass.new) }
    ensures elsewhere { ElsewhereSame (view pass.old) (view pass.new) ptr.guard.lock }
    ensures steps { MadeAtMost (view pass.old) (view pass.new) 1 }
{
    let UpgradePtr { guard } = ptr;
    unlock_upgrade(hall, pass, guard);
}

/// Gives a cell back that was held for writing, by one step. The words of the cell have to mean its map.
pub fn unlock_write(hall: &Hall<MapCargo>, pass: &mut Pass<MapCargo>, ptr: WritePtr)
    requires pass { IsPassOf hall.now pass.old }
    requires cell { ptr.guard.lock < (shape_of hall.now).locks }
    requires exclusive { standing (view pass.old) ptr.guard.lock ≡ Exclusive }
    requires settled { IsSettled ptr.guard.lock (view pass.old).part }
    ensures pass { IsPassOf hall.now pass.new }
    ensures step { Releases maps (view pass.old) ptr.guard.lock 8 (view pass.new) }
    ensures away { standing (view pass.new) ptr.guard.lock ≡ Away }
    ensures clear { HasNonePending (view pass.old) → HasNonePending (view pass.new) }
    ensures elsewhere { ElsewhereSame (view pass.old) (view pass.new) ptr.guard.lock }
    ensures steps { MadeAtMost (view pass.old) (view pass.new) 1 }
{
    let WritePtr { guard } = ptr;
    unlock(hall, pass, guard);
}
