//! Doing something while a cell is held.
ghost use Rattle.std.specs.Prelude.{◌≡◌, ◌<◌, ℕ};
ghost use Rattle.hall.specs.declared.guards.Form.{Form};
ghost use Rattle.hall.specs.Fitting.{stands_by};
ghost use Rattle.hall.specs.Passes.{view, IsPassOf, shape_of};
ghost use Rattle.hall.specs.Plays.{Releases};
ghost use Rattle.hall.specs.Slotting.{HasNonePending};
ghost use Rattle.hall.specs.Upgrading.{LeavesUpgrade};
ghost use Rattle.hall.specs.Views.{standing};
ghost use Rattle.hall.specs.declared.view.Standing.TheVariants.{Away, Upgrade, Exclusive};
ghost use Rattle.shared_mutex.specs.Acquiring.{LeavesShared};
ghost use Rattle.map_cargo.specs.History.{IsSettled};
ghost use Rattle.sync_cell.specs.Cells.{maps};
ghost use Rattle.sync_cell.specs.Within.{Answers, KeepsModesElsewhere, MayTake, StillHolds, TookToRead, TookToUpgrade, TookToWrite, reads_at, upgrades_at, writes_at};

use crate::pointers::{ReadPtr, UpgradePtr, WritePtr};
use crate::trying::{unlock_read, unlock_upgrade_ptr, unlock_write};
use crate::waiting::{rlock, ulock, wlock};
use hall::{Hall, Pass};
use map_cargo::MapCargo;
use std::sync::Wait;

/// Waits until the cell can be read, calls `f` once while it is held for reading, gives the cell back, and answers what
/// `f` answered. The pass has to be away from the cell, with no token undecided and no unit owed elsewhere.
///
/// `f` must stand being called with any pass that has just taken the cell, and must leave its modes and its standing at
/// the cell as they are. The contract holds if the call returns.
pub fn with_rlock<W: Wait, R, F: FnOnce(&Hall<MapCargo>, &mut Pass<MapCargo>, &ReadPtr) -> R>(
    rt: &W,
    hall: &Hall<MapCargo>,
    pass: &mut Pass<MapCargo>,
    cell: u64,
    f: F,
) -> R
    requires pass { IsPassOf hall.now pass.old }
    requires cell { cell < (shape_of hall.now).locks }
    requires away { standing (view pass.old) cell ≡ Away }
    requires clear { HasNonePending (view pass.old) }
    requires ready { (form held : _) → TookToRead hall.now (view pass.old) cell form held → MayTake F.FnOnce f hall.now held (reads_at cell form) }
    requires leaves { (form held answer after : _) → TookToRead hall.now (view pass.old) cell form held → Answers F.FnOnce f hall.now held (reads_at cell form) answer after → StillHolds hall.now cell (stands_by form) held after }
    ensures pass { IsPassOf hall.now pass.new }
    ensures away { standing (view pass.new) cell ≡ Away }
    ensures elsewhere { KeepsModesElsewhere (view pass.old) (view pass.new) cell }
    ensures step { (form : Form) × (held : _) × (after : _)
        × TookToRead hall.now (view pass.old) cell form held
        × Answers F.FnOnce f hall.now held (reads_at cell form) result after
        × LeavesShared maps (view after) cell form (view pass.new)
        × (HasNonePending (view after) → HasNonePending (view pass.new)) }
{
    let ptr = rlock(rt, hall, pass, cell);
    let answer = f(hall, pass, &ptr);
    unlock_read(hall, pass, ptr);
    answer
}

/// Waits until no other pass writes or holds upgrade at the cell, calls `f` once while it is held in upgrade mode,
/// gives the cell back, and answers what `f` answered. The pass has to be away from the cell.
///
/// `f` must stand being called with any pass that has just taken the cell, and must leave its modes and its standing at
/// the cell as they are. The contract holds if the call returns.
pub fn with_ulock<W: Wait, R, F: FnOnce(&Hall<MapCargo>, &mut Pass<MapCargo>, &UpgradePtr) -> R>(
    rt: &W,
    hall: &Hall<MapCargo>,
    pass: &mut Pass<MapCargo>,
    cell: u64,
    f: F,
) -> R
    requires pass { IsPassOf hall.now pass.old }
    requires cell { cell < (shape_of hall.now).locks }
    requires away { standing (view pass.old) cell ≡ Away }
    requires ready { (held : _) → TookToUpgrade hall.now (view pass.old) cell held → MayTake F.FnOnce f hall.now held (upgrades_at cell) }
    requires leaves { (held answer after : _) → TookToUpgrade hall.now (view pass.old) cell held → Answers F.FnOnce f hall.now held (upgrades_at cell) answer after → StillHolds hall.now cell Upgrade held after }
    ensures pass { IsPassOf hall.now pass.new }
    ensures away { standing (view pass.new) cell ≡ Away }
    ensures elsewhere { KeepsModesElsewhere (view pass.old) (view pass.new) cell }
    ensures step { (held : _) × (after : _) × (found : ℕ)
        × TookToUpgrade hall.now (view pass.old) cell held
        × Answers F.FnOnce f hall.now held (upgrades_at cell) result after
        × LeavesUpgrade maps (view after) cell found (view pass.new)
        × (HasNonePending (view after) → HasNonePending (view pass.new)) }
{
    let ptr = ulock(rt, hall, pass, cell);
    let answer = f(hall, pass, &ptr);
    unlock_upgrade_ptr(hall, pass, ptr);
    answer
}

/// Waits until the cell can be written, calls `f` once while it is held for writing, gives the cell back, and answers
/// what `f` answered. The pass has to be away from the cell.
///
/// `f` must stand being called with any pass that has just taken the cell, must leave its modes and its standing at the
/// cell as they are, and must leave words in the cell that mean its map. The contract holds if the call returns.
pub fn with_wlock<W: Wait, R, F: FnOnce(&Hall<MapCargo>, &mut Pass<MapCargo>, &WritePtr) -> R>(
    rt: &W,
    hall: &Hall<MapCargo>,
    pass: &mut Pass<MapCargo>,
    cell: u64,
    f: F,
) -> R
    requires pass { IsPassOf hall.now pass.old }
    requires cell { cell < (shape_of hall.now).locks }
    requires away { standing (view pass.old) cell ≡ Away }
    requires ready { (held : _) → TookToWrite hall.now (view pass.old) cell held → MayTake F.FnOnce f hall.now held (writes_at cell) }
    requires leaves { (held answer after : _) → TookToWrite hall.now (view pass.old) cell held → Answers F.FnOnce f hall.now held (writes_at cell) answer after → StillHolds hall.now cell Exclusive held after × IsSettled cell (view after).part }
    ensures pass { IsPassOf hall.now pass.new }
    ensures away { standing (view pass.new) cell ≡ Away }
    ensures elsewhere { KeepsModesElsewhere (view pass.old) (view pass.new) cell }
    ensures step { (held : _) × (after : _)
        × TookToWrite hall.now (view pass.old) cell held
        × Answers F.FnOnce f hall.now held (writes_at cell) result after
        × Releases maps (view after) cell 8 (view pass.new)
        × (HasNonePending (view after) → HasNonePending (view pass.new)) }
{
    let ptr = wlock(rt, hall, pass, cell);
    let answer = f(hall, pass, &ptr);
    unlock_write(hall, pass, ptr);
    answer
}
