//! Waiting for a cell until a deadline.
ghost use Rattle.std.specs.Prelude.{◌≡◌, ◌<◌, ◌+◌, ◌∷◌, List, length, IfOk, MatchResult};
ghost use Rattle.hall.specs.Fitting.{SharedFits, stands_by};
ghost use Rattle.hall.specs.Passes.{view, IsPassOf, shape_of};
ghost use Rattle.hall.specs.Slotting.{HasNonePending};
ghost use Rattle.hall.specs.Views.{standing};
ghost use Rattle.hall.specs.declared.guards.TryFault.{TryFault};
ghost use Rattle.hall.specs.declared.view.Standing.TheVariants.{Away, Upgrade, Exclusive};
ghost use Rattle.shared_mutex.specs.Acquiring.{ElsewhereSame};
ghost use Rattle.sync_cell.specs.Attempts.{ReadsAtLast};
ghost use Rattle.sync_cell.specs.Cells.{maps};
ghost use Rattle.shared_mutex.specs.Tries.{AddsSteps, IsPatientTry, IsTry, StaysAsItWas, ReadersRefused, WritesAtLast};
ghost use Rattle.upgrade_mode.specs.Tries.{EntersUpgradeAtLast, UpgradersRefused};
ghost use Rattle.sync_cell.specs.Waits.{AskedInTime, AskedTooLate, GaveUpLate};

use crate::attempts::{AnnounceAttempt, FinishAttempt, ReadAttempt, UpgradeAttempt};
use crate::pointers::{ReadPtr, UpgradePtr, WritePtr};
use hall::{Announced, Hall, Pass, TryFault};
use map_cargo::MapCargo;
use ql_base::Clock;
use shared_mutex::retract;
use std::sync::Wait;
use timed_wait::{Late, wait_until};

/// Waits until the cell can be read, and holds it for reading; or until a try was refused and the clock, asked next,
/// answers the deadline or later. The pass has to be away from the cell, with no token undecided and no unit owed
/// elsewhere, and is away where it is late.
///
/// One try is always made first, so a free cell is `Ok` whatever the deadline is, and the clock isn't asked. After each
/// refused try the clock is asked once. Its contract holds if it returns.
pub fn rlock_until<R: Wait, T: Clock>(
    rt: &R,
    hall: &Hall<MapCargo>,
    pass: &mut Pass<MapCargo>,
    cell: u64,
    clock: &mut T,
    deadline: u64,
) -> Result<ReadPtr, Late<TryFault>>
    requires pass { IsPassOf hall.now pass.old }
    requires cell { cell < (shape_of hall.now).locks }
    requires away { standing (view pass.old) cell ≡ Away }
    requires clear { HasNonePending (view pass.old) }
    ensures pass { IsPassOf hall.now pass.new }
    ensures cell { MatchResult result (λ ptr. ptr.guard.lock ≡ cell) (λ late. late.deadline ≡ deadline) }
    ensures stands { MatchResult result (λ ptr. standing (view pass.new) cell ≡ stands_by ptr.guard.form) (λ _. standing (view pass.new) cell ≡ Away) }
    ensures fits { IfOk result (λ ptr. SharedFits (shape_of hall.now) (view pass.new) ptr.guard) }
    ensures clear { HasNonePending (view pass.new) }
    ensures elsewhere { ElsewhereSame (view pass.old) (view pass.new) cell }
    ensures step { MatchResult result
        (λ ptr. (faults : List TryFault) × ReadsAtLast maps (view pass.old) cell ptr.guard.form faults (view pass.new)
        × AskedInTime T.last T.answers deadline (length faults) clock.old clock.new)
        (λ late. (faults : List TryFault) × ReadersRefused maps cell (view pass.old) (late.fault ∷ faults) (view pass.new)
        × StaysAsItWas (view pass.old) cell (view pass.new)
        × AskedTooLate T.last T.answers deadline (length faults + 1) clock.old clock.new late.now) }
    ensures steps { AddsSteps (IsPatientTry (view pass.old) cell) (view pass.old) (view pass.new) }
{
    match wait_until(rt, &mut ReadAttempt { hall, pass, cell }, clock, deadline) {
        Ok(guard) => Ok(ReadPtr { guard }),
        Err(late) => Err(late),
    }
}

/// Waits until no other pass writes or holds upgrade at the cell, and holds it in upgrade mode; or until a try was
/// refused and the clock, asked next, answers the deadline or later. Readers aren't in the way. The pass has to be away
/// from the cell, and is away where it is late.
///
/// One try is always made first, so where nothing conflicts it is `Ok` whatever the deadline is, and the clock isn't
/// asked. After each refused try the clock is asked once. Its contract holds if it returns.
pub fn ulock_until<R: Wait, T: Clock>(
    rt: &R,
    hall: &Hall<MapCargo>,
    pass: &mut Pass<MapCargo>,
    cell: u64,
    clock: &mut T,
    deadline: u64,
) -> Result<UpgradePtr, Late<TryFault>>
    requires pass { IsPassOf hall.now pass.old }
    requires cell { cell < (shape_of hall.now).locks }
    requires away { standing (view pass.old) cell ≡ Away }
    ensures pass { IsPassOf hall.now pass.new }
    ensures cell { MatchResult result (λ ptr. ptr.guard.lock ≡ cell) (λ late. late.deadline ≡ deadline) }
    ensures stands { MatchResult result (λ _. standing (view pass.new) cell ≡ Upgrade) (λ _. standing (view pass.new) cell ≡ Away) }
    ensures clear { HasNonePending (view pass.old) → HasNonePending (view pass.new) }
    ensures elsewhere { ElsewhereSame (view pass.old) (view pass.new) cell }
    ensures step { MatchResult result
        (λ _. (faults : List TryFault) × EntersUpgradeAtLast maps (view pass.old) cell faults (view pass.new)
        × AskedInTime T.last T.answers deadline (length faults) clock.old clock.new)
        (λ late. (faults : List TryFault) × UpgradersRefused maps cell (view pass.old) (late.fault ∷ faults) (view pass.new)
        × StaysAsItWas (view pass.old) cell (view pass.new)
        × AskedTooLate T.last T.answers deadline (length faults + 1) clock.old clock.new late.now) }
    ensures steps { AddsSteps (IsPatientTry (view pass.old) cell) (view pass.old) (view pass.new) }
{
    match wait_until(
        rt,
        &mut UpgradeAttempt { hall, pass, cell },
        clock,
        deadline,
    ) {
        Ok(guard) => Ok(UpgradePtr { guard }),
        Err(late) => Err(late),
    }
}

/// Waits until the cell can be written, and holds it for writing; or until a try was refused and the clock, asked next,
/// answers the deadline or later. The pass has to be away from the cell, and is away where it is late.
///
/// It waits until its writer can be announced, and then until the readers have left, both against the one deadline. It
/// stays announced between its tries, and takes its announcement back only where it is late. After each refused try the
/// clock is asked once. Its contract holds if it returns.
pub fn wlock_until<R: Wait, T: Clock>(
    rt: &R,
    hall: &Hall<MapCargo>,
    pass: &mut Pass<MapCargo>,
    cell: u64,
    clock: &mut T,
    deadline: u64,
) -> Result<WritePtr, Late<TryFault>>
    requires pass { IsPassOf hall.now pass.old }
    requires cell { cell < (shape_of hall.now).locks }
    requires away { standing (view pass.old) cell ≡ Away }
    ensures pass { IsPassOf hall.now pass.new }
    ensures cell { MatchResult result (λ ptr. ptr.guard.lock ≡ cell) (λ late. late.deadline ≡ deadline) }
    ensures stands { MatchResult result (λ _. standing (view pass.new) cell ≡ Exclusive) (λ _. standing (view pass.new) cell ≡ Away) }
    ensures clear { HasNonePending (view pass.old) → HasNonePending (view pass.new) }
    ensures elsewhere { ElsewhereSame (view pass.old) (view pass.new) cell }
    ensures step { MatchResult result
        (λ _. (faults : List TryFault) × (misses : List TryFault) × WritesAtLast maps (view pass.old) cell faults misses (view pass.new)
        × AskedInTime T.last T.answers deadline (length faults + length misses) clock.old clock.new)
        (λ late. GaveUpLate maps T.last T.answers deadline cell (view pass.old) (view pass.new) clock.old clock.new late.fault late.now) }
    ensures steps { MatchResult result (λ _. AddsSteps (IsPatientTry (view pass.old) cell) (view pass.old) (view pass.new)) (λ _. AddsSteps (IsTry (view pass.old) cell) (view pass.old) (view pass.new)) }
{
    wait_until(
        rt,
        &mut AnnounceAttempt { hall, pass, cell },
        clock,
        deadline,
    )?;
    let from_upgrade = false;
    match wait_until(
        rt,
        &mut FinishAttempt {
            hall,
            pass,
            cell,
            from_upgrade,
        },
        clock,
        deadline,
    ) {
        Ok(guard) => Ok(WritePtr { guard }),
        Err(late) => {
            let announced = Announced {
                lock: cell,
                swept: true,
                from_upgrade,
            };
            retract(hall, pass, announced);
            Err(late)
        }
    }
}
