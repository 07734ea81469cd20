//! Upgrade holds.
ghost use Rattle.std.specs.Prelude.{◌≡◌, ◌<◌, IfOk, MatchResult};
ghost use Rattle.hall.specs.Fitting.{UpgradeFits};
ghost use Rattle.hall.specs.Passes.{view, IsPassOf, shape_of};
ghost use Rattle.hall.specs.Upgrading.{LeavesUpgrade};
ghost use Rattle.hall.specs.Slotting.{HasNonePending};
ghost use Rattle.hall.specs.Views.{standing};
ghost use Rattle.hall.specs.declared.view.Standing.TheVariants.{Away, Upgrade};
ghost use Rattle.shared_mutex.specs.Acquiring.{ElsewhereSame, MadeAtMost};
ghost use Rattle.upgrade_mode.specs.Holding.{EntersUpgrade, RefusesUpgrade};

use hall::conflicts::conflicts_for_announcing;
use hall::{Cargo, Hall, Pass, TryFault, UpgradeGuard};

/// Tries to take upgrade, by one load and one exchange. The pass has to be away from the lock, and is away after a
/// refusal. Readers aren't in the way.
///
/// `Busy` comes exactly where the loaded word conflicts, `Raced` exactly where the exchange failed. At most 2 steps.
pub fn try_lock_upgrade<C: Cargo>(
    hall: &Hall<C>,
    pass: &mut Pass<C>,
    lock: u64,
) -> Result<UpgradeGuard, TryFault>
    requires pass { IsPassOf hall.now pass.old }
    requires lock { lock < (shape_of hall.now).locks }
    requires away { standing (view pass.old) lock ≡ Away }
    ensures pass { IsPassOf hall.now pass.new }
    ensures step { MatchResult result (λ guard. (guard.lock ≡ lock) × EntersUpgrade C.CargoRule (view pass.old) lock (view pass.new)) (λ fault. RefusesUpgrade C.CargoRule (view pass.old) lock (view pass.new) fault) }
    ensures stands { MatchResult result (λ _. standing (view pass.new) lock ≡ Upgrade) (λ _. standing (view pass.new) lock ≡ Away) }
    ensures fits { IfOk result (λ guard. UpgradeFits (shape_of hall.now) (view pass.new) guard) }
    ensures clear { HasNonePending (view pass.old) → HasNonePending (view pass.new) }
    ensures elsewhere { ElsewhereSame (view pass.old) (view pass.new) lock }
    ensures steps { MadeAtMost (view pass.old) (view pass.new) 2 }
{
    let seen = hall.load(pass, lock);
    if conflicts_for_announcing(seen) {
        return Err(TryFault::Busy { word: seen });
    }
    match hall.upgrade_in(pass, lock, seen) {
        Ok(()) => Ok(UpgradeGuard { lock }),
        Err(found) => Err(TryFault::Raced {
            expected: seen,
            found,
        }),
    }
}

/// Gives an upgrade hold back, by one step.
pub fn unlock_upgrade<C: Cargo>(hall: &Hall<C>, pass: &mut Pass<C>, guard: UpgradeGuard)
    requires pass { IsPassOf hall.now pass.old }
    requires fits { UpgradeFits (shape_of hall.now) (view pass.old) guard }
    ensures pass { IsPassOf hall.now pass.new }
    ensures step { (found : _) × LeavesUpgrade C.CargoRule (view pass.old) guard.lock found (view pass.new) }
    ensures away { standing (view pass.new) guard.lock ≡ Away }
    ensures clear { HasNonePending (view pass.old) → HasNonePending (view pass.new) }
    ensures elsewhere { ElsewhereSame (view pass.old) (view pass.new) guard.lock }
    ensures steps { MadeAtMost (view pass.old) (view pass.new) 1 }
{
    let UpgradeGuard { lock } = guard;
    hall.upgrade_out(pass, lock);
}
