//! From a stronger hold to a weaker one, by one step each: nobody comes in between.
ghost use Rattle.std.specs.Prelude.{◌≡◌};
ghost use Rattle.hall.specs.declared.guards.Form.TheVariants.{Lowered};
ghost use Rattle.hall.specs.Fitting.{ExclusiveFits, SharedFits, UpgradeFits};
ghost use Rattle.hall.specs.Passes.{view, IsPassOf, shape_of};
ghost use Rattle.hall.specs.Upgrading.{LowersUpgrade, LowersToShared, LowersToUpgrade};
ghost use Rattle.hall.specs.Slotting.{HasNonePending};
ghost use Rattle.hall.specs.Views.{standing};
ghost use Rattle.hall.specs.declared.view.Standing.TheVariants.{Inline, Upgrade};
ghost use Rattle.shared_mutex.specs.Acquiring.{ElsewhereSame, MadeAtMost};

use hall::{Cargo, ExclusiveGuard, Form, Hall, Pass, SharedGuard, UpgradeGuard};

/// Lowers an upgrade hold to a shared one, by one step.
pub fn upgrade_to_shared<C: Cargo>(
    hall: &Hall<C>,
    pass: &mut Pass<C>,
    guard: UpgradeGuard,
) -> SharedGuard
    requires pass { IsPassOf hall.now pass.old }
    requires fits { UpgradeFits (shape_of hall.now) (view pass.old) guard }
    ensures pass { IsPassOf hall.now pass.new }
    ensures guard { (result.lock ≡ guard.lock) × (result.form ≡ Lowered) }
    ensures step { (found : _) × LowersUpgrade C.CargoRule (view pass.old) guard.lock found (view pass.new) }
    ensures inline { standing (view pass.new) guard.lock ≡ Inline }
    ensures fits { SharedFits (shape_of hall.now) (view pass.new) result }
    ensures clear { HasNonePending (view pass.old) → HasNonePending (view pass.new) }
    ensures elsewhere { ElsewhereSame (view pass.old) (view pass.new) guard.lock }
    ensures steps { MadeAtMost (view pass.old) (view pass.new) 1 }
{
    let UpgradeGuard { lock } = guard;
    hall.upgrade_lower(pass, lock);
    SharedGuard {
        lock,
        form: Form::Lowered,
    }
}

/// Lowers an exclusive hold to a shared one, by one step. The pass's part of the cargo has to be settled for the lock.
pub fn exclusive_to_shared<C: Cargo>(
    hall: &Hall<C>,
    pass: &mut Pass<C>,
    guard: ExclusiveGuard,
) -> SharedGuard
    requires pass { IsPassOf hall.now pass.old }
    requires fits { ExclusiveFits (shape_of hall.now) (view pass.old) guard }
    requires settled { C.settled guard.lock (view pass.old).part }
    ensures pass { IsPassOf hall.now pass.new }
    ensures guard { (result.lock ≡ guard.lock) × (result.form ≡ Lowered) }
    ensures step { LowersToShared C.CargoRule (view pass.old) guard.lock 8 (view pass.new) }
    ensures inline { standing (view pass.new) guard.lock ≡ Inline }
    ensures fits { SharedFits (shape_of hall.now) (view pass.new) result }
    ensures clear { HasNonePending (view pass.old) → HasNonePending (view pass.new) }
    ensures elsewhere { ElsewhereSame (view pass.old) (view pass.new) guard.lock }
    ensures steps { MadeAtMost (view pass.old) (view pass.new) 1 }
{
    let ExclusiveGuard { lock } = guard;
    hall.exclusive_shared(pass, lock);
    SharedGuard {
        lock,
        form: Form::Lowered,
    }
}

/// Lowers an exclusive hold to upgrade, by one step. The pass's part of the cargo has to be settled for the lock.
pub fn exclusive_to_upgrade<C: Cargo>(
    hall: &Hall<C>,
    pass: &mut Pass<C>,
    guard: ExclusiveGuard,
) -> UpgradeGuard
    requires pass { IsPassOf hall.now pass.old }
    requires fits { ExclusiveFits (shape_of hall.now) (view pass.old) guard }
    requires settled { C.settled guard.lock (view pass.old).part }
    ensures pass { IsPassOf hall.now pass.new }
    ensures guard { result.lock ≡ guard.lock }
    ensures step { LowersToUpgrade C.CargoRule (view pass.old) guard.lock 8 (view pass.new) }
    ensures upgrade { standing (view pass.new) guard.lock ≡ Upgrade }
    ensures fits { UpgradeFits (shape_of hall.now) (view pass.new) result }
    ensures clear { HasNonePending (view pass.old) → HasNonePending (view pass.new) }
    ensures elsewhere { ElsewhereSame (view pass.old) (view pass.new) guard.lock }
    ensures steps { MadeAtMost (view pass.old) (view pass.new) 1 }
{
    let ExclusiveGuard { lock } = guard;
    hall.exclusive_upgrade(pass, lock);
    UpgradeGuard { lock }
}
