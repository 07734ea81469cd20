//! One of several locks: taken in the mode of its want, tried for, and given back.
ghost use Rattle.std.specs.Prelude.{◌≡◌, ◌+◌, ◌*◌, ◌<◌, IfOk, IfSome, MatchOption, MatchResult};
ghost use Rattle.hall.specs.Passes.{view, IsPassOf, shape_of};
ghost use Rattle.hall.specs.Slotting.{HasNonePending};
ghost use Rattle.hall.specs.Views.{standing};
ghost use Rattle.hall.specs.declared.view.Standing.TheVariants.{Away};
ghost use Rattle.shared_mutex.specs.Acquiring.{ElsewhereSame, MadeAtMost};
ghost use Rattle.acquire_many.specs.Met.{HoldFits, MeetsPatiently, Refuses, Returns, Takes};
ghost use Rattle.acquire_many.specs.Wants.{mode_in};
ghost use Rattle.acquire_many.specs.declared.guards.How.TheVariants as hows;

use crate::guards::How;
use crate::waits::{enter, rise, write};
use hall::{Cargo, ExclusiveGuard, Hall, Mode, Pass, SharedGuard, TryFault, UpgradeGuard};
use shared_mutex::{try_lock, try_lock_shared, unlock, unlock_shared};
use std::sync::Wait;
use upgrade_mode::{try_lock_upgrade, unlock_upgrade};

/// Waits until the lock is held in the mode of the want, and answers how it is held.
pub(crate) fn take<R: Wait, C: Cargo>(
    rt: &R,
    hall: &Hall<C>,
    pass: &mut Pass<C>,
    want: (u64, Mode),
) -> How
    requires pass { IsPassOf hall.now pass.old }
    requires lock { want.0 < (shape_of hall.now).locks }
    requires away { standing (view pass.old) want.0 ≡ Away }
    requires clear { HasNonePending (view pass.old) }
    ensures pass { IsPassOf hall.now pass.new }
    ensures mode { mode_in result ≡ want.1 }
    ensures step { MeetsPatiently C.CargoRule (view pass.old) (want.0, result) (view pass.new) }
    ensures fits { HoldFits (shape_of hall.now) (view pass.new) (want.0, result) }
    ensures elsewhere { ElsewhereSame (view pass.old) (view pass.new) want.0 }
    ensures clear { HasNonePending (view pass.new) }
{
    let (lock, mode) = want;
    match mode {
        Mode::Shared => {
            let SharedGuard { lock: _, form } = enter(rt, hall, pass, lock);
            How::Shared(form)
        }
        Mode::Upgrade => {
            let UpgradeGuard { lock: _ } = rise(rt, hall, pass, lock);
            How::Upgrade
        }
        Mode::Exclusive => {
            let ExclusiveGuard { lock: _ } = write(rt, hall, pass, lock);
            How::Exclusive
        }
    }
}

/// Tries once to hold the lock in the mode of the want, and answers how it is held.
pub(crate) fn try_to_take<C: Cargo>(
    hall: &Hall<C>,
    pass: &mut Pass<C>,
    want: (u64, Mode),
) -> Result<How, TryFault>
    requires pass { IsPassOf hall.now pass.old }
    requires lock { want.0 < (shape_of hall.now).locks }
    requires away { standing (view pass.old) want.0 ≡ Away }
    requires clear { HasNonePending (view pass.old) }
    ensures pass { IsPassOf hall.now pass.new }
    ensures mode { IfOk result (λ how. mode_in how ≡ want.1) }
    ensures step { MatchResult result (λ how. Takes C.CargoRule (view pass.old) (want.0, how) (view pass.new)) (λ fault. Refuses C.CargoRule (view pass.old) want (view pass.new) fault) }
    ensures fits { MatchResult result (λ how. HoldFits (shape_of hall.now) (view pass.new) (want.0, how)) (λ _. standing (view pass.new) want.0 ≡ Away) }
    ensures elsewhere { ElsewhereSame (view pass.old) (view pass.new) want.0 }
    ensures clear { HasNonePending (view pass.new) }
    ensures steps { MadeAtMost (view pass.old) (view pass.new) (2 * (shape_of hall.now).slots + 6) }
{
    let (lock, mode) = want;
    match mode {
        Mode::Shared => match try_lock_shared(hall, pass, lock) {
            Ok(SharedGuard { lock: _, form }) => Ok(How::Shared(form)),
            Err(fault) => Err(fault),
        },
        Mode::Upgrade => match try_lock_upgrade(hall, pass, lock) {
            Ok(UpgradeGuard { lock: _ }) => Ok(How::Upgrade),
            Err(fault) => Err(fault),
        },
        Mode::Exclusive => match try_lock(hall, pass, lock) {
            Ok(ExclusiveGuard { lock: _ }) => Ok(How::Exclusive),
            Err(fault) => Err(fault),
        },
    }
}

/// Gives a lock back.
#[tactic(auto, using(crate::proofs::Taking::few_to_leave))]
pub(crate) fn give_back<C: Cargo>(hall: &Hall<C>, pass: &mut Pass<C>, hold: (u64, How))
    requires pass { IsPassOf hall.now pass.old }
    requires fits { HoldFits (shape_of hall.now) (view pass.old) hold }
    requires settled { hold.1 ≡ hows.Exclusive → C.settled hold.0 (view pass.old).part }
    ensures pass { IsPassOf hall.now pass.new }
    ensures step { Returns C.CargoRule (view pass.old) hold (view pass.new) }
    ensures away { standing (view pass.new) hold.0 ≡ Away }
    ensures elsewhere { ElsewhereSame (view pass.old) (view pass.new) hold.0 }
    ensures clear { HasNonePending (view pass.old) → HasNonePending (view pass.new) }
    ensures steps { MadeAtMost (view pass.old) (view pass.new) 2 }
{
    let (lock, how) = hold;
    match how {
        How::Shared(form) => unlock_shared(hall, pass, SharedGuard { lock, form }),
        How::Upgrade => unlock_upgrade(hall, pass, UpgradeGuard { lock }),
        How::Exclusive => unlock(hall, pass, ExclusiveGuard { lock }),
    }
}

/// Gives a lock back, if there is one.
pub(crate) fn give_at<C: Cargo>(hall: &Hall<C>, pass: &mut Pass<C>, hold: Option<(u64, How)>)
    requires pass { IsPassOf hall.now pass.old }
    requires held { IfSome hold (λ x. HoldFits (shape_of hall.now) (view pass.old) x × (x.1 ≡ hows.Exclusive → C.settled x.0 (view pass.old).part)) }
    ensures pass { IsPassOf hall.now pass.new }
    ensures step { MatchOption hold (view pass.new ≡ view pass.old) (λ x. Returns C.CargoRule (view pass.old) x (view pass.new) × (standing (view pass.new) x.0 ≡ Away) × ElsewhereSame (view pass.old) (view pass.new) x.0) }
    ensures clear { HasNonePending (view pass.old) → HasNonePending (view pass.new) }
    ensures steps { MadeAtMost (view pass.old) (view pass.new) 2 }
{
    if let Some(hold) = hold {
        give_back(hall, pass, hold);
    }
}
