//! One round at the shared lock. It waits until the pass has its hold, and gives it back.
ghost use Rattle.std.specs.Prelude.{◌≡◌, ◌<◌, true, false};
ghost use Rattle.hall.specs.Fitting.{AnnouncedFits, ExclusiveFits, UpgradeFits};
ghost use Rattle.hall.specs.Passes.{view, IsPassOf, shape_of};
ghost use Rattle.hall.specs.Slotting.{HasNonePending};
ghost use Rattle.hall.specs.Views.{standing};
ghost use Rattle.hall.specs.declared.view.Standing.TheVariants.{Announcing, Upgrade};
ghost use Rattle.lock_rounds.specs.Outside.{FinishedBy, HasRead, HasWritten, IsOutside};

use apply_deferred::scan;
use hall::{Announced, ExclusiveGuard, Form, Hall, NoCargo, Pass, UpgradeGuard};
use shared_mutex::{announce, try_finish, try_lock_shared, unlock, unlock_shared};
use std::sync::Wait;
use std::thread;
use upgrade_mode::{BeginRaced, begin_upgrade, try_lock_upgrade};

/// The only lock of the hall.
const LOCK: u64 = 0;

/// Reads once, and returns how the reader came in.
pub fn read<R: Wait>(rt: &R, hall: &Hall<NoCargo>, pass: &mut Pass<NoCargo>) -> Form
    requires { IsOutside hall.now pass.old }
    ensures outside { IsOutside hall.now pass.new }
    ensures read { HasRead result pass.new }
{
    for _ in rt.forever() {
        match try_lock_shared(hall, pass, LOCK) {
            Ok(guard) => {
                let form = guard.form;
                unlock_shared(hall, pass, guard);
                return form;
            }
            Err(_) => thread::yield_now(),
        }
    }
    unreachable!()
}

// Waits until a writer is announced. It stays announced from then on.
fn announce_at_last<R: Wait>(rt: &R, hall: &Hall<NoCargo>, pass: &mut Pass<NoCargo>) -> Announced
    requires { IsOutside hall.now pass.old }
    ensures pass { IsPassOf hall.now pass.new }
    ensures announced { (result.lock ≡ 0) × (result.swept ≡ false) × (result.from_upgrade ≡ false) }
    ensures fits { AnnouncedFits (shape_of hall.now) (view pass.new) result }
    ensures clear { HasNonePending (view pass.new) }
{
    for _ in rt.forever() {
        match announce(hall, pass, LOCK) {
            Ok(announced) => return announced,
            Err(_) => thread::yield_now(),
        }
    }
    unreachable!()
}

// Waits until the readers have left the lock of a writer that has swept.
fn finish_at_last<R: Wait>(
    rt: &R,
    hall: &Hall<NoCargo>,
    pass: &mut Pass<NoCargo>,
    from_upgrade: bool,
) -> ExclusiveGuard
    requires pass { IsPassOf hall.now pass.old × (0 < (shape_of hall.now).locks) }
    requires announced { standing (view pass.old) 0 ≡ Announcing (shape_of hall.now).slots 0 from_upgrade }
    requires clear { HasNonePending (view pass.old) }
    ensures pass { IsPassOf hall.now pass.new }
    ensures lock { result.lock ≡ 0 }
    ensures fits { ExclusiveFits (shape_of hall.now) (view pass.new) result }
    ensures clear { HasNonePending (view pass.new) }
    ensures finished { FinishedBy from_upgrade pass.new }
{
    for _ in rt.forever() {
        let announced = Announced {
            lock: LOCK,
            swept: true,
            from_upgrade,
        };
        match try_finish(hall, pass, announced) {
            Ok(guard) => return guard,
            Err(
                (
                    Announced {
                        lock: _,
                        swept: _,
                        from_upgrade: _,
                    },
                    _,
                ),
            ) => thread::yield_now(),
        }
    }
    unreachable!()
}

// An announced writer sweeps, waits until the readers have left, and writes.
fn write_announced<R: Wait>(
    rt: &R,
    hall: &Hall<NoCargo>,
    pass: &mut Pass<NoCargo>,
    announced: Announced,
)
    requires pass { IsPassOf hall.now pass.old }
    requires announced { (announced.lock ≡ 0) × (announced.swept ≡ false) }
    requires fits { AnnouncedFits (shape_of hall.now) (view pass.old) announced }
    requires clear { HasNonePending (view pass.old) }
    ensures outside { IsOutside hall.now pass.new }
    ensures written { HasWritten announced.from_upgrade pass.new }
{
    let mut announced = announced;
    scan(hall, pass, &mut announced);
    let Announced {
        lock: _,
        swept: _,
        from_upgrade,
    } = announced;
    let guard = finish_at_last(rt, hall, pass, from_upgrade);
    unlock(hall, pass, guard);
}

/// Writes once.
pub fn write<R: Wait>(rt: &R, hall: &Hall<NoCargo>, pass: &mut Pass<NoCargo>)
    requires { IsOutside hall.now pass.old }
    ensures outside { IsOutside hall.now pass.new }
    ensures written { HasWritten false pass.new }
{
    let announced = announce_at_last(rt, hall, pass);
    write_announced(rt, hall, pass, announced);
}

// Waits until the pass can take the lock in upgrade mode.
fn upgrade_at_last<R: Wait>(rt: &R, hall: &Hall<NoCargo>, pass: &mut Pass<NoCargo>) -> UpgradeGuard
    requires { IsOutside hall.now pass.old }
    ensures pass { IsPassOf hall.now pass.new }
    ensures lock { result.lock ≡ 0 }
    ensures fits { UpgradeFits (shape_of hall.now) (view pass.new) result }
    ensures clear { HasNonePending (view pass.new) }
{
    for _ in rt.forever() {
        match try_lock_upgrade(hall, pass, LOCK) {
            Ok(guard) => return guard,
            Err(_) => thread::yield_now(),
        }
    }
    unreachable!()
}

// Announces the upgrade holder as a writer. A reader that changes the word between the two looks makes it try again.
fn begin_at_last<R: Wait>(rt: &R, hall: &Hall<NoCargo>, pass: &mut Pass<NoCargo>) -> Announced
    requires pass { IsPassOf hall.now pass.old × (0 < (shape_of hall.now).locks) }
    requires upgrade { standing (view pass.old) 0 ≡ Upgrade }
    requires clear { HasNonePending (view pass.old) }
    ensures pass { IsPassOf hall.now pass.new }
    ensures announced { (result.lock ≡ 0) × (result.swept ≡ false) × (result.from_upgrade ≡ true) }
    ensures fits { AnnouncedFits (shape_of hall.now) (view pass.new) result }
    ensures clear { HasNonePending (view pass.new) }
{
    for _ in rt.forever() {
        match begin_upgrade(hall, pass, UpgradeGuard { lock: LOCK }) {
            Ok(announced) => return announced,
            Err(
                BeginRaced {
                    guard: UpgradeGuard { lock: _ },
                    expected: _,
                    found: _,
                },
            ) => thread::yield_now(),
        }
    }
    unreachable!()
}

/// Takes the lock in upgrade mode, goes on to an exclusive hold once the readers have left, and writes.
pub fn raise<R: Wait>(rt: &R, hall: &Hall<NoCargo>, pass: &mut Pass<NoCargo>)
    requires { IsOutside hall.now pass.old }
    ensures outside { IsOutside hall.now pass.new }
    ensures written { HasWritten true pass.new }
{
    let UpgradeGuard { lock: _ } = upgrade_at_last(rt, hall, pass);
    let announced = begin_at_last(rt, hall, pass);
    write_announced(rt, hall, pass, announced);
}
