//! Waiting for one lock, for as long as it takes.
//!
//! `timed_wait` has this loop for an attempt of one type; these are generic in what the hall carries, so that each is a
//! loop of its own.
ghost use Rattle.std.specs.Prelude.{◌≡◌, ◌<◌, List, MatchResult, true, false};
ghost use Rattle.hall.specs.Fitting.{SharedFits};
ghost use Rattle.hall.specs.Passes.{view, IsPassOf, shape_of};
ghost use Rattle.hall.specs.Slotting.{HasNonePending};
ghost use Rattle.hall.specs.Views.{standing};
ghost use Rattle.hall.specs.declared.guards.TryFault.{TryFault};
ghost use Rattle.hall.specs.declared.view.Standing.TheVariants.{Away, Announcing, Exclusive, Upgrade};
ghost use Rattle.shared_mutex.specs.Acquiring.{ElsewhereSame, RefusesAnnouncing};
ghost use Rattle.shared_mutex.specs.Tries.{AddsSteps, AnnouncesAndSweeps, AnnouncesAtLast, HoldsAtLast, IsPatientTry, WritesAtLast};
ghost use Rattle.upgrade_mode.specs.Tries.{EntersUpgradeAtLast};
ghost use Rattle.acquire_many.specs.Met.{EntersAtLastBy};

use apply_deferred::scan;
use hall::{Announced, Cargo, ExclusiveGuard, Hall, Pass, SharedGuard, TryFault, UpgradeGuard};
use shared_mutex::{announce, try_finish, try_lock_shared};
use std::sync::Wait;
use std::thread;
use upgrade_mode::try_lock_upgrade;

/// Waits until the pass can enter as a reader.
pub(crate) fn enter<R: Wait, C: Cargo>(
    rt: &R,
    hall: &Hall<C>,
    pass: &mut Pass<C>,
    lock: u64,
) -> SharedGuard
    requires pass { IsPassOf hall.now pass.old }
    requires lock { lock < (shape_of hall.now).locks }
    requires away { standing (view pass.old) lock ≡ Away }
    requires clear { HasNonePending (view pass.old) }
    ensures pass { IsPassOf hall.now pass.new }
    ensures lock { result.lock ≡ lock }
    ensures fits { SharedFits (shape_of hall.now) (view pass.new) result }
    ensures clear { HasNonePending (view pass.new) }
    ensures elsewhere { ElsewhereSame (view pass.old) (view pass.new) lock }
    ensures step { (faults : List TryFault) × EntersAtLastBy C.CargoRule (view pass.old) lock result.form faults (view pass.new) }
    ensures patient { AddsSteps (IsPatientTry (view pass.old) lock) (view pass.old) (view pass.new) }
{
    for _ in rt.forever() {
        match try_lock_shared(hall, pass, lock) {
            Ok(guard) => return guard,
            Err(_) => thread::yield_now(),
        }
    }
    unreachable!()
}

/// Waits until the pass can take upgrade.
pub(crate) fn rise<R: Wait, C: Cargo>(
    rt: &R,
    hall: &Hall<C>,
    pass: &mut Pass<C>,
    lock: u64,
) -> UpgradeGuard
    requires pass { IsPassOf hall.now pass.old }
    requires lock { lock < (shape_of hall.now).locks }
    requires away { standing (view pass.old) lock ≡ Away }
    requires clear { HasNonePending (view pass.old) }
    ensures pass { IsPassOf hall.now pass.new }
    ensures lock { result.lock ≡ lock }
    ensures stands { standing (view pass.new) lock ≡ Upgrade }
    ensures clear { HasNonePending (view pass.new) }
    ensures elsewhere { ElsewhereSame (view pass.old) (view pass.new) lock }
    ensures step { (faults : List TryFault) × EntersUpgradeAtLast C.CargoRule (view pass.old) lock faults (view pass.new) }
    ensures patient { AddsSteps (IsPatientTry (view pass.old) lock) (view pass.old) (view pass.new) }
{
    for _ in rt.forever() {
        match try_lock_upgrade(hall, pass, lock) {
            Ok(guard) => return guard,
            Err(_) => thread::yield_now(),
        }
    }
    unreachable!()
}

// Tries to announce a writer, and sweeps for it.
fn announce_and_sweep<C: Cargo>(
    hall: &Hall<C>,
    pass: &mut Pass<C>,
    lock: u64,
) -> Result<Announced, TryFault>
    requires pass { IsPassOf hall.now pass.old }
    requires lock { lock < (shape_of hall.now).locks }
    requires away { standing (view pass.old) lock ≡ Away }
    ensures pass { IsPassOf hall.now pass.new }
    ensures step { MatchResult result (λ announced. (announced.lock ≡ lock) × (announced.swept ≡ true) × (announced.from_upgrade ≡ false) × AnnouncesAndSweeps C.CargoRule (view pass.old).shape.slots (view pass.old) lock (view pass.new)) (λ fault. RefusesAnnouncing C.CargoRule (view pass.old) lock (view pass.new) fault) }
    ensures stands { MatchResult result (λ _. standing (view pass.new) lock ≡ Announcing (shape_of hall.now).slots 0 false) (λ _. standing (view pass.new) lock ≡ Away) }
    ensures elsewhere { ElsewhereSame (view pass.old) (view pass.new) lock }
{
    let mut announced = announce(hall, pass, lock)?;
    scan(hall, pass, &mut announced);
    Ok(announced)
}

// Waits until a writer is announced, and sweeps for it.
fn announce_at_last<R: Wait, C: Cargo>(
    rt: &R,
    hall: &Hall<C>,
    pass: &mut Pass<C>,
    lock: u64,
) -> Announced
    requires pass { IsPassOf hall.now pass.old }
    requires lock { lock < (shape_of hall.now).locks }
    requires away { standing (view pass.old) lock ≡ Away }
    ensures pass { IsPassOf hall.now pass.new }
    ensures announced { (result.lock ≡ lock) × (result.swept ≡ true) × (result.from_upgrade ≡ false) }
    ensures stands { standing (view pass.new) lock ≡ Announcing (shape_of hall.now).slots 0 false }
    ensures elsewhere { ElsewhereSame (view pass.old) (view pass.new) lock }
    ensures step { (faults : List TryFault) × AnnouncesAtLast C.CargoRule (view pass.old) lock faults (view pass.new) }
{
    for _ in rt.forever() {
        match announce_and_sweep(hall, pass, lock) {
            Ok(announced) => return announced,
            Err(_) => thread::yield_now(),
        }
    }
    unreachable!()
}

// Waits until the readers have left the lock of an announced writer, which stays announced.
fn finish_at_last<R: Wait, C: Cargo>(
    rt: &R,
    hall: &Hall<C>,
    pass: &mut Pass<C>,
    lock: u64,
) -> ExclusiveGuard
    requires pass { IsPassOf hall.now pass.old }
    requires lock { lock < (shape_of hall.now).locks }
    requires announced { standing (view pass.old) lock ≡ Announcing (shape_of hall.now).slots 0 false }
    ensures pass { IsPassOf hall.now pass.new }
    ensures lock { result.lock ≡ lock }
    ensures stands { standing (view pass.new) lock ≡ Exclusive }
    ensures elsewhere { ElsewhereSame (view pass.old) (view pass.new) lock }
    ensures step { (misses : List TryFault) × HoldsAtLast C.CargoRule (view pass.old) lock misses (view pass.new) }
{
    for _ in rt.forever() {
        let announced = Announced {
            lock,
            swept: true,
            from_upgrade: false,
        };
        match try_finish(hall, pass, announced) {
            Ok(guard) => return guard,
            Err(
                (
                    Announced {
                        lock: _,
                        swept: _,
                        from_upgrade: _,
                    },
                    _,
                ),
            ) => thread::yield_now(),
        }
    }
    unreachable!()
}

/// Waits until a writer can be announced, and then until the readers have left. It stays announced between its tries.
pub(crate) fn write<R: Wait, C: Cargo>(
    rt: &R,
    hall: &Hall<C>,
    pass: &mut Pass<C>,
    lock: u64,
) -> ExclusiveGuard
    requires pass { IsPassOf hall.now pass.old }
    requires lock { lock < (shape_of hall.now).locks }
    requires away { standing (view pass.old) lock ≡ Away }
    requires clear { HasNonePending (view pass.old) }
    ensures pass { IsPassOf hall.now pass.new }
    ensures lock { result.lock ≡ lock }
    ensures stands { standing (view pass.new) lock ≡ Exclusive }
    ensures clear { HasNonePending (view pass.new) }
    ensures elsewhere { ElsewhereSame (view pass.old) (view pass.new) lock }
    ensures step { (faults : List TryFault) × (misses : List TryFault) × WritesAtLast C.CargoRule (view pass.old) lock faults misses (view pass.new) }
    ensures patient { AddsSteps (IsPatientTry (view pass.old) lock) (view pass.old) (view pass.new) }
{
    let Announced {
        lock: _,
        swept: _,
        from_upgrade: _,
    } = announce_at_last(rt, hall, pass, lock);
    finish_at_last(rt, hall, pass, lock)
}
