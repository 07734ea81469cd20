//! What no clause says: that the words are those that are meant, step by step, and that calls succeed where nobody is
//! in the way.
ghost use Rattle.std.specs.Prelude.{◌≡◌, ◌<◌, true, false};
ghost use Rattle.hall.specs.Fitting.{SharedFits};
ghost use Rattle.hall.specs.Passes.{view, IsPassOf, shape_of};
ghost use Rattle.hall.specs.Slotting.{HasNonePending};
ghost use Rattle.hall.specs.Views.{standing};
ghost use Rattle.hall.specs.declared.view.Standing.TheVariants.{Away, Upgrade, Exclusive, Announcing};

use crate::{
    BeginRaced, begin_upgrade, exclusive_to_shared, exclusive_to_upgrade, retract_upgrade,
    try_lock_upgrade, unlock_upgrade, upgrade_to_shared,
};
use apply_deferred::scan;
use hall::{
    Announced, ExclusiveGuard, Hall, NoCargo, Pass, Policy, SharedGuard, TryFault, UpgradeGuard,
    Word,
};
use shared_mutex::{try_finish, try_lock, try_lock_shared, unlock, unlock_shared};
use std::process::Abort;

const ONE: u64 = 4294967296;

fn word_is<A: Abort>(rt: &A, hall: &Hall<NoCargo>, pass: &mut Pass<NoCargo>, word: u64)
    requires pass { IsPassOf hall.now pass.old × (0 < (shape_of hall.now).locks) }
    ensures pass { IsPassOf hall.now pass.new }
    ensures same { standing (view pass.new) 0 ≡ standing (view pass.old) 0 }
    ensures clear { HasNonePending (view pass.old) → HasNonePending (view pass.new) }
{
    assert_eq!(rt; hall.load(pass, 0), Word(word));
}

fn shared<A: Abort>(rt: &A, hall: &Hall<NoCargo>, pass: &mut Pass<NoCargo>) -> SharedGuard
    requires pass { IsPassOf hall.now pass.old × (0 < (shape_of hall.now).locks) }
    requires away { standing (view pass.old) 0 ≡ Away }
    requires clear { HasNonePending (view pass.old) }
    ensures pass { IsPassOf hall.now pass.new }
    ensures fits { (result.lock ≡ 0) × SharedFits (shape_of hall.now) (view pass.new) result }
{
    match try_lock_shared(hall, pass, 0) {
        Ok(guard) => guard,
        Err(_) => rt.abort(),
    }
}

fn exclusive<A: Abort>(rt: &A, hall: &Hall<NoCargo>, pass: &mut Pass<NoCargo>) -> ExclusiveGuard
    requires pass { IsPassOf hall.now pass.old × (0 < (shape_of hall.now).locks) }
    requires away { standing (view pass.old) 0 ≡ Away }
    ensures pass { IsPassOf hall.now pass.new }
    ensures held { (result.lock ≡ 0) × (standing (view pass.new) 0 ≡ Exclusive) }
{
    match try_lock(hall, pass, 0) {
        Ok(guard) => guard,
        Err(_) => rt.abort(),
    }
}

fn upgrade<A: Abort>(rt: &A, hall: &Hall<NoCargo>, pass: &mut Pass<NoCargo>) -> UpgradeGuard
    requires pass { IsPassOf hall.now pass.old × (0 < (shape_of hall.now).locks) }
    requires away { standing (view pass.old) 0 ≡ Away }
    ensures pass { IsPassOf hall.now pass.new }
    ensures upgrade { (result.lock ≡ 0) × (standing (view pass.new) 0 ≡ Upgrade) }
{
    match try_lock_upgrade(hall, pass, 0) {
        Ok(guard) => guard,
        Err(_) => rt.abort(),
    }
}

// A try for upgrade that has to be refused with this word.
fn no_upgrade<A: Abort>(rt: &A, hall: &Hall<NoCargo>, pass: &mut Pass<NoCargo>, busy: u64)
    requires pass { IsPassOf hall.now pass.old × (0 < (shape_of hall.now).locks) }
    requires away { standing (view pass.old) 0 ≡ Away }
    ensures pass { IsPassOf hall.now pass.new }
    ensures away { standing (view pass.new) 0 ≡ Away }
    ensures clear { HasNonePending (view pass.old) → HasNonePending (view pass.new) }
{
    match try_lock_upgrade(hall, pass, 0) {
        Ok(guard) => {
            unlock_upgrade(hall, pass, guard);
            assert!(rt; false);
        }
        Err(found) => assert_eq!(rt; found, TryFault::Busy { word: Word(busy) }),
    }
}

fn no_exclusive<A: Abort>(rt: &A, hall: &Hall<NoCargo>, pass: &mut Pass<NoCargo>, busy: u64)
    requires pass { IsPassOf hall.now pass.old × (0 < (shape_of hall.now).locks) }
    requires away { standing (view pass.old) 0 ≡ Away }
    ensures pass { IsPassOf hall.now pass.new }
    ensures away { standing (view pass.new) 0 ≡ Away }
    ensures clear { HasNonePending (view pass.old) → HasNonePending (view pass.new) }
{
    match try_lock(hall, pass, 0) {
        Ok(guard) => {
            unlock(hall, pass, guard);
            assert!(rt; false);
        }
        Err(found) => assert_eq!(rt; found, TryFault::Busy { word: Word(busy) }),
    }
}

fn begun<A: Abort>(
    rt: &A,
    hall: &Hall<NoCargo>,
    pass: &mut Pass<NoCargo>,
    guard: UpgradeGuard,
) -> Announced
    requires pass { IsPassOf hall.now pass.old × (0 < (shape_of hall.now).locks) }
    requires upgrade { (guard.lock ≡ 0) × (standing (view pass.old) 0 ≡ Upgrade) }
    ensures pass { IsPassOf hall.now pass.new }
    ensures announced { (result.lock ≡ 0) × (result.swept ≡ false) × (result.from_upgrade ≡ true) × (standing (view pass.new) 0 ≡ Announcing 0 0 true) }
{
    match begin_upgrade(hall, pass, guard) {
        Ok(announced) => announced,
        Err(
            BeginRaced {
                guard: UpgradeGuard { lock: _ },
                expected: _,
                found: _,
            },
        ) => rt.abort(),
    }
}

// A sweep that finds no token.
fn swept<A: Abort>(
    rt: &A,
    hall: &Hall<NoCargo>,
    pass: &mut Pass<NoCargo>,
    announced: Announced,
) -> Announced
    requires pass { IsPassOf hall.now pass.old × (0 < (shape_of hall.now).locks) }
    requires announced { (announced.lock ≡ 0) × (announced.swept ≡ false) × (announced.from_upgrade ≡ true) × (standing (view pass.old) 0 ≡ Announcing 0 0 true) }
    ensures pass { IsPassOf hall.now pass.new }
    ensures announced { (result.lock ≡ 0) × (result.swept ≡ true) × (result.from_upgrade ≡ true) × (standing (view pass.new) 0 ≡ Announcing (shape_of hall.now).slots 0 true) }
{
    let mut announced = announced;
    assert_eq!(rt; scan(hall, pass, &mut announced), 0);
    announced
}

fn finished<A: Abort>(
    rt: &A,
    hall: &Hall<NoCargo>,
    pass: &mut Pass<NoCargo>,
    announced: Announced,
) -> ExclusiveGuard
    requires pass { IsPassOf hall.now pass.old × (0 < (shape_of hall.now).locks) }
    requires announced { (announced.lock ≡ 0) × (announced.swept ≡ true) × (announced.from_upgrade ≡ true) × (standing (view pass.old) 0 ≡ Announcing (shape_of hall.now).slots 0 true) }
    ensures pass { IsPassOf hall.now pass.new }
    ensures held { (result.lock ≡ 0) × (standing (view pass.new) 0 ≡ Exclusive) }
{
    match try_finish(hall, pass, announced) {
        Ok(guard) => guard,
        Err(
            (
                Announced {
                    lock: _,
                    swept: _,
                    from_upgrade: _,
                },
                _,
            ),
        ) => rt.abort(),
    }
}

// A try to finish that has to be refused with this word.
fn not_finished<A: Abort>(
    rt: &A,
    hall: &Hall<NoCargo>,
    pass: &mut Pass<NoCargo>,
    announced: Announced,
    word: u64,
) -> Announced
    requires pass { IsPassOf hall.now pass.old × (0 < (shape_of hall.now).locks) }
    requires announced { (announced.lock ≡ 0) × (announced.swept ≡ true) × (announced.from_upgrade ≡ true) × (standing (view pass.old) 0 ≡ Announcing (shape_of hall.now).slots 0 true) }
    ensures pass { IsPassOf hall.now pass.new }
    ensures announced { (result.lock ≡ 0) × (result.swept ≡ true) × (result.from_upgrade ≡ true) × (standing (view pass.new) 0 ≡ Announcing (shape_of hall.now).slots 0 true) }
{
    match try_finish(hall, pass, announced) {
        Ok(ExclusiveGuard { lock: _ }) => rt.abort(),
        Err((announced, found)) => {
            assert_eq!(rt; found, Word(word));
            announced
        }
    }
}

// An upgrade holder waits for a reader, gives up, tries again once the reader has left, and comes down step by step.
#[test]
fn an_upgrade_beside_a_reader(rt: HostRuntime) {
    for policy in [Policy::WritePriority, Policy::ReadPriority] {
        let made = Hall::make(rt.alloc(), 1, 32, policy, 2, 0, NoCargo);
        let Ok((hall, first)) = made else { rt.abort() };
        let mut first = first;
        let mut second = hall.split(&mut first, 1, 0);
        let guard = upgrade(&rt, &hall, &mut first);
        word_is(&rt, &hall, &mut first, 2);
        no_upgrade(&rt, &hall, &mut second, 2);
        no_exclusive(&rt, &hall, &mut second, 2);
        let reader = shared(&rt, &hall, &mut second);
        word_is(&rt, &hall, &mut second, ONE + 2);
        let announced = begun(&rt, &hall, &mut first, guard);
        word_is(&rt, &hall, &mut first, ONE + 6);
        let announced = swept(&rt, &hall, &mut first, announced);
        let announced = not_finished(&rt, &hall, &mut first, announced, ONE + 6);
        let guard = retract_upgrade(&hall, &mut first, announced);
        word_is(&rt, &hall, &mut first, ONE + 3);
        unlock_shared(&hall, &mut second, reader);
        word_is(&rt, &hall, &mut second, 3);
        let announced = begun(&rt, &hall, &mut first, guard);
        word_is(&rt, &hall, &mut first, 6);
        let announced = swept(&rt, &hall, &mut first, announced);
        let guard = finished(&rt, &hall, &mut first, announced);
        word_is(&rt, &hall, &mut first, 8);
        no_upgrade(&rt, &hall, &mut second, 8);
        let guard = exclusive_to_upgrade(&hall, &mut first, guard);
        word_is(&rt, &hall, &mut first, 2);
        let guard = upgrade_to_shared(&hall, &mut first, guard);
        word_is(&rt, &hall, &mut first, ONE);
        unlock_shared(&hall, &mut first, guard);
        word_is(&rt, &hall, &mut first, 0);
    }
}

// A writer becomes a reader without letting another writer in, and upgrade is given back beside a reader.
#[test]
fn down_to_shared(rt: HostRuntime) {
    let made = Hall::make(rt.alloc(), 1, 32, Policy::WritePriority, 2, 0, NoCargo);
    let Ok((hall, first)) = made else { rt.abort() };
    let mut first = first;
    let mut second = hall.split(&mut first, 1, 0);
    let guard = exclusive(&rt, &hall, &mut first);
    let reader = exclusive_to_shared(&hall, &mut first, guard);
    word_is(&rt, &hall, &mut first, ONE);
    no_exclusive(&rt, &hall, &mut second, ONE + 4);
    let guard = upgrade(&rt, &hall, &mut second);
    word_is(&rt, &hall, &mut second, ONE + 3);
    unlock_upgrade(&hall, &mut second, guard);
    word_is(&rt, &hall, &mut second, ONE + 1);
    unlock_shared(&hall, &mut first, reader);
    word_is(&rt, &hall, &mut first, 1);
}
