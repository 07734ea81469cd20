//! What no clause says: that the words are those that are meant, and that calls succeed where nobody is in the way.
ghost use Rattle.std.specs.Prelude.{◌≡◌, ◌<◌};
ghost use Rattle.hall.specs.Passes.{view, IsPassOf, shape_of};
ghost use Rattle.hall.specs.Slotting.{HasNonePending};
ghost use Rattle.hall.specs.Views.{standing};
ghost use Rattle.hall.specs.declared.view.Standing.TheVariants.{Away};

use crate::{Guards, ManyFault, OneGuard, SameCell, lock_many, try_many, unlock_many};
use hall::{ExclusiveGuard, Hall, Mode, NoCargo, Pass, Policy, SharedGuard, TryFault, Word};
use shared_mutex::{try_lock, unlock};
use std::process::Abort;
use std::sync::Wait;

const EXCLUSIVE: u64 = 8;

const ONE_READER: u64 = 4294967296;

// The words of both locks, as they are read by this pass.
fn words_are<A: Abort>(rt: &A, hall: &Hall<NoCargo>, pass: &mut Pass<NoCargo>, low: u64, high: u64)
    requires pass { IsPassOf hall.now pass.old × (1 < (shape_of hall.now).locks) }
    ensures pass { IsPassOf hall.now pass.new }
{
    assert_eq!(rt; hall.load(pass, 0), Word(low));
    assert_eq!(rt; hall.load(pass, 1), Word(high));
}

// The greater lock shared and the lesser exclusive: the guards stand by the positions of the wants.
fn in_falling_order<R: Wait + Abort>(
    rt: &R,
    hall: &Hall<NoCargo>,
    pass: &mut Pass<NoCargo>,
    other: &mut Pass<NoCargo>,
)
    requires pass { IsPassOf hall.now pass.old × (1 < (shape_of hall.now).locks) }
    requires away { (standing (view pass.old) 0 ≡ Away) × (standing (view pass.old) 1 ≡ Away) }
    requires clear { HasNonePending (view pass.old) }
    requires other { IsPassOf hall.now other.old }
    ensures pass { IsPassOf hall.now pass.new }
    ensures other { IsPassOf hall.now other.new }
{
    let wants = [(1, Mode::Shared), (0, Mode::Exclusive)];
    match lock_many(rt, hall, pass, &wants) {
        Ok(guards) => {
            words_are(rt, hall, other, EXCLUSIVE, ONE_READER);
            let stand_by_position = matches!(
                &guards,
                Guards {
                    first: Some(OneGuard::Shared(SharedGuard { lock: 1, form: _ })),
                    second: Some(OneGuard::Exclusive(ExclusiveGuard { lock: 0 })),
                }
            );
            assert!(rt; stand_by_position);
            unlock_many(hall, pass, guards);
            words_are(rt, hall, other, 0, 0);
        }
        Err(SameCell { index: _ }) => assert!(rt; false),
    }
}

fn one_lock_twice<R: Wait + Abort>(rt: &R, hall: &Hall<NoCargo>, pass: &mut Pass<NoCargo>)
    requires pass { IsPassOf hall.now pass.old × (1 < (shape_of hall.now).locks) }
    requires away { (standing (view pass.old) 0 ≡ Away) × (standing (view pass.old) 1 ≡ Away) }
    requires clear { HasNonePending (view pass.old) }
    ensures pass { IsPassOf hall.now pass.new }
{
    let wants = [(0, Mode::Shared), (0, Mode::Exclusive)];
    match lock_many(rt, hall, pass, &wants) {
        Ok(guards) => {
            unlock_many(hall, pass, guards);
            assert!(rt; false);
        }
        Err(same) => assert_eq!(rt; same, SameCell { index: 1 }),
    }
}

// The other pass holds the second lock. What was taken before it is given back.
fn behind_a_writer<A: Abort>(
    rt: &A,
    hall: &Hall<NoCargo>,
    pass: &mut Pass<NoCargo>,
    other: &mut Pass<NoCargo>,
)
    requires pass { IsPassOf hall.now pass.old × (1 < (shape_of hall.now).locks) }
    requires away { (standing (view pass.old) 0 ≡ Away) × (standing (view pass.old) 1 ≡ Away) }
    requires clear { HasNonePending (view pass.old) }
    requires other { IsPassOf hall.now other.old }
    requires far { standing (view other.old) 1 ≡ Away }
    ensures pass { IsPassOf hall.now pass.new }
    ensures other { IsPassOf hall.now other.new }
{
    let Ok(held) = try_lock(hall, other, 1) else {
        rt.abort()
    };
    let wants = [(0, Mode::Exclusive), (1, Mode::Exclusive)];
    match try_many(hall, pass, &wants) {
        Ok(guards) => {
            unlock_many(hall, pass, guards);
            assert!(rt; false);
        }
        Err(found) => {
            let fault = TryFault::Busy {
                word: Word(EXCLUSIVE),
            };
            assert_eq!(rt; found, ManyFault::Refused { index: 1, fault });
        }
    }
    words_are(rt, hall, pass, 0, EXCLUSIVE);
    unlock(hall, other, held);
}

#[test]
fn several_locks(rt: HostRuntime) {
    let made = Hall::make(rt.alloc(), 2, 32, Policy::WritePriority, 2, 0, NoCargo);
    let Ok((hall, first)) = made else { rt.abort() };
    let mut first = first;
    let mut second = hall.split(&mut first, 1, 0);
    in_falling_order(&rt, &hall, &mut first, &mut second);
}

#[test]
fn a_lock_twice(rt: HostRuntime) {
    let made = Hall::make(rt.alloc(), 2, 32, Policy::WritePriority, 1, 0, NoCargo);
    let Ok((hall, first)) = made else { rt.abort() };
    let mut first = first;
    one_lock_twice(&rt, &hall, &mut first);
}

#[test]
fn a_try_that_is_refused(rt: HostRuntime) {
    let made = Hall::make(rt.alloc(), 2, 32, Policy::WritePriority, 2, 0, NoCargo);
    let Ok((hall, first)) = made else { rt.abort() };
    let mut first = first;
    let mut second = hall.split(&mut first, 1, 0);
    behind_a_writer(&rt, &hall, &mut first, &mut second);
}
