//! What no clause says: that the words are those that are meant, step by step, and that tries succeed where nobody is
//! in the way.
ghost use Rattle.std.specs.Prelude.{◌≡◌, ◌<◌, true, false};
ghost use Rattle.std.specs.Thread.{IsSync};
ghost use Rattle.hall.specs.Fitting.{SharedFits, AnnouncedFits};
ghost use Rattle.hall.specs.Passes.{view, IsPassOf, shape_of};
ghost use Rattle.hall.specs.Slotting.{HasNonePending};
ghost use Rattle.hall.specs.Views.{standing};
ghost use Rattle.hall.specs.declared.view.Standing.TheVariants.{Away, Exclusive};
ghost use Rattle.shared_mutex.specs.Beside.{IsIdle};

use crate::{announce, retract, try_finish, try_lock, try_lock_shared, unlock, unlock_shared};
use apply_deferred::scan;
use hall::{Announced, ExclusiveGuard, Hall, NoCargo, Pass, Policy, SharedGuard, TryFault, Word};
use lock_model::{Act, Event, ModelLock};
use std::process::Abort;
use std::sync::Wait;
use std::thread::{self, Threads};

pub(crate) const ONE: u64 = 4294967296;

// A shared hold, which nobody is in the way of.
pub(crate) fn shared<A: Abort>(
    rt: &A,
    hall: &Hall<NoCargo>,
    pass: &mut Pass<NoCargo>,
) -> SharedGuard
    requires pass { IsPassOf hall.now pass.old × (0 < (shape_of hall.now).locks) }
    requires away { standing (view pass.old) 0 ≡ Away }
    requires clear { HasNonePending (view pass.old) }
    ensures pass { IsPassOf hall.now pass.new }
    ensures fits { (result.lock ≡ 0) × SharedFits (shape_of hall.now) (view pass.new) result }
    ensures clear { HasNonePending (view pass.new) }
{
    match try_lock_shared(hall, pass, 0) {
        Ok(guard) => guard,
        Err(_) => rt.abort(),
    }
}

fn exclusive<A: Abort>(rt: &A, hall: &Hall<NoCargo>, pass: &mut Pass<NoCargo>) -> ExclusiveGuard
    requires pass { IsPassOf hall.now pass.old × (0 < (shape_of hall.now).locks) }
    requires away { standing (view pass.old) 0 ≡ Away }
    requires clear { HasNonePending (view pass.old) }
    ensures pass { IsPassOf hall.now pass.new }
    ensures held { (result.lock ≡ 0) × (standing (view pass.new) 0 ≡ Exclusive) }
    ensures clear { HasNonePending (view pass.new) }
{
    match try_lock(hall, pass, 0) {
        Ok(guard) => guard,
        Err(_) => rt.abort(),
    }
}

// A try for a shared hold that has to be refused with this fault.
fn no_shared<A: Abort>(rt: &A, hall: &Hall<NoCargo>, pass: &mut Pass<NoCargo>, busy: u64)
    requires pass { IsPassOf hall.now pass.old × (0 < (shape_of hall.now).locks) }
    requires away { standing (view pass.old) 0 ≡ Away }
    requires clear { HasNonePending (view pass.old) }
    ensures pass { IsPassOf hall.now pass.new }
    ensures away { standing (view pass.new) 0 ≡ Away }
    ensures clear { HasNonePending (view pass.new) }
{
    match try_lock_shared(hall, pass, 0) {
        Ok(guard) => {
            unlock_shared(hall, pass, guard);
            assert!(rt; false);
        }
        Err(found) => assert_eq!(rt; found, TryFault::Busy { word: Word(busy) }),
    }
}

fn no_exclusive<A: Abort>(rt: &A, hall: &Hall<NoCargo>, pass: &mut Pass<NoCargo>, busy: u64)
    requires pass { IsPassOf hall.now pass.old × (0 < (shape_of hall.now).locks) }
    requires away { standing (view pass.old) 0 ≡ Away }
    requires clear { HasNonePending (view pass.old) }
    ensures pass { IsPassOf hall.now pass.new }
    ensures away { standing (view pass.new) 0 ≡ Away }
    ensures clear { HasNonePending (view pass.new) }
{
    match try_lock(hall, pass, 0) {
        Ok(guard) => {
            unlock(hall, pass, guard);
            assert!(rt; false);
        }
        Err(found) => assert_eq!(rt; found, TryFault::Busy { word: Word(busy) }),
    }
}

pub(crate) fn word_is<A: Abort>(rt: &A, hall: &Hall<NoCargo>, pass: &mut Pass<NoCargo>, word: u64)
    requires pass { IsPassOf hall.now pass.old × (0 < (shape_of hall.now).locks) }
    ensures pass { IsPassOf hall.now pass.new }
    ensures same { standing (view pass.new) 0 ≡ standing (view pass.old) 0 }
    ensures clear { HasNonePending (view pass.old) → HasNonePending (view pass.new) }
{
    assert_eq!(rt; hall.load(pass, 0), Word(word));
}

#[test]
fn writer_then_readers_then_writer(rt: HostRuntime) {
    for policy in [Policy::WritePriority, Policy::ReadPriority] {
        let made = Hall::make(rt.alloc(), 1, 32, policy, 3, 0, NoCargo);
        let Ok((hall, first)) = made else {
            unreachable_without_memory(&rt)
        };
        let mut first = first;
        let mut second = hall.split(&mut first, 1, 0);
        let mut third = hall.split(&mut first, 1, 0);
        assert_eq!(rt; second.number(), 2);
        assert_eq!(rt; third.number(), 1);
        let guard = exclusive(&rt, &hall, &mut first);
        word_is(&rt, &hall, &mut first, 8);
        no_shared(&rt, &hall, &mut second, 8);
        no_exclusive(&rt, &hall, &mut second, 8);
        unlock(&hall, &mut first, guard);
        word_is(&rt, &hall, &mut first, 0);
        let left = shared(&rt, &hall, &mut second);
        word_is(&rt, &hall, &mut second, ONE);
        let right = shared(&rt, &hall, &mut third);
        word_is(&rt, &hall, &mut third, 2 * ONE);
        no_exclusive(&rt, &hall, &mut first, 2 * ONE + 4);
        word_is(&rt, &hall, &mut first, 2 * ONE + 1);
        unlock_shared(&hall, &mut second, left);
        unlock_shared(&hall, &mut third, right);
        word_is(&rt, &hall, &mut first, 1);
    }
}

// A waiting writer keeps a reader out under write priority, and lets it in under read priority.
#[test]
fn reader_beside_announced_writer(rt: HostRuntime) {
    let made = Hall::make(rt.alloc(), 1, 32, Policy::WritePriority, 2, 0, NoCargo);
    let Ok((hall, first)) = made else {
        unreachable_without_memory(&rt)
    };
    let mut first = first;
    let mut second = hall.split(&mut first, 1, 0);
    if let Ok(announced) = announce(&hall, &mut first, 0) {
        word_is(&rt, &hall, &mut first, 4);
        no_shared(&rt, &hall, &mut second, 4);
        retract(&hall, &mut first, announced);
        word_is(&rt, &hall, &mut first, 1);
    } else {
        assert!(rt; false);
    }
}

#[test]
fn reader_beside_announced_writer_under_read_priority(rt: HostRuntime) {
    let made = Hall::make(rt.alloc(), 1, 32, Policy::ReadPriority, 2, 0, NoCargo);
    let Ok((hall, first)) = made else {
        unreachable_without_memory(&rt)
    };
    let mut first = first;
    let mut second = hall.split(&mut first, 1, 0);
    if let Ok(announced) = announce(&hall, &mut first, 0) {
        let guard = shared(&rt, &hall, &mut second);
        word_is(&rt, &hall, &mut second, ONE + 4);
        unlock_shared(&hall, &mut second, guard);
        word_is(&rt, &hall, &mut second, 4);
        retract(&hall, &mut first, announced);
    } else {
        assert!(rt; false);
    }
}

fn unreachable_without_memory<A: Abort>(rt: &A) -> ! {
    rt.abort()
}

fn agrees<A: Abort>(rt: &A, model: &mut ModelLock, seat: u64, act: Act, allowed: bool) {
    assert_eq!(rt;
        model.apply(Event { seat, act }).is_ok(),
        allowed,
        "{act:?} of {seat}"
    );
}

// A reader tries, beside the model, and leaves again.
fn reader_beside<A: Abort>(
    rt: &A,
    hall: &Hall<NoCargo>,
    pass: &mut Pass<NoCargo>,
    model: &mut ModelLock,
)
    requires pass { IsPassOf hall.now pass.old × (0 < (shape_of hall.now).locks) }
    requires away { standing (view pass.old) 0 ≡ Away }
    requires clear { HasNonePending (view pass.old) }
    ensures pass { IsPassOf hall.now pass.new }
    ensures away { standing (view pass.new) 0 ≡ Away }
    ensures clear { HasNonePending (view pass.new) }
{
    let seat = pass.number();
    match try_lock_shared(hall, pass, 0) {
        Ok(guard) => {
            agrees(rt, model, seat, Act::EnterShared, true);
            unlock_shared(hall, pass, guard);
            agrees(rt, model, seat, Act::Leave, true);
        }
        Err(_) => agrees(rt, model, seat, Act::EnterShared, false),
    }
}

// A writer that has swept tries to finish, beside the model, and is away afterwards.
fn finishes_beside<A: Abort>(
    rt: &A,
    hall: &Hall<NoCargo>,
    pass: &mut Pass<NoCargo>,
    model: &mut ModelLock,
    announced: Announced,
)
    requires pass { IsPassOf hall.now pass.old × (0 < (shape_of hall.now).locks) }
    requires announced { (announced.lock ≡ 0) × (announced.swept ≡ true) × (announced.from_upgrade ≡ false) }
    requires fits { AnnouncedFits (shape_of hall.now) (view pass.old) announced }
    requires clear { HasNonePending (view pass.old) }
    ensures pass { IsPassOf hall.now pass.new }
    ensures away { standing (view pass.new) 0 ≡ Away }
    ensures clear { HasNonePending (view pass.new) }
{
    let seat = pass.number();
    match try_finish(hall, pass, announced) {
        Ok(guard) => {
            agrees(rt, model, seat, Act::TakeExclusive, true);
            unlock(hall, pass, guard);
            agrees(rt, model, seat, Act::Leave, true);
        }
        Err((announced, _)) => {
            agrees(rt, model, seat, Act::TakeExclusive, false);
            retract(hall, pass, announced);
            agrees(rt, model, seat, Act::Retract, true);
        }
    }
}

// A writer tries, beside the model, and leaves again.
fn writer_beside<A: Abort>(
    rt: &A,
    hall: &Hall<NoCargo>,
    pass: &mut Pass<NoCargo>,
    model: &mut ModelLock,
)
    requires pass { IsPassOf hall.now pass.old × (0 < (shape_of hall.now).locks) }
    requires away { standing (view pass.old) 0 ≡ Away }
    requires clear { HasNonePending (view pass.old) }
    ensures pass { IsPassOf hall.now pass.new }
    ensures away { standing (view pass.new) 0 ≡ Away }
    ensures clear { HasNonePending (view pass.new) }
{
    let seat = pass.number();
    match announce(hall, pass, 0) {
        Ok(mut announced) => {
            agrees(rt, model, seat, Act::Announce, true);
            scan(hall, pass, &mut announced);
            finishes_beside(rt, hall, pass, model, announced);
        }
        Err(_) => agrees(rt, model, seat, Act::Announce, false),
    }
}

// In each state that one pass can bring the lock to, another's tries end as the model says.
fn beside_model<A: Abort>(
    rt: &A,
    hall: &Hall<NoCargo>,
    one: &mut Pass<NoCargo>,
    other: &mut Pass<NoCargo>,
    model: &mut ModelLock,
)
    requires one { IsPassOf hall.now one.old × (0 < (shape_of hall.now).locks) × (standing (view one.old) 0 ≡ Away) × HasNonePending (view one.old) }
    requires other { IsPassOf hall.now other.old × (standing (view other.old) 0 ≡ Away) × HasNonePending (view other.old) }
    ensures one { IsPassOf hall.now one.new × (standing (view one.new) 0 ≡ Away) × HasNonePending (view one.new) }
    ensures other { IsPassOf hall.now other.new × (standing (view other.new) 0 ≡ Away) × HasNonePending (view other.new) }
{
    let seat = one.number();
    reader_beside(rt, hall, other, model);
    writer_beside(rt, hall, other, model);
    let guard = shared(rt, hall, one);
    agrees(rt, model, seat, Act::EnterShared, true);
    reader_beside(rt, hall, other, model);
    writer_beside(rt, hall, other, model);
    unlock_shared(hall, one, guard);
    agrees(rt, model, seat, Act::Leave, true);
    let guard = exclusive(rt, hall, one);
    agrees(rt, model, seat, Act::Announce, true);
    agrees(rt, model, seat, Act::TakeExclusive, true);
    reader_beside(rt, hall, other, model);
    writer_beside(rt, hall, other, model);
    unlock(hall, one, guard);
    agrees(rt, model, seat, Act::Leave, true);
    if let Ok(announced) = announce(hall, one, 0) {
        agrees(rt, model, seat, Act::Announce, true);
        reader_beside(rt, hall, other, model);
        writer_beside(rt, hall, other, model);
        retract(hall, one, announced);
        agrees(rt, model, seat, Act::Retract, true);
    } else {
        assert!(rt; false);
    }
}

#[test]
fn as_the_model_does(rt: HostRuntime) {
    for policy in [Policy::WritePriority, Policy::ReadPriority] {
        let made = Hall::make(rt.alloc(), 1, 4, policy, 2, 0, NoCargo);
        let Ok((hall, first)) = made else {
            unreachable_without_memory(&rt)
        };
        let mut first = first;
        let mut second = hall.split(&mut first, 1, 0);
        let mut model = ModelLock::new(rt.alloc(), policy);
        beside_model(&rt, &hall, &mut first, &mut second, &mut model);
    }
}

// Tries once to read, and says whether it did.
fn reads(hall: &Hall<NoCargo>, pass: &mut Pass<NoCargo>) -> bool
    requires pass { IsIdle hall.now pass.old × (0 < (shape_of hall.now).locks) }
    ensures { IsIdle hall.now pass.new }
{
    match try_lock_shared(hall, pass, 0) {
        Ok(guard) => {
            unlock_shared(hall, pass, guard);
            true
        }
        Err(_) => false,
    }
}

// Tries once to write, and says whether it did.
fn writes(hall: &Hall<NoCargo>, pass: &mut Pass<NoCargo>) -> bool
    requires pass { IsIdle hall.now pass.old × (0 < (shape_of hall.now).locks) }
    ensures { IsIdle hall.now pass.new }
{
    match try_lock(hall, pass, 0) {
        Ok(guard) => {
            unlock(hall, pass, guard);
            true
        }
        Err(_) => false,
    }
}

// Tries again and again for each kind of hold, and answers how many it gained.
fn hammer(hall: &Hall<NoCargo>, pass: &mut Pass<NoCargo>, times: u32) -> u32
    requires pass { IsIdle hall.now pass.old × (0 < (shape_of hall.now).locks) }
    ensures { IsIdle hall.now pass.new }
{
    let mut gained = 0u32;
    for _ in 0..times {
        if reads(hall, pass) {
            gained = gained.saturating_add(1);
        }
        if writes(hall, pass) {
            gained = gained.saturating_add(1);
        }
    }
    gained
}

fn by_two_threads<R: Threads + Wait + Sync>(
    rt: &R,
    hall: &Hall<NoCargo>,
    mut left: Pass<NoCargo>,
    mut right: Pass<NoCargo>,
) -> ((Pass<NoCargo>, u32), (Pass<NoCargo>, u32))
    requires left { IsIdle hall.now left }
    requires right { IsIdle hall.now right }
    requires lock { 0 < (shape_of hall.now).locks }
    ensures left { IsIdle hall.now result.0.0 }
    ensures right { IsIdle hall.now result.1.0 }
{
    thread::join(
        rt,
        move || -> (Pass<NoCargo>, u32)
            requires { IsIdle hall.now left × (0 < (shape_of hall.now).locks) }
            ensures { IsIdle hall.entry.now result.0 }
        {
            let gained = hammer(hall, &mut left, 1000);
            (left, gained)
        },
        move || -> (Pass<NoCargo>, u32)
            requires { IsIdle hall.now right × (0 < (shape_of hall.now).locks) }
            ensures { IsIdle hall.entry.now result.0 }
        {
            let gained = hammer(hall, &mut right, 1000);
            (right, gained)
        },
    )
}

// Nobody is at the lock, and no unit was lost or left behind.
fn is_free(word: Word) -> bool {
    word.count() == 0 && !word.upgrade() && !word.begun() && !word.held()
}

// Whatever the schedule was, two threads that have ended leave a free lock.
#[test]
fn two_threads(rt: HostRuntime) {
    let made = Hall::make(rt.alloc(), 1, 4, Policy::WritePriority, 2, 0, NoCargo);
    let Ok((hall, first)) = made else {
        unreachable_without_memory(&rt)
    };
    let mut first = first;
    let second = hall.split(&mut first, 1, 0);
    let (left, right) = by_two_threads(&rt, &hall, first, second);
    let mut left = left.0;
    assert!(rt; is_free(hall.load(&mut left, 0)));
    let guard = exclusive(&rt, &hall, &mut left);
    word_is(&rt, &hall, &mut left, 8);
    unlock(&hall, &mut left, guard);
    hall.join(&mut left, right.0);
    word_is(&rt, &hall, &mut left, 0);
}

fn by_four_threads<R: Threads + Wait + Sync>(
    rt: &R,
    hall: &Hall<NoCargo>,
    front: (Pass<NoCargo>, Pass<NoCargo>),
    back: (Pass<NoCargo>, Pass<NoCargo>),
) -> (
    ((Pass<NoCargo>, u32), (Pass<NoCargo>, u32)),
    ((Pass<NoCargo>, u32), (Pass<NoCargo>, u32)),
)
    requires front { IsIdle hall.now front.0 × IsIdle hall.now front.1 }
    requires back { IsIdle hall.now back.0 × IsIdle hall.now back.1 }
    requires lock { 0 < (shape_of hall.now).locks }
    ensures front { IsIdle hall.now result.0.0.0 × IsIdle hall.now result.0.1.0 }
    ensures back { IsIdle hall.now result.1.0.0 × IsIdle hall.now result.1.1.0 }
{
    thread::join(
        rt,
        move || -> ((Pass<NoCargo>, u32), (Pass<NoCargo>, u32))
            requires { IsSync R.row × IsIdle hall.now front.0 × IsIdle hall.now front.1 × (0 < (shape_of hall.now).locks) }
            ensures { IsIdle hall.entry.now result.0.0 × IsIdle hall.entry.now result.1.0 }
        { by_two_threads(rt, hall, front.0, front.1) },
        move || -> ((Pass<NoCargo>, u32), (Pass<NoCargo>, u32))
            requires { IsSync R.row × IsIdle hall.now back.0 × IsIdle hall.now back.1 × (0 < (shape_of hall.now).locks) }
            ensures { IsIdle hall.entry.now result.0.0 × IsIdle hall.entry.now result.1.0 }
        { by_two_threads(rt, hall, back.0, back.1) },
    )
}

// Four threads read and write, a thousand tries each for both. However they met, and whatever was deferred and swept,
// no unit is lost: each of the four gained no more than it tried for, and they leave a free lock.
#[test]
fn four_threads(rt: HostRuntime) {
    let made = Hall::make(rt.alloc(), 1, 4, Policy::WritePriority, 4, 0, NoCargo);
    let Ok((hall, first)) = made else {
        unreachable_without_memory(&rt)
    };
    let mut first = first;
    let fourth = hall.split(&mut first, 1, 0);
    let third = hall.split(&mut first, 1, 0);
    let second = hall.split(&mut first, 1, 0);
    let (front, back) = by_four_threads(&rt, &hall, (first, second), (third, fourth));
    let ((one, by_one), (two, by_two)) = front;
    let ((three, by_three), (four, by_four)) = back;
    for gained in [by_one, by_two, by_three, by_four] {
        assert!(rt; gained <= 2000);
    }
    let mut one = one;
    assert!(rt; is_free(hall.load(&mut one, 0)));
    let guard = exclusive(&rt, &hall, &mut one);
    word_is(&rt, &hall, &mut one, 8);
    unlock(&hall, &mut one, guard);
    hall.join(&mut one, two);
    hall.join(&mut one, three);
    hall.join(&mut one, four);
    word_is(&rt, &hall, &mut one, 0);
}
