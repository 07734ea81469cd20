//! A reader in a slot and a writer that sweeps: the words, step by step.
ghost use Rattle.std.specs.Prelude.{◌≡◌, ◌+◌, ◌<◌, true, false};
ghost use Rattle.hall.specs.Fitting.{ExclusiveFits};
ghost use Rattle.hall.specs.Passes.{view, IsPassOf, shape_of};
ghost use Rattle.hall.specs.Slotting.{HasNonePending};
ghost use Rattle.hall.specs.Views.{standing};
ghost use Rattle.hall.specs.declared.view.Standing.TheVariants.{Away, Undecided, Announcing};

use crate::deferring::enters_by;
use crate::tests::{ONE, shared, word_is};
use crate::{announce, retract, try_finish, unlock, unlock_shared};
use apply_deferred::scan;
use hall::{Announced, ExclusiveGuard, Form, Hall, NoCargo, Pass, Policy, Word};
use reader_slots::{Checked, Placed, Withdrawn, check, place, withdraw};
use std::process::Abort;

// The pass places a token in this slot, and hasn't looked again yet.
fn places<A: Abort>(rt: &A, hall: &Hall<NoCargo>, pass: &mut Pass<NoCargo>, slot: u64)
    requires pass { IsPassOf hall.now pass.old × (0 < (shape_of hall.now).locks) }
    requires away { standing (view pass.old) 0 ≡ Away }
    requires clear { HasNonePending (view pass.old) }
    ensures pass { IsPassOf hall.now pass.new }
    ensures undecided { (standing (view pass.new) 0 ≡ Undecided slot) × (slot < (shape_of hall.now).slots) }
{
    match place(hall, pass, 0) {
        Placed::At { slot: found } => {
            if found != slot {
                rt.abort()
            }
        }
        Placed::Taken { seen: _ } => rt.abort(),
    }
}

// A writer was announced in between, so that the pass isn't inside: it finds this word.
fn is_not_inside<A: Abort>(
    rt: &A,
    hall: &Hall<NoCargo>,
    pass: &mut Pass<NoCargo>,
    slot: u64,
    word: u64,
)
    requires pass { IsPassOf hall.now pass.old × (0 < (shape_of hall.now).locks) }
    requires undecided { standing (view pass.old) 0 ≡ Undecided slot }
    ensures pass { IsPassOf hall.now pass.new }
    ensures undecided { standing (view pass.new) 0 ≡ Undecided slot }
{
    let _token = slot;
    match check(hall, pass, 0) {
        Checked::Inside => rt.abort(),
        Checked::NotInside { word: found } => assert_eq!(rt; found, Word(word)),
    }
}

fn announced<A: Abort>(rt: &A, hall: &Hall<NoCargo>, pass: &mut Pass<NoCargo>) -> Announced
    requires pass { IsPassOf hall.now pass.old × (0 < (shape_of hall.now).locks) }
    requires away { standing (view pass.old) 0 ≡ Away }
    ensures pass { IsPassOf hall.now pass.new }
    ensures announced { (result.lock ≡ 0) × (result.swept ≡ false) × (result.from_upgrade ≡ false) × (standing (view pass.new) 0 ≡ Announcing 0 0 false) }
{
    match announce(hall, pass, 0) {
        Ok(announced) => announced,
        Err(_) => rt.abort(),
    }
}

fn swept<A: Abort>(
    rt: &A,
    hall: &Hall<NoCargo>,
    pass: &mut Pass<NoCargo>,
    announced: Announced,
    tokens: u32,
) -> Announced
    requires pass { IsPassOf hall.now pass.old × (0 < (shape_of hall.now).locks) }
    requires announced { (announced.lock ≡ 0) × (announced.swept ≡ false) × (announced.from_upgrade ≡ false) × (standing (view pass.old) 0 ≡ Announcing 0 0 false) }
    ensures pass { IsPassOf hall.now pass.new }
    ensures announced { (result.lock ≡ 0) × (result.swept ≡ true) × (result.from_upgrade ≡ false) × (standing (view pass.new) 0 ≡ Announcing (shape_of hall.now).slots 0 false) }
{
    let mut announced = announced;
    assert_eq!(rt; scan(hall, pass, &mut announced), tokens);
    announced
}

// A try to finish that has to be refused with this word.
fn not_finished<A: Abort>(
    rt: &A,
    hall: &Hall<NoCargo>,
    pass: &mut Pass<NoCargo>,
    announced: Announced,
    word: u64,
) -> Announced
    requires pass { IsPassOf hall.now pass.old × (0 < (shape_of hall.now).locks) }
    requires announced { (announced.lock ≡ 0) × (announced.swept ≡ true) × (announced.from_upgrade ≡ false) × (standing (view pass.old) 0 ≡ Announcing (shape_of hall.now).slots 0 false) }
    ensures pass { IsPassOf hall.now pass.new }
    ensures announced { (result.lock ≡ 0) × (result.swept ≡ true) × (result.from_upgrade ≡ false) × (standing (view pass.new) 0 ≡ Announcing (shape_of hall.now).slots 0 false) }
{
    match try_finish(hall, pass, announced) {
        Ok(ExclusiveGuard { lock: _ }) => rt.abort(),
        Err((announced, found)) => {
            assert_eq!(rt; found, Word(word));
            announced
        }
    }
}

fn finished<A: Abort>(
    rt: &A,
    hall: &Hall<NoCargo>,
    pass: &mut Pass<NoCargo>,
    announced: Announced,
) -> ExclusiveGuard
    requires pass { IsPassOf hall.now pass.old × (0 < (shape_of hall.now).locks) }
    requires announced { (announced.lock ≡ 0) × (announced.swept ≡ true) × (announced.from_upgrade ≡ false) × (standing (view pass.old) 0 ≡ Announcing (shape_of hall.now).slots 0 false) }
    ensures pass { IsPassOf hall.now pass.new }
    ensures held { (result.lock ≡ 0) × ExclusiveFits (shape_of hall.now) (view pass.new) result }
{
    match try_finish(hall, pass, announced) {
        Ok(guard) => guard,
        Err((announced, _)) => {
            retract(hall, pass, announced);
            rt.abort()
        }
    }
}

// A slot has this word, which isn't 0. Who isn't inside learns it from an exchange that fails.
fn slot_has<A: Abort>(rt: &A, hall: &Hall<NoCargo>, pass: &mut Pass<NoCargo>, slot: u64, word: u64)
    requires pass { IsPassOf hall.now pass.old × (0 < (shape_of hall.now).locks) }
    requires slot { slot < (shape_of hall.now).slots }
    requires away { standing (view pass.old) 0 ≡ Away }
    requires clear { HasNonePending (view pass.old) }
    ensures pass { IsPassOf hall.now pass.new }
    ensures away { standing (view pass.new) 0 ≡ Away }
{
    match hall.place_slot(pass, 0, slot) {
        Ok(()) => rt.abort(),
        Err(found) => assert_eq!(rt; found, word),
    }
}

// A writer comes beside three readers that the count has and one in a slot. It sweeps the slot's unit into the count,
// finds the readers, and gives up; the reader finds its slot cleared, and leaves by the count.
#[test]
fn is_swept(rt: HostRuntime) {
    let made = Hall::make(rt.alloc(), 1, 32, Policy::WritePriority, 5, 0, NoCargo);
    let Ok((hall, first)) = made else { rt.abort() };
    let mut zero = first;
    let mut four = hall.split(&mut zero, 1, 0);
    let mut three = hall.split(&mut zero, 1, 0);
    let mut two = hall.split(&mut zero, 1, 0);
    let mut one = hall.split(&mut zero, 1, 0);
    assert_eq!(rt; (four.number(), three.number()), (4, 3));
    let guards = (
        shared(&rt, &hall, &mut zero),
        shared(&rt, &hall, &mut one),
        shared(&rt, &hall, &mut two),
    );
    let deferred = enters_by(&rt, &hall, &mut three, Form::Deferred { slot: 6 });
    word_is(&rt, &hall, &mut three, 3 * ONE + 1);
    slot_has(&rt, &hall, &mut four, 6, 1);
    let announced = announced(&rt, &hall, &mut four);
    word_is(&rt, &hall, &mut four, 3 * ONE + 4);
    let announced = swept(&rt, &hall, &mut four, announced, 1);
    word_is(&rt, &hall, &mut four, 4 * ONE + 4);
    let announced = not_finished(&rt, &hall, &mut four, announced, 4 * ONE + 4);
    retract(&hall, &mut four, announced);
    word_is(&rt, &hall, &mut four, 4 * ONE + 1);
    unlock_shared(&hall, &mut three, deferred);
    word_is(&rt, &hall, &mut three, 3 * ONE + 1);
    let (left, middle, right) = guards;
    unlock_shared(&hall, &mut zero, left);
    unlock_shared(&hall, &mut one, middle);
    unlock_shared(&hall, &mut two, right);
    word_is(&rt, &hall, &mut two, 1);
}

// A reader has placed its token when a writer comes and sweeps. It isn't inside, and gives a unit back for its token;
// then the writer takes the lock.
#[test]
fn is_swept_undecided(rt: HostRuntime) {
    let made = Hall::make(rt.alloc(), 1, 32, Policy::WritePriority, 4, 0, NoCargo);
    let Ok((hall, first)) = made else { rt.abort() };
    let mut zero = first;
    let mut three = hall.split(&mut zero, 1, 0);
    let mut two = hall.split(&mut zero, 1, 0);
    let mut one = hall.split(&mut zero, 1, 0);
    let guards = (
        shared(&rt, &hall, &mut zero),
        shared(&rt, &hall, &mut one),
        shared(&rt, &hall, &mut two),
    );
    let (left, middle, right) = guards;
    unlock_shared(&hall, &mut zero, left);
    unlock_shared(&hall, &mut one, middle);
    unlock_shared(&hall, &mut two, right);
    word_is(&rt, &hall, &mut three, 1);
    places(&rt, &hall, &mut three, 6);
    let announced = announced(&rt, &hall, &mut zero);
    word_is(&rt, &hall, &mut zero, 4);
    let announced = swept(&rt, &hall, &mut zero, announced, 1);
    word_is(&rt, &hall, &mut zero, ONE + 4);
    is_not_inside(&rt, &hall, &mut three, 6, ONE + 4);
    assert!(rt; withdraw(&hall, &mut three, 0, 6) == Withdrawn::GaveBack);
    word_is(&rt, &hall, &mut three, 4);
    let guard = finished(&rt, &hall, &mut zero, announced);
    word_is(&rt, &hall, &mut zero, 8);
    unlock(&hall, &mut zero, guard);
    word_is(&rt, &hall, &mut zero, 0);
}

// The sweep looks at the slot at its place, which names the lock, and takes the token there into the writer's hand.
fn picks<A: Abort>(rt: &A, hall: &Hall<NoCargo>, pass: &mut Pass<NoCargo>, slot: u64)
    requires pass { IsPassOf hall.now pass.old × (0 < (shape_of hall.now).locks) }
    requires slot { slot < (shape_of hall.now).slots }
    requires announced { standing (view pass.old) 0 ≡ Announcing slot 0 false }
    ensures pass { IsPassOf hall.now pass.new }
    ensures announced { standing (view pass.new) 0 ≡ Announcing (slot + 1) 1 false }
{
    let found = hall.look(pass, 0, slot);
    if found != 1 {
        rt.abort()
    }
    if !hall.pick(pass, 0, slot) {
        rt.abort()
    }
}

// The sweep goes on past a slot that is empty.
fn passes<A: Abort>(rt: &A, hall: &Hall<NoCargo>, pass: &mut Pass<NoCargo>, slot: u64)
    requires pass { IsPassOf hall.now pass.old × (0 < (shape_of hall.now).locks) }
    requires slot { slot < (shape_of hall.now).slots }
    requires announced { standing (view pass.old) 0 ≡ Announcing slot 1 false }
    ensures pass { IsPassOf hall.now pass.new }
    ensures announced { standing (view pass.new) 0 ≡ Announcing (slot + 1) 1 false }
{
    let found = hall.look(pass, 0, slot);
    if found == 1 {
        rt.abort()
    }
    assert!(rt; found == 0);
}

// The sweep is over: its unit goes to the count, which is -1.
fn adds_its_unit<A: Abort>(rt: &A, hall: &Hall<NoCargo>, pass: &mut Pass<NoCargo>)
    requires pass { IsPassOf hall.now pass.old × (0 < (shape_of hall.now).locks) }
    requires announced { standing (view pass.old) 0 ≡ Announcing (shape_of hall.now).slots 1 false }
    ensures pass { IsPassOf hall.now pass.new }
    ensures announced { standing (view pass.new) 0 ≡ Announcing (shape_of hall.now).slots 0 false }
{
    let found = hall.add_hand(pass, 0, 1);
    assert_eq!(rt; found.count(), -1);
}

// A writer pauses with a unit in its hand, which no slot and no count has. The reader finds its slot cleared, and gives
// a unit back to a count of 0, which is -1 then. The writer goes on: its unit makes the count 0 again, and it takes the
// lock.
#[test]
fn a_writer_pauses_with_a_unit_in_its_hand(rt: HostRuntime) {
    let made = Hall::make(rt.alloc(), 1, 2, Policy::WritePriority, 2, 0, NoCargo);
    let Ok((hall, first)) = made else { rt.abort() };
    let mut zero = first;
    let mut one = hall.split(&mut zero, 1, 0);
    let Ok(before) = announce(&hall, &mut zero, 0) else {
        rt.abort()
    };
    retract(&hall, &mut zero, before);
    let deferred = enters_by(&rt, &hall, &mut one, Form::Deferred { slot: 0 });
    word_is(&rt, &hall, &mut one, 1);
    let mut announced = announced(&rt, &hall, &mut zero);
    picks(&rt, &hall, &mut zero, 0);
    word_is(&rt, &hall, &mut zero, 4);
    unlock_shared(&hall, &mut one, deferred);
    assert_eq!(rt; hall.load(&mut one, 0).count(), -1);
    passes(&rt, &hall, &mut zero, 1);
    adds_its_unit(&rt, &hall, &mut zero);
    announced.swept = true;
    word_is(&rt, &hall, &mut zero, 4);
    let guard = finished(&rt, &hall, &mut zero, announced);
    word_is(&rt, &hall, &mut zero, 8);
    unlock(&hall, &mut zero, guard);
}
