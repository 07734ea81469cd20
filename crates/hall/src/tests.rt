//! What no clause says: that the words are those that are meant, and that calls succeed.
ghost use Rattle.std.specs.Prelude.{◌≡◌, ◌+◌, ◌<◌, ◌≤◌, false};
ghost use Rattle.hall.specs.declared.view.Standing.TheVariants.{Away, Inline, Slotted, Undecided, Announcing};
ghost use Rattle.hall.specs.Passes.{view, IsPassOf, shape_of};
ghost use Rattle.hall.specs.Plays.{conflicts_for_shared, HasRoom};
ghost use Rattle.hall.specs.Slotting.{HasNonePending};
ghost use Rattle.hall.specs.Views.{standing};

use crate::hall::{Hall, Pass};
use crate::no_cargo::NoCargo;
use lock_model::Policy;
use state_word::Word;
use std::process::Abort;

const ONE: u64 = 4294967296;

// The third reader lets readers defer; an announced writer ends it and finds the readers; a retraction starts it again.
#[test]
fn three_readers_and_a_writer(rt: HostRuntime) {
    let made = Hall::make(rt.alloc(), 1, 32, Policy::WritePriority, 4, 0, NoCargo);
    assert!(rt; made.is_ok());
    let Ok((hall, first)) = made else {
        unreachable!()
    };
    let mut first = first;
    let mut second = hall.split(&mut first, 1, 0);
    let mut third = hall.split(&mut first, 1, 0);
    let mut fourth = hall.split(&mut first, 1, 0);
    assert!(rt; second.number() == 3 && third.number() == 2 && fourth.number() == 1);
    assert!(rt; first.number() == 0 && first.spare() == 0 && first.quota() == 0);
    assert!(rt; hall.enter(&mut first, 0, Word(0)).is_ok());
    assert!(rt; hall.enter(&mut second, 0, Word(0)) == Err(Word(ONE)));
    assert!(rt; hall.enter(&mut second, 0, Word(ONE)).is_ok());
    assert!(rt; hall.enter(&mut third, 0, Word(2 * ONE)).is_ok());
    assert!(rt; hall.load(&mut fourth, 0) == Word(3 * ONE + 1));
    assert!(rt; hall.announce(&mut fourth, 0, Word(3 * ONE + 1)).is_ok());
    assert!(rt; hall.load(&mut fourth, 0) == Word(3 * ONE + 4));
}

// A writer looks at the slot at its place, which is empty, and so goes on to the next.
fn looks_past<A: Abort>(
    rt: &A,
    hall: &Hall<NoCargo>,
    pass: &mut Pass<NoCargo>,
    lock: u64,
    slot: u64,
    hand: u64,
)
    requires pass { IsPassOf hall.now pass.old }
    requires lock { lock < (shape_of hall.now).locks }
    requires slot { slot < (shape_of hall.now).slots }
    requires announced { standing (view pass.old) lock ≡ Announcing slot hand false }
    ensures pass { IsPassOf hall.now pass.new }
    ensures announced { standing (view pass.new) lock ≡ Announcing (slot + 1) hand false }
{
    let _units = hand;
    let found = hall.look(pass, lock, slot);
    if found == lock + 1 {
        rt.abort()
    }
    assert!(rt; found == 0);
}

// A pass alone takes the lock, leaves it, and closes the hall.
#[test]
fn one_writer(rt: HostRuntime) {
    let made = Hall::make(rt.alloc(), 2, 1, Policy::ReadPriority, 1, 0, NoCargo);
    assert!(rt; made.is_ok());
    let Ok((hall, first)) = made else {
        unreachable!()
    };
    let mut first = first;
    if hall.announce(&mut first, 1, Word(0)).is_ok() {
        looks_past(&rt, &hall, &mut first, 1, 0, 0);
        assert!(rt; hall.add_hand(&mut first, 1, 0) == Word(4));
        if hall.hold(&mut first, 1).is_ok() {
            assert!(rt; hall.load(&mut first, 1) == Word(8));
            assert!(rt; hall.load(&mut first, 0) == Word(0));
            assert!(rt; hall.release(&mut first, 1) == Word(8));
        } else {
            assert!(rt; false);
        }
    } else {
        assert!(rt; false);
    }
    assert!(rt; hall.load(&mut first, 1) == Word(0));
}

fn enters<A: Abort>(rt: &A, hall: &Hall<NoCargo>, pass: &mut Pass<NoCargo>, seen: u64)
    requires pass { IsPassOf hall.now pass.old × (0 < (shape_of hall.now).locks) }
    requires away { standing (view pass.old) 0 ≡ Away }
    requires seen { conflicts_for_shared (shape_of hall.now).policy seen ≡ false }
    requires room { HasRoom seen }
    ensures pass { IsPassOf hall.now pass.new }
    ensures inline { standing (view pass.new) 0 ≡ Inline }
{
    if hall.enter(pass, 0, Word(seen)).is_err() {
        rt.abort()
    }
}

fn places<A: Abort>(rt: &A, hall: &Hall<NoCargo>, pass: &mut Pass<NoCargo>, slot: u64)
    requires pass { IsPassOf hall.now pass.old × (0 < (shape_of hall.now).locks) }
    requires slot { slot < (shape_of hall.now).slots }
    requires away { standing (view pass.old) 0 ≡ Away }
    requires clear { HasNonePending (view pass.old) }
    ensures pass { IsPassOf hall.now pass.new }
    ensures undecided { standing (view pass.new) 0 ≡ Undecided slot }
{
    if hall.place_slot(pass, 0, slot).is_err() {
        rt.abort()
    }
}

// Readers may defer, so that who placed a token is inside.
fn is_inside<A: Abort>(rt: &A, hall: &Hall<NoCargo>, pass: &mut Pass<NoCargo>, slot: u64, word: u64)
    requires pass { IsPassOf hall.now pass.old × (0 < (shape_of hall.now).locks) }
    requires undecided { standing (view pass.old) 0 ≡ Undecided slot }
    ensures pass { IsPassOf hall.now pass.new }
    ensures slotted { standing (view pass.new) 0 ≡ Slotted slot }
{
    let _token = slot;
    let found = hall.check(pass, 0);
    if !found.may_defer() {
        rt.abort()
    }
    assert!(rt; found == Word(word));
}

fn withdraws<A: Abort>(rt: &A, hall: &Hall<NoCargo>, pass: &mut Pass<NoCargo>, slot: u64)
    requires pass { IsPassOf hall.now pass.old × (0 < (shape_of hall.now).locks) }
    requires slot { slot < (shape_of hall.now).slots }
    requires undecided { standing (view pass.old) 0 ≡ Undecided slot }
    ensures pass { IsPassOf hall.now pass.new }
    ensures away { standing (view pass.new) 0 ≡ Away }
{
    if !hall.withdraw_slot(pass, 0, slot) {
        rt.abort()
    }
}

// A reader with a token finds it gone.
fn is_counted<A: Abort>(rt: &A, hall: &Hall<NoCargo>, pass: &mut Pass<NoCargo>, slot: u64)
    requires pass { IsPassOf hall.now pass.old × (0 < (shape_of hall.now).locks) }
    requires slot { slot < (shape_of hall.now).slots }
    requires slotted { standing (view pass.old) 0 ≡ Slotted slot }
    ensures pass { IsPassOf hall.now pass.new }
    ensures inline { standing (view pass.new) 0 ≡ Inline }
{
    if hall.leave_slot(pass, 0, slot) {
        rt.abort()
    }
}

// A writer takes the token at its place into its hand, and goes on.
fn picks<A: Abort>(rt: &A, hall: &Hall<NoCargo>, pass: &mut Pass<NoCargo>, slot: u64, hand: u64)
    requires pass { IsPassOf hall.now pass.old × (0 < (shape_of hall.now).locks) }
    requires slot { slot < (shape_of hall.now).slots }
    requires announced { standing (view pass.old) 0 ≡ Announcing slot hand false }
    ensures pass { IsPassOf hall.now pass.new }
    ensures announced { standing (view pass.new) 0 ≡ Announcing (slot + 1) (hand + 1) false }
{
    let _units = hand;
    let found = hall.look(pass, 0, slot);
    if found != 1 {
        rt.abort()
    }
    if !hall.pick(pass, 0, slot) {
        rt.abort()
    }
}

fn looks_past_all<A: Abort>(
    rt: &A,
    hall: &Hall<NoCargo>,
    pass: &mut Pass<NoCargo>,
    from: u64,
    to: u64,
    hand: u64,
)
    requires pass { IsPassOf hall.now pass.old × (0 < (shape_of hall.now).locks) }
    requires slots { (from ≤ to) × (to ≤ (shape_of hall.now).slots) }
    requires announced { standing (view pass.old) 0 ≡ Announcing from hand false }
    ensures pass { IsPassOf hall.now pass.new }
    ensures announced { standing (view pass.new) 0 ≡ Announcing to hand false }
{
    for slot in from..to {
        looks_past(rt, hall, pass, 0, slot, hand);
    }
}

fn adds<A: Abort>(
    rt: &A,
    hall: &Hall<NoCargo>,
    pass: &mut Pass<NoCargo>,
    slot: u64,
    hand: u64,
    word: u64,
)
    requires pass { IsPassOf hall.now pass.old × (0 < (shape_of hall.now).locks) }
    requires announced { standing (view pass.old) 0 ≡ Announcing slot hand false }
    ensures pass { IsPassOf hall.now pass.new }
    ensures announced { standing (view pass.new) 0 ≡ Announcing slot 0 false }
{
    let _place = slot;
    let found = hall.add_hand(pass, 0, hand);
    assert!(rt; found == Word(word));
}

fn word_is<A: Abort>(rt: &A, hall: &Hall<NoCargo>, pass: &mut Pass<NoCargo>, word: u64)
    requires pass { IsPassOf hall.now pass.old × (0 < (shape_of hall.now).locks) }
    ensures pass { IsPassOf hall.now pass.new }
    ensures same { standing (view pass.new) 0 ≡ standing (view pass.old) 0 }
{
    assert!(rt; hall.load(pass, 0) == Word(word));
}

fn announces<A: Abort>(rt: &A, hall: &Hall<NoCargo>, pass: &mut Pass<NoCargo>)
    requires pass { IsPassOf hall.now pass.old × (0 < (shape_of hall.now).locks) }
    requires away { standing (view pass.old) 0 ≡ Away }
    ensures pass { IsPassOf hall.now pass.new }
    ensures announced { standing (view pass.new) 0 ≡ Announcing 0 0 false }
{
    if hall.announce(pass, 0, Word(1)).is_err() {
        rt.abort()
    }
}

// A retraction lets readers defer: the word is 1.
fn let_defer<A: Abort>(rt: &A, hall: &Hall<NoCargo>, pass: &mut Pass<NoCargo>)
    requires pass { IsPassOf hall.now pass.old × (0 < (shape_of hall.now).locks) }
    requires away { standing (view pass.old) 0 ≡ Away }
    ensures pass { IsPassOf hall.now pass.new }
    ensures away { standing (view pass.new) 0 ≡ Away }
{
    if hall.announce(pass, 0, Word(0)).is_err() {
        rt.abort()
    }
    assert!(rt; hall.retract(pass, 0) == Word(4));
}

fn is_kept_out<A: Abort>(rt: &A, hall: &Hall<NoCargo>, pass: &mut Pass<NoCargo>, word: u64)
    requires pass { IsPassOf hall.now pass.old × (0 < (shape_of hall.now).locks) }
    requires announced { standing (view pass.old) 0 ≡ Announcing (shape_of hall.now).slots 0 false }
    ensures pass { IsPassOf hall.now pass.new }
    ensures announced { standing (view pass.new) 0 ≡ Announcing (shape_of hall.now).slots 0 false }
{
    match hall.hold(pass, 0) {
        Ok(()) => rt.abort(),
        Err(found) => assert!(rt; found == Word(word)),
    }
}

// A token is swept: the writer finds a reader, and gives up; the reader finds its token gone, and leaves by the count.
#[test]
fn a_reader_in_a_slot(rt: HostRuntime) {
    let made = Hall::make(rt.alloc(), 1, 32, Policy::WritePriority, 4, 0, NoCargo);
    let Ok((hall, first)) = made else { rt.abort() };
    let mut zero = first;
    let mut one = hall.split(&mut zero, 1, 0);
    let mut two = hall.split(&mut zero, 1, 0);
    let mut three = hall.split(&mut zero, 1, 0);
    enters(&rt, &hall, &mut zero, 0);
    enters(&rt, &hall, &mut one, ONE);
    enters(&rt, &hall, &mut two, 2 * ONE);
    hall.lower(&mut zero, 0);
    hall.lower(&mut one, 0);
    hall.lower(&mut two, 0);
    word_is(&rt, &hall, &mut zero, 1);
    places(&rt, &hall, &mut three, 6);
    is_inside(&rt, &hall, &mut three, 6, 1);
    announces(&rt, &hall, &mut zero);
    word_is(&rt, &hall, &mut zero, 4);
    looks_past_all(&rt, &hall, &mut zero, 0, 6, 0);
    picks(&rt, &hall, &mut zero, 6, 0);
    looks_past_all(&rt, &hall, &mut zero, 7, 32, 1);
    adds(&rt, &hall, &mut zero, 32, 1, 4);
    word_is(&rt, &hall, &mut zero, ONE + 4);
    is_kept_out(&rt, &hall, &mut zero, ONE + 4);
    hall.retract(&mut zero, 0);
    word_is(&rt, &hall, &mut zero, ONE + 1);
    is_counted(&rt, &hall, &mut three, 6);
    hall.lower(&mut three, 0);
    word_is(&rt, &hall, &mut three, 1);
}

// A unit has no owner: who withdraws late clears the token that a newcomer placed in its slot, and the newcomer leaves
// by the count.
#[test]
fn a_token_of_a_newcomer(rt: HostRuntime) {
    let made = Hall::make(rt.alloc(), 1, 2, Policy::WritePriority, 3, 0, NoCargo);
    let Ok((hall, first)) = made else { rt.abort() };
    let mut zero = first;
    let mut one = hall.split(&mut zero, 1, 0);
    let mut two = hall.split(&mut zero, 1, 0);
    let_defer(&rt, &hall, &mut zero);
    places(&rt, &hall, &mut one, 0);
    announces(&rt, &hall, &mut zero);
    picks(&rt, &hall, &mut zero, 0, 0);
    looks_past_all(&rt, &hall, &mut zero, 1, 2, 1);
    adds(&rt, &hall, &mut zero, 2, 1, 4);
    word_is(&rt, &hall, &mut zero, ONE + 4);
    hall.retract(&mut zero, 0);
    word_is(&rt, &hall, &mut zero, ONE + 1);
    places(&rt, &hall, &mut two, 0);
    is_inside(&rt, &hall, &mut two, 0, ONE + 1);
    withdraws(&rt, &hall, &mut one, 0);
    is_counted(&rt, &hall, &mut two, 0);
    hall.lower(&mut two, 0);
    word_is(&rt, &hall, &mut two, 1);
}
