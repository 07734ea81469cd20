//! What no clause says: that the words are those that are meant, step by step, and which way each call went.
ghost use Rattle.std.specs.Prelude.{◌≡◌, ◌<◌, false, true};
ghost use Rattle.hall.specs.Passes.{view, IsPassOf, shape_of};
ghost use Rattle.hall.specs.Plays.{conflicts_for_shared, conflicts_for_announcing, HasRoom};
ghost use Rattle.hall.specs.Slotting.{HasNonePending};
ghost use Rattle.hall.specs.Views.{standing};
ghost use Rattle.hall.specs.declared.view.Standing.TheVariants.{Away, Inline, Slotted, Undecided, Exclusive, Announcing};

use crate::{Checked, Placed, Withdrawn, check, leave_deferred, place, withdraw};
use apply_deferred::scan;
use hall::{Announced, Hall, NoCargo, Pass, Policy, Word};
use std::process::Abort;

const ONE: u64 = 4294967296;

fn word_is<A: Abort>(rt: &A, hall: &Hall<NoCargo>, pass: &mut Pass<NoCargo>, word: u64)
    requires pass { IsPassOf hall.now pass.old × (0 < (shape_of hall.now).locks) }
    ensures pass { IsPassOf hall.now pass.new }
    ensures same { standing (view pass.new) 0 ≡ standing (view pass.old) 0 }
{
    assert_eq!(rt; hall.load(pass, 0), Word(word));
}

fn enters<A: Abort>(rt: &A, hall: &Hall<NoCargo>, pass: &mut Pass<NoCargo>, seen: u64)
    requires pass { IsPassOf hall.now pass.old × (0 < (shape_of hall.now).locks) }
    requires away { standing (view pass.old) 0 ≡ Away }
    requires seen { conflicts_for_shared (shape_of hall.now).policy seen ≡ false }
    requires room { HasRoom seen }
    ensures pass { IsPassOf hall.now pass.new }
    ensures inline { standing (view pass.new) 0 ≡ Inline }
{
    if hall.enter(pass, 0, Word(seen)).is_err() {
        rt.abort()
    }
}

// A retraction lets readers defer: the word is 1.
pub(crate) fn let_defer<A: Abort>(rt: &A, hall: &Hall<NoCargo>, pass: &mut Pass<NoCargo>)
    requires pass { IsPassOf hall.now pass.old × (0 < (shape_of hall.now).locks) }
    requires away { standing (view pass.old) 0 ≡ Away }
    ensures pass { IsPassOf hall.now pass.new }
    ensures away { standing (view pass.new) 0 ≡ Away }
{
    if hall.announce(pass, 0, Word(0)).is_err() {
        rt.abort()
    }
    assert_eq!(rt; hall.retract(pass, 0), Word(4));
}

fn places<A: Abort>(rt: &A, hall: &Hall<NoCargo>, pass: &mut Pass<NoCargo>, slot: u64)
    requires pass { IsPassOf hall.now pass.old × (0 < (shape_of hall.now).locks) }
    requires away { standing (view pass.old) 0 ≡ Away }
    requires clear { HasNonePending (view pass.old) }
    ensures pass { IsPassOf hall.now pass.new }
    ensures undecided { (standing (view pass.new) 0 ≡ Undecided slot) × (slot < (shape_of hall.now).slots) }
{
    match place(hall, pass, 0) {
        Placed::At { slot: found } => {
            if found != slot {
                rt.abort()
            }
        }
        Placed::Taken { seen: _ } => rt.abort(),
    }
}

fn finds_both_taken<A: Abort>(
    rt: &A,
    hall: &Hall<NoCargo>,
    pass: &mut Pass<NoCargo>,
    seen: [u64; 2],
)
    requires pass { IsPassOf hall.now pass.old × (0 < (shape_of hall.now).locks) }
    requires away { standing (view pass.old) 0 ≡ Away }
    requires clear { HasNonePending (view pass.old) }
    ensures pass { IsPassOf hall.now pass.new }
{
    assert!(rt; place(hall, pass, 0) == Placed::Taken { seen });
}

// Readers may defer, so that who placed a token is inside.
fn is_inside<A: Abort>(rt: &A, hall: &Hall<NoCargo>, pass: &mut Pass<NoCargo>, slot: u64)
    requires pass { IsPassOf hall.now pass.old × (0 < (shape_of hall.now).locks) }
    requires undecided { standing (view pass.old) 0 ≡ Undecided slot }
    ensures pass { IsPassOf hall.now pass.new }
    ensures slotted { standing (view pass.new) 0 ≡ Slotted slot }
{
    let _token = slot;
    match check(hall, pass, 0) {
        Checked::Inside => {}
        Checked::NotInside { word: _ } => rt.abort(),
    }
}

// A writer was announced in between, so that it isn't.
fn is_not_inside<A: Abort>(
    rt: &A,
    hall: &Hall<NoCargo>,
    pass: &mut Pass<NoCargo>,
    slot: u64,
    word: u64,
)
    requires pass { IsPassOf hall.now pass.old × (0 < (shape_of hall.now).locks) }
    requires undecided { standing (view pass.old) 0 ≡ Undecided slot }
    ensures pass { IsPassOf hall.now pass.new }
    ensures undecided { standing (view pass.new) 0 ≡ Undecided slot }
{
    let _token = slot;
    match check(hall, pass, 0) {
        Checked::Inside => rt.abort(),
        Checked::NotInside { word: found } => assert_eq!(rt; found, Word(word)),
    }
}

fn announces<A: Abort>(
    rt: &A,
    hall: &Hall<NoCargo>,
    pass: &mut Pass<NoCargo>,
    seen: u64,
) -> Announced
    requires pass { IsPassOf hall.now pass.old × (0 < (shape_of hall.now).locks) }
    requires away { standing (view pass.old) 0 ≡ Away }
    requires seen { conflicts_for_announcing seen ≡ false }
    ensures pass { IsPassOf hall.now pass.new }
    ensures announced { (result ≡ record { lock = 0; swept = false; from_upgrade = false }) × (standing (view pass.new) 0 ≡ Announcing 0 0 false) }
{
    if hall.announce(pass, 0, Word(seen)).is_err() {
        rt.abort()
    }
    Announced {
        lock: 0,
        swept: false,
        from_upgrade: false,
    }
}

// The writer sweeps one token.
fn sweeps<A: Abort>(rt: &A, hall: &Hall<NoCargo>, pass: &mut Pass<NoCargo>, announced: Announced)
    requires pass { IsPassOf hall.now pass.old × (0 < (shape_of hall.now).locks) }
    requires announced { (announced ≡ record { lock = 0; swept = false; from_upgrade = false }) × (standing (view pass.old) 0 ≡ Announcing 0 0 false) }
    ensures pass { IsPassOf hall.now pass.new }
    ensures announced { standing (view pass.new) 0 ≡ Announcing (shape_of hall.now).slots 0 false }
{
    let mut announced = announced;
    assert_eq!(rt; scan(hall, pass, &mut announced), 1);
    let Announced {
        lock: _,
        swept: _,
        from_upgrade: _,
    } = announced;
}

fn is_kept_out<A: Abort>(rt: &A, hall: &Hall<NoCargo>, pass: &mut Pass<NoCargo>, word: u64)
    requires pass { IsPassOf hall.now pass.old × (0 < (shape_of hall.now).locks) }
    requires announced { standing (view pass.old) 0 ≡ Announcing (shape_of hall.now).slots 0 false }
    ensures pass { IsPassOf hall.now pass.new }
    ensures announced { standing (view pass.new) 0 ≡ Announcing (shape_of hall.now).slots 0 false }
{
    match hall.hold(pass, 0) {
        Ok(()) => rt.abort(),
        Err(found) => assert_eq!(rt; found, Word(word)),
    }
}

fn holds<A: Abort>(rt: &A, hall: &Hall<NoCargo>, pass: &mut Pass<NoCargo>)
    requires pass { IsPassOf hall.now pass.old × (0 < (shape_of hall.now).locks) }
    requires announced { standing (view pass.old) 0 ≡ Announcing (shape_of hall.now).slots 0 false }
    ensures pass { IsPassOf hall.now pass.new }
    ensures held { standing (view pass.new) 0 ≡ Exclusive }
{
    if hall.hold(pass, 0).is_err() {
        rt.abort()
    }
}

// A reader keeps its slot while a writer comes, sweeps, finds readers and gives up. It finds its slot cleared, and
// gives its unit back.
#[test]
fn a_reader_gives_back(rt: HostRuntime) {
    let made = Hall::make(rt.alloc(), 1, 32, Policy::WritePriority, 5, 0, NoCargo);
    let Ok((hall, first)) = made else { rt.abort() };
    let mut zero = first;
    let mut four = hall.split(&mut zero, 1, 0);
    let mut three = hall.split(&mut zero, 1, 0);
    let mut two = hall.split(&mut zero, 1, 0);
    let mut one = hall.split(&mut zero, 1, 0);
    enters(&rt, &hall, &mut zero, 0);
    enters(&rt, &hall, &mut one, ONE);
    enters(&rt, &hall, &mut two, 2 * ONE);
    places(&rt, &hall, &mut three, 6);
    is_inside(&rt, &hall, &mut three, 6);
    word_is(&rt, &hall, &mut three, 3 * ONE + 1);
    let announced = announces(&rt, &hall, &mut four, 3 * ONE + 1);
    word_is(&rt, &hall, &mut four, 3 * ONE + 4);
    sweeps(&rt, &hall, &mut four, announced);
    word_is(&rt, &hall, &mut four, 4 * ONE + 4);
    is_kept_out(&rt, &hall, &mut four, 4 * ONE + 4);
    hall.retract(&mut four, 0);
    word_is(&rt, &hall, &mut four, 4 * ONE + 1);
    assert!(rt; leave_deferred(&hall, &mut three, 0, 6) == Withdrawn::GaveBack);
    word_is(&rt, &hall, &mut three, 3 * ONE + 1);
}

// A reader that is undecided while a writer comes and sweeps gives back what the sweep made of its token, and the
// writer takes the lock.
#[test]
fn a_newcomer_gives_back(rt: HostRuntime) {
    let made = Hall::make(rt.alloc(), 1, 32, Policy::WritePriority, 4, 0, NoCargo);
    let Ok((hall, first)) = made else { rt.abort() };
    let mut zero = first;
    let mut three = hall.split(&mut zero, 1, 0);
    let_defer(&rt, &hall, &mut zero);
    places(&rt, &hall, &mut three, 6);
    let announced = announces(&rt, &hall, &mut zero, 1);
    word_is(&rt, &hall, &mut zero, 4);
    sweeps(&rt, &hall, &mut zero, announced);
    word_is(&rt, &hall, &mut zero, ONE + 4);
    is_not_inside(&rt, &hall, &mut three, 6, ONE + 4);
    assert!(rt; withdraw(&hall, &mut three, 0, 6) == Withdrawn::GaveBack);
    word_is(&rt, &hall, &mut three, 4);
    holds(&rt, &hall, &mut zero);
    word_is(&rt, &hall, &mut zero, 8);
    assert_eq!(rt; hall.release(&mut zero, 0), Word(8));
    word_is(&rt, &hall, &mut zero, 0);
}

// Two readers fill both slots, so that a third finds both taken. The two leave by their slots, and the lock's word
// stays as it was all the while.
#[test]
fn two_slots(rt: HostRuntime) {
    let made = Hall::make(rt.alloc(), 1, 2, Policy::WritePriority, 4, 0, NoCargo);
    let Ok((hall, first)) = made else { rt.abort() };
    let mut zero = first;
    let mut three = hall.split(&mut zero, 1, 0);
    let mut two = hall.split(&mut zero, 1, 0);
    let mut one = hall.split(&mut zero, 1, 0);
    let_defer(&rt, &hall, &mut zero);
    places(&rt, &hall, &mut one, 0);
    is_inside(&rt, &hall, &mut one, 0);
    places(&rt, &hall, &mut two, 1);
    finds_both_taken(&rt, &hall, &mut three, [1, 1]);
    is_inside(&rt, &hall, &mut two, 1);
    assert!(rt; leave_deferred(&hall, &mut one, 0, 0) == Withdrawn::Cleared);
    assert!(rt; leave_deferred(&hall, &mut two, 0, 1) == Withdrawn::Cleared);
    word_is(&rt, &hall, &mut two, 1);
}
