//! What no clause says: that the words are those that are meant, and that steps succeed where nobody is in the way.
ghost use Rattle.std.specs.Prelude.{◌≡◌, ◌≢◌, ◌+◌, ◌<◌, false, true};
ghost use Rattle.hall.specs.Passes.{view, IsPassOf, shape_of};
ghost use Rattle.hall.specs.Plays.{conflicts_for_shared, conflicts_for_announcing, HasRoom};
ghost use Rattle.hall.specs.Slotting.{HasNonePending};
ghost use Rattle.hall.specs.Views.{standing};
ghost use Rattle.hall.specs.declared.view.Standing.TheVariants.{Away, Inline, Undecided, Owing, Exclusive, Announcing};

use crate::scan;
use hall::{Announced, Hall, NoCargo, Pass, Policy, Word};
use std::process::Abort;

const ONE: u64 = 4294967296;

fn word_is<A: Abort>(rt: &A, hall: &Hall<NoCargo>, pass: &mut Pass<NoCargo>, word: u64)
    requires pass { IsPassOf hall.now pass.old × (0 < (shape_of hall.now).locks) }
    ensures pass { IsPassOf hall.now pass.new }
    ensures same { standing (view pass.new) 0 ≡ standing (view pass.old) 0 }
{
    assert_eq!(rt; hall.load(pass, 0), Word(word));
}

fn enters<A: Abort>(rt: &A, hall: &Hall<NoCargo>, pass: &mut Pass<NoCargo>, seen: u64)
    requires pass { IsPassOf hall.now pass.old × (0 < (shape_of hall.now).locks) }
    requires away { standing (view pass.old) 0 ≡ Away }
    requires seen { conflicts_for_shared (shape_of hall.now).policy seen ≡ false }
    requires room { HasRoom seen }
    ensures pass { IsPassOf hall.now pass.new }
    ensures inline { standing (view pass.new) 0 ≡ Inline }
{
    if hall.enter(pass, 0, Word(seen)).is_err() {
        rt.abort()
    }
}

// A reader places a token, and doesn't look at the word again.
fn places<A: Abort>(rt: &A, hall: &Hall<NoCargo>, pass: &mut Pass<NoCargo>, slot: u64)
    requires pass { IsPassOf hall.now pass.old × (0 < (shape_of hall.now).locks) }
    requires slot { slot < (shape_of hall.now).slots }
    requires away { standing (view pass.old) 0 ≡ Away }
    requires clear { HasNonePending (view pass.old) }
    ensures pass { IsPassOf hall.now pass.new }
    ensures undecided { standing (view pass.new) 0 ≡ Undecided slot }
{
    if hall.place_slot(pass, 0, slot).is_err() {
        rt.abort()
    }
}

// A reader that is undecided finds its token gone.
fn finds_it_gone<A: Abort>(rt: &A, hall: &Hall<NoCargo>, pass: &mut Pass<NoCargo>, slot: u64)
    requires pass { IsPassOf hall.now pass.old × (0 < (shape_of hall.now).locks) }
    requires slot { slot < (shape_of hall.now).slots }
    requires undecided { standing (view pass.old) 0 ≡ Undecided slot }
    ensures pass { IsPassOf hall.now pass.new }
    ensures owing { standing (view pass.new) 0 ≡ Owing }
{
    if hall.withdraw_slot(pass, 0, slot) {
        rt.abort()
    }
}

fn holds<A: Abort>(rt: &A, hall: &Hall<NoCargo>, pass: &mut Pass<NoCargo>, announced: Announced)
    requires pass { IsPassOf hall.now pass.old × (0 < (shape_of hall.now).locks) }
    requires swept { standing (view pass.old) 0 ≡ Announcing (shape_of hall.now).slots 0 false }
    ensures pass { IsPassOf hall.now pass.new }
    ensures held { standing (view pass.new) 0 ≡ Exclusive }
{
    let Announced {
        lock: _,
        swept: _,
        from_upgrade: _,
    } = announced;
    if hall.hold(pass, 0).is_err() {
        rt.abort()
    }
}

fn announces<A: Abort>(
    rt: &A,
    hall: &Hall<NoCargo>,
    pass: &mut Pass<NoCargo>,
    seen: u64,
) -> Announced
    requires pass { IsPassOf hall.now pass.old × (0 < (shape_of hall.now).locks) }
    requires away { standing (view pass.old) 0 ≡ Away }
    requires seen { conflicts_for_announcing seen ≡ false }
    ensures pass { IsPassOf hall.now pass.new }
    ensures announced { (result ≡ record { lock = 0; swept = false; from_upgrade = false }) × (standing (view pass.new) 0 ≡ Announcing 0 0 false) }
{
    if hall.announce(pass, 0, Word(seen)).is_err() {
        rt.abort()
    }
    Announced {
        lock: 0,
        swept: false,
        from_upgrade: false,
    }
}

// A writer sweeps the token of a reader that is undecided. The reader finds it gone, and pays the unit that it owes;
// then the writer takes the lock.
#[test]
fn a_token_is_swept(rt: HostRuntime) {
    let made = Hall::make(rt.alloc(), 1, 8, Policy::WritePriority, 4, 0, NoCargo);
    let Ok((hall, first)) = made else { rt.abort() };
    let mut zero = first;
    let mut one = hall.split(&mut zero, 1, 0);
    let mut two = hall.split(&mut zero, 1, 0);
    let mut three = hall.split(&mut zero, 1, 0);
    enters(&rt, &hall, &mut zero, 0);
    enters(&rt, &hall, &mut one, ONE);
    enters(&rt, &hall, &mut two, 2 * ONE);
    hall.lower(&mut zero, 0);
    hall.lower(&mut one, 0);
    hall.lower(&mut two, 0);
    word_is(&rt, &hall, &mut zero, 1);
    places(&rt, &hall, &mut three, 6);
    let mut announced = announces(&rt, &hall, &mut zero, 1);
    word_is(&rt, &hall, &mut zero, 4);
    assert_eq!(rt; scan(&hall, &mut zero, &mut announced), 1);
    assert!(rt; announced.swept);
    word_is(&rt, &hall, &mut zero, ONE + 4);
    finds_it_gone(&rt, &hall, &mut three, 6);
    assert_eq!(rt; hall.lower(&mut three, 0), Word(ONE + 4));
    holds(&rt, &hall, &mut zero, announced);
    word_is(&rt, &hall, &mut zero, 8);
    assert_eq!(rt; hall.release(&mut zero, 0), Word(8));
    word_is(&rt, &hall, &mut zero, 0);
}
