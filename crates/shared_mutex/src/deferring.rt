//! Readers that defer: which form each hold has, and the words, step by step.
ghost use Rattle.std.specs.Prelude.{◌≡◌, ◌<◌};
ghost use Rattle.hall.specs.Fitting.{SharedFits};
ghost use Rattle.hall.specs.Passes.{view, IsPassOf, shape_of};
ghost use Rattle.hall.specs.Slotting.{HasNonePending};
ghost use Rattle.hall.specs.Views.{standing};
ghost use Rattle.hall.specs.declared.view.Standing.TheVariants.{Away};

use crate::tests::{ONE, word_is};
use crate::{announce, retract, try_lock_shared, unlock_shared};
use hall::{Form, Hall, NoCargo, Pass, Policy, SharedGuard, Why, Word};
use std::process::Abort;

// A shared hold, which has to have this form.
pub(crate) fn enters_by<A: Abort>(
    rt: &A,
    hall: &Hall<NoCargo>,
    pass: &mut Pass<NoCargo>,
    form: Form,
) -> SharedGuard
    requires pass { IsPassOf hall.now pass.old × (0 < (shape_of hall.now).locks) }
    requires away { standing (view pass.old) 0 ≡ Away }
    requires clear { HasNonePending (view pass.old) }
    ensures pass { IsPassOf hall.now pass.new }
    ensures fits { (result.lock ≡ 0) × SharedFits (shape_of hall.now) (view pass.new) result }
    ensures clear { HasNonePending (view pass.new) }
{
    match try_lock_shared(hall, pass, 0) {
        Ok(guard) => {
            assert_eq!(rt; guard.form, form);
            guard
        }
        Err(_) => rt.abort(),
    }
}

fn no_defer(word: u64) -> Form {
    Form::Inline {
        why: Why::NoDefer { word: Word(word) },
    }
}

// The first three readers are counted; the third lets readers defer, and the fourth does.
#[test]
fn the_fourth_reader_defers(rt: HostRuntime) {
    let made = Hall::make(rt.alloc(), 1, 32, Policy::WritePriority, 4, 0, NoCargo);
    let Ok((hall, first)) = made else { rt.abort() };
    let mut zero = first;
    let mut three = hall.split(&mut zero, 1, 0);
    let mut two = hall.split(&mut zero, 1, 0);
    let mut one = hall.split(&mut zero, 1, 0);
    let guards = (
        enters_by(&rt, &hall, &mut zero, no_defer(0)),
        enters_by(&rt, &hall, &mut one, no_defer(ONE)),
        enters_by(&rt, &hall, &mut two, no_defer(2 * ONE)),
    );
    word_is(&rt, &hall, &mut two, 3 * ONE + 1);
    let deferred = enters_by(&rt, &hall, &mut three, Form::Deferred { slot: 6 });
    word_is(&rt, &hall, &mut three, 3 * ONE + 1);
    unlock_shared(&hall, &mut three, deferred);
    word_is(&rt, &hall, &mut three, 3 * ONE + 1);
    let (left, middle, right) = guards;
    unlock_shared(&hall, &mut zero, left);
    unlock_shared(&hall, &mut one, middle);
    unlock_shared(&hall, &mut two, right);
    word_is(&rt, &hall, &mut two, 1);
}

// Two readers fill both slots, and the third is counted.
#[test]
fn both_slots_are_taken(rt: HostRuntime) {
    let made = Hall::make(rt.alloc(), 1, 2, Policy::WritePriority, 4, 0, NoCargo);
    let Ok((hall, first)) = made else { rt.abort() };
    let mut zero = first;
    let mut three = hall.split(&mut zero, 1, 0);
    let mut two = hall.split(&mut zero, 1, 0);
    let mut one = hall.split(&mut zero, 1, 0);
    let Ok(announced) = announce(&hall, &mut zero, 0) else {
        rt.abort()
    };
    retract(&hall, &mut zero, announced);
    word_is(&rt, &hall, &mut zero, 1);
    let left = enters_by(&rt, &hall, &mut one, Form::Deferred { slot: 0 });
    let right = enters_by(&rt, &hall, &mut two, Form::Deferred { slot: 1 });
    word_is(&rt, &hall, &mut two, 1);
    let counted = enters_by(
        &rt,
        &hall,
        &mut three,
        Form::Inline {
            why: Why::SlotsTaken { seen: [1, 1] },
        },
    );
    word_is(&rt, &hall, &mut three, ONE + 1);
    unlock_shared(&hall, &mut one, left);
    unlock_shared(&hall, &mut two, right);
    unlock_shared(&hall, &mut three, counted);
    word_is(&rt, &hall, &mut three, 1);
}

// Under read priority a reader enters beside an announced writer, by the count.
#[test]
fn beside_an_announced_writer(rt: HostRuntime) {
    let made = Hall::make(rt.alloc(), 1, 32, Policy::ReadPriority, 2, 0, NoCargo);
    let Ok((hall, first)) = made else { rt.abort() };
    let mut zero = first;
    let mut one = hall.split(&mut zero, 1, 0);
    let Ok(announced) = announce(&hall, &mut zero, 0) else {
        rt.abort()
    };
    let guard = enters_by(&rt, &hall, &mut one, no_defer(4));
    word_is(&rt, &hall, &mut one, ONE + 4);
    unlock_shared(&hall, &mut one, guard);
    retract(&hall, &mut zero, announced);
}
