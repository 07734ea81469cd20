//! Shared holds.
ghost use Rattle.std.specs.Prelude.{◌≡◌, ◌+◌, ◌<◌, false, IfOk, MatchResult};
ghost use Rattle.state_word.specs.Words.{may_defer_of};
ghost use Rattle.hall.specs.Fitting.{SharedFits, stands_by};
ghost use Rattle.hall.specs.Passes.{view, IsPassOf, shape_of};
ghost use Rattle.hall.specs.Plays.{conflicts_for_shared, HasRoom};
ghost use Rattle.hall.specs.Slotting.{HasNonePending};
ghost use Rattle.hall.specs.Views.{standing};
ghost use Rattle.hall.specs.declared.view.Standing.TheVariants.{Away, Undecided};
ghost use Rattle.shared_mutex.specs.Acquiring.{ElsewhereSame, MadeAtMost, EntersBy, EntersInline, LeavesShared, RefusesShared, Settles, steps_to_leave};

use hall::conflicts::conflicts_for_shared;
use hall::{Cargo, Form, Hall, Pass, SharedGuard, TryFault, Why, Word};
use reader_slots::{Checked, Placed, check, leave_deferred, place, withdraw};

// Enters by the count, by one exchange from a word that was seen.
fn enter_inline<C: Cargo>(
    hall: &Hall<C>,
    pass: &mut Pass<C>,
    lock: u64,
    seen: Word,
    why: Why,
) -> Result<SharedGuard, TryFault>
    requires pass { IsPassOf hall.now pass.old }
    requires lock { lock < (shape_of hall.now).locks }
    requires away { standing (view pass.old) lock ≡ Away }
    requires seen { conflicts_for_shared (shape_of hall.now).policy seen ≡ false }
    requires room { HasRoom seen }
    ensures pass { IsPassOf hall.now pass.new }
    ensures step { EntersInline C.CargoRule (view pass.old) lock seen why (view pass.new) result }
    ensures stands { MatchResult result (λ guard. standing (view pass.new) lock ≡ stands_by guard.form) (λ _. standing (view pass.new) lock ≡ Away) }
    ensures fits { IfOk result (λ guard. SharedFits (shape_of hall.now) (view pass.new) guard) }
    ensures elsewhere { ElsewhereSame (view pass.old) (view pass.new) lock }
    ensures steps { MadeAtMost (view pass.old) (view pass.new) 1 }
{
    match hall.enter(pass, lock, seen) {
        Ok(()) => Ok(SharedGuard {
            lock,
            form: Form::Inline { why },
        }),
        Err(found) => Err(TryFault::Raced {
            expected: seen,
            found,
        }),
    }
}

// Looks at the lock's word after a token was placed. Where readers may defer the pass is inside by its token; else it
// takes the token back, and is refused for the word that it found.
fn settle<C: Cargo>(
    hall: &Hall<C>,
    pass: &mut Pass<C>,
    lock: u64,
    slot: u64,
    seen: Word,
) -> Result<SharedGuard, TryFault>
    requires pass { IsPassOf hall.now pass.old }
    requires lock { lock < (shape_of hall.now).locks }
    requires slot { slot < (shape_of hall.now).slots }
    requires undecided { standing (view pass.old) lock ≡ Undecided slot }
    ensures pass { IsPassOf hall.now pass.new }
    ensures step { Settles C.CargoRule (view pass.old) lock slot seen (view pass.new) result }
    ensures stands { MatchResult result (λ guard. standing (view pass.new) lock ≡ stands_by guard.form) (λ _. standing (view pass.new) lock ≡ Away) }
    ensures fits { IfOk result (λ guard. SharedFits (shape_of hall.now) (view pass.new) guard) }
    ensures elsewhere { ElsewhereSame (view pass.old) (view pass.new) lock }
    ensures steps { MadeAtMost (view pass.old) (view pass.new) 3 }
{
    let word = match check(hall, pass, lock) {
        Checked::Inside => {
            return Ok(SharedGuard {
                lock,
                form: Form::Deferred { slot },
            });
        }
        Checked::NotInside { word } => word,
    };
    withdraw(hall, pass, lock, slot);
    if conflicts_for_shared(hall.policy(), word) {
        Err(TryFault::Busy { word })
    } else {
        Err(TryFault::Raced {
            expected: seen,
            found: word,
        })
    }
}

/// Tries to enter as a reader. Where the loaded word lets readers defer it places a token in a slot and looks at the
/// word again; else, or where both its slots are taken, it enters by the count, by one exchange from the loaded word.
/// The pass has to be away from the lock, with no token undecided and no unit owed elsewhere, and is away after a
/// refusal.
///
/// `Busy` comes exactly where the loaded word conflicts, or the one at the second look; `Raced` where the exchange
/// failed, or where readers no longer deferred at the second look, for a word that doesn't conflict. At most 6 steps.
pub fn try_lock_shared<C: Cargo>(
    hall: &Hall<C>,
    pass: &mut Pass<C>,
    lock: u64,
) -> Result<SharedGuard, TryFault>
    requires pass { IsPassOf hall.now pass.old }
    requires lock { lock < (shape_of hall.now).locks }
    requires away { standing (view pass.old) lock ≡ Away }
    requires clear { HasNonePending (view pass.old) }
    ensures pass { IsPassOf hall.now pass.new }
    ensures step { MatchResult result (λ guard. (guard.lock ≡ lock) × EntersBy C.CargoRule (view pass.old) lock guard.form (view pass.new)) (λ fault. RefusesShared C.CargoRule (view pass.old) lock (view pass.new) fault) }
    ensures stands { MatchResult result (λ guard. standing (view pass.new) lock ≡ stands_by guard.form) (λ _. standing (view pass.new) lock ≡ Away) }
    ensures fits { IfOk result (λ guard. SharedFits (shape_of hall.now) (view pass.new) guard) }
    ensures clear { HasNonePending (view pass.new) }
    ensures elsewhere { ElsewhereSame (view pass.old) (view pass.new) lock }
    ensures steps { MadeAtMost (view pass.old) (view pass.new) 6 }
{
    let seen = hall.load(pass, lock);
    if conflicts_for_shared(hall.policy(), seen) {
        return Err(TryFault::Busy { word: seen });
    }
    if !seen.may_defer() {
        return enter_inline(hall, pass, lock, seen, Why::NoDefer { word: seen });
    }
    match place(hall, pass, lock) {
        Placed::At { slot } => settle(hall, pass, lock, slot, seen),
        Placed::Taken { seen: tokens } => {
            enter_inline(hall, pass, lock, seen, Why::SlotsTaken { seen: tokens })
        }
    }
}

/// Gives a shared hold back: by one step from the count, and by at most two from a slot.
pub fn unlock_shared<C: Cargo>(hall: &Hall<C>, pass: &mut Pass<C>, guard: SharedGuard)
    requires pass { IsPassOf hall.now pass.old }
    requires fits { SharedFits (shape_of hall.now) (view pass.old) guard }
    ensures pass { IsPassOf hall.now pass.new }
    ensures step { LeavesShared C.CargoRule (view pass.old) guard.lock guard.form (view pass.new) }
    ensures away { standing (view pass.new) guard.lock ≡ Away }
    ensures clear { HasNonePending (view pass.old) → HasNonePending (view pass.new) }
    ensures elsewhere { ElsewhereSame (view pass.old) (view pass.new) guard.lock }
    ensures steps { MadeAtMost (view pass.old) (view pass.new) (steps_to_leave guard.form) }
{
    let SharedGuard { lock, form } = guard;
    match form {
        Form::Deferred { slot } => {
            leave_deferred(hall, pass, lock, slot);
        }
        Form::Inline { why: _ } | Form::Lowered => {
            hall.lower(pass, lock);
        }
    }
}
