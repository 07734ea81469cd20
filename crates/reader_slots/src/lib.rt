//! Readers that defer: a reader places a token that names its lock in a slot, and looks at the lock's word again. Where
//! that lets readers defer it is inside by its token, and has written no word of the lock; else it takes its token back,
//! or gives back the unit that a sweep made of it. It is the way of deferred readers of Folly's `SharedMutex`.
//!
//! It stands on `hall`, each of whose events is one atomic step, and adds no step of its own.
//!
//! | Standing of the pass at the lock | Call | Standing after it |
//! |---|---|---|
//! | away | `place`: `At` | undecided, with the slot of its token |
//! | away | `place`: `Taken` | away |
//! | undecided | `check`: `Inside` | in its slot: it holds shared |
//! | undecided | `check`: `NotInside` | undecided |
//! | undecided | `withdraw` | away |
//! | in its slot | `leave_deferred` | away |
//!
//! A unit of a lock has no owner: where a sweep took a token out of its slot, it is in the writer's hand and then in the
//! lock's count, and who finds its slot cleared takes one unit off the count instead.
//!
//! No value of a pass's standing is there when the code runs. So `withdraw` and `leave_deferred` take the slot that
//! `place` answered, and ask that it is that one. No call takes memory or waits.
#![tactic(auto)]

ghost use Rattle.std.specs.Prelude.{◌≡◌, ◌≢◌, ℕ, ◌+◌, ◌*◌, ◌%◌, ◌<◌};
ghost use Rattle.hall.specs.Calls.{ElsewhereSame, MadeAtMost};
ghost use Rattle.hall.specs.Passes.{view, IsPassOf, shape_of};
ghost use Rattle.hall.specs.Slotting.{HasNonePending};
ghost use Rattle.hall.specs.Views.{standing};
ghost use Rattle.hall.specs.declared.view.Standing.TheVariants.{Away, Slotted, Undecided};
ghost use Rattle.reader_slots.specs.Deferring.{Places, ChecksAs, WithdrawsAs, LeavesAs, IsPlacedAt, stands_placed, stands_checked};

use hall::{Cargo, Hall, Pass, Word};

/// What became of a try to place a token.
#[derive(Clone, Copy, Debug, PartialEq, Eq)]
pub enum Placed {
    /// The token stands in this slot. The pass is undecided.
    At { slot: u64 },
    /// Each of the seat's two slots held this word when it was tried, which isn't 0. The pass is away.
    Taken { seen: [u64; 2] },
}

/// What a look at the lock's word decided.
#[derive(Clone, Copy, Debug, PartialEq, Eq)]
pub enum Checked {
    /// Readers may defer: the pass holds shared by its token.
    Inside,
    /// The may-defer bit of this word is clear. The pass never enters by this token: it has to take it back.
    NotInside { word: Word },
}

/// How a token ended. The pass is away.
#[derive(Clone, Copy, Debug, PartialEq, Eq)]
pub enum Withdrawn {
    /// Its slot still named the lock, and was cleared.
    Cleared,
    /// Its slot named the lock no more: a sweep had taken the token out, and one unit was given back to the count.
    GaveBack,
}

/// Places a token of the lock in the first of the seat's two slots that is empty: seat `s` tries slot `2s` modulo the
/// number of slots, and then slot `2s + 1` modulo that number. The pass has to be away from the lock, with no token
/// undecided and no unit owed elsewhere. At most 2 steps.
pub fn place<C: Cargo>(hall: &Hall<C>, pass: &mut Pass<C>, lock: u64) -> Placed
    requires pass { IsPassOf hall.now pass.old }
    requires lock { lock < (shape_of hall.now).locks }
    requires away { standing (view pass.old) lock ≡ Away }
    requires clear { HasNonePending (view pass.old) }
    ensures pass { IsPassOf hall.now pass.new }
    ensures step { Places C.CargoRule (view pass.old) lock result (view pass.new) }
    ensures stands { standing (view pass.new) lock ≡ stands_placed result }
    ensures slot { IsPlacedAt (shape_of hall.now).slots result }
    ensures elsewhere { ElsewhereSame (view pass.old) (view pass.new) lock }
    ensures steps { MadeAtMost (view pass.old) (view pass.new) 2 }
{
    let twice = 2 * pass.number();
    let first = twice % hall.slots();
    let Err(seen_first) = hall.place_slot(pass, lock, first) else {
        return Placed::At { slot: first };
    };
    let second = (twice + 1) % hall.slots();
    let Err(seen_second) = hall.place_slot(pass, lock, second) else {
        return Placed::At { slot: second };
    };
    Placed::Taken {
        seen: [seen_first, seen_second],
    }
}

/// Looks at the lock's word, by one load, for a pass with an undecided token. `Inside` comes exactly where its
/// may-defer bit is set.
pub fn check<C: Cargo>(hall: &Hall<C>, pass: &mut Pass<C>, lock: u64) -> Checked
    requires pass { IsPassOf hall.now pass.old }
    requires lock { lock < (shape_of hall.now).locks }
    requires undecided { (slot : ℕ) × (standing (view pass.old) lock ≡ Undecided slot) }
    ensures pass { IsPassOf hall.now pass.new }
    ensures step { ChecksAs C.CargoRule (view pass.old) lock result (view pass.new) }
    ensures stands { (slot : ℕ) → standing (view pass.old) lock ≡ Undecided slot → standing (view pass.new) lock ≡ stands_checked slot result }
    ensures elsewhere { ElsewhereSame (view pass.old) (view pass.new) lock }
    ensures steps { MadeAtMost (view pass.old) (view pass.new) 1 }
{
    let word = hall.check(pass, lock);
    if word.may_defer() {
        Checked::Inside
    } else {
        Checked::NotInside { word }
    }
}

/// Takes back an undecided token. `Cleared` comes exactly where its slot still named the lock; else the count is
/// lowered by one. At most 2 steps.
pub fn withdraw<C: Cargo>(hall: &Hall<C>, pass: &mut Pass<C>, lock: u64, slot: u64) -> Withdrawn
    requires pass { IsPassOf hall.now pass.old }
    requires lock { lock < (shape_of hall.now).locks }
    requires slot { slot < (shape_of hall.now).slots }
    requires undecided { standing (view pass.old) lock ≡ Undecided slot }
    ensures pass { IsPassOf hall.now pass.new }
    ensures step { WithdrawsAs C.CargoRule (view pass.old) lock slot result (view pass.new) }
    ensures away { standing (view pass.new) lock ≡ Away }
    ensures elsewhere { ElsewhereSame (view pass.old) (view pass.new) lock }
    ensures steps { MadeAtMost (view pass.old) (view pass.new) 2 }
{
    if hall.withdraw_slot(pass, lock, slot) {
        return Withdrawn::Cleared;
    }
    hall.lower(pass, lock);
    Withdrawn::GaveBack
}

/// A reader that holds shared by a token in this slot leaves. `Cleared` comes exactly where its slot still named the
/// lock; else its unit is in the count, which is lowered by one. At most 2 steps.
pub fn leave_deferred<C: Cargo>(
    hall: &Hall<C>,
    pass: &mut Pass<C>,
    lock: u64,
    slot: u64,
) -> Withdrawn
    requires pass { IsPassOf hall.now pass.old }
    requires lock { lock < (shape_of hall.now).locks }
    requires slot { slot < (shape_of hall.now).slots }
    requires slotted { standing (view pass.old) lock ≡ Slotted slot }
    ensures pass { IsPassOf hall.now pass.new }
    ensures step { LeavesAs C.CargoRule (view pass.old) lock slot result (view pass.new) }
    ensures away { standing (view pass.new) lock ≡ Away }
    ensures elsewhere { ElsewhereSame (view pass.old) (view pass.new) lock }
    ensures steps { MadeAtMost (view pass.old) (view pass.new) 2 }
{
    if hall.leave_slot(pass, lock, slot) {
        return Withdrawn::Cleared;
    }
    hall.lower(pass, lock);
    Withdrawn::GaveBack
}

#[cfg(test)]
mod interleaved;
#[cfg(test)]
mod tests;
