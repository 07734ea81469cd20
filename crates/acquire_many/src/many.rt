//! Several locks, in the order of their numbers.
ghost use Rattle.std.specs.Prelude.{◌≡◌, ◌≢◌, ℕ, ◌+◌, ◌*◌, ◌<◌, ◌≤◌, Some, None, IfOk, MatchResult, length, slice_index_or};
ghost use Rattle.hall.specs.Passes.{view, IsPassOf, shape_of};
ghost use Rattle.hall.specs.Slotting.{HasNonePending};
ghost use Rattle.hall.specs.Views.{standing};
ghost use Rattle.hall.specs.declared.view.Standing.TheVariants.{Away};
ghost use Rattle.shared_mutex.specs.Acquiring.{MadeAtMost};
ghost use Rattle.acquire_many.specs.Guards.{Fit, said_by};
ghost use Rattle.acquire_many.specs.Met.{MeetsPatiently, Takes};
ghost use Rattle.acquire_many.specs.Took.{GaveFirst, TookAll, TookNone};
ghost use Rattle.acquire_many.specs.Wants.{Hold, IsFirstTwice, lock_at};
ghost use Rattle.acquire_many.specs.declared.guards.How.TheVariants as hows;

use crate::guards::{Guards, How, MANY, guards_of, holds_in, no_holds};
use crate::one::{give_at, take, try_to_take};
use crate::wants::{next_want, same_at};
use hall::{Cargo, Hall, Mode, Pass, TryFault};
use std::error::Error;
use std::fmt;
use std::sync::Wait;

/// Two wants name one lock. No step was made.
#[derive(Clone, Copy, Debug, PartialEq, Eq)]
pub struct SameCell {
    /// The first position in the list whose lock stands earlier in it.
    pub index: u64,
}

impl fmt::Display for SameCell {
    fn fmt<W: fmt::Write>(&self, f: &mut fmt::Formatter<W>) -> fmt::Result {
        let index = self.index;
        write!(f, "the lock of want {index} stands earlier in the list too")
    }
}

impl Error for SameCell {}

/// Why several locks weren't taken. The pass is away from all of them.
#[derive(Clone, Copy, Debug, PartialEq, Eq)]
pub enum ManyFault {
    /// Two wants name one lock. No step was made.
    Same {
        /// The first position in the list whose lock stands earlier in it.
        index: u64,
    },
    /// The one try for this want was refused. What had been taken was given back.
    Refused {
        /// The position of the want in the list.
        index: u64,
        fault: TryFault,
    },
}

impl fmt::Display for ManyFault {
    fn fmt<W: fmt::Write>(&self, f: &mut fmt::Formatter<W>) -> fmt::Result {
        match *self {
            ManyFault::Same { index } => SameCell { index }.fmt(f),
            ManyFault::Refused { index, fault } => write!(f, "want {index} was refused: {fault}"),
        }
    }
}

impl Error for ManyFault {}

/// Waits until all locks of the list are held, each in its mode: at most `MANY`, and the pass is away from each. They
/// are taken in the order of their numbers, whatever the order of the list, and the guards stand by the position of the
/// want. An empty list gives no guard and makes no step. Its contract holds if it returns.
///
/// Each step that it makes before it holds a lock is for that lock, by a pass that holds no mode there, and none takes
/// an announcement back: a writer stays announced between its tries, and a reader that is refused looks, or takes its
/// token back.
///
/// `SameCell` comes exactly where two wants name one lock; then no step was made.
pub fn lock_many<R: Wait, C: Cargo>(
    rt: &R,
    hall: &Hall<C>,
    pass: &mut Pass<C>,
    wants: &[(u64, Mode)],
) -> Result<Guards, SameCell>
    requires pass { IsPassOf hall.now pass.old }
    requires few { length wants.now ≤ MANY }
    requires locks { (k : ℕ) → k < length wants.now → lock_at wants.now k < (shape_of hall.now).locks }
    requires away { (k : ℕ) → k < length wants.now → standing (view pass.old) (lock_at wants.now k) ≡ Away }
    requires clear { HasNonePending (view pass.old) }
    ensures pass { IsPassOf hall.now pass.new }
    ensures took { MatchResult result (λ guards. TookAll C.CargoRule (MeetsPatiently C.CargoRule) wants.now (view pass.old) (said_by guards) (view pass.new)) (λ same. IsFirstTwice wants.now same.index × (view pass.new ≡ view pass.old)) }
    ensures fits { MatchResult result (λ guards. Fit (shape_of hall.now) (view pass.new) (said_by guards)) (λ _. view pass.new ≡ view pass.old) }
    ensures clear { HasNonePending (view pass.new) }
{
    if let Some(position) = same_at(wants) {
        return Err(SameCell {
            index: position as u64,
        });
    }
    let mut holds = no_holds();
    let mut from = 0;
    while let Some(position) = next_want(wants, from) {
        let want = wants[position];
        let how = take(rt, hall, pass, want);
        holds[position] = Some((want.0, how));
        from = want.0 + 1;
    }
    Ok(guards_of(&holds))
}

/// Tries once for each lock of the list, in the order of their numbers: at most `MANY`, and the pass is away from each.
/// The guards stand by the position of the want.
///
/// `Same` comes exactly where two wants name one lock; then no step was made. `Refused` comes exactly where the try for
/// that want was refused with this fault; what had been taken was given back, and the pass is away from each lock. At
/// most 2 steps for each slot and 6 more for each want, and then two for each guard.
pub fn try_many<C: Cargo>(
    hall: &Hall<C>,
    pass: &mut Pass<C>,
    wants: &[(u64, Mode)],
) -> Result<Guards, ManyFault>
    requires pass { IsPassOf hall.now pass.old }
    requires few { length wants.now ≤ MANY }
    requires locks { (k : ℕ) → k < length wants.now → lock_at wants.now k < (shape_of hall.now).locks }
    requires away { (k : ℕ) → k < length wants.now → standing (view pass.old) (lock_at wants.now k) ≡ Away }
    requires clear { HasNonePending (view pass.old) }
    ensures pass { IsPassOf hall.now pass.new }
    ensures took { MatchResult result (λ guards. TookAll C.CargoRule (Takes C.CargoRule) wants.now (view pass.old) (said_by guards) (view pass.new)) (λ fault. TookNone C.CargoRule wants.now (view pass.old) fault (view pass.new)) }
    ensures fits { IfOk result (λ guards. Fit (shape_of hall.now) (view pass.new) (said_by guards)) }
    ensures clear { HasNonePending (view pass.new) }
    ensures steps { MadeAtMost (view pass.old) (view pass.new) ((2 * (shape_of hall.now).slots + 6) * length wants.now + 2 * MANY) }
{
    if let Some(position) = same_at(wants) {
        return Err(ManyFault::Same {
            index: position as u64,
        });
    }
    let mut holds = no_holds();
    let mut from = 0;
    while let Some(position) = next_want(wants, from) {
        let want = wants[position];
        match try_to_take(hall, pass, want) {
            Ok(how) => holds[position] = Some((want.0, how)),
            Err(fault) => {
                give_all_back(hall, pass, &holds);
                return Err(ManyFault::Refused {
                    index: position as u64,
                    fault,
                });
            }
        }
        from = want.0 + 1;
    }
    Ok(guards_of(&holds))
}

/// Gives all locks back, in the order of the positions: by one step each, and by at most two from a slot. The pass's
/// part of the cargo has to be settled for each lock that it holds exclusively.
pub fn unlock_many<C: Cargo>(hall: &Hall<C>, pass: &mut Pass<C>, guards: Guards)
    requires pass { IsPassOf hall.now pass.old }
    requires fits { Fit (shape_of hall.now) (view pass.old) (said_by guards) }
    requires settled { (k : ℕ) (x : Hold) → slice_index_or (said_by guards) k None ≡ Some x → x.1 ≡ hows.Exclusive → C.settled x.0 (view pass.old).part }
    ensures pass { IsPassOf hall.now pass.new }
    ensures gave { GaveFirst C.CargoRule (said_by guards) (view pass.old) MANY (view pass.new) }
    ensures clear { HasNonePending (view pass.old) → HasNonePending (view pass.new) }
    ensures steps { MadeAtMost (view pass.old) (view pass.new) (2 * MANY) }
{
    give_all_back(hall, pass, &holds_in(guards));
}

// Gives these locks back, in the order of the positions.
fn give_all_back<C: Cargo>(hall: &Hall<C>, pass: &mut Pass<C>, holds: &[Option<(u64, How)>; MANY])
    requires pass { IsPassOf hall.now pass.old }
    requires fits { Fit (shape_of hall.now) (view pass.old) holds.now }
    requires settled { (k : ℕ) (x : Hold) → slice_index_or holds.now k None ≡ Some x → x.1 ≡ hows.Exclusive → C.settled x.0 (view pass.old).part }
    ensures pass { IsPassOf hall.now pass.new }
    ensures gave { GaveFirst C.CargoRule holds.now (view pass.old) MANY (view pass.new) }
    ensures clear { HasNonePending (view pass.old) → HasNonePending (view pass.new) }
    ensures steps { MadeAtMost (view pass.old) (view pass.new) (2 * MANY) }
{
    for position in 0..MANY {
        give_at(hall, pass, holds[position]);
    }
}
