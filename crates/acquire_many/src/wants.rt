//! Which want is next, and whether two wants name one lock.
ghost use Rattle.std.specs.Prelude.{◌≡◌, ◌<◌, MatchBool, MatchOption, length};
ghost use Rattle.acquire_many.specs.Wants.{AllBelow, AreApart, IsFirstTwice, IsLeast, StandsBefore};

use hall::Mode;

// Whether the lock of this want stands earlier in the list.
fn stands_before(wants: &[(u64, Mode)], position: usize) -> bool
    requires { position < length wants.now }
    ensures { MatchBool result (StandsBefore wants.now position) (StandsBefore wants.now position → ⊥) }
{
    for earlier in 0..position {
        if wants[earlier].0 == wants[position].0 {
            return true;
        }
    }
    false
}

/// The first want whose lock stands earlier in the list.
pub(crate) fn same_at(wants: &[(u64, Mode)]) -> Option<usize>
    ensures { MatchOption result (AreApart wants.now) (λ position. IsFirstTwice wants.now position) }
{
    for position in 0..wants.len() {
        if stands_before(wants, position) {
            return Some(position);
        }
    }
    None
}

/// The want of the least lock from `from` on.
pub(crate) fn next_want(wants: &[(u64, Mode)], from: u64) -> Option<usize>
    ensures { MatchOption result (AllBelow wants.now from) (λ position. IsLeast wants.now from position) }
{
    let mut least: Option<usize> = None;
    for position in 0..wants.len() {
        let lock = wants[position].0;
        let is_less = match least {
            Some(other) => lock < wants[other].0,
            None => true,
        };
        if from <= lock && is_less {
            least = Some(position);
        }
    }
    least
}
