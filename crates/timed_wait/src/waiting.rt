//! Trying until a try succeeds.
ghost use Rattle.std.specs.Prelude.{◌≡◌, ◌≤◌, ◌<◌, [], ◌∷◌, ◌⊎◌, ◌+◌, None, Some, IfOk, IfErr, OnOk, OnErr};
ghost use Rattle.timed_wait.specs.Waiting.{AsksBelow};

use crate::Attempt;
use ql_base::Clock;
use std::error::Error;
use std::sync::Wait;
use std::{fmt, thread};

/// A wait came to its deadline.
#[derive(Clone, Copy, Debug, PartialEq, Eq, Drop)]
pub struct Late<F> {
    /// What the clock answered, at or past the deadline.
    pub now: u64,
    pub deadline: u64,
    /// What the last try was refused with.
    pub fault: F,
}

impl<F: fmt::Display> fmt::Display for Late<F> {
    fn fmt<W: fmt::Write>(&self, f: &mut fmt::Formatter<W>) -> fmt::Result {
        write!(
            f,
            "late: the clock answered {}, the deadline is {}, and the last try was refused: {}",
            self.now, self.deadline, self.fault
        )
    }
}

impl<F: Error> Error for Late<F> {}

/// Tries until a try succeeds, and gives what that try gave.
///
/// Between two tries it lets another thread run. Its contract holds if it returns.
pub fn wait<R: Wait, A: Attempt>(rt: &R, attempt: &mut A) -> A::Got
    requires { A.ready attempt.old }
    ensures gives { A.gives attempt.old result attempt.new }
    ensures fault { A.fault attempt.new ≡ None }
    ensures tries { A.tries attempt.old < A.tries attempt.new }
{
    'trying: for _ in rt.forever() {
        if let Ok(got) = attempt.attempt() {
            return got;
        }
        thread::yield_now();
    }
    unreachable!()
}

/// Tries until a try succeeds, or until one was refused and the clock, asked next, answers the deadline or later.
///
/// One try is always made first, so one that succeeds at once is `Ok` whatever the deadline is, and the clock isn't
/// asked. After each refused try the clock is asked once. It may fall and jump. Between two tries the call lets another
/// thread run. Its contract holds if it returns.
pub fn wait_until<R: Wait, A: Attempt, T: Clock>(
    rt: &R,
    attempt: &mut A,
    clock: &mut T,
    deadline: u64,
) -> Result<A::Got, Late<A::Fault>>
    requires { A.ready attempt.old }

    ensures tries { A.tries attempt.old < A.tries attempt.new }

    // A try succeeded. Each time the clock was asked, it answered a number below the deadline.
    ensures gives { IfOk result (λ got. A.gives attempt.old got attempt.new) }
    ensures no_fault { OnOk result (A.fault attempt.new ≡ None) }
    ensures in_time { OnOk result (
        AsksBelow deadline (A.tries attempt.old) (A.tries attempt.new)
        (T.answers clock.old) (T.answers clock.new) []) }
    ensures at_once { OnOk result (A.tries attempt.new ≡ A.tries attempt.old + 1 →
        clock.new ≡ clock.old) }
    ensures early { OnOk result ((clock.new ≡ clock.old) ⊎ (T.last clock.new < deadline)) }

    // The last try was refused, and the clock, asked next, answered the deadline or later for the first time.
    ensures refuses { IfErr result (λ late. A.refuses attempt.old late.fault attempt.new) }
    ensures fault { IfErr result (λ late. A.fault attempt.new ≡ Some late.fault) }
    ensures ready { OnErr result (A.ready attempt.new) }
    ensures deadline { IfErr result (λ late. late.deadline ≡ deadline) }
    ensures late { IfErr result (λ late. deadline ≤ late.now) }
    ensures now { IfErr result (λ late. late.now ≡ T.last clock.new) }
    ensures too_late { IfErr result (λ late.
        AsksBelow deadline (A.tries attempt.old) (A.tries attempt.new)
        (T.answers clock.old) (T.answers clock.new) (late.now ∷ [])) }
{
    'in_time: for _ in rt.forever() {
        let fault = match attempt.attempt() {
            Ok(got) => return Ok(got),
            Err(fault) => fault,
        };
        let now = clock.now();
        if now >= deadline {
            return Err(Late {
                now,
                deadline,
                fault,
            });
        }
        thread::yield_now();
    }
    unreachable!()
}
