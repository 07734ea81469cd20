//! The guards of several locks, by the position of their wants.
ghost use Rattle.std.specs.Prelude.{◌≡◌, ℕ, None, length, slice_index_or};
ghost use Rattle.acquire_many.specs.Guards.{hold_of, said_by, says};

use hall::{ExclusiveGuard, Form, SharedGuard, UpgradeGuard};

/// The most locks that a call takes.
pub const MANY: usize = 2;

/// How a lock is held; of a shared hold also where its unit stands, and why there.
#[derive(Clone, Copy, Debug, PartialEq, Eq)]
pub enum How {
    Shared(Form),
    Upgrade,
    Exclusive,
}

/// A hold of one of several locks. It must be given back: code that drops it doesn't compile.
#[derive(Debug)]
pub enum OneGuard {
    Shared(SharedGuard),
    Upgrade(UpgradeGuard),
    Exclusive(ExclusiveGuard),
}

/// The holds of several locks, by the position of the wants; `None` past the last want. They must be given back by
/// `unlock_many`, or one by one.
#[derive(Debug)]
pub struct Guards {
    pub first: Option<OneGuard>,
    pub second: Option<OneGuard>,
}

/// The guard that says this.
fn guard_of(hold: (u64, How)) -> OneGuard
    ensures { hold_of result ≡ hold }
{
    let (lock, how) = hold;
    match how {
        How::Shared(form) => OneGuard::Shared(SharedGuard { lock, form }),
        How::Upgrade => OneGuard::Upgrade(UpgradeGuard { lock }),
        How::Exclusive => OneGuard::Exclusive(ExclusiveGuard { lock }),
    }
}

// What a guard says.
fn told_by(guard: OneGuard) -> (u64, How)
    ensures { result ≡ hold_of guard }
{
    match guard {
        OneGuard::Shared(SharedGuard { lock, form }) => (lock, How::Shared(form)),
        OneGuard::Upgrade(UpgradeGuard { lock }) => (lock, How::Upgrade),
        OneGuard::Exclusive(ExclusiveGuard { lock }) => (lock, How::Exclusive),
    }
}

fn guard_in(hold: Option<(u64, How)>) -> Option<OneGuard>
    ensures { says result ≡ hold }
{
    match hold {
        Some(hold) => Some(guard_of(hold)),
        None => None,
    }
}

fn hold_in(guard: Option<OneGuard>) -> Option<(u64, How)>
    ensures { result ≡ says guard }
{
    match guard {
        Some(guard) => Some(told_by(guard)),
        None => None,
    }
}

/// No hold at any position.
pub(crate) fn no_holds() -> [Option<(u64, How)>; MANY]
    ensures none { (k : ℕ) → slice_index_or result k None ≡ None }
    ensures room { length result ≡ MANY }
{
    [None; MANY]
}

/// The guards that say these, by position.
pub(crate) fn guards_of(holds: &[Option<(u64, How)>; MANY]) -> Guards
    ensures { said_by result ≡ holds.now }
{
    Guards {
        first: guard_in(holds[0]),
        second: guard_in(holds[1]),
    }
}

/// What the guards say, by position. A guard can't be copied, and what it says can.
pub(crate) fn holds_in(guards: Guards) -> [Option<(u64, How)>; MANY]
    ensures { result ≡ said_by guards }
{
    let Guards { first, second } = guards;
    [hold_in(first), hold_in(second)]
}
