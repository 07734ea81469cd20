//! One lock as an abstract thing: what each seat has at it, and which moves are allowed. It is the yardstick of the
//! shared lock, and no code on a fast path runs it.
//!
//! It stands on nothing but the standard library. The modes are those of Folly's `SharedMutex`: any number of shared
//! holders go together with at most one upgrade holder, and an exclusive holder goes together with nobody.
//!
//! `specs/Locks.antt` says in one table what each act makes of a seat's role and which roles of the others bar it. Its
//! law says that each allowed move keeps a lawful lock lawful. `ModelLock` computes the same moves, for tests.
#![tactic(auto)]

mod model;
#[cfg(test)]
mod tests;

pub use model::{Act, Event, Mode, ModelLock, Policy, Refused, Role, SeatRole};
