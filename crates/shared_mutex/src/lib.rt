//! A lock for readers and writers, by attempts that never wait: shared holds beside each other, exclusive holds alone.
//! It is the inline part of Folly's `SharedMutex`: each reader counts itself in the lock's state word.
//!
//! It stands on `hall`, each of whose events is one atomic step, and adds no step of its own.
//!
//! Its contracts say which standing each call leaves, how many steps it makes, and why it was refused: `Busy` and
//! `Raced` carry words that were read in the call, and come only where another seat had been at the lock. No call takes
//! memory or waits.
#![tactic(auto)]

#[cfg(test)]
mod beside_model;
#[cfg(test)]
mod deferring;
mod exclusive;
#[cfg(test)]
mod reader_in_a_slot;
mod shared;
#[cfg(test)]
mod tests;

pub use exclusive::{announce, retract, try_finish, try_lock, unlock};
pub use shared::{try_lock_shared, unlock_shared};
