//! Upgrade mode of a lock, and the ways from a stronger hold to a weaker one. One seat at a time holds upgrade, beside
//! any number of readers; it may go on to an exclusive hold, and nobody can write between what it read and what it
//! writes. It is the upgrade mode of Folly's `SharedMutex`.
//!
//! It stands on `hall`, each of whose events is one atomic step, and beside `shared_mutex`, which gives and takes the
//! shared and the exclusive holds; its `try_finish` finishes a writer that was announced from upgrade too, after `scan`
//! of `apply_deferred`.
//!
//! Its contracts say which standing each call leaves, how many steps it makes, and why it was refused: the two words of
//! a refusal were read in the call, and it comes only where another seat had been at the lock. A lowering is one step:
//! at no moment does the pass hold nothing. No call takes memory or waits.
#![tactic(auto)]

#[cfg(test)]
mod beside_model;
mod lowering;
mod raising;
mod taking;
#[cfg(test)]
mod tests;

pub use lowering::{exclusive_to_shared, exclusive_to_upgrade, upgrade_to_shared};
pub use raising::{BeginRaced, begin_upgrade, retract_upgrade};
pub use taking::{try_lock_upgrade, unlock_upgrade};
