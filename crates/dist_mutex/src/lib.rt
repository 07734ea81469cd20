//! An exclusive lock over a value, after Folly's `DistributedMutex`: a waiter queues in a chain by one swap and then
//! waits on a word of its own, and the owner runs jobs on the value, each at its own position. Where Folly's lock runs
//! a waiter's critical section on the owner's thread, this one runs its job: `lock_combine` posts it, and an owner that
//! gives the lock up runs those of waiting nodes, up to the limit that the lock was made with.
//!
//! The crate stands on `waiter_chain` for the lock and on `combine_job` for the jobs. An owner has the value in its
//! hand, and puts it back as the lock is given up.
//!
//! The contracts promise one history: the value that an owner finds is what a list of jobs made of the first value, the
//! answer of each is its plain meaning at its position, and a pass's own answers are among them, below the position of
//! the next job. Where all passes were joined, `close` gives the value back, and the closing pass's answers are those
//! of the whole history, each once. The steps of each call are told exactly. Nothing is promised of a wait's end.
#![tactic(auto)]

pub mod combine;
#[cfg(test)]
mod crowd;
pub mod lock;
pub mod mutex;
#[cfg(test)]
mod orders;
pub mod owner;
pub mod pass;
pub mod release;
#[cfg(test)]
mod tests;
pub mod timed;

pub use mutex::DistMutex;
pub use owner::{Next, Owner, Released};
pub use pass::DistPass;
