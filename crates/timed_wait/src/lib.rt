//! Waiting: to try until a try succeeds, with a deadline or without one.
//!
//! The crate stands on the clocks of `ql_base`. Whatever can be tried again is an [`Attempt`], and [`wait`] and
//! [`wait_until`] are the loops that may not end.
//!
//! The contracts say what a call that returned has done: that it tried, that each try but the last was refused, what
//! the last one gave or was refused with, and what the clock answered in between. That a wait ends is nowhere promised.
//! No call takes memory.
#![tactic(auto)]

mod attempt;
mod waiting;

pub use attempt::Attempt;
pub use waiting::{Late, wait, wait_until};

#[cfg(test)]
mod tests;
