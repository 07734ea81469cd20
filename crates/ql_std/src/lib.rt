//! The sources, sinks and clocks of `ql_base` over the streams and the clock of the system.
//!
//! The crate stands on `ql_base` and std. Its types are a few lines each over any reader or writer of std and any
//! handle that has a clock, so that a program makes them over its standard streams and a test over whatever it likes.
//!
//! They are proved against the traits of `ql_base`: the counts of faults never fall, and a fault is answered only where
//! its count rose. They tell nothing of the bytes that pass and of the times that are answered. What a stream or a
//! clock of the system really gives or takes no contract can say.
#![tactic(auto)]

mod clocks;
mod streams;

pub use clocks::{StdClock, StdClocks};
pub use streams::{StdSink, StdSource};

#[cfg(test)]
mod tests;
