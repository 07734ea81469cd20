//! The words of the command line.
//!
//! [`check_words`] says what the words after the program's name ask for. They are read by `clap` as one simple command:
//! a mode, and options of one value each, in any order, as `--rows 16` or `--rows=16`. Which words the command takes is
//! `clap`'s own public definition; which values are good is said here, in `specs/Form.antt`.
#![tactic(auto)]

mod check;
mod options;

pub use check::check_words;
pub use lock_model::Policy;
pub use options::{Options, RunMode, WordsFault};

#[cfg(test)]
mod tests;
