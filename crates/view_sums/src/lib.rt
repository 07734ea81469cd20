//! Sums over the views of all passes: definitions and lemmas that the rules of several lock crates share.
//!
//! The crate stands on the standard library alone and has no function. A rule of a table says of all passes together
//! what no pass can know alone, as "each number belongs to exactly one pass", by a sum of a weight over their views;
//! `specs/Sums.antt` says what a sum is and how it changes where one view does.
//!
//! The lemmas stand in `specs/`, so that definitions and laws of other crates can cite them.
#![tactic(auto)]
