//! One query, asked of maps that live behind the locks of a hall.
//!
//! [`ask`] does what a query means: it takes the query's cells in the mode that the query needs, reads or changes them,
//! tells the one reply by a named step while they are held, and gives them back. A query of the ledger is a job of the
//! ledger. It stands on `sync_cell`, whose calls take and give back a cell, and on `map_cargo`, whose calls read and
//! change a held cell and give each reply its place in the one history.
//!
//! Its contract says what the pass has told more: exactly this reply, under its number and this index, behind all that
//! it has seen. Nothing is promised of a wait's end. No call takes memory.
#![tactic(auto)]

mod asking;
mod attempts;
mod changes;
mod holding;
mod ledger;
mod reading;
mod telling;
#[cfg(test)]
mod tests;
mod two;
mod writing;

pub use asking::ask;
