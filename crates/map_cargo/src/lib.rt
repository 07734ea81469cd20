//! Maps behind the locks of a hall, with one legal history.
//!
//! A [`MapCargo`] is what a hall carries: for each lock a cell, which is a map from keys to values in rows of words,
//! then one word that numbers the writes, then a log row for each write. Who holds a cell reads it ([`get`], [`len`]),
//! and who holds it exclusively changes it ([`put`], [`del`]). A write takes its number by [`draw`], a read its place
//! among the writes by [`place_read`], both while they hold their cells. Whom a lock refused tells it by
//! [`note_refused`].
//!
//! It stands on `hall`, whose locks say who may touch which word, and on `query_rules`, which says what plain maps
//! answer to a query. `specs/History.antt` is the rule that every step keeps: there is one list of writes, and each
//! pass knows a part of it.
//!
//! Whatever passes do through any interleaving, the replies that they placed are those that one thread would have given
//! from plain maps: [`close`] tells it, with the log rows that hold the writes.
#![tactic(auto)]

pub mod cells;
pub mod ending;
pub mod entry;
pub mod history;
pub mod refusing;
pub mod rows;
pub mod size;
#[cfg(test)]
mod tests;
pub mod words;

pub use cells::{CellFull, del, get, len, put};
pub use ending::close;
pub use entry::Entry;
pub use history::{QuotaSpent, draw, place_read};
pub use refusing::note_refused;
pub use size::MapCargo;
