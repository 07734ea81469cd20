//! The words of a script and of its log, and what they mean.
//!
//! This is the bottom of the house: the types of queries and replies, and in `specs/` every definition that more than
//! one crate speaks of: lines, words and numbers; which bytes are a script; the plain meaning of a query; one legal
//! history; the text of a log.
//!
//! Its few functions are one table, [`Verb`], by which a script is read and a log is written, [`number`], which reads a
//! number, and [`who_is_alone_is_served`], a law of histories, which does nothing.
#![tactic(auto)]

mod laws;
mod numeral;
mod query;
mod verb;

pub use laws::who_is_alone_is_served;
pub use numeral::number;
pub use query::{
    Account, Cause, LedgerAct, LedgerTold, LedgerTrouble, MOST_CALLERS, MOST_CELLS, MOST_QUERIES,
    Query, Reply, Said, Section, Spot, Total, Totals,
};
pub use verb::Verb;
