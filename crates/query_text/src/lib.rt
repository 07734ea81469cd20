//! Scripts and logs: between bytes and what they say.
//!
//! [`parse_script`] reads the bytes of a script, and tells of a text that is none its first bad line and that line's
//! first cause. [`write_log`] writes what was replied to a script, a line at a time, into any sink, and [`write_soak`]
//! what a soak came to. The definitions that both are held to stand in `query_rules`; bytes, faults and pieces are
//! those of `ql_base`.
//!
//! Reading takes memory for the lists of queries alone, and writing takes none.
#![tactic(auto)]

mod digits;
mod kept;
mod log;
mod log_line;
mod number;
mod outcome;
mod packed;
mod parse;
mod query_list;
mod refusal;
mod script;
mod script_line;
mod soak;
mod words;

pub use kept::KeptReply;
pub use log::{write_log, write_packed_log};
pub use log_line::Line;
pub use number::numbers as word_numbers;
pub use outcome::{Counts, Outcome};
pub use packed::{PackedSpot, SPOT_CALLERS, SPOT_INDEXES, SPOT_KEYS, SpotLike};
pub use parse::{ParseFault, parse_script};
pub use query_rules::{
    Cause, LedgerTold, LedgerTrouble, MOST_CALLERS, MOST_CELLS, MOST_QUERIES, Query, Reply, Said,
    Section, Totals, Verb, number as word_number,
};
pub use refusal::{Refusal, write_refusal};
pub use script::{Callers, Script};
pub use soak::write_soak;
pub use words::{cut_line, cut_word};

#[cfg(test)]
mod tests;
