//! The run of a script, from words and bytes to a log.
//!
//! [`serve_main`] does all that the program does: it takes the words, reads the source to its end, asks the queries,
//! and writes the log. Where the words ask for a soak it makes the script in place of reading one, and writes what the
//! replies come to. The maps live behind the shared locks of a hall, and the ledger behind a lock whose waiters run
//! each other's jobs. [`run_callers`] asks the queries: each caller in a thread of its own, through passes of its own.
//! It stands on the contracts of `query_cells` (what one query leaves), `map_cargo` (how the replies of closed maps are
//! one history), `query_log` (the ledger), `query_text` (scripts and logs), `soak` (its script and its totals) and
//! `ql_base` (sources, sinks, clocks and gates), and on the laws of `run_laws` (how what the callers leave is one
//! history).
//!
//! Its contract is the promise of the program: a run with status 0 has written exactly the printed form of one history,
//! a soak exactly its totals, and every other status has its cause.
#![tactic(auto)]

mod caller;
mod ended;
mod halves;
mod order;
mod reserved;
mod room;
mod run;
mod seats;
mod serve;

pub use command_line::{Options, Policy, RunMode, WordsFault, check_words};
pub use ended::Ended;
pub use order::order_of;
pub use run::{Ran, run_callers, run_script};
pub use serve::serve_main;

#[cfg(test)]
mod callers_tests;
#[cfg(test)]
mod gate_tests;
#[cfg(test)]
mod sink_tests;
#[cfg(test)]
mod tests;
