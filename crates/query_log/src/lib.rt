//! One query: the plain maps and the plain ledger, slow and simple programs that compute what a script's queries mean.
//!
//! The maps are std's ordered maps. The ledger keeps its accounts, their places by key, and their sum. Its jobs are
//! jobs of `combine_job`, so that the owner of a lock can run them on a ledger. The crate stands on `query_rules`,
//! whose definitions of a query's plain meaning are the contracts of [`PlainMaps::ask`] and [`Ledger::run_plain`].
//! Every later body of maps or ledger is compared with them.
#![tactic(auto)]

mod accounts;
mod job;
mod keeping;
mod ledger;
mod plain;

pub use job::{LedgerEntry, LedgerJob};
pub use ledger::Ledger;
pub use plain::PlainMaps;
pub use query_rules::{LedgerAct, LedgerTold as LedgerOut, LedgerTrouble as LedgerFault};

#[cfg(test)]
mod tests;
