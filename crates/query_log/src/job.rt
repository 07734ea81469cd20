//! Jobs of a ledger, and what is kept of them.
use query_rules::{LedgerAct, LedgerTold, LedgerTrouble};

/// A job, and whose it is: query number `index` of this caller.
#[derive(Clone, Copy, Debug, PartialEq, Eq)]
pub struct LedgerJob {
    pub caller: u64,
    pub index: u64,
    pub act: LedgerAct,
}

/// A job that ran, and what it was told.
#[derive(Clone, Copy, Debug, PartialEq, Eq)]
pub struct LedgerEntry {
    pub caller: u64,
    pub index: u64,
    pub act: LedgerAct,
    pub result: Result<LedgerTold, LedgerTrouble>,
}
