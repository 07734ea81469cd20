//! The ledger as a value that a lock's owner keeps, and its jobs as jobs of that lock.
use crate::{Ledger, LedgerFault, LedgerJob, LedgerOut};
use combine_job::job::{Job, Room};

impl Room for Ledger {
    ghost rooms = { λ ledger. ledger.room };

    fn room(&self) -> u64 {
        Ledger::room(self)
    }
}

impl Job<Ledger> for LedgerJob {
    ghost use Rattle.query_log.specs.Ledgers.{Means};

    type Out = LedgerOut;

    type Fault = LedgerFault;

    ghost means = { Means };

    // A job of the ledger is always ready.
    ghost is_ready = { λ job. Unit {0} };

    fn run(self, value: &mut Ledger) -> Result<LedgerOut, LedgerFault> {
        value.run_plain(self)
    }
}
