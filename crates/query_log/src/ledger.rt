//! The plain ledger.
ghost use Rattle.std.specs.Prelude.{◌≡◌, ◌≤◌, [], IfOk};
ghost use Rattle.query_rules.specs.Ledger.{result_of, accounts_of};
ghost use Rattle.query_log.specs.Ledgers.{accounts_in, with_job};

use crate::accounts::AccountBook;
use crate::{LedgerAct, LedgerEntry, LedgerFault, LedgerJob, LedgerOut};
use ql_base::NoMemory;
use std::alloc::Global;
use std::marker::Model;

/// What a ledger has: its accounts, and every job that ran, in their order.
///
/// The accounts are always what this history makes of no accounts.
#[derive(Drop)]
struct JobBook {
    book: AccountBook,
    entries: Vec<LedgerEntry>,
    room: u64,
}

impl Model for JobBook {
    ghost use Rattle.std.specs.Prelude.{◌≡◌, ◌+◌, ◌≤◌, length, vec_capacity};
    ghost use Rattle.query_log.specs.Ledgers.{LedgerView, made_by};

    ghost Value = { LedgerView };

    ghost view = { λ l. record { rows = l.book.rows; room = l.room; entries = l.entries.items } };

    ghost invariant = { λ l. (l.book.accounts ≡ made_by l.book.rows l.entries.items) × (l.room + length l.entries.items ≤ vec_capacity l.entries) };
}

impl JobBook {
    // No accounts, with room for so many accounts and jobs.
    fn make(alloc: Global, rows: u64, jobs: u64) -> Result<Self, NoMemory>
        ensures { IfOk result (λ book. book ≡ record { rows = rows; room = jobs; entries = [] }) }
    {
        Ok(JobBook {
            book: AccountBook::make(alloc, rows)?,
            entries: Vec::with_capacity(alloc, jobs as usize)?,
            room: jobs,
        })
    }

    // How many jobs it can still run.
    fn room(&self) -> u64
        ensures { result ≡ self.now.room }
    {
        self.room
    }

    // The jobs that ran.
    fn history(&self) -> &[LedgerEntry]
        ensures { result.now ≡ self.now.entries }
    {
        self.entries.as_slice()
    }

    // Runs a job, which becomes the last entry of the history.
    fn run_plain(&mut self, job: LedgerJob) -> Result<LedgerOut, LedgerFault>
        requires room { 1 ≤ self.old.room }
        ensures result { result ≡ result_of self.old.rows (accounts_in self.old) job.act }
        ensures accounts { accounts_in self.new ≡ accounts_of self.old.rows (accounts_in self.old) job.act }
        ensures entry { self.new ≡ with_job self.old job result }
    {
        let result = self.book.run(job.act);
        let entry = LedgerEntry {
            caller: job.caller,
            index: job.index,
            act: job.act,
            result,
        };
        if self.entries.push(entry).is_err() {
            unreachable!();
        }
        self.room -= 1;
        result
    }
}

/// A ledger with its history: every job that ran, in their order.
///
/// It is a handle, since a lock's owner hands the ledger on from thread to thread.
#[derive(Drop)]
pub struct Ledger {
    jobs: Box<JobBook>,
}

impl Model for Ledger {
    ghost use Rattle.query_log.specs.Ledgers.{LedgerView};

    ghost Value = { LedgerView };

    ghost view = { λ l. l.jobs.value };
}

impl Ledger {
    /// No accounts, with room for so many accounts and jobs. It takes here all the memory that they need.
    pub fn make(alloc: Global, rows: u64, jobs: u64) -> Result<Self, NoMemory>
        ensures { IfOk result (λ ledger. ledger ≡ record { rows = rows; room = jobs; entries = [] }) }
    {
        let jobs = JobBook::make(alloc, rows, jobs)?;
        Ok(Ledger {
            jobs: Box::new(alloc, jobs)?,
        })
    }

    /// How many jobs it can still run.
    pub fn room(&self) -> u64
        ensures { result ≡ self.now.room }
    {
        self.jobs.room()
    }

    /// The jobs that ran, with what they were told: the one at position 0 first.
    pub fn history(&self) -> &[LedgerEntry]
        ensures { result.now ≡ self.now.entries }
    {
        self.jobs.history()
    }

    /// Runs a job, which becomes the last entry of the history. It takes no memory, and costs a look-up or two.
    pub fn run_plain(&mut self, job: LedgerJob) -> Result<LedgerOut, LedgerFault>
        requires room { 1 ≤ self.old.room }
        ensures result { result ≡ result_of self.old.rows (accounts_in self.old) job.act }
        ensures accounts { accounts_in self.new ≡ accounts_of self.old.rows (accounts_in self.old) job.act }
        ensures entry { self.new ≡ with_job self.old job result }
    {
        self.jobs.run_plain(job)
    }
}
