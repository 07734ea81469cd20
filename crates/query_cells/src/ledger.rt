//! Queries of the ledger, which lives behind a lock of its own.
ghost use Rattle.std.specs.Prelude.{◌≡◌, ◌≤◌, true};
ghost use Rattle.query_rules.specs.History.{IsKindFor, asks_ledger};
ghost use Rattle.dist_mutex.specs.Passes.{IsAtRest, IsDistPassOf, SameNumbers, dist_view};
ghost use Rattle.query_cells.specs.Asked.{AddsJob, AnswersJob, is_job};

use combine_job::parcel::JobAnswer;
use dist_mutex::mutex::DistMutex;
use dist_mutex::pass::DistPass;
use query_log::{Ledger, LedgerAct, LedgerFault, LedgerJob, LedgerOut};
use query_rules::{Query, Reply};
use std::sync::Wait;

/// Runs the query's job under the pass's number, and tells its position and its result.
pub(crate) fn ask_ledger<R: Wait>(
    rt: &R,
    dist: &DistMutex<Ledger, LedgerJob>,
    dist_pass: &mut DistPass<Ledger, LedgerJob>,
    index: u64,
    query: &Query,
) -> Reply
    requires asks { asks_ledger query.now ≡ true }
    requires pass { IsDistPassOf dist.now dist_pass.old × IsAtRest dist_pass.old }
    requires quota { 1 ≤ (dist_view dist_pass.old).quota }
    ensures pass { IsDistPassOf dist.now dist_pass.new × IsAtRest dist_pass.new }
    ensures same { SameNumbers (dist_view dist_pass.old) (dist_view dist_pass.new) }
    ensures kind { IsKindFor query.now result }
    ensures job { AddsJob (dist_view dist_pass.old).number index query.now result (dist_view dist_pass.old) (dist_view dist_pass.new) }
    ensures is_job { is_job result ≡ true }
{
    let Some(act) = query.act() else {
        unreachable!()
    };
    let job = LedgerJob {
        caller: dist_pass.number(),
        index,
        act,
    };
    let answer = match act {
        LedgerAct::Audit => run_owned(rt, dist, dist_pass, job),
        LedgerAct::Give { .. } | LedgerAct::Take { .. } => run_combined(rt, dist, dist_pass, job),
    };
    Reply::Job {
        at: answer.at,
        result: answer.result,
    }
}

// Runs a job that whoever owns the lock may run.
fn run_combined<R: Wait>(
    rt: &R,
    dist: &DistMutex<Ledger, LedgerJob>,
    dist_pass: &mut DistPass<Ledger, LedgerJob>,
    job: LedgerJob,
) -> JobAnswer<LedgerOut, LedgerFault>
    requires pass { IsDistPassOf dist.now dist_pass.old × IsAtRest dist_pass.old }
    requires quota { 1 ≤ (dist_view dist_pass.old).quota }
    ensures pass { IsDistPassOf dist.now dist_pass.new × IsAtRest dist_pass.new }
    ensures same { SameNumbers (dist_view dist_pass.old) (dist_view dist_pass.new) }
    ensures answered { AnswersJob job result (dist_view dist_pass.old) (dist_view dist_pass.new) }
{
    dist.lock_combine(rt, dist_pass, job)
}

// Runs a job that goes over the whole ledger, by the pass as the lock's owner.
fn run_owned<R: Wait>(
    rt: &R,
    dist: &DistMutex<Ledger, LedgerJob>,
    dist_pass: &mut DistPass<Ledger, LedgerJob>,
    job: LedgerJob,
) -> JobAnswer<LedgerOut, LedgerFault>
    requires pass { IsDistPassOf dist.now dist_pass.old × IsAtRest dist_pass.old }
    requires quota { 1 ≤ (dist_view dist_pass.old).quota }
    ensures pass { IsDistPassOf dist.now dist_pass.new × IsAtRest dist_pass.new }
    ensures same { SameNumbers (dist_view dist_pass.old) (dist_view dist_pass.new) }
    ensures answered { AnswersJob job result (dist_view dist_pass.old) (dist_view dist_pass.new) }
{
    let mut owner = dist.lock(rt, dist_pass);
    let answer = dist.run_owned(dist_pass, &mut owner, job);
    let _released = dist.unlock(dist_pass, owner);
    answer
}
