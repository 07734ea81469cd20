//! What a run needs, made before its first query.
ghost use Rattle.std.specs.Prelude.{◌≡◌, ◌≤◌, ◌<◌, length, sum_by, IfOk};
ghost use Rattle.command_line.specs.Form.{IsWithinLimits};
ghost use Rattle.hall.specs.Passes.{view, IsPassOf};
ghost use Rattle.query_rules.specs.Maps.{writes_of};
ghost use Rattle.query_rules.specs.Ledger.{jobs_of};
ghost use Rattle.dist_mutex.specs.Passes.{IsAtRest, IsDistPassOf, dist_view};
ghost use Rattle.server_run.specs.Rooms.{IsHallFor, IsFirst, IsLockFor, IsFirstOf};
ghost use Rattle.run_laws.specs.Callers.{seats_for};
ghost use Rattle.query_rules.specs.declared.query.TheConstants.{MOST_CALLERS, MOST_CELLS, MOST_QUERIES};

use command_line::Options;
use dist_mutex::mutex::DistMutex;
use dist_mutex::pass::DistPass;
use hall::{Hall, Pass};
use map_cargo::MapCargo;
use ql_base::NoMemory;
use query_log::{Ledger, LedgerJob};
use query_text::Callers;
use std::alloc::Global;

/// A hall for these callers, as the options ask: so many empty maps behind a lock each, a seat for each caller, and a
/// log row for each query that may write. Its pass has all seats and all the quota.
pub fn open_hall(
    alloc: Global,
    cells: u64,
    callers: &Callers,
    options: &Options,
) -> Result<(Hall<MapCargo>, Pass<MapCargo>), NoMemory>
    requires limits { IsWithinLimits options.now }
    requires cells { (0 < cells) × (cells ≤ MOST_CELLS) }
    requires crowd { length callers.now ≤ MOST_CALLERS }
    requires few { sum_by length callers.now ≤ MOST_QUERIES }
    ensures pass { IfOk result (λ t. IsPassOf t.0 t.1) }
    ensures hall { IfOk result (λ t. IsHallFor cells callers.now options.now t.0) }
    ensures first { IfOk result (λ t. IsFirst (seats_for callers.now) (sum_by writes_of callers.now) (view t.1)) }
{
    let writes = all_writes(callers);
    let cargo = MapCargo {
        cells,
        rows: options.rows,
        writes,
    };
    match Hall::make(
        alloc,
        cells,
        options.slots,
        options.policy,
        seats(callers),
        writes,
        cargo,
    ) {
        Ok(made) => Ok(made),
        Err(_) => Err(NoMemory),
    }
}

/// An empty ledger behind a lock of its own for these callers, as the options ask: it has a node for each caller, and
/// room for each query that asks it. The lock's pass has all nodes and all the quota.
pub fn open_ledger(
    alloc: Global,
    callers: &Callers,
    options: &Options,
) -> Result<(DistMutex<Ledger, LedgerJob>, DistPass<Ledger, LedgerJob>), NoMemory>
    requires crowd { length callers.now ≤ MOST_CALLERS }
    requires few { sum_by length callers.now ≤ MOST_QUERIES }
    ensures lock { IfOk result (λ t. IsLockFor callers.now options.now t.0) }
    ensures pass { IfOk result (λ t. IsDistPassOf t.0 t.1 × IsAtRest t.1) }
    ensures first { IfOk result (λ t. IsFirstOf (seats_for callers.now) (sum_by jobs_of callers.now) (dist_view t.1)) }
{
    let jobs = all_jobs(callers);
    let ledger = Ledger::make(alloc, options.rows, jobs)?;
    match DistMutex::make(alloc, seats(callers), jobs, options.combine, ledger) {
        Ok(made) => Ok(made),
        Err(_) => Err(NoMemory),
    }
}

// One seat for each caller, and one where there is no caller.
fn seats(callers: &Callers) -> u64
    ensures { result ≡ seats_for callers.now }
{
    callers.count().max(1)
}

// How many queries of all callers ask the ledger.
fn all_jobs(callers: &Callers) -> u64
    requires few { sum_by length callers.now ≤ MOST_QUERIES }
    ensures { result ≡ sum_by jobs_of callers.now }
{
    let mut jobs = 0;
    for caller in 0..callers.count() {
        jobs += callers.jobs(caller);
    }
    jobs
}

// How many queries of all callers may change a map.
fn all_writes(callers: &Callers) -> u64
    requires few { sum_by length callers.now ≤ MOST_QUERIES }
    ensures { result ≡ sum_by writes_of callers.now }
{
    let mut writes = 0;
    for caller in 0..callers.count() {
        writes += callers.writes(caller);
    }
    writes
}

/// How many queries there are in all.
pub fn count_queries(callers: &Callers) -> u64
    requires few { sum_by length callers.now ≤ MOST_QUERIES }
    ensures { result ≡ sum_by length callers.now }
{
    let mut queries = 0;
    for caller in 0..callers.count() {
        queries += callers.queries(caller).len() as u64;
    }
    queries
}
