//! The queries of a script, asked by a thread for each caller.
ghost use Rattle.std.specs.Prelude.{◌≡◌, sum_by, IfOk, OnErr};
ghost use Rattle.std.specs.List.{AllByRecursion};
ghost use Rattle.hall.specs.Passes.{view, IsPassOf, cargo_of};
ghost use Rattle.map_cargo.specs.Steps.{IsIdle};
ghost use Rattle.dist_mutex.specs.Passes.{IsAtRest, IsDistPassOf, dist_view};
ghost use Rattle.query_rules.specs.History.{IsHistory};
ghost use Rattle.query_rules.specs.Numbers.{IsReply};
ghost use Rattle.command_line.specs.Form.{IsWithinLimits};
ghost use Rattle.query_rules.specs.Maps.{writes_of};
ghost use Rattle.query_rules.specs.Ledger.{jobs_of};
ghost use Rattle.run_laws.specs.Callers.{IsWhole, seats_for};
ghost use Rattle.server_run.specs.Serve.{EndedAs};
ghost use Rattle.server_run.specs.Rooms.{HasCells, IsFirst, IsFirstOf, MayAsk};

use crate::ended::Ended;
use crate::halves::run_both;
use crate::reserved::push_reserved;
use crate::room::{open_hall, open_ledger};
use crate::seats::{gather, reserve_lists, seat};
use command_line::Options;
use dist_mutex::mutex::DistMutex;
use dist_mutex::pass::DistPass;
use hall::{Hall, Pass};
use map_cargo::{MapCargo, close};
use ql_base::{Clocks, Gate, NoMemory};
use query_log::{Ledger, LedgerJob};
use query_text::{Callers, Outcome, Script};
use std::alloc::Global;
use std::collections::VecDeque;
use std::sync::Wait;
use std::thread::Threads;

/// What a run gives: the replies to each caller, and what the closes of the hall and of the ledger's lock left.
#[derive(Drop)]
pub struct Ran {
    pub outcome: Outcome,
    pub ended: Ended,
}

/// Asks the queries of all callers, each in a thread of its own, with the gate around each query. Caller i asks by
/// passes of number i: they are split off the two that are given, and are taken in again behind the last query. So the
/// two passes tell exactly the replies of the outcome, each under its caller and its index.
///
/// All memory is taken before the first pass is split off. `NoMemory` comes only then, and leaves both passes as they
/// were. Where the system starts no more threads, a thread runs several callers one after the other. The call holds
/// what it promises if it returns.
pub fn run_callers<R: Threads + Wait + Sync, T: Clocks, G: Gate>(
    rt: &R,
    alloc: Global,
    hall: &Hall<MapCargo>,
    pass: &mut Pass<MapCargo>,
    dist: &DistMutex<Ledger, LedgerJob>,
    dist_pass: &mut DistPass<Ledger, LedgerJob>,
    script: &Script,
    clocks: &T,
    gate: &G,
) -> Result<Outcome, NoMemory>
    requires hall { HasCells hall.now × ((cargo_of hall.now).cells ≡ script.now.cells) }
    requires pass { IsPassOf hall.now pass.old × IsFirst (seats_for script.now.callers) (sum_by writes_of script.now.callers) (view pass.old) }
    requires dist { IsDistPassOf dist.now dist_pass.old × IsAtRest dist_pass.old × IsFirstOf (seats_for script.now.callers) (sum_by jobs_of script.now.callers) (dist_view dist_pass.old) }
    ensures pass { IsPassOf hall.now pass.new × IsIdle (view pass.new) }
    ensures dist { IsDistPassOf dist.now dist_pass.new × IsAtRest dist_pass.new }
    ensures whole { IfOk result (λ told. IsWhole (view pass.new) (dist_view dist_pass.new) script.now.callers told) }
    ensures nothing { OnErr result ((view pass.new ≡ view pass.old) × (dist_view dist_pass.new ≡ dist_view dist_pass.old)) }
{
    run_lists(
        rt,
        alloc,
        hall,
        pass,
        dist,
        dist_pass,
        script.callers(),
        clocks,
        gate,
    )
}

// The same, of callers that needn't be those of a script.
fn run_lists<R: Threads + Wait + Sync, T: Clocks, G: Gate>(
    rt: &R,
    alloc: Global,
    hall: &Hall<MapCargo>,
    pass: &mut Pass<MapCargo>,
    dist: &DistMutex<Ledger, LedgerJob>,
    dist_pass: &mut DistPass<Ledger, LedgerJob>,
    callers: &Callers,
    clocks: &T,
    gate: &G,
) -> Result<Outcome, NoMemory>
    requires may { MayAsk hall.now callers.now }
    requires pass { IsPassOf hall.now pass.old × IsFirst (seats_for callers.now) (sum_by writes_of callers.now) (view pass.old) }
    requires dist { IsDistPassOf dist.now dist_pass.old × IsAtRest dist_pass.old × IsFirstOf (seats_for callers.now) (sum_by jobs_of callers.now) (dist_view dist_pass.old) }
    ensures pass { IsPassOf hall.now pass.new × IsIdle (view pass.new) }
    ensures dist { IsDistPassOf dist.now dist_pass.new × IsAtRest dist_pass.new }
    ensures whole { IfOk result (λ told. IsWhole (view pass.new) (dist_view dist_pass.new) callers.now told) }
    ensures nothing { OnErr result ((view pass.new ≡ view pass.old) × (dist_view dist_pass.new ≡ dist_view dist_pass.old)) }
{
    if callers.count() == 0 {
        return Ok(Outcome::of(Vec::new(alloc)));
    }
    let mut replies = Vec::with_capacity(alloc, callers.queries(0).len())?;
    let lists = reserve_lists(alloc, callers)?;
    let mut seated = VecDeque::with_capacity(alloc, lists.len())?;
    let mut told = Vec::with_capacity(alloc, callers.count() as usize)?;
    seat(
        hall,
        pass,
        dist,
        dist_pass,
        callers,
        clocks,
        lists,
        &mut seated,
    );
    let mut seated = seated.into_vec();
    let mut clock = clocks.clock(0);
    run_both(
        rt,
        hall,
        pass,
        dist,
        dist_pass,
        &mut clock,
        gate,
        callers,
        &mut replies,
        &mut seated,
    );
    push_reserved(&mut told, replies);
    gather(hall, pass, dist, dist_pass, callers, seated, &mut told);
    Ok(Outcome::of(told))
}

/// Asks the queries of the script's callers, and calls the gate around each.
///
/// All memory is taken before the first query, so `NoMemory` comes only then: the hall with a seat for each caller and
/// a log row for each query that may write, the ledger behind its lock with a node for each caller and room for each
/// job, and what `run_callers` takes. The call holds what it promises if it returns.
pub fn run_script<R: Threads + Wait + Sync, T: Clocks, G: Gate>(
    rt: &R,
    alloc: Global,
    script: &Script,
    options: &Options,
    clocks: &T,
    gate: &G,
) -> Result<Ran, NoMemory>
    requires limits { IsWithinLimits options.now }
    ensures history { IfOk result (λ ran. IsHistory options.now.rows script.now.callers ran.outcome) }
    ensures numbers { IfOk result (λ ran. AllByRecursion (AllByRecursion IsReply) ran.outcome) }
    ensures ended { IfOk result (λ ran. EndedAs script.now options.now ran.outcome ran.ended) }
{
    let callers = script.callers();
    let (hall, mut pass) = open_hall(alloc, script.cells(), callers, options)?;
    let (dist, mut dist_pass) = open_ledger(alloc, callers, options)?;
    let told = run_callers(
        rt,
        alloc,
        &hall,
        &mut pass,
        &dist,
        &mut dist_pass,
        script,
        clocks,
        gate,
    );
    let closed = close(hall, pass);
    let (_ledger, retired) = dist.close(dist_pass);
    let outcome = told?;
    let ended = Ended {
        hall: Some(closed),
        dist: Some(retired),
    };
    Ok(Ran { outcome, ended })
}
