//! One caller of a script, who asks its queries.
ghost use Rattle.std.specs.Prelude.{◌≡◌, ◌<◌, ◌≤◌, ◌∷◌, ◌++◌, [], length, vec_capacity};
ghost use Rattle.std.specs.List.{AllByRecursion};
ghost use Rattle.hall.specs.Passes.{view, IsPassOf, cargo_of};
ghost use Rattle.query_rules.specs.Grammar.{TakesBelow};
ghost use Rattle.query_rules.specs.Numbers.{IsReply};
ghost use Rattle.map_cargo.specs.Steps.{IsIdle};
ghost use Rattle.dist_mutex.specs.Passes.{IsAtRest, IsDistPassOf, dist_view};
ghost use Rattle.query_rules.specs.Maps.{writes_of};
ghost use Rattle.query_rules.specs.Ledger.{jobs_of};
ghost use Rattle.run_laws.specs.Callers.{IsAsked};
ghost use Rattle.server_run.specs.Crowd.{IsDone, MayBegin};
ghost use Rattle.server_run.specs.Rooms.{HasCells, MayAsk};
ghost use Rattle.query_rules.specs.declared.query.TheConstants.{MOST_QUERIES};

use crate::reserved::push_reserved;
use crossbeam_utils::CachePadded;
use dist_mutex::mutex::DistMutex;
use dist_mutex::pass::DistPass;
use hall::{Hall, Pass};
use map_cargo::MapCargo;
use ql_base::{Clock, Gate};
use query_cells::ask;
use query_log::{Ledger, LedgerJob};
use query_text::{Callers, KeptReply, Query, Reply};
use std::sync::Wait;

/// What a caller asks with, and what it was told: its pass through the hall, its pass of the ledger's lock, its clock,
/// and the list of its replies, which is reserved for all of them.
#[derive(Drop)]
pub struct Caller<T> {
    pub pass: Pass<MapCargo>,
    pub dist_pass: DistPass<Ledger, LedgerJob>,
    pub clock: T,
    pub replies: Vec<KeptReply>,
    /// Keeps what one thread writes off the cache lines of its neighbour in a list of callers.
    pub apart: CachePadded<()>,
}

/// Asks these queries of one caller in their order, with the gate around each, and keeps the replies. The caller's
/// number is that of both passes. It takes no memory, and holds what it promises if it returns.
pub fn ask_all<R: Wait, T: Clock, G: Gate>(
    rt: &R,
    hall: &Hall<MapCargo>,
    pass: &mut Pass<MapCargo>,
    dist: &DistMutex<Ledger, LedgerJob>,
    dist_pass: &mut DistPass<Ledger, LedgerJob>,
    clock: &mut T,
    gate: &G,
    queries: &[Query],
    replies: &mut Vec<KeptReply>,
)
    requires pass { IsPassOf hall.now pass.old × IsIdle (view pass.old) }
    requires hall { HasCells hall.now }
    requires taken { AllByRecursion (TakesBelow (cargo_of hall.now).cells) queries.now }
    requires quota { writes_of queries.now ≤ (view pass.old).quota }
    requires dist { IsDistPassOf dist.now dist_pass.old × IsAtRest dist_pass.old }
    requires number { (dist_view dist_pass.old).number ≡ (view pass.old).number }
    requires jobs { jobs_of queries.now ≤ (dist_view dist_pass.old).quota }
    requires few { length queries.now ≤ MOST_QUERIES }
    requires room { (replies.old.items ≡ []) × (length queries.now ≤ vec_capacity replies.old) }
    ensures pass { IsPassOf hall.now pass.new × IsIdle (view pass.new) }
    ensures dist { IsDistPassOf dist.now dist_pass.new × IsAtRest dist_pass.new }
    ensures told { IsAsked (view pass.old) (dist_view dist_pass.old) queries.now replies.new.items (view pass.new) (dist_view dist_pass.new) }
{
    let caller = pass.number();
    let mut index = 0;
    let mut rest = queries;
    while let [query, after @ ..] = rest {
        gate.before(caller, index);
        let reply = ask(rt, hall, pass, dist, dist_pass, clock, index, query);
        gate.after(caller, index);
        keep_reply(replies, reply);
        index += 1;
        rest = after;
    }
}

// Adds a reply, whose numbers are those of a machine, to a list that has room left.
fn keep_reply(replies: &mut Vec<KeptReply>, reply: Reply)
    requires room { length replies.old.items < vec_capacity replies.old }
    ensures items { replies.new.items ≡ replies.old.items ++ reply ∷ [] }
    ensures room { vec_capacity replies.old ≤ vec_capacity replies.new }
    ensures numbers { IsReply reply }
{
    push_reserved(replies, KeptReply::of(reply));
}

/// Asks the queries of the caller of this number, by passes and with a list that are made for them.
pub fn ask_for<R: Wait, T: Clock, G: Gate>(
    rt: &R,
    hall: &Hall<MapCargo>,
    pass: &mut Pass<MapCargo>,
    dist: &DistMutex<Ledger, LedgerJob>,
    dist_pass: &mut DistPass<Ledger, LedgerJob>,
    clock: &mut T,
    gate: &G,
    callers: &Callers,
    number: u64,
    replies: &mut Vec<KeptReply>,
)
    requires may { MayAsk hall.now callers.now }
    requires number { number < length callers.now }
    requires begin { MayBegin hall.now dist.now callers.now number pass.old dist_pass.old replies.old }
    ensures { IsDone hall.now dist.now callers.now number pass.new dist_pass.new replies.new }
{
    let queries = callers.queries(number);
    ask_all(
        rt, hall, pass, dist, dist_pass, clock, gate, queries, replies,
    );
}

/// The same, by what the caller has.
pub fn ask_one<R: Wait, T: Clock, G: Gate>(
    rt: &R,
    hall: &Hall<MapCargo>,
    dist: &DistMutex<Ledger, LedgerJob>,
    gate: &G,
    callers: &Callers,
    number: u64,
    caller: &mut Caller<T>,
)
    requires may { MayAsk hall.now callers.now }
    requires number { number < length callers.now }
    requires begin { MayBegin hall.now dist.now callers.now number caller.old.pass caller.old.dist_pass caller.old.replies }
    ensures { IsDone hall.now dist.now callers.now number caller.new.pass caller.new.dist_pass caller.new.replies }
{
    ask_for(
        rt,
        hall,
        &mut caller.pass,
        dist,
        &mut caller.dist_pass,
        &mut caller.clock,
        gate,
        callers,
        number,
        &mut caller.replies,
    );
}
