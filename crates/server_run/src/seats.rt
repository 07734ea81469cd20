//! The callers' passes: how they are split off the first ones, and how these take them in again.
ghost use Rattle.std.specs.Prelude.{◌≡◌, ◌+◌, ◌<◌, ◌≤◌, ℕ, [], length, map, sum_by, take, get_or, vec_len, vec_capacity, IfOk};
ghost use Rattle.std.specs.VecDeque.{deque_len, deque_capacity};
ghost use Rattle.hall.specs.Passes.{view, IsPassOf};
ghost use Rattle.hall.specs.Views.{joined_view};
ghost use Rattle.map_cargo.specs.History.{joined_part};
ghost use Rattle.map_cargo.specs.Steps.{IsIdle};
ghost use Rattle.waiter_chain.specs.Chains.{covers};
ghost use Rattle.waiter_chain.specs.Steps.{joined};
ghost use Rattle.dist_mutex.specs.Passes.{IsAtRest, IsDistPassOf, dist_view};
ghost use Rattle.query_rules.specs.Maps.{writes_of};
ghost use Rattle.query_rules.specs.Ledger.{jobs_of};
ghost use Rattle.run_laws.specs.Callers.{IsTaken};
ghost use Rattle.server_run.specs.Crowd.{AllDone, AllReady, AllRoomy, MayBegin};
ghost use Rattle.server_run.specs.Rooms.{IsFirst, IsFirstOf};

use crate::caller::Caller;
use crate::reserved::push_reserved;
use crossbeam_utils::CachePadded;
use dist_mutex::mutex::DistMutex;
use dist_mutex::pass::DistPass;
use hall::{Hall, Pass};
use map_cargo::MapCargo;
use ql_base::{Clock, Clocks, NoMemory};
use query_log::{Ledger, LedgerJob};
use query_text::{Callers, KeptReply};
use std::alloc::Global;
use std::collections::VecDeque;

/// Lists for the replies to each caller but the first, with room for all of them.
pub fn reserve_lists(alloc: Global, callers: &Callers) -> Result<Vec<Vec<KeptReply>>, NoMemory>
    requires some { 0 < length callers.now }
    ensures room { IfOk result (λ v. AllRoomy callers.now 1 v.items) }
    ensures len { IfOk result (λ v. vec_len v + 1 ≡ length callers.now) }
{
    let mut lists = Vec::new(alloc);
    for caller in 1..callers.count() {
        lists.push(Vec::with_capacity(alloc, callers.queries(caller).len())?)?;
    }
    Ok(lists)
}

/// Gives each caller but the first passes of its number, with the quotas for its queries, a clock, and one of the
/// lists. The first caller keeps the passes that the others' are split off.
pub fn seat<T: Clocks>(
    hall: &Hall<MapCargo>,
    pass: &mut Pass<MapCargo>,
    dist: &DistMutex<Ledger, LedgerJob>,
    dist_pass: &mut DistPass<Ledger, LedgerJob>,
    callers: &Callers,
    clocks: &T,
    lists: Vec<Vec<KeptReply>>,
    seated: &mut VecDeque<Caller<T::Clock>>,
)
    requires hall { IsPassOf hall.now pass.old × IsFirst (length callers.now) (sum_by writes_of callers.now) (view pass.old) }
    requires dist { IsDistPassOf dist.now dist_pass.old × IsAtRest dist_pass.old × IsFirstOf (length callers.now) (sum_by jobs_of callers.now) (dist_view dist_pass.old) }
    requires lists { AllRoomy callers.now 1 lists.items × (vec_len lists + 1 ≡ length callers.now) }
    requires none { seated.old.items ≡ [] }
    requires room { vec_len lists ≤ deque_capacity seated.old }
    ensures hall { IsPassOf hall.now pass.new × IsFirst 1 (sum_by writes_of (take 1 callers.now)) (view pass.new) }
    ensures dist { IsDistPassOf dist.now dist_pass.new × IsAtRest dist_pass.new × IsFirstOf 1 (sum_by jobs_of (take 1 callers.now)) (dist_view dist_pass.new) }
    ensures ready { AllReady hall.now dist.now callers.now 1 seated.new.items }
    ensures len { deque_len seated.new + 1 ≡ length callers.now }
{
    let mut lists = lists;
    let mut number = callers.count();
    while let Some(replies) = lists.pop() {
        number -= 1;
        let caller = seat_one(
            hall, pass, dist, dist_pass, callers, clocks, number, replies,
        );
        let pushed = seated.push_front(caller);
        prove!(pushed.is_ok());
    }
}

// Gives the caller of the last number that is left its passes.
fn seat_one<T: Clocks>(
    hall: &Hall<MapCargo>,
    pass: &mut Pass<MapCargo>,
    dist: &DistMutex<Ledger, LedgerJob>,
    dist_pass: &mut DistPass<Ledger, LedgerJob>,
    callers: &Callers,
    clocks: &T,
    number: u64,
    replies: Vec<KeptReply>,
) -> Caller<T::Clock>
    requires number { (0 < number) × (number < length callers.now) }
    requires hall { IsPassOf hall.now pass.old × IsFirst (number + 1) (sum_by writes_of (take (number + 1) callers.now)) (view pass.old) }
    requires dist { IsDistPassOf dist.now dist_pass.old × IsAtRest dist_pass.old × IsFirstOf (number + 1) (sum_by jobs_of (take (number + 1) callers.now)) (dist_view dist_pass.old) }
    requires room { (replies.items ≡ []) × (length (get_or callers.now number []) ≤ vec_capacity replies) }
    ensures hall { IsPassOf hall.now pass.new × IsFirst number (sum_by writes_of (take number callers.now)) (view pass.new) }
    ensures dist { IsDistPassOf dist.now dist_pass.new × IsAtRest dist_pass.new × IsFirstOf number (sum_by jobs_of (take number callers.now)) (dist_view dist_pass.new) }
    ensures begin { MayBegin hall.now dist.now callers.now number result.pass result.dist_pass result.replies }
{
    let own = hall.split(pass, 1, callers.writes(number));
    let dist_own = dist.split(dist_pass, 1, callers.jobs(number));
    Caller {
        pass: own,
        dist_pass: dist_own,
        clock: clocks.clock(number),
        replies,
        apart: CachePadded::new(()),
    }
}

/// Takes the passes of all callers but the first in, by their numbers, and adds their replies to the list that has the
/// first caller's.
pub fn gather<T: Clock + Drop>(
    hall: &Hall<MapCargo>,
    pass: &mut Pass<MapCargo>,
    dist: &DistMutex<Ledger, LedgerJob>,
    dist_pass: &mut DistPass<Ledger, LedgerJob>,
    callers: &Callers,
    seated: Vec<Caller<T>>,
    told: &mut Vec<Vec<KeptReply>>,
)
    requires own { IsPassOf hall.now pass.old × IsIdle (view pass.old) × IsDistPassOf dist.now dist_pass.old × IsAtRest dist_pass.old }
    requires taken { IsTaken (view pass.old) (dist_view dist_pass.old) callers.now (map (λ v. v.items) told.old.items) }
    requires done { AllDone hall.now dist.now callers.now (vec_len told.old) seated.items }
    requires len { vec_len told.old + vec_len seated ≡ length callers.now }
    requires room { length callers.now ≤ vec_capacity told.old }
    ensures own { IsPassOf hall.now pass.new × IsIdle (view pass.new) × IsDistPassOf dist.now dist_pass.new × IsAtRest dist_pass.new }
    ensures taken { IsTaken (view pass.new) (dist_view dist_pass.new) callers.now (map (λ v. v.items) told.new.items) }
    ensures len { vec_len told.new ≡ length callers.now }
{
    let mut seated = VecDeque::from(seated);
    while let Some(caller) = seated.pop_front() {
        let replies = take_in(hall, pass, dist, dist_pass, caller);
        push_reserved(told, replies);
    }
}

// Takes one caller's passes in, and its replies out.
fn take_in<T: Clock + Drop>(
    hall: &Hall<MapCargo>,
    pass: &mut Pass<MapCargo>,
    dist: &DistMutex<Ledger, LedgerJob>,
    dist_pass: &mut DistPass<Ledger, LedgerJob>,
    caller: Caller<T>,
) -> Vec<KeptReply>
    requires own { IsPassOf hall.now pass.old × IsIdle (view pass.old) × IsDistPassOf dist.now dist_pass.old × IsAtRest dist_pass.old }
    requires other { IsPassOf hall.now caller.pass × IsIdle (view caller.pass) × IsDistPassOf dist.now caller.dist_pass × IsAtRest caller.dist_pass }
    ensures own { IsPassOf hall.now pass.new × IsIdle (view pass.new) × IsDistPassOf dist.now dist_pass.new × IsAtRest dist_pass.new }
    ensures hall { view pass.new ≡ joined_view (joined_part (view pass.old).part (view caller.pass).part) (view pass.old) (view caller.pass) }
    ensures dist { dist_view dist_pass.new ≡ joined (dist_view dist_pass.old) (dist_view caller.dist_pass) }
    ensures covers { (n : ℕ) → covers n (dist_view dist_pass.new) ≡ covers n (dist_view dist_pass.old) + covers n (dist_view caller.dist_pass) }
    ensures replies { result ≡ caller.replies }
{
    let Caller {
        pass: own,
        dist_pass: dist_own,
        clock: _,
        replies,
        apart: _,
    } = caller;
    hall.join(pass, own);
    dist.join(dist_pass, dist_own);
    replies
}
