//! The callers side by side, each in a thread of its own.
ghost use Rattle.std.specs.Prelude.{◌+◌, ◌<◌, ◌≤◌, length};
ghost use Rattle.std.specs.Thread.{IsSync};
ghost use denote.Param.Send.{IsSend};
ghost use Rattle.server_run.specs.Crowd.{AllDone, AllReady, IsDone, MayBegin};
ghost use Rattle.server_run.specs.Rooms.{MayAsk};

use crate::caller::{Caller, ask_for, ask_one};
use dist_mutex::mutex::DistMutex;
use dist_mutex::pass::DistPass;
use hall::{Hall, Pass};
use map_cargo::MapCargo;
use ql_base::{Clock, Gate};
use query_log::{Ledger, LedgerJob};
use query_text::{Callers, KeptReply};
use std::sync::Wait;
use std::thread::{Threads, join_mut};

/// Lets these callers ask side by side, by halves of halves. The first of them has this number. It holds what it
/// promises if it returns.
#[cycle(seats)]
pub fn run_all<R: Threads + Wait + Sync, T: Clock, G: Gate>(
    rt: &R,
    hall: &Hall<MapCargo>,
    dist: &DistMutex<Ledger, LedgerJob>,
    gate: &G,
    callers: &Callers,
    first: u64,
    seated: &mut [Caller<T>],
)
    requires may { MayAsk hall.now callers.now }
    requires number { first + length seated.old ≤ length callers.now }
    requires ready { AllReady hall.now dist.now callers.now first seated.old }
    ensures { AllDone hall.now dist.now callers.now first seated.new }
{
    if seated.is_empty() {
        return;
    }
    if seated.len() == 1 {
        ask_one(rt, hall, dist, gate, callers, first, &mut seated[0]);
        return;
    }
    let mid = seated.len() / 2;
    let (front, back) = seated.split_at_mut(mid);
    run_halves(
        rt,
        hall,
        dist,
        gate,
        callers,
        first,
        front,
        first + mid as u64,
        back,
    );
}

// A function of its own, so that what the closures require is what this one is given.
#[cycle(seats)]
fn run_halves<R: Threads + Wait + Sync, T: Clock, G: Gate>(
    rt: &R,
    hall: &Hall<MapCargo>,
    dist: &DistMutex<Ledger, LedgerJob>,
    gate: &G,
    callers: &Callers,
    first: u64,
    front: &mut [Caller<T>],
    next: u64,
    back: &mut [Caller<T>],
)
    requires may { MayAsk hall.now callers.now }
    requires some { (0 < length front.old) × (0 < length back.old) }
    requires number { (first + length front.old ≤ length callers.now) × (next + length back.old ≤ length callers.now) }
    requires front { AllReady hall.now dist.now callers.now first front.old }
    requires back { AllReady hall.now dist.now callers.now next back.old }
    ensures front { AllDone hall.now dist.now callers.now first front.new }
    ensures back { AllDone hall.now dist.now callers.now next back.new }
{
    let mut one = ||
        requires { IsSync R.row × IsSync G.row × IsSend T.row × MayAsk hall.now callers.now × (first + length front.now ≤ length callers.now) × AllReady hall.now dist.now callers.now first front.now }
        ensures { AllDone hall.entry.now dist.entry.now callers.entry.now first front.exit.now }
    { run_all(rt, hall, dist, gate, callers, first, front) };
    let mut other = ||
        requires { IsSync R.row × IsSync G.row × IsSend T.row × MayAsk hall.now callers.now × (next + length back.now ≤ length callers.now) × AllReady hall.now dist.now callers.now next back.now }
        ensures { AllDone hall.entry.now dist.entry.now callers.entry.now next back.exit.now }
    { run_all(rt, hall, dist, gate, callers, next, back) };
    join_mut(rt, &mut one, &mut other);
}

/// Lets the first caller ask by passes that are lent, beside all others. Where there are no others it starts no thread.
pub fn run_both<R: Threads + Wait + Sync, T: Clock, G: Gate>(
    rt: &R,
    hall: &Hall<MapCargo>,
    pass: &mut Pass<MapCargo>,
    dist: &DistMutex<Ledger, LedgerJob>,
    dist_pass: &mut DistPass<Ledger, LedgerJob>,
    clock: &mut T,
    gate: &G,
    callers: &Callers,
    replies: &mut Vec<KeptReply>,
    others: &mut [Caller<T>],
)
    requires may { MayAsk hall.now callers.now }
    requires some { 0 < length callers.now }
    requires begin { MayBegin hall.now dist.now callers.now 0 pass.old dist_pass.old replies.old }
    requires number { 1 + length others.old ≤ length callers.now }
    requires ready { AllReady hall.now dist.now callers.now 1 others.old }
    ensures told { IsDone hall.now dist.now callers.now 0 pass.new dist_pass.new replies.new }
    ensures done { AllDone hall.now dist.now callers.now 1 others.new }
{
    if others.is_empty() {
        ask_for(
            rt, hall, pass, dist, dist_pass, clock, gate, callers, 0, replies,
        );
        return;
    }
    join_mut(
        rt,
        &mut ||
            requires { IsSync R.row × IsSync G.row × IsSend T.row × MayAsk hall.now callers.now × (1 + length others.now ≤ length callers.now) × AllReady hall.now dist.now callers.now 1 others.now }
            ensures { AllDone hall.entry.now dist.entry.now callers.entry.now 1 others.exit.now }
        { run_all(rt, hall, dist, gate, callers, 1, others) },
        &mut ||
            requires { MayAsk hall.now callers.now × (0 < length callers.now) × MayBegin hall.now dist.now callers.now 0 pass.now dist_pass.now replies.now }
            ensures { IsDone hall.entry.now dist.entry.now callers.entry.now 0 pass.exit.now dist_pass.exit.now replies.exit.now }
        {
            ask_for(
                rt, hall, pass, dist, dist_pass, clock, gate, callers, 0, replies,
            )
        },
    );
}
