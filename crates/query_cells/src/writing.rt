//! Queries that may write one cell, from the lock to its release.
ghost use Rattle.std.specs.Prelude.{◌≡◌, ◌<◌, ◌≤◌, MatchResult, ⊤, true, false};
ghost use Rattle.hall.specs.Passes.{view, IsPassOf, shape_of, cargo_of};
ghost use Rattle.hall.specs.Treading.{IsAt, Treads};
ghost use Rattle.hall.specs.Views.{standing};
ghost use Rattle.hall.specs.declared.view.Standing.TheVariants.{Away, Exclusive};
ghost use Rattle.query_rules.specs.declared.query.Reply.{Reply};
ghost use Rattle.map_cargo.specs.History.{plain_of, IsSettled, IsRested};
ghost use Rattle.map_cargo.specs.Steps.{Suits, IsIdle, Left};
ghost use Rattle.shared_mutex.specs.Acquiring.{ElsewhereSame};
ghost use Rattle.shared_mutex.specs.Tries.{AddsSteps};
ghost use Rattle.sync_cell.specs.Gains.{IsQuiet};
ghost use Rattle.query_cells.specs.Asked.{AsksClock, GoesByTries, IsForced, IsLateBy, MayTread, OnlyTried, TakesInOrder, WasRefused, is_granted, is_job};
ghost use Rattle.query_cells.specs.Answers.{HasExpected, LeadsBack, OnlyAt, Tells, Took, TurnedAway, cell_of, changes_cell, compares, writes_cell};

use crate::attempts::{try_to_write, write_until};
use crate::changes::{change, compare};
use crate::holding::{
    go_on_to_write, hold_for_upgrade, hold_for_writing, leave_lowered, leave_writing,
};
use crate::telling::{answer_upgraded, refuse, tell};
use hall::{Hall, Pass};
use map_cargo::MapCargo;
use ql_base::Clock;
use query_rules::{Query, Reply};
use std::sync::Wait;
use sync_cell::WritePtr;

/// Answers a query that writes one cell, or says why it can't. It takes the cell for writing, by waiting, by tries or
/// until the query's deadline, and it looks at up to all rows of the cell.
pub(crate) fn ask_writing<R: Wait, T: Clock>(
    rt: &R,
    hall: &Hall<MapCargo>,
    pass: &mut Pass<MapCargo>,
    clock: &mut T,
    index: u64,
    query: &Query,
) -> Reply
    requires pass { IsPassOf hall.now pass.old × Suits hall.now }
    requires asks { writes_cell query.now ≡ true }
    requires cell { (cell_of query.now < (cargo_of hall.now).cells) × (cell_of query.now < (shape_of hall.now).locks) }
    requires idle { IsIdle (view pass.old) }
    requires quota { 1 ≤ (view pass.old).quota }
    ensures pass { IsPassOf hall.now pass.new }
    ensures idle { IsIdle (view pass.new) }
    ensures trail { Treads (MayTread query.now) (view pass.old) (view pass.new) }
    ensures order { TakesInOrder query.now (view pass.old) (view pass.new) }
    ensures tells { Tells (cargo_of hall.now) (view pass.old) (view pass.new) index query.now result }
    ensures forced { IsForced query.now result (view pass.old) (view pass.new) }
    ensures refused { OnlyTried query.now result (view pass.old) (view pass.new) }
    ensures tries { GoesByTries query.now result (view pass.old) (view pass.new) }
    ensures late { IsLateBy query.now (T.last clock.new) result }
    ensures clock { AsksClock T.last T.answers clock.old clock.new query.now result }
{
    match hold_to_write(rt, hall, pass, clock, query) {
        Ok(ptr) => answer_write(hall, pass, ptr, index, query),
        Err(reply) => refuse(hall, pass, index, query, reply),
    }
}

// Takes the query's cell for writing, in the way that the query asks for; or says how the query was refused.
fn hold_to_write<R: Wait, T: Clock>(
    rt: &R,
    hall: &Hall<MapCargo>,
    pass: &mut Pass<MapCargo>,
    clock: &mut T,
    query: &Query,
) -> Result<WritePtr, Reply>
    requires pass { IsPassOf hall.now pass.old }
    requires asks { writes_cell query.now ≡ true }
    requires cell { cell_of query.now < (shape_of hall.now).locks }
    requires away { standing (view pass.old) (cell_of query.now) ≡ Away }
    ensures pass { IsPassOf hall.now pass.new }
    ensures trail { Treads (IsAt (cell_of query.now)) (view pass.old) (view pass.new) }
    ensures taken { MatchResult result (λ ptr. (ptr.guard.lock ≡ cell_of query.now) × Took (cell_of query.now) Exclusive (view pass.old) (view pass.new)) (λ _. TurnedAway (cell_of query.now) (view pass.old) (view pass.new)) }
    ensures tries { MatchResult result (λ _. (reply : Reply) → GoesByTries query.now reply (view pass.old) (view pass.new)) (λ _. ⊤) }
    ensures refused { MatchResult result (λ _. ⊤) (λ reply. (is_granted reply ≡ false) × WasRefused query.now reply (view pass.old) (view pass.new)) }
    ensures late { MatchResult result (λ _. ⊤) (λ reply. IsLateBy query.now (T.last clock.new) reply) }
    ensures clock { MatchResult result (λ _. (reply : Reply) → is_granted reply ≡ true → is_job reply ≡ false → AsksClock T.last T.answers clock.old clock.new query.now reply) (λ reply. AsksClock T.last T.answers clock.old clock.new query.now reply) }
{
    match *query {
        Query::Put { cell, .. }
        | Query::Del { cell, .. }
        | Query::Add { cell, .. }
        | Query::PutLen { cell, .. } => Ok(hold_for_writing(rt, hall, pass, cell)),
        Query::TryPut { cell, .. } => match try_to_write(rt, hall, pass, cell) {
            Some(ptr) => Ok(ptr),
            None => Err(Reply::Busy),
        },
        Query::PutBy { cell, deadline, .. } => {
            match write_until(rt, hall, pass, cell, clock, deadline) {
                Ok(ptr) => Ok(ptr),
                Err(now) => Err(Reply::Late { now }),
            }
        }
        _ => unreachable!(),
    }
}

/// Answers a query that gives a key a new value where it has the expected one. It looks in upgrade mode, beside
/// readers, and goes on to write only where it found what it expects; nobody else can write in between.
pub(crate) fn ask_comparing<R: Wait>(
    rt: &R,
    hall: &Hall<MapCargo>,
    pass: &mut Pass<MapCargo>,
    index: u64,
    query: &Query,
) -> Reply
    requires pass { IsPassOf hall.now pass.old × Suits hall.now }
    requires asks { compares query.now ≡ true }
    requires cell { (cell_of query.now < (cargo_of hall.now).cells) × (cell_of query.now < (shape_of hall.now).locks) }
    requires idle { IsIdle (view pass.old) }
    requires quota { 1 ≤ (view pass.old).quota }
    ensures pass { IsPassOf hall.now pass.new }
    ensures idle { IsIdle (view pass.new) }
    ensures tells { Tells (cargo_of hall.now) (view pass.old) (view pass.new) index query.now result }
    ensures granted { is_granted result ≡ true }
    ensures trail { Treads (MayTread query.now) (view pass.old) (view pass.new) }
    ensures order { TakesInOrder query.now (view pass.old) (view pass.new) }
{
    let Query::Cas { cell, .. } = *query else {
        unreachable!()
    };
    let ptr = hold_for_upgrade(rt, hall, pass, cell);
    match compare(hall, pass, query) {
        Ok(()) => {
            let ptr = go_on_to_write(rt, hall, pass, ptr);
            answer_write(hall, pass, ptr, index, query)
        }
        Err(said) => answer_upgraded(hall, pass, ptr, index, query, said),
    }
}

// Changes the one cell that the pass holds, for writing, tells what the plain maps say, and gives the cell back.
fn answer_write(
    hall: &Hall<MapCargo>,
    pass: &mut Pass<MapCargo>,
    ptr: WritePtr,
    index: u64,
    query: &Query,
) -> Reply
    requires pass { IsPassOf hall.now pass.old × Suits hall.now }
    requires asks { changes_cell query.now ≡ true }
    requires at { ptr.guard.lock ≡ cell_of query.now }
    requires cell { (cell_of query.now < (cargo_of hall.now).cells) × (cell_of query.now < (shape_of hall.now).locks) }
    requires held { standing (view pass.old) ptr.guard.lock ≡ Exclusive }
    requires only { OnlyAt (cell_of query.now) (view pass.old) }
    requires settled { IsSettled (cell_of query.now) (view pass.old).part }
    requires rested { IsRested (view pass.old).part }
    requires quota { 1 ≤ (view pass.old).quota }
    requires expected { HasExpected query.now (plain_of (view pass.old).part) }
    ensures pass { IsPassOf hall.now pass.new }
    ensures idle { IsIdle (view pass.new) }
    ensures tells { Tells (cargo_of hall.now) (view pass.old) (view pass.new) index query.now result }
    ensures granted { is_granted result ≡ true }
    ensures trail { Treads (IsAt (cell_of query.now)) (view pass.old) (view pass.new) }
    ensures quiet { AddsSteps IsQuiet (view pass.old) (view pass.new) }
{
    let said = change(hall, pass, query);
    let reply = tell(hall, pass, index, query, said);
    give_back(hall, pass, ptr, query);
    reply
}

// Gives a cell back that was held for writing. A query that counts the keys lets readers in by a step of its own before.
fn give_back(hall: &Hall<MapCargo>, pass: &mut Pass<MapCargo>, ptr: WritePtr, query: &Query)
    requires pass { IsPassOf hall.now pass.old }
    requires cell { ptr.guard.lock < (shape_of hall.now).locks }
    requires held { standing (view pass.old) ptr.guard.lock ≡ Exclusive }
    requires settled { IsSettled ptr.guard.lock (view pass.old).part }
    ensures pass { IsPassOf hall.now pass.new }
    ensures away { standing (view pass.new) ptr.guard.lock ≡ Away }
    ensures elsewhere { ElsewhereSame (view pass.old) (view pass.new) ptr.guard.lock }
    ensures left { Left (view pass.old) (view pass.new) }
    ensures back { LeadsBack (cargo_of hall.now) (view pass.old) (view pass.new) }
    ensures trail { Treads (IsAt ptr.guard.lock) (view pass.old) (view pass.new) }
    ensures quiet { AddsSteps IsQuiet (view pass.old) (view pass.new) }
{
    match *query {
        Query::PutLen { .. } => leave_lowered(hall, pass, ptr),
        _ => leave_writing(hall, pass, ptr),
    }
}
