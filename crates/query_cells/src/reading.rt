//! Queries that read one cell, from the lock to its release.
ghost use Rattle.std.specs.Prelude.{◌≡◌, ◌≢◌, ◌<◌, MatchResult, None, Some, ⊤, true, false};
ghost use Rattle.hall.specs.Fitting.{SharedFits, stands_by};
ghost use Rattle.hall.specs.Passes.{view, IsPassOf, shape_of, cargo_of};
ghost use Rattle.hall.specs.Slotting.{HasNonePending};
ghost use Rattle.hall.specs.Treading.{IsWeakAt, Treads};
ghost use Rattle.hall.specs.Views.{standing, mode_of};
ghost use Rattle.hall.specs.declared.view.Standing.TheVariants.{Away};
ghost use Rattle.query_rules.specs.declared.query.Reply.{Reply};
ghost use Rattle.query_rules.specs.Maps.{is_write, reply_of};
ghost use Rattle.map_cargo.specs.History.{plain_of, IsSettled, IsRested};
ghost use Rattle.map_cargo.specs.Steps.{Suits, Alike, IsIdle};
ghost use Rattle.shared_mutex.specs.Tries.{AddsSteps};
ghost use Rattle.sync_cell.specs.Gains.{IsQuiet};
ghost use Rattle.query_cells.specs.Asked.{AsksClock, GoesByTries, IsForced, IsLateBy, MayTread, OnlyTried, TakesInOrder, WasRefused, is_granted, is_job};
ghost use Rattle.query_cells.specs.Answers.{OnlyAt, Tells, Took, TurnedAway, cell_of, reads_cell};

use crate::attempts::{read_until, try_to_read};
use crate::holding::{hold_for_reading, leave_reading};
use crate::telling::{refuse, tell_read};
use hall::{Hall, Pass};
use map_cargo::{MapCargo, get, len};
use ql_base::Clock;
use query_rules::{Query, Reply, Said};
use std::sync::Wait;
use sync_cell::ReadPtr;

/// Answers a query that reads one cell. It takes the cell for reading, by waiting, by tries or until the query's
/// deadline, and it looks at up to all rows of the cell.
pub(crate) fn ask_reading<R: Wait, T: Clock>(
    rt: &R,
    hall: &Hall<MapCargo>,
    pass: &mut Pass<MapCargo>,
    clock: &mut T,
    index: u64,
    query: &Query,
) -> Reply
    requires pass { IsPassOf hall.now pass.old × Suits hall.now }
    requires asks { reads_cell query.now ≡ true }
    requires cell { (cell_of query.now < (cargo_of hall.now).cells) × (cell_of query.now < (shape_of hall.now).locks) }
    requires idle { IsIdle (view pass.old) }
    ensures pass { IsPassOf hall.now pass.new }
    ensures idle { IsIdle (view pass.new) }
    ensures trail { Treads (MayTread query.now) (view pass.old) (view pass.new) }
    ensures order { TakesInOrder query.now (view pass.old) (view pass.new) }
    ensures tells { Tells (cargo_of hall.now) (view pass.old) (view pass.new) index query.now result }
    ensures forced { IsForced query.now result (view pass.old) (view pass.new) }
    ensures refused { OnlyTried query.now result (view pass.old) (view pass.new) }
    ensures tries { GoesByTries query.now result (view pass.old) (view pass.new) }
    ensures late { IsLateBy query.now (T.last clock.new) result }
    ensures clock { AsksClock T.last T.answers clock.old clock.new query.now result }
{
    match hold_to_read(rt, hall, pass, clock, query) {
        Ok(ptr) => answer_read(hall, pass, ptr, index, query),
        Err(reply) => refuse(hall, pass, index, query, reply),
    }
}

// Takes the query's cell for reading, in the way that the query asks for; or says how the query was refused.
fn hold_to_read<R: Wait, T: Clock>(
    rt: &R,
    hall: &Hall<MapCargo>,
    pass: &mut Pass<MapCargo>,
    clock: &mut T,
    query: &Query,
) -> Result<ReadPtr, Reply>
    requires pass { IsPassOf hall.now pass.old }
    requires asks { reads_cell query.now ≡ true }
    requires cell { cell_of query.now < (shape_of hall.now).locks }
    requires away { standing (view pass.old) (cell_of query.now) ≡ Away }
    requires clear { HasNonePending (view pass.old) }
    ensures pass { IsPassOf hall.now pass.new }
    ensures trail { Treads (IsWeakAt (cell_of query.now)) (view pass.old) (view pass.new) }
    ensures taken { MatchResult result (λ ptr. (ptr.guard.lock ≡ cell_of query.now) × Took (cell_of query.now) (stands_by ptr.guard.form) (view pass.old) (view pass.new)) (λ _. TurnedAway (cell_of query.now) (view pass.old) (view pass.new)) }
    ensures fits { MatchResult result (λ ptr. SharedFits (shape_of hall.now) (view pass.new) ptr.guard) (λ _. ⊤) }
    ensures tries { MatchResult result (λ _. (reply : Reply) → GoesByTries query.now reply (view pass.old) (view pass.new)) (λ _. ⊤) }
    ensures refused { MatchResult result (λ _. ⊤) (λ reply. (is_granted reply ≡ false) × WasRefused query.now reply (view pass.old) (view pass.new)) }
    ensures late { MatchResult result (λ _. ⊤) (λ reply. IsLateBy query.now (T.last clock.new) reply) }
    ensures clock { MatchResult result (λ _. (reply : Reply) → is_granted reply ≡ true → is_job reply ≡ false → AsksClock T.last T.answers clock.old clock.new query.now reply) (λ reply. AsksClock T.last T.answers clock.old clock.new query.now reply) }
{
    match *query {
        Query::Get { cell, .. } | Query::Len { cell } => Ok(hold_for_reading(rt, hall, pass, cell)),
        Query::TryGet { cell, .. } => match try_to_read(rt, hall, pass, cell) {
            Some(ptr) => Ok(ptr),
            None => Err(Reply::Busy),
        },
        Query::GetBy { cell, deadline, .. } => {
            match read_until(rt, hall, pass, cell, clock, deadline) {
                Ok(ptr) => Ok(ptr),
                Err(now) => Err(Reply::Late { now }),
            }
        }
        _ => unreachable!(),
    }
}

// Tells what the query reads in the one cell that the pass holds, for reading, and gives the cell back.
fn answer_read(
    hall: &Hall<MapCargo>,
    pass: &mut Pass<MapCargo>,
    ptr: ReadPtr,
    index: u64,
    query: &Query,
) -> Reply
    requires pass { IsPassOf hall.now pass.old × Suits hall.now }
    requires asks { reads_cell query.now ≡ true }
    requires at { ptr.guard.lock ≡ cell_of query.now }
    requires cell { (cell_of query.now < (cargo_of hall.now).cells) × (cell_of query.now < (shape_of hall.now).locks) }
    requires fits { SharedFits (shape_of hall.now) (view pass.old) ptr.guard }
    requires only { OnlyAt (cell_of query.now) (view pass.old) }
    requires settled { IsSettled (cell_of query.now) (view pass.old).part }
    requires rested { IsRested (view pass.old).part }
    ensures pass { IsPassOf hall.now pass.new }
    ensures idle { IsIdle (view pass.new) }
    ensures tells { Tells (cargo_of hall.now) (view pass.old) (view pass.new) index query.now result }
    ensures granted { is_granted result ≡ true }
    ensures trail { Treads (IsWeakAt (cell_of query.now)) (view pass.old) (view pass.new) }
    ensures quiet { AddsSteps IsQuiet (view pass.old) (view pass.new) }
{
    let said = look(hall, pass, query);
    let reply = tell_read(hall, pass, index, query, said);
    leave_reading(hall, pass, ptr);
    reply
}

// What the plain maps say to a query that reads the one cell that the pass holds.
#[tactic(auto, using(crate::proofs::Quiet::quiet_inside))]
fn look(hall: &Hall<MapCargo>, pass: &mut Pass<MapCargo>, query: &Query) -> Said
    requires pass { IsPassOf hall.now pass.old × Suits hall.now }
    requires asks { reads_cell query.now ≡ true }
    requires cell { cell_of query.now < (cargo_of hall.now).cells }
    requires held { mode_of (standing (view pass.old) (cell_of query.now)) ≢ None }
    requires settled { IsSettled (cell_of query.now) (view pass.old).part }
    ensures pass { IsPassOf hall.now pass.new × Alike (view pass.old) (view pass.new) }
    ensures part { (view pass.new).part ≡ (view pass.old).part }
    ensures quiet { AddsSteps IsQuiet (view pass.old) (view pass.new) }
    ensures says { reply_of (cargo_of hall.now).rows (plain_of (view pass.old).part) query.now ≡ Some result }
    ensures reads { is_write result ≡ false }
{
    match *query {
        Query::Len { cell } => Said::Count(len(hall, pass, cell)),
        Query::Get { cell, key } | Query::TryGet { cell, key } | Query::GetBy { cell, key, .. } =>
            match get(hall, pass, cell, key) {
                Some(value) => Said::Found(value),
                None => Said::Absent,
            },
        _ => unreachable!(),
    }
}
