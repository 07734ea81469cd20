//! Asking one query, of whatever kind.
ghost use Rattle.std.specs.Prelude.{◌≡◌, ◌+◌, ◌≤◌, true, MatchBool};
ghost use Rattle.hall.specs.Passes.{view, IsPassOf, shape_of, cargo_of};
ghost use Rattle.hall.specs.Treading.{Treads};
ghost use Rattle.query_rules.specs.Grammar.{TakesBelow};
ghost use Rattle.query_rules.specs.History.{IsKindFor, asks_ledger};
ghost use Rattle.query_rules.specs.Maps.{may_write};
ghost use Rattle.map_cargo.specs.Steps.{Suits, IsIdle};
ghost use Rattle.dist_mutex.specs.Passes.{IsAtRest, IsDistPassOf, SameNumbers, dist_view};
ghost use Rattle.query_cells.specs.Asked.{AddsJob, AddsReply, AsksClock, GoesByTries, IsForced, IsLateBy, KeepsNumbers, MayTread, OnlyTried, TakesInOrder, tells_write};
ghost use Rattle.query_cells.specs.Placing.{IsPlacedUnder};

use crate::ledger::ask_ledger;
use crate::reading::ask_reading;
use crate::two::{ask_both, ask_move};
use crate::writing::{ask_comparing, ask_writing};
use dist_mutex::mutex::DistMutex;
use dist_mutex::pass::DistPass;
use hall::{Hall, Pass};
use map_cargo::MapCargo;
use ql_base::Clock;
use query_log::{Ledger, LedgerJob};
use query_rules::{Query, Reply};
use std::sync::Wait;

/// Asks a query by two passes that hold no lock, the one of the hall and the one of the ledger's lock, as query number
/// `index` of their caller, and answers its one reply.
///
/// The maps' queries take their cells by waiting, in the mode that they need: `get`, `len` and `both` for reading;
/// `put`, `del`, `add`, `putlen` and `move` for writing; `cas` in upgrade mode, beside readers, from which it goes on
/// to write only where the key has the expected value. `putlen` lets readers in, by one step, before it gives its cell
/// back. Two cells are taken one after the other: the one of the lower number is held before the other is tried for.
/// Two that are the same one aren't taken.
///
/// `tryget` and `tryput` try, again where another pass came between, and are `Busy` at the first word that conflicts:
/// where they were granted, no try of theirs had found one. `getby` and `putby` wait until the clock told the deadline
/// or later, and are then `Late`. They ask the clock once after each refused try, and each of its answers was below the
/// deadline but the last one of `Late`; no other query asks it. `Busy` and `Late` come only with words of the cell that
/// this call read and for which its lock refuses. A refused query never held its cell: each step of its call was for
/// that cell's lock, made with no mode held there.
///
/// A placed reply is told while its cells are held, and the pass has one write less to draw where it is one. A refused
/// one is told without a place. `give`, `take` and `audit` are jobs of the ledger and leave the hall's pass as it was:
/// the answer is the last of the other pass's own list, which has one job less to run. `give` and `take` may be run by
/// whoever owns the ledger's lock, and `audit` by this pass alone.
///
/// A query of a cell looks at up to all rows of the cell. Its contract holds if it returns. It takes no memory.
pub fn ask<R: Wait, T: Clock>(
    rt: &R,
    hall: &Hall<MapCargo>,
    pass: &mut Pass<MapCargo>,
    dist: &DistMutex<Ledger, LedgerJob>,
    dist_pass: &mut DistPass<Ledger, LedgerJob>,
    clock: &mut T,
    index: u64,
    query: &Query,
) -> Reply
    requires pass { IsPassOf hall.now pass.old }
    requires suits { Suits hall.now }
    requires locks { (shape_of hall.now).locks ≡ (cargo_of hall.now).cells }
    requires idle { IsIdle (view pass.old) }
    requires cells { TakesBelow (cargo_of hall.now).cells query.now }
    requires quota { may_write query.now ≡ true → 1 ≤ (view pass.old).quota }
    requires dist { IsDistPassOf dist.now dist_pass.old × IsAtRest dist_pass.old }
    requires number { (dist_view dist_pass.old).number ≡ (view pass.old).number }
    requires jobs { asks_ledger query.now ≡ true → 1 ≤ (dist_view dist_pass.old).quota }
    ensures pass { IsPassOf hall.now pass.new }
    ensures idle { IsIdle (view pass.new) }
    ensures same { KeepsNumbers (view pass.old) (view pass.new) }
    ensures quota { MatchBool (tells_write result) ((view pass.new).quota + 1 ≡ (view pass.old).quota) ((view pass.new).quota ≡ (view pass.old).quota) }
    ensures kind { IsKindFor query.now result }
    ensures told { AddsReply (view pass.old).number index query.now result (view pass.old).part (view pass.new).part }
    ensures placing { IsPlacedUnder (cargo_of hall.now) (view pass.old) (view pass.new) query.now result }
    ensures dist { IsDistPassOf dist.now dist_pass.new × IsAtRest dist_pass.new }
    ensures dist_same { SameNumbers (dist_view dist_pass.old) (dist_view dist_pass.new) }
    ensures job { AddsJob (view pass.old).number index query.now result (dist_view dist_pass.old) (dist_view dist_pass.new) }
    ensures late { IsLateBy query.now (T.last clock.new) result }
    ensures clock { AsksClock T.last T.answers clock.old clock.new query.now result }
    ensures forced { IsForced query.now result (view pass.old) (view pass.new) }
    ensures refused { OnlyTried query.now result (view pass.old) (view pass.new) }
    ensures tries { GoesByTries query.now result (view pass.old) (view pass.new) }
    ensures order { TakesInOrder query.now (view pass.old) (view pass.new) }
    ensures trail { Treads (MayTread query.now) (view pass.old) (view pass.new) }
{
    match *query {
        Query::Get { .. } | Query::Len { .. } | Query::TryGet { .. } | Query::GetBy { .. } => {
            ask_reading(rt, hall, pass, clock, index, query)
        }
        Query::Put { .. }
        | Query::Del { .. }
        | Query::Add { .. }
        | Query::PutLen { .. }
        | Query::TryPut { .. }
        | Query::PutBy { .. } => ask_writing(rt, hall, pass, clock, index, query),
        Query::Cas { .. } => ask_comparing(rt, hall, pass, index, query),
        Query::Move { from, to, key, n } => ask_move(rt, hall, pass, index, from, to, key, n),
        Query::Both { first, second, key } => ask_both(rt, hall, pass, index, first, second, key),
        Query::Give { .. } | Query::Take { .. } | Query::Audit => {
            ask_ledger(rt, dist, dist_pass, index, query)
        }
    }
}
