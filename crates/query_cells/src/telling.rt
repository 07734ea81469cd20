//! Telling a reply by a named step, while its cells are held.
ghost use Rattle.std.specs.Prelude.{◌≡◌, ◌≢◌, ◌<◌, ◌≤◌, ◌∷◌, [], ℕ, true, false};
ghost use Rattle.hall.specs.Cargo.{upgrade_mode, exclusive_mode};
ghost use Rattle.hall.specs.Passes.{view, IsPassOf, shape_of, cargo_of};
ghost use Rattle.hall.specs.Treading.{IsAt, IsWeakAt, Treads};
ghost use Rattle.hall.specs.Views.{standing};
ghost use Rattle.hall.specs.declared.view.Standing.TheVariants.{Upgrade};
ghost use Rattle.query_rules.specs.Maps as plain;
ghost use Rattle.query_rules.specs.Maps.{reply_of};
ghost use Rattle.map_cargo.specs.Entries.{named_cells, spoken_cells};
ghost use Rattle.map_cargo.specs.History.{IsRested};
ghost use Rattle.map_cargo.specs.Licences.{LoadedOnce, MayRefuse};
ghost use Rattle.map_cargo.specs.Steps.{Suits, Stays, Alike, IsIdle, MayDraw, MayPlace};
ghost use Rattle.shared_mutex.specs.Tries.{AddsSteps};
ghost use Rattle.sync_cell.specs.Gains.{IsQuiet};
ghost use Rattle.query_cells.specs.Asked.{entry_for, is_granted};
ghost use Rattle.query_cells.specs.Placing.{mode_for};
ghost use Rattle.query_cells.specs.Answers.{Follows, HoldsFor, MayTell, OnlyAt, Tells};

use crate::holding::leave_upgrade;
use hall::{Hall, Pass};
use map_cargo::{Entry, MapCargo, draw, note_refused, place_read};
use query_rules::{Query, Reply, Said};
use sync_cell::UpgradePtr;

// Whether a reply is a write.
fn is_write(said: Said) -> bool
    ensures { result ≡ plain.is_write said }
{
    match said {
        Said::New
        | Said::Old(_)
        | Said::Now(_)
        | Said::Yes
        | Said::NewCount(_)
        | Said::OldCount(..)
        | Said::Moved => true,
        Said::Found(_)
        | Said::Absent
        | Said::Count(_)
        | Said::Full
        | Said::Over
        | Said::No(_)
        | Said::Short(_)
        | Said::Same
        | Said::Pair(..) => false,
    }
}

/// Places a reply that is a read, by one load of the number word.
#[tactic(auto, using(crate::proofs::Replies::read_told, crate::proofs::Replies::read_follows))]
pub(crate) fn tell_read(
    hall: &Hall<MapCargo>,
    pass: &mut Pass<MapCargo>,
    index: u64,
    query: &Query,
    said: Said,
) -> Reply
    requires pass { IsPassOf hall.now pass.old }
    requires suits { Suits hall.now }
    requires may { MayPlace (cargo_of hall.now) (view pass.old) (entry_for (view pass.old).number index query.now said) }
    requires holds { HoldsFor query.now said (view pass.old) }
    requires rested { IsRested (view pass.old).part }
    ensures pass { IsPassOf hall.now pass.new × Alike (view pass.old) (view pass.new) }
    ensures tells { Tells (cargo_of hall.now) (view pass.old) (view pass.new) index query.now result }
    ensures granted { is_granted result ≡ true }
    ensures follows { Follows (view pass.old) (view pass.new) query.now said }
    ensures quiet { AddsSteps IsQuiet (view pass.old) (view pass.new) }
{
    let entry = Entry {
        caller: pass.number(),
        index,
        query: *query,
        said,
    };
    let reads_after = place_read(hall, pass, &entry);
    Reply::Placed {
        place: 2 * reads_after,
        said,
    }
}

// Draws the next number for a reply that is a write, and stores its log row.
#[tactic(auto, using(crate::proofs::Replies::write_told, crate::proofs::Replies::write_follows))]
fn tell_write(
    hall: &Hall<MapCargo>,
    pass: &mut Pass<MapCargo>,
    index: u64,
    query: &Query,
    said: Said,
) -> Reply
    requires pass { IsPassOf hall.now pass.old }
    requires suits { Suits hall.now }
    requires may { MayDraw (cargo_of hall.now) (view pass.old) (entry_for (view pass.old).number index query.now said) }
    requires mode { mode_for query.now said ≡ exclusive_mode }
    requires quota { 1 ≤ (view pass.old).quota }
    ensures pass { IsPassOf hall.now pass.new × Stays (view pass.old) (view pass.new) }
    ensures tells { Tells (cargo_of hall.now) (view pass.old) (view pass.new) index query.now result }
    ensures granted { is_granted result ≡ true }
    ensures follows { Follows (view pass.old) (view pass.new) query.now said }
    ensures quiet { AddsSteps IsQuiet (view pass.old) (view pass.new) }
{
    let entry = Entry {
        caller: pass.number(),
        index,
        query: *query,
        said,
    };
    let Ok(number) = draw(hall, pass, &entry) else {
        unreachable!()
    };
    Reply::Placed {
        place: 2 * number + 1,
        said,
    }
}

/// Tells what the plain maps say to a query whose cells the pass holds for writing: a write is drawn, and a read is
/// placed. Afterwards the pass's plain maps are those that the reply leaves.
#[tactic(auto, using(crate::proofs::Replies::may_place, crate::proofs::Replies::may_draw, crate::proofs::Replies::may_hold, map_cargo::specs::StepLaws::stays_alike))]
pub(crate) fn tell(
    hall: &Hall<MapCargo>,
    pass: &mut Pass<MapCargo>,
    index: u64,
    query: &Query,
    said: Said,
) -> Reply
    requires pass { IsPassOf hall.now pass.old }
    requires suits { Suits hall.now }
    requires may { MayTell (cargo_of hall.now) (view pass.old) query.now said }
    ensures pass { IsPassOf hall.now pass.new × Stays (view pass.old) (view pass.new) }
    ensures tells { Tells (cargo_of hall.now) (view pass.old) (view pass.new) index query.now result }
    ensures granted { is_granted result ≡ true }
    ensures follows { Follows (view pass.old) (view pass.new) query.now said }
    ensures quiet { AddsSteps IsQuiet (view pass.old) (view pass.new) }
{
    if is_write(said) {
        tell_write(hall, pass, index, query, said)
    } else {
        tell_read(hall, pass, index, query, said)
    }
}

/// Tells what was read in the one cell that the pass holds in upgrade mode, and gives the cell back.
#[tactic(auto, using(crate::proofs::Placing::holds_upgrade, crate::proofs::Replies::tells_then, crate::proofs::Replies::idle_again))]
pub(crate) fn answer_upgraded(
    hall: &Hall<MapCargo>,
    pass: &mut Pass<MapCargo>,
    ptr: UpgradePtr,
    index: u64,
    query: &Query,
    said: Said,
) -> Reply
    requires pass { IsPassOf hall.now pass.old }
    requires suits { Suits hall.now }
    requires cell { ptr.guard.lock < (shape_of hall.now).locks }
    requires held { standing (view pass.old) ptr.guard.lock ≡ Upgrade }
    requires only { OnlyAt ptr.guard.lock (view pass.old) }
    requires may { MayPlace (cargo_of hall.now) (view pass.old) (entry_for (view pass.old).number index query.now said) }
    requires mode { mode_for query.now said ≡ upgrade_mode }
    requires rested { IsRested (view pass.old).part }
    ensures pass { IsPassOf hall.now pass.new }
    ensures idle { IsIdle (view pass.new) }
    ensures tells { Tells (cargo_of hall.now) (view pass.old) (view pass.new) index query.now result }
    ensures granted { is_granted result ≡ true }
    ensures trail { Treads (IsAt ptr.guard.lock) (view pass.old) (view pass.new) }
{
    let reply = tell_read(hall, pass, index, query, said);
    leave_upgrade(hall, pass, ptr);
    reply
}

/// Tells a reply that has no place, by one load of the state word of the query's cell.
#[tactic(auto, using(crate::proofs::Refusing::refusal_tells, crate::proofs::Pairs::idle_alike, crate::proofs::Refusing::still_rested))]
pub(crate) fn refuse(
    hall: &Hall<MapCargo>,
    pass: &mut Pass<MapCargo>,
    index: u64,
    query: &Query,
    reply: Reply,
) -> Reply
    requires pass { IsPassOf hall.now pass.old }
    requires idle { IsIdle (view pass.old) }
    requires may { MayRefuse (view pass.old) query.now reply }
    ensures pass { IsPassOf hall.now pass.new × IsIdle (view pass.new) }
    ensures trail { (view pass.new).trail ≡ (view pass.old).trail }
    ensures tells { Tells (cargo_of hall.now) (view pass.old) (view pass.new) index query.now result }
    ensures reply { result ≡ reply }
    ensures load { LoadedOnce query.now (view pass.old) (view pass.new) }
{
    note_refused(hall, pass, index, query, &reply);
    reply
}
