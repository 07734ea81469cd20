//! Telling that the lock of a cell refused a query.
ghost use Rattle.std.specs.Prelude.{◌≡◌, ◌<◌, ℕ};
ghost use Rattle.lock_model.specs.Locks.{Has};
ghost use Rattle.hall.specs.Passes.{view, IsPassOf, shape_of};
ghost use Rattle.query_rules.specs.declared.query.Query.TheVariants.{Audit};
ghost use Rattle.query_rules.specs.declared.query.Reply.TheVariants.{Busy};
ghost use Rattle.map_cargo.specs.declared.entry.Told.TheVariants as told;
ghost use Rattle.map_cargo.specs.Entries.{named_cells};
ghost use Rattle.map_cargo.specs.Licences.{LoadedOnce, MayRefuse};
ghost use Rattle.map_cargo.specs.Steps.{Alike, told_too};

use crate::size::MapCargo;
use hall::{Hall, Note, Pass};
use query_rules::{Query, Reply};
use std::marker::{Brand, PhantomData};

/// The refusal of one call. The call picks it.
pub(crate) trait CallRefusal {
    ghost use Rattle.map_cargo.specs.declared.entry.Told.{Told};

    ghost told: { Told };
}

impl CallRefusal for Brand {
    ghost told = { told.Refused 0 0 Audit Busy };
}

pub(crate) struct Tells<K> {
    marker: PhantomData<K>,
}

impl<K: CallRefusal> Note<MapCargo> for Tells<K> {
    ghost becomes = { λ ws found p q. q ≡ told_too p K.told };
}

fn refuse_by<K: CallRefusal>(
    hall: &Hall<MapCargo>,
    pass: &mut Pass<MapCargo>,
    cell: u64,
    index: u64,
    query: &Query,
    reply: &Reply,
)
    requires pass { IsPassOf hall.now pass.old }
    requires told { told.Refused (view pass.old).number index query.now reply.now ≡ K.told }
    requires may { MayRefuse (view pass.old) query.now reply.now }
    requires cell { Has (named_cells query.now) cell }
    ensures pass { IsPassOf hall.now pass.new × Alike (view pass.old) (view pass.new) }
    ensures load { LoadedOnce query.now (view pass.old) (view pass.new) }
    ensures told { (view pass.new).part ≡ told_too (view pass.old).part (told.Refused (view pass.old).number index query.now reply.now) }
    ensures others { 1 < (shape_of hall.now).seats }
{
    hall.load_noted::<Tells<K>>(pass, cell);
}

/// Adds a reply that has no place to the pass's own, under its number and this index, by one load of the state word of
/// the query's cell: `Busy` to a `TryGet` or a `TryPut`, or `Late` to a `GetBy` or a `PutBy` whose deadline isn't after
/// `now`. The pass is away from the cell, and earlier steps of its own read words there for which the lock refuses: for
/// `Busy` one that conflicts, for `Late` one that conflicts or two that differ.
///
/// Nothing else that the pass knows changes. In a hall with one seat there are no such reads.
pub fn note_refused(
    hall: &Hall<MapCargo>,
    pass: &mut Pass<MapCargo>,
    index: u64,
    query: &Query,
    reply: &Reply,
)
    requires pass { IsPassOf hall.now pass.old }
    requires may { MayRefuse (view pass.old) query.now reply.now }
    ensures pass { IsPassOf hall.now pass.new × Alike (view pass.old) (view pass.new) }
    ensures load { LoadedOnce query.now (view pass.old) (view pass.new) }
    ensures told { (view pass.new).part ≡ told_too (view pass.old).part (told.Refused (view pass.old).number index query.now reply.now) }
    ensures others { 1 < (shape_of hall.now).seats }
{
    let cell = match *query {
        Query::TryGet { cell, .. }
        | Query::TryPut { cell, .. }
        | Query::GetBy { cell, .. }
        | Query::PutBy { cell, .. } => cell,
        _ => unreachable!(),
    };
    refuse_by::<Brand>(hall, pass, cell, index, query, reply);
}
