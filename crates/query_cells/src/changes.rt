//! Changing the map of a cell that is held for writing, and what is said of it. The words change, and nothing is told yet.
ghost use Rattle.std.specs.Prelude.{◌≡◌, ◌≢◌, ◌<◌, ℕ, Some, None, true, false, MatchResult};
ghost use Rattle.hall.specs.Cargo.{exclusive_mode};
ghost use Rattle.hall.specs.Passes.{view, IsPassOf, cargo_of};
ghost use Rattle.hall.specs.Views.{standing, mode_of};
ghost use Rattle.query_rules.specs.declared.query.Query.{Query};
ghost use Rattle.query_rules.specs.declared.query.Said.TheVariants.{Yes};
ghost use Rattle.query_rules.specs.Maps.{is_write, reply_of};
ghost use Rattle.map_cargo.specs.History.{plain_of, IsSettled};
ghost use Rattle.map_cargo.specs.Steps.{Suits, Alike, Reworded};
ghost use Rattle.shared_mutex.specs.Tries.{AddsSteps};
ghost use Rattle.sync_cell.specs.Gains.{IsQuiet};
ghost use Rattle.query_cells.specs.Answers.{HasExpected, Leaves, cell_of, changes_cell, compares};

use hall::{Hall, Pass};
use map_cargo::{MapCargo, del, get, len, put};
use query_rules::{Query, Said};

/// Changes the cell of a query that may write it, which the pass holds for writing, and says what the plain maps say.
/// Where the query compares, the cell has what it expects.
pub(crate) fn change(hall: &Hall<MapCargo>, pass: &mut Pass<MapCargo>, query: &Query) -> Said
    requires pass { IsPassOf hall.now pass.old }
    requires suits { Suits hall.now }
    requires asks { changes_cell query.now ≡ true }
    requires cell { cell_of query.now < (cargo_of hall.now).cells }
    requires held { mode_of (standing (view pass.old) (cell_of query.now)) ≡ exclusive_mode }
    requires settled { IsSettled (cell_of query.now) (view pass.old).part }
    requires expected { HasExpected query.now (plain_of (view pass.old).part) }
    ensures pass { IsPassOf hall.now pass.new × Alike (view pass.old) (view pass.new) }
    ensures part { Reworded (cell_of query.now) (view pass.old).part (view pass.new).part }
    ensures says { reply_of (cargo_of hall.now).rows (plain_of (view pass.old).part) query.now ≡ Some result }
    ensures leaves { Leaves (cell_of query.now) (view pass.old) (view pass.new) query.now result }
    ensures quiet { AddsSteps IsQuiet (view pass.old) (view pass.new) }
{
    match *query {
        Query::Put { cell, key, value }
        | Query::TryPut { cell, key, value }
        | Query::PutBy {
            cell,
            key,
            value,
            ..
        } => store(hall, pass, cell, key, value),
        Query::PutLen { cell, key, value } => store_counted(hall, pass, cell, key, value),
        Query::Del { cell, key } => remove(hall, pass, cell, key),
        Query::Add { cell, key, delta } => raise(hall, pass, cell, key, delta),
        Query::Cas { cell, key, new, .. } => {
            swap(hall, pass, cell, key, new);
            Said::Yes
        }
        _ => unreachable!(),
    }
}

// Gives a key this value.
#[tactic(auto, using(crate::proofs::Quiet::quiet_inside))]
fn store(hall: &Hall<MapCargo>, pass: &mut Pass<MapCargo>, cell: u64, key: u64, value: u64) -> Said
    requires pass { IsPassOf hall.now pass.old }
    requires suits { Suits hall.now }
    requires cell { cell < (cargo_of hall.now).cells }
    requires held { mode_of (standing (view pass.old) cell) ≡ exclusive_mode }
    requires settled { IsSettled cell (view pass.old).part }
    ensures pass { IsPassOf hall.now pass.new × Alike (view pass.old) (view pass.new) }
    ensures part { Reworded cell (view pass.old).part (view pass.new).part }
    ensures says { reply_of (cargo_of hall.now).rows (plain_of (view pass.old).part) (Query.Put cell key value) ≡ Some result }
    ensures leaves { Leaves cell (view pass.old) (view pass.new) (Query.Put cell key value) result }
    ensures quiet { AddsSteps IsQuiet (view pass.old) (view pass.new) }
{
    match put(hall, pass, cell, key, value) {
        Ok(Some(old)) => Said::Old(old),
        Ok(None) => Said::New,
        Err(_) => Said::Full,
    }
}

// Takes a key out.
#[tactic(auto, using(crate::proofs::Quiet::quiet_inside))]
fn remove(hall: &Hall<MapCargo>, pass: &mut Pass<MapCargo>, cell: u64, key: u64) -> Said
    requires pass { IsPassOf hall.now pass.old }
    requires suits { Suits hall.now }
    requires cell { cell < (cargo_of hall.now).cells }
    requires held { mode_of (standing (view pass.old) cell) ≡ exclusive_mode }
    requires settled { IsSettled cell (view pass.old).part }
    ensures pass { IsPassOf hall.now pass.new × Alike (view pass.old) (view pass.new) }
    ensures part { Reworded cell (view pass.old).part (view pass.new).part }
    ensures says { reply_of (cargo_of hall.now).rows (plain_of (view pass.old).part) (Query.Del cell key) ≡ Some result }
    ensures leaves { Leaves cell (view pass.old) (view pass.new) (Query.Del cell key) result }
    ensures quiet { AddsSteps IsQuiet (view pass.old) (view pass.new) }
{
    match del(hall, pass, cell, key) {
        Some(old) => Said::Old(old),
        None => Said::Absent,
    }
}

// Raises the value of a key, unless the sum would be above 2^64 - 1.
#[tactic(auto, using(map_cargo::specs::StepLaws::alike_then, crate::proofs::Quiet::quiet_inside, crate::proofs::Quiet::quiet_then))]
fn raise(hall: &Hall<MapCargo>, pass: &mut Pass<MapCargo>, cell: u64, key: u64, delta: u64) -> Said
    requires pass { IsPassOf hall.now pass.old }
    requires suits { Suits hall.now }
    requires cell { cell < (cargo_of hall.now).cells }
    requires held { mode_of (standing (view pass.old) cell) ≡ exclusive_mode }
    requires settled { IsSettled cell (view pass.old).part }
    ensures pass { IsPassOf hall.now pass.new × Alike (view pass.old) (view pass.new) }
    ensures part { Reworded cell (view pass.old).part (view pass.new).part }
    ensures says { reply_of (cargo_of hall.now).rows (plain_of (view pass.old).part) (Query.Add cell key delta) ≡ Some result }
    ensures leaves { Leaves cell (view pass.old) (view pass.new) (Query.Add cell key delta) result }
    ensures quiet { AddsSteps IsQuiet (view pass.old) (view pass.new) }
{
    let had = get(hall, pass, cell, key);
    let Some(sum) = had.unwrap_or(0).checked_add(delta) else {
        return Said::Over;
    };
    match put(hall, pass, cell, key, sum) {
        Ok(_) => Said::Now(sum),
        Err(_) => Said::Full,
    }
}

/// Whether the cell has what a query that compares expects; where it hasn't, what the plain maps say.
pub(crate) fn compare(
    hall: &Hall<MapCargo>,
    pass: &mut Pass<MapCargo>,
    query: &Query,
) -> Result<(), Said>
    requires pass { IsPassOf hall.now pass.old }
    requires suits { Suits hall.now }
    requires asks { compares query.now ≡ true }
    requires cell { cell_of query.now < (cargo_of hall.now).cells }
    requires held { mode_of (standing (view pass.old) (cell_of query.now)) ≢ None }
    requires settled { IsSettled (cell_of query.now) (view pass.old).part }
    ensures pass { IsPassOf hall.now pass.new × Alike (view pass.old) (view pass.new) }
    ensures part { (view pass.new).part ≡ (view pass.old).part }
    ensures says { MatchResult result (λ _. HasExpected query.now (plain_of (view pass.old).part)) (λ said. (reply_of (cargo_of hall.now).rows (plain_of (view pass.old).part) query.now ≡ Some said) × (is_write said ≡ false)) }
{
    let Query::Cas { cell, key, old, .. } = *query else {
        unreachable!()
    };
    match get(hall, pass, cell, key) {
        Some(value) if value == old => Ok(()),
        Some(value) => Err(Said::No(value)),
        None => Err(Said::Absent),
    }
}

// Gives a key that is there this value.
#[tactic(auto, using(crate::proofs::Quiet::quiet_inside))]
fn swap(hall: &Hall<MapCargo>, pass: &mut Pass<MapCargo>, cell: u64, key: u64, value: u64)
    requires pass { IsPassOf hall.now pass.old }
    requires suits { Suits hall.now }
    requires cell { cell < (cargo_of hall.now).cells }
    requires held { mode_of (standing (view pass.old) cell) ≡ exclusive_mode }
    requires settled { IsSettled cell (view pass.old).part }
    requires there { (plain_of (view pass.old).part cell).value_at key ≢ None }
    ensures pass { IsPassOf hall.now pass.new × Alike (view pass.old) (view pass.new) }
    ensures part { Reworded cell (view pass.old).part (view pass.new).part }
    ensures leaves { (old : ℕ) → Leaves cell (view pass.old) (view pass.new) (Query.Cas cell key old value) Yes }
    ensures quiet { AddsSteps IsQuiet (view pass.old) (view pass.new) }
{
    let Ok(_) = put(hall, pass, cell, key, value) else {
        unreachable!()
    };
}

// Gives a key this value, and counts the keys afterwards.
#[tactic(auto, using(map_cargo::specs::StepLaws::alike_then, crate::proofs::Quiet::quiet_inside, crate::proofs::Quiet::quiet_then))]
fn store_counted(
    hall: &Hall<MapCargo>,
    pass: &mut Pass<MapCargo>,
    cell: u64,
    key: u64,
    value: u64,
) -> Said
    requires pass { IsPassOf hall.now pass.old }
    requires suits { Suits hall.now }
    requires cell { cell < (cargo_of hall.now).cells }
    requires held { mode_of (standing (view pass.old) cell) ≡ exclusive_mode }
    requires settled { IsSettled cell (view pass.old).part }
    ensures pass { IsPassOf hall.now pass.new × Alike (view pass.old) (view pass.new) }
    ensures part { Reworded cell (view pass.old).part (view pass.new).part }
    ensures says { reply_of (cargo_of hall.now).rows (plain_of (view pass.old).part) (Query.PutLen cell key value) ≡ Some result }
    ensures leaves { Leaves cell (view pass.old) (view pass.new) (Query.PutLen cell key value) result }
    ensures quiet { AddsSteps IsQuiet (view pass.old) (view pass.new) }
{
    match put(hall, pass, cell, key, value) {
        Ok(Some(old)) => Said::OldCount(old, len(hall, pass, cell)),
        Ok(None) => Said::NewCount(len(hall, pass, cell)),
        Err(_) => Said::Full,
    }
}
