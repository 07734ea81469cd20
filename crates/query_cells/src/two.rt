//! Queries of two cells, which are held at once.
ghost use Rattle.std.specs.Prelude.{◌≡◌, ◌≢◌, ◌<◌, ◌≤◌, ℕ, Some, None, MatchResult, false, true, unwrap_or};
ghost use Rattle.hall.specs.Cargo.{exclusive_mode};
ghost use Rattle.hall.specs.Passes.{view, IsPassOf, shape_of, cargo_of};
ghost use Rattle.hall.specs.Treading.{Treads};
ghost use Rattle.hall.specs.Views.{standing, mode_of};
ghost use Rattle.query_rules.specs.declared.query.Query.{Query};
ghost use Rattle.query_rules.specs.Maps.{is_write, reply_of, less};
ghost use Rattle.map_cargo.specs.Cells.{Means};
ghost use Rattle.map_cargo.specs.History.{words_of, plain_of, IsSettled, IsRested};
ghost use Rattle.map_cargo.specs.Steps.{Suits, Alike, Reworded, IsIdle, Left};
ghost use Rattle.sync_cell.specs.Cells.{maps};
ghost use Rattle.acquire_many.specs.Guards.{said_by};
ghost use Rattle.acquire_many.specs.Took.{IsForHeld};
ghost use Rattle.query_cells.specs.Asked.{MayTread, TakesInOrder, is_granted};
ghost use Rattle.query_cells.specs.Answers.{ChangesWords, LeadsBack, Leaves, Tells};
ghost use Rattle.query_cells.specs.Two.{GuardsBoth, TakesBoth};

use crate::telling::{tell, tell_read};
use acquire_many::{Guards, SameCell, lock_many, unlock_many};
use hall::{Hall, Mode, Pass};
use map_cargo::{MapCargo, get, put};
use query_rules::{Query, Reply, Said};
use std::sync::Wait;

// Waits until both cells are held in this mode, the lower number first. Two that are the same one aren't taken.
fn take_two<R: Wait>(
    rt: &R,
    hall: &Hall<MapCargo>,
    pass: &mut Pass<MapCargo>,
    one: u64,
    other: u64,
    mode: Mode,
) -> Result<Guards, SameCell>
    requires pass { IsPassOf hall.now pass.old }
    requires cells { (one < (shape_of hall.now).locks) × (other < (shape_of hall.now).locks) }
    requires idle { IsIdle (view pass.old) }
    ensures pass { IsPassOf hall.now pass.new }
    ensures took { MatchResult result (λ guards. TakesBoth (shape_of hall.now) one other mode guards (view pass.old) (view pass.new)) (λ _. (one ≡ other) × (view pass.new ≡ view pass.old)) }
{
    lock_many(rt, hall, pass, &[(one, mode), (other, mode)])
}

// Gives two cells back.
fn leave_two(hall: &Hall<MapCargo>, pass: &mut Pass<MapCargo>, guards: Guards)
    requires pass { IsPassOf hall.now pass.old }
    requires held { (one : ℕ) × (other : ℕ) × (mode : Mode) × GuardsBoth (shape_of hall.now) one other mode guards (view pass.old) }
    requires rested { IsRested (view pass.old).part }
    ensures pass { IsPassOf hall.now pass.new }
    ensures idle { IsIdle (view pass.new) }
    ensures left { Left (view pass.old) (view pass.new) }
    ensures back { LeadsBack (cargo_of hall.now) (view pass.old) (view pass.new) }
    ensures trail { Treads (IsForHeld maps (said_by guards)) (view pass.old) (view pass.new) }
{
    unlock_many(hall, pass, guards);
}

// Takes an amount from what a key has in a cell; a key that isn't there stays away.
#[tactic(auto, using(map_cargo::specs::StepLaws::alike_none))]
fn lessen(
    hall: &Hall<MapCargo>,
    pass: &mut Pass<MapCargo>,
    cell: u64,
    key: u64,
    has: Option<u64>,
    n: u64,
)
    requires pass { IsPassOf hall.now pass.old }
    requires suits { Suits hall.now }
    requires cell { cell < (cargo_of hall.now).cells }
    requires held { mode_of (standing (view pass.old) cell) ≡ exclusive_mode }
    requires settled { IsSettled cell (view pass.old).part }
    requires has { has ≡ (plain_of (view pass.old).part cell).value_at key }
    requires enough { n ≤ unwrap_or has 0 }
    ensures pass { IsPassOf hall.now pass.new × Alike (view pass.old) (view pass.new) }
    ensures part { Reworded cell (view pass.old).part (view pass.new).part }
    ensures less { Means (words_of (view pass.new).part cell) (less (plain_of (view pass.old).part cell) key n) }
{
    if let Some(amount) = has {
        let Ok(_) = put(hall, pass, cell, key, amount - n) else {
            unreachable!()
        };
    }
}

// Takes an amount from a key of one cell and adds it to the key of another. The words change, and nothing is told yet.
#[tactic(auto, using(crate::proofs::Pairs::words_read, crate::proofs::Pairs::words_put, crate::proofs::Pairs::words_then))]
fn shift(
    hall: &Hall<MapCargo>,
    pass: &mut Pass<MapCargo>,
    from: u64,
    to: u64,
    key: u64,
    n: u64,
) -> Said
    requires pass { IsPassOf hall.now pass.old }
    requires suits { Suits hall.now }
    requires cells { (from < (cargo_of hall.now).cells) × (to < (cargo_of hall.now).cells) }
    requires different { from ≢ to }
    requires held { (mode_of (standing (view pass.old) from) ≡ exclusive_mode) × (mode_of (standing (view pass.old) to) ≡ exclusive_mode) }
    requires settled { IsSettled from (view pass.old).part × IsSettled to (view pass.old).part }
    ensures pass { IsPassOf hall.now pass.new }
    ensures words { ChangesWords (view pass.old) (view pass.new) }
    ensures says { reply_of (cargo_of hall.now).rows (plain_of (view pass.old).part) (Query.Move from to key n) ≡ Some result }
    ensures from { Leaves from (view pass.old) (view pass.new) (Query.Move from to key n) result }
    ensures to { Leaves to (view pass.old) (view pass.new) (Query.Move from to key n) result }
{
    let has = get(hall, pass, from, key);
    let amount = has.unwrap_or(0);
    if amount < n {
        return Said::Short(amount);
    }
    let had = get(hall, pass, to, key);
    let Some(sum) = had.unwrap_or(0).checked_add(n) else {
        return Said::Over;
    };
    let Ok(_) = put(hall, pass, to, key, sum) else {
        return Said::Full;
    };
    lessen(hall, pass, from, key, has, n);
    Said::Moved
}

// What is said of a key in two cells that the pass holds.
#[tactic(auto, using(crate::proofs::Pairs::words_read, crate::proofs::Pairs::words_then))]
fn look_up_two(
    hall: &Hall<MapCargo>,
    pass: &mut Pass<MapCargo>,
    first: u64,
    second: u64,
    key: u64,
) -> Said
    requires pass { IsPassOf hall.now pass.old }
    requires suits { Suits hall.now }
    requires cells { (first < (cargo_of hall.now).cells) × (second < (cargo_of hall.now).cells) }
    requires different { first ≢ second }
    requires held { (mode_of (standing (view pass.old) first) ≢ None) × (mode_of (standing (view pass.old) second) ≢ None) }
    requires settled { IsSettled first (view pass.old).part × IsSettled second (view pass.old).part }
    ensures pass { IsPassOf hall.now pass.new }
    ensures words { ChangesWords (view pass.old) (view pass.new) }
    ensures part { (view pass.new).part ≡ (view pass.old).part }
    ensures reads { is_write result ≡ false }
    ensures says { reply_of (cargo_of hall.now).rows (plain_of (view pass.old).part) (Query.Both first second key) ≡ Some result }
{
    let one = get(hall, pass, first, key);
    let other = get(hall, pass, second, key);
    Said::Pair(one, other)
}

/// Takes an amount from a key of one cell and adds it to the key of another. Two cells that are the same one aren't taken.
pub(crate) fn ask_move<R: Wait>(
    rt: &R,
    hall: &Hall<MapCargo>,
    pass: &mut Pass<MapCargo>,
    index: u64,
    from: u64,
    to: u64,
    key: u64,
    n: u64,
) -> Reply
    requires pass { IsPassOf hall.now pass.old × Suits hall.now }
    requires cells { (from < (cargo_of hall.now).cells) × (to < (cargo_of hall.now).cells) }
    requires locks { (shape_of hall.now).locks ≡ (cargo_of hall.now).cells }
    requires idle { IsIdle (view pass.old) }
    requires quota { 1 ≤ (view pass.old).quota }
    ensures pass { IsPassOf hall.now pass.new × IsIdle (view pass.new) }
    ensures tells { Tells (cargo_of hall.now) (view pass.old) (view pass.new) index (Query.Move from to key n) result }
    ensures granted { is_granted result ≡ true }
    ensures trail { Treads (MayTread (Query.Move from to key n)) (view pass.old) (view pass.new) }
    ensures order { TakesInOrder (Query.Move from to key n) (view pass.old) (view pass.new) }
{
    let query = Query::Move { from, to, key, n };
    let Ok(guards) = take_two(rt, hall, pass, from, to, Mode::Exclusive) else {
        return tell_read(hall, pass, index, &query, Said::Same);
    };
    let said = shift(hall, pass, from, to, key, n);
    let reply = tell(hall, pass, index, &query, said);
    leave_two(hall, pass, guards);
    reply
}

/// The values of a key in two cells, at one moment. Two cells that are the same one aren't taken.
pub(crate) fn ask_both<R: Wait>(
    rt: &R,
    hall: &Hall<MapCargo>,
    pass: &mut Pass<MapCargo>,
    index: u64,
    first: u64,
    second: u64,
    key: u64,
) -> Reply
    requires pass { IsPassOf hall.now pass.old × Suits hall.now }
    requires cells { (first < (cargo_of hall.now).cells) × (second < (cargo_of hall.now).cells) }
    requires locks { (shape_of hall.now).locks ≡ (cargo_of hall.now).cells }
    requires idle { IsIdle (view pass.old) }
    ensures pass { IsPassOf hall.now pass.new × IsIdle (view pass.new) }
    ensures tells { Tells (cargo_of hall.now) (view pass.old) (view pass.new) index (Query.Both first second key) result }
    ensures granted { is_granted result ≡ true }
    ensures trail { Treads (MayTread (Query.Both first second key)) (view pass.old) (view pass.new) }
    ensures order { TakesInOrder (Query.Both first second key) (view pass.old) (view pass.new) }
{
    let query = Query::Both { first, second, key };
    let Ok(guards) = take_two(rt, hall, pass, first, second, Mode::Shared) else {
        return tell_read(hall, pass, index, &query, Said::Same);
    };
    let said = look_up_two(hall, pass, first, second, key);
    let reply = tell_read(hall, pass, index, &query, said);
    leave_two(hall, pass, guards);
    reply
}
