//! What no clause says: that the words of a run are those that are meant.
ghost use Rattle.std.specs.Prelude.{◌≡◌, ◌≢◌, ◌<◌, ◌≤◌, ◌+◌, ◌∷◌, ℕ};
ghost use Rattle.hall.specs.Cargo.{shared_mode};
ghost use Rattle.hall.specs.Fitting.{SharedFits};
ghost use Rattle.hall.specs.Passes.{view, IsPassOf, cargo_of, shape_of};
ghost use Rattle.hall.specs.Views.{standing, mode_of};
ghost use Rattle.hall.specs.declared.view.Standing.TheVariants.{Away, Exclusive};
ghost use Rattle.query_rules.specs.declared.query.Query.TheVariants.{TryGet};
ghost use Rattle.query_rules.specs.declared.query.Reply.TheVariants.{Busy};
ghost use Rattle.map_cargo.specs.declared.entry.Told.TheVariants as told;
ghost use Rattle.map_cargo.specs.History.{IsSettled, IsRested};
ghost use Rattle.map_cargo.specs.Steps.{Suits, IsIdle, Gained, Left, Alike};

use crate::cells::{del, get, len, put};
use crate::ending::close;
use crate::entry::Entry;
use crate::history::{QuotaSpent, draw, place_read};
use crate::refusing::note_refused;
use crate::size::MapCargo;
use hall::{ExclusiveGuard, Hall, Pass, Policy, SharedGuard, TryFault};
use query_rules::{Query, Reply, Said};
use shared_mutex::{try_lock, try_lock_shared, unlock, unlock_shared};
use std::alloc::Global;
use std::process::Abort;
use std::sync::Wait;
use std::thread::{self, Threads};

// An exclusive hold, which nobody is in the way of.
fn exclusive<A: Abort>(
    rt: &A,
    hall: &Hall<MapCargo>,
    pass: &mut Pass<MapCargo>,
    cell: u64,
) -> ExclusiveGuard
    requires pass { IsPassOf hall.now pass.old }
    requires cell { cell < (shape_of hall.now).locks }
    requires idle { IsIdle (view pass.old) }
    ensures pass { IsPassOf hall.now pass.new }
    ensures held { (result.lock ≡ cell) × (standing (view pass.new) cell ≡ Exclusive) }
    ensures others { (k : ℕ) → k ≢ cell → standing (view pass.new) k ≡ Away }
    ensures gained { Gained cell (view pass.old) (view pass.new) }
{
    match try_lock(hall, pass, cell) {
        Ok(guard) => guard,
        Err(_) => rt.abort(),
    }
}

// A shared hold, which nobody is in the way of.
fn shared<A: Abort>(
    rt: &A,
    hall: &Hall<MapCargo>,
    pass: &mut Pass<MapCargo>,
    cell: u64,
) -> SharedGuard
    requires pass { IsPassOf hall.now pass.old }
    requires cell { cell < (shape_of hall.now).locks }
    requires idle { IsIdle (view pass.old) }
    ensures pass { IsPassOf hall.now pass.new }
    ensures held { (result.lock ≡ cell) × SharedFits (shape_of hall.now) (view pass.new) result }
    ensures mode { mode_of (standing (view pass.new) cell) ≡ shared_mode }
    ensures others { (k : ℕ) → k ≢ cell → standing (view pass.new) k ≡ Away }
    ensures gained { Gained cell (view pass.old) (view pass.new) }
{
    match try_lock_shared(hall, pass, cell) {
        Ok(guard) => guard,
        Err(_) => rt.abort(),
    }
}

// Ends a hold: the pass is idle again.
#[tactic(auto, using(crate::specs::Gaining::everywhere))]
fn leave(hall: &Hall<MapCargo>, pass: &mut Pass<MapCargo>, guard: ExclusiveGuard)
    requires pass { IsPassOf hall.now pass.old }
    requires cell { guard.lock < (shape_of hall.now).locks }
    requires held { standing (view pass.old) guard.lock ≡ Exclusive }
    requires others { (k : ℕ) → k ≢ guard.lock → standing (view pass.old) k ≡ Away }
    requires settled { IsSettled guard.lock (view pass.old).part }
    requires rested { IsRested (view pass.old).part }
    ensures pass { IsPassOf hall.now pass.new }
    ensures idle { IsIdle (view pass.new) }
    ensures left { Left (view pass.old) (view pass.new) }
{
    unlock(hall, pass, guard);
}

#[tactic(auto, using(crate::specs::Gaining::everywhere))]
fn leave_shared(hall: &Hall<MapCargo>, pass: &mut Pass<MapCargo>, guard: SharedGuard)
    requires pass { IsPassOf hall.now pass.old }
    requires held { SharedFits (shape_of hall.now) (view pass.old) guard }
    requires others { (k : ℕ) → k ≢ guard.lock → standing (view pass.old) k ≡ Away }
    requires rested { IsRested (view pass.old).part }
    ensures pass { IsPassOf hall.now pass.new }
    ensures idle { IsIdle (view pass.new) }
    ensures left { Left (view pass.old) (view pass.new) }
{
    unlock_shared(hall, pass, guard);
}

fn entry_of(pass: &Pass<MapCargo>, index: u64, query: Query, said: Said) -> Entry
    ensures { result ≡ record { caller = (view pass.now).number; index = index; query = query; said = said } }
{
    Entry {
        caller: pass.number(),
        index,
        query,
        said,
    }
}

// One put from the lock to its release.
fn ask_put<A: Abort>(
    rt: &A,
    hall: &Hall<MapCargo>,
    pass: &mut Pass<MapCargo>,
    cell: u64,
    key: u64,
    value: u64,
) -> Said
    requires pass { IsPassOf hall.now pass.old × Suits hall.now }
    requires cell { (cell < (cargo_of hall.now).cells) × (cell < (shape_of hall.now).locks) }
    requires idle { IsIdle (view pass.old) }
    requires quota { 0 < (view pass.old).quota }
    ensures pass { IsPassOf hall.now pass.new }
    ensures idle { IsIdle (view pass.new) }
    ensures quota { (view pass.old).quota ≤ (view pass.new).quota + 1 }
{
    let query = Query::Put { cell, key, value };
    let guard = exclusive(rt, hall, pass, cell);
    let said = match put(hall, pass, cell, key, value) {
        Ok(Some(old)) => Said::Old(old),
        Ok(None) => Said::New,
        Err(_) => {
            let entry = entry_of(pass, 0, query, Said::Full);
            place_read(hall, pass, &entry);
            leave(hall, pass, guard);
            return Said::Full;
        }
    };
    let entry = entry_of(pass, 0, query, said);
    let Ok(_) = draw(hall, pass, &entry) else {
        unreachable!()
    };
    leave(hall, pass, guard);
    said
}

// One removal from the lock to its release.
fn ask_del<A: Abort>(
    rt: &A,
    hall: &Hall<MapCargo>,
    pass: &mut Pass<MapCargo>,
    cell: u64,
    key: u64,
) -> Said
    requires pass { IsPassOf hall.now pass.old × Suits hall.now }
    requires cell { (cell < (cargo_of hall.now).cells) × (cell < (shape_of hall.now).locks) }
    requires idle { IsIdle (view pass.old) }
    requires quota { 0 < (view pass.old).quota }
    ensures pass { IsPassOf hall.now pass.new }
    ensures idle { IsIdle (view pass.new) }
    ensures quota { (view pass.old).quota ≤ (view pass.new).quota + 1 }
{
    let query = Query::Del { cell, key };
    let guard = exclusive(rt, hall, pass, cell);
    let Some(old) = del(hall, pass, cell, key) else {
        let entry = entry_of(pass, 0, query, Said::Absent);
        place_read(hall, pass, &entry);
        leave(hall, pass, guard);
        return Said::Absent;
    };
    let entry = entry_of(pass, 0, query, Said::Old(old));
    let Ok(_) = draw(hall, pass, &entry) else {
        unreachable!()
    };
    leave(hall, pass, guard);
    Said::Old(old)
}

// One look for a key from the lock to its release.
fn ask_get<A: Abort>(
    rt: &A,
    hall: &Hall<MapCargo>,
    pass: &mut Pass<MapCargo>,
    cell: u64,
    key: u64,
) -> Said
    requires pass { IsPassOf hall.now pass.old × Suits hall.now }
    requires cell { (cell < (cargo_of hall.now).cells) × (cell < (shape_of hall.now).locks) }
    requires idle { IsIdle (view pass.old) }
    ensures pass { IsPassOf hall.now pass.new }
    ensures idle { IsIdle (view pass.new) }
    ensures quota { (view pass.new).quota ≡ (view pass.old).quota }
{
    let guard = shared(rt, hall, pass, cell);
    let said = match get(hall, pass, cell, key) {
        Some(value) => Said::Found(value),
        None => Said::Absent,
    };
    let entry = entry_of(pass, 0, Query::Get { cell, key }, said);
    place_read(hall, pass, &entry);
    leave_shared(hall, pass, guard);
    said
}

// The same under an index, with the place that it got.
fn placed_get<A: Abort>(
    rt: &A,
    hall: &Hall<MapCargo>,
    pass: &mut Pass<MapCargo>,
    cell: u64,
    key: u64,
    index: u64,
) -> (Said, u64)
    requires pass { IsPassOf hall.now pass.old × Suits hall.now }
    requires cell { (cell < (cargo_of hall.now).cells) × (cell < (shape_of hall.now).locks) }
    requires idle { IsIdle (view pass.old) }
    ensures pass { IsPassOf hall.now pass.new }
    ensures idle { IsIdle (view pass.new) }
    ensures quota { (view pass.new).quota ≡ (view pass.old).quota }
{
    let guard = shared(rt, hall, pass, cell);
    let said = match get(hall, pass, cell, key) {
        Some(value) => Said::Found(value),
        None => Said::Absent,
    };
    let entry = entry_of(pass, index, Query::Get { cell, key }, said);
    let place = place_read(hall, pass, &entry);
    leave_shared(hall, pass, guard);
    (said, place)
}

// One count of the keys from the lock to its release.
fn ask_len<A: Abort>(rt: &A, hall: &Hall<MapCargo>, pass: &mut Pass<MapCargo>, cell: u64) -> Said
    requires pass { IsPassOf hall.now pass.old × Suits hall.now }
    requires cell { (cell < (cargo_of hall.now).cells) × (cell < (shape_of hall.now).locks) }
    requires idle { IsIdle (view pass.old) }
    ensures pass { IsPassOf hall.now pass.new }
    ensures idle { IsIdle (view pass.new) }
    ensures quota { (view pass.new).quota ≡ (view pass.old).quota }
{
    let guard = shared(rt, hall, pass, cell);
    let said = Said::Count(len(hall, pass, cell));
    let entry = entry_of(pass, 0, Query::Len { cell }, said);
    place_read(hall, pass, &entry);
    leave_shared(hall, pass, guard);
    said
}

#[test]
fn one_write_and_one_read(rt: HostRuntime) {
    let cargo = MapCargo {
        cells: 1,
        rows: 8,
        writes: 1,
    };
    let made = Hall::make(rt.alloc(), 1, 32, Policy::WritePriority, 1, 1, cargo);
    let Ok((hall, first)) = made else { rt.abort() };
    let mut pass = first;
    let guard = exclusive(&rt, &hall, &mut pass, 0);
    let Ok(None) = put(&hall, &mut pass, 0, 7, 5) else {
        rt.abort()
    };
    let query = Query::Put {
        cell: 0,
        key: 7,
        value: 5,
    };
    let entry = entry_of(&pass, 0, query, Said::New);
    match draw(&hall, &mut pass, &entry) {
        Ok(number) => assert_eq!(rt; number, 0),
        Err(_) => unreachable!(),
    }
    leave(&hall, &mut pass, guard);
    let (said, place) = placed_get(&rt, &hall, &mut pass, 0, 7, 1);
    assert!(rt; said == Said::Found(5) && place == 1);
    let (said, place) = placed_get(&rt, &hall, &mut pass, 0, 8, 2);
    assert!(rt; said == Said::Absent && place == 1);
    let closed = close(hall, pass);
    assert_eq!(rt; closed.word(25), 1);
    let row = [1, 0, 1, 0, 0, 7, 5, 0];
    for index in 0..8u64 {
        assert_eq!(rt; closed.word(26 + index), row[index as usize]);
    }
    // The search for key 7 begins at row 2.
    let cell = [1, 0, 0, 0, 0, 0, 0, 1, 7, 5, 0, 0, 0];
    for index in 0..13u64 {
        assert_eq!(rt; closed.word(index), cell[index as usize]);
    }
}

// The searches for 0, 6, 1, 2, 3 begin at the rows 0, 0, 1, 2, 4 of eight.
#[test]
fn homes_in_eight_rows(rt: HostRuntime) {
    let cargo = MapCargo {
        cells: 1,
        rows: 8,
        writes: 0,
    };
    assert_eq!(rt; cargo.home(0), 0);
    assert_eq!(rt; cargo.home(6), 0);
    assert_eq!(rt; cargo.home(1), 1);
    assert_eq!(rt; cargo.home(2), 2);
    assert_eq!(rt; cargo.home(3), 4);
    assert_eq!(rt; cargo.home(7), 2);
    assert_eq!(rt; cargo.row_above(7), 0);
    assert_eq!(rt; cargo.way(6, 1), 3);
}

// Each of three keys takes the first row from its home on that isn't used.
#[test]
fn three_keys_in_three_rows(rt: HostRuntime) {
    let cargo = MapCargo {
        cells: 1,
        rows: 8,
        writes: 3,
    };
    let made = Hall::make(rt.alloc(), 1, 1, Policy::WritePriority, 1, 3, cargo);
    let Ok((hall, first)) = made else { rt.abort() };
    let mut pass = first;
    assert_eq!(rt; ask_put(&rt, &hall, &mut pass, 0, 0, 10), Said::New);
    assert_eq!(rt; ask_put(&rt, &hall, &mut pass, 0, 6, 16), Said::New);
    assert_eq!(rt; ask_put(&rt, &hall, &mut pass, 0, 1, 11), Said::New);
    assert_eq!(rt; ask_get(&rt, &hall, &mut pass, 0, 6), Said::Found(16));
    let closed = close(hall, pass);
    let cell = [3, 1, 0, 10, 1, 6, 16, 1, 1, 11, 0, 0, 0];
    for index in 0..13u64 {
        assert_eq!(rt; closed.word(index), cell[index as usize]);
    }
}

// The deletion of the first moves both others down by one row. How many words a search loads is in `get`'s clause alone.
#[test]
fn a_gap_is_closed(rt: HostRuntime) {
    let cargo = MapCargo {
        cells: 1,
        rows: 8,
        writes: 4,
    };
    let made = Hall::make(rt.alloc(), 1, 1, Policy::WritePriority, 1, 4, cargo);
    let Ok((hall, first)) = made else { rt.abort() };
    let mut pass = first;
    assert_eq!(rt; ask_put(&rt, &hall, &mut pass, 0, 0, 10), Said::New);
    assert_eq!(rt; ask_put(&rt, &hall, &mut pass, 0, 6, 16), Said::New);
    assert_eq!(rt; ask_put(&rt, &hall, &mut pass, 0, 1, 11), Said::New);
    assert_eq!(rt; ask_del(&rt, &hall, &mut pass, 0, 0), Said::Old(10));
    assert_eq!(rt; ask_get(&rt, &hall, &mut pass, 0, 6), Said::Found(16));
    assert_eq!(rt; ask_get(&rt, &hall, &mut pass, 0, 1), Said::Found(11));
    assert_eq!(rt; ask_get(&rt, &hall, &mut pass, 0, 3), Said::Absent);
    let closed = close(hall, pass);
    let rows = [2, 1, 6, 16, 1, 1, 11, 0];
    for index in 0..8u64 {
        assert_eq!(rt; closed.word(index), rows[index as usize]);
    }
    for row in 3..8u64 {
        assert_eq!(rt; closed.word(3 * row + 1), 0);
    }
}

// The key of a slot: the last one is the largest.
fn key_of(slot: u64) -> u64 {
    if slot == 9 { u64::MAX } else { slot }
}

// Each of ten keys has what the plain map says, where 0 says that it is absent.
fn says_the_same<A: Abort>(
    rt: &A,
    hall: &Hall<MapCargo>,
    pass: &mut Pass<MapCargo>,
    plain: &[u64; 10],
)
    requires pass { IsPassOf hall.now pass.old × Suits hall.now }
    requires cell { (0 < (cargo_of hall.now).cells) × (0 < (shape_of hall.now).locks) }
    requires idle { IsIdle (view pass.old) }
    ensures pass { IsPassOf hall.now pass.new }
    ensures idle { IsIdle (view pass.new) }
    ensures quota { (view pass.new).quota ≡ (view pass.old).quota }
{
    for slot in 0..10u64 {
        let value = plain[slot as usize];
        let want = if value == 0 {
            Said::Absent
        } else {
            Said::Found(value)
        };
        assert_eq!(rt; ask_get(rt, hall, pass, 0, key_of(slot)), want);
    }
}

// One put or removal, in the cell and in the plain map, by a number that says which.
fn ask_both<A: Abort>(
    rt: &A,
    hall: &Hall<MapCargo>,
    pass: &mut Pass<MapCargo>,
    plain: &mut [u64; 10],
    value: u64,
    number: u64,
)
    requires pass { IsPassOf hall.now pass.old × Suits hall.now }
    requires cell { (0 < (cargo_of hall.now).cells) × (0 < (shape_of hall.now).locks) }
    requires idle { IsIdle (view pass.old) }
    requires quota { 0 < (view pass.old).quota }
    ensures pass { IsPassOf hall.now pass.new }
    ensures idle { IsIdle (view pass.new) }
    ensures quota { (view pass.old).quota ≤ (view pass.new).quota + 1 }
{
    let slot = number % 10;
    let index = slot as usize;
    let before = plain[index];
    if number / 10 % 8 < 3 {
        let want = if before == 0 {
            Said::Absent
        } else {
            Said::Old(before)
        };
        assert_eq!(rt; ask_del(rt, hall, pass, 0, key_of(slot)), want);
        plain[index] = 0;
        return;
    }
    let count = plain.iter().filter(|value| **value > 0).count() as u64;
    if before == 0 && count == hall.cargo().rows {
        assert_eq!(rt; ask_put(rt, hall, pass, 0, key_of(slot), value), Said::Full);
        return;
    }
    let want = if before == 0 {
        Said::New
    } else {
        Said::Old(before)
    };
    assert_eq!(rt; ask_put(rt, hall, pass, 0, key_of(slot), value), want);
    plain[index] = value;
}

// Puts and removals one after the other; after each the cell has what the plain map has.
fn ask_many<A: Abort>(rt: &A, hall: &Hall<MapCargo>, pass: &mut Pass<MapCargo>, times: u64)
    requires pass { IsPassOf hall.now pass.old × Suits hall.now }
    requires cell { (0 < (cargo_of hall.now).cells) × (0 < (shape_of hall.now).locks) }
    requires idle { IsIdle (view pass.old) }
    requires quota { times ≤ (view pass.old).quota }
    ensures pass { IsPassOf hall.now pass.new }
    ensures idle { IsIdle (view pass.new) }
{
    let mut plain = [0; 10];
    let mut state = 1u64;
    for value in 0..times {
        state = state
            .wrapping_mul(6364136223846793005)
            .wrapping_add(1442695040888963407);
        ask_both(
            rt,
            hall,
            pass,
            &mut plain,
            value.wrapping_add(1),
            state >> 33,
        );
        says_the_same(rt, hall, pass, &plain);
    }
}

// A table of so many rows beside a plain map. At the end its length is the number of its used rows.
fn beside_a_plain_map<A: Abort>(rt: &A, alloc: Global, rows: u64)
    requires { (0 < rows) × (rows ≤ 10) }
{
    let cargo = MapCargo {
        cells: 1,
        rows,
        writes: 2000,
    };
    let made = Hall::make(alloc, 1, 1, Policy::WritePriority, 1, 2000, cargo);
    let Ok((hall, first)) = made else { rt.abort() };
    let mut pass = first;
    ask_many(rt, &hall, &mut pass, 2000);
    let closed = close(hall, pass);
    let mut used = 0u64;
    for row in 0..rows {
        used = used.wrapping_add(closed.word(3 * row + 1));
    }
    assert_eq!(rt; closed.word(0), used);
}

// These tables are full again and again, but the last one, which has a row for each key.
#[test]
fn one_row_beside_a_plain_map(rt: HostRuntime) {
    beside_a_plain_map(&rt, rt.alloc(), 1);
}

#[test]
fn three_rows_beside_a_plain_map(rt: HostRuntime) {
    beside_a_plain_map(&rt, rt.alloc(), 3);
}

#[test]
fn seven_rows_beside_a_plain_map(rt: HostRuntime) {
    beside_a_plain_map(&rt, rt.alloc(), 7);
}

#[test]
fn ten_rows_beside_a_plain_map(rt: HostRuntime) {
    beside_a_plain_map(&rt, rt.alloc(), 10);
}

// Two rows: the third key finds no room, until a deletion makes some.
#[test]
fn a_small_table_of_queries(rt: HostRuntime) {
    let cargo = MapCargo {
        cells: 2,
        rows: 2,
        writes: 20,
    };
    let made = Hall::make(rt.alloc(), 2, 1, Policy::ReadPriority, 1, 20, cargo);
    let Ok((hall, first)) = made else { rt.abort() };
    let mut pass = first;
    assert_eq!(rt; ask_put(&rt, &hall, &mut pass, 1, 1, 10), Said::New);
    assert_eq!(rt; ask_put(&rt, &hall, &mut pass, 1, 1, 11), Said::Old(10));
    assert_eq!(rt; ask_put(&rt, &hall, &mut pass, 1, 2, 20), Said::New);
    assert_eq!(rt; ask_put(&rt, &hall, &mut pass, 1, 3, 30), Said::Full);
    assert_eq!(rt; ask_len(&rt, &hall, &mut pass, 1), Said::Count(2));
    assert_eq!(rt; ask_len(&rt, &hall, &mut pass, 0), Said::Count(0));
    assert_eq!(rt; ask_get(&rt, &hall, &mut pass, 1, 3), Said::Absent);
    assert_eq!(rt; ask_del(&rt, &hall, &mut pass, 1, 1), Said::Old(11));
    assert_eq!(rt; ask_del(&rt, &hall, &mut pass, 1, 1), Said::Absent);
    assert_eq!(rt; ask_get(&rt, &hall, &mut pass, 1, 2), Said::Found(20));
    assert_eq!(rt; ask_put(&rt, &hall, &mut pass, 1, 3, 30), Said::New);
    assert_eq!(rt; ask_put(&rt, &hall, &mut pass, 1, 2, 21), Said::Old(20));
    assert_eq!(rt; ask_get(&rt, &hall, &mut pass, 1, 3), Said::Found(30));
    assert_eq!(rt; ask_get(&rt, &hall, &mut pass, 0, 3), Said::Absent);
}

// Without a quota nothing is drawn, and the cell is put back as it was.
#[test]
fn no_quota(rt: HostRuntime) {
    let cargo = MapCargo {
        cells: 1,
        rows: 2,
        writes: 1,
    };
    let made = Hall::make(rt.alloc(), 1, 1, Policy::WritePriority, 1, 0, cargo);
    let Ok((hall, first)) = made else { rt.abort() };
    let mut pass = first;
    let guard = exclusive(&rt, &hall, &mut pass, 0);
    let Ok(None) = put(&hall, &mut pass, 0, 7, 5) else {
        rt.abort()
    };
    let query = Query::Put {
        cell: 0,
        key: 7,
        value: 5,
    };
    let entry = entry_of(&pass, 0, query, Said::New);
    let Err(QuotaSpent) = draw(&hall, &mut pass, &entry) else {
        unreachable!()
    };
    let Some(5) = del(&hall, &mut pass, 0, 7) else {
        rt.abort()
    };
    leave(&hall, &mut pass, guard);
    let closed = close(hall, pass);
    for place in 0..16 {
        let left = if place == 2 {
            7
        } else if place == 3 {
            5
        } else {
            0
        };
        assert_eq!(rt; closed.word(place), left);
    }
}

// A try to read that a holder is in the way of: it is refused, and told.
fn refused_get<A: Abort>(
    rt: &A,
    hall: &Hall<MapCargo>,
    pass: &mut Pass<MapCargo>,
    cell: u64,
    key: u64,
)
    requires pass { IsPassOf hall.now pass.old }
    requires cell { cell < (shape_of hall.now).locks }
    requires idle { IsIdle (view pass.old) }
    ensures pass { IsPassOf hall.now pass.new }
    ensures idle { IsIdle (view pass.new) }
    ensures told { (view pass.new).part.told ≡ told.Refused (view pass.old).number 3 (TryGet cell key) Busy ∷ (view pass.old).part.told }
    ensures others { 1 < (shape_of hall.now).seats }
{
    match try_lock_shared(hall, pass, cell) {
        Ok(_) => rt.abort(),
        Err(TryFault::Raced { .. }) => rt.abort(),
        Err(TryFault::Busy { .. }) => {}
    }
    note_refused(hall, pass, 3, &Query::TryGet { cell, key }, &Reply::Busy);
}

// The first seat holds the cell when the second tries to read it. The refusal is told, and no write is drawn.
#[test]
fn a_refused_try(rt: HostRuntime) {
    let cargo = MapCargo {
        cells: 1,
        rows: 2,
        writes: 1,
    };
    let made = Hall::make(rt.alloc(), 1, 1, Policy::WritePriority, 2, 0, cargo);
    let Ok((hall, first)) = made else { rt.abort() };
    let mut first = first;
    let second = hall.split(&mut first, 1, 0);
    let mut second = second;
    let guard = exclusive(&rt, &hall, &mut first, 0);
    refused_get(&rt, &hall, &mut second, 0, 7);
    leave(&hall, &mut first, guard);
    hall.join(&mut first, second);
    let closed = close(hall, first);
    for place in 0..16 {
        assert_eq!(rt; closed.word(place), 0);
    }
}

// Fills a cell, a write for each key.
fn fill<A: Abort>(rt: &A, hall: &Hall<MapCargo>, pass: &mut Pass<MapCargo>, cell: u64, times: u64)
    requires pass { IsPassOf hall.now pass.old × Suits hall.now }
    requires cell { (cell < (cargo_of hall.now).cells) × (cell < (shape_of hall.now).locks) }
    requires idle { IsIdle (view pass.old) }
    requires quota { times ≤ (view pass.old).quota }
    ensures pass { IsPassOf hall.now pass.new }
    ensures idle { IsIdle (view pass.new) }
{
    for key in 0..times {
        ask_put(rt, hall, pass, cell, key, 1);
    }
}

fn by_two_threads<R: Threads + Wait + Abort + Sync>(
    rt: &R,
    hall: &Hall<MapCargo>,
    mut left: Pass<MapCargo>,
    mut right: Pass<MapCargo>,
) -> (Pass<MapCargo>, Pass<MapCargo>)
    requires left { IsPassOf hall.now left × IsIdle (view left) × (100 ≤ (view left).quota) }
    requires right { IsPassOf hall.now right × IsIdle (view right) × (100 ≤ (view right).quota) }
    requires two { Suits hall.now × (1 < (cargo_of hall.now).cells) × (1 < (shape_of hall.now).locks) }
    ensures left { IsPassOf hall.now result.0 × IsIdle (view result.0) }
    ensures right { IsPassOf hall.now result.1 × IsIdle (view result.1) }
{
    thread::join(
        rt,
        move || -> Pass<MapCargo>
            requires { IsPassOf hall.now left × IsIdle (view left) × (100 ≤ (view left).quota) × Suits hall.now × (1 < (cargo_of hall.now).cells) × (1 < (shape_of hall.now).locks) }
            ensures { IsPassOf hall.entry.now result × IsIdle (view result) }
        {
            fill(rt, hall, &mut left, 0, 100);
            left
        },
        move || -> Pass<MapCargo>
            requires { IsPassOf hall.now right × IsIdle (view right) × (100 ≤ (view right).quota) × Suits hall.now × (1 < (cargo_of hall.now).cells) × (1 < (shape_of hall.now).locks) }
            ensures { IsPassOf hall.entry.now result × IsIdle (view result) }
        {
            fill(rt, hall, &mut right, 1, 100);
            right
        },
    )
}

// Whatever the schedule was, each of the two hundred writes has its number, its log row and its key.
#[test]
fn two_threads_on_two_cells(rt: HostRuntime) {
    let cargo = MapCargo {
        cells: 2,
        rows: 100,
        writes: 200,
    };
    let made = Hall::make(rt.alloc(), 2, 4, Policy::WritePriority, 2, 200, cargo);
    let Ok((hall, first)) = made else { rt.abort() };
    let mut first = first;
    let second = hall.split(&mut first, 1, 100);
    let (left, right) = by_two_threads(&rt, &hall, first, second);
    let mut left = left;
    hall.join(&mut left, right);
    let closed = close(hall, left);
    assert_eq!(rt; closed.word(0), 100);
    assert_eq!(rt; closed.word(301), 100);
    assert_eq!(rt; closed.word(602), 200);
    let mut callers = 0u64;
    for number in 0..200 {
        callers = callers.wrapping_add(closed.word(603 + 8 * number));
    }
    assert_eq!(rt; callers, 300);
}
