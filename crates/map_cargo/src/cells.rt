//! Reading and writing the words of a cell that is held.
//!
//! A cell has its length and then its rows, of three words each: used (0 or 1), key and value. The search for a key
//! begins at its home and goes up from row to row, as far as the key's row or one that isn't used: each row from a
//! key's home up to its row is used. A deletion closes the gap that it makes.
ghost use Rattle.std.specs.Prelude.{◌≡◌, ◌≢◌, ◌<◌, ◌+◌, ◌*◌, ◌∷◌, ◌++◌, ℕ, List, true, length, slice_index, slice_set, Some, None, MatchResult, MatchOption, IfSome};
ghost use Rattle.hall.specs.Cargo.{exclusive_mode};
ghost use Rattle.hall.specs.Passes.{view, IsPassOf, cargo_of};
ghost use Rattle.hall.specs.Views.{standing, mode_of};
ghost use Rattle.hall.specs.declared.view.StepKind.TheVariants.{StoreCargo};
ghost use Rattle.hall.specs.declared.view.StepEntry.{StepEntry};
ghost use Rattle.query_rules.specs.Maps.{PlainMap, with_value, without};
ghost use Rattle.map_cargo.specs.Cells.{width, Means};
ghost use Rattle.map_cargo.specs.History.{words_of};
ghost use Rattle.map_cargo.specs.Probes.{loaded, StaysInCell, Probes, Sought, Ends};
ghost use Rattle.map_cargo.specs.Rows.{home, key_at, value_in, IsUsed, Passed, Table, Closing, WithRow, Moved, IsNext, Closes, Removed};
ghost use Rattle.map_cargo.specs.Steps.{Suits, Alike, Reworded, rewrote, cargo_step};

use crate::size::MapCargo;
use hall::{Hall, Note, Pass};
use std::error::Error;
use std::fmt;
use std::marker::{Brand, PhantomData};

/// The word and the value of one call. The call picks them.
pub(crate) trait CallWord {
    ghost use Rattle.std.specs.Prelude.{ℕ};

    ghost cell: { ℕ };

    ghost index: { ℕ };

    ghost value: { ℕ };

    ghost width: { ℕ };
}

impl CallWord for Brand {
    ghost cell = { 0 };

    ghost index = { 0 };

    ghost value = { 0 };

    ghost width = { 0 };
}

pub(crate) struct Saw<K> {
    marker: PhantomData<K>,
}

impl<K: CallWord> Note<MapCargo> for Saw<K> {
    ghost becomes = { λ ws found p q. (q ≡ p) × (found ≡ slice_index (words_of p K.cell) K.index) × (length (words_of p K.cell) ≡ K.width) };
}

pub(crate) struct Wrote<K> {
    marker: PhantomData<K>,
}

impl<K: CallWord> Note<MapCargo> for Wrote<K> {
    ghost becomes = { λ ws found p q. (q ≡ rewrote p K.cell K.index K.value) × (length (words_of p K.cell) ≡ K.width) };
}

fn word_by<K: CallWord>(
    hall: &Hall<MapCargo>,
    pass: &mut Pass<MapCargo>,
    cell: u64,
    index: u64,
) -> u64
    requires pass { IsPassOf hall.now pass.old }
    requires suits { Suits hall.now }
    requires cell { (cell < (cargo_of hall.now).cells) × (cell ≡ K.cell) }
    requires index { (index < width (cargo_of hall.now)) × (index ≡ K.index) × (width (cargo_of hall.now) ≡ K.width) }
    requires held { mode_of (standing (view pass.old) cell) ≢ None }
    ensures pass { IsPassOf hall.now pass.new × Alike (view pass.old) (view pass.new) }
    ensures part { (view pass.new).part ≡ (view pass.old).part }
    ensures word { result ≡ slice_index (words_of (view pass.old).part cell) index }
    ensures step { (view pass.new).steps ≡ loaded (cargo_of hall.now) (view pass.old) cell index result ∷ (view pass.old).steps }
    ensures length { length (words_of (view pass.old).part cell) ≡ width (cargo_of hall.now) }
{
    let first = cell * hall.cargo().width();
    hall.load_cargo::<Saw<K>>(pass, first + index)
}

/// A word of a cell that the pass holds.
pub(crate) fn word(hall: &Hall<MapCargo>, pass: &mut Pass<MapCargo>, cell: u64, index: u64) -> u64
    requires pass { IsPassOf hall.now pass.old }
    requires suits { Suits hall.now }
    requires cell { cell < (cargo_of hall.now).cells }
    requires index { index < width (cargo_of hall.now) }
    requires held { mode_of (standing (view pass.old) cell) ≢ None }
    ensures pass { IsPassOf hall.now pass.new × Alike (view pass.old) (view pass.new) }
    ensures part { (view pass.new).part ≡ (view pass.old).part }
    ensures word { result ≡ slice_index (words_of (view pass.old).part cell) index }
    ensures step { (view pass.new).steps ≡ loaded (cargo_of hall.now) (view pass.old) cell index result ∷ (view pass.old).steps }
    ensures length { length (words_of (view pass.old).part cell) ≡ width (cargo_of hall.now) }
{
    word_by::<Brand>(hall, pass, cell, index)
}

fn set_word_by<K: CallWord>(
    hall: &Hall<MapCargo>,
    pass: &mut Pass<MapCargo>,
    cell: u64,
    index: u64,
    value: u64,
)
    requires pass { IsPassOf hall.now pass.old }
    requires suits { Suits hall.now }
    requires cell { (cell < (cargo_of hall.now).cells) × (cell ≡ K.cell) }
    requires index { (index < width (cargo_of hall.now)) × (index ≡ K.index) × (width (cargo_of hall.now) ≡ K.width) }
    requires value { value ≡ K.value }
    requires held { mode_of (standing (view pass.old) cell) ≡ exclusive_mode }
    ensures pass { IsPassOf hall.now pass.new × Alike (view pass.old) (view pass.new) }
    ensures part { (view pass.new).part ≡ rewrote (view pass.old).part cell index value }
    ensures length { length (words_of (view pass.old).part cell) ≡ width (cargo_of hall.now) }
    ensures step { (view pass.new).steps ≡ cargo_step (view pass.old) StoreCargo (cell * width (cargo_of hall.now) + index) value true ∷ (view pass.old).steps }
{
    let first = cell * hall.cargo().width();
    hall.store_cargo::<Wrote<K>>(pass, first + index, value);
}

/// Stores a word of a cell that the pass holds exclusively.
pub(crate) fn set_word(
    hall: &Hall<MapCargo>,
    pass: &mut Pass<MapCargo>,
    cell: u64,
    index: u64,
    value: u64,
)
    requires pass { IsPassOf hall.now pass.old }
    requires suits { Suits hall.now }
    requires cell { cell < (cargo_of hall.now).cells }
    requires index { index < width (cargo_of hall.now) }
    requires held { mode_of (standing (view pass.old) cell) ≡ exclusive_mode }
    ensures pass { IsPassOf hall.now pass.new × Alike (view pass.old) (view pass.new) }
    ensures words { words_of (view pass.new).part cell ≡ slice_set (words_of (view pass.old).part cell) index value }
    ensures part { Reworded cell (view pass.old).part (view pass.new).part }
    ensures length { length (words_of (view pass.old).part cell) ≡ width (cargo_of hall.now) }
    ensures step { (view pass.new).steps ≡ cargo_step (view pass.old) StoreCargo (cell * width (cargo_of hall.now) + index) value true ∷ (view pass.old).steps }
{
    set_word_by::<Brand>(hall, pass, cell, index, value);
}

/// How many keys a cell has, which the pass holds in any mode.
pub fn len(hall: &Hall<MapCargo>, pass: &mut Pass<MapCargo>, cell: u64) -> u64
    requires pass { IsPassOf hall.now pass.old }
    requires suits { Suits hall.now }
    requires cell { cell < (cargo_of hall.now).cells }
    requires held { mode_of (standing (view pass.old) cell) ≢ None }
    ensures pass { IsPassOf hall.now pass.new × Alike (view pass.old) (view pass.new) }
    ensures part { (view pass.new).part ≡ (view pass.old).part }
    ensures counted { (m : PlainMap) → Means (words_of (view pass.old).part cell) m → result ≡ m.count }
    ensures inside { StaysInCell (cargo_of hall.now) cell (view pass.old) (view pass.new) }
    ensures load { (view pass.new).steps ≡ loaded (cargo_of hall.now) (view pass.old) cell 0 result ∷ (view pass.old).steps }
{
    word(hall, pass, cell, 0)
}

/// Where a key is, or where the search for it ended.
#[derive(Clone, Copy)]
pub(crate) enum Search {
    /// In this row.
    Here(u64),
    /// Nowhere, and this is the first row up from its home that isn't used.
    Free(u64),
    /// Nowhere, and each row is used.
    Nowhere,
}

// Looks for a key, from its home on.
#[tactic(auto, using(crate::specs::StepLaws::alike_then))]
fn find(hall: &Hall<MapCargo>, pass: &mut Pass<MapCargo>, cell: u64, key: u64) -> Search
    requires pass { IsPassOf hall.now pass.old }
    requires suits { Suits hall.now }
    requires cell { cell < (cargo_of hall.now).cells }
    requires held { mode_of (standing (view pass.old) cell) ≢ None }
    requires whole { (m : PlainMap) × Means (words_of (view pass.old).part cell) m }
    ensures pass { IsPassOf hall.now pass.new × Alike (view pass.old) (view pass.new) }
    ensures part { (view pass.new).part ≡ (view pass.old).part }
    ensures length { length (words_of (view pass.old).part cell) ≡ width (cargo_of hall.now) }
    ensures ends { Ends (cargo_of hall.now).rows (words_of (view pass.old).part cell) key result }
    ensures loads { (added : List StepEntry) × ((view pass.new).steps ≡ added ++ (view pass.old).steps) × Sought (cargo_of hall.now) (view pass.old) cell key result added }
    ensures inside { StaysInCell (cargo_of hall.now) cell (view pass.old) (view pass.new) }
{
    let rows = hall.cargo().rows;
    let mut row = hall.cargo().home(key);
    let mut walked = 0;
    while walked < rows {
        if word(hall, pass, cell, 3 * row + 1) == 0 {
            return Search::Free(row);
        }
        if word(hall, pass, cell, 3 * row + 2) == key {
            return Search::Here(row);
        }
        row = hall.cargo().row_above(row);
        walked += 1;
    }
    Search::Nowhere
}

/// The value of a key in a cell, which the pass holds in any mode. It looks at the rows from the key's home on, as far
/// as the key's or one that isn't used.
#[tactic(auto, using(crate::specs::StepLaws::alike_then))]
pub fn get(hall: &Hall<MapCargo>, pass: &mut Pass<MapCargo>, cell: u64, key: u64) -> Option<u64>
    requires pass { IsPassOf hall.now pass.old }
    requires suits { Suits hall.now }
    requires cell { cell < (cargo_of hall.now).cells }
    requires held { mode_of (standing (view pass.old) cell) ≢ None }
    requires whole { (m : PlainMap) × Means (words_of (view pass.old).part cell) m }
    ensures pass { IsPassOf hall.now pass.new × Alike (view pass.old) (view pass.new) }
    ensures part { (view pass.new).part ≡ (view pass.old).part }
    ensures got { (m : PlainMap) → Means (words_of (view pass.old).part cell) m → result ≡ m.value_at key }
    ensures loads { (added : List StepEntry) × ((view pass.new).steps ≡ added ++ (view pass.old).steps) × Probes (cargo_of hall.now) (view pass.old) cell key (home (cargo_of hall.now).rows key) (cargo_of hall.now).rows result added }
    ensures inside { StaysInCell (cargo_of hall.now) cell (view pass.old) (view pass.new) }
{
    match find(hall, pass, cell, key) {
        Search::Here(row) => Some(word(hall, pass, cell, 3 * row + 3)),
        Search::Free(_) => None,
        Search::Nowhere => None,
    }
}

/// The cell has no room for another key: each of its rows is used.
#[derive(Clone, Copy, Debug, PartialEq, Eq)]
pub struct CellFull {
    pub rows: u64,
}

impl fmt::Display for CellFull {
    fn fmt<W: fmt::Write>(&self, f: &mut fmt::Formatter<W>) -> fmt::Result {
        let rows = self.rows;
        write!(f, "each of the {rows} rows of the cell is used")
    }
}

impl Error for CellFull {}

/// Gives a key this value in a cell that the pass holds exclusively, and answers the value before. `CellFull` comes
/// exactly where the key is absent and each row is used; then nothing is changed. It looks at the rows from the key's
/// home on, as far as the key's or one that isn't used.
pub fn put(
    hall: &Hall<MapCargo>,
    pass: &mut Pass<MapCargo>,
    cell: u64,
    key: u64,
    value: u64,
) -> Result<Option<u64>, CellFull>
    requires pass { IsPassOf hall.now pass.old }
    requires suits { Suits hall.now }
    requires cell { cell < (cargo_of hall.now).cells }
    requires held { mode_of (standing (view pass.old) cell) ≡ exclusive_mode }
    requires whole { (m : PlainMap) × Means (words_of (view pass.old).part cell) m }
    ensures pass { IsPassOf hall.now pass.new × Alike (view pass.old) (view pass.new) }
    ensures part { Reworded cell (view pass.old).part (view pass.new).part }
    ensures put { (m : PlainMap) → Means (words_of (view pass.old).part cell) m → MatchResult result (λ before. (before ≡ m.value_at key) × (before ≡ None → m.count < (cargo_of hall.now).rows) × Means (words_of (view pass.new).part cell) (with_value m key value)) (λ full. (full.rows ≡ (cargo_of hall.now).rows) × (m.value_at key ≡ None) × (m.count ≡ (cargo_of hall.now).rows) × (view pass.new).part ≡ (view pass.old).part) }
    ensures inside { StaysInCell (cargo_of hall.now) cell (view pass.old) (view pass.new) }
{
    match find(hall, pass, cell, key) {
        Search::Here(row) => {
            let before = word(hall, pass, cell, 3 * row + 3);
            set_word(hall, pass, cell, 3 * row + 3, value);
            Ok(Some(before))
        }
        Search::Free(row) => {
            let count = word(hall, pass, cell, 0);
            set_row(hall, pass, cell, row, key, value);
            set_word(hall, pass, cell, 0, count + 1);
            Ok(None)
        }
        Search::Nowhere => Err(CellFull {
            rows: hall.cargo().rows,
        }),
    }
}

// Makes a row used, by this key with this value.
fn set_row(
    hall: &Hall<MapCargo>,
    pass: &mut Pass<MapCargo>,
    cell: u64,
    row: u64,
    key: u64,
    value: u64,
)
    requires pass { IsPassOf hall.now pass.old }
    requires suits { Suits hall.now }
    requires cell { cell < (cargo_of hall.now).cells }
    requires row { row < (cargo_of hall.now).rows }
    requires held { mode_of (standing (view pass.old) cell) ≡ exclusive_mode }
    ensures pass { IsPassOf hall.now pass.new × Alike (view pass.old) (view pass.new) }
    ensures part { Reworded cell (view pass.old).part (view pass.new).part }
    ensures row { WithRow (words_of (view pass.old).part cell) (words_of (view pass.new).part cell) row 1 key value }
    ensures inside { StaysInCell (cargo_of hall.now) cell (view pass.old) (view pass.new) }
{
    set_word(hall, pass, cell, 3 * row + 1, 1);
    set_word(hall, pass, cell, 3 * row + 2, key);
    set_word(hall, pass, cell, 3 * row + 3, value);
}

// Moves a row into a gap: its own place is the gap.
fn move_row(hall: &Hall<MapCargo>, pass: &mut Pass<MapCargo>, cell: u64, from: u64, gap: u64)
    requires pass { IsPassOf hall.now pass.old }
    requires suits { Suits hall.now }
    requires cell { cell < (cargo_of hall.now).cells }
    requires from { from < (cargo_of hall.now).rows }
    requires gap { gap < (cargo_of hall.now).rows }
    requires held { mode_of (standing (view pass.old) cell) ≡ exclusive_mode }
    ensures pass { IsPassOf hall.now pass.new × Alike (view pass.old) (view pass.new) }
    ensures part { Reworded cell (view pass.old).part (view pass.new).part }
    ensures moved { Moved (words_of (view pass.old).part cell) (words_of (view pass.new).part cell) from gap }
    ensures inside { StaysInCell (cargo_of hall.now) cell (view pass.old) (view pass.new) }
{
    let key = word(hall, pass, cell, 3 * from + 2);
    let value = word(hall, pass, cell, 3 * from + 3);
    set_word(hall, pass, cell, 3 * from + 1, 0);
    set_row(hall, pass, cell, gap, key, value);
}

// The first row up from a gap that may stand in it, as far as the next row that isn't used, or once round.
fn row_for(hall: &Hall<MapCargo>, pass: &mut Pass<MapCargo>, cell: u64, gap: u64) -> Option<u64>
    requires pass { IsPassOf hall.now pass.old }
    requires suits { Suits hall.now }
    requires cell { cell < (cargo_of hall.now).cells }
    requires held { mode_of (standing (view pass.old) cell) ≢ None }
    requires closing { (m : PlainMap) × Closing (cargo_of hall.now).rows (words_of (view pass.old).part cell) m gap }
    ensures pass { IsPassOf hall.now pass.new × Alike (view pass.old) (view pass.new) }
    ensures part { (view pass.new).part ≡ (view pass.old).part }
    ensures row { MatchOption result (Passed (cargo_of hall.now).rows (words_of (view pass.old).part cell) gap) (λ from. IsNext (cargo_of hall.now).rows (words_of (view pass.old).part cell) gap from) }
    ensures inside { StaysInCell (cargo_of hall.now) cell (view pass.old) (view pass.new) }
{
    let rows = hall.cargo().rows;
    let mut row = hall.cargo().row_above(gap);
    let mut distance = 1;
    while distance < rows {
        if word(hall, pass, cell, 3 * row + 1) == 0 {
            return None;
        }
        let home = hall.cargo().home(word(hall, pass, cell, 3 * row + 2));
        if hall.cargo().way(home, gap) < hall.cargo().way(home, row) {
            return Some(row);
        }
        row = hall.cargo().row_above(row);
        distance += 1;
    }
    None
}

// Clears a row, and moves into the gap what may stand in it, until nothing may.
fn close_gap(hall: &Hall<MapCargo>, pass: &mut Pass<MapCargo>, cell: u64, row: u64)
    requires pass { IsPassOf hall.now pass.old }
    requires suits { Suits hall.now }
    requires cell { cell < (cargo_of hall.now).cells }
    requires held { mode_of (standing (view pass.old) cell) ≡ exclusive_mode }
    requires used { IsUsed (cargo_of hall.now).rows (words_of (view pass.old).part cell) row }
    requires whole { (m : PlainMap) × Table (cargo_of hall.now).rows (words_of (view pass.old).part cell) m }
    ensures pass { IsPassOf hall.now pass.new × Alike (view pass.old) (view pass.new) }
    ensures part { Reworded cell (view pass.old).part (view pass.new).part }
    ensures closed { (m : PlainMap) → Table (cargo_of hall.now).rows (words_of (view pass.old).part cell) m → Table (cargo_of hall.now).rows (words_of (view pass.new).part cell) (without m (key_at (words_of (view pass.old).part cell) row)) }
    ensures moves { (clear : List ℕ) × WithRow (words_of (view pass.old).part cell) clear row 0 (key_at (words_of (view pass.old).part cell) row) (value_in (words_of (view pass.old).part cell) row) × (moves : List ℕ) × Closes (cargo_of hall.now).rows clear row moves (words_of (view pass.new).part cell) }
    ensures inside { StaysInCell (cargo_of hall.now) cell (view pass.old) (view pass.new) }
{
    set_word(hall, pass, cell, 3 * row + 1, 0);
    let mut gap = row;
    while let Some(from) = row_for(hall, pass, cell, gap) {
        move_row(hall, pass, cell, from, gap);
        gap = from;
    }
}

/// Removes a key from a cell that the pass holds exclusively, and answers the value that it had. `None` changes
/// nothing.
///
/// It closes the gap: going up from it, as far as the next row that isn't used or once round, each row that may stand
/// in the gap moves there, and its own place becomes the gap, from which it goes on. A row may stand in the gap if each
/// row from its key's home up to the gap is used then.
pub fn del(hall: &Hall<MapCargo>, pass: &mut Pass<MapCargo>, cell: u64, key: u64) -> Option<u64>
    requires pass { IsPassOf hall.now pass.old }
    requires suits { Suits hall.now }
    requires cell { cell < (cargo_of hall.now).cells }
    requires held { mode_of (standing (view pass.old) cell) ≡ exclusive_mode }
    requires whole { (m : PlainMap) × Means (words_of (view pass.old).part cell) m }
    ensures pass { IsPassOf hall.now pass.new × Alike (view pass.old) (view pass.new) }
    ensures part { Reworded cell (view pass.old).part (view pass.new).part }
    ensures del { (m : PlainMap) → Means (words_of (view pass.old).part cell) m → MatchOption result ((m.value_at key ≡ None) × ((view pass.new).part ≡ (view pass.old).part)) (λ before. (m.value_at key ≡ Some before) × Means (words_of (view pass.new).part cell) (without m key)) }
    ensures moves { IfSome result (λ _. Removed (cargo_of hall.now).rows (words_of (view pass.old).part cell) (words_of (view pass.new).part cell) key) }
    ensures inside { StaysInCell (cargo_of hall.now) cell (view pass.old) (view pass.new) }
{
    match find(hall, pass, cell, key) {
        Search::Here(row) => {
            let before = word(hall, pass, cell, 3 * row + 3);
            let count = word(hall, pass, cell, 0);
            close_gap(hall, pass, cell, row);
            set_word(hall, pass, cell, 0, count - 1);
            Some(before)
        }
        Search::Free(_) => None,
        Search::Nowhere => None,
    }
}
