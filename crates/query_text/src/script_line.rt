//! The lines of a script.
ghost use Rattle.std.specs.Prelude.{◌≡◌, ◌≤◌, ◌<◌, [], length, map, nat_le};
ghost use Rattle.std.specs.List.{list_any};
ghost use Rattle.query_rules.specs.Grammar as grammar;
ghost use Rattle.query_text.specs.declared.script_line.LineFault.TheVariants.{NoMemory};
ghost use Rattle.query_text.specs.Reads.{Reads, Says};

use crate::Callers;
use crate::number::numbers;
use crate::words::spell_words;
use arrayvec::ArrayVec;
use ql_base::NoMemory;
use query_rules::{Cause, MOST_CALLERS, MOST_CELLS, Verb};

/// Why a line was not taken.
#[derive(Clone, Copy, Debug, PartialEq, Eq)]
pub enum LineFault {
    Bad(Cause),
    NoMemory,
}

impl From<NoMemory> for LineFault {
    ghost from_gives = { λ _ e. e ≡ NoMemory };

    fn from(_: NoMemory) -> Self {
        LineFault::NoMemory
    }
}

/// What line 1 says: the number of cells.
pub fn first_line(line: &[u8]) -> Result<u64, Cause>
    ensures { Says (λ cells. record { cells = cells; callers = [] }) result (grammar.spelled_line grammar.cells_line line.now) }
{
    let mut words = ArrayVec::new();
    match spell_words(line, &mut words) {
        Ok(()) => cells_line(&words),
        Err(cause) => Err(cause),
    }
}

fn cells_line(words: &[&[u8]]) -> Result<u64, Cause>
    ensures { Says (λ cells. record { cells = cells; callers = [] }) result (grammar.cells_line (map (λ w. w.now) words.now)) }
{
    if words.is_empty() || words[0] != b"cells".as_slice() {
        return Err(Cause::MissingCells);
    }
    if words.len() != 2 {
        return Err(Cause::WordCount);
    }
    let mut cells = ArrayVec::new();
    if numbers(&words[1..], &mut cells).is_none() {
        return Err(Cause::BadNumber);
    }
    let cells = cells.first().copied().unwrap_or(0);
    if cells == 0 || cells > MOST_CELLS {
        return Err(Cause::CellRange);
    }
    Ok(cells)
}

// Whether a cell is none of so many.
fn is_out_of_range(cells: u64, numbers: &[u64]) -> bool
    ensures { result ≡ list_any (λ n. nat_le cells n) numbers.now }
{
    numbers.iter().any(|cell| cells <= *cell)
}

// A line `caller`.
fn caller_line(cells: u64, callers: &mut Callers, words: &[&[u8]]) -> Result<(), LineFault>
    ensures { Reads (λ _. record { cells = cells; callers = callers.new }) result
        (grammar.caller_line (record { cells = cells; callers = callers.old }) (map (λ w. w.now) words.now)) }
{
    if words.len() != 1 {
        return Err(LineFault::Bad(Cause::WordCount));
    }
    if callers.count() >= MOST_CALLERS {
        return Err(LineFault::Bad(Cause::TooManyCallers));
    }
    callers.add_caller()?;
    Ok(())
}

// A line that begins with a query's name.
fn query_line(
    cells: u64,
    callers: &mut Callers,
    verb: Verb,
    words: &[&[u8]],
) -> Result<(), LineFault>
    ensures { Reads (λ _. record { cells = cells; callers = callers.new }) result
        (grammar.query_line (record { cells = cells; callers = callers.old }) verb (map (λ w. w.now) words.now)) }
{
    if words.len() != 1 + verb.arity() {
        return Err(LineFault::Bad(Cause::WordCount));
    }
    if callers.count() == 0 {
        return Err(LineFault::Bad(Cause::NoCaller));
    }
    let mut asked = ArrayVec::new();
    if numbers(&words[1..], &mut asked).is_none() {
        return Err(LineFault::Bad(Cause::BadNumber));
    }
    if is_out_of_range(cells, &asked[..verb.cells()]) {
        return Err(LineFault::Bad(Cause::CellRange));
    }
    if callers.is_full() {
        return Err(LineFault::Bad(Cause::TooManyQueries));
    }
    callers.add_query(verb.query(&asked))?;
    Ok(())
}

// The words of a later line.
fn later_words(cells: u64, callers: &mut Callers, words: &[&[u8]]) -> Result<(), LineFault>
    ensures { Reads (λ _. record { cells = cells; callers = callers.new }) result
        (grammar.later_words (record { cells = cells; callers = callers.old }) (map (λ w. w.now) words.now)) }
{
    let name = words.first().copied().unwrap_or(&[]);
    match Verb::named(name) {
        Some(verb) => query_line(cells, callers, verb, words),
        None if name == b"caller".as_slice() => caller_line(cells, callers, words),
        None => Err(LineFault::Bad(Cause::Unknown)),
    }
}

/// What a later line adds.
pub fn later_line(cells: u64, callers: &mut Callers, line: &[u8]) -> Result<(), LineFault>
    ensures { Reads (λ _. record { cells = cells; callers = callers.new }) result
        (grammar.later_line (record { cells = cells; callers = callers.old }) line.now) }
{
    let mut words = ArrayVec::new();
    match spell_words(line, &mut words) {
        Ok(()) => later_words(cells, callers, &words),
        Err(cause) => Err(LineFault::Bad(cause)),
    }
}
