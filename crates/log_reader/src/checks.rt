//! What a log's lines must meet.
ghost use Rattle.std.specs.Prelude.{◌≡◌, ◌+◌, ◌<◌, ◌≤◌, [], length, IsPermutation, IsSorted, MatchBool};
ghost use Rattle.std.specs.List.Sorted.{IsNonDecreasingBy};
ghost use Rattle.std.specs.Ordering.{is_lt};
ghost use Rattle.std.specs.List.{list_all};
ghost use Rattle.query_rules.specs.History as history;
ghost use Rattle.log_reader.specs.Listing.{line_cmp, section_of, key_of as number_of_key};
ghost use Rattle.log_reader.specs.LogText.{takes_below, has_reply, is_answer as answer};
ghost use Rattle.log_reader.specs.Grouping.{slot};

use crate::Answered;
use query_rules::{LedgerTold, LedgerTrouble, Query, Reply, Said};

// Whether the cells that a query takes are among so many.
fn is_below(cells: u64, query: Query) -> bool
    ensures { result ≡ takes_below cells query }
{
    match query {
        Query::Get { cell, .. } => cell < cells,
        Query::Len { cell } => cell < cells,
        Query::Put { cell, .. } => cell < cells,
        Query::Del { cell, .. } => cell < cells,
        Query::Add { cell, .. } => cell < cells,
        Query::Cas { cell, .. } => cell < cells,
        Query::PutLen { cell, .. } => cell < cells,
        Query::Move { from, to, .. } => from < cells && to < cells,
        Query::Both { first, second, .. } => first < cells && second < cells,
        Query::TryGet { cell, .. } => cell < cells,
        Query::TryPut { cell, .. } => cell < cells,
        Query::GetBy { cell, .. } => cell < cells,
        Query::PutBy { cell, .. } => cell < cells,
        Query::Give { .. } => true,
        Query::Take { .. } => true,
        Query::Audit => true,
    }
}

fn is_value(said: Said) -> bool
    ensures { result ≡ history.is_value said }
{
    match said {
        Said::Found(_) | Said::Absent => true,
        _ => false,
    }
}

fn is_count(said: Said) -> bool
    ensures { result ≡ history.is_count said }
{
    match said {
        Said::Count(_) => true,
        _ => false,
    }
}

fn is_put(said: Said) -> bool
    ensures { result ≡ history.is_put said }
{
    match said {
        Said::New | Said::Old(_) | Said::Full => true,
        _ => false,
    }
}

fn is_del(said: Said) -> bool
    ensures { result ≡ history.is_del said }
{
    match said {
        Said::Old(_) | Said::Absent => true,
        _ => false,
    }
}

fn is_add(said: Said) -> bool
    ensures { result ≡ history.is_add said }
{
    match said {
        Said::Now(_) | Said::Over | Said::Full => true,
        _ => false,
    }
}

fn is_cas(said: Said) -> bool
    ensures { result ≡ history.is_cas said }
{
    match said {
        Said::Yes | Said::No(_) | Said::Absent => true,
        _ => false,
    }
}

fn is_put_len(said: Said) -> bool
    ensures { result ≡ history.is_put_len said }
{
    match said {
        Said::NewCount(_) | Said::OldCount(_, _) | Said::Full => true,
        _ => false,
    }
}

fn is_move(said: Said) -> bool
    ensures { result ≡ history.is_move said }
{
    match said {
        Said::Moved | Said::Short(_) | Said::Over | Said::Full | Said::Same => true,
        _ => false,
    }
}

fn is_both(said: Said) -> bool
    ensures { result ≡ history.is_both said }
{
    match said {
        Said::Pair(_, _) | Said::Same => true,
        _ => false,
    }
}

// Whether the maps may say this to a query.
fn has_said(query: Query, said: Said) -> bool
    ensures { result ≡ history.has_said query said }
{
    match query {
        Query::Get { .. } | Query::TryGet { .. } | Query::GetBy { .. } => is_value(said),
        Query::Len { .. } => is_count(said),
        Query::Put { .. } | Query::TryPut { .. } | Query::PutBy { .. } => is_put(said),
        Query::Del { .. } => is_del(said),
        Query::Add { .. } => is_add(said),
        Query::Cas { .. } => is_cas(said),
        Query::PutLen { .. } => is_put_len(said),
        Query::Move { .. } => is_move(said),
        Query::Both { .. } => is_both(said),
        Query::Give { .. } | Query::Take { .. } | Query::Audit => false,
    }
}

fn is_give(told: Result<LedgerTold, LedgerTrouble>) -> bool
    ensures { result ≡ history.is_give told }
{
    match told {
        Ok(LedgerTold::Now(_)) => true,
        Ok(LedgerTold::Sum(_)) => false,
        Err(LedgerTrouble::Over) => true,
        Err(LedgerTrouble::Full) => true,
        Err(LedgerTrouble::Short(_)) => false,
    }
}

fn is_take(told: Result<LedgerTold, LedgerTrouble>) -> bool
    ensures { result ≡ history.is_take told }
{
    match told {
        Ok(LedgerTold::Now(_)) => true,
        Ok(LedgerTold::Sum(_)) => false,
        Err(LedgerTrouble::Over) => false,
        Err(LedgerTrouble::Full) => false,
        Err(LedgerTrouble::Short(_)) => true,
    }
}

fn is_audit(told: Result<LedgerTold, LedgerTrouble>) -> bool
    ensures { result ≡ history.is_audit told }
{
    match told {
        Ok(LedgerTold::Now(_)) => false,
        Ok(LedgerTold::Sum(_)) => true,
        Err(_) => false,
    }
}

// Whether the ledger may answer this to a query.
fn has_result(query: Query, told: Result<LedgerTold, LedgerTrouble>) -> bool
    ensures { result ≡ history.has_result query told }
{
    match query {
        Query::Give { .. } => is_give(told),
        Query::Take { .. } => is_take(told),
        Query::Audit => is_audit(told),
        _ => false,
    }
}

fn is_try(query: Query) -> bool
    ensures { result ≡ history.is_try query }
{
    match query {
        Query::TryGet { .. } | Query::TryPut { .. } => true,
        _ => false,
    }
}

fn has_deadline(query: Query) -> bool
    ensures { result ≡ history.has_deadline query }
{
    match query {
        Query::GetBy { .. } | Query::PutBy { .. } => true,
        _ => false,
    }
}

// Whether a query may get this reply.
fn is_reply(query: Query, reply: Reply) -> bool
    ensures { result ≡ has_reply query reply }
{
    match reply {
        Reply::Placed { said, .. } => has_said(query, said),
        Reply::Busy => is_try(query),
        Reply::Late { .. } => has_deadline(query),
        Reply::Job { result: told, .. } => has_result(query, told),
    }
}

fn is_answer(cells: u64, answered: &Answered) -> bool
    ensures { result ≡ answer cells answered.now }
{
    is_below(cells, answered.query) && is_reply(answered.query, answered.reply)
}

/// Whether each line has cells below this and a reply of a kind that its query has.
pub fn all_answers(cells: u64, lines: &[Answered]) -> bool
    ensures { result ≡ list_all (answer cells) lines.now }
{
    let mut rest = lines;
    while let [first, after @ ..] = rest {
        if !is_answer(cells, first) {
            return false;
        }
        rest = after;
    }
    true
}

#[derive(Clone, Copy, Debug, PartialEq, Eq, PartialOrd, Ord)]
struct LineKey {
    section: u64,
    key: u64,
    caller: u64,
    index: u64,
}

fn section(reply: Reply) -> u64
    ensures { result ≡ section_of reply }
{
    match reply {
        Reply::Placed { .. } => 0,
        Reply::Busy => 1,
        Reply::Late { .. } => 1,
        Reply::Job { .. } => 2,
    }
}

fn key(reply: Reply) -> u64
    ensures { result ≡ number_of_key reply }
{
    match reply {
        Reply::Placed { place, .. } => place,
        Reply::Busy => 0,
        Reply::Late { .. } => 0,
        Reply::Job { at, .. } => at,
    }
}

// By what a line is ordered.
fn line_key(answered: &Answered) -> LineKey
    ensures { result ≡ record { section = section_of answered.now.reply; key = number_of_key answered.now.reply; caller = answered.now.caller; index = answered.now.index } }
{
    LineKey {
        section: section(answered.reply),
        key: key(answered.reply),
        caller: answered.caller,
        index: answered.index,
    }
}

fn is_before(a: &Answered, b: &Answered) -> bool
    ensures { result ≡ is_lt (line_cmp a.now b.now) }
{
    line_key(a).cmp(&line_key(b)).is_lt()
}

/// Whether the lines stand in order.
pub fn is_sorted(lines: &[Answered]) -> bool
    ensures { MatchBool result (IsSorted line_cmp lines.now) (IsSorted line_cmp lines.now → ⊥) }
{
    let mut k = 1;
    while k < lines.len() {
        if is_before(&lines[k], &lines[k - 1]) {
            return false;
        }
        k += 1;
    }
    true
}

// The lines' order by caller and index, as one number.
fn slot_of(answered: &Answered) -> u128
    ensures { result ≡ slot answered.now }
{
    u128::from(answered.caller) * (1 << 64) + u128::from(answered.index)
}

/// Puts the lines in the order of callers and indexes.
pub fn sort_lines(lines: &mut Vec<Answered>)
    ensures same { IsPermutation lines.old.items lines.new.items }
    ensures sorted { IsNonDecreasingBy slot lines.new.items }
{
    lines.sort_unstable_by_key(|a| slot_of(a));
}
