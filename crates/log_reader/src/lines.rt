//! The lines of a log, taken off the front of its bytes.
ghost use Rattle.std.specs.Prelude.{◌≡◌, ◌≢◌, ◌+◌, ◌<◌, ◌≤◌, ◌++◌, ◌∷◌, [], ℕ, List, length, decimal, codes, map, MatchOption, IfOk, IfSome, IfNone};
ghost use Rattle.std.specs.List.{AllByRecursion};
ghost use Rattle.query_rules.specs.Log.{number_line, tables_line, head_text, answer_line};
ghost use Rattle.query_text.specs.Spaced.{placed_bytes};
ghost use Rattle.log_reader.specs.declared.answered.Answered.{Answered as answered_data};
ghost use Rattle.query_rules.specs.Numbers.{IsNumber};
ghost use Rattle.log_reader.specs.Listing.{answered_line, answers_text, IsWritable};
ghost use Rattle.log_reader.specs.Fronts.{NoLine, NoTables, NoHead};

use crate::Answered;
use crate::read_words::{answered, line_words, tables};
use ql_base::NoMemory;
use query_rules::{Query, Reply};
use query_text::{Line, cut_line};
use std::alloc::Global;

/// What follows the text, where the bytes begin with it.
pub fn strip<'a>(bytes: &'a [u8], text: &[u8]) -> Option<&'a [u8]>
    ensures { MatchOption result ((rest : List ℕ) → bytes.now ≢ text.now ++ rest) (λ x. bytes.now ≡ text.now ++ x.now) }
{
    bytes.strip_prefix(text)
}

/// What follows the line and its end, where the bytes begin with them.
pub fn strip_line<'a>(bytes: &'a [u8], line: &Line) -> Option<&'a [u8]>
    ensures { MatchOption result ((rest : List ℕ) → bytes.now ≢ (line.now ++ 10 ∷ []) ++ rest) (λ x. bytes.now ≡ (line.now ++ 10 ∷ []) ++ x.now) }
{
    let rest = strip(bytes, line.as_bytes())?;
    strip(rest, b"\n")
}

// How the line of a reply begins.
fn placed_line(reply: Reply) -> Line
    ensures line { result ≡ placed_bytes reply }
    ensures len { length result ≤ 24 }
{
    match reply {
        Reply::Placed { place, .. } => headed(b"map", place),
        Reply::Busy | Reply::Late { .. } => Line::new(b"ref"),
        Reply::Job { at, .. } => headed(b"job", at),
    }
}

// A line that begins with a name and a number.
fn headed(name: &[u8], n: u64) -> Line
    requires { length name.now ≤ 20 }
    ensures line { result ≡ name.now ++ 32 ∷ decimal n }
    ensures len { length result ≤ length name.now + 21 }
{
    let mut line = Line::new(name);
    line.number(n);
    line
}

// The line of a query and its reply.
fn line_for(answered: &Answered) -> Line
    ensures { result ++ 10 ∷ [] ≡ answered_line answered.now }
{
    let mut line = placed_line(answered.reply);
    line.number(answered.caller);
    line.number(answered.index);
    line.query(&answered.query);
    line.word(b"=");
    line.reply(answered.reply);
    line
}

/// The query and reply whose line is the first, and what follows it.
pub fn first_answered(bytes: &[u8]) -> Option<(Answered, &[u8])>
    ensures found { IfSome result (λ x. bytes.now ≡ answered_line x.0 ++ x.1.now) }
    ensures fits { IfSome result (λ x. IsWritable x.0) }
    ensures none { IfNone result (NoLine bytes.now) }
{
    if bytes.is_empty() {
        return None;
    }
    let (text, _) = cut_line(bytes);
    let words = line_words(text);
    let Some(first) = answered(&words) else {
        return None;
    };
    first.known();
    let line = line_for(&first);
    match strip_line(bytes, &line) {
        Some(rest) => Some((first, rest)),
        None => None,
    }
}

/// How many cells, rows and callers the first lines tell.
#[derive(Clone, Copy)]
pub struct Tables {
    pub cells: u64,
    pub rows: u64,
    pub callers: u64,
}

impl Tables {
    /// Its numbers are those of a machine.
    pub fn known(self)
        ensures cells { IsNumber self.cells }
        ensures rows { IsNumber self.rows }
        ensures callers { IsNumber self.callers }
    {}
}

#[tactic(auto, unfolding(query_rules::specs::Log::tables_line))]
fn tables_for(cells: u64, rows: u64, callers: u64) -> Line
    ensures { result ++ 10 ∷ [] ≡ tables_line cells rows callers }
{
    let mut line = Line::new(b"cells");
    line.number(cells);
    line.word(b"rows");
    line.number(rows);
    line.word(b"callers");
    line.number(callers);
    line
}

/// The line of a name and a number.
#[tactic(auto, unfolding(query_rules::specs::Log::number_line))]
pub fn number_for(name: &[u8], n: u64) -> Line
    requires { length name.now ≤ 20 }
    ensures { result ++ 10 ∷ [] ≡ number_line name.now n }
{
    headed(name, n)
}

// The numbers of the line of tables, where it is the first, and what follows it.
fn first_tables(bytes: &[u8]) -> Option<(Tables, &[u8])>
    ensures found { IfSome result (λ x. bytes.now ≡ tables_line x.0.cells x.0.rows x.0.callers ++ x.1.now) }
    ensures none { IfNone result (NoTables bytes.now) }
{
    if bytes.is_empty() {
        return None;
    }
    let (text, _) = cut_line(bytes);
    let words = line_words(text);
    let Some((cells, rows, callers)) = tables(&words) else {
        return None;
    };
    let line = tables_for(cells, rows, callers);
    match strip_line(bytes, &line) {
        Some(rest) => Some((
            Tables {
                cells,
                rows,
                callers,
            },
            rest,
        )),
        None => None,
    }
}

/// The first two lines, and what follows them.
pub fn head(bytes: &[u8]) -> Option<(Tables, &[u8])>
    ensures found { IfSome result (λ x. bytes.now ≡ head_text x.0.cells x.0.rows x.0.callers ++ x.1.now) }
    ensures none { IfNone result (NoHead bytes.now) }
{
    let line = number_for(b"querylog", 1);
    match strip_line(bytes, &line) {
        Some(rest) => first_tables(rest),
        None => None,
    }
}

/// The lines of queries and replies, and what follows the last of them.
pub fn answers(alloc: Global, bytes: &[u8]) -> Result<(Vec<Answered>, &[u8]), NoMemory>
    ensures found { IfOk result (λ x. bytes.now ≡ answers_text x.0.items ++ x.1.now) }
    ensures fits { IfOk result (λ x. AllByRecursion IsWritable x.0.items) }
    ensures all { IfOk result (λ x. NoLine x.1.now) }
{
    let mut lines = Vec::new(alloc);
    let mut rest = bytes;
    while let Some((first, after)) = first_answered(rest) {
        lines.push(first)?;
        rest = after;
    }
    Ok((lines, rest))
}
