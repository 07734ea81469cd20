//! A log as a list of its lines.
ghost use Rattle.std.specs.Prelude.{◌≡◌, ◌≢◌, ◌+◌, ◌<◌, ◌≤◌, ◌^◌, ◌++◌, ◌∷◌, [], ℕ, List, length, count_by, MatchOption, MatchBool, IfOk, IfErr};
ghost use Rattle.query_rules.specs.Log.{total_line, totals_text, end_line, is_counted as counted};
ghost use Rattle.log_reader.specs.Reading.{FailsOnly};
ghost use Rattle.log_reader.specs.Pages.{page};
ghost use Rattle.log_reader.specs.Listing.{counts, lines_total, lines_totals, tail_text, listing_text, IsWritableListing, Listing};

use crate::lines::{answers, head, number_for, strip_line};
use crate::{Answered, LogFault};
use query_rules::{Reply, Total};
use query_text::Line;
use std::alloc::Global;

fn total_for(total: Total, n: u64) -> Line
    ensures { result ++ 10 ∷ [] ≡ total_line (total, n) }
{
    match total {
        Total::Queries => number_for(b"queries", n),
        Total::Writes => number_for(b"writes", n),
        Total::Reads => number_for(b"reads", n),
        Total::Refused => number_for(b"refused", n),
        Total::Jobs => number_for(b"jobs", n),
    }
}

// What follows the lines of the totals, where the bytes begin with them.
fn strip_totals<'a>(bytes: &'a [u8], totals: &[(Total, u64)]) -> Option<&'a [u8]>
    ensures { MatchOption result ((t : List ℕ) → bytes.now ≢ totals_text totals.now ++ t) (λ x. bytes.now ≡ totals_text totals.now ++ x.now) }
{
    let mut text = bytes;
    let mut rest = totals;
    while let [(total, n), after @ ..] = rest {
        let line = total_for(*total, *n);
        match strip_line(text, &line) {
            Some(left) => text = left,
            None => return None,
        }
        rest = after;
    }
    Some(text)
}

#[tactic(auto, unfolding(query_rules::specs::Log::end_line))]
fn is_end(bytes: &[u8]) -> bool
    ensures { MatchBool result (bytes.now ≡ end_line) (bytes.now ≢ end_line) }
{
    bytes == b"end\n".as_slice()
}

// Whether a reply is one that the total counts.
fn is_counted(total: Total, reply: Reply) -> bool
    ensures { result ≡ counted total reply }
{
    match reply {
        Reply::Placed { place, .. } => match total {
            Total::Queries => true,
            Total::Writes => place % 2 == 1,
            Total::Reads => place % 2 == 0,
            Total::Refused => false,
            Total::Jobs => false,
        },
        Reply::Busy | Reply::Late { .. } => match total {
            Total::Queries => true,
            Total::Writes => false,
            Total::Reads => false,
            Total::Refused => true,
            Total::Jobs => false,
        },
        Reply::Job { .. } => match total {
            Total::Queries => true,
            Total::Writes => false,
            Total::Reads => false,
            Total::Refused => false,
            Total::Jobs => true,
        },
    }
}

fn count(total: Total, lines: &[Answered]) -> u64
    ensures { result ≡ lines_total total lines.now }
{
    lines.iter().filter(|a| is_counted(total, a.reply)).count() as u64
}

// Whether the text is that of the totals of these lines, and the end.
fn is_tail(bytes: &[u8], lines: &[Answered]) -> bool
    ensures { MatchBool result (bytes.now ≡ tail_text lines.now) (bytes.now ≢ tail_text lines.now) }
{
    let totals = [
        (Total::Queries, count(Total::Queries, lines)),
        (Total::Writes, count(Total::Writes, lines)),
        (Total::Reads, count(Total::Reads, lines)),
        (Total::Refused, count(Total::Refused, lines)),
        (Total::Jobs, count(Total::Jobs, lines)),
    ];
    match strip_totals(bytes, &totals) {
        Some(rest) => is_end(rest),
        None => false,
    }
}

/// What a log says, line by line.
#[derive(Drop)]
pub struct Page {
    pub cells: u64,
    pub rows: u64,
    pub callers: u64,
    pub lines: Vec<Answered>,
}

/// The lines of a text, where it is that of some lines.
pub fn read_page(alloc: Global, bytes: &[u8]) -> Result<Page, LogFault>
    ensures found { IfOk result (λ p. bytes.now ≡ listing_text (page p)) }
    ensures fits { IfOk result (λ p. IsWritableListing (page p)) }
    ensures none { IfErr result (λ e. FailsOnly e ((l : Listing) → IsWritableListing l → bytes.now ≢ listing_text l)) }
{
    let Some((tables, rest)) = head(bytes) else {
        return Err(LogFault::NotALog);
    };
    tables.known();
    let (lines, rest) = answers(alloc, rest)?;
    if is_tail(rest, &lines) {
        Ok(Page {
            cells: tables.cells,
            rows: tables.rows,
            callers: tables.callers,
            lines,
        })
    } else {
        Err(LogFault::NotALog)
    }
}
