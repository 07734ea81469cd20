//! The reading of a log.
ghost use Rattle.std.specs.Prelude.{◌≡◌, ◌≢◌, ℕ, List, IfOk, IfErr};
ghost use Rattle.query_rules.specs.declared.query.Reply.{Reply};
ghost use Rattle.query_rules.specs.Grammar.{Asked};
ghost use Rattle.log_reader.specs.Reading.{FailsOnly};
ghost use Rattle.log_reader.specs.Pages.{page as page_view};
ghost use Rattle.log_reader.specs.LogText.{is_log as log_test};
ghost use Rattle.query_rules.specs.Log.{IsLogOf};
ghost use Rattle.log_reader.specs.IsLog.{IsNoLog, SaysOneLog};

use crate::LogFault;
use crate::checks::{all_answers, is_sorted, sort_lines};
use crate::group::groups;
use crate::listing::{Page, read_page};
use query_rules::{MOST_CALLERS, MOST_CELLS, MOST_QUERIES};
use query_text::{Outcome, Script};
use std::alloc::Global;

/// What a log says: the script that was asked, the rows of each cell, and what was replied.
#[derive(Debug, Drop)]
pub struct LogRead {
    pub script: Script,
    /// How many keys each cell has room for. The text may tell any number of 64 bits.
    pub rows: u64,
    pub outcome: Outcome,
}

/// What a text says, where it is the log of a script with some rows, of replies of the right kinds in their order;
/// [`LogFault::NotALog`] exactly where it is none.
///
/// One pass over the bytes; then the lines are sorted by caller and index, which takes most of the time where they are
/// many. Memory is taken for the list of lines and for the lists that are given back, and none for a line.
pub fn read_log(alloc: Global, bytes: &[u8]) -> Result<LogRead, LogFault>
    ensures read { IfOk result (λ r. IsLogOf r.script r.rows r.outcome bytes.now) }
    ensures none { IfErr result (λ e. FailsOnly e (IsNoLog bytes.now)) }
{
    let mut page = read_page(alloc, bytes)?;
    if !is_log(&page) {
        return Err(LogFault::NotALog);
    }
    if !is_sorted(&page.lines) {
        return Err(LogFault::NotALog);
    }
    sort_lines(&mut page.lines);
    let (callers, outcome, rest) = groups(alloc, page.callers, &page.lines)?;
    if !rest.is_empty() {
        return Err(LogFault::NotALog);
    }
    Ok(LogRead {
        script: Script::of(page.cells, callers),
        rows: page.rows,
        outcome,
    })
}

// Whether the limits hold, and each line is one of a script's query and a reply of its kinds.
fn is_log(page: &Page) -> bool
    ensures { result ≡ log_test (page_view page.now) }
{
    page.cells > 0
        && page.cells <= MOST_CELLS
        && page.callers <= MOST_CALLERS
        && page.lines.len() as u64 <= MOST_QUERIES
        && all_answers(page.cells, &page.lines)
}

/// A law of the format: a text is the log of one script, one number of rows and one outcome.
pub fn a_text_says_one_log()
    ensures { SaysOneLog }
{}
