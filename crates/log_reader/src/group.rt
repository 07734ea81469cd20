//! Lines by caller and index, put together as lists.
ghost use Rattle.std.specs.Prelude.{◌≡◌, ◌≢◌, ◌+◌, ◌<◌, ◌≤◌, ◌++◌, ◌∷◌, [], zero, ℕ, List, length, map, IfOk};
ghost use Rattle.log_reader.specs.Grouping.{front_of, groups_of, is_next as next_of};

use crate::Answered;
use ql_base::NoMemory;
use query_rules::Query;
use query_text::{Callers, KeptReply, Outcome};
use std::alloc::Global;

fn is_next(answered: &Answered, caller: u64, index: u64) -> bool
    ensures { result ≡ next_of caller index answered.now }
{
    answered.caller == caller && answered.index == index
}

// The queries and replies of one caller at the front, and the lines after them.
fn front<'a>(
    alloc: Global,
    caller: u64,
    lines: &'a [Answered],
) -> Result<(Vec<Query>, Vec<KeptReply>, &'a [Answered]), NoMemory>
    ensures queries { IfOk result (λ x. x.0.items ≡ (front_of caller 0 lines.now).queries) }
    ensures replies { IfOk result (λ x. x.1.items ≡ (front_of caller 0 lines.now).replies) }
    ensures rest { IfOk result (λ x. x.2.now ≡ (front_of caller 0 lines.now).rest) }
{
    let mut queries = Vec::new(alloc);
    let mut replies = Vec::new(alloc);
    let mut index = 0;
    let mut rest = lines;
    while let [first, after @ ..] = rest {
        if !is_next(first, caller, index) {
            return Ok((queries, replies, rest));
        }
        queries.push(first.query)?;
        replies.push(KeptReply::of(first.reply))?;
        index += 1;
        rest = after;
    }
    Ok((queries, replies, rest))
}

// Adds a caller with these queries.
fn add_list(callers: &mut Callers, queries: &[Query]) -> Result<(), NoMemory>
    ensures { IfOk result (λ _. callers.new ≡ callers.old ++ queries.now ∷ []) }
{
    callers.add_caller()?;
    let mut rest = queries;
    while let [query, after @ ..] = rest {
        callers.add_query(*query)?;
        rest = after;
    }
    Ok(())
}

/// The lists of so many callers, and the lines that are left.
pub fn groups<'a>(
    alloc: Global,
    count: u64,
    lines: &'a [Answered],
) -> Result<(Callers, Outcome, &'a [Answered]), NoMemory>
    ensures asked { IfOk result (λ x. x.0 ≡ (groups_of count 0 lines.now).asked) }
    ensures told { IfOk result (λ x. x.1 ≡ (groups_of count 0 lines.now).told) }
    ensures rest { IfOk result (λ x. x.2.now ≡ (groups_of count 0 lines.now).rest) }
{
    let mut callers = Callers::new(alloc);
    let mut told = Vec::new(alloc);
    let mut rest = lines;
    for caller in 0..count {
        let (queries, replies, after) = front(alloc, caller, rest)?;
        add_list(&mut callers, &queries)?;
        told.push(replies)?;
        rest = after;
    }
    Ok((callers, Outcome::of(told), rest))
}
