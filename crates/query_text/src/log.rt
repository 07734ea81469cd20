//! The writing of a log.
ghost use Rattle.std.specs.Prelude.{◌≡◌, ◌≤◌, ◌<◌, ◌^◌, ◌++◌, Some, [], length, get_or, map, take, drop, sum_by};
ghost use Rattle.std.specs.List.{AllByRecursion, AllZip};
ghost use Rattle.ql_base.specs.Bytes.{Writes};
ghost use Rattle.ql_base.specs.Causes.{HasCause};
ghost use Rattle.query_text.specs.Counts.{totals_in};
ghost use Rattle.query_rules.specs.History.{IsKindFor};
ghost use Rattle.query_rules.specs.declared.query.Total.TheVariants as total;
ghost use Rattle.query_rules.specs.Log.{log_text, head_text, tables_line, spots_text, refused_text, refused_from, totals_text, total_line, end_line, spot_line, refused_line, total_of, asked_at, told_at, placed_count, IsSpot, IsOrder};
ghost use Rattle.query_text.specs.Packed.{spots_in};

use crate::log_line::{Line, write_answer, write_number};
use crate::packed::SpotLike;
use crate::{Callers, Counts, KeptReply, Outcome, PackedSpot, Script};
use ql_base::{Failed, Sink};
use query_rules::{Query, Reply, Spot, Total};

/// Writes the log of a script with so many rows in each cell: what was replied, and the totals. A line is handed to the
/// sink as one piece, and the rest of it again until it is taken.
///
/// `order` has the spots of the map lines and then those of the job lines, each part by key, caller and index. The call
/// takes no memory, and goes over the replies a fixed number of times: once to count them, once to write their lines, and
/// once for refusals where there are any.
pub fn write_log<K: Sink>(
    sink: &mut K,
    script: &Script,
    rows: u64,
    outcome: &Outcome,
    order: &[Spot],
) -> Result<(), Failed>
    // Each query has a reply of a kind that it may get.
    requires kinds { AllZip (AllZip IsKindFor) script.now.callers outcome.now }
    requires order { IsOrder outcome.now order.now }
    ensures bytes { Writes (K.written sink.old) (K.written sink.new) result (log_text script.now rows outcome.now order.now) }
    ensures cause { HasCause (K.faults sink.old) (K.faults sink.new) result }
{
    write_by(sink, script, rows, outcome, order)
}

/// Writes the log as [`write_log`] does, of spots that are packed.
pub fn write_packed_log<K: Sink>(
    sink: &mut K,
    script: &Script,
    rows: u64,
    outcome: &Outcome,
    order: &[PackedSpot],
) -> Result<(), Failed>
    requires kinds { AllZip (AllZip IsKindFor) script.now.callers outcome.now }
    requires order { IsOrder outcome.now (spots_in order.now) }
    ensures bytes { Writes (K.written sink.old) (K.written sink.new) result (log_text script.now rows outcome.now (spots_in order.now)) }
    ensures cause { HasCause (K.faults sink.old) (K.faults sink.new) result }
{
    write_by(sink, script, rows, outcome, order)
}

// Writes the log, whatever its spots are kept in.
fn write_by<K: Sink, P: SpotLike>(
    sink: &mut K,
    script: &Script,
    rows: u64,
    outcome: &Outcome,
    order: &[P],
) -> Result<(), Failed>
    requires kinds { AllZip (AllZip IsKindFor) script.now.callers outcome.now }
    requires order { IsOrder outcome.now (map P.spot order.now) }
    ensures bytes { Writes (K.written sink.old) (K.written sink.new) result (log_text script.now rows outcome.now (map P.spot order.now)) }
    ensures cause { HasCause (K.faults sink.old) (K.faults sink.new) result }
{
    let callers = script.callers();
    let totals = outcome.totals();
    let (maps, jobs) = order.split_at((totals.writes + totals.reads) as usize);
    write_head(sink, script, rows)?;
    write_spots(sink, callers, outcome, maps)?;
    write_later(sink, callers, outcome, jobs, &totals)
}

#[tactic(auto, unfolding(query_rules::specs::Log::tables_line))]
fn write_tables<K: Sink>(sink: &mut K, script: &Script, rows: u64) -> Result<(), Failed>
    ensures bytes { Writes (K.written sink.old) (K.written sink.new) result (tables_line script.now.cells rows (length script.now.callers)) }
    ensures cause { HasCause (K.faults sink.old) (K.faults sink.new) result }
{
    let mut line = Line::new(b"cells");
    line.number(script.cells());
    line.word(b"rows");
    line.number(rows);
    line.word(b"callers");
    line.number(script.callers().count());
    line.write(sink)
}

fn write_head<K: Sink>(sink: &mut K, script: &Script, rows: u64) -> Result<(), Failed>
    ensures bytes { Writes (K.written sink.old) (K.written sink.new) result (head_text script.now.cells rows (length script.now.callers)) }
    ensures cause { HasCause (K.faults sink.old) (K.faults sink.new) result }
{
    write_number(sink, b"querylog", 1)?;
    write_tables(sink, script, rows)
}

// The query of a spot.
fn query_at<'a, P: SpotLike>(callers: &'a Callers, spot: &P) -> &'a Query
    requires caller { (P.spot spot.now).caller < length callers.now }
    requires index { (P.spot spot.now).index < length (get_or callers.now (P.spot spot.now).caller []) }
    ensures { asked_at callers.now (P.spot spot.now) ≡ Some result.now }
{
    let queries = callers.queries(spot.caller_of());
    &queries[spot.index_of() as usize]
}

// The reply of a spot.
fn reply_at<P: SpotLike>(outcome: &Outcome, spot: &P) -> Reply
    requires caller { (P.spot spot.now).caller < length outcome.now }
    requires index { (P.spot spot.now).index < length (get_or outcome.now (P.spot spot.now).caller []) }
    ensures { told_at outcome.now (P.spot spot.now) ≡ Some result }
{
    let replies = outcome.replies(spot.caller_of());
    replies[spot.index_of() as usize].reply()
}

#[tactic(auto, unfolding(query_rules::specs::Log::spot_line))]
fn write_at<K: Sink, P: SpotLike>(
    sink: &mut K,
    line: &mut Line,
    callers: &Callers,
    outcome: &Outcome,
    spot: &P,
) -> Result<(), Failed>
    requires { IsSpot callers.now outcome.now (P.spot spot.now) }
    ensures bytes { Writes (K.written sink.old) (K.written sink.new) result (spot_line callers.now outcome.now (P.spot spot.now)) }
    ensures cause { HasCause (K.faults sink.old) (K.faults sink.new) result }
{
    let query = query_at(callers, spot);
    write_answer(
        sink,
        line,
        spot.caller_of(),
        spot.index_of(),
        query,
        reply_at(outcome, spot),
    )
}

// Writes the lines of these spots.
fn write_spots<K: Sink, P: SpotLike>(
    sink: &mut K,
    callers: &Callers,
    outcome: &Outcome,
    order: &[P],
) -> Result<(), Failed>
    requires { AllByRecursion (IsSpot callers.now outcome.now) (map P.spot order.now) }
    ensures bytes { Writes (K.written sink.old) (K.written sink.new) result (spots_text callers.now outcome.now (map P.spot order.now)) }
    ensures cause { HasCause (K.faults sink.old) (K.faults sink.new) result }
{
    let mut line = Line::new(b"");
    let mut rest = order;
    while let [spot, after @ ..] = rest {
        write_at(sink, &mut line, callers, outcome, spot)?;
        rest = after;
    }
    Ok(())
}

// Writes the line of a reply where it is a refusal.
fn write_if_refused<K: Sink>(
    sink: &mut K,
    line: &mut Line,
    caller: u64,
    index: u64,
    query: &Query,
    reply: &KeptReply,
) -> Result<(), Failed>
    ensures bytes { Writes (K.written sink.old) (K.written sink.new) result (refused_line caller index query.now reply.now) }
    ensures cause { HasCause (K.faults sink.old) (K.faults sink.new) result }
{
    let reply = reply.reply();
    match reply {
        Reply::Busy | Reply::Late { .. } => write_answer(sink, line, caller, index, query, reply),
        Reply::Placed { .. } | Reply::Job { .. } => Ok(()),
    }
}

// Writes the lines of one caller's refusals.
fn write_refused_of<K: Sink>(
    sink: &mut K,
    caller: u64,
    queries: &[Query],
    replies: &[KeptReply],
) -> Result<(), Failed>
    requires { length replies.now ≡ length queries.now }
    ensures bytes { Writes (K.written sink.old) (K.written sink.new) result (refused_from caller 0 queries.now replies.now) }
    ensures cause { HasCause (K.faults sink.old) (K.faults sink.new) result }
{
    let mut line = Line::new(b"");
    for index in 0..replies.len() {
        write_if_refused(
            sink,
            &mut line,
            caller,
            index as u64,
            &queries[index],
            &replies[index],
        )?;
    }
    Ok(())
}

// Writes the lines of all refusals, of which there are so many.
fn write_refused<K: Sink>(
    sink: &mut K,
    callers: &Callers,
    outcome: &Outcome,
    refused: u64,
) -> Result<(), Failed>
    requires kinds { AllZip (AllZip IsKindFor) callers.now outcome.now }
    requires counted { refused ≡ total_of total.Refused outcome.now }
    ensures bytes { Writes (K.written sink.old) (K.written sink.new) result (refused_text callers.now outcome.now) }
    ensures cause { HasCause (K.faults sink.old) (K.faults sink.new) result }
{
    if refused == 0 {
        return Ok(());
    }
    for caller in 0..callers.count() {
        write_refused_of(
            sink,
            caller,
            callers.queries(caller),
            outcome.replies(caller),
        )?;
    }
    Ok(())
}

fn write_total<K: Sink>(sink: &mut K, total: Total, n: u64) -> Result<(), Failed>
    ensures bytes { Writes (K.written sink.old) (K.written sink.new) result (total_line (total, n)) }
    ensures cause { HasCause (K.faults sink.old) (K.faults sink.new) result }
{
    match total {
        Total::Queries => write_number(sink, b"queries", n),
        Total::Writes => write_number(sink, b"writes", n),
        Total::Reads => write_number(sink, b"reads", n),
        Total::Refused => write_number(sink, b"refused", n),
        Total::Jobs => write_number(sink, b"jobs", n),
    }
}

/// Writes a line for each total.
pub fn write_totals<K: Sink>(sink: &mut K, totals: &[(Total, u64)]) -> Result<(), Failed>
    ensures bytes { Writes (K.written sink.old) (K.written sink.new) result (totals_text totals.now) }
    ensures cause { HasCause (K.faults sink.old) (K.faults sink.new) result }
{
    let mut rest = totals;
    while let [(total, n), after @ ..] = rest {
        write_total(sink, *total, *n)?;
        rest = after;
    }
    Ok(())
}

/// Writes the last line.
#[tactic(auto, unfolding(query_rules::specs::Log::end_line))]
pub fn write_end<K: Sink>(sink: &mut K) -> Result<(), Failed>
    ensures bytes { Writes (K.written sink.old) (K.written sink.new) result end_line }
    ensures cause { HasCause (K.faults sink.old) (K.faults sink.new) result }
{
    Line::new(b"end").write(sink)
}

// Writes the totals and the end.
fn write_close<K: Sink>(sink: &mut K, totals: &Counts) -> Result<(), Failed>
    ensures bytes { Writes (K.written sink.old) (K.written sink.new) result (totals_text (totals_in totals.now) ++ end_line) }
    ensures cause { HasCause (K.faults sink.old) (K.faults sink.new) result }
{
    write_totals(
        sink,
        &[
            (Total::Queries, totals.queries),
            (Total::Writes, totals.writes),
            (Total::Reads, totals.reads),
            (Total::Refused, totals.refused),
            (Total::Jobs, totals.jobs),
        ],
    )?;
    write_end(sink)
}

// Writes what stands behind the map lines.
fn write_later<K: Sink, P: SpotLike>(
    sink: &mut K,
    callers: &Callers,
    outcome: &Outcome,
    jobs: &[P],
    totals: &Counts,
) -> Result<(), Failed>
    requires kinds { AllZip (AllZip IsKindFor) callers.now outcome.now }
    requires spots { AllByRecursion (IsSpot callers.now outcome.now) (map P.spot jobs.now) }
    requires counted { totals.now.refused ≡ total_of total.Refused outcome.now }
    ensures bytes { Writes (K.written sink.old) (K.written sink.new) result
        (refused_text callers.now outcome.now ++ (spots_text callers.now outcome.now (map P.spot jobs.now) ++ (totals_text (totals_in totals.now) ++ end_line))) }
    ensures cause { HasCause (K.faults sink.old) (K.faults sink.new) result }
{
    write_refused(sink, callers, outcome, totals.refused)?;
    write_spots(sink, callers, outcome, jobs)?;
    write_close(sink, totals)
}
