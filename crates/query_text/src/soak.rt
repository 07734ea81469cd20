//! What is written of a soak.
ghost use Rattle.std.specs.Prelude.{◌++◌, codes};
ghost use Rattle.ql_base.specs.Bytes.{Writes};
ghost use Rattle.ql_base.specs.Causes.{HasCause};
ghost use Rattle.query_rules.specs.Log.{number_line, end_line};
ghost use Rattle.query_rules.specs.Soak.{soak_text};

use crate::log::{write_end, write_totals};
use crate::log_line::{write_number, write_sum};
use ql_base::{Failed, Sink};
use query_rules::{Total, Totals};

/// Writes what a soak of `count` queries came to: its counts, the sum of its maps and that of its ledger. A line is
/// handed to the sink as one piece, and the rest of it again until it is taken. The call takes no memory.
pub fn write_soak<K: Sink>(sink: &mut K, count: u64, totals: &Totals) -> Result<(), Failed>
    ensures bytes { Writes (K.written sink.old) (K.written sink.new) result (soak_text count totals.now) }
    ensures cause { HasCause (K.faults sink.old) (K.faults sink.new) result }
{
    write_number(sink, b"soak", count)?;
    write_totals(
        sink,
        &[
            (Total::Queries, totals.queries),
            (Total::Writes, totals.writes),
            (Total::Reads, totals.reads),
            (Total::Refused, totals.refused),
            (Total::Jobs, totals.jobs),
        ],
    )?;
    write_sums(sink, totals)
}

// Writes the two sums and the end.
fn write_sums<K: Sink>(sink: &mut K, totals: &Totals) -> Result<(), Failed>
    ensures bytes { Writes (K.written sink.old) (K.written sink.new) result
        (number_line (codes "sum") totals.now.sum ++ (number_line (codes "ledger") totals.now.ledger ++ end_line)) }
    ensures cause { HasCause (K.faults sink.old) (K.faults sink.new) result }
{
    write_sum(sink, b"sum", totals.sum)?;
    write_sum(sink, b"ledger", totals.ledger)?;
    write_end(sink)
}
