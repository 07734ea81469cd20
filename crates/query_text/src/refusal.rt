//! What is written of a refused input.
ghost use Rattle.std.specs.Prelude.{◌≡◌, ◌≤◌, ◌++◌, ◌∷◌, [], length, decimal};
ghost use Rattle.ql_base.specs.Bytes.{Writes};
ghost use Rattle.ql_base.specs.Causes.{HasCause};
ghost use Rattle.query_rules.specs.Log.{refused_at, refused_length};
ghost use Rattle.query_rules.specs.Log as log;
ghost use Rattle.query_text.specs.Refusals.{refusal_text};

use crate::log_line::Line;
use ql_base::{Failed, Sink};
use query_rules::Cause;

/// Why an input is refused.
#[derive(Clone, Copy, Debug, PartialEq, Eq)]
pub enum Refusal {
    /// Its first bad line, counted from 1, and the first cause that holds of it.
    Line { line: u64, cause: Cause },
    /// More bytes came than a script may have.
    Length,
}

/// Writes the line that tells a refusal, as one piece. It takes no memory.
pub fn write_refusal<K: Sink>(sink: &mut K, refusal: Refusal) -> Result<(), Failed>
    ensures bytes { Writes (K.written sink.old) (K.written sink.new) result (refusal_text refusal) }
    ensures cause { HasCause (K.faults sink.old) (K.faults sink.new) result }
{
    match refusal {
        Refusal::Line { line, cause } => write_line(sink, line, cause),
        Refusal::Length => write_length(sink),
    }
}

fn write_line<K: Sink>(sink: &mut K, line: u64, cause: Cause) -> Result<(), Failed>
    ensures bytes { Writes (K.written sink.old) (K.written sink.new) result (refused_at line cause) }
    ensures cause { HasCause (K.faults sink.old) (K.faults sink.new) result }
{
    let mut text = Line::new(b"refused");
    text.word(b"line");
    text.number(line);
    text.word(cause_word(cause));
    text.write(sink)
}

fn write_length<K: Sink>(sink: &mut K) -> Result<(), Failed>
    ensures bytes { Writes (K.written sink.old) (K.written sink.new) result refused_length }
    ensures cause { HasCause (K.faults sink.old) (K.faults sink.new) result }
{
    let mut text = Line::new(b"refused");
    text.word(b"length");
    text.write(sink)
}

fn cause_word(cause: Cause) -> &'static [u8]
    ensures word { result.now ≡ log.cause_word cause }
    ensures len { length result.now ≤ 14 }
{
    match cause {
        Cause::BadByte => b"BadByte",
        Cause::Spacing => b"Spacing",
        Cause::MissingCells => b"MissingCells",
        Cause::Unknown => b"Unknown",
        Cause::WordCount => b"WordCount",
        Cause::TooManyCallers => b"TooManyCallers",
        Cause::NoCaller => b"NoCaller",
        Cause::BadNumber => b"BadNumber",
        Cause::CellRange => b"CellRange",
        Cause::TooManyQueries => b"TooManyQueries",
    }
}
