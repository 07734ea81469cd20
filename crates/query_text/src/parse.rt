//! The reading of a script.
ghost use Rattle.std.specs.Prelude.{◌≡◌};
ghost use Rattle.query_rules.specs.Grammar.{said_by, IsScript};
ghost use Rattle.query_rules.specs.Grammar as grammar;
ghost use Rattle.query_rules.specs.Words.{lines_of};
ghost use Rattle.query_text.specs.Reads.{Parses, fault_at};

use crate::script_line::{LineFault, first_line, later_line};
use crate::words::cut_line;
use crate::{Callers, Script};
use query_rules::Cause;
use std::alloc::Global;
use std::error::Error;
use std::fmt;

/// Why a text is no script.
#[derive(Clone, Copy, Debug, PartialEq, Eq)]
pub enum ParseFault {
    /// The first bad line, counted from 1, and the first cause that holds of it.
    Refused { line: u64, cause: Cause },
    NoMemory,
}

impl fmt::Display for ParseFault {
    fn fmt<W: fmt::Write>(&self, f: &mut fmt::Formatter<W>) -> fmt::Result {
        match *self {
            ParseFault::Refused { line, cause } => write!(f, "line {line} is refused: {cause:?}"),
            ParseFault::NoMemory => write!(f, "out of memory"),
        }
    }
}

impl Error for ParseFault {}

/// The script that a text says, or its first bad line with that line's first cause.
///
/// One pass over the bytes: each byte is looked at a fixed number of times, and no line is copied. It takes memory for
/// the lists of queries alone.
pub fn parse_script(alloc: Global, bytes: &[u8]) -> Result<Script, ParseFault>
    ensures { Parses (λ s. s) result (said_by bytes.now) }
{
    if bytes.is_empty() {
        return Err(ParseFault::Refused {
            line: 1,
            cause: Cause::MissingCells,
        });
    }
    let (first, after) = cut_line(bytes);
    match first_line(first) {
        Ok(cells) => later_lines(Callers::new(alloc), cells, after),
        Err(cause) => Err(ParseFault::Refused { line: 1, cause }),
    }
}

// The script that the first line's cells and these later lines make.
fn later_lines(mut callers: Callers, cells: u64, lines: &[u8]) -> Result<Script, ParseFault>
    requires { IsScript (record { cells = cells; callers = callers }) }
    ensures { Parses (λ s. s) result (grammar.later_lines (record { cells = cells; callers = callers }) 1 (lines_of lines.now)) }
{
    let mut line = 1;
    let mut rest = lines;
    while !rest.is_empty() {
        line += 1;
        let (text, after) = cut_line(rest);
        if let Err(fault) = later_line(cells, &mut callers, text) {
            return Err(at_line(line, fault));
        }
        rest = after;
    }
    Ok(Script::of(cells, callers))
}

// A line's fault, with its number.
fn at_line(line: u64, fault: LineFault) -> ParseFault
    ensures { result ≡ fault_at line fault }
{
    match fault {
        LineFault::Bad(cause) => ParseFault::Refused { line, cause },
        LineFault::NoMemory => ParseFault::NoMemory,
    }
}
