//! Why a log was not read.
ghost use Rattle.std.specs.Prelude.{◌≡◌};
ghost use Rattle.log_reader.specs.declared.fault.LogFault.TheVariants as fault;

use ql_base::NoMemory;
use std::error::Error;
use std::fmt;

/// Why a log was not read.
#[derive(Clone, Copy, Debug, PartialEq, Eq)]
pub enum LogFault {
    /// The bytes are no text that a log of any script can have.
    NotALog,
    /// There was no memory for the lists.
    NoMemory,
}

impl fmt::Display for LogFault {
    fn fmt<W: fmt::Write>(&self, f: &mut fmt::Formatter<W>) -> fmt::Result {
        match self {
            LogFault::NotALog => write!(f, "the text is no log"),
            LogFault::NoMemory => write!(f, "out of memory"),
        }
    }
}

impl Error for LogFault {}

impl From<NoMemory> for LogFault {
    ghost from_gives = { λ _ e. e ≡ fault.NoMemory };

    fn from(_: NoMemory) -> Self {
        LogFault::NoMemory
    }
}
