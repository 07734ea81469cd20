//! What the words ask for.
ghost use Rattle.clap.specs.Words.{kind_of};
ghost use Rattle.clap.specs.declared.error.kind.ErrorKind.TheVariants.{OutOfMemory};
ghost use Rattle.command_line.specs.declared.options.WordsFault.TheVariants.{Usage, NoMemory};
ghost use Rattle.std.specs.Prelude.{◌≡◌, ◌≢◌};

use clap::error::{Error, ErrorKind};
use lock_model::Policy;
use std::alloc::AllocError;

/// What the program does.
#[derive(Clone, Copy, Debug, PartialEq, Eq)]
pub enum RunMode {
    /// Runs the script that the source gives.
    Run,
    /// Runs a script of its own, and reads nothing.
    Soak,
}

/// What the words ask for.
#[derive(Clone, Copy, Debug, PartialEq, Eq)]
pub struct Options {
    pub mode: RunMode,
    /// The most keys that a cell may have, and the most accounts of the ledger: 1 to 65,536, and 1,024 without a word.
    /// A soak has 16.
    pub rows: u64,
    /// Slots that the locks' deferred readers share: 1 to 256, and 32 without a word.
    pub slots: u64,
    /// Jobs that one unlock may run for others: 0 to 1,024, and 64 without a word.
    pub combine: u32,
    /// Whether a waiting writer keeps new readers out: without a word it does.
    pub policy: Policy,
    /// The queries of a soak: 1 to 1,000,000, and 1,000 without a word. A run has 1,000 here, which it doesn't use.
    pub count: u64,
}

/// Why words ask for nothing.
#[derive(Clone, Copy, Debug, PartialEq, Eq)]
pub enum WordsFault {
    /// The words aren't of the form.
    Usage,
    NoMemory,
}

impl From<AllocError> for WordsFault {
    ghost from_gives = { λ _ fault. fault ≡ NoMemory };

    fn from(_: AllocError) -> Self {
        WordsFault::NoMemory
    }
}

impl From<Error> for WordsFault {
    // Words are refused only where something other than memory is at fault.
    ghost from_gives = { λ e fault. fault ≡ Usage → kind_of e ≢ OutOfMemory };

    fn from(error: Error) -> Self {
        match error.kind() {
            ErrorKind::OutOfMemory => WordsFault::NoMemory,
            _ => WordsFault::Usage,
        }
    }
}
