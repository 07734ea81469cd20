//! What an acquisition gives, and why one is refused.
use state_word::Word;
use std::error::Error;
use std::fmt;

/// A shared hold of a lock. The right to the lock is the pass's standing, which this value names. It must be given back
/// by an unlock: code that drops it doesn't compile.
#[derive(Debug)]
pub struct SharedGuard {
    pub lock: u64,
    /// Where its unit stands, and why there.
    pub form: Form,
}

/// How a shared hold came, and by that where its unit stands.
#[derive(Clone, Copy, Debug, PartialEq, Eq)]
pub enum Form {
    /// By a token in this slot. The lock's word wasn't written.
    Deferred { slot: u64 },
    /// By a step that counted it in the lock's word.
    Inline { why: Why },
    /// From a stronger hold, by a step that counted it in the lock's word.
    Lowered,
}

/// What forced a reader into the count.
#[derive(Clone, Copy, Debug, PartialEq, Eq)]
pub enum Why {
    /// This word was read in the call that entered. Its may-defer bit is clear, and the reader entered from it.
    NoDefer { word: Word },
    /// These words, neither of them 0, were found in the call that entered in the seat's two slots.
    SlotsTaken { seen: [u64; 2] },
}

/// An upgrade hold of a lock: beside readers, and alone among those that may write. It must be given back by an unlock,
/// or go on as another hold: code that drops it doesn't compile.
#[derive(Debug)]
pub struct UpgradeGuard {
    pub lock: u64,
}

/// An exclusive hold of a lock. It must be given back by an unlock: code that drops it doesn't compile.
#[derive(Debug)]
pub struct ExclusiveGuard {
    pub lock: u64,
}

/// An announced writer, which waits to take the lock. It must be finished or retracted: code that drops it doesn't
/// compile.
#[derive(Debug)]
pub struct Announced {
    pub lock: u64,
    /// Each slot was looked at, so that the writer can try to finish.
    pub swept: bool,
    /// It still holds upgrade.
    pub from_upgrade: bool,
}

/// Why an acquisition was refused. The pass is away from the lock.
#[derive(Clone, Copy, Debug, PartialEq, Eq)]
pub enum TryFault {
    /// This word was read in this call, and it conflicts with what was asked.
    Busy { word: Word },
    /// Both words were read in this call and differ, and the pass itself made no change by or between the two reads.
    Raced { expected: Word, found: Word },
}

impl fmt::Display for TryFault {
    fn fmt<W: fmt::Write>(&self, f: &mut fmt::Formatter<W>) -> fmt::Result {
        match *self {
            TryFault::Busy { word } => write!(f, "the lock is busy: its word was {}", word.0),
            TryFault::Raced { expected, found } => write!(
                f,
                "another seat came between: the word was {}, then {}",
                expected.0, found.0
            ),
        }
    }
}

impl Error for TryFault {}
