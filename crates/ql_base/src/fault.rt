//! Why a read, a write or a request for memory gave nothing.
ghost use Rattle.std.specs.Prelude.{◌≡◌};
ghost use Rattle.ql_base.specs.declared.fault.ReadFault.{ReadFault};

use std::alloc::{AllocError, AllocFailed};
use std::error::Error;
use std::fmt;

/// A read or a write failed. The count of faults of its source or sink rose.
#[derive(Clone, Copy, Debug, PartialEq, Eq)]
pub struct Failed;

impl fmt::Display for Failed {
    fn fmt<W: fmt::Write>(&self, f: &mut fmt::Formatter<W>) -> fmt::Result {
        write!(f, "a read or a write failed")
    }
}

impl Error for Failed {}

/// There was no memory. This is the one answer that a contract never ties to a cause.
#[derive(Clone, Copy, Debug, PartialEq, Eq)]
pub struct NoMemory;

impl fmt::Display for NoMemory {
    fn fmt<W: fmt::Write>(&self, f: &mut fmt::Formatter<W>) -> fmt::Result {
        write!(f, "out of memory")
    }
}

impl Error for NoMemory {}

impl From<AllocError> for NoMemory {
    fn from(_: AllocError) -> Self {
        NoMemory
    }
}

/// A value that found no room is dropped.
impl<T: Drop> From<AllocFailed<T>> for NoMemory {
    fn from(_: AllocFailed<T>) -> Self {
        NoMemory
    }
}

/// Why not all of a source was read.
#[derive(Clone, Copy, Debug, PartialEq, Eq)]
pub enum ReadFault {
    /// A read failed.
    Fault,
    /// More bytes came than the limit allows.
    TooLong,
    /// There was no memory for the bytes.
    NoMemory,
}

impl fmt::Display for ReadFault {
    fn fmt<W: fmt::Write>(&self, f: &mut fmt::Formatter<W>) -> fmt::Result {
        match self {
            ReadFault::Fault => write!(f, "a read failed"),
            ReadFault::TooLong => write!(f, "there are more bytes than are taken"),
            ReadFault::NoMemory => write!(f, "out of memory"),
        }
    }
}

impl Error for ReadFault {}

impl From<Failed> for ReadFault {
    ghost from_gives = { λ _ e. e ≡ ReadFault.Fault };

    fn from(_: Failed) -> Self {
        ReadFault::Fault
    }
}

impl From<AllocError> for ReadFault {
    ghost from_gives = { λ _ e. e ≡ ReadFault.NoMemory };

    fn from(_: AllocError) -> Self {
        ReadFault::NoMemory
    }
}
