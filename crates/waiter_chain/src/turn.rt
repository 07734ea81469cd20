//! What the calls on a chain answer.
use std::error::Error;
use std::fmt;

/// The owner's token. Its pass alone can spend it, by `Chain::grant` or by `Chain::next` where that frees the lock. It
/// has no `Drop`, so an owner that forgets it does not compile.
pub struct Turn {
    pub(crate) first: u64,
    pub(crate) end: u64,
    pub(crate) mark: u64,
}

/// The lock was not free: the central word was this, which is not 0.
#[derive(Clone, Copy, Debug, PartialEq, Eq, Drop)]
pub struct DistBusy {
    pub word: u64,
}

impl fmt::Display for DistBusy {
    fn fmt<W: fmt::Write>(&self, f: &mut fmt::Formatter<W>) -> fmt::Result {
        write!(f, "the lock is busy: its central word was {}", self.word)
    }
}

impl Error for DistBusy {}

/// How a pass enters.
#[derive(Clone, Copy)]
pub enum Kind {
    /// It waits for the lock itself.
    Plain,
    /// It posts a job, and waits until the job has run, or for the lock.
    WithJob,
}

/// What a pass is once it has entered.
pub enum Entered {
    /// The central word was 0.
    Owner(Turn),
    /// It waits behind another.
    Behind,
}

/// What a pass is once it has arrived.
pub enum Arrived {
    /// The central word was 0.
    Owner(Turn),
    /// It waits behind another.
    Waiting,
}

/// What a waiting pass found in its own status.
pub enum Polled {
    /// It still waits.
    Still { word: u64 },
    /// Another owner has run its job, and its answer is in its hand.
    Done,
    /// Another owner made it the owner.
    Owner(Turn),
}

/// What an owner whose chain may be empty goes on with.
pub enum Follow {
    /// The lock is free, and the pass is idle.
    Free,
    /// The pass still owns the lock, and `node` is next in its chain.
    Waits { turn: Turn, node: u64 },
}

impl Turn {
    ghost use Rattle.std.specs.Prelude.{◌≡◌, ◌↔◌, ◌-◌, ◌<◌, IsTrue};

    /// Whether no node waits in the owner's own chain. Nodes that came since may wait behind it.
    pub fn is_empty(&self) -> bool
        ensures { IsTrue result ↔ (self.now.first ≡ self.now.end) }
    {
        self.first == self.end
    }

    /// The next node of the owner's chain, where that is not empty.
    pub fn node(&self) -> u64
        requires { 1 < self.now.first }
        ensures { result ≡ self.now.first - 2 }
    {
        self.first - 2
    }
}
