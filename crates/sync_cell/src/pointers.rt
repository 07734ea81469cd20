//! What a pass that holds a cell has in its hands.
ghost use Rattle.std.specs.Prelude.{◌≡◌};

use hall::{ExclusiveGuard, SharedGuard, UpgradeGuard};

/// A cell held for reading. The right to the cell is the pass's standing, which this value names. It must be given back
/// by `unlock_read`: code that drops it doesn't compile.
#[derive(Debug)]
pub struct ReadPtr {
    pub guard: SharedGuard,
}

impl ReadPtr {
    /// Which cell it is.
    pub fn cell(&self) -> u64
        ensures { result ≡ self.now.guard.lock }
    {
        self.guard.lock
    }
}

/// A cell held in upgrade mode: beside readers, and by one pass at a time, which may go on to write. The right to the
/// cell is the pass's standing, which this value names. It must be given back by `unlock_upgrade_ptr`, or moved to
/// another mode: code that drops it doesn't compile.
#[derive(Debug)]
pub struct UpgradePtr {
    pub guard: UpgradeGuard,
}

impl UpgradePtr {
    /// Which cell it is.
    pub fn cell(&self) -> u64
        ensures { result ≡ self.now.guard.lock }
    {
        self.guard.lock
    }
}

/// A cell held for writing. The right to the cell is the pass's standing, which this value names. It must be given back
/// by `unlock_write`: code that drops it doesn't compile.
#[derive(Debug)]
pub struct WritePtr {
    pub guard: ExclusiveGuard,
}

impl WritePtr {
    /// Which cell it is.
    pub fn cell(&self) -> u64
        ensures { result ≡ self.now.guard.lock }
    {
        self.guard.lock
    }
}
