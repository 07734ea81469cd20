//! What an owner has, and what it leaves.
use combine_job::parcel::Kept;
use waiter_chain::turn::Turn;

/// The lock, with the value in hand. It has no `Drop`: `DistMutex::unlock` alone spends it.
pub struct Owner<V> {
    pub(crate) turn: Turn,
    pub(crate) kept: Kept<V>,
}

impl<V> Owner<V> {
    ghost use Rattle.std.specs.Prelude.{◌≡◌};

    /// The value, which jobs alone change.
    pub fn value(&self) -> &V
        ensures { result.now ≡ self.now.kept.value }
    {
        &self.kept.value
    }

    /// How many jobs ran on the value.
    pub fn ran(&self) -> u64
        ensures { result ≡ self.now.kept.ran }
    {
        self.kept.ran
    }
}

/// How an unlock ended.
#[derive(Clone, Copy, Debug, PartialEq, Eq, Drop)]
pub struct Released {
    /// How many jobs of other nodes the unlock ran.
    pub combined: u32,
    pub next: Next,
}

/// Who has the lock after an unlock.
#[derive(Clone, Copy, Debug, PartialEq, Eq, Drop)]
pub enum Next {
    /// Nobody.
    Free,
    /// The node of this number, which waits for the lock itself.
    Plain(u64),
    /// The node of this number, which waits with a job, since the unlock has run as many jobs as the lock's limit allows.
    Spent(u64),
    /// The node of this number, which waits with a job and had not linked yet.
    Unlinked(u64),
}
