//! The token of one node of a distributed lock.
ghost use Rattle.std.specs.Prelude.{◌≡◌, ◌-◌, ◌≤◌};

use combine_job::job::{Job, Room};
use combine_job::parcel::Parcel;
use waiter_chain::chain::ChainPass;
use waiter_chain::runs::OwnRuns;

/// A pass of the chain, and the jobs that it has run for itself in its present ownership. Each call that promises
/// something of the caller takes it.
#[derive(Drop)]
pub struct DistPass<V: Room, J: Job<V>> {
    pub(crate) pass: ChainPass<Parcel<V, J>>,
    pub(crate) runs: OwnRuns<Parcel<V, J>>,
    ghost few: { runs.count ≤ pass.quota },
}

impl<V: Room, J: Job<V>> DistPass<V, J> {
    /// The pass's own number, from 0 on.
    pub fn number(&self) -> u64
        ensures { result ≡ self.now.pass.seat.me.0.number }
    {
        self.pass.number()
    }

    /// How many numbers it can still give away.
    pub fn spare(&self) -> u64
        ensures { result ≡ self.now.pass.seat.me.0.spare }
    {
        self.pass.spare()
    }

    /// How many jobs it may still run: the chain's quota, less the jobs that it has run in its present ownership
    /// without having posted them.
    pub fn quota(&self) -> u64
        ensures { result ≡ self.now.pass.seat.me.0.quota - self.now.runs.count }
    {
        self.pass.quota() - self.runs.count()
    }
}
