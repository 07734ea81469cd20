//! How a distributed lock is made, shared out and closed.
ghost use Rattle.std.specs.Prelude.{◌≡◌, ◌+◌, ◌<◌, ◌≤◌, ℕ, [], IfOk};
ghost use Rattle.waiter_chain.specs.Steps.{first_view, cut_left, cut_right, joined};
ghost use Rattle.waiter_chain.specs.Chains.{Lawful, covers};
ghost use Rattle.waiter_chain.specs.Calls.{IsIdle};
ghost use Rattle.combine_job.specs.declared.parcel.Parcel.TheVariants.{Value};
ghost use Rattle.combine_job.specs.Parcels.{Ruled};
ghost use Rattle.dist_mutex.specs.Owners.{Ends};
ghost use Rattle.dist_mutex.specs.Shows.{LockShows};
ghost use Rattle.dist_mutex.specs.Passes.{opening_of, nodes_of, combine_of, dist_state, dist_view, runs_of, IsDistPassOf, IsSamePass, IsAtRest};

use crate::pass::DistPass;
use combine_job::job::{Job, Room};
use combine_job::parcel::{Kept, Parcel};
use std::alloc::{AllocError, Global};
use waiter_chain::chain::Chain;
use waiter_chain::make::Retired;
use waiter_chain::runs::OwnRuns;

/// An exclusive lock of 1 to 2^20 nodes over a value of type `V`, on which jobs of type `J` run.
pub struct DistMutex<V: Room, J: Job<V>> {
    pub(crate) chain: Chain<Parcel<V, J>>,
}

impl<V: Room, J: Job<V>> DistMutex<V, J> {
    /// A free lock over `value`, on which no job ran, and the pass that has all numbers and the whole quota of `jobs`.
    /// Its cost is O(nodes). Where it is refused for want of memory, `value` is dropped.
    pub fn make(
        alloc: Global,
        nodes: u64,
        jobs: u64,
        combine: u32,
        value: V,
    ) -> Result<(DistMutex<V, J>, DistPass<V, J>), AllocError>
        requires nodes { (0 < nodes) × (nodes ≤ 1048576) }
        requires room { jobs ≤ V.rooms value }
        ensures made { IfOk result (λ r. IsDistPassOf r.0 r.1 × (dist_state r.1 ≡ (first_view nodes jobs, [])) × (runs_of r.1 ≡ []) × ((opening_of r.0).first.value ≡ Value record { value = value; ran = 0 }) × (nodes_of r.0 ≡ nodes) × (combine_of r.0 ≡ combine)) }
        ensures quota { IfOk result (λ r. ((dist_view r.1).quota ≡ jobs) × ((opening_of r.0).quota ≡ jobs) × ((opening_of r.0).nodes ≡ nodes)) }
        ensures covers { IfOk result (λ r. (n : ℕ) → n < nodes → 0 < covers n (dist_view r.1)) }
        // What the rule says that the lock keeps from now on, between any two steps of any passes.
        ensures shows { IfOk result (λ r. (s : _) → Lawful (Ruled V.rooms J.means J.is_ready (opening_of r.0)) (opening_of r.0).nodes s → LockShows V.rooms J.means (opening_of r.0) s) }
    {
        let first = Parcel::Value(Kept { value, ran: 0 });
        let (chain, pass) = Chain::make(alloc, nodes, jobs, combine, first)?;
        let pass = DistPass {
            pass,
            runs: OwnRuns::new(),
        };
        Ok((DistMutex { chain }, pass))
    }

    /// The limit on combined jobs that it was made with.
    pub fn combine(&self) -> u32
        ensures { result ≡ combine_of self.now }
    {
        self.chain.combine()
    }

    /// Cuts a new pass off: it gets the last `nodes` of the spare numbers, of which the first is its own, and so much
    /// of the quota. It begins idle, with empty lists.
    pub fn split(&self, pass: &mut DistPass<V, J>, nodes: u64, quota: u64) -> DistPass<V, J>
        requires own { IsDistPassOf self.now pass.old }
        requires idle { IsAtRest pass.old }
        requires fits { (0 < nodes) × (nodes ≤ (dist_view pass.old).spare) × (quota ≤ (dist_view pass.old).quota) }
        ensures own { IsSamePass pass.old pass.new × IsDistPassOf self.now result }
        ensures left { (dist_state pass.new ≡ (cut_left nodes quota (dist_view pass.old), [])) × (runs_of pass.new ≡ []) }
        ensures right { (dist_state result ≡ (cut_right nodes quota (dist_view pass.old), [])) × (runs_of result ≡ []) }
        ensures covers { (n : ℕ) → covers n (dist_view pass.old) ≡ covers n (dist_view pass.new) + covers n (dist_view result) }
    {
        let other = self.chain.split(&mut pass.pass, nodes, quota);
        DistPass {
            pass: other,
            runs: OwnRuns::new(),
        }
    }

    /// Takes another pass in: its numbers, its quota, and its lists behind the pass's own.
    pub fn join(&self, pass: &mut DistPass<V, J>, other: DistPass<V, J>)
        requires own { IsDistPassOf self.now pass.old × IsDistPassOf self.now other }
        requires idle { IsAtRest pass.old × IsAtRest other }
        ensures own { IsSamePass pass.old pass.new }
        ensures joined { (dist_state pass.new ≡ (joined (dist_view pass.old) (dist_view other), [])) × (runs_of pass.new ≡ []) }
        ensures covers { (n : ℕ) → covers n (dist_view pass.new) ≡ covers n (dist_view pass.old) + covers n (dist_view other) }
    {
        let DistPass {
            pass: node,
            runs: _,
        } = other;
        self.chain.join(&mut pass.pass, node);
    }

    /// The value at the end, with the number of jobs that ran on it, wherever all passes were joined. The closing
    /// pass's answers are then those of the whole history. Its cost is O(nodes).
    pub fn close(self, pass: DistPass<V, J>) -> (Option<Kept<V>>, Retired<Parcel<V, J>>)
        requires own { IsDistPassOf self pass }
        requires idle { IsAtRest pass }
        ensures value { ((n : ℕ) → n < nodes_of self → 0 < covers n (dist_view pass)) → Ends V.rooms J.means (opening_of self) (dist_view pass).own result.0 }
        ensures retired { (result.1.combine ≡ combine_of self) × (result.1.seat.value.me ≡ dist_state pass) }
    {
        let DistMutex { chain } = self;
        let DistPass {
            pass: node,
            runs: _,
        } = pass;
        let (value, retired) = chain.close(node);
        let kept = match value {
            Some(parcel) => parcel.kept(),
            None => None,
        };
        (kept, retired)
    }
}
