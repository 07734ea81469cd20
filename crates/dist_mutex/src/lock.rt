//! How a distributed lock is taken, and how its owner runs jobs of its own.
ghost use Rattle.std.specs.Prelude.{◌≡◌, ◌≢◌, ◌⊎◌, ◌+◌, ◌-◌, ◌*◌, ◌<◌, ◌≤◌, ℕ, [], ◌∷◌, ◌++◌, MatchResult, Some, None};
ghost use Rattle.atomic_table.specs.Table.{rest};
ghost use Rattle.waiter_chain.specs.Steps.{SeatState, entry};
ghost use Rattle.waiter_chain.specs.Calls.{IsIdle, IsBehind, HasTurn, MayEnd, Won, WasBusy};
ghost use Rattle.waiter_chain.specs.declared.view.StepKind.TheVariants as step_kind;
ghost use Rattle.waiter_chain.specs.declared.view.StepEntry.{StepEntry};
ghost use Rattle.combine_job.specs.declared.parcel.Kept.{Kept};
ghost use Rattle.combine_job.specs.declared.parcel.Parcel.TheVariants.{Value, Posted, Answered};
ghost use Rattle.combine_job.specs.Parcels.{Related, Ruled, places};
ghost use Rattle.dist_mutex.specs.Owners.{Owning, LockedBy, WonLock, polled_state};
ghost use Rattle.dist_mutex.specs.Passes.{opening_of, slots_of, dist_state, dist_view, runs_of, due_of, HasNoRuns, IsDistPassOf, IsSamePass, IsAtRest};

use crate::mutex::DistMutex;
use crate::owner::Owner;
use crate::pass::DistPass;
use combine_job::job::{Job, Room};
use combine_job::parcel::JobAnswer;
use combine_job::run::run_listed;
use std::sync::Wait;
use std::thread;
use waiter_chain::turn::{DistBusy, Entered, Kind, Polled, Turn};

impl<V: Room, J: Job<V>> DistMutex<V, J> {
    // The owner moves the value out of slot 0 into its hand.
    pub(crate) fn take(&self, pass: &mut DistPass<V, J>, turn: Turn) -> Owner<V>
        requires own { IsDistPassOf self.now pass.old }
        requires runs { runs_of pass.old ≡ [] }
        requires won { (m : _) × (e : StepEntry) × Won (Ruled V.rooms J.means J.is_ready (opening_of self.now)) (slots_of self.now) turn m e (dist_state pass.old) }
        ensures own { IsSamePass pass.old pass.new }
        ensures runs { HasNoRuns pass.new }
        ensures turn { result.turn ≡ turn }
        ensures locked { (m : _) (e : StepEntry) → Won (Ruled V.rooms J.means J.is_ready (opening_of self.now)) (slots_of self.now) turn m e (dist_state pass.old) → LockedBy V.rooms J.means (opening_of self.now) (slots_of self.now) m (dist_state pass.new) e result.turn result.kept }
    {
        let parcel = self.chain.move_slot(&mut pass.pass, 0, None);
        let kept = parcel.unwrap().into_kept();
        Owner { turn, kept }
    }

    /// One exchange of the central word from 0 to 1. It is refused exactly where the word isn't 0.
    pub fn try_lock(&self, pass: &mut DistPass<V, J>) -> Result<Owner<V>, DistBusy>
        requires own { IsDistPassOf self.now pass.old }
        requires idle { IsAtRest pass.old }
        ensures own { IsSamePass pass.old pass.new }
        ensures runs { HasNoRuns pass.new }
        ensures answer { MatchResult result (λ o. LockedBy V.rooms J.means (opening_of self.now) (slots_of self.now) (dist_state pass.old) (dist_state pass.new) (entry (dist_view pass.old) step_kind.TryIn 0 0) o.turn o.kept) (WasBusy (dist_state pass.old) (dist_state pass.new)) }
    {
        let turn = self.chain.try_in(&mut pass.pass)?;
        Ok(self.take(pass, turn))
    }

    /// Enters the chain and waits until the pass is the owner.
    pub fn lock<R: Wait>(&self, rt: &R, pass: &mut DistPass<V, J>) -> Owner<V>
        requires own { IsDistPassOf self.now pass.old }
        requires idle { IsAtRest pass.old }
        ensures own { IsSamePass pass.old pass.new }
        ensures runs { HasNoRuns pass.new }
        ensures owner { WonLock V.rooms J.means (opening_of self.now) (slots_of self.now) (dist_state pass.old) (dist_state pass.new) result.turn result.kept }
    {
        match self.chain.enter(&mut pass.pass, Kind::Plain) {
            Entered::Owner(turn) => self.take(pass, turn),
            Entered::Behind => self.wait(rt, pass),
        }
    }

    // Polls the pass's own status until an owner has made it the owner.
    fn wait<R: Wait>(&self, rt: &R, pass: &mut DistPass<V, J>) -> Owner<V>
        requires own { IsDistPassOf self.now pass.old }
        requires runs { runs_of pass.old ≡ [] }
        requires behind { IsBehind pass.old.pass.behind (dist_state pass.old) }
        ensures own { IsSamePass pass.old pass.new }
        ensures runs { HasNoRuns pass.new }
        ensures owner { (k : ℕ) × LockedBy V.rooms J.means (opening_of self.now) (slots_of self.now) (polled_state k (dist_state pass.old)) (dist_state pass.new) (entry (dist_view pass.old) step_kind.LoadStatus (1 + 2 * (dist_view pass.old).number) (result.turn.end + 4)) result.turn result.kept }
    {
        for _ in rt.forever() {
            match self.chain.poll(&mut pass.pass) {
                Polled::Owner(turn) => return self.take(pass, turn),
                Polled::Still { word: _ } => thread::yield_now(),
                Polled::Done => unreachable!(),
            }
        }
        unreachable!()
    }

    /// Runs a job that was not posted on the value in the owner's hand, at the next position. The quota falls by 1.
    pub fn run_owned(
        &self,
        pass: &mut DistPass<V, J>,
        owner: &mut Owner<V>,
        job: J,
    ) -> JobAnswer<J::Out, J::Fault>
        requires own { IsDistPassOf self.now pass.old }
        requires owner { Owning V.rooms J.means (slots_of self.now) (dist_state pass.old) (due_of pass.old) (runs_of pass.old) owner.old.turn owner.old.kept }
        requires quota { 1 ≤ (dist_view pass.old).quota - due_of pass.old }
        requires ready { J.is_ready job }
        ensures own { IsSamePass pass.old pass.new }
        ensures same { (dist_state pass.new ≡ dist_state pass.old) × (owner.new.turn ≡ owner.old.turn) }
        ensures listed { runs_of pass.new ≡ runs_of pass.old ++ (Posted job, Answered result) ∷ [] }
        ensures due { due_of pass.new ≡ due_of pass.old + 1 }
        ensures position { (result.at ≡ owner.old.kept.ran) × (owner.new.kept.ran ≡ owner.old.kept.ran + 1) }
        ensures related { Related V.rooms J.means (Value owner.old.kept) (Posted job) (Answered result) (Value owner.new.kept) }
        ensures owner { Owning V.rooms J.means (slots_of self.now) (dist_state pass.new) (due_of pass.new) (runs_of pass.new) owner.new.turn owner.new.kept }
    {
        run_listed(&mut owner.kept, &mut pass.runs, job)
    }
}
