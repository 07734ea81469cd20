//! How a pass posts a job, which it or another owner runs.
ghost use Rattle.std.specs.Prelude.{◌≡◌, ◌≢◌, ◌+◌, ◌-◌, ◌*◌, ◌<◌, ◌≤◌, ℕ, [], ◌∷◌, ◌++◌, List, Some, None};
ghost use Rattle.waiter_chain.specs.Calls.{IsIdle};
ghost use Rattle.waiter_chain.specs.declared.view.StepEntry.{StepEntry};
ghost use Rattle.waiter_chain.specs.declared.view.Stage.TheVariants.{Behind};
ghost use Rattle.combine_job.specs.declared.parcel.Kept.{Kept};
ghost use Rattle.combine_job.specs.declared.parcel.Parcel.TheVariants.{Value, Posted, Answered};
ghost use Rattle.combine_job.specs.Parcels.{Related, Ruled, places};
ghost use Rattle.dist_mutex.specs.Owners.{RanOne};
ghost use Rattle.dist_mutex.specs.Unlocks.{Unlocked};
ghost use Rattle.dist_mutex.specs.Posts.{HasPosted, WasAnswered, Waited, Combined};
ghost use Rattle.dist_mutex.specs.Passes.{opening_of, slots_of, combine_of, dist_state, dist_view, runs_of, HasNoRuns, IsDistPassOf, IsSamePass, IsAtRest};

use crate::mutex::DistMutex;
use crate::owner::Owner;
use crate::pass::DistPass;
use combine_job::combining::{collect, post};
use combine_job::job::{Job, Room};
use combine_job::parcel::JobAnswer;
use combine_job::run::run_taken;
use std::sync::Wait;
use std::thread;
use waiter_chain::turn::{Arrived, Polled, Turn};

impl<V: Room, J: Job<V>> DistMutex<V, J> {
    // The owner takes its own posted job back, runs it, and gives the lock up.
    fn run_back(&self, pass: &mut DistPass<V, J>, turn: Turn) -> JobAnswer<J::Out, J::Fault>
        requires own { IsDistPassOf self.now pass.old }
        requires runs { HasNoRuns pass.old }
        requires posted { (job : J) × HasPosted V.rooms J.means J.is_ready (opening_of self.now) (slots_of self.now) job turn (dist_state pass.old) }
        ensures own { IsSamePass pass.old pass.new }
        ensures runs { HasNoRuns pass.new }
        ensures answered { (job : J) → HasPosted V.rooms J.means J.is_ready (opening_of self.now) (slots_of self.now) job turn (dist_state pass.old)
            → (made : List StepEntry) × WasAnswered V.rooms J.means job result made (dist_state pass.old) (dist_state pass.new) × Unlocked (dist_view pass.old).number (combine_of self.now) turn made }
    {
        let slot = 1 + 2 * pass.number();
        let value = self.chain.move_slot(&mut pass.pass, 0, None);
        let mut kept = value.unwrap().into_kept();
        let posted = self.chain.move_slot(&mut pass.pass, slot, None);
        let answer = run_taken(&mut kept, &mut pass.runs, posted.unwrap());
        let _released = self.unlock(pass, Owner { turn, kept });
        answer
    }

    // Polls the pass's own status until its job has run, or it is the owner and runs the job itself.
    pub(crate) fn await_answer<R: Wait>(
        &self,
        rt: &R,
        pass: &mut DistPass<V, J>,
    ) -> JobAnswer<J::Out, J::Fault>
        requires own { IsDistPassOf self.now pass.old }
        requires runs { HasNoRuns pass.old }
        requires behind { (job : J) × ((dist_view pass.old).stage ≡ Behind pass.old.pass.behind (Some (Posted job))) × ((dist_state pass.old).1 ≡ []) }
        ensures own { IsSamePass pass.old pass.new }
        ensures runs { HasNoRuns pass.new }
        ensures answered { (job : J) → (dist_view pass.old).stage ≡ Behind pass.old.pass.behind (Some (Posted job))
            → (made : List StepEntry) × WasAnswered V.rooms J.means job result made (dist_state pass.old) (dist_state pass.new) × Waited (dist_view pass.old).number (combine_of self.now) pass.old.pass.behind made }
    {
        for _ in rt.forever() {
            match self.chain.poll(&mut pass.pass) {
                Polled::Owner(turn) => return self.run_back(pass, turn),
                Polled::Done => return collect(&self.chain, &mut pass.pass),
                Polled::Still { word: _ } => thread::yield_now(),
            }
        }
        unreachable!()
    }

    /// Posts the job, which runs once: by another owner of the lock, or by this pass once it is the owner, which then
    /// gives the lock up. The quota falls by 1, and the answer stands at the end of the pass's own list, at a position
    /// above all that stood there.
    pub fn lock_combine<R: Wait>(
        &self,
        rt: &R,
        pass: &mut DistPass<V, J>,
        job: J,
    ) -> JobAnswer<J::Out, J::Fault>
        requires own { IsDistPassOf self.now pass.old }
        requires idle { IsAtRest pass.old }
        requires quota { 1 ≤ (dist_view pass.old).quota }
        requires ready { J.is_ready job }
        ensures own { IsSamePass pass.old pass.new }
        ensures runs { HasNoRuns pass.new }
        ensures answered { RanOne (dist_state pass.old) (dist_state pass.new) (Posted job) (Answered result) }
        ensures related { (v : Kept V) × (w : Kept V) × Related V.rooms J.means (Value v) (Posted job) (Answered result) (Value w) }
        ensures steps { (made : List StepEntry) × ((dist_view pass.new).steps ≡ (dist_view pass.old).steps ++ made) × Combined (dist_view pass.old).number (combine_of self.now) made }
        ensures rises { (p : ℕ) → result.at ≤ p → places p (dist_view pass.old).own ≡ 0 }
    {
        match post(&self.chain, &mut pass.pass, job) {
            Arrived::Owner(turn) => self.run_back(pass, turn),
            Arrived::Waiting => self.await_answer(rt, pass),
        }
    }
}
