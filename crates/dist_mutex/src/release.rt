//! How an owner gives the lock up. It runs the jobs of waiting nodes before, as many as the lock's limit allows.
ghost use Rattle.std.specs.Prelude.{◌≡◌, ◌≢◌, ◌+◌, ◌-◌, ◌*◌, ◌<◌, ◌≤◌, ℕ, [], ◌∷◌, ◌++◌, List, MatchResult, Some, None, true};
ghost use Rattle.atomic_table.specs.Table.{rest};
ghost use Rattle.waiter_chain.specs.Calls.{IsIdle, HasTurn, MayEnd};
ghost use Rattle.waiter_chain.specs.declared.view.StepEntry.{StepEntry};
ghost use Rattle.combine_job.specs.declared.parcel.Parcel.TheVariants.{Value};
ghost use Rattle.combine_job.specs.Parcels.{Related, Ruled};
ghost use Rattle.combine_job.specs.Combining.{HasJob};
ghost use Rattle.dist_mutex.specs.declared.owner.Next.TheVariants as next;
ghost use Rattle.dist_mutex.specs.Owners.{Owning, Spent};
ghost use Rattle.dist_mutex.specs.Unlocks.{Went, JobWaits, EndsSoon, IsSeen, TookJob, NotLinked, RanRound, EndsEarly, StopsAs, grants, loads_link, serves, Round, Closes, Unlocks};
ghost use Rattle.dist_mutex.specs.Passes.{opening_of, slots_of, combine_of, dist_state, dist_view, runs_of, due_of, HasNoRuns, IsDistPassOf, IsSamePass};

use crate::mutex::DistMutex;
use crate::owner::{Next, Owner, Released};
use crate::pass::DistPass;
use combine_job::combining::run_posted;
use combine_job::job::{Job, Room};
use combine_job::parcel::Parcel;
use waiter_chain::runs::OwnRuns;
use waiter_chain::turn::{Follow, Kind, Turn};

impl<V: Room, J: Job<V>> DistMutex<V, J> {
    // The next node becomes the owner.
    fn hand_on(&self, pass: &mut DistPass<V, J>, turn: Turn)
        requires own { IsDistPassOf self.now pass.old }
        requires turn { HasTurn (slots_of self.now) turn (dist_state pass.old) × (turn.first ≢ turn.end) }
        requires ends { MayEnd (Related V.rooms J.means) (due_of pass.old) (runs_of pass.old) (dist_state pass.old) }
        ensures own { IsSamePass pass.old pass.new }
        ensures runs { HasNoRuns pass.new }
        ensures idle { IsIdle (dist_state pass.new) }
        ensures went { Went (due_of pass.old) (runs_of pass.old) (grants (dist_view pass.old).number (turn.first - 2) turn.end ∷ []) (dist_state pass.old) (dist_state pass.new) }
    {
        self.chain.grant(&mut pass.pass, turn, &pass.runs);
        pass.runs = OwnRuns::new();
    }

    // The turn of an owner whose next node waits with a job; or the lock is given up, to nobody or to a node that waits
    // for the lock itself.
    fn find_job(&self, pass: &mut DistPass<V, J>, turn: Turn) -> Result<Turn, Next>
        requires own { IsDistPassOf self.now pass.old }
        requires turn { HasTurn (slots_of self.now) turn (dist_state pass.old) }
        requires ends { MayEnd (Related V.rooms J.means) (due_of pass.old) (runs_of pass.old) (dist_state pass.old) }
        ensures own { IsSamePass pass.old pass.new }
        ensures found { MatchResult result (λ u. (pass.new.runs ≡ pass.old.runs) × JobWaits (Related V.rooms J.means) (slots_of self.now) (due_of pass.old) (runs_of pass.old) turn (dist_state pass.old) (dist_state pass.new) u) (λ x. HasNoRuns pass.new × EndsSoon (due_of pass.old) (runs_of pass.old) turn (dist_state pass.old) (dist_state pass.new) x) }
    {
        match self.chain.next(&mut pass.pass, turn, &pass.runs) {
            Follow::Free => {
                pass.runs = OwnRuns::new();
                Err(Next::Free)
            }
            Follow::Waits { turn, node } => match self.chain.kind_of(&mut pass.pass, &turn) {
                Kind::WithJob => Ok(turn),
                Kind::Plain => {
                    self.hand_on(pass, turn);
                    Err(Next::Plain(node))
                }
            },
        }
    }

    // The owner takes the job of the next node; or it makes that node the owner, where the node has not linked yet.
    fn take_job(&self, pass: &mut DistPass<V, J>, turn: Turn) -> Result<(Turn, u64), Next>
        requires own { IsDistPassOf self.now pass.old }
        requires turn { HasTurn (slots_of self.now) turn (dist_state pass.old) × (turn.first ≢ turn.end) }
        requires ends { MayEnd (Related V.rooms J.means) (due_of pass.old) (runs_of pass.old) (dist_state pass.old) }
        requires seen { IsSeen (dist_state pass.old) }
        ensures own { IsSamePass pass.old pass.new }
        ensures taken { MatchResult result (λ r. (pass.new.runs ≡ pass.old.runs) × TookJob (Related V.rooms J.means) (Ruled V.rooms J.means J.is_ready (opening_of self.now)) (slots_of self.now) (due_of pass.old) (runs_of pass.old) turn (dist_state pass.old) (dist_state pass.new) r.0 r.1) (λ x. HasNoRuns pass.new × NotLinked (due_of pass.old) (runs_of pass.old) turn (dist_state pass.old) (dist_state pass.new) x) }
    {
        let link = self.chain.link_of(&mut pass.pass, &turn);
        if link != 0 {
            return Ok((turn, link));
        }
        let node = turn.node();
        self.hand_on(pass, turn);
        Err(Next::Unlinked(node))
    }

    // Runs the job that was taken. The value stands in slot 0 before and afterwards.
    fn run_job(&self, pass: &mut DistPass<V, J>, turn: Turn, link: u64) -> Turn
        requires own { IsDistPassOf self.now pass.old }
        requires taken { HasJob (Related V.rooms J.means) (Ruled V.rooms J.means J.is_ready (opening_of self.now)) (slots_of self.now) (due_of pass.old) (runs_of pass.old) turn link (dist_state pass.old) }
        ensures own { IsSamePass pass.old pass.new }
        ensures runs { HasNoRuns pass.new }
        ensures turn { HasTurn (slots_of self.now) result (dist_state pass.new) × (result.first ≡ link) × (result.end ≡ turn.end) × (result.mark ≡ turn.mark) }
        ensures ends { MayEnd (Related V.rooms J.means) 0 [] (dist_state pass.new) }
        ensures went { Went (due_of pass.old) (runs_of pass.old) (serves (dist_view pass.old).number (turn.first - 2) ∷ []) (dist_state pass.old) (dist_state pass.new) }
    {
        let value = self.chain.move_slot(&mut pass.pass, 0, None);
        let kept = value.unwrap().into_kept();
        let (turn, kept) = run_posted(&self.chain, &mut pass.pass, turn, link, kept, &pass.runs);
        pass.runs = OwnRuns::new();
        let _empty = self
            .chain
            .move_slot(&mut pass.pass, 0, Some(Parcel::Value(kept)));
        turn
    }

    // One round: the job of the next node runs, or the lock is given up.
    fn combine_next(&self, pass: &mut DistPass<V, J>, turn: Turn) -> Result<Turn, Next>
        requires own { IsDistPassOf self.now pass.old }
        requires turn { HasTurn (slots_of self.now) turn (dist_state pass.old) }
        requires ends { MayEnd (Related V.rooms J.means) (due_of pass.old) (runs_of pass.old) (dist_state pass.old) }
        ensures own { IsSamePass pass.old pass.new }
        ensures runs { HasNoRuns pass.new }
        ensures round { MatchResult result (λ u. RanRound (Related V.rooms J.means) (slots_of self.now) (due_of pass.old) (runs_of pass.old) turn (dist_state pass.old) (dist_state pass.new) u) (λ x. EndsEarly (due_of pass.old) (runs_of pass.old) turn (dist_state pass.old) (dist_state pass.new) x) }
    {
        let turn = self.find_job(pass, turn)?;
        let (turn, link) = self.take_job(pass, turn)?;
        Ok(self.run_job(pass, turn, link))
    }

    // The value stands in slot 0.
    fn release(&self, pass: &mut DistPass<V, J>, turn: Turn) -> Released
        requires own { IsDistPassOf self.now pass.old }
        requires turn { HasTurn (slots_of self.now) turn (dist_state pass.old) }
        requires ends { MayEnd (Related V.rooms J.means) (due_of pass.old) (runs_of pass.old) (dist_state pass.old) }
        ensures own { IsSamePass pass.old pass.new }
        ensures runs { HasNoRuns pass.new }
        ensures idle { IsIdle (dist_state pass.new) }
        ensures released { (made : List StepEntry) × Went (due_of pass.old) (runs_of pass.old) made (dist_state pass.old) (dist_state pass.new) × Unlocks (dist_view pass.old).number (combine_of self.now) turn result.combined made result.next }
    {
        let limit = self.combine();
        let mut turn = turn;
        let mut combined = 0;
        while combined < limit {
            match self.combine_next(pass, turn) {
                Ok(later) => turn = later,
                Err(next) => return Released { combined, next },
            }
            combined += 1;
        }
        let next = self.stop(pass, turn);
        Released { combined, next }
    }

    // The limit is reached: no job of another node runs any more.
    fn stop(&self, pass: &mut DistPass<V, J>, turn: Turn) -> Next
        requires own { IsDistPassOf self.now pass.old }
        requires turn { HasTurn (slots_of self.now) turn (dist_state pass.old) }
        requires ends { MayEnd (Related V.rooms J.means) (due_of pass.old) (runs_of pass.old) (dist_state pass.old) }
        ensures own { IsSamePass pass.old pass.new }
        ensures runs { HasNoRuns pass.new }
        ensures stopped { StopsAs (due_of pass.old) (runs_of pass.old) turn (dist_state pass.old) (dist_state pass.new) result }
    {
        match self.find_job(pass, turn) {
            Err(next) => next,
            Ok(turn) => {
                let node = turn.node();
                self.hand_on(pass, turn);
                Next::Spent(node)
            }
        }
    }

    /// Gives the lock up. While the next node of the owner's chain waits with a job and has linked, the owner runs that
    /// job, as often as the lock's limit allows; then the next node becomes the owner, or where nobody came, nobody.
    /// The answers of the jobs that the owner ran for itself stand in the pass's own list from then on.
    pub fn unlock(&self, pass: &mut DistPass<V, J>, owner: Owner<V>) -> Released
        requires own { IsDistPassOf self.now pass.old }
        requires owner { Owning V.rooms J.means (slots_of self.now) (dist_state pass.old) (due_of pass.old) (runs_of pass.old) owner.turn owner.kept }
        ensures own { IsSamePass pass.old pass.new }
        ensures runs { HasNoRuns pass.new }
        ensures spent { Spent (7 * result.combined + 6) (due_of pass.old) (runs_of pass.old) (dist_state pass.old) (dist_state pass.new) }
        ensures released { (made : List StepEntry) × ((dist_view pass.new).steps ≡ (dist_view pass.old).steps ++ made) × Unlocks (dist_view pass.old).number (combine_of self.now) owner.turn result.combined made result.next }
    {
        let Owner { turn, kept } = owner;
        let value = Some(Parcel::Value(kept));
        let _empty = self.chain.move_slot(&mut pass.pass, 0, value);
        self.release(pass, turn)
    }
}
