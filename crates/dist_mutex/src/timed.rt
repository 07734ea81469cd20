//! How a distributed lock is tried for until a deadline.
ghost use Rattle.std.specs.Prelude.{◌≡◌, ◌⊎◌, ◌+◌, ◌≤◌, ◌<◌, [], ◌∷◌, length, None, IfOk, IfErr, OnOk, OnErr};
ghost use Rattle.timed_wait.specs.Waiting.{AsksBelow};
ghost use Rattle.dist_mutex.specs.Passes.{opening_of, slots_of, dist_state, dist_view, HasNoRuns, IsDistPassOf, IsSamePass, IsAtRest};
ghost use Rattle.dist_mutex.specs.Tries.{last_fault, Refused, LockedAtLast};

use crate::mutex::DistMutex;
use crate::owner::Owner;
use crate::pass::DistPass;
use combine_job::job::{Job, Room};
use ql_base::Clock;
use std::sync::Wait;
use timed_wait::{Attempt, Late, wait_until};
use waiter_chain::turn::DistBusy;

// Trying to take the lock. Each try is one step of the pass.
#[derive(Drop)]
struct Trying<'a, V: Room, J: Job<V>> {
    mutex: &'a DistMutex<V, J>,
    pass: &'a mut DistPass<V, J>,
}

impl<'a, V: Room, J: Job<V>> Attempt for Trying<'a, V, J> {
    ghost use Rattle.std.proofs.Common.{◌∙◌, subst};
    ghost use Rattle.dist_mutex.specs.TryLaws as laws;

    type Got = Owner<V>;

    type Fault = DistBusy;

    ghost ready = { λ a. IsDistPassOf a.mutex.now a.pass.now × IsAtRest a.pass.now };

    ghost tries = { λ a. length (dist_view a.pass.now).steps };

    ghost fault = { λ a. last_fault None (dist_view a.pass.now).steps };

    ghost refuses = { λ a fault b. (b.pass.ghost_name ≡ a.pass.ghost_name)
        × (b.mutex ≡ a.mutex)
        × (b.pass.now.pass.seat.table_id ≡ a.pass.now.pass.seat.table_id)
        × (b.pass.now.pass.seat.id ≡ a.pass.now.pass.seat.id)
        × Refused (dist_state a.pass.now) fault (dist_state b.pass.now) };

    ghost gives = { λ a got b. (b.pass.ghost_name ≡ a.pass.ghost_name)
        × (b.mutex ≡ a.mutex)
        × (b.pass.now.pass.seat.table_id ≡ a.pass.now.pass.seat.table_id)
        × (b.pass.now.pass.seat.id ≡ a.pass.now.pass.seat.id)
        × HasNoRuns b.pass.now
        × LockedAtLast V.rooms J.means (opening_of a.mutex.now)
        (slots_of a.mutex.now)
        (dist_state a.pass.now) (dist_state b.pass.now) got.turn got.kept };

    ghost refuses_again = { λ a b c f g x y. (y.0 ∙ x.0, y.1 ∙ x.1, y.2 ∙ x.2, y.3 ∙ x.3, laws.refused_again _ _ _ _ _ x.4 y.4) };

    ghost gives_at_last = { λ a b c f got x y. (y.0 ∙ x.0, y.1 ∙ x.1, y.2 ∙ x.2, y.3 ∙ x.3, y.4, laws.locked_after V.rooms J.means (opening_of a.mutex.now) (slots_of a.mutex.now) _ _ _ _ _ _ x.4 (subst (λ k. LockedAtLast V.rooms J.means (opening_of k.now) (slots_of k.now) (dist_state b.pass.now) (dist_state c.pass.now) got.turn got.kept) x.1 y.5)) };

    fn attempt(&mut self) -> Result<Owner<V>, DistBusy> {
        self.mutex.try_lock(self.pass)
    }
}

impl<V: Room, J: Job<V>> DistMutex<V, J> {
    /// Tries to take the lock, as [`DistMutex::try_lock`] does, until a try succeeds, or until one was refused and the
    /// clock, asked next, answers the deadline or later. One try is always made, and the clock, which may fall and
    /// jump, is asked once after each refused one. The deadline is in the clock's own unit. After a `Late` the pass is
    /// idle.
    pub fn lock_until<R: Wait, T: Clock>(
        &self,
        rt: &R,
        pass: &mut DistPass<V, J>,
        clock: &mut T,
        deadline: u64,
    ) -> Result<Owner<V>, Late<DistBusy>>
        requires own { IsDistPassOf self.now pass.old }
        requires idle { IsAtRest pass.old }
        ensures own { IsSamePass pass.old pass.new }
        ensures runs { HasNoRuns pass.new }

        // A try found the lock free. Each time the clock was asked, it answered a number below the deadline.
        ensures locked { IfOk result (λ o. LockedAtLast V.rooms J.means (opening_of self.now) (slots_of self.now) (dist_state pass.old) (dist_state pass.new) o.turn o.kept) }
        ensures in_time { OnOk result (AsksBelow deadline (length (dist_view pass.old).steps) (length (dist_view pass.new).steps) (T.answers clock.old) (T.answers clock.new) []) }
        ensures at_once { OnOk result (length (dist_view pass.new).steps ≡ length (dist_view pass.old).steps + 1 → clock.new ≡ clock.old) }
        ensures early { OnOk result ((clock.new ≡ clock.old) ⊎ (T.last clock.new < deadline)) }

        // All tries were refused, and after the last of them the clock answered the deadline or later for the first time.
        ensures refused { IfErr result (λ late. Refused (dist_state pass.old) late.fault (dist_state pass.new)) }
        ensures idle { OnErr result (IsAtRest pass.new) }
        ensures deadline { IfErr result (λ late. late.deadline ≡ deadline) }
        ensures late { IfErr result (λ late. deadline ≤ late.now) }
        ensures now { IfErr result (λ late. late.now ≡ T.last clock.new) }
        ensures too_late { IfErr result (λ late. AsksBelow deadline (length (dist_view pass.old).steps) (length (dist_view pass.new).steps) (T.answers clock.old) (T.answers clock.new) (late.now ∷ [])) }
    {
        let mut trying = Trying { mutex: self, pass };
        wait_until(rt, &mut trying, clock, deadline)
    }
}
