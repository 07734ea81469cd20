//! How passes are divided and joined.
ghost use Rattle.std.specs.Prelude.{◌≡◌, ◌+◌, ◌-◌, ◌<◌, ◌≤◌, ℕ};
ghost use Rattle.hall.specs.declared.view.Standing.TheVariants.{Away};
ghost use Rattle.hall.specs.Slotting.{HasNonePending};
ghost use Rattle.hall.specs.Views.{standing, split_left, split_right, joined_view};

use crate::cargo::Cargo;
use crate::hall::{Hall, Pass};
use crate::plays::{Cut, Dividing, Joining, UnlistedLook};
use std::marker::Brand;

impl<C: Cargo> Hall<C> {
    ghost use Rattle.hall.specs.Passes.{view, IsPassOf, plan_of};
    ghost use Rattle.hall.specs.Partings.{Met, SplitMoment, SplitKeeps, JoinKeeps};

    // A look that isn't listed and changes nothing. It tells that the rule holds while the pass has its view.
    fn meet(&self, pass: &mut Pass<C>)
        requires pass { IsPassOf self.now pass.old }
        ensures pass { IsPassOf self.now pass.new × (pass.new.seat.id ≡ pass.old.seat.id) × (view pass.new ≡ view pass.old) }
        ensures met { Met C.CargoRule (view pass.old) }
    {
        self.table.shared.load::<UnlistedLook<C>>(&mut pass.seat, 0);
    }

    fn split_by<K: Cut>(&self, pass: &mut Pass<C>, seats: u64, quota: u64) -> Pass<C>
        requires pass { IsPassOf self.now pass.old }
        requires cut { (seats ≡ K.seats) × (quota ≡ K.quota) }
        requires seats { (0 < seats) × (seats < (view pass.old).span) }
        requires quota { quota ≤ (view pass.old).quota }
        ensures pass { IsPassOf self.now pass.new × (view pass.new ≡ split_left seats quota (C.kept (view pass.old).part) (view pass.old)) }
        ensures new { IsPassOf self.now result × (view result ≡ split_right seats quota (C.split_off (view pass.old).part) (view pass.old)) }
    {
        let seat = self
            .table
            .shared
            .split_seat::<Dividing<K, C>>(&mut pass.seat);
        let number = pass.number + pass.spare + 1 - seats;
        pass.spare -= seats;
        pass.quota -= quota;
        Pass {
            seat,
            number,
            spare: seats - 1,
            quota,
        }
    }

    /// Gives the last `seats` of the spare numbers and so much of the quota to a new pass. The new pass has the first
    /// of these numbers, and the others spare; it is away from every lock, and has no steps and no trail.
    ///
    /// At its moment, and in whatever state it finds the hall, the rule holds before and after it and nothing moves at
    /// any lock. The moment is told by a load just before, which isn't listed.
    pub fn split(&self, pass: &mut Pass<C>, seats: u64, quota: u64) -> Pass<C>
        requires pass { IsPassOf self.now pass.old }
        requires seats { (0 < seats) × (seats < (view pass.old).span) }
        requires quota { quota ≤ (view pass.old).quota }
        ensures pass { IsPassOf self.now pass.new × (view pass.new ≡ split_left seats quota (C.kept (view pass.old).part) (view pass.old)) }
        ensures new { IsPassOf self.now result × (view result ≡ split_right seats quota (C.split_off (view pass.old).part) (view pass.old)) }
        ensures clear { HasNonePending (view result) × (HasNonePending (view pass.old) → HasNonePending (view pass.new)) }
        ensures moment { SplitMoment C.CargoRule (view pass.old) (view pass.new) (view result) }
        ensures keeps { SplitKeeps C.CargoRule (plan_of self.now) pass.old.seat.id (view pass.old) (view pass.new) (view result) }
    {
        self.meet(pass);
        self.split_by::<Brand>(pass, seats, quota)
    }

    /// Takes in another pass, which is away from every lock and at rest: its quota, its steps and its trail. Its
    /// numbers aren't given again.
    ///
    /// In whatever state it finds the hall, the rule holds before and after it and nothing moves at any lock. A load
    /// just after it, which isn't listed, meets the rule with the view that the pass then has.
    pub fn join(&self, pass: &mut Pass<C>, other: Pass<C>)
        requires pass { IsPassOf self.now pass.old }
        requires other { IsPassOf self.now other }
        requires away { (lock : ℕ) → standing (view other) lock ≡ Away }
        requires rested { C.rested (view other).part }
        ensures pass { IsPassOf self.now pass.new × (view pass.new ≡ joined_view (C.joined (view pass.old).part (view other).part) (view pass.old) (view other)) }
        ensures clear { HasNonePending (view pass.old) → HasNonePending (view pass.new) }
        ensures keeps { JoinKeeps C.CargoRule (plan_of self.now) pass.old.seat.id other.seat.id (view pass.old) (view other) (view pass.new) }
        ensures met { Met C.CargoRule (view pass.new) }
    {
        let Pass {
            seat,
            number: _,
            spare: _,
            quota,
        } = other;
        self.table
            .shared
            .join_seat::<Joining<C>>(&mut pass.seat, seat);
        // The two quotas were split out of one, so their sum is no greater.
        self.table.shared.load::<UnlistedLook<C>>(&mut pass.seat, 0);
        pass.quota = pass.quota.wrapping_add(quota);
    }
}
