//! What a call that waits for a cell tries again and again.
//!
//! An attempt holds the pass of the call that waits. How many tries were made, and what the latest was refused with, is
//! read off the pass's steps.
ghost use Rattle.std.specs.Prelude.{◌≡◌, ◌<◌, true, false};
ghost use Rattle.std.proofs.Common.{◌∙◌, subst};
ghost use Rattle.hall.specs.Fitting.{SharedFits};
ghost use Rattle.hall.specs.Passes.{view, IsPassOf, shape_of};
ghost use Rattle.hall.specs.Slotting.{HasNonePending};
ghost use Rattle.hall.specs.Views.{standing};
ghost use Rattle.hall.specs.declared.view.Standing.TheVariants.{Away, Upgrade, Announcing};
ghost use Rattle.sync_cell.specs.AttemptLaws as laws;
ghost use Rattle.sync_cell.specs.Attempts.{HasAnnounced, HasBegun, HasEntered, HasFinished, HasUpgraded, StillAnnounced, StillBelow, StillOutside, StillUnannounced, StillWaiting, how_many, is_hold, is_load, last_fault, reader_fault};
ghost use Rattle.sync_cell.specs.Cells.{maps};

use apply_deferred::scan;
use hall::{Announced, ExclusiveGuard, Hall, Pass, SharedGuard, TryFault, UpgradeGuard};
use map_cargo::MapCargo;
use shared_mutex::{announce, try_finish, try_lock_shared};
use timed_wait::Attempt;
use upgrade_mode::{BeginRaced, begin_upgrade, try_lock_upgrade};

/// Entering a cell as a reader, by a pass that is away from it, with no token undecided and no unit owed elsewhere.
#[derive(Drop)]
pub(crate) struct ReadAttempt<'a> {
    pub(crate) hall: &'a Hall<MapCargo>,
    pub(crate) pass: &'a mut Pass<MapCargo>,
    pub(crate) cell: u64,
}

impl<'a> Attempt for ReadAttempt<'a> {
    type Got = SharedGuard;

    type Fault = TryFault;

    ghost ready = { λ a. IsPassOf a.hall.now a.pass.now
        × (a.cell < (shape_of a.hall.now).locks)
        × (standing (view a.pass.now) a.cell ≡ Away)
        × HasNonePending (view a.pass.now) };

    ghost tries = { λ a. how_many is_load (view a.pass.now).steps };

    ghost fault = { λ a. reader_fault (view a.pass.now).shape.policy (view a.pass.now).steps };

    ghost refuses = { λ a fault b. (b.pass.ghost_name ≡ a.pass.ghost_name)
        × (b.hall ≡ a.hall)
        × (b.cell ≡ a.cell)
        × StillOutside maps (view a.pass.now) a.cell fault (view b.pass.now) };

    ghost gives = { λ a guard b. (b.pass.ghost_name ≡ a.pass.ghost_name)
        × (b.hall ≡ a.hall)
        × (b.cell ≡ a.cell)
        × IsPassOf a.hall.now b.pass.now
        × (guard.lock ≡ a.cell)
        × SharedFits (shape_of a.hall.now) (view b.pass.now) guard
        × HasNonePending (view b.pass.now)
        × HasEntered maps (view a.pass.now) a.cell guard.form (view b.pass.now) };

    ghost refuses_again = { λ a b c f g x y. (
      y.0 ∙ x.0,
      y.1 ∙ x.1,
      y.2 ∙ x.2,
      laws.outside_again maps _ _ _ _ _ _ x.3 (subst (λ k. StillOutside maps (view b.pass.now) k g (view c.pass.now)) x.2 y.3),
    ) };

    ghost gives_at_last = { λ a b c f got x y. (
      y.0 ∙ x.0,
      y.1 ∙ x.1,
      y.2 ∙ x.2,
      subst (λ h. IsPassOf h.now c.pass.now) x.1 y.3,
      y.4 ∙ x.2,
      subst (λ h. SharedFits (shape_of h.now) (view c.pass.now) got) x.1 y.5,
      y.6,
      laws.entered_then maps _ _ _ _ _ got.form x.3 (subst (λ k. HasEntered maps (view b.pass.now) k got.form (view c.pass.now)) x.2 y.7),
    ) };

    fn attempt(&mut self) -> Result<SharedGuard, TryFault> {
        try_lock_shared(self.hall, self.pass, self.cell)
    }
}

/// Taking upgrade at a cell, by a pass that is away from it.
#[derive(Drop)]
pub(crate) struct UpgradeAttempt<'a> {
    pub(crate) hall: &'a Hall<MapCargo>,
    pub(crate) pass: &'a mut Pass<MapCargo>,
    pub(crate) cell: u64,
}

impl<'a> Attempt for UpgradeAttempt<'a> {
    type Got = UpgradeGuard;

    type Fault = TryFault;

    ghost ready = { λ a. IsPassOf a.hall.now a.pass.now
        × (a.cell < (shape_of a.hall.now).locks)
        × (standing (view a.pass.now) a.cell ≡ Away) };

    ghost tries = { λ a. how_many is_load (view a.pass.now).steps };

    ghost fault = { λ a. last_fault (view a.pass.now).steps };

    ghost refuses = { λ a fault b. (b.pass.ghost_name ≡ a.pass.ghost_name)
        × (b.hall ≡ a.hall)
        × (b.cell ≡ a.cell)
        × StillBelow maps (view a.pass.now) a.cell fault (view b.pass.now) };

    ghost gives = { λ a guard b. (b.pass.ghost_name ≡ a.pass.ghost_name)
        × (b.hall ≡ a.hall)
        × (b.cell ≡ a.cell)
        × IsPassOf a.hall.now b.pass.now
        × (guard.lock ≡ a.cell)
        × HasUpgraded maps (view a.pass.now) a.cell (view b.pass.now) };

    ghost refuses_again = { λ a b c f g x y. (
      y.0 ∙ x.0,
      y.1 ∙ x.1,
      y.2 ∙ x.2,
      laws.below_again maps _ _ _ _ _ _ x.3 (subst (λ k. StillBelow maps (view b.pass.now) k g (view c.pass.now)) x.2 y.3),
    ) };

    ghost gives_at_last = { λ a b c f got x y. (
      y.0 ∙ x.0,
      y.1 ∙ x.1,
      y.2 ∙ x.2,
      subst (λ h. IsPassOf h.now c.pass.now) x.1 y.3,
      y.4 ∙ x.2,
      laws.upgraded_then maps _ _ _ _ _ x.3 (subst (λ k. HasUpgraded maps (view b.pass.now) k (view c.pass.now)) x.2 y.5),
    ) };

    fn attempt(&mut self) -> Result<UpgradeGuard, TryFault> {
        try_lock_upgrade(self.hall, self.pass, self.cell)
    }
}

/// Announcing a writer at a cell, by a pass that is away from it, and sweeping for it.
///
/// What an announced writer has is its pass's standing. Between two tries the waits of this crate name it by its cell
/// alone.
#[derive(Drop)]
pub(crate) struct AnnounceAttempt<'a> {
    pub(crate) hall: &'a Hall<MapCargo>,
    pub(crate) pass: &'a mut Pass<MapCargo>,
    pub(crate) cell: u64,
}

impl<'a> Attempt for AnnounceAttempt<'a> {
    type Got = ();

    type Fault = TryFault;

    ghost ready = { λ a. IsPassOf a.hall.now a.pass.now
        × (a.cell < (shape_of a.hall.now).locks)
        × (standing (view a.pass.now) a.cell ≡ Away) };

    ghost tries = { λ a. how_many is_load (view a.pass.now).steps };

    ghost fault = { λ a. last_fault (view a.pass.now).steps };

    ghost refuses = { λ a fault b. (b.pass.ghost_name ≡ a.pass.ghost_name)
        × (b.hall ≡ a.hall)
        × (b.cell ≡ a.cell)
        × StillUnannounced maps (view a.pass.now) a.cell fault (view b.pass.now) };

    ghost gives = { λ a _ b. (b.pass.ghost_name ≡ a.pass.ghost_name)
        × (b.hall ≡ a.hall)
        × (b.cell ≡ a.cell)
        × IsPassOf a.hall.now b.pass.now
        × HasAnnounced maps (view a.pass.now) a.cell (view b.pass.now) };

    ghost refuses_again = { λ a b c f g x y. (
      y.0 ∙ x.0,
      y.1 ∙ x.1,
      y.2 ∙ x.2,
      laws.unannounced_again maps _ _ _ _ _ _ x.3 (subst (λ k. StillUnannounced maps (view b.pass.now) k g (view c.pass.now)) x.2 y.3),
    ) };

    ghost gives_at_last = { λ a b c f got x y. (
      y.0 ∙ x.0,
      y.1 ∙ x.1,
      y.2 ∙ x.2,
      subst (λ h. IsPassOf h.now c.pass.now) x.1 y.3,
      laws.announced_then maps _ _ _ _ _ x.3 (subst (λ k. HasAnnounced maps (view b.pass.now) k (view c.pass.now)) x.2 y.4),
    ) };

    fn attempt(&mut self) -> Result<(), TryFault> {
        let mut announced = announce(self.hall, self.pass, self.cell)?;
        scan(self.hall, self.pass, &mut announced);
        let Announced {
            lock: _,
            swept: _,
            from_upgrade: _,
        } = announced;
        Ok(())
    }
}

/// Announcing the pass that holds upgrade at a cell as a writer, and sweeping for it. Nothing but a race is in its way,
/// and then it holds upgrade as before.
#[derive(Drop)]
pub(crate) struct BeginAttempt<'a> {
    pub(crate) hall: &'a Hall<MapCargo>,
    pub(crate) pass: &'a mut Pass<MapCargo>,
    pub(crate) cell: u64,
}

impl<'a> Attempt for BeginAttempt<'a> {
    type Got = ();

    type Fault = TryFault;

    ghost ready = { λ a. IsPassOf a.hall.now a.pass.now
        × (a.cell < (shape_of a.hall.now).locks)
        × (standing (view a.pass.now) a.cell ≡ Upgrade) };

    ghost tries = { λ a. how_many is_load (view a.pass.now).steps };

    ghost fault = { λ a. last_fault (view a.pass.now).steps };

    ghost refuses = { λ a fault b. (b.pass.ghost_name ≡ a.pass.ghost_name)
        × (b.hall ≡ a.hall)
        × (b.cell ≡ a.cell)
        × StillWaiting maps (view a.pass.now) a.cell fault (view b.pass.now) };

    ghost gives = { λ a _ b. (b.pass.ghost_name ≡ a.pass.ghost_name)
        × (b.hall ≡ a.hall)
        × (b.cell ≡ a.cell)
        × IsPassOf a.hall.now b.pass.now
        × HasBegun maps (view a.pass.now) a.cell (view b.pass.now) };

    ghost refuses_again = { λ a b c f g x y. (
      y.0 ∙ x.0,
      y.1 ∙ x.1,
      y.2 ∙ x.2,
      laws.waiting_again maps _ _ _ _ _ _ x.3 (subst (λ k. StillWaiting maps (view b.pass.now) k g (view c.pass.now)) x.2 y.3),
    ) };

    ghost gives_at_last = { λ a b c f got x y. (
      y.0 ∙ x.0,
      y.1 ∙ x.1,
      y.2 ∙ x.2,
      subst (λ h. IsPassOf h.now c.pass.now) x.1 y.3,
      laws.begun_then maps _ _ _ _ _ x.3 (subst (λ k. HasBegun maps (view b.pass.now) k (view c.pass.now)) x.2 y.4),
    ) };

    fn attempt(&mut self) -> Result<(), TryFault> {
        let guard = UpgradeGuard { lock: self.cell };
        match begin_upgrade(self.hall, self.pass, guard) {
            Ok(mut announced) => {
                scan(self.hall, self.pass, &mut announced);
                let Announced {
                    lock: _,
                    swept: _,
                    from_upgrade: _,
                } = announced;
                Ok(())
            }
            Err(
                BeginRaced {
                    guard: UpgradeGuard { lock: _ },
                    expected,
                    found,
                },
            ) => Err(TryFault::Raced { expected, found }),
        }
    }
}

/// Taking a cell as a writer that its pass has announced there, from outside or from upgrade. It stays announced
/// between the tries.
#[derive(Drop)]
pub(crate) struct FinishAttempt<'a> {
    pub(crate) hall: &'a Hall<MapCargo>,
    pub(crate) pass: &'a mut Pass<MapCargo>,
    pub(crate) cell: u64,
    pub(crate) from_upgrade: bool,
}

impl<'a> Attempt for FinishAttempt<'a> {
    type Got = ExclusiveGuard;

    type Fault = TryFault;

    ghost ready = { λ a. IsPassOf a.hall.now a.pass.now
        × (a.cell < (shape_of a.hall.now).locks)
        × (standing (view a.pass.now) a.cell ≡ Announcing (shape_of a.hall.now).slots 0 a.from_upgrade) };

    ghost tries = { λ a. how_many is_hold (view a.pass.now).steps };

    ghost fault = { λ a. last_fault (view a.pass.now).steps };

    ghost refuses = { λ a fault b. (b.pass.ghost_name ≡ a.pass.ghost_name)
        × (b.hall ≡ a.hall)
        × (b.cell ≡ a.cell)
        × (b.from_upgrade ≡ a.from_upgrade)
        × StillAnnounced maps (view a.pass.now) a.cell fault (view b.pass.now) };

    ghost gives = { λ a guard b. (b.pass.ghost_name ≡ a.pass.ghost_name)
        × (b.hall ≡ a.hall)
        × (b.cell ≡ a.cell)
        × (b.from_upgrade ≡ a.from_upgrade)
        × IsPassOf a.hall.now b.pass.now
        × (guard.lock ≡ a.cell)
        × HasFinished maps a.from_upgrade (view a.pass.now) a.cell (view b.pass.now) };

    ghost refuses_again = { λ a b c f g x y. (
      y.0 ∙ x.0,
      y.1 ∙ x.1,
      y.2 ∙ x.2,
      y.3 ∙ x.3,
      laws.announced_still maps _ _ _ _ _ _ x.4 (subst (λ k. StillAnnounced maps (view b.pass.now) k g (view c.pass.now)) x.2 y.4),
    ) };

    ghost gives_at_last = { λ a b c f got x y. (
      y.0 ∙ x.0,
      y.1 ∙ x.1,
      y.2 ∙ x.2,
      y.3 ∙ x.3,
      subst (λ h. IsPassOf h.now c.pass.now) x.1 y.4,
      y.5 ∙ x.2,
      laws.finished_then maps _ _ _ _ _ _ x.4 (subst (λ k. HasFinished maps a.from_upgrade (view b.pass.now) k (view c.pass.now)) x.2 (subst (λ from. HasFinished maps from (view b.pass.now) b.cell (view c.pass.now)) x.3 y.6)),
    ) };

    fn attempt(&mut self) -> Result<ExclusiveGuard, TryFault> {
        let announced = Announced {
            lock: self.cell,
            swept: true,
            from_upgrade: self.from_upgrade,
        };
        match try_finish(self.hall, self.pass, announced) {
            Ok(guard) => Ok(guard),
            Err(
                (
                    Announced {
                        lock: _,
                        swept: _,
                        from_upgrade: _,
                    },
                    word,
                ),
            ) => Err(TryFault::Busy { word }),
        }
    }
}
