//! From upgrade to an exclusive hold: the upgrade holder is announced as a writer first, and takes the lock once no
//! reader is inside, by `shared_mutex::try_finish` as any announced writer. It holds upgrade all the while.
ghost use Rattle.std.specs.Prelude.{◌≡◌, true, false, MatchResult};
ghost use Rattle.hall.specs.Fitting.{AnnouncedFits, UpgradeFits};
ghost use Rattle.hall.specs.Passes.{view, IsPassOf, shape_of};
ghost use Rattle.hall.specs.Upgrading.{RetractsUp};
ghost use Rattle.hall.specs.Slotting.{HasNonePending};
ghost use Rattle.hall.specs.Views.{standing};
ghost use Rattle.hall.specs.declared.view.Standing.TheVariants.{Upgrade, Announcing};
ghost use Rattle.shared_mutex.specs.Acquiring.{ElsewhereSame, MadeAtMost};
ghost use Rattle.upgrade_mode.specs.Holding.{BeginsUpgrade, RacesToBegin};

use hall::{Announced, Cargo, Hall, Pass, UpgradeGuard, Word};
use std::fmt;

/// Why the upgrade holder wasn't announced: between the load and the exchange another seat changed the word. It still
/// holds upgrade, by this guard.
#[derive(Debug)]
pub struct BeginRaced {
    pub guard: UpgradeGuard,
    /// The word that the load found.
    pub expected: Word,
    /// The word that the exchange found. The two differ.
    pub found: Word,
}

impl fmt::Display for BeginRaced {
    fn fmt<W: fmt::Write>(&self, f: &mut fmt::Formatter<W>) -> fmt::Result {
        write!(
            f,
            "another seat came between: the word was {}, then {}",
            self.expected.0, self.found.0
        )
    }
}

/// Announces the upgrade holder as a writer, by one load and one exchange. Nobody else can be announced or hold the
/// lock exclusively, so nothing but a race refuses it. The writer has swept no slot yet. At most 2 steps.
pub fn begin_upgrade<C: Cargo>(
    hall: &Hall<C>,
    pass: &mut Pass<C>,
    guard: UpgradeGuard,
) -> Result<Announced, BeginRaced>
    requires pass { IsPassOf hall.now pass.old }
    requires fits { UpgradeFits (shape_of hall.now) (view pass.old) guard }
    ensures pass { IsPassOf hall.now pass.new }
    ensures step { MatchResult result (λ announced. (announced.lock ≡ guard.lock) × (announced.swept ≡ false) × (announced.from_upgrade ≡ true) × BeginsUpgrade C.CargoRule (view pass.old) guard.lock (view pass.new)) (λ raced. (raced.guard ≡ guard) × RacesToBegin C.CargoRule (view pass.old) guard.lock raced.expected raced.found (view pass.new)) }
    ensures stands { MatchResult result (λ _. standing (view pass.new) guard.lock ≡ Announcing 0 0 true) (λ _. standing (view pass.new) guard.lock ≡ Upgrade) }
    ensures fits { MatchResult result (λ announced. AnnouncedFits (shape_of hall.now) (view pass.new) announced) (λ raced. UpgradeFits (shape_of hall.now) (view pass.new) raced.guard) }
    ensures clear { HasNonePending (view pass.old) → HasNonePending (view pass.new) }
    ensures elsewhere { ElsewhereSame (view pass.old) (view pass.new) guard.lock }
    ensures steps { MadeAtMost (view pass.old) (view pass.new) 2 }
{
    let seen = hall.load(pass, guard.lock);
    match hall.up(pass, guard.lock, seen) {
        Ok(()) => {
            let UpgradeGuard { lock } = guard;
            Ok(Announced {
                lock,
                swept: false,
                from_upgrade: true,
            })
        }
        Err(found) => Err(BeginRaced {
            guard,
            expected: seen,
            found,
        }),
    }
}

/// Takes an announcement from upgrade back, by one step. It needn't have swept. The pass holds upgrade as before.
pub fn retract_upgrade<C: Cargo>(
    hall: &Hall<C>,
    pass: &mut Pass<C>,
    announced: Announced,
) -> UpgradeGuard
    requires pass { IsPassOf hall.now pass.old }
    requires fits { AnnouncedFits (shape_of hall.now) (view pass.old) announced }
    requires raised { announced.from_upgrade ≡ true }
    ensures pass { IsPassOf hall.now pass.new }
    ensures guard { result.lock ≡ announced.lock }
    ensures fits { UpgradeFits (shape_of hall.now) (view pass.new) result }
    ensures step { (found : _) × RetractsUp C.CargoRule (view pass.old) announced.lock found (view pass.new) }
    ensures upgrade { standing (view pass.new) announced.lock ≡ Upgrade }
    ensures clear { HasNonePending (view pass.old) → HasNonePending (view pass.new) }
    ensures elsewhere { ElsewhereSame (view pass.old) (view pass.new) announced.lock }
    ensures steps { MadeAtMost (view pass.old) (view pass.new) 1 }
{
    let Announced {
        lock,
        swept: _,
        from_upgrade: _,
    } = announced;
    hall.up_retract(pass, lock);
    UpgradeGuard { lock }
}
