//! Exclusive holds: a writer is announced first, and takes the lock once no reader is inside.
ghost use Rattle.std.specs.Prelude.{◌≡◌, ◌+◌, ◌*◌, ◌<◌, true, false, IfOk, MatchResult};
ghost use Rattle.hall.specs.Fitting.{AnnouncedFits, ExclusiveFits};
ghost use Rattle.hall.specs.Passes.{view, IsPassOf, shape_of};
ghost use Rattle.hall.specs.Plays.{HoldMisses, Retracts, Releases};
ghost use Rattle.hall.specs.Reasons.{WasNotAlone};
ghost use Rattle.hall.specs.Slotting.{HasNonePending};
ghost use Rattle.hall.specs.Views.{standing};
ghost use Rattle.hall.specs.declared.view.Standing.TheVariants.{Away, Exclusive, Announcing};
ghost use Rattle.shared_mutex.specs.Acquiring.{ElsewhereSame, MadeAtMost, AnnouncesWriter, RefusesAnnouncing, Finishes, TakesExclusive, RefusesExclusive};

use apply_deferred::scan;
use hall::conflicts::conflicts_for_announcing;
use hall::{Announced, Cargo, ExclusiveGuard, Hall, Pass, TryFault, Word};

/// Announces a writer, by one load and one exchange. The pass has to be away from the lock, and is away after a
/// refusal. The writer has swept no slot yet: `scan` of `apply_deferred` does it, before the writer tries to finish.
///
/// `Busy` comes exactly where the loaded word conflicts, `Raced` exactly where the exchange failed. At most 2 steps.
pub fn announce<C: Cargo>(
    hall: &Hall<C>,
    pass: &mut Pass<C>,
    lock: u64,
) -> Result<Announced, TryFault>
    requires pass { IsPassOf hall.now pass.old }
    requires lock { lock < (shape_of hall.now).locks }
    requires away { standing (view pass.old) lock ≡ Away }
    ensures pass { IsPassOf hall.now pass.new }
    ensures step { MatchResult result (λ announced. (announced.lock ≡ lock) × (announced.swept ≡ false) × (announced.from_upgrade ≡ false) × AnnouncesWriter C.CargoRule (view pass.old) lock (view pass.new)) (λ fault. RefusesAnnouncing C.CargoRule (view pass.old) lock (view pass.new) fault) }
    ensures stands { MatchResult result (λ _. standing (view pass.new) lock ≡ Announcing 0 0 false) (λ _. standing (view pass.new) lock ≡ Away) }
    ensures fits { IfOk result (λ announced. AnnouncedFits (shape_of hall.now) (view pass.new) announced) }
    ensures clear { HasNonePending (view pass.old) → HasNonePending (view pass.new) }
    ensures elsewhere { ElsewhereSame (view pass.old) (view pass.new) lock }
    ensures steps { MadeAtMost (view pass.old) (view pass.new) 2 }
{
    let seen = hall.load(pass, lock);
    if conflicts_for_announcing(seen) {
        return Err(TryFault::Busy { word: seen });
    }
    match hall.announce(pass, lock, seen) {
        Ok(()) => Ok(Announced {
            lock,
            swept: false,
            from_upgrade: false,
        }),
        Err(found) => Err(TryFault::Raced {
            expected: seen,
            found,
        }),
    }
}

// The exchange by which an announced writer takes the lock: what it finds there where nobody else is inside depends on
// where it was announced from.
fn take<C: Cargo>(
    hall: &Hall<C>,
    pass: &mut Pass<C>,
    lock: u64,
    from_upgrade: bool,
) -> Result<(), Word>
    requires pass { IsPassOf hall.now pass.old }
    requires lock { lock < (shape_of hall.now).locks }
    requires swept { standing (view pass.old) lock ≡ Announcing (shape_of hall.now).slots 0 from_upgrade }
    ensures pass { IsPassOf hall.now pass.new }
    ensures step { MatchResult result (λ _. Finishes C.CargoRule from_upgrade (view pass.old) lock (view pass.new)) (λ word. HoldMisses C.CargoRule (view pass.old) lock word (view pass.new)) }
{
    if from_upgrade {
        hall.hold_from_upgrade(pass, lock)
    } else {
        hall.hold(pass, lock)
    }
}

/// The announced writer tries to take the lock, by one exchange. It may have been announced from outside or from
/// upgrade, and has swept. It is refused exactly where the word found has a count other than 0; then it is still
/// announced, and gets its `Announced` back.
pub fn try_finish<C: Cargo>(
    hall: &Hall<C>,
    pass: &mut Pass<C>,
    announced: Announced,
) -> Result<ExclusiveGuard, (Announced, Word)>
    requires pass { IsPassOf hall.now pass.old }
    requires fits { AnnouncedFits (shape_of hall.now) (view pass.old) announced }
    requires swept { announced.swept ≡ true }
    ensures pass { IsPassOf hall.now pass.new }
    ensures step { MatchResult result (λ guard. (guard.lock ≡ announced.lock) × Finishes C.CargoRule announced.from_upgrade (view pass.old) announced.lock (view pass.new)) (λ refused. (refused.0 ≡ announced) × HoldMisses C.CargoRule (view pass.old) announced.lock refused.1 (view pass.new) × WasNotAlone C.CargoRule (view pass.new) announced.lock) }
    ensures stands { MatchResult result (λ _. standing (view pass.new) announced.lock ≡ Exclusive) (λ _. standing (view pass.new) announced.lock ≡ standing (view pass.old) announced.lock) }
    ensures fits { MatchResult result (λ guard. ExclusiveFits (shape_of hall.now) (view pass.new) guard) (λ refused. AnnouncedFits (shape_of hall.now) (view pass.new) refused.0) }
    ensures clear { HasNonePending (view pass.old) → HasNonePending (view pass.new) }
    ensures elsewhere { ElsewhereSame (view pass.old) (view pass.new) announced.lock }
    ensures steps { MadeAtMost (view pass.old) (view pass.new) 1 }
{
    match take(hall, pass, announced.lock, announced.from_upgrade) {
        Ok(()) => {
            let Announced {
                lock,
                swept: _,
                from_upgrade: _,
            } = announced;
            Ok(ExclusiveGuard { lock })
        }
        Err(word) => Err((announced, word)),
    }
}

/// Takes an announcement from outside back, by one step. It needn't have swept.
pub fn retract<C: Cargo>(hall: &Hall<C>, pass: &mut Pass<C>, announced: Announced)
    requires pass { IsPassOf hall.now pass.old }
    requires fits { AnnouncedFits (shape_of hall.now) (view pass.old) announced }
    requires plain { announced.from_upgrade ≡ false }
    ensures pass { IsPassOf hall.now pass.new }
    ensures step { (found : _) × Retracts C.CargoRule (view pass.old) announced.lock found (view pass.new) }
    ensures away { standing (view pass.new) announced.lock ≡ Away }
    ensures clear { HasNonePending (view pass.old) → HasNonePending (view pass.new) }
    ensures elsewhere { ElsewhereSame (view pass.old) (view pass.new) announced.lock }
    ensures steps { MadeAtMost (view pass.old) (view pass.new) 1 }
{
    let Announced {
        lock,
        swept: _,
        from_upgrade: _,
    } = announced;
    hall.retract(pass, lock);
}

/// Tries to take the lock exclusively: it announces a writer, sweeps, and tries once to finish. Where readers are
/// inside it takes the announcement back, and answers `Busy` with the word that counted them. The pass has to be away
/// from the lock, and is away after a refusal. At most 2 steps for each slot, and 5 more.
pub fn try_lock<C: Cargo>(
    hall: &Hall<C>,
    pass: &mut Pass<C>,
    lock: u64,
) -> Result<ExclusiveGuard, TryFault>
    requires pass { IsPassOf hall.now pass.old }
    requires lock { lock < (shape_of hall.now).locks }
    requires away { standing (view pass.old) lock ≡ Away }
    ensures pass { IsPassOf hall.now pass.new }
    ensures step { MatchResult result (λ guard. (guard.lock ≡ lock) × TakesExclusive C.CargoRule (view pass.old) lock (view pass.new)) (λ fault. RefusesExclusive C.CargoRule (view pass.old) lock (view pass.new) fault) }
    ensures stands { MatchResult result (λ _. standing (view pass.new) lock ≡ Exclusive) (λ _. standing (view pass.new) lock ≡ Away) }
    ensures fits { IfOk result (λ guard. ExclusiveFits (shape_of hall.now) (view pass.new) guard) }
    ensures clear { HasNonePending (view pass.old) → HasNonePending (view pass.new) }
    ensures elsewhere { ElsewhereSame (view pass.old) (view pass.new) lock }
    ensures steps { MadeAtMost (view pass.old) (view pass.new) (2 * (shape_of hall.now).slots + 5) }
{
    let mut announced = announce(hall, pass, lock)?;
    scan(hall, pass, &mut announced);
    match try_finish(hall, pass, announced) {
        Ok(guard) => Ok(guard),
        Err(refused) => {
            let fault = TryFault::Busy { word: refused.1 };
            let (announced, _) = refused;
            retract(hall, pass, announced);
            Err(fault)
        }
    }
}

/// Gives an exclusive hold back, by one step. The pass's part of the cargo has to be settled for the lock.
pub fn unlock<C: Cargo>(hall: &Hall<C>, pass: &mut Pass<C>, guard: ExclusiveGuard)
    requires pass { IsPassOf hall.now pass.old }
    requires fits { ExclusiveFits (shape_of hall.now) (view pass.old) guard }
    requires settled { C.settled guard.lock (view pass.old).part }
    ensures pass { IsPassOf hall.now pass.new }
    ensures step { Releases C.CargoRule (view pass.old) guard.lock 8 (view pass.new) }
    ensures away { standing (view pass.new) guard.lock ≡ Away }
    ensures clear { HasNonePending (view pass.old) → HasNonePending (view pass.new) }
    ensures elsewhere { ElsewhereSame (view pass.old) (view pass.new) guard.lock }
    ensures steps { MadeAtMost (view pass.old) (view pass.new) 1 }
{
    let ExclusiveGuard { lock } = guard;
    hall.release(pass, lock);
}
