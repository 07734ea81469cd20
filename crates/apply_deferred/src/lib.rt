//! The sweep of an announced writer: it takes the tokens that stand in slots for its lock, and adds them to the lock's
//! count, so that the count says how many readers are inside. It is the `applyDeferredReaders` of Folly's
//! `SharedMutex`.
//!
//! It stands on `hall`, each of whose events is one atomic step, and adds no step of its own.
//!
//! `scan` says which steps it made and with which words: at each slot in turn a look, and where that found a token of
//! the lock one exchange more; then one addition to the count. No call takes memory or waits.
#![tactic(auto)]

ghost use Rattle.std.specs.Prelude.{◌≡◌, ℕ, ◌+◌, ◌*◌, ◌<◌, Bool, true, false, if◌then◌else◌};
ghost use Rattle.hall.specs.declared.view.Standing.TheVariants.{Announcing};
ghost use Rattle.hall.specs.Calls.{ElsewhereSame, MadeAtMost};
ghost use Rattle.hall.specs.Fitting.{AnnouncedFits};
ghost use Rattle.hall.specs.Passes.{view, IsPassOf, shape_of};
ghost use Rattle.hall.specs.Slotting.{HasNonePending};
ghost use Rattle.hall.specs.Views.{standing};
ghost use Rattle.apply_deferred.specs.Sweeping.{SweepsSlot, Sweeps};

use hall::{Announced, Cargo, Hall, Pass};

// Looks at the slot at the writer's place, and takes the token there where it names the lock. It says whether it took one.
fn sweep_slot<C: Cargo>(hall: &Hall<C>, pass: &mut Pass<C>, lock: u64, slot: u64) -> bool
    requires pass { IsPassOf hall.now pass.old }
    requires lock { lock < (shape_of hall.now).locks }
    requires slot { slot < (shape_of hall.now).slots }
    requires announced { (hand : ℕ) × (raised : Bool) × (standing (view pass.old) lock ≡ Announcing slot hand raised) }
    ensures pass { IsPassOf hall.now pass.new }
    ensures sweep { SweepsSlot C.CargoRule lock slot result (view pass.old) (view pass.new) }
{
    let found = hall.look(pass, lock, slot);
    if found != lock + 1 {
        return false;
    }
    hall.pick(pass, lock, slot)
}

/// Sweeps for an announced writer that hasn't swept yet: it looks at each slot in turn, clears each that names the
/// lock, and adds their number to the count by one step, also where it is 0. It answers that number. The writer can
/// then try to finish. At most 2 steps for each slot, and one more.
pub fn scan<C: Cargo>(hall: &Hall<C>, pass: &mut Pass<C>, announced: &mut Announced) -> u32
    requires pass { IsPassOf hall.now pass.old }
    requires fits { AnnouncedFits (shape_of hall.now) (view pass.old) announced.old }
    requires unswept { announced.old.swept ≡ false }
    ensures pass { IsPassOf hall.now pass.new }
    ensures announced { announced.new ≡ record announced.old { swept = true } }
    ensures fits { AnnouncedFits (shape_of hall.now) (view pass.new) announced.new }
    ensures sweep { Sweeps C.CargoRule announced.old.lock (shape_of hall.now).slots result (view pass.old) (view pass.new) }
    ensures clear { HasNonePending (view pass.old) → HasNonePending (view pass.new) }
    ensures elsewhere { ElsewhereSame (view pass.old) (view pass.new) announced.old.lock }
    ensures steps { MadeAtMost (view pass.old) (view pass.new) (2 * (shape_of hall.now).slots + 1) }
{
    let lock = announced.lock;
    let mut hand = 0u32;
    for slot in 0..hall.slots() {
        if sweep_slot(hall, pass, lock, slot) {
            hand += 1;
        }
    }
    hall.add_hand(pass, lock, u64::from(hand));
    announced.swept = true;
    hand
}

#[cfg(test)]
mod tests;
