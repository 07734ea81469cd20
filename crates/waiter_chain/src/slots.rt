//! How a pass reads and writes the slots that it has in hand.
ghost use Rattle.std.specs.Prelude.{◌≡◌, ℕ, ◌+◌, ◌*◌, ◌^◌, ◌<◌, List, ◌∷◌, ◌++◌, Option};
ghost use Rattle.waiter_chain.specs.Hands.{turned_by, StandsAt, TurnsTo};

use crate::chain::{Chain, ChainPass};
use crate::freight::Freight;

impl<P> ChainPass<P> {
    // The order of a hand is known to the proofs alone, so a turn does nothing at run time.
    pub(crate) fn turn_by(&mut self, times: u64)
        ensures own { (self.new.seat.table_id ≡ self.old.seat.table_id) × (self.new.seat.id ≡ self.old.seat.id) × (self.new.behind ≡ self.old.behind) }
        ensures turned { self.new.seat.me ≡ (self.old.seat.me.0, turned_by times self.old.seat.me.1) }
        ensures same { (self.new.number ≡ self.old.number) × (self.new.quota ≡ self.old.quota) }
    {
        for _ in 0..times {
            self.seat.turn();
        }
    }

    // How many turns bring this slot to the front of the hand. A hand has at most four slots, so eleven turns undo one.
    fn turns_to(&self, slot: u64) -> u64
        requires { 1 + 2 * self.now.number < 2 ^ 64 }
        ensures { TurnsTo self.now.seat.me.0.number slot result }
    {
        if slot == 0 {
            0
        } else if slot == 1 + 2 * self.number {
            1
        } else if slot % 2 == 1 {
            11
        } else {
            10
        }
    }
}

impl<P: Freight> Chain<P> {
    /// A plain read and write of a slot that the pass has in hand: it answers what was there. It is no step on a word.
    pub fn move_slot(&self, pass: &mut ChainPass<P>, slot: u64, value: Option<P>) -> Option<P>
        requires own { pass.old.seat.table_id ≡ self.now.table.shared.table_id }
        requires held { (before : List (ℕ × Option P)) × (after : List (ℕ × Option P)) × (y : Option P) × (pass.old.seat.me.1 ≡ before ++ (slot, y) ∷ after) × StandsAt pass.old.seat.me.0.number slot before after }
        ensures own { (pass.new.seat.table_id ≡ pass.old.seat.table_id) × (pass.new.seat.id ≡ pass.old.seat.id) × (pass.new.behind ≡ pass.old.behind) }
        ensures moved { (before after : List (ℕ × Option P)) (y : Option P) → pass.old.seat.me.1 ≡ before ++ (slot, y) ∷ after → StandsAt pass.old.seat.me.0.number slot before after → (result ≡ y) × (pass.new.seat.me ≡ (pass.old.seat.me.0, before ++ (slot, value) ∷ after)) }
    {
        let turns = pass.turns_to(slot);
        pass.turn_by(turns);
        let old = self
            .table
            .shared
            .exchange(&mut pass.seat, slot as usize, value);
        pass.turn_by(12 - turns);
        old
    }
}
