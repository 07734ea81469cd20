//! The cargo's words, and the laws that its rule keeps.
ghost use Rattle.std.specs.Prelude.{◌≡◌, ◌<◌, ◌≤◌, ◌+◌, ◌*◌, ◌^◌, ◌/◌, ℕ, Some, None, if◌then◌else◌, nat_lt};
ghost use Rattle.map_cargo.specs.Cells.{word_count, number_place, width};
ghost use Rattle.map_cargo.specs.History.{OneHistory, Learns, IsSettled, IsRested, first_part, split_part, joined_part};
ghost use Rattle.map_cargo.specs.Laws.{starts, gain_keeps, raise_keeps, lower_keeps, split_keeps, join_keeps, gains_settles, gains_leave};

use crate::entry::Part;
use crate::size::MapCargo;
use hall::{Cargo, CargoRule};

impl CargoRule for MapCargo {
    type Part = Part;

    ghost word_count = { word_count };

    ghost guard_of = { λ c place. if nat_lt place (number_place c) then Some (place / width c) else None };

    ghost holds = { OneHistory };

    ghost admits = { λ c quota. (quota ≤ c.writes) × (c.writes < 2 ^ 64) };

    ghost opening = { λ _ _. first_part };

    ghost spent = { first_part };

    ghost gains = { λ lock _ p q. Learns lock p q };

    ghost lowered = { λ _ _ part. part };

    ghost settled = { IsSettled };

    ghost rested = { IsRested };

    ghost kept = { λ part. part };

    ghost split_off = { split_part };

    ghost joined = { joined_part };

    ghost starts = { starts };

    ghost gain_keeps = { gain_keeps };

    ghost raise_keeps = { raise_keeps };

    ghost lower_keeps = { lower_keeps };

    ghost split_keeps = { split_keeps };

    ghost join_keeps = { join_keeps };

    ghost gains_settles = { λ lock _ p q. gains_settles lock p q };

    ghost gains_leave = { λ lock other _ p q. gains_leave lock other p q };

    ghost lowered_leaves = { λ _ _ _ _ _ settled. settled };
}

impl MapCargo {
    // How many words a cell has.
    pub(crate) fn width(&self) -> u64
        ensures { result ≡ width self.now }
    {
        1 + 3 * self.rows
    }

    // Where the number word stands, behind all cells.
    pub(crate) fn number_place(&self) -> u64
        ensures value { result ≡ number_place self.now }
        ensures low { result + 1 + 8 * self.now.writes < 2 ^ 32 }
    {
        self.cells * self.width()
    }
}

impl Cargo for MapCargo {
    fn words(&self) -> u64 {
        self.number_place() + 1 + 8 * self.writes
    }

    fn lock_of(&self, place: u64) -> Option<u64> {
        if place < self.number_place() {
            Some(place / self.width())
        } else {
            None
        }
    }
}
