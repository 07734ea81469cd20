//! How a hall is made.
ghost use Rattle.std.specs.Prelude.{◌≡◌, ◌+◌, ◌<◌, ◌≤◌, ◌^◌, IfOk};
ghost use Rattle.hall.specs.declared.making.TheConstants.{MOST_LOCKS, MOST_SEATS, MOST_SLOTS};
ghost use Rattle.hall.specs.Rule.{first_view};
ghost use Rattle.hall.specs.Slotting.{HasNonePending};

use crate::cargo::Cargo;
use crate::hall::{Hall, Pass};
use crate::view::{Plan, Shape};
use atomic_table::Table;
use lock_model::Policy;
use std::alloc::Global;
use std::error::Error;
use std::fmt;

/// The most locks of a hall.
pub const MOST_LOCKS: u64 = 1 << 20;

/// The most slots of a hall.
pub const MOST_SLOTS: u64 = 256;

/// The most passes of a hall.
pub const MOST_SEATS: u64 = 1 << 20;

/// There was no memory for the words. The cargo was dropped.
#[derive(Clone, Copy, Debug, PartialEq, Eq, Drop)]
pub struct NoMemory;

impl fmt::Display for NoMemory {
    fn fmt<W: fmt::Write>(&self, f: &mut fmt::Formatter<W>) -> fmt::Result {
        write!(f, "out of memory")
    }
}

impl Error for NoMemory {}

impl<C: Cargo> Hall<C> {
    ghost use Rattle.hall.specs.Passes.{view, IsPassOf, shape_of, cargo_of};

    /// Makes a hall of `locks` locks (1 to `MOST_LOCKS`) over `slots` slots (1 to `MOST_SLOTS`), for at most `seats`
    /// passes (1 to `MOST_SEATS`), with a cargo that admits the quota. All words are 0. It gives the first pass, which
    /// has the number 0, all other numbers spare and the whole quota. It takes memory for the words, and is the only
    /// call of a hall that does.
    pub fn make(
        alloc: Global,
        locks: u64,
        slots: u64,
        policy: Policy,
        seats: u64,
        quota: u64,
        cargo: C,
    ) -> Result<(Hall<C>, Pass<C>), NoMemory>
        requires locks { (0 < locks) × (locks ≤ MOST_LOCKS) }
        requires slots { (0 < slots) × (slots ≤ MOST_SLOTS) }
        requires seats { (0 < seats) × (seats ≤ MOST_SEATS) }
        requires words { slots + locks + C.word_count cargo < 2 ^ 32 }
        requires admits { C.admits cargo quota }
        ensures { IfOk result (λ t. IsPassOf t.0 t.1 × (cargo_of t.0 ≡ cargo) × (shape_of t.0 ≡ record { locks = locks; slots = slots; seats = seats; policy = policy; words = C.word_count cargo }) × (view t.1 ≡ first_view C.CargoRule record { shape = record { locks = locks; slots = slots; seats = seats; policy = policy; words = C.word_count cargo }; quota = quota; cargo = cargo }) × HasNonePending (view t.1)) }
    {
        let extra = cargo.words();
        let count = (slots + locks + extra) as usize;
        let Ok(words) = Vec::from_elem(alloc, 0u64, count) else {
            return Err(NoMemory);
        };
        let shape = Shape {
            locks,
            slots,
            seats,
            policy,
            words: extra,
        };
        let plan = Plan {
            shape,
            quota,
            cargo,
        };
        let Ok((table, seat)) = Table::of_words(alloc, words.as_slice(), &plan) else {
            return Err(NoMemory);
        };
        let Plan {
            shape: _,
            quota: _,
            cargo,
        } = plan;
        let hall = Hall {
            table,
            slots,
            locks,
            policy,
            cargo,
        };
        let pass = Pass {
            seat,
            number: 0,
            spare: seats - 1,
            quota,
        };
        Ok((hall, pass))
    }
}
