//! The state word of one shared lock: four bits and the count of its inline readers, packed into a `u64` that changes
//! in single atomic steps. The layout is this project's own; the bits stand for what Folly's `SharedMutex` keeps.
//!
//! It stands on nothing but the standard library, and makes no step: it says which word follows which.
//!
//! The contracts say the exact number that each change gives. `specs/Words.antt` has the numbers, and a law for each
//! change that says which fields it sets and that all others stay.
#![tactic(auto)]

ghost use Rattle.std.specs.Prelude.{◌≡◌, ◌≢◌, ◌+◌, ◌*◌, ◌<◌, ◌≤◌, ◌↔◌, ℕ, IsTrue};
ghost use Rattle.std.specs.Int.{w32, cast_signed};
ghost use Rattle.state_word.specs.declared.TheConstants.{COUNTS, FIRST_NEGATIVE, MOST_COUNTED};
ghost use Rattle.state_word.specs.Words.{may_defer_of, upgrade_of, begun_of, held_of, units_of, is_deep, enter_of, lower_of, announce_of, hold_of, retract_of, release_of, up_of, down_of, to_shared_of, to_upgrade_of, add_of};

use std::marker::Model;

/// Set while readers may defer: they then enter by a slot and leave this word alone. While a writer is announced or
/// holds the lock it is clear.
pub const MAY_DEFER: u64 = 1;

/// Set exactly while a seat holds the lock in upgrade mode, also while that seat is announced as a writer.
pub const UPGRADE: u64 = 2;

/// Set exactly while a writer is announced: it waits for the readers to leave.
pub const BEGUN: u64 = 4;

/// Set exactly while a seat holds the lock exclusively. Then no reader is inside, and the count is 0.
pub const HELD: u64 = 8;

/// The lowest of the bits that stay 0, which lie between HELD and the count.
pub const FIRST_IDLE: u64 = 16;

/// As many numbers as the bits that stay 0 could write.
pub const IDLE_FIELDS: u64 = 1 << 28;

/// One inline reader. The count stands in the upper half of the word, in two's complement.
pub const ONE: u64 = 1 << 32;

/// As many counts as the upper half of a word can write.
pub const COUNTS: u64 = 1 << 32;

/// The upper half of a word that stands for the least count, -2^31; those above it stand for counts below 0 too.
pub const FIRST_NEGATIVE: u64 = 1 << 31;

/// The greatest count. A reader that would go past it is not let in.
pub const MOST_COUNTED: u64 = FIRST_NEGATIVE - 1;

/// As many state words as there are.
pub const WORDS: u128 = 1 << 64;

/// A state word. Bits 4 to 31 are 0 in every word that a hall shows.
#[derive(Clone, Copy, Debug, PartialEq, Eq, Hash)]
pub struct Word(pub u64);

impl Model for Word {
    ghost Value = { ℕ };

    ghost view = { λ w. w.0 };

    ghost invariant = { λ w. Unit {0} };

    ghost inverse = { λ n. record { 0 = n } };
}

impl Word {
    /// Readers may defer.
    pub fn may_defer(self) -> bool
        ensures { IsTrue result ↔ (may_defer_of self ≡ 1) }
    {
        self.0 % 2 == 1
    }

    /// A seat holds the lock in upgrade mode.
    pub fn upgrade(self) -> bool
        ensures { IsTrue result ↔ (upgrade_of self ≡ 1) }
    {
        self.0 / UPGRADE % 2 == 1
    }

    /// A writer is announced.
    pub fn begun(self) -> bool
        ensures { IsTrue result ↔ (begun_of self ≡ 1) }
    {
        self.0 / BEGUN % 2 == 1
    }

    /// A seat holds the lock exclusively.
    pub fn held(self) -> bool
        ensures { IsTrue result ↔ (held_of self ≡ 1) }
    {
        self.0 / HELD % 2 == 1
    }

    /// The inline count, which may be negative while a writer carries units of it in its hand.
    pub fn count(self) -> i32
        ensures { result ≡ cast_signed w32 (units_of self) }
    {
        ((self.0 / ONE) as u32).cast_signed()
    }

    /// One more inline reader. The third one and each after it lets readers defer, unless a writer is announced.
    pub fn enter(self) -> Word
        requires held { held_of self ≡ 0 }
        requires room { units_of self ≢ MOST_COUNTED }
        ensures { result ≡ enter_of self }
    {
        let more = self.0.wrapping_add(ONE);
        let units = self.0 / ONE;
        if 1 < units && units < FIRST_NEGATIVE && !self.begun() {
            Word(more + (1 - self.0 % 2))
        } else {
            Word(more)
        }
    }

    /// One inline reader fewer.
    pub fn lower(self) -> Word
        requires { units_of self ≢ FIRST_NEGATIVE }
        ensures { result ≡ lower_of self }
    {
        Word(self.0.wrapping_sub(ONE))
    }

    /// A writer is announced, and readers no longer defer.
    pub fn announce(self) -> Word
        requires begun { begun_of self ≡ 0 }
        requires held { held_of self ≡ 0 }
        ensures { result ≡ announce_of self }
    {
        Word(self.0 - self.0 % 2 + BEGUN)
    }

    /// The announced writer holds the lock.
    pub fn hold(self) -> Word
        requires begun { begun_of self ≡ 1 }
        requires nobody { units_of self ≡ 0 }
        ensures { result ≡ hold_of self }
    {
        let held = if self.held() { 0 } else { HELD };
        let upgrade = if self.upgrade() { UPGRADE } else { 0 };
        Word(self.0 - BEGUN - upgrade + held)
    }

    /// The announcement is taken back, and readers may defer again.
    pub fn retract(self) -> Word
        requires begun { begun_of self ≡ 1 }
        requires clear { may_defer_of self ≡ 0 }
        ensures { result ≡ retract_of self }
    {
        Word(self.0 - BEGUN + MAY_DEFER)
    }

    /// The exclusive holder leaves.
    pub fn release(self) -> Word
        requires { held_of self ≡ 1 }
        ensures { result ≡ release_of self }
    {
        Word(self.0 - HELD)
    }

    /// A seat takes upgrade mode.
    pub fn up(self) -> Word
        requires { upgrade_of self ≡ 0 }
        ensures { result ≡ up_of self }
    {
        Word(self.0 + UPGRADE)
    }

    /// The upgrade holder leaves.
    pub fn down(self) -> Word
        requires { upgrade_of self ≡ 1 }
        ensures { result ≡ down_of self }
    {
        Word(self.0 - UPGRADE)
    }

    /// The upgrade or exclusive holder becomes one more inline reader.
    pub fn to_shared(self) -> Word
        requires strong { 1 ≤ upgrade_of self + held_of self }
        requires room { units_of self ≢ MOST_COUNTED }
        ensures { result ≡ to_shared_of self }
    {
        let held = if self.held() { HELD } else { 0 };
        let upgrade = if self.upgrade() { UPGRADE } else { 0 };
        Word((self.0 - upgrade - held).wrapping_add(ONE))
    }

    /// The exclusive holder takes upgrade mode in its place.
    pub fn to_upgrade(self) -> Word
        requires { held_of self ≡ 1 }
        ensures { result ≡ to_upgrade_of self }
    {
        let upgrade = if self.upgrade() { 0 } else { UPGRADE };
        Word(self.0 + upgrade - HELD)
    }

    /// So many more inline readers.
    pub fn add(self, n: u32) -> Word
        // The sum of the count and n is below 2^31: units from 2^31 on stand for negative counts.
        requires { (units_of self < FIRST_NEGATIVE → units_of self + n < FIRST_NEGATIVE) × (FIRST_NEGATIVE ≤ units_of self → units_of self + n < COUNTS + FIRST_NEGATIVE) }
        ensures { result ≡ add_of self n }
    {
        Word(self.0.wrapping_add(u64::from(n) * ONE))
    }
}
