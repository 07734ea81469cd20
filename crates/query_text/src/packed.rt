//! Spots as they are kept until the log is written: a third of the bytes each, and cheap to sort.
ghost use Rattle.std.specs.Prelude.{◌≡◌, ◌<◌};
ghost use Rattle.query_rules.specs.declared.query.Spot.{Spot};
ghost use Rattle.query_text.specs.Packed.{spot_in};
ghost use Rattle.query_text.specs.declared.packed.TheConstants.{SPOT_CALLERS, SPOT_INDEXES, SPOT_KEYS};

use query_rules::Spot;

/// What says where a line of the log takes its reply from.
pub trait SpotLike {
    /// The spot it says.
    ghost spot: { Self → Spot };

    /// Whose reply it is.
    fn caller_of(&self) -> u64
        ensures { result ≡ (spot self.now).caller };

    /// The reply's index among those of its caller.
    fn index_of(&self) -> u64
        ensures { result ≡ (spot self.now).index };
}

impl SpotLike for Spot {
    ghost spot = { λ s. s };

    fn caller_of(&self) -> u64 {
        self.caller
    }

    fn index_of(&self) -> u64 {
        self.index
    }
}

/// How many indexes a packed spot tells apart, which is no fewer than `MOST_QUERIES`.
pub const SPOT_INDEXES: u64 = 1 << 20;

/// How many callers it tells apart: `MOST_CALLERS`.
pub const SPOT_CALLERS: u64 = 1 << 6;

/// How many keys it tells apart. A place is at most twice the number of writes, and a position less than the number of
/// jobs.
pub const SPOT_KEYS: u64 = 1 << 38;

/// A spot in one number, where a [`Spot`](query_rules::Spot) takes 24 bytes. From the top down its bits have the key,
/// the caller and the index, so packed spots stand in the order of what they say.
#[derive(Clone, Copy, Debug, PartialEq, Eq, PartialOrd, Ord)]
pub struct PackedSpot {
    number: u64,
}

impl PackedSpot {
    /// The spot of a reply, by its key and by whose it is.
    pub fn of(key: u64, caller: u64, index: u64) -> Self
        requires key { key < SPOT_KEYS }
        requires caller { caller < SPOT_CALLERS }
        requires index { index < SPOT_INDEXES }
        ensures { spot_in result ≡ record { key = key; caller = caller; index = index } }
    {
        PackedSpot {
            number: (key * SPOT_CALLERS + caller) * SPOT_INDEXES + index,
        }
    }

    /// Whose reply it is.
    pub fn caller(self) -> u64
        ensures { result ≡ (spot_in self).caller }
    {
        self.number / SPOT_INDEXES % SPOT_CALLERS
    }

    /// The reply's index among those of its caller.
    pub fn index(self) -> u64
        ensures { result ≡ (spot_in self).index }
    {
        self.number % SPOT_INDEXES
    }
}

impl SpotLike for PackedSpot {
    ghost spot = { spot_in };

    fn caller_of(&self) -> u64 {
        self.caller()
    }

    fn index_of(&self) -> u64 {
        self.index()
    }
}
