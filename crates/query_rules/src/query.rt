//! Queries and replies.
ghost use Rattle.std.specs.Prelude.{◌≡◌};

use std::error::Error;
use std::fmt;

/// A question of a caller. Cells, keys, values, deadlines and amounts are numbers of 64 bits.
#[derive(Clone, Copy, Debug, PartialEq, Eq)]
pub enum Query {
    /// The value of a key.
    Get {
        cell: u64,
        key: u64,
    },
    /// How many keys a cell has.
    Len {
        cell: u64,
    },
    /// Gives a key this value.
    Put {
        cell: u64,
        key: u64,
        value: u64,
    },
    /// Takes a key out.
    Del {
        cell: u64,
        key: u64,
    },
    /// Raises the value of a key.
    Add {
        cell: u64,
        key: u64,
        delta: u64,
    },
    /// Gives a key the value `new` where it has `old`.
    Cas {
        cell: u64,
        key: u64,
        old: u64,
        new: u64,
    },
    /// As `Put`, and asks how many keys there are then.
    PutLen {
        cell: u64,
        key: u64,
        value: u64,
    },
    /// Takes `n` from a key of one cell and adds it to the key of another.
    Move {
        from: u64,
        to: u64,
        key: u64,
        n: u64,
    },
    /// The values of a key in two cells, at one moment.
    Both {
        first: u64,
        second: u64,
        key: u64,
    },
    /// As `Get`, unless the cell's lock is busy.
    TryGet {
        cell: u64,
        key: u64,
    },
    /// As `Put`, unless the cell's lock is busy.
    TryPut {
        cell: u64,
        key: u64,
        value: u64,
    },
    /// As `Get`, unless it would come after the deadline, in milliseconds since the run began.
    GetBy {
        cell: u64,
        key: u64,
        deadline: u64,
    },
    /// As `Put`, unless it would come after the deadline, in milliseconds since the run began.
    PutBy {
        cell: u64,
        key: u64,
        value: u64,
        deadline: u64,
    },
    /// Adds to an account of the ledger.
    Give {
        key: u64,
        n: u64,
    },
    /// Takes from an account of the ledger.
    Take {
        key: u64,
        n: u64,
    },
    /// The sum of all accounts.
    Audit,
}

impl Query {
    ghost use Rattle.query_rules.specs.Ledger.{act_of};
    ghost use Rattle.query_rules.specs.Maps as maps;

    /// Whether it may change a map: then it needs a write to draw, whatever its reply turns out to be.
    pub fn may_write(&self) -> bool
        ensures { result ≡ maps.may_write self.now }
    {
        matches!(
            *self,
            Query::Put { .. }
                | Query::Del { .. }
                | Query::Add { .. }
                | Query::Cas { .. }
                | Query::PutLen { .. }
                | Query::Move { .. }
                | Query::TryPut { .. }
                | Query::PutBy { .. }
        )
    }

    /// What it asks of the ledger, where it doesn't ask the maps.
    pub fn act(&self) -> Option<LedgerAct>
        ensures { result ≡ act_of self.now }
    {
        match *self {
            Query::Give { key, n } => Some(LedgerAct::Give { key, n }),
            Query::Take { key, n } => Some(LedgerAct::Take { key, n }),
            Query::Audit => Some(LedgerAct::Audit),
            _ => None,
        }
    }
}

/// What the maps say to a query.
#[derive(Clone, Copy, Debug, PartialEq, Eq)]
pub enum Said {
    /// The key has this value.
    Found(u64),
    /// The key isn't there.
    Absent,
    /// So many keys.
    Count(u64),
    /// The key is new.
    New,
    /// What the key had before.
    Old(u64),
    /// There is no room for another key.
    Full,
    /// What the key has now.
    Now(u64),
    /// The sum would be above 2^64 - 1.
    Over,
    /// The key had the expected value.
    Yes,
    /// The key had this value instead.
    No(u64),
    /// The key is new, and there are so many keys now.
    NewCount(u64),
    /// What the key had before, and how many keys there are.
    OldCount(u64, u64),
    /// The amount was moved.
    Moved,
    /// The key has only so much.
    Short(u64),
    /// The two cells are one.
    Same,
    /// The values of the key in the first cell and in the second.
    Pair(Option<u64>, Option<u64>),
}

/// An account of the ledger.
#[derive(Clone, Copy, Debug, PartialEq, Eq)]
pub struct Account {
    pub key: u64,
    pub balance: u64,
}

/// What a job does to the ledger.
#[derive(Clone, Copy, Debug, PartialEq, Eq)]
pub enum LedgerAct {
    /// Adds to an account, which is opened where it isn't there.
    Give { key: u64, n: u64 },
    /// Takes from an account.
    Take { key: u64, n: u64 },
    /// Tells the sum of all accounts.
    Audit,
}

/// What the ledger answers to a job.
#[derive(Clone, Copy, Debug, PartialEq, Eq)]
pub enum LedgerTold {
    /// What the account has now.
    Now(u64),
    /// The sum of all accounts, below 2^128.
    Sum(u128),
}

/// Why the ledger refuses a job.
#[derive(Clone, Copy, Debug, PartialEq, Eq)]
pub enum LedgerTrouble {
    /// The sum would be above 2^64 - 1.
    Over,
    /// There is no room for another account.
    Full,
    /// The account has only so much.
    Short(u64),
}

impl fmt::Display for LedgerTrouble {
    fn fmt<W: fmt::Write>(&self, f: &mut fmt::Formatter<W>) -> fmt::Result {
        match *self {
            LedgerTrouble::Over => write!(f, "the sum would be above 2^64 - 1"),
            LedgerTrouble::Full => write!(f, "there is no room for another account"),
            LedgerTrouble::Short(amount) => write!(f, "the account has only {amount}"),
        }
    }
}

impl Error for LedgerTrouble {}

/// A reply, and where it stands in its history.
#[derive(Clone, Copy, Debug, PartialEq, Eq)]
pub enum Reply {
    /// Of the maps: write number w stands at place 2w + 1, and a read after g writes at 2g.
    Placed {
        place: u64,
        said: Said,
    },
    /// The lock of the cell was busy.
    Busy,
    /// The deadline had passed: the clock had answered `now`.
    Late {
        now: u64,
    },
    /// Of the ledger: the job ran at this position, counted from 0.
    Job {
        at: u64,
        result: Result<LedgerTold, LedgerTrouble>,
    },
}

/// The most cells that a script may have.
pub const MOST_CELLS: u64 = 64;

/// The most callers that a script may have.
pub const MOST_CALLERS: u64 = 64;

/// The most queries that a script may have, and a soak may ask.
pub const MOST_QUERIES: u64 = 1_000_000;

/// Why a line of a script is refused.
#[derive(Clone, Copy, Debug, PartialEq, Eq)]
pub enum Cause {
    /// A byte below 0x20 or above 0x7E.
    BadByte,
    /// An empty line, a space at an end, or two in a row.
    Spacing,
    /// The first line doesn't begin with `cells`.
    MissingCells,
    /// A first word that names nothing.
    Unknown,
    /// Too many words, or too few.
    WordCount,
    /// A caller behind [`MOST_CALLERS`] others.
    TooManyCallers,
    /// A query before the first caller.
    NoCaller,
    /// A word in a number's place that is no number.
    BadNumber,
    /// No cell or more than [`MOST_CELLS`], or a cell that isn't there.
    CellRange,
    /// A query behind [`MOST_QUERIES`] others.
    TooManyQueries,
}

/// Where a line of the log takes its reply from, and by what the lines are ordered: the key, which is the reply's place
/// or position, then the caller, then the index.
#[derive(Clone, Copy, Debug, PartialEq, Eq, PartialOrd, Ord)]
pub struct Spot {
    pub key: u64,
    pub caller: u64,
    pub index: u64,
}

/// The two parts of a log whose lines are ordered by a key.
#[derive(Clone, Copy, Debug, PartialEq, Eq)]
pub enum Section {
    /// Placed replies, by their places.
    Maps,
    /// Jobs, by their positions.
    Jobs,
}

/// A total of a log.
#[derive(Clone, Copy, Debug, PartialEq, Eq)]
pub enum Total {
    Queries,
    Writes,
    Reads,
    Refused,
    Jobs,
}

/// What a run comes to: how many replies there are, and how many of each kind; and the sums of all values of its maps
/// and of all accounts of its ledger at the end.
#[derive(Clone, Copy, Debug, PartialEq, Eq)]
pub struct Totals {
    pub queries: u64,
    pub writes: u64,
    pub reads: u64,
    pub refused: u64,
    pub jobs: u64,
    pub sum: u128,
    pub ledger: u128,
}
