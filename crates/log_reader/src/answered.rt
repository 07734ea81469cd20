//! A query with its reply.
ghost use Rattle.log_reader.specs.Listing.{IsWritable};

use query_rules::{Query, Reply};

/// A query, whose it is, and its reply. It is one line of a log.
#[derive(Clone, Copy, Debug, PartialEq, Eq)]
pub struct Answered {
    pub caller: u64,
    pub index: u64,
    pub query: Query,
    pub reply: Reply,
}

impl Answered {
    /// Its numbers are those of a machine. It does nothing when it runs.
    pub fn known(self)
        ensures { IsWritable self }
    {}
}
