//! The queries of one caller.
ghost use Rattle.std.specs.Prelude.{◌≡◌, ◌∷◌, ◌++◌, [], OnOk, OnErr};
ghost use Rattle.query_rules.specs.Maps.{writes_of};
ghost use Rattle.query_rules.specs.Ledger.{jobs_of};

use ql_base::NoMemory;
use query_rules::Query;
use std::alloc::Global;
use std::marker::Model;

/// What one caller asks. It counts, while it is filled, what a run has to make room for.
#[derive(Debug, Drop)]
pub struct QueryList {
    queries: Vec<Query>,
    // how many of them may change a map, and how many ask the ledger
    writes: u64,
    jobs: u64,
}

impl Model for QueryList {
    ghost use Rattle.std.specs.Prelude.{◌≡◌, List};
    ghost use Rattle.query_rules.specs.declared.query.Query.{Query};
    ghost use Rattle.query_rules.specs.Maps.{writes_of};
    ghost use Rattle.query_rules.specs.Ledger.{jobs_of};

    ghost Value = { List Query };

    ghost view = { λ l. l.queries.items };

    ghost invariant = { λ l. (l.writes ≡ writes_of l.queries.items) × (l.jobs ≡ jobs_of l.queries.items) };
}

impl QueryList {
    /// No query. It takes no memory.
    pub fn new(alloc: Global) -> Self
        ensures { result ≡ [] }
    {
        QueryList {
            queries: Vec::new(alloc),
            writes: 0,
            jobs: 0,
        }
    }

    /// The queries, in their order.
    pub fn queries(&self) -> &[Query]
        ensures { result.now ≡ self.now }
    {
        &self.queries
    }

    /// How many of them may change a map.
    pub fn writes(&self) -> u64
        ensures { result ≡ writes_of self.now }
    {
        self.writes
    }

    /// How many of them ask the ledger.
    pub fn jobs(&self) -> u64
        ensures { result ≡ jobs_of self.now }
    {
        self.jobs
    }

    /// Adds a query behind the others. A refusal changes nothing.
    pub fn add(&mut self, query: Query) -> Result<(), NoMemory>
        ensures ok { OnOk result (self.new ≡ self.old ++ query ∷ []) }
        ensures err { OnErr result (self.new ≡ self.old) }
    {
        self.queries.push(query)?;
        if query.may_write() {
            self.writes += 1;
        }
        if query.act().is_some() {
            self.jobs += 1;
        }
        Ok(())
    }
}
