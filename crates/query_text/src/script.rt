//! Scripts.
ghost use Rattle.std.specs.Prelude.{◌≡◌, ◌∷◌, ◌++◌, ◌<◌, ◌^◌, [], length, OnOk, OnErr, get_or, sum_by, nat_le};
ghost use Rattle.query_rules.specs.Grammar.{IsScript, with_query};
ghost use Rattle.query_rules.specs.Maps.{writes_of};
ghost use Rattle.query_rules.specs.Ledger.{jobs_of};
ghost use Rattle.query_rules.specs.declared.query.TheConstants.{MOST_QUERIES};

use crate::query_list::QueryList;
use ql_base::NoMemory;
use query_rules::{MOST_QUERIES, Query};
use std::alloc::Global;
use std::marker::Model;

/// The queries of some callers, a list for each.
#[derive(Debug, Drop)]
pub struct Callers {
    alloc: Global,
    lists: Vec<QueryList>,
    // how many queries there are; it stands still at the end of a u64
    total: u64,
}

impl Model for Callers {
    ghost use Rattle.std.specs.Prelude.{◌≡◌, ◌-◌, ◌^◌, List, length, min, sum_by};
    ghost use Rattle.query_rules.specs.declared.query.Query.{Query};

    ghost Value = { List (List Query) };

    ghost view = { λ c. c.lists.items };

    ghost invariant = { λ c. c.total ≡ min (sum_by length c.lists.items) (2 ^ 64 - 1) };
}

impl Callers {
    /// No caller.
    pub fn new(alloc: Global) -> Self
        ensures { result ≡ [] }
    {
        Callers {
            alloc,
            lists: Vec::new(alloc),
            total: 0,
        }
    }

    /// How many callers there are.
    pub fn count(&self) -> u64
        ensures { result ≡ length self.now }
    {
        self.lists.len() as u64
    }

    /// The queries of one caller. Callers are numbered from 0.
    pub fn queries(&self, caller: u64) -> &[Query]
        requires { caller < length self.now }
        ensures { result.now ≡ get_or self.now caller [] }
    {
        let list = &self.lists[caller as usize];
        list.queries()
    }

    /// How many queries of one caller may change a map. They were counted as they came.
    pub fn writes(&self, caller: u64) -> u64
        requires { caller < length self.now }
        ensures { result ≡ writes_of (get_or self.now caller []) }
    {
        let list = &self.lists[caller as usize];
        list.writes()
    }

    /// How many queries of one caller ask the ledger. They were counted as they came.
    pub fn jobs(&self, caller: u64) -> u64
        requires { caller < length self.now }
        ensures { result ≡ jobs_of (get_or self.now caller []) }
    {
        let list = &self.lists[caller as usize];
        list.jobs()
    }

    /// Whether there are as many queries as a script may have.
    pub fn is_full(&self) -> bool
        ensures { result ≡ nat_le MOST_QUERIES (sum_by length self.now) }
    {
        self.total >= MOST_QUERIES
    }

    /// Adds a caller with no query. A refusal changes nothing.
    pub fn add_caller(&mut self) -> Result<(), NoMemory>
        ensures ok { OnOk result (self.new ≡ self.old ++ [] ∷ []) }
        ensures err { OnErr result (self.new ≡ self.old) }
    {
        self.lists.push(QueryList::new(self.alloc))?;
        Ok(())
    }

    /// Adds a query to the last caller's. A refusal changes nothing.
    pub fn add_query(&mut self, query: Query) -> Result<(), NoMemory>
        requires { 0 < length self.old }
        ensures ok { OnOk result (self.new ≡ with_query self.old query) }
        ensures err { OnErr result (self.new ≡ self.old) }
    {
        let last = self.lists.len() - 1;
        let list = &mut self.lists[last];
        list.add(query)?;
        self.total = self.total.saturating_add(1);
        Ok(())
    }
}

/// A script: a number of cells, and what each caller asks. It is always one that some text says: 1 to `MOST_CELLS`
/// cells, at most `MOST_CALLERS` callers and `MOST_QUERIES` queries, and no query names a cell that isn't there.
#[derive(Debug, Drop)]
pub struct Script {
    cells: u64,
    callers: Callers,
}

impl Model for Script {
    ghost use Rattle.query_rules.specs.Grammar.{Asked, IsScript};

    ghost Value = { Asked };

    ghost view = { λ s. record { cells = s.cells; callers = s.callers } };

    ghost invariant = { λ s. IsScript (record { cells = s.cells; callers = s.callers }) };
}

impl Script {
    /// The script with these cells and callers. It takes no memory.
    pub fn of(cells: u64, callers: Callers) -> Self
        requires { IsScript (record { cells = cells; callers = callers }) }
        ensures { result ≡ record { cells = cells; callers = callers } }
    {
        Script { cells, callers }
    }

    /// How many cells there are.
    pub fn cells(&self) -> u64
        ensures value { result ≡ self.now.cells }
        ensures script { IsScript self.now }
    {
        self.cells
    }

    /// What the callers ask.
    pub fn callers(&self) -> &Callers
        ensures value { result.now ≡ self.now.callers }
        ensures script { IsScript self.now }
    {
        &self.callers
    }
}
