//! The plain maps.
ghost use Rattle.std.specs.Prelude.{◌≡◌, ◌<◌, ◌∷◌, [], Some, IfOk, OnOk, OnErr, IsSome, length, IsFalse, ◌^◌};
ghost use Rattle.query_rules.specs.Grammar.{TakesBelow};
ghost use Rattle.query_rules.specs.History.{asks_ledger};
ghost use Rattle.query_rules.specs.Maps as plain;
ghost use Rattle.query_log.specs.Plain.{maps_of};

use ql_base::NoMemory;
use query_rules::{Query, Said};
use std::alloc::Global;
use std::collections::BTreeMap;

/// A map for each cell, with at most so many keys.
#[derive(Drop)]
pub struct PlainMaps {
    rows: u64,
    maps: Vec<BTreeMap<u64, u64>>,
}

impl PlainMaps {
    ghost use Rattle.query_log.specs.Plain.{maps_in, cell_count, row_count, Becomes};

    /// Empty maps, one for each cell.
    pub fn make(alloc: Global, cells: u64, rows: u64) -> Result<Self, NoMemory>
        ensures maps { IfOk result (λ p. maps_in p ≡ plain.no_entries) }
        ensures cells { IfOk result (λ p. cell_count p ≡ cells) }
        ensures rows { IfOk result (λ p. row_count p ≡ rows) }
    {
        Ok(PlainMaps {
            rows,
            maps: empty_maps(alloc, cells)?,
        })
    }

    /// Asks a query of the maps. It costs a few look-ups in one map, or in two.
    ///
    /// A `try` or a deadline changes nothing here: nobody else holds a lock.
    pub fn ask(&mut self, query: &Query) -> Result<Said, NoMemory>
        requires cells { TakesBelow (cell_count self.old) query.now }
        requires of_maps { IsFalse (asks_ledger query.now) }
        ensures said { IfOk result (λ said. plain.reply_of (row_count self.old) (maps_in self.old) query.now ≡ Some said) }
        ensures ok { IfOk result (λ said. Becomes self.old self.new (plain.after (maps_in self.old) query.now said)) }

        // A refusal leaves the maps.
        ensures err { OnErr result (Becomes self.old self.new (maps_in self.old)) }
    {
        match *query {
            Query::Get { cell, key } | Query::TryGet { cell, key } => Ok(self.found(cell, key)),
            Query::GetBy { cell, key, .. } => Ok(self.found(cell, key)),
            Query::Len { cell } => Ok(Said::Count(self.count(cell))),
            Query::Put { cell, key, value } | Query::TryPut { cell, key, value } => {
                self.put(cell, key, value)
            }
            Query::PutBy {
                cell,
                key,
                value,
                ..
            } => self.put(cell, key, value),
            Query::Del { cell, key } => Ok(self.del(cell, key)),
            Query::Add { cell, key, delta } => self.add(cell, key, delta),
            Query::Cas {
                cell,
                key,
                old,
                new,
            } => self.cas(cell, key, old, new),
            Query::PutLen { cell, key, value } => self.put_len(cell, key, value),
            Query::Both { first, second, key } => Ok(self.both(first, second, key)),
            Query::Move { from, to, key, n } => self.transfer(from, to, key, n),
            Query::Give { .. } => unreachable!(),
            Query::Take { .. } => unreachable!(),
            Query::Audit => unreachable!(),
        }
    }

    // What a key has.
    fn value(&self, cell: u64, key: u64) -> Option<u64>
        requires { cell < cell_count self.now }
        ensures { result ≡ (maps_in self.now cell).value_at key }
    {
        self.maps[cell as usize].get(&key).copied()
    }

    // How many keys there are.
    fn count(&self, cell: u64) -> u64
        requires { cell < cell_count self.now }
        ensures value { result ≡ (maps_in self.now cell).count }
        ensures small { result < 2 ^ 63 }
    {
        self.maps[cell as usize].len() as u64
    }

    // Whether there is no room for another key.
    fn is_full(&self, cell: u64) -> bool
        requires { cell < cell_count self.now }
        ensures { result ≡ plain.is_full (row_count self.now) (maps_in self.now cell) }
    {
        self.rows <= self.count(cell)
    }

    // Gives a key a value. A new key may find no memory.
    fn set(&mut self, cell: u64, key: u64, value: u64) -> Result<(), NoMemory>
        requires { cell < cell_count self.old }
        ensures ok { OnOk result (Becomes self.old self.new (plain.with_map (maps_in self.old) cell (plain.with_value (maps_in self.old cell) key value))) }
        ensures err { OnErr result (Becomes self.old self.new (maps_in self.old)) }
    {
        self.maps[cell as usize].insert(key, value)?;
        Ok(())
    }

    // Takes a key out.
    fn remove(&mut self, cell: u64, key: u64)
        requires { cell < cell_count self.old }
        ensures { Becomes self.old self.new (plain.with_map (maps_in self.old) cell (plain.without (maps_in self.old cell) key)) }
    {
        self.maps[cell as usize].remove(&key);
    }

    // The reply of a `get`.
    fn found(&self, cell: u64, key: u64) -> Said
        requires { cell < cell_count self.now }
        ensures { result ≡ plain.get_says ((maps_in self.now cell).value_at key) }
    {
        match self.value(cell, key) {
            Some(value) => Said::Found(value),
            None => Said::Absent,
        }
    }

    fn put(&mut self, cell: u64, key: u64, value: u64) -> Result<Said, NoMemory>
        requires { cell < cell_count self.old }
        ensures said { IfOk result (λ said. plain.reply_of (row_count self.old) (maps_in self.old) (Query.Put cell key value) ≡ Some said) }
        ensures ok { IfOk result (λ said. Becomes self.old self.new (plain.after (maps_in self.old) (Query.Put cell key value) said)) }
        ensures err { OnErr result (Becomes self.old self.new (maps_in self.old)) }
    {
        let had = self.value(cell, key);
        if had.is_none() && self.is_full(cell) {
            return Ok(Said::Full);
        }
        self.set(cell, key, value)?;
        match had {
            Some(old) => Ok(Said::Old(old)),
            None => Ok(Said::New),
        }
    }

    fn del(&mut self, cell: u64, key: u64) -> Said
        requires { cell < cell_count self.old }
        ensures said { plain.reply_of (row_count self.old) (maps_in self.old) (Query.Del cell key) ≡ Some result }
        ensures ok { Becomes self.old self.new (plain.after (maps_in self.old) (Query.Del cell key) result) }
    {
        match self.value(cell, key) {
            Some(old) => {
                self.remove(cell, key);
                Said::Old(old)
            }
            None => Said::Absent,
        }
    }

    fn add(&mut self, cell: u64, key: u64, delta: u64) -> Result<Said, NoMemory>
        requires { cell < cell_count self.old }
        ensures said { IfOk result (λ said. plain.reply_of (row_count self.old) (maps_in self.old) (Query.Add cell key delta) ≡ Some said) }
        ensures ok { IfOk result (λ said. Becomes self.old self.new (plain.after (maps_in self.old) (Query.Add cell key delta) said)) }
        ensures err { OnErr result (Becomes self.old self.new (maps_in self.old)) }
    {
        let had = self.value(cell, key);
        if had.is_none() && self.is_full(cell) {
            return Ok(Said::Full);
        }
        let Some(sum) = had.unwrap_or(0).checked_add(delta) else {
            return Ok(Said::Over);
        };
        self.set(cell, key, sum)?;
        Ok(Said::Now(sum))
    }

    fn cas(&mut self, cell: u64, key: u64, old: u64, new: u64) -> Result<Said, NoMemory>
        requires { cell < cell_count self.old }
        ensures said { IfOk result (λ said. plain.reply_of (row_count self.old) (maps_in self.old) (Query.Cas cell key old new) ≡ Some said) }
        ensures ok { IfOk result (λ said. Becomes self.old self.new (plain.after (maps_in self.old) (Query.Cas cell key old new) said)) }
        ensures err { OnErr result (Becomes self.old self.new (maps_in self.old)) }
    {
        match self.value(cell, key) {
            None => Ok(Said::Absent),
            Some(value) if value == old => {
                self.set(cell, key, new)?;
                Ok(Said::Yes)
            }
            Some(value) => Ok(Said::No(value)),
        }
    }

    fn put_len(&mut self, cell: u64, key: u64, value: u64) -> Result<Said, NoMemory>
        requires { cell < cell_count self.old }
        ensures said { IfOk result (λ said. plain.reply_of (row_count self.old) (maps_in self.old) (Query.PutLen cell key value) ≡ Some said) }
        ensures ok { IfOk result (λ said. Becomes self.old self.new (plain.after (maps_in self.old) (Query.PutLen cell key value) said)) }
        ensures err { OnErr result (Becomes self.old self.new (maps_in self.old)) }
    {
        let had = self.value(cell, key);
        if had.is_none() && self.is_full(cell) {
            return Ok(Said::Full);
        }
        let count = self.count(cell);
        self.set(cell, key, value)?;
        match had {
            Some(old) => Ok(Said::OldCount(old, count)),
            None => Ok(Said::NewCount(count + 1)),
        }
    }

    fn both(&self, first: u64, second: u64, key: u64) -> Said
        requires first { first < cell_count self.now }
        requires second { second < cell_count self.now }
        ensures { plain.reply_of (row_count self.now) (maps_in self.now) (Query.Both first second key) ≡ Some result }
    {
        if first == second {
            return Said::Same;
        }
        Said::Pair(self.value(first, key), self.value(second, key))
    }

    // Gives a key that is there another value, which takes no memory.
    fn replace(&mut self, cell: u64, key: u64, value: u64)
        requires cell { cell < cell_count self.old }
        requires there { IsSome ((maps_in self.old cell).value_at key) }
        ensures { Becomes self.old self.new (plain.with_map (maps_in self.old) cell (plain.with_value (maps_in self.old cell) key value)) }
    {
        if self.maps[cell as usize].insert(key, value).is_err() {
            unreachable!();
        }
    }

    // The second cell is set first: that alone may find no memory, and then nothing has changed.
    fn transfer(&mut self, from: u64, to: u64, key: u64, n: u64) -> Result<Said, NoMemory>
        requires from { from < cell_count self.old }
        requires to { to < cell_count self.old }
        ensures said { IfOk result (λ said. plain.reply_of (row_count self.old) (maps_in self.old) (Query.Move from to key n) ≡ Some said) }
        ensures ok { IfOk result (λ said. Becomes self.old self.new (plain.after (maps_in self.old) (Query.Move from to key n) said)) }
        ensures err { OnErr result (Becomes self.old self.new (maps_in self.old)) }
    {
        if from == to {
            return Ok(Said::Same);
        }
        let has = self.value(from, key);
        let amount = has.unwrap_or(0);
        if amount < n {
            return Ok(Said::Short(amount));
        }
        let had = self.value(to, key);
        let Some(sum) = had.unwrap_or(0).checked_add(n) else {
            return Ok(Said::Over);
        };
        if had.is_none() && self.is_full(to) {
            return Ok(Said::Full);
        }
        self.set(to, key, sum)?;
        if has.is_some() {
            self.replace(from, key, amount - n);
        }
        Ok(Said::Moved)
    }
}

fn empty_maps(alloc: Global, cells: u64) -> Result<Vec<BTreeMap<u64, u64>>, NoMemory>
    ensures maps { IfOk result (λ maps. maps_of maps.items ≡ plain.no_entries) }
    ensures cells { IfOk result (λ maps. length maps.items ≡ cells) }
{
    let mut maps = Vec::new(alloc);
    for _ in 0..cells {
        maps.push(BTreeMap::new(alloc))?;
    }
    Ok(maps)
}
