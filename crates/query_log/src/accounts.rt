//! The accounts of a ledger.
ghost use Rattle.std.specs.Prelude.{◌≡◌, ◌<◌, ◌≤◌, ◌==◌, ◌^◌, [], Some, None, IfOk, length, vec_capacity, slice_index_or, nat_le};
ghost use Rattle.query_rules.specs.declared.query.LedgerAct.TheVariants as act;
ghost use Rattle.query_rules.specs.Ledger.{with_balance, sum_of, result_of};
ghost use Rattle.query_log.specs.Book.{Book, place_of, after_act, changed};

use crate::{LedgerAct, LedgerFault, LedgerOut};
use ql_base::NoMemory;
use query_rules::Account;
use std::alloc::Global;
use std::collections::HashMap;
use std::marker::Model;

/// Accounts in the order in which they were opened. Their places by key and their sum are kept beside them, so that no
/// job goes through them all.
#[derive(Drop)]
pub struct AccountBook {
    rows: u64,
    accounts: Vec<Account>,
    places: HashMap<u64, usize>,
    sum: u128,
}

impl Model for AccountBook {
    ghost use Rattle.std.specs.Prelude.{nat_eq, vec_capacity};
    ghost use Rattle.std.specs.HashMap.{get, spare};
    ghost use Rattle.query_log.specs.Book.{Book, IsKept};

    ghost Value = { Book };

    ghost view = { λ b. record { rows = b.rows; accounts = b.accounts.items } };

    ghost invariant = { λ b. IsKept b.rows b.accounts.items (vec_capacity b.accounts) (get nat_eq b.places) (spare b.places) b.sum };
}

impl AccountBook {
    /// No accounts, with room for so many.
    pub fn make(alloc: Global, rows: u64) -> Result<Self, NoMemory>
        ensures { IfOk result (λ book. book ≡ record { rows = rows; accounts = [] }) }
    {
        Ok(AccountBook {
            rows,
            accounts: Vec::with_capacity(alloc, rows as usize)?,
            places: HashMap::with_capacity(alloc, rows as usize)?,
            sum: 0,
        })
    }

    /// Does a job. It costs a look-up or two, and goes through no other account.
    pub fn run(&mut self, act: LedgerAct) -> Result<LedgerOut, LedgerFault>
        ensures result { result ≡ result_of self.old.rows self.old.accounts act }
        ensures accounts { self.new ≡ after_act self.old act }
    {
        match act {
            LedgerAct::Give { key, n } => self.give(key, n),
            LedgerAct::Take { key, n } => self.take(key, n),
            LedgerAct::Audit => Ok(LedgerOut::Sum(self.sum())),
        }
    }

    fn give(&mut self, key: u64, n: u64) -> Result<LedgerOut, LedgerFault>
        ensures result { result ≡ result_of self.old.rows self.old.accounts (act.Give key n) }
        ensures accounts { self.new ≡ after_act self.old (act.Give key n) }
    {
        match self.place(key) {
            Some(place) => {
                let Some(sum) = self.balance(place).checked_add(n) else {
                    return Err(LedgerFault::Over);
                };
                self.set(key, place, sum);
                Ok(LedgerOut::Now(sum))
            }
            None if self.is_full() => Err(LedgerFault::Full),
            None => {
                self.open(key, n);
                Ok(LedgerOut::Now(n))
            }
        }
    }

    fn take(&mut self, key: u64, n: u64) -> Result<LedgerOut, LedgerFault>
        ensures result { result ≡ result_of self.old.rows self.old.accounts (act.Take key n) }
        ensures accounts { self.new ≡ after_act self.old (act.Take key n) }
    {
        match self.place(key) {
            Some(place) => {
                let balance = self.balance(place);
                if balance < n {
                    return Err(LedgerFault::Short(balance));
                }
                self.set(key, place, balance - n);
                Ok(LedgerOut::Now(balance - n))
            }
            None if 0 < n => Err(LedgerFault::Short(0)),
            None => Ok(LedgerOut::Now(0)),
        }
    }

    // Where the account of a key stands.
    fn place(&self, key: u64) -> Option<usize>
        ensures { result ≡ place_of self.now.accounts key }
    {
        self.places.get(&key).copied()
    }

    // What the account at a place has.
    fn balance(&self, place: usize) -> u64
        requires { place < length self.now.accounts }
        ensures { result ≡ (slice_index_or self.now.accounts place (record { key = 0; balance = 0 })).balance }
    {
        self.accounts[place].balance
    }

    fn is_full(&self) -> bool
        ensures { result ≡ nat_le self.now.rows (length self.now.accounts) }
    {
        self.rows <= self.accounts.len() as u64
    }

    // The sum of all balances.
    fn sum(&self) -> u128
        ensures { result ≡ sum_of self.now.accounts }
    {
        self.sum
    }

    // Gives the account that stands there another balance.
    fn set(&mut self, key: u64, place: usize, balance: u64)
        requires { place_of self.old.accounts key ≡ Some place }
        ensures { self.new ≡ changed self.old key balance }
    {
        self.sum = self.sum - self.accounts[place].balance as u128 + balance as u128;
        self.accounts[place] = Account { key, balance };
    }

    // Opens an account, for which there is room.
    fn open(&mut self, key: u64, balance: u64)
        requires absent { place_of self.old.accounts key ≡ None }
        requires room { length self.old.accounts < self.old.rows }
        ensures { self.new ≡ changed self.old key balance }
    {
        let place = self.accounts.len();
        if self.places.insert(key, place).is_err() {
            unreachable!();
        }
        if self.accounts.push(Account { key, balance }).is_err() {
            unreachable!();
        }
        self.sum += balance as u128;
    }
}
