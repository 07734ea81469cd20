//! What was replied to the queries of a script.
ghost use Rattle.std.specs.Prelude.{◌≡◌, ◌+◌, ◌-◌, ◌<◌, ◌≤◌, ◌^◌, [], length, get_or, map, sum_by, count_by, if◌then◌else◌};
ghost use Rattle.query_rules.specs.Log.{is_counted, total_of};
ghost use Rattle.query_rules.specs.declared.query.Total.{Total};

use crate::kept::KeptReply;
use query_rules::Reply;
use std::marker::Model;

/// The replies to each caller's queries.
#[derive(Debug, Drop)]
pub struct Outcome {
    lists: Vec<Vec<KeptReply>>,
}

impl Model for Outcome {
    ghost use Rattle.std.specs.Prelude.{List, map};
    ghost use Rattle.query_rules.specs.declared.query.Reply.{Reply};

    ghost Value = { List (List Reply) };

    ghost view = { λ o. map (λ v. v.items) o.lists.items };
}

impl Outcome {
    ghost use Rattle.query_text.specs.Counts.{total_in};

    /// The outcome with these lists, one for each caller. It takes no memory.
    pub fn of(lists: Vec<Vec<KeptReply>>) -> Self
        ensures { result ≡ map (λ v. v.items) lists.items }
    {
        Outcome { lists }
    }

    /// How many callers have a list.
    pub fn count(&self) -> u64
        ensures { result ≡ length self.now }
    {
        self.lists.len() as u64
    }

    /// The replies to one caller. Callers are numbered from 0.
    pub fn replies(&self, caller: u64) -> &[KeptReply]
        requires { caller < length self.now }
        ensures { result.now ≡ get_or self.now caller [] }
    {
        &self.lists[caller as usize]
    }

    /// The totals of all replies, by going over them once.
    pub fn totals(&self) -> Counts
        requires { sum_by length self.now < 2 ^ 64 }
        ensures { (t : Total) → total_in t result ≡ total_of t self.now }
    {
        let mut totals = Counts::new();
        totals.count_lists(&self.lists);
        totals
    }
}

/// How many replies there are, and how many of each kind.
#[derive(Clone, Copy, Debug, PartialEq, Eq)]
pub struct Counts {
    pub queries: u64,
    pub writes: u64,
    pub reads: u64,
    pub refused: u64,
    pub jobs: u64,
    ghost adds_up: { writes + reads + refused + jobs ≡ queries },
}

impl Counts {
    ghost use Rattle.query_text.specs.Counts.{total_in};

    fn new() -> Self
        ensures { (t : Total) → total_in t result ≡ 0 }
    {
        Counts {
            queries: 0,
            writes: 0,
            reads: 0,
            refused: 0,
            jobs: 0,
        }
    }

    // Counts one reply.
    fn count(&mut self, reply: &KeptReply)
        requires { self.old.queries < 2 ^ 64 - 1 }
        ensures { (t : Total) → total_in t self.new ≡ total_in t self.old + (if is_counted t reply.now then 1 else 0) }
    {
        self.queries += 1;
        match reply.reply() {
            Reply::Placed { place, .. } if place % 2 == 1 => self.writes += 1,
            Reply::Placed { .. } => self.reads += 1,
            Reply::Busy | Reply::Late { .. } => self.refused += 1,
            Reply::Job { .. } => self.jobs += 1,
        }
    }

    // Counts the replies of one caller.
    fn count_list(&mut self, replies: &[KeptReply])
        requires { self.old.queries + length replies.now < 2 ^ 64 }
        ensures { (t : Total) → total_in t self.new ≡ total_in t self.old + count_by (is_counted t) replies.now }
    {
        let mut rest = replies;
        while let [reply, after @ ..] = rest {
            self.count(reply);
            rest = after;
        }
    }

    // Counts the replies of all callers.
    fn count_lists(&mut self, lists: &[Vec<KeptReply>])
        requires { self.old.queries + sum_by length (map (λ v. v.items) lists.now) < 2 ^ 64 }
        ensures { (t : Total) → total_in t self.new ≡ total_in t self.old + total_of t (map (λ v. v.items) lists.now) }
    {
        let mut rest = lists;
        while let [list, after @ ..] = rest {
            self.count_list(list);
            rest = after;
        }
    }
}
