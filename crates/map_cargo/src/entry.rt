//! The entries of the history, and what a pass knows of it.
use query_rules::{Query, Reply, Said};
use std::collections::LinkedList;

/// A query of a caller, and what was said to it.
#[derive(Clone, Copy, Debug, PartialEq, Eq)]
pub struct Entry {
    /// The number of the pass that asks.
    pub caller: u64,
    /// Which of the caller's queries it is.
    pub index: u64,
    pub query: Query,
    pub said: Said,
}

/// A reply, with a number of writes where it has one. No value of this type is made by the code: it is for the proofs.
#[derive(Clone, Copy)]
pub enum Told {
    /// This write has the number.
    Wrote {
        number: u64,
        entry: Entry,
    },
    /// So many writes were drawn before this read.
    Read {
        number: u64,
        entry: Entry,
    },
    /// The cell's lock refused it, so that it has no place among the writes.
    Refused {
        caller: u64,
        index: u64,
        query: Query,
        reply: Reply,
    },
}

/// What made plain maps: how they began, and the writes since then. No value of this type is made by the code: it is for the proofs.
pub struct Made {
    /// By cell, the pairs with which its map began. A cell behind the end began empty.
    pub opening: LinkedList<LinkedList<(u64, u64)>>,
    /// The newest first.
    pub writes: LinkedList<Query>,
}

/// What a pass knows of the maps. No value of this type is made by the code: it is for the proofs.
pub struct Part {
    /// By cell, the words of each cell that it holds. The newest first.
    pub words: LinkedList<(u64, LinkedList<u64>)>,
    /// By cell, what made the plain map of each cell that it holds. The newest first.
    pub made: LinkedList<(u64, Made)>,
    /// The greatest number of writes that it knows to be drawn.
    pub seen: u64,
    /// Its own replies, and those of passes that it took in. The newest first.
    pub told: LinkedList<Told>,
    /// The log row that it drew last.
    pub row: u64,
    /// How many of that row's eight words are stored.
    pub stored: u64,
}
