//! A lock whose waiters stand in a chain, over one table of atomic words and slots. A value lies in slot 0, and only
//! the owner of the lock reads or writes it. The chain is that of Folly's `DistributedMutex`: a waiter swaps its own
//! number into one central word and then waits on a word of its own.
//!
//! The crate stands on `atomic_table`, whose rule holds between any two steps of any passes. `specs/Chains.antt` has
//! the rule of this table: there is at most one owner, the central word is 0 exactly where there is none, lists hold
//! exactly the waiting nodes and those whose jobs have run, and it says of each node what stands in its words and its
//! slots. `specs/Goods.antt` has the laws of what a chain carries.
//!
//! A node may post a job as it enters. The owner may run it, in `serving`, and then the node is done; or it makes that
//! node the owner, which finds its job unrun in its own slot. `specs/Shows.antt` says in plain words what the rule says
//! between any two steps.
//!
//! The contracts promise of each call exactly the steps that it makes, in the pass's own list of steps, and what it
//! answers for which word. Nothing is promised of a wait's end.
#![tactic(auto)]

pub mod chain;
pub mod freight;
pub mod make;
mod plays;
pub mod runs;
pub mod serving;
pub mod slots;
#[cfg(test)]
mod tests;
pub mod turn;
pub mod view;
