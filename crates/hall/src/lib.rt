//! Many shared locks over one table of atomic words: the state of reader and writer locks after Folly's `SharedMutex`,
//! changed by single atomic steps, with a cargo of words behind the locks that only their holders touch.
//!
//! It stands on `atomic_table`, whose rule it brings: `specs/Rule.antt` says in four parts what is so between any two
//! steps, of numbers, state words and slots, trails and the cargo. `state_word` has the words and `lock_model` the
//! abstract lock.
//!
//! Each event is one step on one word. Its contract says which word it found and which it left, what became of the
//! pass's view, and which allowed move of the abstract lock it was, at a moment at which the rule held. What the rule
//! says of a lock in plain words stands in `specs/Shows.antt`, with the law that it follows.
//!
//! | Event | From | Step on the state word | To |
//! |---|---|---|---|
//! | `load` | any | reads it | the same |
//! | `enter` | away | exchange: count + 1, third reader sets MAY_DEFER | inline |
//! | `lower` | inline, owing | count - 1 | away |
//! | `announce` | away | exchange: sets BEGUN, clears MAY_DEFER | announcing, at slot 0 |
//! | `hold` | announcing, swept | exchange: BEGUN alone becomes HELD | exclusive |
//! | `retract` | announcing, hand empty | clears BEGUN, sets MAY_DEFER | away |
//! | `release` | exclusive | clears HELD | away |
//! | `upgrade_in` | away | exchange: sets UPGRADE | upgrade |
//! | `upgrade_out` | upgrade | clears UPGRADE | away |
//! | `upgrade_lower` | upgrade | clears UPGRADE, count + 1 | inline |
//! | `up` | upgrade | exchange: sets BEGUN, clears MAY_DEFER | announcing from upgrade, at slot 0 |
//! | `up_retract` | announcing from upgrade, hand empty | clears BEGUN, sets MAY_DEFER | upgrade |
//! | `hold_from_upgrade` | announcing from upgrade, swept | exchange: BEGUN and UPGRADE alone become HELD | exclusive |
//! | `exclusive_shared` | exclusive | clears HELD, count + 1 | inline |
//! | `exclusive_upgrade` | exclusive | clears HELD, sets UPGRADE | upgrade |
//! | `check` | undecided | reads it | with MAY_DEFER slotted, else the same |
//! | `add_hand` | announcing | count + hand | announcing, hand empty |
//!
//! | Event | From | Step on the word of a slot | To |
//! |---|---|---|---|
//! | `place_slot` | away, nothing pending | exchange: 0 becomes the lock's name | undecided |
//! | `withdraw_slot` | undecided | exchange: the lock's name becomes 0 | away; where it failed owing |
//! | `leave_slot` | slotted | exchange: the lock's name becomes 0 | away; where it failed inline |
//! | `look` | announcing | reads it | at the next slot, unless it names the lock |
//! | `pick` | announcing | exchange: the lock's name becomes 0 | at the next slot; where it succeeded with one more in the hand |
#![tactic(auto)]

pub mod cargo;
mod carried;
pub mod closing;
pub mod conflicts;
pub mod guards;
pub mod hall;
pub mod making;
pub mod no_cargo;
mod passes;
pub mod plays;
pub mod rule;
mod slotting;
#[cfg(test)]
mod tests;
mod upgrade;
pub mod view;

pub use cargo::{Cargo, CargoRule};
pub use closing::Closed;
pub use guards::{Announced, ExclusiveGuard, Form, SharedGuard, TryFault, UpgradeGuard, Why};
pub use hall::{Hall, Pass};
pub use lock_model::{Mode, Policy};
pub use making::{MOST_LOCKS, MOST_SEATS, MOST_SLOTS, NoMemory};
pub use no_cargo::NoCargo;
pub use plays::Note;
pub use state_word::Word;
