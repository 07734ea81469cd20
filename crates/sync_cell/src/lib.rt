//! Read, upgrade and write calls on the cells of a hall: try, wait, wait until a deadline, call a closure while a cell
//! is held, or move from one mode to another. They follow Folly's `Synchronized`.
//!
//! A cell is a lock of the hall with the map that the hall's cargo keeps behind it. The crate stands on the tries of
//! `shared_mutex` and `upgrade_mode`, which never wait, on the waits of `timed_wait` and on the maps of `map_cargo`,
//! and adds no step of its own.
//!
//! Its contracts say what a call that returned has done: which tries were refused and why, what they left, and the one
//! step that gained the hold, with its moment. A waiting writer stays announced between its tries, and who moves from
//! upgrade to write holds upgrade all the while. A lowering is one step. Nothing is promised of a wait's end. No call
//! takes memory.
#![tactic(auto)]

mod attempts;
mod moving;
mod pointers;
mod timed;
mod trying;
mod waiting;
mod within;

pub use moving::{
    move_from_upgrade_to_read, move_from_upgrade_to_write, move_from_write_to_read,
    move_from_write_to_upgrade,
};
pub use pointers::{ReadPtr, UpgradePtr, WritePtr};
pub use timed::{rlock_until, ulock_until, wlock_until};
pub use trying::{try_rlock, try_ulock, try_wlock, unlock_read, unlock_upgrade_ptr, unlock_write};
pub use waiting::{rlock, ulock, wlock};
pub use within::{with_rlock, with_ulock, with_wlock};

#[cfg(test)]
mod beside_model;
#[cfg(test)]
mod tests;
