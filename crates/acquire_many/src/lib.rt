//! Several locks of a hall at once, each in its own mode. Whoever takes several locks takes them in the order of their
//! numbers, as Folly's `acquireLocked` does by their addresses: the order in which two passes that take locks by these
//! calls alone can't wait for each other. The contracts tell the order; of progress they promise nothing.
//!
//! The caller lists its wants in any order, and gets its guards by the position of the want. `lock_many` waits for each
//! lock in turn. `try_many` tries each once, and gives back what it took where one is refused. No call takes memory.
//!
//! Its contracts say in which order the locks were gained, how the pass stands at each of them and elsewhere, what it
//! knows of what they guard, and which footprints it left.
#![tactic(auto)]

mod guards;
mod many;
mod one;
#[cfg(test)]
mod tests;
mod waits;
mod wants;

pub use guards::{Guards, How, MANY, OneGuard};
pub use many::{ManyFault, SameCell, lock_many, try_many, unlock_many};
