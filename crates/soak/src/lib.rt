//! The soak: a script that is made, and what its replies sum up to.
//!
//! [`make_soak`] makes the script of a soak of so many queries, four callers on eight cells, and [`sum_up`] goes over
//! the replies to it. `query_rules` defines both, and `soak_laws` has the law by which the sums are the same for every
//! history of the script.
#![tactic(auto)]

mod generate;
mod sums;

pub use generate::make_soak;
pub use sums::sum_up;

#[cfg(test)]
mod tests;
