//! Jobs on a value that a chain of waiters guards. The value tells how many jobs it has room for, a job runs once on
//! it, and each job has a plain meaning: which answer and which value afterwards it may give. What stands in a chain's
//! slots is a `Parcel`: the value with the number of jobs that ran on it, a posted job, or an answer with its position.
//!
//! The crate stands on `waiter_chain`, and gives it the rule of its freight (`specs/Parcels.antt`). There is one
//! history: the jobs that ran, one after another, lead from the first value to the value now; these jobs, each with its
//! answer, are exactly those in the passes' own lists and those whose answers wait in slots, each once, at its
//! position; and the room of the value suffices for all quotas and all posted jobs. `specs/Laws.antt` proves that each
//! step of a chain keeps this, those by which jobs are posted and combined included.
//!
//! `run_kept` promises that a job runs once at the next position, and that its answer is the plain meaning of the job.
//! `post`, `run_posted` and `collect` post a job in a chain, run the job of the next node, and take one's own answer.
#![tactic(auto)]

pub mod combining;
pub mod freight;
pub mod job;
pub mod once;
pub mod parcel;
pub mod run;
#[cfg(test)]
mod tests;
