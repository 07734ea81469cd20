//! The laws of the distributed lock, each as the contract of a function that does nothing: what the rule of a chain
//! says between any two steps of any passes, that there is at most one owner, that the jobs that ran are one history
//! with room for those still to come, that each job is answered once and to its own poster, and that the answers of one
//! pass come at rising positions.
//!
//! `specs/Laws.antt` names the statements. Most proofs stand where their words are defined: in `waiter_chain`,
//! `combine_job` and `dist_mutex`.
#![tactic(auto)]

ghost use Rattle.chain_laws.specs.Laws.{ShowsChain, HasOneOwner, ShowsLock, AnswersEachOnce, AnswersInOrder, RunInOrder};

use combine_job::job::{Job, Room};
use waiter_chain::freight::Freight;

/// Wherever the rule of a chain holds, the waiting nodes are exactly those of two lines without repeats, which run from
/// word to word, the central word is 0 exactly where there is no owner, and the value, the jobs and the answers stand
/// in their slots.
pub fn the_rule_shows_the_chain<P: Freight>()
    ensures { ShowsChain P.rule }
{}

/// So there is at most one owner: a pass with the turn, or one that was granted and has not polled since.
pub fn there_is_at_most_one_owner<P: Freight>()
    ensures { HasOneOwner P.rule }
{}

/// Wherever the rule of a distributed lock holds, the jobs that ran lead one after another from the first value to the
/// present one, their answers have the positions from 0 up to their number, each once, and the value has room for all
/// quotas and all posted jobs that have not run.
pub fn the_rule_shows_one_history<V: Room, J: Job<V>>()
    ensures { ShowsLock V.rooms J.means J.is_ready }
{}

/// And each job that ran stands once, with its answer: in a pass's own list, or waiting for the node that posted it.
pub fn each_job_is_answered_once<V: Room, J: Job<V>>()
    ensures { AnswersEachOnce V.rooms J.means J.is_ready }
{}

/// And what a pass is about to list comes after all that it has listed: the answer that waits for it or that it has
/// just taken, and each job that it runs for itself as the owner. So the positions rise that a pass's own steps add to
/// its list.
pub fn answers_come_in_order<V: Room, J: Job<V>>()
    ensures { AnswersInOrder V.rooms J.means J.is_ready }
{}

/// Jobs that lead from one value to another are answered at the positions from the first value's count on, one after
/// another: those of a history from 0, and those that an owner runs for itself from the count of the value that it
/// found.
pub fn jobs_run_at_rising_positions<V: Room, J: Job<V>>()
    ensures { RunInOrder V.rooms J.means }
{}
