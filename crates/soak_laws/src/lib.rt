//! What the soak comes to: a law of the definition of one history.
//!
//! The soak is a script of four callers, whose replies depend on the schedule. Its totals don't: whatever history the
//! replies are, as many of them are writes, reads and jobs, and the values of the maps and of the ledger at its end
//! have the same sums. For no reply is `full` or `over`: all keys are among sixteen, as many as a map has rows, and a
//! value is at most seven times the number of writes.
//!
//! The law is the contract of a function that does nothing, and `specs/Totals.antt` names its statement.
#![tactic(auto)]

ghost use Rattle.soak_laws.specs.Totals.{SoakHasOneSummary};

/// Every history of the soak comes to its totals.
pub fn a_soak_has_one_summary()
    ensures { SoakHasOneSummary }
{}
