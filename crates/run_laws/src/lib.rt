//! What several callers leave, and the laws by which the closes of their joined passes show one history.
//!
//! Each caller asks its queries by a pass of the hall and by a pass of the ledger's lock, which are split off two first
//! ones and are taken in again. `specs/Lists.antt` says what the passes then list: each reply under its caller and its
//! index. `specs/Callers.antt` says what is so of a caller's own passes after each query (`IsAsked`), of the passes
//! that have taken some callers' in (`IsTaken`), and of those that have taken all in (`IsWhole`). The lemmas of
//! `specs/AskedLaws.antt` and `specs/TakenLaws.antt` are the steps of the two loops that lead there, over views, from
//! the public clauses of `ask` and of the joins.
//!
//! The laws themselves are the contracts of functions that do nothing, and `specs/Laws.antt` names their statements.
#![tactic(auto)]

ghost use Rattle.run_laws.specs.Laws.{ShowOneHistory, TellJustTheReplies};

/// A hall and a ledger's lock, with a seat and a node for each caller, close on one history: each caller's queries
/// stand in it once and in its order, the placed replies are those of plain maps that one thread changes, the jobs'
/// those of a plain ledger, and a reply without a place stands only where another caller's queries allow it.
pub fn joined_passes_show_one_history()
    ensures { ShowOneHistory }
{}

/// What the two passes list is just the replies: each one that has a place or was refused stands in the hall's list,
/// and each job with its answer in the ledger's, under its caller, its index and its query. Nothing else stands in
/// either.
pub fn joined_passes_tell_just_the_replies()
    ensures { TellJustTheReplies }
{}
