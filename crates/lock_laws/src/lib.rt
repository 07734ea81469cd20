//! The laws of the shared locks, each as the contract of a function that does nothing: what the rule of a hall says of
//! each lock between any two steps, that each allowed move of the abstract lock keeps it lawful, that under write
//! priority no reader enters past an announced writer, that steps on cargo words move no lock and that an exclusive
//! holder is alone at them, and what each change of a state word does to its fields.
//!
//! `specs/Laws.antt` names the statements. Their proofs stand where their words are defined: in `hall`, `lock_model`
//! and `state_word`.
#![tactic(auto)]

ghost use Rattle.lock_laws.specs.Laws.{RuleShows, UnitsCountedOnce, MovesKeepLawful, NoReaderPasses, NoReaderEntersPast, CargoStepShows, HolderIsAlone, ChangesFields};

use hall::CargoRule;

/// Wherever the rule of a hall holds, each of its locks is as the rule shows it: its word has the form of a state word,
/// the passes' roles are a lawful lock whose bits the word has, each reader's unit is counted once, each slot that
/// names the lock is accounted for while readers don't defer, and while the lock is held no reader is inside.
pub fn the_rule_shows_each_lock<C: CargoRule>()
    ensures { RuleShows C.CargoRule }
{}

/// At the moment of each step for a lock, on its word or on a slot, each reader's unit is counted once, before the step
/// and after it, however many passes and locks there are: it is inline in the lock's count, in a writer's hand, or a
/// token in a slot.
pub fn each_unit_is_counted_once<C: CargoRule>()
    ensures { UnitsCountedOnce C.CargoRule }
{}

/// After an allowed event a lawful lock is lawful.
pub fn each_allowed_move_keeps_a_lawful_lock()
    ensures { MovesKeepLawful }
{}

/// Under write priority an allowed event that enters a reader finds no other seat announced.
pub fn no_reader_passes_a_writer()
    ensures { NoReaderPasses }
{}

/// So no step of a hall under write priority enters a reader while another pass is announced at its lock.
pub fn no_reader_enters_past_a_writer<C: CargoRule>()
    ensures { NoReaderEntersPast C.CargoRule }
{}

/// A step on a cargo word moves no lock: at its moment each lock is as the rule shows it, and so it stays.
pub fn a_cargo_step_moves_no_lock<C: CargoRule>()
    ensures { CargoStepShows C.CargoRule }
{}

/// At the moment of each step on a cargo word that an exclusive holder makes, no other pass has a mode at its lock.
pub fn an_exclusive_holder_is_alone<C: CargoRule>()
    ensures { HolderIsAlone C.CargoRule }
{}

/// Each change of a state word sets its own fields, and all others stay.
pub fn each_change_sets_its_fields()
    ensures { ChangesFields }
{}
