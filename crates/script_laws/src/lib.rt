//! Scripts and their spelling: two laws of the definition of what a text says, and what follows from them.
//!
//! `said_by` of `query_rules` goes over a text line by line, as a reader does. Beside it stands the spelling of a
//! script, which knows nothing of reading: the words of its lines, with one space between two and a line feed at the
//! end of each. The laws say that the two fit together: the texts that say a script are its spelling and its spelling
//! without the last line feed, and no others. So an accepted text determines its script, and the other way round.
//!
//! Each is the contract of a function that does nothing, and `specs/Spelling.antt` names its statement.
#![tactic(auto)]

ghost use Rattle.script_laws.specs.Spelling.{SpellingIsRead, ReadIsSpelled, OneScript};

/// A script's spelling is read as this script, with its last line feed and without it.
pub fn spelling_is_read()
    ensures { SpellingIsRead }
{}

/// What is read as a script is its spelling, but for a missing last line feed; and the script meets what every script
/// meets.
pub fn what_is_read_is_spelled()
    ensures { ReadIsSpelled }
{}

/// No text spells two scripts: this follows from the first law.
pub fn a_text_spells_one_script()
    ensures { OneScript }
{}
