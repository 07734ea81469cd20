//! The reading of a log: from its bytes to the script, the rows and the replies.
//!
//! [`read_log`] takes exactly the texts that `query_text::write_log` can write. It goes over the bytes line by line: a
//! line is read word by word, leniently, then written again and compared. The lines are then put in the order of
//! callers and indexes and made into lists.
#![tactic(auto)]

mod answered;
mod checks;
mod fault;
mod group;
mod lines;
mod listing;
mod read;
mod read_words;
mod wide_number;

pub use answered::Answered;
pub use fault::LogFault;
pub use read::{LogRead, a_text_says_one_log, read_log};

#[cfg(test)]
mod tests;
