//! The words of a line, from left to right.
ghost use Rattle.std.specs.Prelude.{◌≡◌, ◌≤◌, ℕ, List, Ok, Some, map, length, take, IfSome};
ghost use Rattle.query_rules.specs.Words.{words_of};
ghost use Rattle.arrayvec.specs.ArrayVec.{array_vec_len};
ghost use Rattle.log_reader.specs.Reading.{Finds, name_at, number_at, numbers_at, wide_of, query_at, question_at, said_named as named_said, said_alone as alone_said, said_with as with_said, said_by_two as two_said, said_by_three as three_said, said_by_four as four_said, said_in, refusal_in, result_by_two as two_result, result_in, placed_in, refused_in, job_in, kind_in, answered_in, tables_in};

use crate::Answered;
use crate::wide_number::wide_number;
use arrayvec::ArrayVec;
use query_rules::{LedgerTold, LedgerTrouble, Query, Reply, Said, Verb};
use query_text::{cut_word, word_number, word_numbers};

/// More words than any line of a log has.
pub const MOST_WORDS: usize = 16;

/// The first words of a line.
pub fn line_words(line: &[u8]) -> ArrayVec<&[u8], MOST_WORDS>
    ensures { map (λ w. w.now) result.items ≡ take 16 (words_of line.now) }
{
    let mut words = ArrayVec::new();
    let mut rest = Some(line);
    while let Some(text) = rest {
        if words.is_full() {
            return words;
        }
        let (word, after) = cut_word(text);
        words.push(word);
        rest = after;
    }
    words
}

// A word, and the words after it.
fn first_name<'a>(words: &'a [&'a [u8]]) -> Option<(&'a [u8], &'a [&'a [u8]])>
    ensures { Finds (λ x. (x.0.now, map (λ w. w.now) x.1.now)) result (name_at (map (λ w. w.now) words.now)) }
{
    match words {
        [word, after @ ..] => Some((*word, after)),
        [] => None,
    }
}

fn first_number<'a>(words: &'a [&'a [u8]]) -> Option<(u64, &'a [&'a [u8]])>
    ensures { Finds (λ x. (x.0, map (λ w. w.now) x.1.now)) result (number_at (map (λ w. w.now) words.now)) }
{
    match words {
        [word, after @ ..] => Some((word_number(word)?, after)),
        [] => None,
    }
}

fn first_numbers<'a>(
    count: usize,
    words: &'a [&'a [u8]],
) -> Option<(ArrayVec<u64, 5>, &'a [&'a [u8]])>
    requires { count ≤ 4 }
    ensures read { Finds (λ x. (x.0.items, map (λ w. w.now) x.1.now)) result (numbers_at count (map (λ w. w.now) words.now)) }
    ensures len { IfSome result (λ x. array_vec_len x.0 ≡ count) }
{
    if words.len() < count {
        return None;
    }
    let mut numbers = ArrayVec::new();
    word_numbers(&words[..count], &mut numbers)?;
    Some((numbers, &words[count..]))
}

// The query at the front.
#[tactic(auto, unfolding(crate::specs::Reading::query_at))]
fn first_query<'a>(words: &'a [&'a [u8]]) -> Option<(Query, &'a [&'a [u8]])>
    ensures { Finds (λ x. (x.0, map (λ w. w.now) x.1.now)) result (query_at (map (λ w. w.now) words.now)) }
{
    let (name, rest) = first_name(words)?;
    let verb = Verb::named(name)?;
    let (numbers, rest) = first_numbers(verb.arity(), rest)?;
    Some((verb.query(&numbers), rest))
}

#[derive(Clone, Copy)]
struct Question {
    caller: u64,
    index: u64,
    query: Query,
}

impl Question {
    fn with(self, reply: Reply) -> Answered
        ensures { result ≡ record { caller = self.caller; index = self.index; query = self.query; reply = reply } }
    {
        Answered {
            caller: self.caller,
            index: self.index,
            query: self.query,
            reply,
        }
    }
}

// Whose query it is, the query, and the words after the sign.
#[tactic(auto, unfolding(crate::specs::Reading::question_at))]
fn first_question<'a>(words: &'a [&'a [u8]]) -> Option<(Question, &'a [&'a [u8]])>
    ensures { Finds (λ x. (x.0, map (λ w. w.now) x.1.now)) result (question_at (map (λ w. w.now) words.now)) }
{
    let (caller, rest) = first_number(words)?;
    let (index, rest) = first_number(rest)?;
    let (query, rest) = first_query(rest)?;
    let (_, rest) = first_name(rest)?;
    Some((
        Question {
            caller,
            index,
            query,
        },
        rest,
    ))
}

fn said_named(word: &[u8]) -> Option<Said>
    ensures { result ≡ named_said word.now }
{
    if word == b"none".as_slice() {
        Some(Said::Absent)
    } else if word == b"new".as_slice() {
        Some(Said::New)
    } else if word == b"full".as_slice() {
        Some(Said::Full)
    } else if word == b"over".as_slice() {
        Some(Said::Over)
    } else if word == b"yes".as_slice() {
        Some(Said::Yes)
    } else if word == b"moved".as_slice() {
        Some(Said::Moved)
    } else if word == b"same".as_slice() {
        Some(Said::Same)
    } else {
        None
    }
}

// What one word says.
fn said_alone(word: &[u8]) -> Option<Said>
    ensures { result ≡ alone_said word.now }
{
    match word_number(word) {
        Some(n) => Some(Said::Count(n)),
        None => said_named(word),
    }
}

fn said_with(name: &[u8], n: u64) -> Option<Said>
    ensures { result ≡ with_said name.now n }
{
    if name == b"some".as_slice() {
        Some(Said::Found(n))
    } else if name == b"old".as_slice() {
        Some(Said::Old(n))
    } else if name == b"now".as_slice() {
        Some(Said::Now(n))
    } else if name == b"no".as_slice() {
        Some(Said::No(n))
    } else if name == b"new".as_slice() {
        Some(Said::NewCount(n))
    } else if name == b"short".as_slice() {
        Some(Said::Short(n))
    } else {
        None
    }
}

fn said_by_two(name: &[u8], word: &[u8]) -> Option<Said>
    ensures { result ≡ two_said name.now word.now }
{
    if name == b"none".as_slice() {
        Some(Said::Pair(None, None))
    } else {
        said_with(name, word_number(word)?)
    }
}

fn said_by_three(name: &[u8], second: &[u8], third: &[u8]) -> Option<Said>
    ensures { result ≡ three_said name.now second.now third.now }
{
    if name == b"old".as_slice() {
        Some(Said::OldCount(word_number(second)?, word_number(third)?))
    } else if name == b"none".as_slice() {
        Some(Said::Pair(None, Some(word_number(third)?)))
    } else {
        Some(Said::Pair(Some(word_number(second)?), None))
    }
}

fn said_by_four(second: &[u8], fourth: &[u8]) -> Option<Said>
    ensures { result ≡ four_said second.now fourth.now }
{
    Some(Said::Pair(Some(word_number(second)?), Some(word_number(fourth)?)))
}

// What all these words say of the maps.
fn all_said(words: &[&[u8]]) -> Option<Said>
    ensures { result ≡ said_in (map (λ w. w.now) words.now) }
{
    match words {
        [word] => said_alone(word),
        [name, word] => said_by_two(name, word),
        [name, second, third] => said_by_three(name, second, third),
        [_, second, _, fourth] => said_by_four(second, fourth),
        _ => None,
    }
}

// The refusal that all these words tell.
fn refusal(words: &[&[u8]]) -> Option<Reply>
    ensures { result ≡ refusal_in (map (λ w. w.now) words.now) }
{
    match words {
        [_] => Some(Reply::Busy),
        [_, now] => Some(Reply::Late {
            now: word_number(now)?,
        }),
        _ => None,
    }
}

fn result_by_two(name: &[u8], word: &[u8]) -> Option<Result<LedgerTold, LedgerTrouble>>
    ensures { result ≡ two_result name.now word.now }
{
    if name == b"now".as_slice() {
        Some(Ok(LedgerTold::Now(word_number(word)?)))
    } else if name == b"sum".as_slice() {
        Some(Ok(LedgerTold::Sum(wide_number(word)?)))
    } else if word == b"over".as_slice() {
        Some(Err(LedgerTrouble::Over))
    } else {
        Some(Err(LedgerTrouble::Full))
    }
}

// What all these words say of the ledger.
fn all_result(words: &[&[u8]]) -> Option<Result<LedgerTold, LedgerTrouble>>
    ensures { result ≡ result_in (map (λ w. w.now) words.now) }
{
    match words {
        [name, word] => result_by_two(name, word),
        [_, _, had] => Some(Err(LedgerTrouble::Short(word_number(had)?))),
        _ => None,
    }
}

#[tactic(auto, unfolding(crate::specs::Reading::placed_in))]
fn placed(words: &[&[u8]]) -> Option<Answered>
    ensures { Finds (λ x. x) result (placed_in (map (λ w. w.now) words.now)) }
{
    let (place, rest) = first_number(words)?;
    let (question, rest) = first_question(rest)?;
    let said = all_said(rest)?;
    Some(question.with(Reply::Placed { place, said }))
}

#[tactic(auto, unfolding(crate::specs::Reading::refused_in))]
fn refused(words: &[&[u8]]) -> Option<Answered>
    ensures { Finds (λ x. x) result (refused_in (map (λ w. w.now) words.now)) }
{
    let (question, rest) = first_question(words)?;
    let reply = refusal(rest)?;
    Some(question.with(reply))
}

#[tactic(auto, unfolding(crate::specs::Reading::job_in))]
fn job(words: &[&[u8]]) -> Option<Answered>
    ensures { Finds (λ x. x) result (job_in (map (λ w. w.now) words.now)) }
{
    let (at, rest) = first_number(words)?;
    let (question, rest) = first_question(rest)?;
    let told = all_result(rest)?;
    Some(question.with(Reply::Job { at, result: told }))
}

// What the rest of a line says, by its first word.
#[tactic(auto, unfolding(crate::specs::Reading::kind_in))]
fn by_kind(kind: &[u8], words: &[&[u8]]) -> Option<Answered>
    ensures { Finds (λ x. x) result (kind_in kind.now (map (λ w. w.now) words.now)) }
{
    if kind == b"map".as_slice() {
        placed(words)
    } else if kind == b"ref".as_slice() {
        refused(words)
    } else if kind == b"job".as_slice() {
        job(words)
    } else {
        None
    }
}

/// What a line's words say. It is lenient: it may take words that no line has, and what it answers is to be written
/// again and compared.
pub fn answered(words: &[&[u8]]) -> Option<Answered>
    ensures { Finds (λ x. x) result (answered_in (map (λ w. w.now) words.now)) }
{
    match words {
        [kind, rest @ ..] => by_kind(kind, rest),
        [] => None,
    }
}

/// The numbers of the second line, read as leniently.
#[tactic(auto, unfolding(crate::specs::Reading::tables_in))]
pub fn tables(words: &[&[u8]]) -> Option<(u64, u64, u64)>
    ensures { Finds (λ x. (x.0, x.1, x.2)) result (tables_in (map (λ w. w.now) words.now)) }
{
    let (_, rest) = first_name(words)?;
    let (cells, rest) = first_number(rest)?;
    let (_, rest) = first_name(rest)?;
    let (rows, rest) = first_number(rest)?;
    let (_, rest) = first_name(rest)?;
    let (callers, _) = first_number(rest)?;
    Some((cells, rows, callers))
}
