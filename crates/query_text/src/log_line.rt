//! A line of a log, made word by word.
ghost use Rattle.std.specs.Prelude.{◌≡◌, ◌+◌, ◌*◌, ◌<◌, ◌≤◌, [], ◌∷◌, ◌++◌, length, map, decimal};
ghost use Rattle.ql_base.specs.Bytes.{Writes};
ghost use Rattle.ql_base.specs.Causes.{HasCause};
ghost use Rattle.query_rules.specs.Log.{said_words, found_words, ledger_words, reply_words, answer_line, number_line};
ghost use Rattle.query_rules.specs.Verbs.{query_words, verb_word};
ghost use Rattle.query_text.specs.Spaced.{spaced, placed_bytes};

use crate::digits::count_digits;
use itoa::{Buffer, write_digits};
use ql_base::{Failed, Sink, write_whole};
use query_rules::{LedgerTold, LedgerTrouble, Query, Reply, Said, Verb};
use std::marker::Model;

/// The most bytes that a line has, its end among them.
const MOST_BYTES: usize = 255;

/// A line that is being made, without its end. It has room for 255 bytes, and lives on the stack.
#[derive(Drop)]
pub struct Line {
    bytes: [u8; MOST_BYTES],
    // how many of the bytes are the line; the others are of lines before it
    len: usize,
}

impl Model for Line {
    ghost use Rattle.std.specs.Prelude.{◌≤◌, List, ℕ, take};

    ghost Value = { List ℕ };

    ghost view = { λ l. take l.len l.bytes };

    ghost invariant = { λ l. l.len ≤ 255 };
}

impl Line {
    /// A line that begins with this word.
    pub fn new(word: &[u8]) -> Self
        requires { length word.now ≤ 20 }
        ensures { result ≡ word.now }
    {
        let mut line = Line {
            bytes: [0; MOST_BYTES],
            len: 0,
        };
        line.append(word);
        line
    }

    // Makes it a line that begins with this word, in the place of what it was.
    fn restart(&mut self, word: &[u8])
        requires { length word.now ≤ 20 }
        ensures { self.new ≡ word.now }
    {
        self.len = 0;
        self.append(word);
    }

    /// The bytes of the line so far.
    pub fn as_bytes(&self) -> &[u8]
        ensures { result.now ≡ self.now }
    {
        &self.bytes[..self.len]
    }

    // Adds bytes as they are.
    #[inline(always)]
    fn append(&mut self, bytes: &[u8])
        requires { length self.old + length bytes.now ≤ 255 }
        ensures { self.new ≡ self.old ++ bytes.now }
    {
        let end = self.len + bytes.len();
        self.bytes[self.len..end].copy_from_slice(bytes);
        self.len = end;
    }

    /// Adds a word, behind a space. Where the word is known, its bytes are moved without a call.
    #[inline(always)]
    pub fn word(&mut self, word: &[u8])
        requires { length self.old + length word.now < 254 }
        ensures line { self.new ≡ self.old ++ 32 ∷ word.now }
        ensures len { length self.new ≡ length self.old + 1 + length word.now }
    {
        self.append(b" ");
        self.append(word);
    }

    /// Adds a number, behind a space.
    pub fn number(&mut self, n: u64)
        requires { length self.old < 234 }
        ensures line { self.new ≡ self.old ++ 32 ∷ decimal n }
        ensures len { length self.new ≤ length self.old + 21 }
    {
        self.append(b" ");
        self.digits(n);
    }

    // Adds a number as it is.
    fn digits(&mut self, n: u64)
        requires { length self.old < 235 }
        ensures { self.new ≡ self.old ++ decimal n }
    {
        if n < 10 {
            self.append(&[b'0' + n as u8]);
        } else {
            self.many_digits(n);
        }
    }

    // Adds a number of any length. Its digits are written where they stay.
    fn many_digits(&mut self, n: u64)
        requires { length self.old < 235 }
        ensures { self.new ≡ self.old ++ decimal n }
    {
        let end = self.len + count_digits(n);
        write_digits(n, &mut self.bytes, end);
        self.len = end;
    }

    // Adds a sum, which may be twice as wide as a number.
    fn wide_number(&mut self, n: u128)
        requires { length self.old < 200 }
        ensures line { self.new ≡ self.old ++ 32 ∷ decimal n }
        ensures len { length self.new ≤ length self.old + 40 }
    {
        let mut buffer = Buffer::new();
        self.word(buffer.format(n).as_bytes());
    }

    // Adds numbers, each behind a space.
    #[inline(always)]
    fn numbers(&mut self, numbers: &[u64])
        requires { length self.old + 21 * length numbers.now < 250 }
        ensures line { self.new ≡ self.old ++ spaced (map decimal numbers.now) }
        ensures len { length self.new ≤ length self.old + 21 * length numbers.now }
    {
        let mut rest = numbers;
        while let [n, after @ ..] = rest {
            self.number(*n);
            rest = after;
        }
    }

    // Adds a name and the numbers that follow it.
    #[inline(always)]
    fn call(&mut self, name: &[u8], numbers: &[u64])
        requires { length self.old + length name.now + 21 * length numbers.now < 248 }
        ensures line { self.new ≡ self.old ++ spaced (name.now ∷ map decimal numbers.now) }
        ensures len { length self.new ≤ length self.old + 1 + length name.now + 21 * length numbers.now }
    {
        self.word(name);
        self.numbers(numbers);
    }

    // Adds the name of a query and its numbers.
    #[inline(always)]
    fn asked(&mut self, verb: Verb, numbers: &[u64])
        requires { length self.old + length (verb_word verb) + 21 * length numbers.now < 248 }
        ensures line { self.new ≡ self.old ++ spaced (verb_word verb ∷ map decimal numbers.now) }
        ensures len { length self.new ≤ length self.old + 1 + length (verb_word verb) + 21 * length numbers.now }
    {
        self.call(verb.word(), numbers);
    }

    /// Adds the words of a query.
    pub fn query(&mut self, query: &Query)
        requires { length self.old ≤ 100 }
        ensures line { self.new ≡ self.old ++ spaced (query_words query.now) }
        ensures len { length self.new ≤ length self.old + 91 }
    {
        match *query {
            Query::Get { cell, key } => self.asked(Verb::Get, &[cell, key]),
            Query::Len { cell } => self.asked(Verb::Len, &[cell]),
            Query::Put { cell, key, value } => self.asked(Verb::Put, &[cell, key, value]),
            Query::Del { cell, key } => self.asked(Verb::Del, &[cell, key]),
            Query::Add { cell, key, delta } => self.asked(Verb::Add, &[cell, key, delta]),
            Query::Cas {
                cell,
                key,
                old,
                new,
            } => self.asked(Verb::Cas, &[cell, key, old, new]),
            Query::PutLen { cell, key, value } => self.asked(Verb::PutLen, &[cell, key, value]),
            Query::Move { from, to, key, n } => self.asked(Verb::Move, &[from, to, key, n]),
            Query::Both { first, second, key } => self.asked(Verb::Both, &[first, second, key]),
            Query::TryGet { cell, key } => self.asked(Verb::TryGet, &[cell, key]),
            Query::TryPut { cell, key, value } => self.asked(Verb::TryPut, &[cell, key, value]),
            Query::GetBy {
                cell,
                key,
                deadline,
            } => self.asked(Verb::GetBy, &[cell, key, deadline]),
            Query::PutBy {
                cell,
                key,
                value,
                deadline,
            } => self.asked(Verb::PutBy, &[cell, key, value, deadline]),
            Query::Give { key, n } => self.asked(Verb::Give, &[key, n]),
            Query::Take { key, n } => self.asked(Verb::Take, &[key, n]),
            Query::Audit => self.asked(Verb::Audit, &[]),
        }
    }

    // Adds what one cell has of a key.
    fn found(&mut self, value: Option<u64>)
        requires { length self.old ≤ 220 }
        ensures line { self.new ≡ self.old ++ spaced (found_words value) }
        ensures len { length self.new ≤ length self.old + 26 }
    {
        match value {
            Some(value) => self.call(b"some", &[value]),
            None => self.call(b"none", &[]),
        }
    }

    // Adds what was said.
    fn said(&mut self, said: Said)
        requires { length self.old ≤ 190 }
        ensures line { self.new ≡ self.old ++ spaced (said_words said) }
        ensures len { length self.new ≤ length self.old + 60 }
    {
        match said {
            Said::Found(value) => self.call(b"some", &[value]),
            Said::Absent => self.call(b"none", &[]),
            Said::Count(n) => self.numbers(&[n]),
            Said::New => self.call(b"new", &[]),
            Said::Old(value) => self.call(b"old", &[value]),
            Said::Full => self.call(b"full", &[]),
            Said::Now(value) => self.call(b"now", &[value]),
            Said::Over => self.call(b"over", &[]),
            Said::Yes => self.call(b"yes", &[]),
            Said::No(value) => self.call(b"no", &[value]),
            Said::NewCount(n) => self.call(b"new", &[n]),
            Said::OldCount(value, n) => self.call(b"old", &[value, n]),
            Said::Moved => self.call(b"moved", &[]),
            Said::Short(value) => self.call(b"short", &[value]),
            Said::Same => self.call(b"same", &[]),
            Said::Pair(first, second) => {
                self.found(first);
                self.found(second);
            }
        }
    }

    // Adds what the ledger answered.
    fn ledger(&mut self, answer: Result<LedgerTold, LedgerTrouble>)
        requires { length self.old ≤ 190 }
        ensures line { self.new ≡ self.old ++ spaced (ledger_words answer) }
        ensures len { length self.new ≤ length self.old + 60 }
    {
        match answer {
            Ok(LedgerTold::Now(n)) => self.call(b"now", &[n]),
            Ok(LedgerTold::Sum(n)) => {
                self.word(b"sum");
                self.wide_number(n);
            }
            Err(LedgerTrouble::Over) => {
                self.word(b"err");
                self.word(b"over");
            }
            Err(LedgerTrouble::Full) => {
                self.word(b"err");
                self.word(b"full");
            }
            Err(LedgerTrouble::Short(n)) => {
                self.word(b"err");
                self.call(b"short", &[n]);
            }
        }
    }

    /// Adds what was replied.
    pub fn reply(&mut self, reply: Reply)
        requires { length self.old ≤ 190 }
        ensures line { self.new ≡ self.old ++ spaced (reply_words reply) }
        ensures len { length self.new ≤ length self.old + 60 }
    {
        match reply {
            Reply::Placed { said, .. } => self.said(said),
            Reply::Busy => self.call(b"busy", &[]),
            Reply::Late { now } => self.call(b"late", &[now]),
            Reply::Job { result: answer, .. } => self.ledger(answer),
        }
    }

    // Makes it a line that begins with a name and a number.
    fn restart_at(&mut self, name: &[u8], n: u64)
        requires { length name.now ≤ 20 }
        ensures line { self.new ≡ name.now ++ 32 ∷ decimal n }
        ensures len { length self.new ≤ length name.now + 21 }
    {
        self.restart(name);
        self.number(n);
    }

    // Makes it a line that begins with the section of a reply, and where it stands there.
    fn place(&mut self, reply: Reply)
        ensures line { self.new ≡ placed_bytes reply }
        ensures len { length self.new ≤ 24 }
    {
        match reply {
            Reply::Placed { place, .. } => self.restart_at(b"map", place),
            Reply::Busy | Reply::Late { .. } => self.restart(b"ref"),
            Reply::Job { at, .. } => self.restart_at(b"job", at),
        }
    }

    // Ends the line and writes it, as one piece.
    fn end<K: Sink>(&mut self, sink: &mut K) -> Result<(), Failed>
        requires { length self.old < 255 }
        ensures bytes { Writes (K.written sink.old) (K.written sink.new) result (self.old ++ 10 ∷ []) }
        ensures cause { HasCause (K.faults sink.old) (K.faults sink.new) result }
    {
        self.append(b"\n");
        write_whole(sink, self.as_bytes())
    }

    /// Writes the line and its end, as one piece.
    pub fn write<K: Sink>(mut self, sink: &mut K) -> Result<(), Failed>
        requires { length self < 255 }
        ensures bytes { Writes (K.written sink.old) (K.written sink.new) result (self ++ 10 ∷ []) }
        ensures cause { HasCause (K.faults sink.old) (K.faults sink.new) result }
    {
        self.end(sink)
    }
}

/// Writes the line of one reply. Its bytes are gathered in `line`, in the place of what stood there.
pub fn write_answer<K: Sink>(
    sink: &mut K,
    line: &mut Line,
    caller: u64,
    index: u64,
    query: &Query,
    reply: Reply,
) -> Result<(), Failed>
    ensures bytes { Writes (K.written sink.old) (K.written sink.new) result (answer_line caller index query.now reply) }
    ensures cause { HasCause (K.faults sink.old) (K.faults sink.new) result }
{
    line.place(reply);
    line.number(caller);
    line.number(index);
    line.query(query);
    line.word(b"=");
    line.reply(reply);
    line.end(sink)
}

/// Writes a line of a name and a number.
#[tactic(auto, unfolding(query_rules::specs::Log::number_line))]
pub fn write_number<K: Sink>(sink: &mut K, name: &[u8], n: u64) -> Result<(), Failed>
    requires { length name.now ≤ 20 }
    ensures bytes { Writes (K.written sink.old) (K.written sink.new) result (number_line name.now n) }
    ensures cause { HasCause (K.faults sink.old) (K.faults sink.new) result }
{
    let mut line = Line::new(name);
    line.number(n);
    line.write(sink)
}

/// Writes a line of a name and a sum, which may be twice as wide as a number.
#[tactic(auto, unfolding(query_rules::specs::Log::number_line))]
pub fn write_sum<K: Sink>(sink: &mut K, name: &[u8], n: u128) -> Result<(), Failed>
    requires { length name.now ≤ 20 }
    ensures bytes { Writes (K.written sink.old) (K.written sink.new) result (number_line name.now n) }
    ensures cause { HasCause (K.faults sink.old) (K.faults sink.new) result }
{
    let mut line = Line::new(name);
    line.wide_number(n);
    line.write(sink)
}
