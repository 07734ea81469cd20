//! Replies as they are kept until the log is written: half as many bytes each.
ghost use Rattle.std.specs.Prelude.{◌≡◌, ◌+◌, ◌*◌, ◌^◌};
ghost use Rattle.query_rules.specs.declared.query.Said.TheVariants.{Pair};
ghost use Rattle.query_rules.specs.declared.query.Reply.TheVariants.{Placed, Job};
ghost use Rattle.query_text.specs.Kept.{reply_in};

use query_rules::{LedgerTold, LedgerTrouble, Reply, Said};
use std::marker::Model;

/// How many numbers 64 bits write.
const WORD: u128 = 1 << 64;

/// A reply in 32 bytes, where a [`Reply`] takes 64: what it says is in one list of cases, so that no case has a second
/// tag, and a sum of the ledger lies in two halves, so that nothing has to begin at a multiple of 16 bytes.
#[derive(Debug, Drop)]
pub struct KeptReply {
    form: Form,
}

impl Model for KeptReply {
    ghost use Rattle.query_rules.specs.declared.query.Reply.{Reply};
    ghost use Rattle.query_text.specs.Kept.{reply_in};

    ghost Value = { Reply };

    ghost view = { λ k. reply_in k.form };
}

// What was replied. Each case of the maps has its place, and each of the ledger its position.
#[derive(Clone, Copy, Debug)]
enum Form {
    Found { place: u64, value: u64 },
    Absent { place: u64 },
    Count { place: u64, n: u64 },
    New { place: u64 },
    Old { place: u64, value: u64 },
    Full { place: u64 },
    Now { place: u64, value: u64 },
    Over { place: u64 },
    Yes { place: u64 },
    No { place: u64, value: u64 },
    NewCount { place: u64, n: u64 },
    OldCount { place: u64, value: u64, n: u64 },
    Moved { place: u64 },
    Short { place: u64, value: u64 },
    Same { place: u64 },
    // the four pairs: which of the two cells has a value
    Neither { place: u64 },
    First { place: u64, first: u64 },
    Second { place: u64, second: u64 },
    Both { place: u64, first: u64, second: u64 },
    Busy,
    Late { now: u64 },
    Balance { at: u64, n: u64 },
    // a sum is `high * 2^64 + low`
    Sum { at: u64, high: u64, low: u64 },
    LedgerOver { at: u64 },
    LedgerFull { at: u64 },
    LedgerShort { at: u64, n: u64 },
}

impl KeptReply {
    /// The reply, kept.
    pub fn of(reply: Reply) -> Self
        ensures { result ≡ reply }
    {
        let form = match reply {
            Reply::Placed { place, said } => form_of_said(place, said),
            Reply::Busy => Form::Busy,
            Reply::Late { now } => Form::Late { now },
            Reply::Job { at, result: answer } => form_of_answer(at, answer),
        };
        KeptReply { form }
    }

    /// The reply that is kept. Where only a part of it is looked at, the rest isn't made.
    #[inline(always)]
    pub fn reply(&self) -> Reply
        ensures { result ≡ self.now }
    {
        match self.form {
            Form::Found { place, value } => placed(place, Said::Found(value)),
            Form::Absent { place } => placed(place, Said::Absent),
            Form::Count { place, n } => placed(place, Said::Count(n)),
            Form::New { place } => placed(place, Said::New),
            Form::Old { place, value } => placed(place, Said::Old(value)),
            Form::Full { place } => placed(place, Said::Full),
            Form::Now { place, value } => placed(place, Said::Now(value)),
            Form::Over { place } => placed(place, Said::Over),
            Form::Yes { place } => placed(place, Said::Yes),
            Form::No { place, value } => placed(place, Said::No(value)),
            Form::NewCount { place, n } => placed(place, Said::NewCount(n)),
            Form::OldCount { place, value, n } => placed(place, Said::OldCount(value, n)),
            Form::Moved { place } => placed(place, Said::Moved),
            Form::Short { place, value } => placed(place, Said::Short(value)),
            Form::Same { place } => placed(place, Said::Same),
            Form::Neither { place } => placed(place, Said::Pair(None, None)),
            Form::First { place, first } => placed(place, Said::Pair(Some(first), None)),
            Form::Second { place, second } => placed(place, Said::Pair(None, Some(second))),
            Form::Both {
                place,
                first,
                second,
            } => placed(place, Said::Pair(Some(first), Some(second))),
            Form::Busy => Reply::Busy,
            Form::Late { now } => Reply::Late { now },
            Form::Balance { at, n } => job(at, Ok(LedgerTold::Now(n))),
            Form::Sum { at, high, low } => job(at, Ok(LedgerTold::Sum(sum_of(high, low)))),
            Form::LedgerOver { at } => job(at, Err(LedgerTrouble::Over)),
            Form::LedgerFull { at } => job(at, Err(LedgerTrouble::Full)),
            Form::LedgerShort { at, n } => job(at, Err(LedgerTrouble::Short(n))),
        }
    }
}

#[inline(always)]
fn placed(place: u64, said: Said) -> Reply
    ensures { result ≡ Placed place said }
{
    Reply::Placed { place, said }
}

#[inline(always)]
fn job(at: u64, answer: Result<LedgerTold, LedgerTrouble>) -> Reply
    ensures { result ≡ Job at answer }
{
    Reply::Job { at, result: answer }
}

// The sum with these halves.
fn sum_of(high: u64, low: u64) -> u128
    ensures { result ≡ high * 2 ^ 64 + low }
{
    high as u128 * WORD + low as u128
}

// What the maps said.
#[inline(always)]
fn form_of_said(place: u64, said: Said) -> Form
    ensures { reply_in result ≡ Placed place said }
{
    match said {
        Said::Found(value) => Form::Found { place, value },
        Said::Absent => Form::Absent { place },
        Said::Count(n) => Form::Count { place, n },
        Said::New => Form::New { place },
        Said::Old(value) => Form::Old { place, value },
        Said::Full => Form::Full { place },
        Said::Now(value) => Form::Now { place, value },
        Said::Over => Form::Over { place },
        Said::Yes => Form::Yes { place },
        Said::No(value) => Form::No { place, value },
        Said::NewCount(n) => Form::NewCount { place, n },
        Said::OldCount(value, n) => Form::OldCount { place, value, n },
        Said::Moved => Form::Moved { place },
        Said::Short(value) => Form::Short { place, value },
        Said::Same => Form::Same { place },
        Said::Pair(first, second) => form_of_pair(place, first, second),
    }
}

// What two cells have.
fn form_of_pair(place: u64, first: Option<u64>, second: Option<u64>) -> Form
    ensures { reply_in result ≡ Placed place (Pair first second) }
{
    match (first, second) {
        (None, None) => Form::Neither { place },
        (Some(first), None) => Form::First { place, first },
        (None, Some(second)) => Form::Second { place, second },
        (Some(first), Some(second)) => Form::Both {
            place,
            first,
            second,
        },
    }
}

// What the ledger answered.
fn form_of_answer(at: u64, answer: Result<LedgerTold, LedgerTrouble>) -> Form
    ensures { reply_in result ≡ Job at answer }
{
    match answer {
        Ok(LedgerTold::Now(n)) => Form::Balance { at, n },
        Ok(LedgerTold::Sum(n)) => Form::Sum {
            at,
            high: (n / WORD) as u64,
            low: (n % WORD) as u64,
        },
        Err(LedgerTrouble::Over) => Form::LedgerOver { at },
        Err(LedgerTrouble::Full) => Form::LedgerFull { at },
        Err(LedgerTrouble::Short(n)) => Form::LedgerShort { at, n },
    }
}
