//! Clocks that go through a list.
ghost use Rattle.std.specs.Prelude.{◌≡◌, ◌<◌, ℕ, List, length};
ghost use Rattle.ql_base.specs.Answers.{AddsAnswer, answer_at};
ghost use Rattle.ql_base.specs.Causes.{count_after};
ghost use Rattle.ql_base.specs.Listed.{ClockState, fresh_clock, told_answers};

use crate::{Clock, Clocks};
use std::marker::Model;

/// How far a clock has come in its list.
#[derive(Clone, Copy)]
struct Place {
    calls: u64,
    last: u64,
}

impl Place {
    fn first() -> Self
        ensures { result ≡ record { calls = 0; last = 0 } }
    {
        Place { calls: 0, last: 0 }
    }

    // The next answer. The last one of the list comes again and again.
    fn next(&mut self, answers: &[u64]) -> u64
        requires { 0 < length answers.now }
        ensures answer { result ≡ answer_at answers.now self.old.calls }
        ensures calls { self.new.calls ≡ count_after self.old.calls }
        ensures last { self.new.last ≡ result }
    {
        let index = (self.calls as usize).min(answers.len() - 1);
        self.last = answers[index];
        self.calls = self.calls.saturating_add(1);
        self.last
    }
}

/// A clock that gives the answers of a list in order, the last one again and again. It tells them until it has been
/// called 2^64 - 1 times.
#[derive(Drop)]
pub struct ListClock {
    answers: Vec<u64>,
    place: Place,
}

impl Model for ListClock {
    ghost Value = { ClockState };

    ghost view = { λ c.
        record { listed = c.answers.items; calls = c.place.calls; last = c.place.last } };

    ghost invariant = { λ c. 0 < length c.answers.items };
}

impl ListClock {
    pub fn new(answers: Vec<u64>) -> Self
        requires { 0 < length answers.items }
        ensures { result ≡ fresh_clock answers.items }
    {
        ListClock {
            answers,
            place: Place::first(),
        }
    }
}

impl Clock for ListClock {
    ghost last = { λ c. c.last };

    ghost answers = { told_answers };

    fn now(&mut self) -> u64
        ensures last { self.new.last ≡ result }
        ensures answers { AddsAnswer (told_answers self.old) (told_answers self.new) result }
        ensures answer { result ≡ answer_at self.old.listed self.old.calls }
        ensures calls { self.new.calls ≡ count_after self.old.calls }
        ensures listed { self.new.listed ≡ self.old.listed }
    {
        self.place.next(&self.answers)
    }
}

/// The clock that [`ListClocks`] gives a caller. It is a [`ListClock`] over a list that is borrowed.
#[derive(Drop)]
pub struct SliceClock<'a> {
    answers: &'a [u64],
    place: Place,
}

impl<'a> Model for SliceClock<'a> {
    ghost Value = { ClockState };

    ghost view = { λ c.
        record { listed = c.answers.now; calls = c.place.calls; last = c.place.last } };

    ghost invariant = { λ c. 0 < length c.answers.now };
}

impl<'a> Clock for SliceClock<'a> {
    ghost last = { λ c. c.last };

    ghost answers = { told_answers };

    fn now(&mut self) -> u64
        ensures last { self.new.last ≡ result }
        ensures answers { AddsAnswer (told_answers self.old) (told_answers self.new) result }
        ensures answer { result ≡ answer_at self.old.listed self.old.calls }
        ensures calls { self.new.calls ≡ count_after self.old.calls }
        ensures listed { self.new.listed ≡ self.old.listed }
    {
        self.place.next(self.answers)
    }
}

/// Gives each caller a clock of its own over the same list.
#[derive(Drop)]
pub struct ListClocks<'a> {
    answers: &'a [u64],
}

impl<'a> Model for ListClocks<'a> {
    ghost Value = { List ℕ };

    ghost view = { λ c. c.answers.now };

    ghost invariant = { λ c. 0 < length c.answers.now };
}

impl<'a> ListClocks<'a> {
    pub fn new(answers: &'a [u64]) -> Self
        requires { 0 < length answers.now }
        ensures { result ≡ answers.now }
    {
        ListClocks { answers }
    }
}

impl<'a> Clocks for ListClocks<'a> {
    type Clock = SliceClock<'a>;

    fn clock(&self, _caller: u64) -> SliceClock<'a>
        ensures { result ≡ fresh_clock self.now }
    {
        SliceClock {
            answers: self.answers,
            place: Place::first(),
        }
    }
}
