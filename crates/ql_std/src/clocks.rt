//! Clocks over the system's.
ghost use Rattle.std.specs.Prelude.{◌≡◌, ℕ, None};

use ql_base::{Clock, Clocks};
use std::marker::Model;
use std::time;
use std::time::Instant;

/// Gives callers clocks that answer the milliseconds since it was made.
#[derive(Drop)]
pub struct StdClocks<'a, R> {
    system: &'a R,
    start: Option<Instant>,
}

impl<'a, R: time::Clock> StdClocks<'a, R> {
    /// Takes the time from this handle, and begins at 0 now.
    pub fn new(system: &'a R) -> Self {
        StdClocks {
            system,
            start: Instant::now(system).ok(),
        }
    }
}

impl<'a, R: time::Clock + Sync> Clocks for StdClocks<'a, R> {
    type Clock = StdClock<'a, R>;

    fn clock(&self, _caller: u64) -> StdClock<'a, R>
        ensures { result ≡ 0 }
    {
        StdClock {
            system: self.system,
            start: self.start,
            last: 0,
        }
    }
}

/// A clock that answers the milliseconds since its [`StdClocks`] was made. Contracts see its latest answer alone, which
/// is 0 before the first.
///
/// Where the system's clock can't be read it answers 2^64 - 1, so that no caller waits for a time that never comes.
#[derive(Drop)]
pub struct StdClock<'a, R> {
    system: &'a R,
    start: Option<Instant>,
    last: u64,
}

impl<'a, R> Model for StdClock<'a, R> {
    ghost Value = { ℕ };

    ghost view = { λ c. c.last };
}

impl<'a, R: time::Clock + Sync> Clock for StdClock<'a, R> {
    ghost last = { λ c. c };

    ghost answers = { λ _. None };

    fn now(&mut self) -> u64 {
        self.last = milliseconds_since(self.system, self.start).unwrap_or(u64::MAX);
        self.last
    }
}

// None where the clock can't be read, or couldn't be at the start.
fn milliseconds_since(system: &impl time::Clock, start: Option<Instant>) -> Option<u64> {
    let elapsed = Instant::now(system).ok()?.duration_since(start?);
    u64::try_from(elapsed.as_millis()).ok()
}
