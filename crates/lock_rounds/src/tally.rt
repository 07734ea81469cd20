//! How the readers of a shared lock came in.
ghost use Rattle.std.specs.Prelude.{◌≡◌, ◌+◌, ◌<◌, ◌^◌};
ghost use Rattle.lock_rounds.specs.Tallies.{both, came_in, noted};

use hall::Form;

/// How many readers came in, and how.
#[derive(Clone, Copy, Default)]
pub struct Tally {
    /// By a token in a slot.
    pub deferred: u64,
    /// By the count in the lock's word.
    pub counted: u64,
}

impl Tally {
    /// Counts one more.
    pub fn note(&mut self, form: Form)
        requires room { came_in self.old + 1 < 2 ^ 64 }
        ensures { self.new ≡ noted form self.old }
    {
        match form {
            Form::Deferred { slot: _ } => self.deferred += 1,
            Form::Inline { why: _ } | Form::Lowered => self.counted += 1,
        }
    }

    /// The readers of both.
    pub fn and(self, other: Tally) -> Tally
        requires room { came_in self + came_in other < 2 ^ 64 }
        ensures { result ≡ both self other }
    {
        Tally {
            deferred: self.deferred + other.deferred,
            counted: self.counted + other.counted,
        }
    }
}
