//! Clocks.
ghost use Rattle.std.specs.Prelude.{◌≡◌, List, ℕ};
ghost use Rattle.std.specs.declared.option.Option.{Option};
ghost use Rattle.ql_base.specs.Answers.{AddsAnswer};

/// What is asked for the time, one caller's own.
///
/// Nothing says that the answers rise.
pub trait Clock: Send {
    /// The latest answer.
    ghost last: { Self → ℕ };

    /// All answers so far, oldest first, where the clock tells them.
    ghost answers: { Self → Option (List ℕ) };

    /// The time, in the clock's own unit (milliseconds for the real clock).
    fn now(&mut self) -> u64
        ensures last { last self.new ≡ result }

        // Where the answers are told now they were told before, and this one was added at the end.
        ensures answers { AddsAnswer (answers self.old) (answers self.new) result };
}

/// What gives each caller a clock of its own.
pub trait Clocks: Sync {
    type Clock: Clock + Drop;

    /// A clock for the caller with this number.
    fn clock(&self, caller: u64) -> Self::Clock;
}
