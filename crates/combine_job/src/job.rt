//! A job runs once on a value that has room for it.

/// A value that jobs run on.
pub trait Room: Drop {
    ghost use Rattle.std.specs.Prelude.{◌≡◌, ℕ};

    ghost rooms: { Self → ℕ };

    /// How many jobs it can still take.
    fn room(&self) -> u64
        ensures { result ≡ rooms self.now };
}

/// A job on a `V`, with the plain meaning `means`: of the value before, the job, what it answers and the value
/// afterwards. An `Err` is an answer like an `Ok`. `is_ready` is what must be known of a job before it runs: most jobs
/// are always ready, and a closure is where it may be called on each value that has room.
pub trait Job<V: Room>: Drop {
    ghost use Rattle.std.specs.Prelude.{◌≡◌, ℕ, ◌+◌, ◌≤◌, Result};

    type Out: Drop;

    type Fault: Drop;

    ghost means: { V → Self → Result Self.Out Self.Fault → V → Type 0 };

    ghost is_ready: { Self → Type 0 };

    /// Runs it. The room falls by at most 1.
    fn run(self, value: &mut V) -> Result<Self::Out, Self::Fault>
        requires room { 1 ≤ V.rooms value.old }
        requires ready { is_ready self }
        ensures meaning { means value.old self result value.new }
        ensures room { V.rooms value.old ≤ V.rooms value.new + 1 };
}
