//! Short jobs, and the distributed lock that runs them.
ghost use Rattle.std.specs.Prelude.{◌≡◌, ◌+◌};

use combine_job::job::{Job, Room};
use dist_mutex::mutex::DistMutex;
use dist_mutex::pass::DistPass;

/// What the jobs count, and how many of them there may yet be.
#[derive(Drop)]
pub struct Counter {
    pub count: u64,
    pub left: u64,
}

impl Room for Counter {
    ghost rooms = { λ counter. counter.left };

    fn room(&self) -> u64 {
        self.left
    }
}

/// Adds one, up to 2^64 - 1.
#[derive(Drop)]
pub struct Add;

impl Job<Counter> for Add {
    type Out = u64;

    type Fault = ();

    ghost means = { λ v j r w. w.left + 1 ≡ v.left };

    ghost is_ready = { λ j. Unit {0} };

    fn run(self, value: &mut Counter) -> Result<u64, ()> {
        value.left -= 1;
        value.count = value.count.saturating_add(1);
        Ok(value.count)
    }
}

/// The distributed lock over a counter.
pub type Desk = DistMutex<Counter, Add>;

/// A pass of it.
pub type Clerk = DistPass<Counter, Add>;
