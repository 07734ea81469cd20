//! A closure as a job.
ghost use Rattle.std.specs.Prelude.{◌≡◌};
ghost use Rattle.combine_job.specs.Once.{IsReadyOnce};

use crate::job::{Job, Room};
use std::marker::PhantomData;

/// A closure that runs once on a value. Its plain meaning is what the closure's own contract says of its answer. It is
/// ready where the closure may be called on each value that has room, and leaves at least the room less 1.
#[derive(Drop)]
pub struct OnceJob<F, O, X> {
    run: F,
    answer: PhantomData<(O, X)>,
}

impl<F, O, X> OnceJob<F, O, X> {
    /// The job that calls `run`.
    pub fn new<V: Room>(run: F) -> OnceJob<F, O, X>
    where
        F: FnOnce(&mut V) -> Result<O, X>,
        requires ready { IsReadyOnce V.rooms F.FnOnce run }
        ensures ready { IsReadyOnce V.rooms F.FnOnce result.run }
        ensures kept { result.run ≡ run }
    {
        OnceJob {
            run,
            answer: PhantomData,
        }
    }
}

impl<V: Room, F: FnOnce(&mut V) -> Result<O, X> + Drop, O: Drop, X: Drop> Job<V>
    for OnceJob<F, O, X> {
    ghost use Rattle.std.specs.Fn.{FnOnceReturnsAtMut};
    ghost use Rattle.combine_job.specs.Once.{IsReadyOnce};

    type Out = O;

    type Fault = X;

    ghost means = { λ v j r w. FnOnceReturnsAtMut F.FnOnce j.run v r w };

    ghost is_ready = { λ j. IsReadyOnce V.rooms F.FnOnce j.run };

    fn run(self, value: &mut V) -> Result<O, X> {
        let OnceJob { run, answer: _ } = self;
        run(value)
    }
}
