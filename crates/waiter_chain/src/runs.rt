//! The jobs that an owner runs for itself in one ownership.
ghost use Rattle.std.specs.Prelude.{◌≡◌, ◌+◌, ◌<◌, ◌≤◌, ◌^◌, List, [], ◌∷◌, ◌++◌, length};
ghost use Rattle.std.specs.Borrow.{ftrue};

use std::marker::{Model, PhantomData};
use std::snapshot::Snapshot;

/// A history that only proofs read: each job that ran, with its answer, the first one first. It has no bytes, and its
/// calls do nothing at run time. A clause reads the pairs as `items`.
#[derive(Drop)]
pub struct RunLog<P> {
    of: PhantomData<P>,
    pub ghost items: { List (P × P) },
}

impl<P> Model for RunLog<P> {
    ghost also_owns = { λ _. ftrue };
}

// It owns nothing.
unsafe impl<P: Send> Send for RunLog<P> {}

impl<P> RunLog<P> {
    /// No job has run.
    pub fn new() -> RunLog<P>
        ensures { result.items ≡ [] }
    {
        RunLog { of: PhantomData }
    }

    /// One job more, with its answer.
    pub fn and(&self, job: &Snapshot<P>, answer: &Snapshot<P>) -> RunLog<P>
        ensures { result.items ≡ self.now.items ++ (job.now.value, answer.now.value) ∷ [] }
    {
        RunLog { of: PhantomData }
    }
}

/// The jobs that an owner has run for itself in its present ownership: for the proofs which, each with its answer, and
/// how many of them it pays for as the ownership ends. A job that it had posted was paid for as it was posted.
#[derive(Drop)]
pub struct OwnRuns<P> {
    pub(crate) count: u64,
    pub log: RunLog<P>,
    ghost counted: { count ≤ length log.items },
}

impl<P> OwnRuns<P> {
    /// No job has run.
    pub fn new() -> OwnRuns<P>
        ensures { (result.log.items ≡ []) × (result.count ≡ 0) }
    {
        OwnRuns {
            count: 0,
            log: RunLog::new(),
        }
    }

    /// How many of them are to be paid for.
    pub fn count(&self) -> u64
        ensures { result ≡ self.now.count }
    {
        self.count
    }

    /// One job more, with its answer, which the owner had not posted.
    pub fn add(&mut self, job: &Snapshot<P>, answer: &Snapshot<P>)
        requires room { self.old.count + 1 < 2 ^ 64 }
        ensures added { self.new.log.items ≡ self.old.log.items ++ (job.now.value, answer.now.value) ∷ [] }
        ensures counted { self.new.count ≡ self.old.count + 1 }
    {
        *self = OwnRuns {
            count: self.count + 1,
            log: self.log.and(job, answer),
        };
    }

    /// The job that the owner had posted, with its answer.
    pub fn add_posted(&mut self, job: &Snapshot<P>, answer: &Snapshot<P>)
        ensures added { self.new.log.items ≡ self.old.log.items ++ (job.now.value, answer.now.value) ∷ [] }
        ensures counted { self.new.count ≡ self.old.count }
    {
        *self = OwnRuns {
            count: self.count,
            log: self.log.and(job, answer),
        };
    }
}
