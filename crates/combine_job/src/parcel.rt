//! What stands in the slots of a chain.
use crate::job::{Job, Room};

/// A value, and how many jobs ran on it.
#[derive(Drop)]
pub struct Kept<V> {
    pub value: V,
    pub ran: u64,
}

/// The answer of the job that ran at the position `at`, where the first job has the position 0.
#[derive(Clone, Debug, PartialEq, Eq, Drop)]
pub struct JobAnswer<O, X> {
    pub at: u64,
    pub result: Result<O, X>,
}

/// The value, a job that waits for an owner to run it, or the answer of such a job.
#[derive(Drop)]
pub enum Parcel<V: Room, J: Job<V>> {
    Value(Kept<V>),
    Posted(J),
    Answered(JobAnswer<J::Out, J::Fault>),
}

impl<V: Room, J: Job<V>> Parcel<V, J> {
    ghost use Rattle.std.specs.Prelude.{◌≡◌, Option, Some, None};
    ghost use Rattle.combine_job.specs.declared.parcel.Kept.{Kept};
    ghost use Rattle.combine_job.specs.declared.parcel.JobAnswer.{JobAnswer};
    ghost use Rattle.combine_job.specs.declared.parcel.Parcel.TheVariants.{Value, Posted, Answered};
    ghost use Rattle.combine_job.specs.Parcels.{kept_in};

    /// The kept value, where this is one.
    pub fn kept(self) -> Option<Kept<V>>
        ensures { result ≡ kept_in self }
    {
        match self {
            Parcel::Value(kept) => Some(kept),
            Parcel::Posted(_job) => None,
            Parcel::Answered(_answer) => None,
        }
    }

    pub fn into_kept(self) -> Kept<V>
        requires { (kept : Kept V) × (self ≡ Value kept) }
        ensures { self ≡ Value result }
    {
        match self {
            Parcel::Value(kept) => kept,
            Parcel::Posted(_job) => unreachable!(),
            Parcel::Answered(_answer) => unreachable!(),
        }
    }

    pub fn into_job(self) -> J
        requires { (job : J) × (self ≡ Posted job) }
        ensures { self ≡ Posted result }
    {
        match self {
            Parcel::Posted(job) => job,
            Parcel::Value(_kept) => unreachable!(),
            Parcel::Answered(_answer) => unreachable!(),
        }
    }

    pub fn into_answer(self) -> JobAnswer<J::Out, J::Fault>
        requires { (answer : _) × (self ≡ Answered answer) }
        ensures { self ≡ Answered result }
    {
        match self {
            Parcel::Answered(answer) => answer,
            Parcel::Value(_kept) => unreachable!(),
            Parcel::Posted(_job) => unreachable!(),
        }
    }
}
