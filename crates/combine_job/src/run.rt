//! A job runs on a kept value.
ghost use Rattle.std.specs.Prelude.{◌≡◌, ℕ, ◌+◌, ◌^◌, ◌<◌, ◌≤◌, [], ◌∷◌, ◌++◌};
ghost use Rattle.combine_job.specs.Parcels.{Related, IsJob};
ghost use Rattle.combine_job.specs.declared.parcel.Parcel.TheVariants.{Value, Posted, Answered};

use crate::job::{Job, Room};
use crate::parcel::{JobAnswer, Kept, Parcel};
use std::snapshot::Snapshot;
use waiter_chain::runs::OwnRuns;

/// Runs the job once, at the position `ran`, and counts it, whether it answers `Ok` or `Err`.
pub fn run_kept<V: Room, J: Job<V>>(kept: &mut Kept<V>, job: J) -> JobAnswer<J::Out, J::Fault>
    requires room { 1 ≤ V.rooms kept.old.value }
    requires count { kept.old.ran + 1 < 2 ^ 64 }
    requires ready { J.is_ready job }
    ensures position { result.at ≡ kept.old.ran }
    ensures counted { kept.new.ran ≡ kept.old.ran + 1 }
    ensures meaning { J.means kept.old.value job result.result kept.new.value }
    ensures room { V.rooms kept.old.value ≤ V.rooms kept.new.value + 1 }
{
    let at = kept.ran;
    let result = job.run(&mut kept.value);
    kept.ran = at + 1;
    JobAnswer { at, result }
}

/// Runs the job once, and lists it with its answer among those that the owner has run for itself, and that it pays for.
pub fn run_listed<V: Room, J: Job<V>>(
    kept: &mut Kept<V>,
    runs: &mut OwnRuns<Parcel<V, J>>,
    job: J,
) -> JobAnswer<J::Out, J::Fault>
    requires room { 1 ≤ V.rooms kept.old.value }
    requires count { kept.old.ran + 1 < 2 ^ 64 }
    requires few { runs.old.count + 1 < 2 ^ 64 }
    requires ready { J.is_ready job }
    ensures position { result.at ≡ kept.old.ran }
    ensures counted { kept.new.ran ≡ kept.old.ran + 1 }
    ensures related { Related V.rooms J.means (Value kept.old) (Posted job) (Answered result) (Value kept.new) }
    ensures listed { runs.new.log.items ≡ runs.old.log.items ++ (Posted job, Answered result) ∷ [] }
    ensures due { runs.new.count ≡ runs.old.count + 1 }
{
    let posted = Parcel::<V, J>::Posted(job);
    let before = Snapshot::of(&posted);
    let answered = Parcel::<V, J>::Answered(run_kept(kept, posted.into_job()));
    let after = Snapshot::of(&answered);
    runs.add(&before, &after);
    answered.into_answer()
}

/// Runs once the job that the owner had posted, and lists it with its answer among those that the owner has run for
/// itself. It was paid for as it was posted.
pub fn run_taken<V: Room, J: Job<V>>(
    kept: &mut Kept<V>,
    runs: &mut OwnRuns<Parcel<V, J>>,
    posted: Parcel<V, J>,
) -> JobAnswer<J::Out, J::Fault>
    requires room { 1 ≤ V.rooms kept.old.value }
    requires count { kept.old.ran + 1 < 2 ^ 64 }
    requires ready { IsJob J.is_ready posted }
    ensures position { result.at ≡ kept.old.ran }
    ensures counted { kept.new.ran ≡ kept.old.ran + 1 }
    ensures related { Related V.rooms J.means (Value kept.old) posted (Answered result) (Value kept.new) }
    ensures listed { runs.new.log.items ≡ runs.old.log.items ++ (posted, Answered result) ∷ [] }
    ensures due { runs.new.count ≡ runs.old.count }
{
    let before = Snapshot::of(&posted);
    let answered = Parcel::<V, J>::Answered(run_kept(kept, posted.into_job()));
    let after = Snapshot::of(&answered);
    runs.add_posted(&before, &after);
    answered.into_answer()
}
