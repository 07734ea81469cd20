//! A pass posts a job in a chain and collects its answer, and an owner runs the jobs of others.
ghost use Rattle.std.specs.Prelude.{◌≡◌, ℕ, ◌+◌, ◌*◌, ◌^◌, ◌<◌, ◌≤◌, [], ◌∷◌, ◌++◌, Some};
ghost use Rattle.waiter_chain.specs.Goods.{part};
ghost use Rattle.waiter_chain.specs.Steps.{entry, collected, SoundAnswer};
ghost use Rattle.waiter_chain.specs.Calls.{IsIdle, ArrivedAs};
ghost use Rattle.waiter_chain.specs.declared.turn.Kind.TheVariants.{WithJob};
ghost use Rattle.waiter_chain.specs.declared.view.StepKind.TheVariants.{SetStatus};
ghost use Rattle.waiter_chain.specs.declared.view.Stage.TheVariants.{Done};
ghost use Rattle.combine_job.specs.declared.parcel.Parcel.TheVariants.{Value, Posted, Answered};
ghost use Rattle.combine_job.specs.Parcels.{Related, Ruled};
ghost use Rattle.combine_job.specs.Combining.{held_state, MayRun, RanNext};

use crate::job::{Job, Room};
use crate::parcel::{JobAnswer, Kept, Parcel};
use crate::run::run_kept;
use waiter_chain::chain::{Chain, ChainPass};
use waiter_chain::runs::OwnRuns;
use waiter_chain::turn::{Arrived, Kind, Turn};

/// Puts the job into the pass's own job slot and enters with it. The quota falls by 1.
pub fn post<V: Room, J: Job<V>>(
    chain: &Chain<Parcel<V, J>>,
    pass: &mut ChainPass<Parcel<V, J>>,
    job: J,
) -> Arrived
    requires own { pass.old.seat.table_id ≡ chain.now.table.shared.table_id }
    requires idle { IsIdle pass.old.seat.me }
    requires quota { 1 ≤ pass.old.seat.me.0.quota }
    requires ready { J.is_ready job }
    ensures own { (pass.new.seat.table_id ≡ pass.old.seat.table_id) × (pass.new.seat.id ≡ pass.old.seat.id) }
    ensures answer { (word : ℕ) × ArrivedAs (Ruled V.rooms J.means J.is_ready chain.now.table.shared.key) chain.now.table.shared.table_id.slots WithJob pass.new.behind (held_state word (Some (Posted job)) pass.old.seat.me) pass.new.seat.me result }
{
    let slot = 1 + 2 * pass.number();
    chain.hold(pass);
    let _empty = chain.move_slot(pass, slot, Some(Parcel::Posted(job)));
    chain.arrive(pass, Kind::WithJob)
}

/// Takes its own answer out of its slot, where another pass has run its job. The pass is idle again.
pub fn collect<V: Room, J: Job<V>>(
    chain: &Chain<Parcel<V, J>>,
    pass: &mut ChainPass<Parcel<V, J>>,
) -> JobAnswer<J::Out, J::Fault>
    requires own { pass.old.seat.table_id ≡ chain.now.table.shared.table_id }
    requires done { (job : _) × (a : _) × (pass.old.seat.me.0.stage ≡ Done job a) × (pass.old.seat.me.1 ≡ (2 + 2 * pass.old.seat.me.0.number, Some a) ∷ []) × SoundAnswer (Ruled V.rooms J.means J.is_ready chain.now.table.shared.key) (part pass.old.seat.me.0.number pass.old.seat.me.0.quota pass.old.seat.me.0.own) job a }
    ensures own { (pass.new.seat.table_id ≡ pass.old.seat.table_id) × (pass.new.seat.id ≡ pass.old.seat.id) }
    ensures collected { (job : _) × (pass.old.seat.me.0.stage ≡ Done job (Answered result)) × (pass.new.seat.me ≡ (collected pass.old.seat.me.0 (job, Answered result) (pass.old.seat.me.0.steps ++ entry pass.old.seat.me.0 SetStatus (1 + 2 * pass.old.seat.me.0.number) 0 ∷ []), [])) }
{
    let slot = 2 + 2 * pass.number();
    let answer = chain.move_slot(pass, slot, None).unwrap().into_answer();
    chain.rest(pass);
    answer
}

/// Runs the job of the next node once, at the next position, puts the answer into that node's answer slot, and makes
/// the node done. The jobs that the owner has run for itself before are settled.
pub fn run_posted<V: Room, J: Job<V>>(
    chain: &Chain<Parcel<V, J>>,
    pass: &mut ChainPass<Parcel<V, J>>,
    turn: Turn,
    link: u64,
    kept: Kept<V>,
    runs: &OwnRuns<Parcel<V, J>>,
) -> (Turn, Kept<V>)
    requires own { pass.old.seat.table_id ≡ chain.now.table.shared.table_id }
    requires taken { MayRun V.rooms J.means J.is_ready chain.now.table.shared.table_id.slots runs.now.count runs.now.log.items turn link kept pass.old.seat.me }
    requires room { 1 ≤ V.rooms kept.value }
    requires count { kept.ran + 1 < 2 ^ 64 }
    ensures own { (pass.new.seat.table_id ≡ pass.old.seat.table_id) × (pass.new.seat.id ≡ pass.old.seat.id) }
    ensures ran { RanNext V.rooms J.means chain.now.table.shared.table_id.slots runs.now.count runs.now.log.items turn link kept pass.old.seat.me pass.new.seat.me result.0 result.1 }
{
    let job_slot = 1 + 2 * turn.node();
    let posted = chain.move_slot(pass, job_slot, None);
    let job = posted.unwrap().into_job();
    let (answer, value) = run_once(kept, job);
    let _empty = chain.move_slot(pass, 0, Some(value));
    let _old = chain.move_slot(pass, job_slot + 1, Some(answer));
    let turn = chain.step_over(pass, turn, link, runs);
    let left = chain.move_slot(pass, 0, None);
    let kept = left.unwrap().into_kept();
    (turn, kept)
}

// The answer and the value afterwards, as a chain carries them.
fn run_once<V: Room, J: Job<V>>(mut kept: Kept<V>, job: J) -> (Parcel<V, J>, Parcel<V, J>)
    requires room { 1 ≤ V.rooms kept.value }
    requires count { kept.ran + 1 < 2 ^ 64 }
    requires ready { J.is_ready job }
    ensures related { Related V.rooms J.means (Value kept) (Posted job) result.0 result.1 }
    ensures answer { (a : _) × (later : _) × (result.0 ≡ Answered a) × (result.1 ≡ Value later) }
{
    let answer = run_kept(&mut kept, job);
    (Parcel::Answered(answer), Parcel::Value(kept))
}
