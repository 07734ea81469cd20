//! What an owner does for the next node, and what a node with a job finds.
ghost use Rattle.std.specs.Prelude.{◌≡◌, ◌≢◌, ℕ, ◌+◌, ◌-◌, ◌*◌, ◌^◌, ◌<◌, ◌≤◌, [], ◌∷◌, ◌++◌, true, false, length, Some, None};
ghost use Rattle.waiter_chain.specs.Goods.{Goods};
ghost use Rattle.waiter_chain.specs.Steps.{entry, moved};
ghost use Rattle.waiter_chain.specs.Calls.{IsIdle, HasTurn, KindSeen, LinkSeen, MayServe, Served, Rested};
ghost use Rattle.waiter_chain.specs.declared.view.Ownership.{Ownership};
ghost use Rattle.waiter_chain.specs.declared.view.StepKind.TheVariants as step_kind;
ghost use Rattle.waiter_chain.specs.declared.view.Stage.TheVariants.{Done, Holding, Owns};

use crate::chain::{Chain, ChainPass};
use crate::freight::Freight;
use crate::plays::{Hold, KindOf, Known, LinkOf, Ran, Rest, Serve};
use crate::runs::OwnRuns;
use crate::turn::{Kind, Turn};
use std::marker::Brand;

impl<P: Freight> Chain<P> {
    /// An idle pass takes its own job slot, by one load of its own status.
    pub fn hold(&self, pass: &mut ChainPass<P>)
        requires own { pass.old.seat.table_id ≡ self.now.table.shared.table_id }
        requires idle { IsIdle pass.old.seat.me }
        ensures own { (pass.new.seat.table_id ≡ pass.old.seat.table_id) × (pass.new.seat.id ≡ pass.old.seat.id) }
        ensures held { (word : ℕ) × (y : _) × (pass.new.seat.me ≡ (moved pass.old.seat.me.0 Holding (entry pass.old.seat.me.0 step_kind.LoadStatus (1 + 2 * pass.old.seat.me.0.number) word), (1 + 2 * pass.old.seat.me.0.number, y) ∷ [])) }
    {
        let status = 1 + 2 * pass.number as usize;
        self.table.shared.load::<Hold>(&mut pass.seat, status);
    }

    /// One load of the next node's status: how that node waits.
    pub fn kind_of(&self, pass: &mut ChainPass<P>, turn: &Turn) -> Kind
        requires own { pass.old.seat.table_id ≡ self.now.table.shared.table_id }
        requires turn { HasTurn self.now.table.shared.table_id.slots turn.now pass.old.seat.me }
        requires waits { turn.now.first ≢ turn.now.end }
        ensures own { (pass.new.seat.table_id ≡ pass.old.seat.table_id) × (pass.new.seat.id ≡ pass.old.seat.id) }
        ensures kind { KindSeen (turn.now.first - 2) pass.old.seat.me pass.new.seat.me result }
    {
        let status = 1 + 2 * (turn.first - 2) as usize;
        if self.table.shared.load::<KindOf>(&mut pass.seat, status) == 1 {
            Kind::Plain
        } else {
            Kind::WithJob
        }
    }

    fn link_as<M: Known<P>>(&self, pass: &mut ChainPass<P>, turn: &Turn) -> u64
        requires own { pass.old.seat.table_id ≡ self.now.table.shared.table_id }
        requires turn { HasTurn self.now.table.shared.table_id.slots turn.now pass.old.seat.me }
        requires waits { turn.now.first ≢ turn.now.end }
        requires seen { (k : Ownership P) × (pass.old.seat.me.0.stage ≡ Owns k) × (k.job_waits ≡ true) }
        requires known { (g : Goods P) → P.rule self.now.table.shared.key g → M.known g }
        ensures own { (pass.new.seat.table_id ≡ pass.old.seat.table_id) × (pass.new.seat.id ≡ pass.old.seat.id) }
        ensures link { LinkSeen M.known (turn.now.first - 2) pass.old.seat.me pass.new.seat.me result }
    {
        let place = 2 + 2 * (turn.first - 2) as usize;
        let link = self.table.shared.load::<LinkOf<M>>(&mut pass.seat, place);
        if link != 0 {
            // The two slots go behind the others.
            pass.turn_by(2);
        }
        link
    }

    /// One load of the link of the next node, which was seen to wait with a job. Where it is not 0, that node's job
    /// slot and answer slot are in the owner's hand.
    pub fn link_of(&self, pass: &mut ChainPass<P>, turn: &Turn) -> u64
        requires own { pass.old.seat.table_id ≡ self.now.table.shared.table_id }
        requires turn { HasTurn self.now.table.shared.table_id.slots turn.now pass.old.seat.me }
        requires waits { turn.now.first ≢ turn.now.end }
        requires seen { (k : Ownership P) × (pass.old.seat.me.0.stage ≡ Owns k) × (k.job_waits ≡ true) }
        ensures own { (pass.new.seat.table_id ≡ pass.old.seat.table_id) × (pass.new.seat.id ≡ pass.old.seat.id) }
        ensures link { LinkSeen (P.rule self.now.table.shared.key) (turn.now.first - 2) pass.old.seat.me pass.new.seat.me result }
    {
        self.link_as::<Brand>(pass, turn)
    }

    fn serve_as<M: Ran<P>>(
        &self,
        pass: &mut ChainPass<P>,
        turn: Turn,
        link: u64,
        runs: &OwnRuns<P>,
    ) -> Turn
        requires own { pass.old.seat.table_id ≡ self.now.table.shared.table_id }
        requires serves { MayServe P.relates self.now.table.shared.table_id.slots M.count M.ran turn link pass.old.seat.me }
        requires told { (M.ran ≡ runs.now.log.items) × (M.count ≡ runs.now.count) }
        ensures own { (pass.new.seat.table_id ≡ pass.old.seat.table_id) × (pass.new.seat.id ≡ pass.old.seat.id) }
        ensures served { Served self.now.table.shared.table_id.slots M.count M.ran turn link pass.old.seat.me pass.new.seat.me result }
    {
        let Turn { first, end, mark } = turn;
        let status = 1 + 2 * (first - 2) as usize;
        // The two slots of that node come to the front, to be given back.
        pass.turn_by(10);
        self.table
            .shared
            .store::<Serve<M>>(&mut pass.seat, status, 3);
        pass.quota -= runs.count;
        Turn {
            first: link,
            end,
            mark,
        }
    }

    /// One store of 3 into the status of the next node, whose job has run: its answer lies in its answer slot, and what
    /// the job made of the value is in the owner's hand. The jobs that the owner has run for itself before enter its
    /// own list here, and its quota falls by the number of those that it had not posted.
    pub fn step_over(
        &self,
        pass: &mut ChainPass<P>,
        turn: Turn,
        link: u64,
        runs: &OwnRuns<P>,
    ) -> Turn
        requires own { pass.old.seat.table_id ≡ self.now.table.shared.table_id }
        requires serves { MayServe P.relates self.now.table.shared.table_id.slots runs.now.count runs.now.log.items turn link pass.old.seat.me }
        ensures own { (pass.new.seat.table_id ≡ pass.old.seat.table_id) × (pass.new.seat.id ≡ pass.old.seat.id) }
        ensures served { Served self.now.table.shared.table_id.slots runs.now.count runs.now.log.items turn link pass.old.seat.me pass.new.seat.me result }
    {
        self.serve_as::<Brand>(pass, turn, link, runs)
    }

    /// One store of 0 into its own status, by a pass that found itself done and has moved its answer out.
    pub fn rest(&self, pass: &mut ChainPass<P>)
        requires own { pass.old.seat.table_id ≡ self.now.table.shared.table_id }
        requires done { (job : P) × (answer : P) × (pass.old.seat.me.0.stage ≡ Done job answer) × (pass.old.seat.me.1 ≡ (2 + 2 * pass.old.seat.me.0.number, None) ∷ []) }
        ensures own { (pass.new.seat.table_id ≡ pass.old.seat.table_id) × (pass.new.seat.id ≡ pass.old.seat.id) }
        ensures rested { Rested pass.old.seat.me pass.new.seat.me }
    {
        let status = 1 + 2 * pass.number as usize;
        self.table.shared.store::<Rest>(&mut pass.seat, status, 0);
    }
}
