//! The calls on a chain.
ghost use Rattle.std.specs.Prelude.{◌≡◌, ◌≢◌, ◌⊎◌, ℕ, ◌+◌, ◌-◌, ◌*◌, ◌^◌, ◌<◌, ◌≤◌, [], ◌∷◌, ◌++◌, ◌↔◌, IsTrue, true, false, length, MatchResult, Option};
ghost use Rattle.atomic_table.specs.Table.{rest};
ghost use Rattle.waiter_chain.specs.declared.make.TheConstants.{MOST_NODES};
ghost use Rattle.waiter_chain.specs.Goods.{Goods};
ghost use Rattle.waiter_chain.specs.Chains.{covers, entering};
ghost use Rattle.waiter_chain.specs.Steps.{cut_left, cut_right, joined, entry, waits_to_enter};
ghost use Rattle.waiter_chain.specs.declared.turn.Kind.TheVariants.{Plain, WithJob};
ghost use Rattle.waiter_chain.specs.Calls.{IsIdle, IsBehind, HasTurn, OwnsBy, TriedIn, WasBusy, MayEnter, readied_state, EnteredAs, WaitsBehind, linked_state, ArrivedAs, PolledAs, FollowsAs, MayEnd, Ended, SawOthers, TookAs};
ghost use Rattle.waiter_chain.specs.declared.view.Ownership.{Ownership};
ghost use Rattle.waiter_chain.specs.declared.view.StepKind.TheVariants as step_kind;
ghost use Rattle.waiter_chain.specs.declared.view.Stage.TheVariants.{Behind, Owns};

use crate::freight::Freight;
use crate::plays::{
    Amount, ClearLink, Count, Cut, Free, Grant, Known, Link, Look, Merge, Poll, Post, Ran, Rule,
    SetStatus, SwapIn, Take, TryIn,
};
use crate::runs::OwnRuns;
use crate::turn::{Arrived, DistBusy, Entered, Follow, Kind, Polled, Turn};
use crate::view::{Opening, View};
use atomic_table::{Seat, Table};
use std::alloc::Global;
use std::marker::Brand;

/// A lock of 1 to 2^20 nodes whose waiters stand in a chain, with a value in slot 0. It keeps `combine`, a limit that
/// the layers above read.
///
/// The states of its words (N nodes, 1 + 2 N words):
///
/// | Word | Value | Meaning |
/// |---|---|---|
/// | central, 0 | 0 | free |
/// | | 1 | locked, and nobody came since the owner last took a chain |
/// | | n + 2 | locked, and node n was the last to swap itself in |
/// | status of node n, 1 + 2 n | 0 or what an earlier ownership left | idle, or owner |
/// | | 1 | waits |
/// | | 2 | waits with a job |
/// | | 3 | another pass has run its job, whose answer lies in its answer slot |
/// | | 4 + e | it was made the owner, and its chain ends at the word e |
/// | link of node n, 2 + 2 n | 0 | it enters, or has not linked |
/// | | another | it waits, or waited, behind this word |
pub struct Chain<P: Freight> {
    pub(crate) table: Table<Option<P>, View<P>, Opening<P>, Rule<P>, Global>,
    pub(crate) nodes: u64,
    pub(crate) combine: u32,
    ghost sized: { (table.shared.table_id.words ≡ 1 + 2 * nodes) × (table.shared.table_id.slots ≡ 1 + 2 * nodes) × (nodes ≤ MOST_NODES) × (table.shared.key.nodes ≡ nodes) },
}

/// The token of one node, and of the spare nodes after it. Each call that promises something of the caller takes it.
#[derive(Drop)]
pub struct ChainPass<P> {
    pub(crate) seat: Seat<Option<P>, View<P>>,
    pub(crate) number: u64,
    pub(crate) spare: u64,
    pub(crate) quota: u64,
    pub(crate) behind: u64,
    ghost same: { (seat.me.0.number ≡ number) × (seat.me.0.spare ≡ spare) × (seat.me.0.quota ≡ quota) × (seat.me.0.gone ≡ false) },
    ghost low: { 2 * (number + spare) + 1 < seat.table_id.slots },
}

// The status of a node that enters with a job, or without one.
fn entering(with_job: bool) -> u64
    ensures { result ≡ entering with_job }
{
    if with_job { 2 } else { 1 }
}

impl<P> ChainPass<P> {
    /// The pass's own number, from 0 on.
    pub fn number(&self) -> u64
        ensures { result ≡ self.now.seat.me.0.number }
    {
        self.number
    }

    /// How many numbers it can still give away.
    pub fn spare(&self) -> u64
        ensures { result ≡ self.now.seat.me.0.spare }
    {
        self.spare
    }

    /// How many jobs it may still run. An owner's quota falls when its ownership ends.
    pub fn quota(&self) -> u64
        ensures { result ≡ self.now.seat.me.0.quota }
    {
        self.quota
    }
}

impl<P: Freight> Chain<P> {
    /// The limit on combined jobs that the chain was made with.
    pub fn combine(&self) -> u32
        ensures { result ≡ self.now.combine }
    {
        self.combine
    }

    fn cut<M: Amount>(&self, pass: &mut ChainPass<P>, nodes: u64, quota: u64) -> ChainPass<P>
        requires own { pass.old.seat.table_id ≡ self.now.table.shared.table_id }
        requires amount { (M.nodes ≡ nodes) × (M.quota ≡ quota) }
        requires fits { (0 < nodes) × (nodes ≤ pass.old.spare) × (quota ≤ pass.old.quota) }
        ensures own { (pass.new.seat.table_id ≡ pass.old.seat.table_id) × (pass.new.seat.id ≡ pass.old.seat.id) × (result.seat.table_id ≡ pass.old.seat.table_id) }
        ensures left { pass.new.seat.me ≡ (cut_left nodes quota pass.old.seat.me.0, pass.old.seat.me.1) }
        ensures right { result.seat.me ≡ (cut_right nodes quota pass.old.seat.me.0, []) }
        ensures covers { (n : ℕ) → covers n pass.old.seat.me.0 ≡ covers n pass.new.seat.me.0 + covers n result.seat.me.0 }
    {
        let seat = self.table.shared.split_seat::<Cut<M>>(&mut pass.seat);
        pass.spare -= nodes;
        pass.quota -= quota;
        ChainPass {
            seat,
            number: pass.number + 1 + pass.spare,
            spare: nodes - 1,
            quota,
            behind: 0,
        }
    }

    /// Cuts a new pass off: it gets the last `nodes` of the spare numbers, of which the first is its own, and so much
    /// of the quota. It begins idle, with empty lists.
    pub fn split(&self, pass: &mut ChainPass<P>, nodes: u64, quota: u64) -> ChainPass<P>
        requires own { pass.old.seat.table_id ≡ self.now.table.shared.table_id }
        requires idle { IsIdle pass.old.seat.me }
        requires fits { (0 < nodes) × (nodes ≤ pass.old.seat.me.0.spare) × (quota ≤ pass.old.seat.me.0.quota) }
        ensures own { (pass.new.seat.table_id ≡ pass.old.seat.table_id) × (pass.new.seat.id ≡ pass.old.seat.id) × (result.seat.table_id ≡ pass.old.seat.table_id) }
        ensures left { pass.new.seat.me ≡ (cut_left nodes quota pass.old.seat.me.0, []) }
        ensures right { result.seat.me ≡ (cut_right nodes quota pass.old.seat.me.0, []) }
        ensures covers { (n : ℕ) → covers n pass.old.seat.me.0 ≡ covers n pass.new.seat.me.0 + covers n result.seat.me.0 }
    {
        self.cut::<Brand>(pass, nodes, quota)
    }

    fn merge(&self, pass: &mut ChainPass<P>, other: Seat<Option<P>, View<P>>, quota: u64)
        requires own { (pass.old.seat.table_id ≡ self.now.table.shared.table_id) × (other.table_id ≡ self.now.table.shared.table_id) }
        requires idle { IsIdle pass.old.seat.me × IsIdle other.me }
        requires live { (other.me.0.gone ≡ false) × (other.me.0.quota ≡ quota) }
        ensures own { (pass.new.seat.table_id ≡ pass.old.seat.table_id) × (pass.new.seat.id ≡ pass.old.seat.id) }
        ensures joined { pass.new.seat.me ≡ (joined pass.old.seat.me.0 other.me.0, []) }
        ensures covers { (n : ℕ) → covers n pass.new.seat.me.0 ≡ covers n pass.old.seat.me.0 + covers n other.me.0 }
    {
        self.table.shared.join_seat::<Merge>(&mut pass.seat, other);
        // Whatever it finds, the rule tells that the sum of the two quotas fits.
        self.table.shared.load::<Count>(&mut pass.seat, 0);
        pass.quota += quota;
    }

    /// Takes another pass in: its numbers, its quota, and its lists behind the pass's own.
    pub fn join(&self, pass: &mut ChainPass<P>, other: ChainPass<P>)
        requires own { (pass.old.seat.table_id ≡ self.now.table.shared.table_id) × (other.seat.table_id ≡ self.now.table.shared.table_id) }
        requires idle { IsIdle pass.old.seat.me × IsIdle other.seat.me }
        ensures own { (pass.new.seat.table_id ≡ pass.old.seat.table_id) × (pass.new.seat.id ≡ pass.old.seat.id) }
        ensures joined { pass.new.seat.me ≡ (joined pass.old.seat.me.0 other.seat.me.0, []) }
        ensures covers { (n : ℕ) → covers n pass.new.seat.me.0 ≡ covers n pass.old.seat.me.0 + covers n other.seat.me.0 }
    {
        let ChainPass {
            seat,
            number: _,
            spare: _,
            quota,
            behind: _,
        } = other;
        self.merge(pass, seat, quota);
    }

    fn try_as<M: Known<P>>(&self, pass: &mut ChainPass<P>) -> Result<Turn, DistBusy>
        requires own { pass.old.seat.table_id ≡ self.now.table.shared.table_id }
        requires idle { IsIdle pass.old.seat.me }
        requires known { (g : Goods P) → P.rule self.now.table.shared.key g → M.known g }
        ensures own { (pass.new.seat.table_id ≡ pass.old.seat.table_id) × (pass.new.seat.id ≡ pass.old.seat.id) }
        ensures answer { MatchResult result (TriedIn M.known self.now.table.shared.table_id.slots pass.old.seat.me pass.new.seat.me) (WasBusy pass.old.seat.me pass.new.seat.me) }
    {
        let word = self
            .table
            .shared
            .compare_exchange::<TryIn<M>>(&mut pass.seat, 0, 0, 1);
        if word == 0 {
            Ok(Turn {
                first: 1,
                end: 1,
                mark: 1,
            })
        } else {
            Err(DistBusy { word })
        }
    }

    /// One exchange of the central word from 0 to 1. It is refused exactly where the word isn't 0.
    pub fn try_in(&self, pass: &mut ChainPass<P>) -> Result<Turn, DistBusy>
        requires own { pass.old.seat.table_id ≡ self.now.table.shared.table_id }
        requires idle { IsIdle pass.old.seat.me }
        ensures own { (pass.new.seat.table_id ≡ pass.old.seat.table_id) × (pass.new.seat.id ≡ pass.old.seat.id) }
        ensures answer { MatchResult result (TriedIn (P.rule self.now.table.shared.key) self.now.table.shared.table_id.slots pass.old.seat.me pass.new.seat.me) (WasBusy pass.old.seat.me pass.new.seat.me) }
    {
        self.try_as::<Brand>(pass)
    }

    // It stores 0 in its own link, and then how it enters in its own status.
    fn ready(&self, pass: &mut ChainPass<P>, with_job: bool)
        requires own { pass.old.seat.table_id ≡ self.now.table.shared.table_id }
        requires start { pass.old.seat.me.0.stage ≡ waits_to_enter with_job }
        ensures own { (pass.new.seat.table_id ≡ pass.old.seat.table_id) × (pass.new.seat.id ≡ pass.old.seat.id) }
        ensures same { (pass.new.number ≡ pass.old.number) × (pass.new.quota ≡ pass.old.quota) }
        ensures readied { pass.new.seat.me ≡ readied_state with_job pass.old.seat.me }
    {
        let status = 1 + 2 * pass.number as usize;
        let kind = entering(with_job);
        self.table
            .shared
            .store::<ClearLink>(&mut pass.seat, status + 1, 0);
        self.table
            .shared
            .store::<SetStatus>(&mut pass.seat, status, kind);
    }

    fn enter_as<M: Known<P>>(&self, pass: &mut ChainPass<P>) -> Entered
        requires own { pass.old.seat.table_id ≡ self.now.table.shared.table_id }
        requires idle { IsIdle pass.old.seat.me }
        requires known { (g : Goods P) → P.rule self.now.table.shared.key g → M.known g }
        ensures own { (pass.new.seat.table_id ≡ pass.old.seat.table_id) × (pass.new.seat.id ≡ pass.old.seat.id) }
        ensures answer { EnteredAs M.known self.now.table.shared.table_id.slots Plain pass.new.behind pass.old.seat.me pass.new.seat.me result }
    {
        let new = pass.number + 2;
        self.ready(pass, false);
        let found = self.table.shared.swap::<SwapIn<M>>(&mut pass.seat, 0, new);
        if found == 0 {
            Entered::Owner(Turn {
                first: new,
                end: new,
                mark: new,
            })
        } else {
            pass.behind = found;
            Entered::Behind
        }
    }

    fn post_as<M: Known<P>>(&self, pass: &mut ChainPass<P>) -> Entered
        requires own { pass.old.seat.table_id ≡ self.now.table.shared.table_id }
        requires enters { MayEnter P.is_job WithJob pass.old.seat.me }
        requires known { (g : Goods P) → P.rule self.now.table.shared.key g → M.known g }
        ensures own { (pass.new.seat.table_id ≡ pass.old.seat.table_id) × (pass.new.seat.id ≡ pass.old.seat.id) }
        ensures answer { EnteredAs M.known self.now.table.shared.table_id.slots WithJob pass.new.behind pass.old.seat.me pass.new.seat.me result }
    {
        let place = pass.number + 2;
        self.ready(pass, true);
        let found = self.table.shared.swap::<Post<M>>(&mut pass.seat, 0, place);
        pass.quota -= 1;
        if found != 0 {
            pass.behind = found;
            return Entered::Behind;
        }
        Entered::Owner(Turn {
            first: place,
            end: place,
            mark: place,
        })
    }

    /// Three steps: a store of 0 into its own link, one of 1, or of 2 with a job, into its own status, and a swap of
    /// its own number + 2 into the central word. It is the owner exactly where the swap found 0. With a job, the job
    /// lies in its own job slot and is paid for by the swap.
    pub fn enter(&self, pass: &mut ChainPass<P>, kind: Kind) -> Entered
        requires own { pass.old.seat.table_id ≡ self.now.table.shared.table_id }
        requires enters { MayEnter P.is_job kind pass.old.seat.me }
        ensures own { (pass.new.seat.table_id ≡ pass.old.seat.table_id) × (pass.new.seat.id ≡ pass.old.seat.id) }
        ensures answer { EnteredAs (P.rule self.now.table.shared.key) self.now.table.shared.table_id.slots kind pass.new.behind pass.old.seat.me pass.new.seat.me result }
    {
        match kind {
            Kind::Plain => self.enter_as::<Brand>(pass),
            Kind::WithJob => self.post_as::<Brand>(pass),
        }
    }

    /// One store of the word that its swap found into its own link, by a pass that waits.
    pub fn link(&self, pass: &mut ChainPass<P>)
        requires own { pass.old.seat.table_id ≡ self.now.table.shared.table_id }
        requires behind { WaitsBehind pass.old.behind pass.old.seat.me }
        ensures own { (pass.new.seat.table_id ≡ pass.old.seat.table_id) × (pass.new.seat.id ≡ pass.old.seat.id) × (pass.new.behind ≡ pass.old.behind) }
        ensures linked { pass.new.seat.me ≡ linked_state pass.old.behind pass.old.seat.me }
    {
        let link = 2 + 2 * pass.number as usize;
        self.table
            .shared
            .store::<Link>(&mut pass.seat, link, pass.behind);
    }

    /// `enter`, and then `link` where the pass waits behind another.
    pub fn arrive(&self, pass: &mut ChainPass<P>, kind: Kind) -> Arrived
        requires own { pass.old.seat.table_id ≡ self.now.table.shared.table_id }
        requires enters { MayEnter P.is_job kind pass.old.seat.me }
        ensures own { (pass.new.seat.table_id ≡ pass.old.seat.table_id) × (pass.new.seat.id ≡ pass.old.seat.id) }
        ensures answer { ArrivedAs (P.rule self.now.table.shared.key) self.now.table.shared.table_id.slots kind pass.new.behind pass.old.seat.me pass.new.seat.me result }
    {
        match self.enter(pass, kind) {
            Entered::Owner(turn) => Arrived::Owner(turn),
            Entered::Behind => {
                self.link(pass);
                Arrived::Waiting
            }
        }
    }

    fn poll_as<M: Known<P>>(&self, pass: &mut ChainPass<P>) -> Polled
        requires own { pass.old.seat.table_id ≡ self.now.table.shared.table_id }
        requires behind { WaitsBehind pass.old.behind pass.old.seat.me }
        requires known { (g : Goods P) → P.rule self.now.table.shared.key g → M.known g }
        ensures own { (pass.new.seat.table_id ≡ pass.old.seat.table_id) × (pass.new.seat.id ≡ pass.old.seat.id) × (pass.new.behind ≡ pass.old.behind) }
        ensures answer { (job : Option P) → pass.old.seat.me.0.stage ≡ Behind pass.old.behind job → PolledAs M.known self.now.table.shared.table_id.slots pass.old.behind job pass.old.seat.me pass.new.seat.me result }
    {
        let status = 1 + 2 * pass.number as usize;
        let word = self.table.shared.load::<Poll<M>>(&mut pass.seat, status);
        if word < 3 {
            Polled::Still { word }
        } else if word == 3 {
            Polled::Done
        } else {
            Polled::Owner(Turn {
                first: pass.behind,
                end: word - 4,
                mark: 1,
            })
        }
    }

    /// One load of its own status, by a pass that waits: 1 or 2 is `Still`, 3 is `Done`, 4 and more is `Owner`.
    pub fn poll(&self, pass: &mut ChainPass<P>) -> Polled
        requires own { pass.old.seat.table_id ≡ self.now.table.shared.table_id }
        requires behind { WaitsBehind pass.old.behind pass.old.seat.me }
        ensures own { (pass.new.seat.table_id ≡ pass.old.seat.table_id) × (pass.new.seat.id ≡ pass.old.seat.id) × (pass.new.behind ≡ pass.old.behind) }
        ensures answer { (job : Option P) → pass.old.seat.me.0.stage ≡ Behind pass.old.behind job → PolledAs (P.rule self.now.table.shared.key) self.now.table.shared.table_id.slots pass.old.behind job pass.old.seat.me pass.new.seat.me result }
    {
        self.poll_as::<Brand>(pass)
    }

    // Whether the lock is free now.
    fn free_as<M: Ran<P>>(&self, pass: &mut ChainPass<P>, turn: &Turn, runs: &OwnRuns<P>) -> bool
        requires own { pass.old.seat.table_id ≡ self.now.table.shared.table_id }
        requires turn { HasTurn self.now.table.shared.table_id.slots turn.now pass.old.seat.me }
        requires empty { turn.now.first ≡ turn.now.end }
        requires ends { MayEnd P.relates M.count M.ran pass.old.seat.me }
        requires told { (M.ran ≡ runs.now.log.items) × (M.count ≡ runs.now.count) }
        ensures own { (pass.new.seat.table_id ≡ pass.old.seat.table_id) × (pass.new.seat.id ≡ pass.old.seat.id) }
        ensures free { result ≡ true → Ended M.count M.ran (entry pass.old.seat.me.0 step_kind.Free 0 turn.now.mark) pass.old.seat.me pass.new.seat.me }
        ensures taken { result ≡ false → (k : Ownership P) × (pass.old.seat.me.0.stage ≡ Owns k) × (k.mark ≡ turn.now.mark) × SawOthers pass.old.seat.me pass.new.seat.me k }
    {
        let mark = turn.mark;
        if self.table.shared.load::<Look>(&mut pass.seat, 0) != mark {
            return false;
        }
        if self
            .table
            .shared
            .compare_exchange::<Free<M>>(&mut pass.seat, 0, mark, 0)
            == mark
        {
            pass.quota -= runs.count;
            true
        } else {
            false
        }
    }

    fn take_line(&self, pass: &mut ChainPass<P>, turn: Turn) -> Follow
        requires own { pass.old.seat.table_id ≡ self.now.table.shared.table_id }
        requires turn { (hand : _) × (k : Ownership P) × OwnsBy self.now.table.shared.table_id.slots turn hand pass.old.seat.me k × (k.others_came ≡ true) }
        requires empty { turn.first ≡ turn.end }
        ensures own { (pass.new.seat.table_id ≡ pass.old.seat.table_id) × (pass.new.seat.id ≡ pass.old.seat.id) }
        ensures answer { TookAs self.now.table.shared.table_id.slots turn.mark pass.old.seat.me pass.new.seat.me result }
    {
        let Turn {
            first: _,
            end: _,
            mark,
        } = turn;
        let first = self.table.shared.swap::<Take>(&mut pass.seat, 0, 1);
        Follow::Waits {
            turn: Turn {
                first,
                end: mark,
                mark: 1,
            },
            node: first - 2,
        }
    }

    /// Where the owner's chain is empty, the lock is freed; and where others came meanwhile, the pass takes the newest
    /// chain instead. An exchange that frees comes after a load of the central word that found the owner's mark. The
    /// value stands in slot 0, as the pass's own jobs have left it.
    pub fn next(&self, pass: &mut ChainPass<P>, turn: Turn, runs: &OwnRuns<P>) -> Follow
        requires own { pass.old.seat.table_id ≡ self.now.table.shared.table_id }
        requires turn { HasTurn self.now.table.shared.table_id.slots turn pass.old.seat.me }
        requires ends { turn.first ≡ turn.end → MayEnd P.relates runs.now.count runs.now.log.items pass.old.seat.me }
        ensures own { (pass.new.seat.table_id ≡ pass.old.seat.table_id) × (pass.new.seat.id ≡ pass.old.seat.id) }
        ensures answer { FollowsAs self.now.table.shared.table_id.slots runs.now.count runs.now.log.items turn pass.old.seat.me pass.new.seat.me result }
    {
        if turn.first != turn.end {
            let node = turn.first - 2;
            return Follow::Waits { turn, node };
        }
        if self.free_as::<Brand>(pass, &turn, runs) {
            let Turn {
                first: _,
                end: _,
                mark: _,
            } = turn;
            return Follow::Free;
        }
        self.take_line(pass, turn)
    }

    fn grant_as<M: Ran<P>>(&self, pass: &mut ChainPass<P>, turn: Turn, runs: &OwnRuns<P>)
        requires own { pass.old.seat.table_id ≡ self.now.table.shared.table_id }
        requires turn { HasTurn self.now.table.shared.table_id.slots turn pass.old.seat.me }
        requires waits { turn.first ≢ turn.end }
        requires ends { MayEnd P.relates M.count M.ran pass.old.seat.me }
        requires told { (M.ran ≡ runs.now.log.items) × (M.count ≡ runs.now.count) }
        ensures own { (pass.new.seat.table_id ≡ pass.old.seat.table_id) × (pass.new.seat.id ≡ pass.old.seat.id) }
        ensures ended { Ended M.count M.ran (entry pass.old.seat.me.0 step_kind.Grant (1 + 2 * (turn.first - 2)) (turn.end + 4)) pass.old.seat.me pass.new.seat.me }
    {
        let Turn {
            first,
            end,
            mark: _,
        } = turn;
        let status = 1 + 2 * (first - 2) as usize;
        self.table
            .shared
            .store::<Grant<M>>(&mut pass.seat, status, end + 4);
        pass.quota -= runs.count;
    }

    /// One store into the next node's status, which makes that node the owner. The value stands in slot 0, as the
    /// pass's own jobs have left it.
    pub fn grant(&self, pass: &mut ChainPass<P>, turn: Turn, runs: &OwnRuns<P>)
        requires own { pass.old.seat.table_id ≡ self.now.table.shared.table_id }
        requires turn { HasTurn self.now.table.shared.table_id.slots turn pass.old.seat.me }
        requires waits { turn.first ≢ turn.end }
        requires ends { MayEnd P.relates runs.now.count runs.now.log.items pass.old.seat.me }
        ensures own { (pass.new.seat.table_id ≡ pass.old.seat.table_id) × (pass.new.seat.id ≡ pass.old.seat.id) }
        ensures ended { Ended runs.now.count runs.now.log.items (entry pass.old.seat.me.0 step_kind.Grant (1 + 2 * (turn.first - 2)) (turn.end + 4)) pass.old.seat.me pass.new.seat.me }
    {
        self.grant_as::<Brand>(pass, turn, runs);
    }
}
