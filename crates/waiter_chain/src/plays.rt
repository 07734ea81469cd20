//! The rule of a chain's table, and what each step tells.
ghost use Rattle.std.specs.Prelude.{List};
ghost use Rattle.waiter_chain.specs.Chains.{Lawful};
ghost use Rattle.waiter_chain.specs.Steps.{first_view, cut_left, cut_right, joined, spent, tried, cleared, readied, swapped, posting, linking, polled, holding, freed, took, handed, looked, counted, kind_seen, link_seen, job_done, rested};

use crate::freight::Freight;
use crate::view::{Opening, View};
use atomic_table::{Join, Play, Split, TableRule};
use std::marker::{Brand, PhantomData};

/// The rule that every step of a chain keeps.
pub struct Rule<P> {
    freight: PhantomData<P>,
}

impl<P: Freight> TableRule<Option<P>, View<P>, Opening<P>> for Rule<P> {
    ghost holds = { λ o. Lawful (P.rule o) o.nodes };

    ghost first = { λ o. first_view o.nodes o.quota };
}

/// What the freight's rule is in this chain.
pub trait Known<P> {
    ghost use Rattle.waiter_chain.specs.Goods.{Goods};

    ghost known: { Goods P → Type 0 };
}

impl<P> Known<P> for Brand {
    ghost known = { λ _. Unit {0} };
}

/// The jobs that an owner ran for itself, each with its answer, and how many of them it pays for.
pub trait Ran<P> {
    ghost use Rattle.std.specs.Prelude.{ℕ};

    ghost ran: { List (P × P) };

    ghost count: { ℕ };
}

impl<P> Ran<P> for Brand {
    ghost use Rattle.std.specs.Prelude.{[]};

    ghost ran = { [] };

    ghost count = { 0 };
}

/// How many nodes and how much of the quota a split gives away.
pub trait Amount {
    ghost use Rattle.std.specs.Prelude.{ℕ};

    ghost nodes: { ℕ };

    ghost quota: { ℕ };
}

impl Amount for Brand {
    ghost nodes = { 0 };

    ghost quota = { 0 };
}

pub(crate) struct Cut<M> {
    amount: PhantomData<M>,
}

impl<P, M: Amount> Split<View<P>> for Cut<M> {
    ghost left = { cut_left M.nodes M.quota };

    ghost right = { cut_right M.nodes M.quota };
}

pub(crate) struct Merge;

impl<P> Join<View<P>> for Merge {
    ghost both = { joined };

    ghost spent = { spent };
}

pub(crate) struct Count;

impl<P> Play<Option<P>, View<P>> for Count {
    ghost then = { counted };
}

pub(crate) struct TryIn<M> {
    known: PhantomData<M>,
}

impl<P, M: Known<P>> Play<Option<P>, View<P>> for TryIn<M> {
    ghost then = { tried M.known };
}

pub(crate) struct ClearLink;

impl<P> Play<Option<P>, View<P>> for ClearLink {
    ghost then = { cleared };
}

pub(crate) struct SetStatus;

impl<P> Play<Option<P>, View<P>> for SetStatus {
    ghost then = { readied };
}

pub(crate) struct SwapIn<M> {
    known: PhantomData<M>,
}

impl<P, M: Known<P>> Play<Option<P>, View<P>> for SwapIn<M> {
    ghost then = { swapped M.known };
}

pub(crate) struct Poll<M> {
    known: PhantomData<M>,
}

impl<P, M: Known<P>> Play<Option<P>, View<P>> for Poll<M> {
    ghost then = { polled M.known };
}

pub(crate) struct Free<M> {
    ran: PhantomData<M>,
}

impl<P, M: Ran<P>> Play<Option<P>, View<P>> for Free<M> {
    ghost then = { freed M.count M.ran };
}

pub(crate) struct Take;

impl<P> Play<Option<P>, View<P>> for Take {
    ghost then = { took };
}

pub(crate) struct Grant<M> {
    ran: PhantomData<M>,
}

impl<P, M: Ran<P>> Play<Option<P>, View<P>> for Grant<M> {
    ghost then = { handed M.count M.ran };
}

pub(crate) struct Look;

impl<P> Play<Option<P>, View<P>> for Look {
    ghost then = { looked };
}

pub(crate) struct Post<M> {
    known: PhantomData<M>,
}

impl<P, M: Known<P>> Play<Option<P>, View<P>> for Post<M> {
    ghost then = { posting M.known };
}

pub(crate) struct Link;

impl<P> Play<Option<P>, View<P>> for Link {
    ghost then = { linking };
}

pub(crate) struct Hold;

impl<P> Play<Option<P>, View<P>> for Hold {
    ghost then = { holding };
}

pub(crate) struct KindOf;

impl<P> Play<Option<P>, View<P>> for KindOf {
    ghost then = { kind_seen };
}

pub(crate) struct LinkOf<M> {
    known: PhantomData<M>,
}

impl<P, M: Known<P>> Play<Option<P>, View<P>> for LinkOf<M> {
    ghost then = { link_seen M.known };
}

pub(crate) struct Serve<M> {
    ran: PhantomData<M>,
}

impl<P, M: Ran<P>> Play<Option<P>, View<P>> for Serve<M> {
    ghost then = { job_done M.count M.ran };
}

pub(crate) struct Rest;

impl<P> Play<Option<P>, View<P>> for Rest {
    ghost then = { rested };
}
