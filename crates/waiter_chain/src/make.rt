//! How a chain is made and closed.
ghost use Rattle.std.specs.Prelude.{◌≡◌, ◌≢◌, ℕ, ◌+◌, ◌-◌, ◌*◌, ◌<◌, ◌≤◌, [], ◌∷◌, IfOk, Some, None, replicate};
ghost use Rattle.waiter_chain.specs.declared.make.TheConstants.{MOST_NODES};
ghost use Rattle.waiter_chain.specs.Steps.{first_view};
ghost use Rattle.waiter_chain.specs.Calls.{IsIdle};
ghost use Rattle.waiter_chain.specs.Chains.{Closes, Lawful, covers};
ghost use Rattle.waiter_chain.specs.Shows.{ChainShows};

use crate::chain::{Chain, ChainPass};
use crate::freight::Freight;
use crate::view::{Opening, View};
use atomic_table::{Refused, Seat, Table};
use std::alloc::{AllocError, Global};
use std::snapshot::Snapshot;

/// The most nodes of a chain.
pub const MOST_NODES: u64 = 1 << 20;

fn zeros(alloc: Global, count: u64) -> Result<Vec<u64>, AllocError>
    requires { count ≤ 2 * MOST_NODES + 1 }
    ensures { IfOk result (λ v. v.items ≡ replicate count 0) }
{
    let mut words = Vec::new(alloc);
    for _ in 0..count {
        words.push(0)?;
    }
    Ok(words)
}

fn slots<P: Drop>(alloc: Global, count: u64, first: P) -> Result<Vec<Option<P>>, AllocError>
    requires { count ≤ 2 * MOST_NODES }
    ensures { IfOk result (λ v. v.items ≡ Some first ∷ replicate count None) }
{
    let mut slots = Vec::new(alloc);
    slots.push(Some(first))?;
    for _ in 0..count {
        slots.push(None)?;
    }
    Ok(slots)
}

/// What a close leaves of the closing pass, for the proofs: its list of jobs and answers among all that its view has.
/// It comes only from a close.
#[derive(Drop)]
pub struct Retired<P> {
    pub(crate) combine: u32,
    pub(crate) seat: Snapshot<Seat<Option<P>, View<P>>>,
}

impl<P> Retired<P> {
    /// The limit on combined jobs that the closed chain was made with.
    pub fn combine(&self) -> u32
        ensures { result ≡ self.now.combine }
    {
        self.combine
    }
}

impl<P: Freight + Drop> Chain<P> {
    /// A free chain of `nodes` nodes (1 to `MOST_NODES`) with the value `first`, and the pass that has all numbers and
    /// the whole quota. Its cost is O(nodes). Where it is refused for want of memory, `first` is dropped.
    pub fn make(
        alloc: Global,
        nodes: u64,
        quota: u64,
        combine: u32,
        first: P,
    ) -> Result<(Chain<P>, ChainPass<P>), AllocError>
        requires nodes { (0 < nodes) × (nodes ≤ MOST_NODES) }
        requires admits { P.admits first quota }
        ensures made { IfOk result (λ r. (r.1.seat.table_id ≡ r.0.table.shared.table_id) × (r.1.seat.me ≡ (first_view nodes quota, [])) × (r.0.table.shared.key.first.value ≡ first) × (r.0.table.shared.key.quota ≡ quota) × (r.0.nodes ≡ nodes) × (r.0.combine ≡ combine)) }
        ensures covers { IfOk result (λ r. (n : ℕ) → n < nodes → 0 < covers n r.1.seat.me.0) }
        // What the rule says that the table keeps from now on, between any two steps of any passes.
        ensures shows { IfOk result (λ r. (s : _) → Lawful (P.rule r.0.table.shared.key) r.0.table.shared.key.nodes s → ChainShows s) }
    {
        let opening = Opening {
            nodes,
            quota,
            first: Snapshot::of(&first),
        };
        let words = zeros(alloc, 1 + 2 * nodes)?;
        let slots = slots(alloc, 2 * nodes, first)?;
        let (table, seat) = match Table::new(alloc, &words, slots, &opening) {
            Ok(made) => made,
            Err(Refused { slots: _ }) => return Err(AllocError),
        };
        Ok((
            Chain {
                table,
                nodes,
                combine,
            },
            ChainPass {
                seat,
                number: 0,
                spare: nodes - 1,
                quota,
                behind: 0,
            },
        ))
    }

    /// What stands in slot 0 at the end: the value, wherever all passes were joined. Its cost is O(nodes).
    pub fn close(self, pass: ChainPass<P>) -> (Option<P>, Retired<P>)
        requires own { pass.seat.table_id ≡ self.table.shared.table_id }
        requires idle { IsIdle pass.seat.me }
        ensures value { Closes (P.rule self.table.shared.key) self.nodes pass.seat.me.0 result.0 }
        ensures retired { (result.1.combine ≡ self.combine) × (result.1.seat.value.me ≡ pass.seat.me) }
    {
        let Chain {
            table,
            nodes: _,
            combine,
        } = self;
        let ChainPass {
            seat,
            number: _,
            spare: _,
            quota: _,
            behind: _,
        } = pass;
        let retired = Retired {
            combine,
            seat: Snapshot::of(&seat),
        };
        let mut closed = table.close_with(seat);
        let value = closed.take(0);
        let mut i = 1;
        while i < closed.slot_count() {
            drop(closed.take(i));
            i += 1;
        }
        closed.free();
        (value, retired)
    }
}
