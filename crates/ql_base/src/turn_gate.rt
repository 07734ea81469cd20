//! A gate that puts calls in an order.
ghost use Rattle.std.specs.Prelude.{◌≡◌, ◌==◌, ◌&&◌, position};

use crate::Gate;
use crate::turns::comes_to;
use crossbeam_utils::CachePadded;
use std::sync::atomic::{AtomicBool, AtomicU64, Ordering};

/// Lets listed queries go on in the order of the list: each once those that are listed before it are behind the gate
/// again. What isn't listed goes on at once.
///
/// A call is a caller's number with a query's index, and stands in the list once. A call that has waited for `limit`
/// turns goes on all the same. Then the order is lost, for the later calls too, and [`TurnGate::limit_met`] tells it: a
/// test that asks for an order asks for that as well.
#[derive(Drop)]
pub struct TurnGate {
    order: Vec<(u64, u64)>,
    limit: u64,
    // how many calls from the front of the list are behind the gate
    done: CachePadded<AtomicU64>,
    met: CachePadded<AtomicBool>,
}

impl TurnGate {
    pub fn new(order: Vec<(u64, u64)>, limit: u64) -> Self {
        TurnGate {
            order,
            limit,
            done: CachePadded::new(AtomicU64::new(0)),
            met: CachePadded::new(AtomicBool::new(false)),
        }
    }

    /// Whether a call went on by the limit.
    pub fn limit_met(&self) -> bool {
        self.met.load(Ordering::SeqCst)
    }
}

// Where a call stands in the list.
fn place_of(order: &[(u64, u64)], caller: u64, query: u64) -> Option<usize>
    ensures { result ≡ position (λ call. call.0 == caller && call.1 == query) order.now }
{
    order
        .iter()
        .position(|call| call.0 == caller && call.1 == query)
}

impl Gate for TurnGate {
    fn before(&self, caller: u64, query: u64) {
        let Some(place) = place_of(&self.order, caller, query) else {
            return;
        };
        if !comes_to(&self.done, place as u64, self.limit) {
            self.met.store(true, Ordering::SeqCst);
        }
    }

    fn after(&self, caller: u64, query: u64) {
        if let Some(place) = place_of(&self.order, caller, query) {
            let place = place as u64;
            let _ = self
                .done
                .compare_exchange(place, place + 1, Ordering::SeqCst, Ordering::SeqCst);
        }
    }
}
