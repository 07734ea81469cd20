//! A gate that holds one call back.
use crate::Gate;
use crate::turns::comes_to;
use crossbeam_utils::CachePadded;
use std::sync::atomic::{AtomicBool, AtomicU64, Ordering};

/// Holds back the first query that comes, whosever it is, until so many others are behind the gate. Every other query
/// goes on at once.
///
/// After `limit` turns the first one goes on all the same, and [`HoldGate::limit_met`] tells it.
#[derive(Drop)]
pub struct HoldGate {
    others: u64,
    limit: u64,
    came: CachePadded<AtomicBool>,
    // how many calls are behind the gate, up to 2^64 - 1
    done: CachePadded<AtomicU64>,
    met: CachePadded<AtomicBool>,
}

impl HoldGate {
    pub fn new(others: u64, limit: u64) -> Self {
        HoldGate {
            others,
            limit,
            came: CachePadded::new(AtomicBool::new(false)),
            done: CachePadded::new(AtomicU64::new(0)),
            met: CachePadded::new(AtomicBool::new(false)),
        }
    }

    /// Whether a query came: so one was held back.
    pub fn held(&self) -> bool {
        self.came.load(Ordering::SeqCst)
    }

    /// Whether the first query went on by the limit.
    pub fn limit_met(&self) -> bool {
        self.met.load(Ordering::SeqCst)
    }
}

impl Gate for HoldGate {
    fn before(&self, _caller: u64, _query: u64) {
        if self.came.swap(true, Ordering::SeqCst) {
            return;
        }
        if !comes_to(&self.done, self.others, self.limit) {
            self.met.store(true, Ordering::SeqCst);
        }
    }

    fn after(&self, _caller: u64, _query: u64) {
        let _ = self
            .done
            .fetch_update(Ordering::SeqCst, Ordering::SeqCst, |n| n.checked_add(1));
    }
}
