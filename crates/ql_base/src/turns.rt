//! Waiting by turns.
use std::sync::atomic::{AtomicU64, Ordering};
use std::thread;

// Waits until so many calls were counted, for so many turns at most, each of which gives the processor away. Tells
// whether the count was reached.
pub(crate) fn comes_to(counted: &AtomicU64, wanted: u64, limit: u64) -> bool {
    for _ in 0..limit {
        if counted.load(Ordering::SeqCst) >= wanted {
            return true;
        }
        thread::yield_now();
    }
    counted.load(Ordering::SeqCst) >= wanted
}
