//! A few rounds of each kind, on one, two and four threads.
use crate::office::{run_jobs, run_owners};
use crate::plan::{Crowd, Layout, Turn};
use crate::shares::share;
use std::alloc::AllocError;
use std::test::Fail;

const ROUNDS: u64 = 500;

#[test]
fn every_round_is_done_where_there_is_memory(rt: HostRuntime) -> Result<(), Fail> {
    let layout = Layout { slots: 8, apart: 2 };
    for (crowd, threads) in [(Crowd::One, 1), (Crowd::Two, 2), (Crowd::Four, 4)] {
        let reads = share(&rt, rt.alloc(), crowd, Turn::Reads, ROUNDS, layout).map_err(
            |_| AllocError,
        )?;
        assert_eq!(rt; reads.deferred + reads.counted, threads * ROUNDS);
        let ran = run_jobs(&rt, rt.alloc(), crowd, 64, ROUNDS)?;
        assert_eq!(rt; ran, threads * ROUNDS);
        let combined = run_owners(&rt, rt.alloc(), crowd, 64, ROUNDS)?;
        assert!(rt; combined <= (threads - 1) * ROUNDS);
    }
    Ok(())
}
