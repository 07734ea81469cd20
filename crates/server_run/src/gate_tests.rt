//! What no clause says: that the gate is called once ahead of each query and once behind it, with its caller and its
//! index, in their order.
use crate::{Ended, serve_main};
use ql_base::{Gate, ListClocks, MemSink, MemSource};
use std::alloc::{AllocError, Global};
use std::sync::atomic::{AtomicBool, AtomicU64, Ordering};

// One call of a gate.
#[derive(Drop)]
struct CallCell {
    is_behind: AtomicBool,
    caller: AtomicU64,
    query: AtomicU64,
}

// A gate that keeps its first calls, and holds none back.
#[derive(Drop)]
struct RecordGate {
    made: AtomicU64,
    calls: Vec<CallCell>,
}

impl RecordGate {
    fn with_room(alloc: Global, room: u64) -> Result<Self, AllocError> {
        let mut calls = Vec::new(alloc);
        for _ in 0..room {
            calls.push(CallCell {
                is_behind: AtomicBool::new(false),
                caller: AtomicU64::new(u64::MAX),
                query: AtomicU64::new(u64::MAX),
            })?;
        }
        Ok(RecordGate {
            made: AtomicU64::new(0),
            calls,
        })
    }

    fn keep(&self, is_behind: bool, caller: u64, query: u64) {
        let call = self.made.fetch_add(1, Ordering::SeqCst);
        if let Some(cell) = self.calls.get(call as usize) {
            cell.is_behind.store(is_behind, Ordering::SeqCst);
            cell.caller.store(caller, Ordering::SeqCst);
            cell.query.store(query, Ordering::SeqCst);
        }
    }
}

impl Gate for RecordGate {
    fn before(&self, caller: u64, query: u64) {
        self.keep(false, caller, query);
    }

    fn after(&self, caller: u64, query: u64) {
        self.keep(true, caller, query);
    }
}

// A map is read and written, and the ledger is asked between the two.
#[test]
fn the_gate_stands_round_each_query(rt: HostRuntime) -> Result<(), AllocError> {
    let alloc: Global = rt.alloc();
    let words = vec![in alloc; String::from_str(alloc, "run")?]?;
    let script = b"cells 2\ncaller\nput 0 7 5\ngive 7 1\ntryget 1 7\nmove 0 1 7 5\n";
    let mut source = MemSource::new(script.to_vec(alloc)?, Vec::new(alloc));
    let Ok(mut sink) = MemSink::with_room(alloc, 4096, Vec::new(alloc)) else {
        return Err(AllocError);
    };
    let clocks = ListClocks::new(&[0]);
    let gate = RecordGate::with_room(alloc, 8)?;
    let mut ended = Ended::new();
    let status = serve_main(
        &rt,
        alloc,
        &words,
        &mut source,
        &mut sink,
        &clocks,
        &gate,
        &mut ended,
    );
    assert_eq!(rt; status, 0);
    assert_eq!(rt; gate.made.load(Ordering::SeqCst), 8);
    for (call, cell) in gate.calls.iter().enumerate() {
        assert_eq!(rt; cell.caller.load(Ordering::SeqCst), 0);
        assert_eq!(rt; cell.query.load(Ordering::SeqCst), call as u64 / 2);
        assert_eq!(rt; cell.is_behind.load(Ordering::SeqCst), call % 2 == 1);
    }
    Ok(())
}
