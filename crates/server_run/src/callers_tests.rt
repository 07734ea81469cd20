//! What no clause says: that callers run side by side, and that the closes of a run without callers are handed out.
use crate::{Ended, serve_main};
use ql_base::{Gate, HoldGate, ListClocks, MemSink, MemSource, OpenGate, TurnGate};
use std::alloc::{AllocError, Global};
use std::sync::Wait;
use std::thread::Threads;

// A wait of so many turns ends by itself in no right program.
const LIMIT: u64 = 100_000_000;

// The status of a run over this script under this gate, what it wrote, and whether the closes were handed out.
fn run<R: Threads + Wait + Sync + AllocGlobal, G: Gate>(
    rt: &R,
    script: &[u8],
    gate: &G,
) -> Result<(u8, Vec<u8>, bool), AllocError> {
    let alloc: Global = rt.alloc();
    let words = vec![in alloc; String::from_str(alloc, "run")?]?;
    let mut source = MemSource::new(script.to_vec(alloc)?, Vec::new(alloc));
    let Ok(mut sink) = MemSink::with_room(alloc, 4096, Vec::new(alloc)) else {
        return Err(AllocError);
    };
    let clocks = ListClocks::new(&[0]);
    let mut ended = Ended::new();
    let status = serve_main(
        rt,
        alloc,
        &words,
        &mut source,
        &mut sink,
        &clocks,
        gate,
        &mut ended,
    );
    let is_closed = ended.hall.is_some() && ended.dist.is_some();
    Ok((status, sink.written().to_vec(alloc)?, is_closed))
}

#[test]
fn the_closes_of_a_run_without_callers_are_handed_out(rt: HostRuntime) -> Result<(), AllocError> {
    let (status, _, is_closed) = run(&rt, b"cells 1\n", &OpenGate)?;
    assert_eq!(rt; (status, is_closed), (0, true));
    let (status, _, is_closed) = run(&rt, b"cells 0\n", &OpenGate)?;
    assert_eq!(rt; (status, is_closed), (3, false));
    Ok(())
}

// Whoever runs one caller after the other meets the limit.
#[test]
fn a_caller_asks_between_two_queries_of_another(rt: HostRuntime) -> Result<(), AllocError> {
    let order = vec![in rt.alloc(); (0, 0), (1, 0), (0, 1)]?;
    let gate = TurnGate::new(order, LIMIT);
    let script = b"cells 1\ncaller\nput 0 1 5\nget 0 1\ncaller\nput 0 2 6\n";
    let (status, written, _) = run(&rt, script, &gate)?;
    assert_eq!(rt; (status, gate.limit_met()), (0, false));
    let log =
        b"querylog 1\ncells 1 rows 1024 callers 2\nmap 1 0 0 put 0 1 5 = new\nmap 3 1 0 put 0 2 6 = new\nmap 4 0 1 get 0 1 = some 5\nqueries 3\nwrites 2\nreads 1\nrefused 0\njobs 0\nend\n";
    assert_eq!(rt; written.as_slice(), log.as_slice());
    Ok(())
}

// Whoever runs all callers on one thread meets the limit, in whatever order.
#[test]
fn no_caller_waits_for_another_that_is_held_back(rt: HostRuntime) -> Result<(), AllocError> {
    let gate = HoldGate::new(1, LIMIT);
    let script = b"cells 1\ncaller\nput 0 1 5\ncaller\nput 0 2 6\n";
    let (status, written, _) = run(&rt, script, &gate)?;
    assert_eq!(rt; (status, gate.held(), gate.limit_met()), (0, true, false));
    let one =
        b"querylog 1\ncells 1 rows 1024 callers 2\nmap 1 0 0 put 0 1 5 = new\nmap 3 1 0 put 0 2 6 = new\nqueries 2\nwrites 2\nreads 0\nrefused 0\njobs 0\nend\n";
    let other =
        b"querylog 1\ncells 1 rows 1024 callers 2\nmap 1 1 0 put 0 2 6 = new\nmap 3 0 0 put 0 1 5 = new\nqueries 2\nwrites 2\nreads 0\nrefused 0\njobs 0\nend\n";
    assert!(rt; written.as_slice() == one.as_slice() || written.as_slice() == other.as_slice());
    Ok(())
}
