//! What no clause says: that a run and a soak succeed with ample memory, that the statuses come by themselves, and that
//! no query is asked where memory was wanting.
use crate::{Ended, serve_main};
use ql_base::{Gate, ListClocks, MemSink, MemSource, OpenGate};
use std::alloc::{AllocError, Global};
use std::sync::Wait;
use std::sync::atomic::{AtomicU64, Ordering};
use std::thread::Threads;

const ROOM: usize = 4096;

// The status of a run over this script, and what it wrote.
fn run<R: Threads + Wait + Sync + AllocGlobal>(
    rt: &R,
    words: &[String],
    script: &[u8],
    failing_reads: &[u64],
    failing_writes: &[u64],
) -> Result<(u8, Vec<u8>), AllocError> {
    let alloc: Global = rt.alloc();
    let mut source = MemSource::new(script.to_vec(alloc)?, failing_reads.to_vec(alloc)?);
    let Ok(mut sink) = MemSink::with_room(alloc, ROOM, failing_writes.to_vec(alloc)?) else {
        return Err(AllocError);
    };
    let clocks = ListClocks::new(&[0]);
    let mut ended = Ended::new();
    let status = serve_main(
        rt,
        alloc,
        words,
        &mut source,
        &mut sink,
        &clocks,
        &OpenGate,
        &mut ended,
    );
    Ok((status, sink.written().to_vec(alloc)?))
}

#[test]
fn a_status_that_is_not_done_has_its_cause(rt: HostRuntime) -> Result<(), AllocError> {
    let words = vec![in rt.alloc(); String::from_str(rt.alloc(), "run")?]?;
    let (status, written) = run(&rt, &words, b"cells 1\n", &[0], &[])?;
    assert_eq!(rt; (status, written.is_empty()), (4, true));
    let (status, written) = run(&rt, &words, b"cells 1\nget 0 1\n", &[], &[])?;
    assert_eq!(rt; status, 3);
    assert_eq!(rt; written.as_slice(), b"refused line 2 NoCaller\n".as_slice());
    let none: Vec<String> = Vec::new(rt.alloc());
    let (status, written) = run(&rt, &none, b"cells 1\n", &[], &[])?;
    assert_eq!(rt; (status, written.is_empty()), (2, true));
    Ok(())
}

#[test]
fn a_soak_comes_to_its_totals(rt: HostRuntime) -> Result<(), AllocError> {
    let alloc: Global = rt.alloc();
    let soak = String::from_str(alloc, "soak")?;
    let words = vec![in alloc; soak, String::from_str(alloc, "--count=16")?]?;
    let (status, written) = run(&rt, &words, b"", &[0], &[])?;
    assert_eq!(rt; status, 0);
    let summary =
        b"soak 16\nqueries 16\nwrites 4\nreads 8\nrefused 0\njobs 4\nsum 19\nledger 4\nend\n";
    assert_eq!(rt; written.as_slice(), summary.as_slice());
    let (status, written) = run(&rt, &words, b"", &[], &[2])?;
    assert_eq!(rt; status, 5);
    assert_eq!(rt; written.as_slice(), b"soak 16\nqueries 16\n".as_slice());
    Ok(())
}

// A gate that counts the queries, and holds none back.
#[derive(Drop)]
struct CountGate {
    asked: AtomicU64,
}

impl Gate for CountGate {
    fn before(&self, _caller: u64, _query: u64) {
        self.asked.fetch_add(1, Ordering::SeqCst);
    }

    fn after(&self, _caller: u64, _query: u64) {}
}

// `cases/no-memory` runs this test with each of its allocations refused in turn. Those before the call show nothing.
#[test]
fn no_query_is_asked_where_memory_is_refused(rt: HostRuntime) {
    let alloc: Global = rt.alloc();
    let script =
        b"cells 2\ncaller\nput 0 1 5\nget 0 1\nlen 0\nadd 0 1 2\ncas 0 1 7 9\nputlen 0 2 4\nmove 0 1 1 3\nboth 0 1 1\ntryget 1 1\ntryput 1 1 8\ngetby 1 1 0\nputby 1 2 7 0\ndel 0 2\ngive 5 10\ntake 5 4\naudit\n";
    let log =
        b"querylog 1\ncells 2 rows 1024 callers 1\nmap 1 0 0 put 0 1 5 = new\nmap 2 0 1 get 0 1 = some 5\nmap 2 0 2 len 0 = 1\nmap 3 0 3 add 0 1 2 = now 7\nmap 5 0 4 cas 0 1 7 9 = yes\nmap 7 0 5 putlen 0 2 4 = new 2\nmap 9 0 6 move 0 1 1 3 = moved\nmap 10 0 7 both 0 1 1 = some 6 some 3\nmap 10 0 8 tryget 1 1 = some 3\nmap 11 0 9 tryput 1 1 8 = old 3\nmap 12 0 10 getby 1 1 0 = some 8\nmap 13 0 11 putby 1 2 7 0 = new\nmap 15 0 12 del 0 2 = old 4\njob 0 0 13 give 5 10 = now 10\njob 1 0 14 take 5 4 = now 6\njob 2 0 15 audit = sum 6\nqueries 16\nwrites 8\nreads 5\nrefused 0\njobs 3\nend\n";
    let Ok(word) = String::from_str(alloc, "run") else {
        return;
    };
    let (Ok(words), Ok(bytes)) = (vec![in alloc; word], script.to_vec(alloc)) else {
        return;
    };
    let Ok(mut sink) = MemSink::with_room(alloc, ROOM, Vec::new(alloc)) else {
        return;
    };
    let mut source = MemSource::new(bytes, Vec::new(alloc));
    let clocks = ListClocks::new(&[0]);
    let gate = CountGate {
        asked: AtomicU64::new(0),
    };
    let mut ended = Ended::new();
    let status = serve_main(
        &rt,
        alloc,
        &words,
        &mut source,
        &mut sink,
        &clocks,
        &gate,
        &mut ended,
    );
    let asked = gate.asked.load(Ordering::SeqCst);
    if status == 6 {
        assert_eq!(rt; asked, 0);
        assert!(rt; sink.written().is_empty());
    } else {
        assert_eq!(rt; status, 0);
        assert_eq!(rt; asked, 16);
        assert_eq!(rt; sink.written(), log.as_slice());
    }
}
