//! What no clause says: that a line of the log is handed to the sink as one piece, so a log that is cut by a failed
//! write is cut at a line's end.
ghost use Rattle.std.specs.Prelude.{Some};

use crate::{Ended, serve_main};
use ql_base::{Failed, ListClocks, MemSink, MemSource, OpenGate, Sink};
use std::alloc::{AllocError, Global};
use std::sync::Wait;
use std::thread::Threads;

// A sink in memory that looks at the pieces that it is handed.
#[derive(Drop)]
struct PieceSink {
    sink: MemSink,
    // how many pieces were one line each, and whether one was something else
    lines: u64,
    has_other: bool,
}

fn is_line(piece: &[u8]) -> bool {
    match piece.split_last() {
        Some((end, front)) => *end == b'\n' && !front.contains(&b'\n'),
        None => false,
    }
}

impl Sink for PieceSink {
    ghost written = { λ s. Some s.sink.written };

    ghost faults = { λ s. s.sink.faults };

    fn write(&mut self, piece: &[u8]) -> Result<usize, Failed> {
        if is_line(piece) {
            self.lines = self.lines.saturating_add(1);
        } else {
            self.has_other = true;
        }
        self.sink.write(piece)
    }
}

// The status of a run whose writes of these numbers fail, and the sink afterwards.
fn run<R: Threads + Wait + Sync + AllocGlobal>(
    rt: &R,
    failing: Vec<u64>,
) -> Result<(u8, PieceSink), AllocError> {
    let alloc: Global = rt.alloc();
    let words = vec![in alloc; String::from_str(alloc, "run")?]?;
    let script = b"cells 1\ncaller\nput 0 7 5\ngive 7 1\nget 0 7\n";
    let mut source = MemSource::new(script.to_vec(alloc)?, Vec::new(alloc));
    let Ok(sink) = MemSink::with_room(alloc, 4096, failing) else {
        return Err(AllocError);
    };
    let mut sink = PieceSink {
        sink,
        lines: 0,
        has_other: false,
    };
    let clocks = ListClocks::new(&[0]);
    let mut ended = Ended::new();
    let status = serve_main(
        rt,
        alloc,
        &words,
        &mut source,
        &mut sink,
        &clocks,
        &OpenGate,
        &mut ended,
    );
    Ok((status, sink))
}

// Each write fails in turn: what was written before it is the lines before it.
#[test]
fn a_log_is_cut_at_the_end_of_a_line(rt: HostRuntime) -> Result<(), AllocError> {
    let alloc: Global = rt.alloc();
    let log =
        b"querylog 1\ncells 1 rows 1024 callers 1\nmap 1 0 0 put 0 7 5 = new\nmap 2 0 2 get 0 7 = some 5\njob 0 0 1 give 7 1 = now 1\nqueries 3\nwrites 1\nreads 1\nrefused 0\njobs 1\nend\n";
    let (status, sink) = run(&rt, Vec::new(alloc))?;
    assert_eq!(rt; status, 0);
    assert_eq!(rt; sink.sink.written(), log.as_slice());
    assert_eq!(rt; (sink.lines, sink.has_other), (11, false));
    for call in 0..11 {
        let (status, sink) = run(&rt, vec![in alloc; call]?)?;
        let written = sink.sink.written();
        assert_eq!(rt; status, 5);
        assert_eq!(rt; (sink.lines, sink.has_other), (call + 1, false));
        assert!(rt; log.starts_with(written));
        let ends = written.iter().filter(|byte| **byte == b'\n').count();
        assert_eq!(rt; ends as u64, call);
        assert!(rt; written.is_empty() || written.ends_with(b"\n"));
    }
    Ok(())
}
