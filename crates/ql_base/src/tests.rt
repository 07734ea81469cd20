//! What no clause says: that each call succeeds with ample memory, and worked examples.
use crate::{
    Clock, Clocks, Failed, Gate, HoldGate, ListClock, ListClocks, MemSink, MemSource, NoMemory,
    OpenGate, ReadFault, Sink, Source, TurnGate, read_to_end, write_whole,
};
use std::alloc::{AllocError, Global};
use std::sync::atomic::{AtomicU64, Ordering};
use std::thread::{Threads, join};

#[test]
fn a_source_gives_what_fits_and_fails_where_listed(rt: HostRuntime) -> Result<(), AllocError> {
    let alloc = rt.alloc();
    let mut source = MemSource::new(vec![in alloc; 1, 2, 3, 4, 5]?, vec![in alloc; 1]?);
    let mut buf = [0; 3];
    assert_eq!(rt; source.read(&mut buf), Ok(3));
    assert_eq!(rt; buf, [1, 2, 3]);
    assert_eq!(rt; source.read(&mut buf), Err(Failed));
    assert_eq!(rt; source.read(&mut buf), Ok(2));
    assert_eq!(rt; buf, [4, 5, 3]);
    assert_eq!(rt; source.read(&mut buf), Ok(0));
    Ok(())
}

#[test]
fn a_sink_takes_what_fits_and_fails_where_listed_or_full(
    rt: HostRuntime,
) -> Result<(), AllocError> {
    let alloc = rt.alloc();
    let Ok(mut sink) = MemSink::with_room(alloc, 5, vec![in alloc; 1]?) else {
        return Err(AllocError);
    };
    assert_eq!(rt; sink.write(b"abc"), Ok(3));
    assert_eq!(rt; sink.write(b"def"), Err(Failed));
    assert_eq!(rt; sink.write(b"def"), Ok(2));
    assert_eq!(rt; sink.write(b"f"), Err(Failed));
    assert_eq!(rt; sink.written(), b"abcde".as_slice());
    Ok(())
}

#[test]
fn a_piece_is_written_whole_or_up_to_the_fault(rt: HostRuntime) -> Result<(), AllocError> {
    let alloc = rt.alloc();
    let Ok(mut sink) = MemSink::with_room(alloc, 5, Vec::new(alloc)) else {
        return Err(AllocError);
    };
    assert_eq!(rt; write_whole(&mut sink, b""), Ok(()));
    assert_eq!(rt; write_whole(&mut sink, b"abc"), Ok(()));
    assert_eq!(rt; write_whole(&mut sink, b"def"), Err(Failed));
    assert_eq!(rt; sink.written(), b"abcde".as_slice());
    Ok(())
}

// Lengths round the length of one read and round the limit. The bytes repeat after 251, which is no divisor of 65536,
// so that a byte in the wrong place shows.
#[test]
fn all_is_read_up_to_the_limit(rt: HostRuntime) -> Result<(), AllocError> {
    let alloc = rt.alloc();
    for (len, limit) in [
        (0, 0),
        (1, 0),
        (65_536, 65_536),
        (65_537, 65_536),
        (200_000, 200_000),
        (200_001, 200_000),
        (200_000, 1_000_000),
    ] {
        let mut bytes = Vec::new(alloc);
        for i in 0..len {
            bytes.push((i % 251) as u8)?;
        }
        let mut source = MemSource::new(bytes.clone()?, Vec::new(alloc));
        let read = read_to_end(alloc, &mut source, limit);
        if len <= limit {
            assert!(rt; read == Ok(bytes), "{len} bytes under the limit {limit}");
        } else {
            assert!(rt;
                read == Err(ReadFault::TooLong),
                "{len} bytes under the limit {limit}"
            );
        }
    }
    Ok(())
}

#[test]
fn a_failed_read_is_a_fault(rt: HostRuntime) -> Result<(), AllocError> {
    let alloc = rt.alloc();
    let mut source = MemSource::new(vec![in alloc; 1, 2, 3]?, vec![in alloc; 1]?);
    assert!(rt; read_to_end(alloc, &mut source, 9) == Err(ReadFault::Fault));
    Ok(())
}

#[test]
fn a_listed_clock_gives_its_last_answer_again(rt: HostRuntime) -> Result<(), AllocError> {
    let alloc = rt.alloc();
    let mut clock = ListClock::new(vec![in alloc; 7, 3, 5]?);
    for want in [7, 3, 5, 5, 5] {
        assert_eq!(rt; clock.now(), want);
    }
    Ok(())
}

fn one_pushed(alloc: Global) -> Result<Vec<u64>, NoMemory> {
    let mut values = Vec::new(alloc);
    values.push(3)?;
    Ok(values)
}

#[test]
fn a_push_finds_memory(rt: HostRuntime) {
    assert!(rt; one_pushed(rt.alloc()).is_ok());
}

// What each of two callers is answered first and second by its own clock, on threads of their own.
fn two_callers<R: Threads, T: Clocks, G: Gate>(rt: &R, clocks: &T, gate: &G) -> [[u64; 2]; 2] {
    let ask = |caller: u64| {
        gate.before(caller, 0);
        let mut clock = clocks.clock(caller);
        let answers = [clock.now(), clock.now()];
        gate.after(caller, 0);
        answers
    };
    let (first, second) = join(rt, || ask(0), || ask(1));
    [first, second]
}

#[test]
fn each_caller_has_a_clock_of_its_own(rt: HostRuntime) {
    let answers = [4, 9];
    let clocks = ListClocks::new(&answers);
    assert_eq!(rt; two_callers(&rt, &clocks, &OpenGate), [[4, 9], [4, 9]]);
}

const LIMIT: u64 = 100_000_000;

// Asks so many queries through the gate, and tells when each was asked.
fn ask_all<G: Gate, const N: usize>(gate: &G, asked: &AtomicU64, caller: u64) -> [u64; N] {
    let mut times = [0; N];
    for (index, time) in times.iter_mut().enumerate() {
        gate.before(caller, index as u64);
        *time = asked.fetch_add(1, Ordering::SeqCst);
        gate.after(caller, index as u64);
    }
    times
}

#[test]
fn two_listed_calls_come_in_turn(rt: HostRuntime) -> Result<(), AllocError> {
    let gate = TurnGate::new(vec![in rt.alloc(); (0, 0), (1, 0)]?, LIMIT);
    let asked = AtomicU64::new(0);
    let (first, second) = join(
        &rt,
        || ask_all::<_, 1>(&gate, &asked, 0),
        || ask_all::<_, 1>(&gate, &asked, 1),
    );
    assert_eq!(rt; (first, second), ([0], [1]));
    assert!(rt; !gate.limit_met());
    Ok(())
}

// A caller that is run after the other one, or on the other one's thread, would meet the limit.
#[test]
fn a_call_comes_between_two_of_another_caller(rt: HostRuntime) -> Result<(), AllocError> {
    let gate = TurnGate::new(vec![in rt.alloc(); (0, 0), (1, 0), (0, 1)]?, LIMIT);
    let asked = AtomicU64::new(0);
    let (first, second) = join(
        &rt,
        || ask_all::<_, 2>(&gate, &asked, 0),
        || ask_all::<_, 1>(&gate, &asked, 1),
    );
    assert_eq!(rt; (first, second), ([0, 2], [1]));
    assert!(rt; !gate.limit_met());
    Ok(())
}

#[test]
fn the_first_call_is_held_behind_another(rt: HostRuntime) {
    let gate = HoldGate::new(1, LIMIT);
    let asked = AtomicU64::new(0);
    assert!(rt; !gate.held());
    let (first, second) = join(
        &rt,
        || ask_all::<_, 1>(&gate, &asked, 0),
        || ask_all::<_, 1>(&gate, &asked, 1),
    );
    assert!(rt; (first, second) == ([0], [1]) || (first, second) == ([1], [0]));
    assert!(rt; gate.held() && !gate.limit_met());
}

// On one thread: who isn't listed, or comes in turn, isn't held; who comes too early is let go.
#[test]
fn a_limit_lets_go(rt: HostRuntime) -> Result<(), AllocError> {
    let gate = TurnGate::new(vec![in rt.alloc(); (0, 0), (1, 0)]?, 3);
    gate.before(7, 7);
    gate.after(7, 7);
    gate.before(0, 0);
    gate.after(0, 0);
    gate.before(1, 0);
    assert!(rt; !gate.limit_met());
    let early = TurnGate::new(vec![in rt.alloc(); (0, 0), (1, 0)]?, 3);
    early.before(1, 0);
    assert!(rt; early.limit_met());
    let none = HoldGate::new(0, 0);
    none.before(0, 0);
    none.after(0, 0);
    assert!(rt; none.held() && !none.limit_met());
    let alone = HoldGate::new(1, 3);
    alone.before(0, 0);
    assert!(rt; alone.held() && alone.limit_met());
    Ok(())
}
