//! What passes through the adapters, which no clause says.
use crate::{StdClocks, StdSink, StdSource};
use ql_base::{Clock, Clocks, ReadFault, Sink, read_to_end, write_whole};
use std::alloc::{AllocError, Global};
use std::io::{BufWriter, ErrorKind, Read, Write};
use std::{io, time};

// A reader and writer that moves at most three bytes a call. Every other call is interrupted, and all from a certain
// one on are refused.
#[derive(Drop)]
struct Faltering {
    bytes: Vec<u8>,
    at: usize,
    calls: u64,
    refused_from: u64,
}

impl Faltering {
    fn new(bytes: Vec<u8>, refused_from: u64) -> Self {
        Faltering {
            bytes,
            at: 0,
            calls: 0,
            refused_from,
        }
    }

    fn count_call(&mut self) -> io::Result<()> {
        let call = self.calls;
        self.calls = call.saturating_add(1);
        if call >= self.refused_from {
            return Err(ErrorKind::Other.into());
        }
        if call % 2 == 0 {
            return Err(ErrorKind::Interrupted.into());
        }
        Ok(())
    }
}

impl Read for Faltering {
    fn read(&mut self, buf: &mut [u8]) -> io::Result<usize> {
        self.count_call()?;
        let left = self.bytes.get(self.at..).unwrap_or(&[]);
        let count = left.len().min(buf.len()).min(3);
        buf[..count].copy_from_slice(&left[..count]);
        self.at = self.at.saturating_add(count);
        Ok(count)
    }
}

impl Write for Faltering {
    fn write(&mut self, buf: &[u8]) -> io::Result<usize> {
        self.count_call()?;
        let count = buf.len().min(3);
        self.bytes.extend_from_slice(&buf[..count])?;
        Ok(count)
    }

    fn flush(&mut self) -> io::Result<()> {
        self.count_call()
    }
}

#[test]
fn a_source_gives_what_the_reader_gives(rt: HostRuntime) -> Result<(), AllocError> {
    let alloc = rt.alloc();
    let bytes = vec![in alloc; 1, 2, 3, 4, 5, 6, 7]?;
    let mut source = StdSource::new(Faltering::new(bytes.clone()?, u64::MAX));
    assert!(rt; read_to_end(alloc, &mut source, 7) == Ok(bytes.clone()?));
    let mut source = StdSource::new(Faltering::new(bytes, 4));
    assert!(rt; read_to_end(alloc, &mut source, 7) == Err(ReadFault::Fault));
    Ok(())
}

#[test]
fn a_sink_hands_on_what_the_writer_takes(rt: HostRuntime) -> Result<(), AllocError> {
    let alloc = rt.alloc();
    let mut taken = Faltering::new(Vec::new(alloc), u64::MAX);
    {
        let Ok(buffered) = BufWriter::with_capacity(alloc, 4, &mut taken) else {
            return Err(AllocError);
        };
        let mut sink = StdSink::new(buffered);
        assert!(rt; write_whole(&mut sink, b"one line\n").is_ok());
        assert!(rt; write_whole(&mut sink, b"x").is_ok());
        assert!(rt; sink.flush().is_ok());
    }
    assert_eq!(rt; taken.bytes.as_slice(), b"one line\nx".as_slice());

    let mut sink = StdSink::new(Faltering::new(Vec::new(alloc), 0));
    assert!(rt; sink.write(b"x").is_err());
    assert!(rt; sink.flush().is_err());
    Ok(())
}

// A writer that takes nothing, and says so.
#[derive(Drop)]
struct Full;

impl Write for Full {
    fn write(&mut self, _buf: &[u8]) -> io::Result<usize> {
        Ok(0)
    }

    fn flush(&mut self) -> io::Result<()> {
        Ok(())
    }
}

#[test]
fn a_write_that_takes_nothing_is_a_fault(rt: HostRuntime) {
    assert!(rt; StdSink::new(Full).write(b"x").is_err());
}

#[test]
fn clocks_count_from_their_start_and_do_not_fall(rt: HostRuntime) {
    let clocks = StdClocks::new(&rt);
    let mut first = clocks.clock(0);
    let mut second = clocks.clock(1);
    let earlier = first.now();
    time::Clock::sleep(&rt, time::Duration::from_millis(3));
    let later = second.now();
    // An hour is far more than a test may take.
    assert!(rt;
        earlier.saturating_add(3) <= later,
        "{earlier}, then {later}"
    );
    assert!(rt; later < 3_600_000, "{later}");
}
