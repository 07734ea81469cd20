//! A source and a sink over std's readers and writers.
ghost use Rattle.std.specs.Prelude.{◌≡◌, ◌≤◌, ℕ, None, IfOk, length};
ghost use Rattle.ql_base.specs.Causes.{HasCause, Rose};

use ql_base::{Failed, Sink, Source};
use std::io;
use std::io::{ErrorKind, Read, Write};
use std::marker::Model;

/// A source over a reader. Contracts see the count of its faults alone.
///
/// A read that the reader refuses raises that count, but for one that a signal interrupted: it is tried again within
/// the call.
#[derive(Drop)]
pub struct StdSource<R> {
    reader: R,
    faults: u64,
}

impl<R> Model for StdSource<R> {
    ghost Value = { ℕ };

    ghost view = { λ s. s.faults };
}

impl<R: Read> StdSource<R> {
    pub fn new(reader: R) -> Self
        ensures { result ≡ 0 }
    {
        StdSource { reader, faults: 0 }
    }
}

impl<R: Read> Source for StdSource<R> {
    ghost left = { λ _. None };

    ghost faults = { λ s. s };

    fn read(&mut self, buf: &mut [u8]) -> Result<usize, Failed> {
        match read_uninterrupted(&mut self.reader, buf) {
            Ok(count) => Ok(count),
            Err(_) => {
                self.faults = self.faults.saturating_add(1);
                Err(Failed)
            }
        }
    }
}

// One read, tried again where a signal interrupts it. The loop counts, so that it is proved to end.
fn read_uninterrupted<R: Read>(reader: &mut R, buf: &mut [u8]) -> io::Result<usize>
    ensures { IfOk result (λ n. n ≤ length buf.new) }
{
    for _ in 1..u64::MAX {
        match reader.read(buf) {
            Err(error) if error.kind() == ErrorKind::Interrupted => {}
            answer => return answer,
        }
    }
    // No run comes here: it would have been interrupted as often as a u64 counts.
    reader.read(buf)
}

/// A sink over a writer. Contracts see the count of its faults alone.
///
/// A write or a flush that the writer refuses raises that count, and so does a write that takes nothing. One that a
/// signal interrupted is tried again within the call.
#[derive(Drop)]
pub struct StdSink<W> {
    writer: W,
    faults: u64,
}

impl<W> Model for StdSink<W> {
    ghost Value = { ℕ };

    ghost view = { λ s. s.faults };
}

impl<W: Write> StdSink<W> {
    pub fn new(writer: W) -> Self
        ensures { result ≡ 0 }
    {
        StdSink { writer, faults: 0 }
    }

    /// Hands on what the writer still holds. Call it once all is written: a writer that is dropped tells no fault.
    pub fn flush(&mut self) -> Result<(), Failed>
        ensures { HasCause self.old self.new result }
    {
        match flush_uninterrupted(&mut self.writer) {
            Ok(()) => Ok(()),
            Err(_) => Err(self.count_fault()),
        }
    }

    fn count_fault(&mut self) -> Failed
        ensures later { self.old ≤ self.new }
        ensures rose { Rose self.old self.new }
    {
        self.faults = self.faults.saturating_add(1);
        Failed
    }
}

impl<W: Write> Sink for StdSink<W> {
    ghost written = { λ _. None };

    ghost faults = { λ s. s };

    fn write(&mut self, piece: &[u8]) -> Result<usize, Failed> {
        match write_uninterrupted(&mut self.writer, piece) {
            Ok(count) if count > 0 => Ok(count),
            _ => Err(self.count_fault()),
        }
    }
}

// One write, tried again where a signal interrupts it. Its answer is short: an `io::Error` is dear to hand on.
fn write_uninterrupted<W: Write>(writer: &mut W, piece: &[u8]) -> Result<usize, Failed>
    ensures { IfOk result (λ n. n ≤ length piece.now) }
{
    for _ in 1..u64::MAX {
        match writer.write(piece) {
            Ok(count) => return Ok(count),
            Err(error) if error.kind() == ErrorKind::Interrupted => {}
            Err(_) => return Err(Failed),
        }
    }
    // No run comes here: it would have been interrupted as often as a u64 counts.
    Err(Failed)
}

// One flush, tried again where a signal interrupts it.
fn flush_uninterrupted<W: Write>(writer: &mut W) -> io::Result<()> {
    for _ in 1..u64::MAX {
        match writer.flush() {
            Err(error) if error.kind() == ErrorKind::Interrupted => {}
            answer => return answer,
        }
    }
    writer.flush()
}
