//! A source and a sink in memory, whose calls fail by a list.
ghost use Rattle.std.specs.Prelude.{◌≡◌, ◌+◌, ◌<◌, ◌≤◌, ◌⊎◌, ◌↔◌, min, take, drop, length};
ghost use Rattle.std.specs.Prelude.{vec_len, vec_capacity, Some, Contains};
ghost use Rattle.std.specs.Prelude.{IsErr, IsTrue, IfOk, OnOk, OnErr};
ghost use Rattle.std.specs.Io.KnownBytes.{ReadConsumes, WriteAppends};
ghost use Rattle.ql_base.specs.Causes.{HasCause, count_after};
ghost use Rattle.ql_base.specs.Memory.{SourceState, SinkState, fresh_source, fresh_sink};

use crate::{Failed, NoMemory, Sink, Source};
use std::alloc::Global;
use std::marker::Model;

/// The numbers of the calls that fail, and how many calls and faults there were.
#[derive(Drop)]
struct Calls {
    failing: Vec<u64>,
    made: u64,
    faults: u64,
}

impl Calls {
    fn none_yet(failing: Vec<u64>) -> Self
        ensures { result ≡ record { failing = failing; made = 0; faults = 0 } }
    {
        Calls {
            failing,
            made: 0,
            faults: 0,
        }
    }

    // Counts this call, and says whether it is one that fails.
    fn next_fails(&mut self) -> bool
        ensures listed { IsTrue result ↔ Contains self.old.failing.items self.old.made }
        ensures counted { self.new ≡ record self.old { made = count_after self.old.made } }
    {
        let call = self.made;
        self.made = self.made.saturating_add(1);
        self.failing.contains(&call)
    }

    fn count_fault(&mut self) -> Failed
        ensures { self.new ≡ record self.old { faults = count_after self.old.faults } }
    {
        self.faults = self.faults.saturating_add(1);
        Failed
    }
}

/// A source of these bytes, which it tells. Its calls are numbered from 0. A call whose number is listed fails, and no
/// other one. A read gives as much as fits.
#[derive(Drop)]
pub struct MemSource {
    bytes: Vec<u8>,
    at: usize,
    calls: Calls,
}

impl Model for MemSource {
    ghost Value = { SourceState };

    ghost view = { λ s. record {
      left = drop s.at s.bytes.items;
      failing = s.calls.failing.items;
      calls = s.calls.made;
      faults = s.calls.faults;
    } };

    ghost invariant = { λ s. s.at ≤ vec_len s.bytes };
}

impl MemSource {
    pub fn new(bytes: Vec<u8>, failing: Vec<u64>) -> Self
        ensures { result ≡ fresh_source bytes.items failing.items }
    {
        MemSource {
            bytes,
            at: 0,
            calls: Calls::none_yet(failing),
        }
    }
}

// Copies as much as fits to the front of the buffer, and says how much.
fn copy_front(buf: &mut [u8], from: &[u8]) -> usize
    ensures count { result ≡ min (length from.now) (length buf.old) }
    ensures copied { take result buf.new ≡ take result from.now }
    ensures len { length buf.new ≡ length buf.old }
{
    let count = from.len().min(buf.len());
    buf[..count].copy_from_slice(&from[..count]);
    count
}

impl Source for MemSource {
    ghost left = { λ s. Some s.left };

    ghost faults = { λ s. s.faults };

    fn read(&mut self, buf: &mut [u8]) -> Result<usize, Failed>
        ensures bound { IfOk result (λ n. n ≤ length buf.new) }
        ensures bytes { ReadConsumes (Some self.old.left) (Some self.new.left) result buf.new }
        ensures cause { HasCause self.old.faults self.new.faults result }

        ensures failed { IsErr result ↔ Contains self.old.failing self.old.calls }
        ensures taken { IfOk result (λ n. n ≡ min (length self.old.left) (length buf.old)) }
        ensures calls { self.new.calls ≡ count_after self.old.calls }
        ensures no_fault { OnOk result (self.new.faults ≡ self.old.faults) }
        ensures fault { OnErr result (self.new.faults ≡ count_after self.old.faults) }
        ensures failing { self.new.failing ≡ self.old.failing }
    {
        if self.calls.next_fails() {
            return Err(self.calls.count_fault());
        }
        let count = copy_front(buf, &self.bytes[self.at..]);
        self.at += count;
        Ok(count)
    }
}

/// A sink with room for so many bytes, which tells what was written. Its calls are numbered from 0. A call fails whose
/// number is listed, and so does one that finds no room, and no other one. A write takes as much as fits.
#[derive(Drop)]
pub struct MemSink {
    bytes: Vec<u8>,
    room: usize,
    calls: Calls,
}

impl Model for MemSink {
    ghost Value = { SinkState };

    ghost view = { λ s. record {
      written = s.bytes.items;
      room = s.room;
      failing = s.calls.failing.items;
      calls = s.calls.made;
      faults = s.calls.faults;
    } };

    ghost invariant = { λ s. vec_len s.bytes + s.room ≤ vec_capacity s.bytes };
}

impl MemSink {
    /// Takes all the memory that the sink ever needs.
    pub fn with_room(alloc: Global, room: usize, failing: Vec<u64>) -> Result<Self, NoMemory>
        ensures { IfOk result (λ sink. sink ≡ fresh_sink room failing.items) }
    {
        Ok(MemSink {
            bytes: Vec::with_capacity(alloc, room)?,
            room,
            calls: Calls::none_yet(failing),
        })
    }

    /// The bytes that were written.
    pub fn written(&self) -> &[u8]
        ensures { result.now ≡ self.now.written }
    {
        &self.bytes
    }
}

impl Sink for MemSink {
    ghost written = { λ s. Some s.written };

    ghost faults = { λ s. s.faults };

    fn write(&mut self, piece: &[u8]) -> Result<usize, Failed>
        requires { 0 < length piece.now }
        ensures some { IfOk result (λ n. 0 < n) }
        ensures bound { IfOk result (λ n. n ≤ length piece.now) }
        ensures bytes { WriteAppends (Some self.old.written) (Some self.new.written) result
            piece.now }
        ensures cause { HasCause self.old.faults self.new.faults result }

        ensures failed { IsErr result ↔
            Contains self.old.failing self.old.calls ⊎ (self.old.room ≡ 0) }
        ensures taken { IfOk result (λ n. n ≡ min self.old.room (length piece.now)) }
        ensures room { IfOk result (λ n. self.new.room + n ≡ self.old.room) }
        ensures kept { OnErr result (self.new.room ≡ self.old.room) }
        ensures calls { self.new.calls ≡ count_after self.old.calls }
        ensures no_fault { OnOk result (self.new.faults ≡ self.old.faults) }
        ensures fault { OnErr result (self.new.faults ≡ count_after self.old.faults) }
        ensures failing { self.new.failing ≡ self.old.failing }
    {
        if self.calls.next_fails() || self.room == 0 {
            return Err(self.calls.count_fault());
        }
        let count = piece.len().min(self.room);
        // The room was reserved, so this can't fail.
        self.bytes.extend_from_slice(&piece[..count]).unwrap();
        self.room -= count;
        Ok(count)
    }
}
