//! Ends in memory, for tests: they move bytes in pieces, and fail at the calls that they are told to.
ghost use Rattle.std.specs.Prelude.{◌≡◌, ◌≤◌, ◌<◌, ◌^◌, [], ◌++◌, length, take, drop, min, true, Some, IfOk, OnOk, OnErr, is_err};
ghost use Rattle.std.specs.Io.{ReadsAtMost, WritesAtMost};
ghost use Rattle.std.specs.Io.KnownBytes.{ReadConsumes, WriteAppends};
ghost use Rattle.edge_io.specs.Causes.{HasCause};
ghost use Rattle.edge_io.specs.Memory.{count_after, is_failing, moved_count};

use crate::ends::{Failed, Sink, Source};
use std::alloc::Global;
use std::marker::Model;

/// A source that gives some bytes, at most `piece` of them a call. It fails at the calls whose
/// numbers are in `failing`, counted from 1.
#[derive(Drop)]
pub struct MemSource {
    bytes: Vec<u8>,
    at: usize,
    piece: u64,
    failing: Vec<u64>,
    calls: u64,
    faults: u64,
}

impl Model for MemSource {
    ghost use Rattle.std.specs.Prelude.{◌≤◌, ◌<◌, drop, vec_len};
    ghost use Rattle.edge_io.specs.Memory.{SourceState};

    ghost Value = { SourceState };

    ghost view = { λ s. record {
      left = drop s.at s.bytes.items;
      piece = s.piece;
      failing = s.failing.items;
      calls = s.calls;
      faults = s.faults;
    } };

    ghost invariant = { λ s. (s.at ≤ vec_len s.bytes) × (0 < s.piece) };
}

impl MemSource {
    /// A source of `bytes` with no call so far.
    pub fn new(bytes: Vec<u8>, piece: u64, failing: Vec<u64>) -> MemSource
        requires { 1 ≤ piece }
        ensures { result ≡ record {
          left = bytes.items;
          piece = piece;
          failing = failing.items;
          calls = 0;
          faults = 0;
        } }
    {
        MemSource {
            bytes,
            at: 0,
            piece,
            failing,
            calls: 0,
            faults: 0,
        }
    }
}

impl Source for MemSource {
    ghost left = { λ s. Some s.left };

    ghost faults = { λ s. s.faults };

    fn read(&mut self, buf: &mut [u8]) -> Result<usize, Failed>
        ensures fails { is_err result ≡ is_failing self.old.failing (count_after self.old.calls) }
        ensures count { IfOk result
            (λ n. n ≡ moved_count self.old.piece (length buf.old) (length self.old.left)) }
        ensures front { IfOk result (λ n. buf.new ≡ take n self.old.left ++ drop n buf.old) }
        ensures ok { IfOk result (λ n. self.new ≡ record self.old {
          left = drop n self.old.left;
          calls = count_after self.old.calls;
        }) }
        ensures err { OnErr result (self.new ≡ record self.old {
          calls = count_after self.old.calls;
          faults = count_after self.old.faults;
        }) }

        // What each source says.
        ensures bytes { ReadConsumes (Some self.old.left) (Some self.new.left) result buf.new }
        ensures kept { self.old.faults ≤ self.new.faults }
        ensures few { self.new.faults < 2 ^ 64 }
    {
        self.calls = self.calls.saturating_add(1);
        if self.failing.contains(&self.calls) {
            self.faults = self.faults.saturating_add(1);
            return Err(Failed);
        }
        let left = self.bytes.len() - self.at;
        let count = (self.piece as usize).min(buf.len().min(left));
        buf[..count].copy_from_slice(&self.bytes[self.at..self.at + count]);
        self.at += count;
        Ok(count)
    }
}

/// A sink that keeps what it takes, at most `piece` bytes a call. It fails at the calls whose numbers
/// are in `failing`, counted from 1, writes and flushes together, and where its list can't grow.
#[derive(Drop)]
pub struct MemSink {
    bytes: Vec<u8>,
    flushed: usize,
    piece: u64,
    failing: Vec<u64>,
    calls: u64,
    faults: u64,
}

impl Model for MemSink {
    ghost use Rattle.std.specs.Prelude.{◌≤◌, ◌<◌, vec_len};
    ghost use Rattle.edge_io.specs.Memory.{SinkState};

    ghost Value = { SinkState };

    ghost view = { λ s. record {
      written = s.bytes.items;
      flushed = s.flushed;
      piece = s.piece;
      failing = s.failing.items;
      calls = s.calls;
      faults = s.faults;
    } };

    ghost invariant = { λ s. (s.flushed ≤ vec_len s.bytes) × (0 < s.piece) };
}

impl MemSink {
    /// An empty sink with no call so far.
    pub fn new(alloc: Global, piece: u64, failing: Vec<u64>) -> MemSink
        requires { 1 ≤ piece }
        ensures { result ≡ record {
          written = [];
          flushed = 0;
          piece = piece;
          failing = failing.items;
          calls = 0;
          faults = 0;
        } }
    {
        MemSink {
            bytes: Vec::new(alloc),
            flushed: 0,
            piece,
            failing,
            calls: 0,
            faults: 0,
        }
    }

    /// The bytes that were written.
    pub fn into_bytes(self) -> Vec<u8>
        ensures { result.items ≡ self.written }
    {
        self.bytes
    }
}

impl Sink for MemSink {
    ghost written = { λ s. Some s.written };

    ghost flushed = { λ s. Some (take s.flushed s.written) };

    ghost faults = { λ s. s.faults };

    /// It fails too where memory runs out, as at a call that is to fail.
    fn write(&mut self, bytes: &[u8]) -> Result<usize, Failed>
        ensures fails { is_failing self.old.failing (count_after self.old.calls) ≡ true
            → is_err result ≡ true }
        ensures count { IfOk result (λ n. n ≡ min self.old.piece (length bytes.now)) }
        ensures ok { IfOk result (λ n. self.new ≡ record self.old {
          written = self.old.written ++ take n bytes.now;
          calls = count_after self.old.calls;
        }) }
        ensures err { OnErr result (self.new ≡ record self.old {
          calls = count_after self.old.calls;
          faults = count_after self.old.faults;
        }) }

        // What each sink says.
        ensures some { IfOk result (λ n. 0 < length bytes.now → 0 < n) }
        ensures flushed { Some (take self.new.flushed self.new.written)
            ≡ Some (take self.old.flushed self.old.written) }
        ensures kept { self.old.faults ≤ self.new.faults }
        ensures few { self.new.faults < 2 ^ 64 }
    {
        self.calls = self.calls.saturating_add(1);
        if self.failing.contains(&self.calls) {
            self.faults = self.faults.saturating_add(1);
            return Err(Failed);
        }
        let count = (self.piece as usize).min(bytes.len());
        if self.bytes.extend_from_slice(&bytes[..count]).is_err() {
            self.faults = self.faults.saturating_add(1);
            return Err(Failed);
        }
        Ok(count)
    }

    fn flush(&mut self) -> Result<(), Failed>
        ensures fails { is_err result ≡ is_failing self.old.failing (count_after self.old.calls) }
        ensures ok { OnOk result (self.new ≡ record self.old {
          flushed = length self.old.written;
          calls = count_after self.old.calls;
        }) }
        ensures err { OnErr result (self.new ≡ record self.old {
          calls = count_after self.old.calls;
          faults = count_after self.old.faults;
        }) }

        // What each sink says.
        ensures kept { self.old.faults ≤ self.new.faults }
        ensures few { self.new.faults < 2 ^ 64 }
    {
        self.calls = self.calls.saturating_add(1);
        if self.failing.contains(&self.calls) {
            self.faults = self.faults.saturating_add(1);
            return Err(Failed);
        }
        self.flushed = self.bytes.len();
        Ok(())
    }
}
