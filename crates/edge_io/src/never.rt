//! Ends that never fail: bytes in memory, and a sink that only counts.
ghost use Rattle.std.specs.Prelude.{◌≡◌, ◌+◌, ◌-◌, ◌^◌, ◌++◌, length, take, drop, min, Ok, Some, None};

use crate::ends::{Failed, Sink, Source};
use std::marker::Model;

/// A source that gives some bytes and never fails.
#[derive(Drop)]
pub struct NeverSource {
    bytes: Vec<u8>,
    at: usize,
}

impl Model for NeverSource {
    ghost use Rattle.std.specs.Prelude.{◌≤◌, ℕ, List, drop, vec_len};

    ghost Value = { List ℕ };

    ghost view = { λ s. drop s.at s.bytes.items };

    ghost invariant = { λ s. s.at ≤ vec_len s.bytes };
}

impl NeverSource {
    /// A source of `bytes`.
    pub fn new(bytes: Vec<u8>) -> NeverSource
        ensures { result ≡ bytes.items }
    {
        NeverSource { bytes, at: 0 }
    }
}

impl Source for NeverSource {
    ghost left = { λ s. Some s };

    ghost faults = { λ _. 0 };

    fn read(&mut self, buf: &mut [u8]) -> Result<usize, Failed>
        ensures count { result ≡ Ok (min (length buf.old) (length self.old)) }
        ensures front { buf.new ≡ take (length buf.old) self.old ++ drop (length self.old) buf.old }
        ensures rest { self.new ≡ drop (length buf.old) self.old }
    {
        let left = self.bytes.len() - self.at;
        let count = buf.len().min(left);
        buf[..count].copy_from_slice(&self.bytes[self.at..self.at + count]);
        self.at += count;
        Ok(count)
    }
}

/// A sink that counts the bytes that it takes, keeps none of them and never fails.
#[derive(Drop)]
pub struct NeverSink {
    count: u64,
}

impl Model for NeverSink {
    ghost use Rattle.std.specs.Prelude.{ℕ};

    ghost Value = { ℕ };

    ghost view = { λ s. s.count };
}

impl NeverSink {
    /// A sink that took no byte so far.
    pub fn new() -> NeverSink
        ensures { result ≡ 0 }
    {
        NeverSink { count: 0 }
    }

    /// How many bytes it took, or the greatest `u64` where they are more.
    pub fn count(&self) -> u64
        ensures { result ≡ self.now }
    {
        self.count
    }
}

impl Sink for NeverSink {
    ghost written = { λ _. None };

    ghost flushed = { λ _. None };

    ghost faults = { λ _. 0 };

    fn write(&mut self, bytes: &[u8]) -> Result<usize, Failed>
        ensures count { result ≡ Ok (length bytes.now) }
        ensures counted { self.new ≡ min (self.old + length bytes.now) (2 ^ 64 - 1) }
    {
        self.count = self.count.saturating_add(bytes.len() as u64);
        Ok(bytes.len())
    }

    fn flush(&mut self) -> Result<(), Failed>
        ensures done { result ≡ Ok tt }
        ensures same { self.new ≡ self.old }
    {
        Ok(())
    }
}
