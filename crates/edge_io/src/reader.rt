//! The state of a reader of lines: a chunk of bytes, a place in it, and what may still be taken.
ghost use Rattle.std.specs.Prelude.{◌≡◌, ◌≤◌, ◌<◌, [], true, false, length, take, drop, IfOk, MatchResult};
ghost use Rattle.std.specs.Io.KnownBytes.{Consumes, IsAtEnd};
ghost use Rattle.edge_io.specs.Causes.{HasCause};
ghost use Rattle.edge_io.specs.Reader.{Reader};

use crate::ends::{Failed, Source};
use std::alloc::{AllocError, Global};
use std::marker::Model;

/// How many bytes a reader asks a source for at once.
const CHUNK: usize = 65536;

/// What a refill met.
pub(crate) enum Refill {
    Bytes,
    End,
    Fault,
    Full,
}

/// Cuts the bytes of a source into lines, a chunk at a time. It hands on at most as many bytes as its
/// limit says, and takes at most one byte more, which belongs to no line.
#[derive(Drop)]
pub struct LineReader {
    chunk: Vec<u8>,
    start: usize,
    end: usize,
    room: u64,
    at_end: bool,
    ended: bool,
}

impl Model for LineReader {
    ghost use Rattle.std.specs.Prelude.{◌≡◌, ◌≤◌, ◌<◌, true, take, drop, vec_len};
    ghost use Rattle.edge_io.specs.Reader.{Reader};

    ghost Value = { Reader };

    ghost view = { λ r. record {
      pending = drop r.start (take r.end r.chunk.items);
      room = r.room;
      at_end = r.at_end;
      ended = r.ended;
    } };

    ghost invariant = { λ r. (r.start ≤ r.end) × (r.end ≤ vec_len r.chunk) × (0 < vec_len r.chunk) × (r.at_end ≡ true → r.start ≡ r.end) };
}

impl LineReader {
    /// A reader that hands on at most `limit` bytes.
    pub fn new(alloc: Global, limit: u64) -> Result<LineReader, AllocError>
        ensures { IfOk result (λ r. r ≡ record {
          pending = [];
          room = limit;
          at_end = false;
          ended = false;
        }) }
    {
        let chunk = vec![in alloc; 0; CHUNK]?;
        Ok(LineReader {
            chunk,
            start: 0,
            end: 0,
            room: limit,
            at_end: false,
            ended: false,
        })
    }

    pub(crate) fn allocator(&self) -> Global {
        *self.chunk.allocator()
    }

    pub(crate) fn is_at_end(&self) -> bool
        ensures value { result ≡ self.now.at_end }
        // Nothing is pending behind the last line.
        ensures empty { self.now.at_end ≡ true → self.now.pending ≡ [] }
    {
        self.at_end
    }

    pub(crate) fn pending(&self) -> &[u8]
        ensures { result.now ≡ self.now.pending }
    {
        &self.chunk[self.start..self.end]
    }

    /// Marks the first `count` pending bytes as used.
    pub(crate) fn advance(&mut self, count: usize)
        requires { count ≤ length self.old.pending }
        ensures { self.new ≡ record self.old { pending = drop count self.old.pending } }
    {
        self.start += count;
    }

    /// Says that the reader answered something else than a line.
    pub(crate) fn finish(&mut self)
        ensures { self.new ≡ record self.old { ended = true } }
    {
        self.ended = true;
    }
}

impl LineReader {
    ghost use Rattle.edge_io.specs.Refilling.{Refills};

    /// Reads once. Where there is no room, one byte past the limit tells a full input from its end.
    pub(crate) fn refill<S: Source>(&mut self, source: &mut S) -> Refill
        requires empty { self.old.pending ≡ [] }
        requires fresh { self.old.at_end ≡ false }
        ensures refills { Refills result (S.faults source.old) (S.faults source.new)
            self.old self.new (S.left source.old) (S.left source.new) }
        ensures kept { S.faults source.old ≤ S.faults source.new }
    {
        self.start = 0;
        self.end = 0;
        let wanted = self.chunk.len().min(self.room.max(1) as usize);
        match fill(source, &mut self.chunk, wanted) {
            Ok(0) => {
                self.at_end = true;
                Refill::End
            }
            Ok(count) => {
                if self.room == 0 {
                    return Refill::Full;
                }
                self.end = count;
                self.room -= count as u64;
                Refill::Bytes
            }
            Err(Failed) => Refill::Fault,
        }
    }
}

/// Reads once into the first `wanted` bytes of `chunk`.
fn fill<S: Source>(source: &mut S, chunk: &mut [u8], wanted: usize) -> Result<usize, Failed>
    requires some { 0 < wanted }
    requires within { wanted ≤ length chunk.old }
    ensures bound { IfOk result (λ n. n ≤ wanted) }
    ensures bytes { MatchResult result
        (λ n. Consumes (S.left source.old) (S.left source.new) (take n chunk.new)
        × (n ≡ 0 → IsAtEnd (S.left source.new)))
        (λ _. Consumes (S.left source.old) (S.left source.new) []) }
    ensures cause { HasCause (S.faults source.old) (S.faults source.new) result }
    ensures kept { S.faults source.old ≤ S.faults source.new }
{
    match source.read(&mut chunk[..wanted]) {
        Ok(count) => Ok(count),
        Err(Failed) => Err(Failed),
    }
}
