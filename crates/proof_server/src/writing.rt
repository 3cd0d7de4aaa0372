//! Writes of several pieces, without memory.
ghost use Rattle.std.specs.Prelude.{◌≡◌, ◌≤◌, ◌++◌, ◌∷◌, [], decimal};
ghost use Rattle.proof_server.specs.Writing.{Puts};

use edge_io::{Failed, Sink, write_whole};
use itoa::Buffer;

/// Writes a piece. It stops at the first call that fails, and flushes nothing.
pub(crate) fn put<K: Sink>(sink: &mut K, piece: &[u8]) -> Result<(), Failed>
    ensures puts { Puts result piece.now (K.faults sink.old) (K.faults sink.new) (K.written sink.old) (K.written sink.new) }
    ensures kept { K.faults sink.old ≤ K.faults sink.new }
{
    match write_whole(sink, piece) {
        Ok(()) => Ok(()),
        Err(_) => Err(Failed),
    }
}

/// Writes two pieces, one behind the other.
pub(crate) fn put_both<K: Sink>(sink: &mut K, first: &[u8], second: &[u8]) -> Result<(), Failed>
    ensures puts { Puts result (first.now ++ second.now) (K.faults sink.old) (K.faults sink.new) (K.written sink.old) (K.written sink.new) }
    ensures kept { K.faults sink.old ≤ K.faults sink.new }
{
    match put(sink, first) {
        Ok(()) => put(sink, second),
        Err(failed) => Err(failed),
    }
}

/// Writes a line: a text, and a number in decimal digits.
pub(crate) fn put_numbered<K: Sink>(sink: &mut K, text: &[u8], number: u64) -> Result<(), Failed>
    ensures puts { Puts result (text.now ++ (decimal number ++ 10 ∷ [])) (K.faults sink.old) (K.faults sink.new)
        (K.written sink.old) (K.written sink.new) }
    ensures kept { K.faults sink.old ≤ K.faults sink.new }
{
    let mut digits = Buffer::new();
    match put(sink, text) {
        Ok(()) => put_both(sink, digits.format(number).as_bytes(), b"\n"),
        Err(failed) => Err(failed),
    }
}
