//! The next line of a source.
ghost use Rattle.std.specs.Prelude.{◌≡◌, ◌≤◌, false};
ghost use Rattle.edge_io.specs.Reading.{Answers};

use crate::ends::Source;
use crate::lines::{LineSoFar, take_piece};
use crate::reader::{LineReader, Refill};
use std::alloc::AllocError;

/// What a reader met next.
#[derive(Debug, Drop)]
pub enum Next {
    /// The next line, without its newline. A last line needs none.
    Line(Vec<u8>),
    /// The next line has more than `max` bytes. All of it was skipped.
    TooLong,
    /// Nothing is left.
    End,
    /// A read failed before the line was whole.
    ReadFault,
    /// The source has more bytes than the reader may hand on.
    InputFull,
    /// Memory ran out before the line was whole.
    Memory,
}

/// The next line of `source`, of at most `max` bytes. After any answer but `Line` and `TooLong` the
/// reader has ended, and may not be asked again.
pub fn next_line<S: Source>(reader: &mut LineReader, source: &mut S, max: u64) -> Next
    requires { reader.old.ended ≡ false }
    ensures answer { Answers result max (S.faults source.old) (S.faults source.new)
        reader.old reader.new (S.left source.old) (S.left source.new) }
    ensures kept { S.faults source.old ≤ S.faults source.new }
{
    if reader.is_at_end() {
        reader.finish();
        return Next::End;
    }
    let mut line = LineSoFar::new(reader.allocator());
    'pieces: loop {
        match take_piece(reader, &mut line, max) {
            Ok(true) => return line.into_next(),
            Ok(false) => {}
            Err(AllocError) => {
                reader.finish();
                return Next::Memory;
            }
        }
        match reader.refill(source) {
            Refill::Bytes => {}
            Refill::End => break,
            Refill::Fault => {
                reader.finish();
                return Next::ReadFault;
            }
            Refill::Full => {
                reader.finish();
                return Next::InputFull;
            }
        }
    }
    if line.is_empty() {
        reader.finish();
        return Next::End;
    }
    line.into_next()
}
