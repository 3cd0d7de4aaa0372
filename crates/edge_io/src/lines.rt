//! The part of a line that was taken so far.
ghost use Rattle.std.specs.Prelude.{◌≡◌, true, IfOk, OnOk, OnErr};
ghost use Rattle.std.specs.List.{position};
ghost use Rattle.edge_io.specs.Lines.{is_newline};
ghost use Rattle.edge_io.specs.LineSoFar.{Grows, TakesPiece, is_nothing, next_of};

use crate::next::Next;
use crate::reader::LineReader;
use std::alloc::{AllocError, Global};

const NEWLINE: u8 = b'\n';

/// The bytes of a line so far, unless they are too many to be handed on.
#[derive(Drop)]
pub(crate) enum LineSoFar {
    Kept(Vec<u8>),
    Skipped,
}

impl LineSoFar {
    pub(crate) fn new(alloc: Global) -> LineSoFar
        ensures { is_nothing result ≡ true }
    {
        LineSoFar::Kept(Vec::new(alloc))
    }

    pub(crate) fn is_empty(&self) -> bool
        ensures { result ≡ is_nothing self.now }
    {
        match self {
            LineSoFar::Kept(bytes) => bytes.is_empty(),
            LineSoFar::Skipped => false,
        }
    }

    pub(crate) fn into_next(self) -> Next
        ensures { result ≡ next_of self }
    {
        match self {
            LineSoFar::Kept(bytes) => Next::Line(bytes),
            LineSoFar::Skipped => Next::TooLong,
        }
    }

    /// Adds a piece, or forgets all where the line has more than `max` bytes then.
    fn extend(&mut self, piece: &[u8], max: u64) -> Result<(), AllocError>
        ensures { OnOk result (Grows self.old self.new max piece.now) }
    {
        match self {
            LineSoFar::Skipped => Ok(()),
            LineSoFar::Kept(bytes) => {
                if max.saturating_sub(bytes.len() as u64) < piece.len() as u64 {
                    *self = LineSoFar::Skipped;
                    return Ok(());
                }
                bytes.extend_from_slice(piece)?;
                Ok(())
            }
        }
    }
}

/// Moves the pending bytes before the first newline to the line, and takes that newline. It says
/// whether there is one.
pub(crate) fn take_piece(
    reader: &mut LineReader,
    line: &mut LineSoFar,
    max: u64,
) -> Result<bool, AllocError>
    ensures ok { IfOk result (λ whole. TakesPiece whole max line.old line.new reader.old reader.new) }
    ensures err { OnErr result (reader.new ≡ reader.old) }
{
    let pending = reader.pending();
    match newline_at(pending) {
        Some(at) => {
            line.extend(&pending[..at], max)?;
            reader.advance(at + 1);
            Ok(true)
        }
        None => {
            let count = pending.len();
            line.extend(pending, max)?;
            reader.advance(count);
            Ok(false)
        }
    }
}

fn newline_at(bytes: &[u8]) -> Option<usize>
    ensures { result ≡ position is_newline bytes.now }
{
    bytes.iter().position(|&byte| byte == NEWLINE)
}
