//! A bundle is read, line by line.
ghost use Rattle.std.specs.Prelude.{◌≡◌, ◌≤◌, not, IfOk, OnOk, IfSome};
ghost use Rattle.sessions.specs.Switches.{is_faulty};
ghost use Rattle.sessions.specs.Bundles.{begun, with_line};
ghost use Rattle.sessions.specs.SoFar.{so_far_of};
ghost use Rattle.sessions.specs.Reading.{Reads, Tells, AreSmall};

use crate::parts::{Part, add};
use crate::switches::{LineKind, kind_of};
use edge_io::{LineReader, Next, Source, next_line};
use std::alloc::{AllocError, Global};

/// The most bytes that a bundle may have.
const MAX_BYTES: u64 = 67_108_864;

/// What a source was found to hold. Lines are looked at as they come, so what is met first is answered.
#[derive(Debug, Drop)]
pub enum Bundle {
    /// The parts, in the order of their first switch or line.
    Parts(Vec<Part>),
    /// The line with this number, counted from 1, begins with `@` and is no switch to a session.
    Switch(u64),
    /// A read failed.
    ReadFault,
    /// The source has more bytes than a bundle may have.
    InputFull,
    /// Memory ran out.
    Memory,
}

/// How far a bundle is read: the session that the next line belongs to, and the parts so far.
#[derive(Drop)]
struct Progress {
    session: u32,
    parts: Vec<Part>,
}

impl Progress {
    fn new(alloc: Global) -> Progress
        ensures { so_far_of result ≡ begun }
    {
        Progress {
            session: 0,
            parts: Vec::new(alloc),
        }
    }

    /// Takes a line in, and says whether it is right. A faulty switch changes nothing.
    fn take(&mut self, alloc: Global, mut line: Vec<u8>) -> Result<bool, AllocError>
        ensures right { IfOk result (λ right. right ≡ not (is_faulty line.items)) }
        ensures taken { OnOk result (so_far_of self.new ≡ with_line (so_far_of self.old) line.items) }
    {
        match kind_of(&line) {
            LineKind::Plain => {
                line.push(b'\n')?;
                add(&mut self.parts, self.session, line)?;
                Ok(true)
            }
            LineKind::Switch(session) => {
                self.session = session;
                add(&mut self.parts, session, Vec::new(alloc))?;
                Ok(true)
            }
            LineKind::Faulty => Ok(false),
        }
    }
}

/// Reads a bundle of up to 67,108,864 bytes to its end. A line that begins with `@` is a switch: `@` and a number from 0 to 15 without
/// leading zeros, and nothing else. The lines after it belong to that session, and those before any switch to session 0. A session has a
/// part where it has a line or a switch, and a later switch back to it goes on with its part. A last line without newline gets one.
pub fn read_bundle<S: Source>(alloc: Global, source: &mut S) -> Bundle
    ensures reads { Reads result (S.faults source.old) (S.faults source.new) (S.left source.old) (S.left source.new) }

    // Of a source that tells its bytes.
    ensures told { IfSome (S.left source.old) (Tells result) }
    ensures small { AreSmall result }
    ensures kept { S.faults source.old ≤ S.faults source.new }
{
    let mut reader = match LineReader::new(alloc, MAX_BYTES) {
        Ok(reader) => reader,
        Err(_) => return Bundle::Memory,
    };
    let mut progress = Progress::new(alloc);
    let mut number = 0u64;
    'lines: loop {
        match next_line(&mut reader, source, MAX_BYTES) {
            Next::Line(line) => {
                number += 1;
                match progress.take(alloc, line) {
                    Ok(true) => {}
                    Ok(false) => return Bundle::Switch(number),
                    Err(_) => return Bundle::Memory,
                }
            }
            Next::TooLong => unreachable!(),
            Next::End => return Bundle::Parts(progress.parts),
            Next::ReadFault => return Bundle::ReadFault,
            Next::InputFull => return Bundle::InputFull,
            Next::Memory => return Bundle::Memory,
        }
    }
}
