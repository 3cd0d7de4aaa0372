//! What the command notes when it ends.
ghost use Rattle.std.specs.Prelude.{◌≡◌};
ghost use Rattle.proof_server.specs.Writing.{Puts};
ghost use Rattle.proof_server.specs.Command.{note_of, note_of_sessions};

use crate::bundles::{EndedSessions, sessions_status};
use crate::writing::{put, put_numbered};
use edge_io::{Failed, Sink};

/// The line that is noted for a status.
pub(crate) fn note(status: u8) -> &'static [u8]
    ensures { result.now ≡ note_of status }
{
    match status {
        2 => b"gaptd: usage: gaptd [--workers N] [--gen N] [--sessions]\n",
        3 => b"gaptd: read fault\n",
        4 => b"gaptd: write fault\n",
        5 => b"gaptd: out of memory\n",
        6 => b"gaptd: input too long\n",
        _ => b"",
    }
}

/// Notes how the sessions of a bundle ended, without memory.
pub(crate) fn put_sessions_note<E: Sink>(notes: &mut E, ended: EndedSessions) -> Result<(), Failed>
    ensures { Puts result (note_of_sessions ended) (E.faults notes.old) (E.faults notes.new) (E.written notes.old) (E.written notes.new) }
{
    match ended {
        EndedSessions::Switch(number) => put_numbered(notes, b"gaptd: bad session line ", number),
        _ => put(notes, note(sessions_status(ended))),
    }
}
