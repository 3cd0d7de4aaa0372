//! The sessions of a bundle.
ghost use Rattle.std.specs.Prelude.{IfOk};
ghost use Rattle.std.specs.List.{All};
ghost use Rattle.proof_server.specs.Parts.{IsShort};

use crate::running::{JOB, REPLY};
use crate::windows::Meeting;
use proof_server::serve_parts;
use sessions::Part;
use std::alloc::Global;
use std::process::Abort;
use std::test::Fail;

// The most bytes of a part.
const LONGEST: usize = 1000;

// The part of a session that has one line.
fn part(alloc: Global, session: u32, line: &str) -> Result<Part, Fail>
    ensures { IfOk result IsShort }
{
    let text = format!(in alloc; "{line}\n")?;
    if text.len() > LONGEST {
        return Err(Fail::from("a long part"));
    }
    Ok(Part {
        session,
        bytes: text.into_bytes(),
    })
}

// Two sessions with one line, the same for both.
fn two_parts(alloc: Global) -> Result<Vec<Part>, Fail>
    ensures { IfOk result (λ parts. All IsShort parts.items) }
{
    let mut parts = Vec::new(alloc);
    parts.push(part(alloc, 1, JOB)?)?;
    parts.push(part(alloc, 0, JOB)?)?;
    Ok(parts)
}

/// Two sessions are run at the same time: the first one waits for the second. Each has its own names and its own numbers.
#[test]
fn two_sessions_meet(rt: HostRuntime) -> Result<(), Fail> {
    let alloc = rt.alloc();
    let gate = Meeting::new();
    let dones = serve_parts(&rt, alloc, two_parts(alloc)?, 2, &gate)?;
    assert!(rt; !gate.has_missed());
    assert_eq!(rt; dones.len(), 2);
    for (done, session) in dones.iter().zip([1, 0]) {
        assert_eq!(rt; done.session, session);
        assert_eq!(rt; done.status, 0);
        assert_eq!(rt; str::from_utf8(done.bytes.as_slice()), Ok(REPLY));
    }
    Ok(())
}
