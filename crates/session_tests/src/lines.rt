//! Lines that are longer than one would write.
use crate::running::{JOB, expect};
use std::alloc::{AllocError, Global};
use std::test::Fail;

const NO_JSON: &str = r#"{"kind":"json"}"#;

const NO_NAME: &str = r#"{"field":"job","kind":"field"}"#;

/// Lines with the errors that are replied to them, none of which has a name.
#[derive(Drop)]
struct Refusals {
    input: Vec<u8>,
    replies: String,
    count: u64,
}

impl Refusals {
    fn new(alloc: Global) -> Refusals {
        Refusals {
            input: Vec::new(alloc),
            replies: String::new(alloc),
            count: 0,
        }
    }

    /// A further line, and the error that is replied to it.
    fn add(&mut self, alloc: Global, line: &[u8], error: &str) -> Result<(), AllocError> {
        self.count = self.count.saturating_add(1);
        let n = self.count;
        self.input.extend_from_slice(line)?;
        self.input.push(b'\n')?;
        let reply = format!(in alloc; "{{\"error\":{error},\"job\":null,\"n\":{n}}}\n")?;
        self.replies.push_str(reply.as_str())
    }
}

/// Each beginning of a job is no JSON, and 127 levels of nesting are read. A line that isn't UTF-8 is no JSON either.
#[test]
fn lines_are_cut_off_or_nested(rt: HostRuntime) -> Result<(), Fail> {
    let alloc = rt.alloc();
    let mut refusals = Refusals::new(alloc);
    for end in 1..JOB.len() {
        refusals.add(alloc, &JOB.as_bytes()[..end], NO_JSON)?;
    }
    for (levels, closed, error) in [
        (127, true, NO_NAME),
        (128, true, NO_JSON),
        (200, false, NO_JSON),
    ] {
        let mut line = vec![in alloc; b'['; levels]?;
        if closed {
            line.extend_from_slice(&vec![in alloc; b']'; levels]?)?;
        }
        refusals.add(alloc, &line, error)?;
    }
    refusals.add(alloc, b"{\"job\":\"\xff\"}", NO_JSON)?;
    for piece in [1, 1000] {
        expect(
            &rt,
            alloc,
            &refusals.input,
            piece,
            1,
            refusals.replies.as_str(),
        )?;
    }
    Ok(())
}

/// A job without its newline that is cut off is no JSON, wherever that is; with no byte it is no job.
#[test]
fn an_only_line_is_cut_off(rt: HostRuntime) -> Result<(), Fail> {
    let alloc = rt.alloc();
    expect(&rt, alloc, b"", 1, 0, "")?;
    for end in 1..JOB.len() {
        let reply = r#"{"error":{"kind":"json"},"job":null,"n":1}
"#;
        expect(&rt, alloc, &JOB.as_bytes()[..end], 1000, 1, reply)?;
    }
    Ok(())
}

/// A line of more than 16 MiB is a job even where it holds blanks alone, and the session goes on after it.
#[test]
fn a_line_is_too_long(rt: HostRuntime) -> Result<(), Fail> {
    let alloc = rt.alloc();
    let mut input = vec![in alloc; b' '; 16_777_217]?;
    input.push(b'\n')?;
    input.extend_from_slice(JOB.as_bytes())?;
    let replies = r#"{"error":{"kind":"line_too_long"},"job":null,"n":1}
{"job":"a","n":2,"ok":{"cuts":0,"left":["p"],"quants":0,"right":["p"]}}
"#;
    expect(&rt, alloc, &input, 1_000_000_000, 1, replies)
}
