//! The words of the command.
use crate::running::{Failing, JOB, NONE, REPLY, run, words_of};
use std::test::Fail;

const USAGE: &str = "gaptd: usage: gaptd [--workers N] [--gen N] [--sessions]\n";

/// Lines of words, each with whether they ask for a session.
const WORDS: [(&str, bool); 15] = [
    ("", true),
    ("--workers 4", true),
    ("--workers=1", true),
    ("--workers 16 --", true),
    ("--workers 0", false),
    ("--workers 17", false),
    ("--workers", false),
    ("--gen 0", false),
    ("--gen 100001", false),
    ("--workers 0 --gen 4", false),
    ("--gen 4 --sessions", false),
    ("--sessions --sessions", false),
    ("--help", false),
    ("--version", false),
    ("serve", false),
];

/// A note that can't be written changes no status.
#[test]
fn words_are_taken_or_refused(rt: HostRuntime) -> Result<(), Fail> {
    let alloc = rt.alloc();
    for (line, taken) in WORDS {
        let (status, replies, note) = if taken {
            (0, REPLY, "")
        } else {
            (2, "", USAGE)
        };
        let words = words_of(alloc, line)?;
        let ran = run(&rt, alloc, &words, JOB.as_bytes(), 1000, NONE)?;
        assert_eq!(rt; ran.status, status, "{line}");
        assert_eq!(rt; ran.written.as_slice(), replies.as_bytes(), "{line}");
        assert_eq!(rt; ran.notes.as_slice(), note.as_bytes(), "{line}");
        let unnoted = Failing { note: 1, ..NONE };
        let ran = run(&rt, alloc, &words, JOB.as_bytes(), 1000, unnoted)?;
        assert_eq!(rt; ran.status, status, "{line}");
        assert!(rt; ran.notes.is_empty(), "{line}");
    }
    Ok(())
}
