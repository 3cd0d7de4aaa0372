//! Runs over generated jobs.
use crate::ends::WRITE_FAULT;
use crate::running::{Failing, JOB, run, words_of};
use std::test::Fail;

/// The line of four jobs.
const FOUR: &str = r#"{"bytes":328,"jobs":4,"ok":4,"reductions":3,"refused":0}
"#;

/// The line of 200 jobs.
const TWO_HUNDRED: &str = r#"{"bytes":24349,"jobs":200,"ok":200,"reductions":231,"refused":0}
"#;

/// Nothing is read: the first read would fail, and end the run with status 3.
#[test]
fn replies_are_counted(rt: HostRuntime) -> Result<(), Fail> {
    let alloc = rt.alloc();
    let cases = [
        ("--gen 4", FOUR),
        ("--gen=4 --workers 2", FOUR),
        ("--gen 200 --workers 1", TWO_HUNDRED),
        ("--gen 200 --workers 4", TWO_HUNDRED),
        ("--gen 200 --workers 16", TWO_HUNDRED),
    ];
    let unread = Failing {
        read: 1,
        write: 0,
        note: 0,
    };
    for (line, counts) in cases {
        let words = words_of(alloc, line)?;
        let ran = run(&rt, alloc, &words, JOB.as_bytes(), 1000, unread)?;
        assert_eq!(rt;
            str::from_utf8(ran.written.as_slice()),
            Ok(counts),
            "{line}"
        );
        assert_eq!(rt; ran.status, 0, "{line}");
        assert!(rt; ran.notes.is_empty(), "{line}");
    }
    Ok(())
}

/// The line goes out in calls of 20 bytes, and then comes a flush.
#[test]
fn a_write_of_counts_fails(rt: HostRuntime) -> Result<(), Fail> {
    let alloc = rt.alloc();
    let words = words_of(alloc, "--gen 4")?;
    for (write, count) in [(1, 0), (2, 20), (3, 40), (4, 57)] {
        let failing = Failing {
            read: 1,
            write,
            note: 0,
        };
        let ran = run(&rt, alloc, &words, JOB.as_bytes(), 20, failing)?;
        assert_eq!(rt; ran.written.len(), count, "at write {write}");
        assert!(rt;
            FOUR.as_bytes().starts_with(&ran.written),
            "at write {write}"
        );
        assert_eq!(rt; ran.status, 4, "at write {write}");
        assert_eq!(rt;
            ran.notes.as_slice(),
            WRITE_FAULT.as_bytes(),
            "at write {write}"
        );
    }
    Ok(())
}
