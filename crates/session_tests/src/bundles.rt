//! The command over bundles of sessions.
use crate::ends::WRITE_FAULT;
use crate::running::{Failing, NONE, run, words_of};
use std::alloc::Global;
use std::process::Abort;
use std::sync::Wait;
use std::test::Fail;
use std::thread::Threads;

/// Two sessions, of which the first goes on behind the second.
const BUNDLE: &str = r#"@1
{"job":"a","op":"lk","steps":[{"rule":"ax","main":"p","premises":[],"left":["p"],"right":["p"]}]}
@0
{"job":"a","op":"lk","steps":[{"rule":"ax","main":"p","premises":[],"left":["p"],"right":["p"]}]}
@1
{"job":"b","op":"measure","proof":"a"}
"#;

/// The replies to them.
const REPLIES: &str = r#"@1
{"job":"a","n":1,"ok":{"cuts":0,"left":["p"],"quants":0,"right":["p"]}}
{"job":"b","n":2,"ok":{"cuts":0,"nodes":1,"quants":0,"size":1}}
@0
{"job":"a","n":1,"ok":{"cuts":0,"left":["p"],"quants":0,"right":["p"]}}
"#;

/// Bundles with their statuses, what is written, and what is noted.
const CASES: [(&str, u8, &str, &str); 8] = [
    (BUNDLE, 0, REPLIES, ""),
    ("", 0, "", ""),
    ("@15\n@7", 0, "@15\n@7\n", ""),
    (
        "{}\n@3\n",
        1,
        "@0\n{\"error\":{\"field\":\"job\",\"kind\":\"field\"},\"job\":null,\"n\":1}\n@3\n",
        "",
    ),
    ("@0\n@16\n", 7, "", "gaptd: bad session line 2\n"),
    ("@", 7, "", "gaptd: bad session line 1\n"),
    ("\n\n@01\n@x\n", 7, "", "gaptd: bad session line 3\n"),
    (
        "\n\n\n\n\n\n\n\n\n\n\n@1 \n",
        7,
        "",
        "gaptd: bad session line 12\n",
    ),
];

/// Sees that the sessions of a bundle come to a status, what is written and what is noted, for each number of workers.
fn expect_for_all_workers<R: Abort + Wait + Threads + Sync>(
    rt: &R,
    alloc: Global,
    input: &str,
    status: u8,
    replies: &str,
    note: &str,
) -> Result<(), Fail> {
    for line in [
        "--sessions",
        "--sessions --workers 1",
        "--workers=2 --sessions",
        "--workers 16 --sessions --",
    ] {
        let words = words_of(alloc, line)?;
        let ran = run(rt, alloc, &words, input.as_bytes(), 7, NONE)?;
        assert_eq!(rt;
            str::from_utf8(ran.written.as_slice()),
            Ok(replies),
            "{line}"
        );
        assert_eq!(rt; str::from_utf8(ran.notes.as_slice()), Ok(note), "{line}");
        assert_eq!(rt; ran.status, status, "{line}");
    }
    Ok(())
}

#[test]
fn bundles_are_served_or_refused(rt: HostRuntime) -> Result<(), Fail> {
    for (input, status, replies, note) in CASES {
        expect_for_all_workers(&rt, rt.alloc(), input, status, replies, note)?;
    }
    Ok(())
}

/// Nothing is written of a bundle whose reading fails; it has 244 bytes, and the read behind them meets its end.
#[test]
fn a_read_of_a_bundle_fails(rt: HostRuntime) -> Result<(), Fail> {
    let words = words_of(rt.alloc(), "--workers 1 --sessions")?;
    for call in [1, 2, 4, 102, 244, 245, 246] {
        let failing = Failing { read: call, ..NONE };
        let ran = run(&rt, rt.alloc(), &words, BUNDLE.as_bytes(), 1, failing)?;
        let (status, replies) = if call > 245 { (0, REPLIES) } else { (3, "") };
        assert_eq!(rt;
            ran.written.as_slice(),
            replies.as_bytes(),
            "at read {call}"
        );
        assert_eq!(rt; ran.status, status, "at read {call}");
    }
    Ok(())
}

/// The replies have 214 bytes, 3 of them a first switch and 139 the first session with it. The call behind them is a flush.
#[test]
fn a_write_of_a_bundle_fails(rt: HostRuntime) -> Result<(), Fail> {
    let words = words_of(rt.alloc(), "--workers 1 --sessions")?;
    for call in [1, 2, 3, 4, 75, 139, 140, 142, 214, 215, 216] {
        let failing = Failing {
            write: call,
            ..NONE
        };
        let ran = run(&rt, rt.alloc(), &words, BUNDLE.as_bytes(), 1, failing)?;
        let count = call.saturating_sub(1).min(214);
        let (status, note) = if call > 215 {
            (0, "")
        } else {
            (4, WRITE_FAULT)
        };
        assert_eq!(rt; ran.written.len() as u64, count, "at write {call}");
        assert!(rt;
            REPLIES.as_bytes().starts_with(&ran.written),
            "at write {call}"
        );
        assert_eq!(rt; ran.status, status, "at write {call}");
        assert_eq!(rt; ran.notes.as_slice(), note.as_bytes(), "at write {call}");
    }
    Ok(())
}
