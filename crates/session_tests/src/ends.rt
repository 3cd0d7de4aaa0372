//! Sources and sinks that fail in mid-stream.
use crate::running::{Failing, NONE, run};
use std::test::Fail;

const READ_FAULT: &str = "gaptd: read fault\n";

/// The note of a write that failed.
pub const WRITE_FAULT: &str = "gaptd: write fault\n";

/// Three jobs of 98 bytes each with the newline.
const JOBS: &str =
    r#"{"job":"a","op":"lk","steps":[{"rule":"ax","main":"p","premises":[],"left":["p"],"right":["p"]}]}
{"job":"b","op":"lk","steps":[{"rule":"ax","main":"p","premises":[],"left":["p"],"right":["p"]}]}
{"job":"c","op":"lk","steps":[{"rule":"ax","main":"p","premises":[],"left":["p"],"right":["p"]}]}
"#;

/// The replies to them, of 72 bytes each.
const REPLIES: &str = r#"{"job":"a","n":1,"ok":{"cuts":0,"left":["p"],"quants":0,"right":["p"]}}
{"job":"b","n":2,"ok":{"cuts":0,"left":["p"],"quants":0,"right":["p"]}}
{"job":"c","n":3,"ok":{"cuts":0,"left":["p"],"quants":0,"right":["p"]}}
"#;

/// At each call that fails the replies to the whole lines before it are written; the 295th read meets the end of the input.
#[test]
fn a_read_fails_at_each_call(rt: HostRuntime) -> Result<(), Fail> {
    for call in 1..=296u64 {
        let failing = Failing { read: call, ..NONE };
        let ran = run(&rt, rt.alloc(), &[], JOBS.as_bytes(), 1, failing)?;
        let count = (call.saturating_sub(1) / 98).saturating_mul(72);
        let (status, note) = if call > 295 { (0, "") } else { (3, READ_FAULT) };
        assert_eq!(rt; ran.written.len() as u64, count, "at read {call}");
        assert!(rt;
            REPLIES.as_bytes().starts_with(&ran.written),
            "at read {call}"
        );
        assert_eq!(rt; ran.status, status, "at read {call}");
        assert_eq!(rt; ran.notes.as_slice(), note.as_bytes(), "at read {call}");
    }
    Ok(())
}

/// The replies have 216 bytes. The call behind them is a flush.
#[test]
fn a_write_fails_at_each_call(rt: HostRuntime) -> Result<(), Fail> {
    for call in 1..=218u64 {
        let failing = Failing {
            write: call,
            ..NONE
        };
        let ran = run(&rt, rt.alloc(), &[], JOBS.as_bytes(), 1, failing)?;
        let count = call.saturating_sub(1).min(216);
        let (status, note) = if call > 217 {
            (0, "")
        } else {
            (4, WRITE_FAULT)
        };
        assert_eq!(rt; ran.written.len() as u64, count, "at write {call}");
        assert!(rt;
            REPLIES.as_bytes().starts_with(&ran.written),
            "at write {call}"
        );
        assert_eq!(rt; ran.status, status, "at write {call}");
        assert_eq!(rt; ran.notes.as_slice(), note.as_bytes(), "at write {call}");
    }
    Ok(())
}

/// The bytes of the replies to the first 64 lines.
fn first_window(written: &[u8]) -> u64 {
    let mut lines = 0u64;
    let mut bytes = 0u64;
    for byte in written {
        if lines < 64 {
            bytes = bytes.saturating_add(1);
        }
        if *byte == b'\n' {
            lines = lines.saturating_add(1);
        }
    }
    bytes
}

/// The replies of a full window are written a byte a call. Then comes a flush, and the reply to the next line only at the end of the input.
#[test]
fn a_full_window_is_flushed(rt: HostRuntime) -> Result<(), Fail> {
    let mut input = String::new(rt.alloc());
    for _ in 0..65 {
        input.push_str("{}\n")?;
    }
    let whole = run(&rt, rt.alloc(), &[], input.as_bytes(), 1, NONE)?;
    let window = first_window(&whole.written);
    assert!(rt; (whole.written.len() as u64) > window);
    for behind in 0..3u64 {
        let failing = Failing {
            write: window.saturating_add(1).saturating_add(behind),
            ..NONE
        };
        let ran = run(&rt, rt.alloc(), &[], input.as_bytes(), 1, failing)?;
        let count = window.saturating_add(behind.saturating_sub(1));
        assert_eq!(rt;
            ran.written.len() as u64,
            count,
            "{behind} calls behind the flush"
        );
        assert_eq!(rt; ran.status, 4, "{behind} calls behind the flush");
    }
    Ok(())
}

/// Where a write or the flush behind a read fault fails too, the status is that of a write fault. A reply goes out in two calls of 50
/// bytes, and the second or the third one only in part.
#[test]
fn a_session_is_cut_off(rt: HostRuntime) -> Result<(), Fail> {
    let cases = [
        (1, 295, 1, 0, 4, WRITE_FAULT),
        (1, 295, 217, 216, 4, WRITE_FAULT),
        (50, 0, 4, 122, 4, WRITE_FAULT),
        (50, 0, 6, 194, 4, WRITE_FAULT),
    ];
    for (piece, read, write, count, status, note) in cases {
        let failing = Failing {
            read,
            write,
            note: 0,
        };
        let ran = run(&rt, rt.alloc(), &[], JOBS.as_bytes(), piece, failing)?;
        assert_eq!(rt; ran.written.len(), count, "{failing:?}");
        assert!(rt; REPLIES.as_bytes().starts_with(&ran.written), "{failing:?}");
        assert_eq!(rt; ran.status, status, "{failing:?}");
        assert_eq!(rt; ran.notes.as_slice(), note.as_bytes(), "{failing:?}");
    }
    Ok(())
}
