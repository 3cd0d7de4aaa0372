//! Command lines with the settings that the manual of the command gives them.
use command_words::{Settings, WordsError, read_words};
use std::alloc::{AllocError, Global};
use std::test::Fail;

// The words of a line, which stand between spaces.
fn words_of(alloc: Global, line: &str) -> Result<Vec<String>, AllocError> {
    let mut words = Vec::new(alloc);
    for word in line.split_whitespace() {
        words.push(word.to_owned(alloc)?)?;
    }
    Ok(words)
}

// Lines with the numbers of workers and of jobs to generate that they ask for, and whether they ask for a bundle. A line that is refused has no
// workers.
static LINES: &[(&str, u64, Option<u64>, bool)] = &[
    ("", 4, None, false),
    ("--workers 1", 1, None, false),
    ("--workers=16", 16, None, false),
    ("--gen 100000", 4, Some(100_000), false),
    ("--gen=1 --workers 2", 2, Some(1), false),
    ("--workers 3 --gen 7 --", 3, Some(7), false),
    ("--sessions", 4, None, true),
    ("--sessions --workers 2", 2, None, true),
    ("--workers=16 --sessions --", 16, None, true),
    ("--help", 0, None, false),
    ("-h", 0, None, false),
    ("--version", 0, None, false),
    ("-V", 0, None, false),
    ("help", 0, None, false),
    ("--workers", 0, None, false),
    ("--workers 0", 0, None, false),
    ("--workers 17", 0, None, false),
    ("--workers 04", 0, None, false),
    ("--workers +4", 0, None, false),
    ("--workers 18446744073709551617", 0, None, false),
    ("--gen 100001", 0, None, false),
    ("--workers 1 --workers 1", 0, None, false),
    ("--work 4", 0, None, false),
    ("--gen 1 --sessions", 0, None, false),
    ("--sessions --gen=4", 0, None, false),
    ("--sessions --sessions", 0, None, false),
    ("--sessions=true", 0, None, false),
    ("--session", 0, None, false),
    ("-- 4", 0, None, false),
    ("x", 0, None, false),
];

#[test]
fn settings(rt: HostRuntime) -> Result<(), Fail> {
    for &(line, workers, generate, sessions) in LINES {
        let expected = if workers == 0 {
            Err(WordsError::Usage)
        } else {
            Ok(Settings {
                workers,
                generate,
                sessions,
            })
        };
        let words = words_of(rt.alloc(), line)?;
        assert!(rt; read_words(rt.alloc(), &words) == expected, "{line}");
    }
    Ok(())
}
