//! Lines over tables of inputs, and ends that fail in mid-stream.
use edge_io::{
    LineReader, MemSink, MemSource, Next, Sink, Source, StdSink, StdSource, next_line, write_whole,
};
use std::alloc::{AllocError, Global};
use std::io::{Error, ErrorKind, Read};
use std::test::Fail;

fn letter(next: &Next) -> u8 {
    match next {
        Next::Line(_) => b'L',
        Next::TooLong => b'T',
        Next::End => b'E',
        Next::ReadFault => b'R',
        Next::InputFull => b'I',
        Next::Memory => b'M',
    }
}

// What a reader answers: each line with a bar behind it, `#` for a line that is too long, and then the first letter of the last answer.
fn answers<S: Source>(
    alloc: Global,
    source: &mut S,
    limit: u64,
    max: u64,
) -> Result<Vec<u8>, AllocError> {
    let mut reader = LineReader::new(alloc, limit)?;
    let mut seen = Vec::new(alloc);
    'lines: for _ in 0..100 {
        match next_line(&mut reader, source, max) {
            Next::Line(line) => {
                seen.extend_from_slice(&line)?;
                seen.push(b'|')?;
            }
            Next::TooLong => seen.push(b'#')?,
            last => {
                seen.push(letter(&last))?;
                return Ok(seen);
            }
        }
    }
    Ok(seen)
}

static LINES: &[(&str, u64, u64, &str)] = &[
    ("", 100, 10, "E"),
    ("a", 100, 10, "a|E"),
    ("a\n", 100, 10, "a|E"),
    ("\n", 100, 10, "|E"),
    ("ab\n\n\ncd", 100, 10, "ab|||cd|E"),
    ("abc\nde\n", 100, 3, "abc|de|E"),
    ("abcd\nef\n", 100, 3, "#ef|E"),
    ("ab\ncdefghi", 100, 3, "ab|#E"),
    ("\na\n", 100, 0, "|#E"),
    ("", 0, 10, "E"),
    ("a", 0, 10, "I"),
    ("a\nbc\n", 5, 10, "a|bc|E"),
    ("a\nbc\n", 4, 10, "a|I"),
    ("a\nbc", 4, 10, "a|bc|E"),
    ("a\nbcd", 4, 10, "a|I"),
    ("abcdef", 5, 2, "I"),
];

#[test]
fn lines(rt: HostRuntime) -> Result<(), Fail> {
    let alloc = rt.alloc();
    for &(input, limit, max, expected) in LINES {
        for piece in [1, 2, 3, 1000] {
            let bytes = Vec::from_slice(alloc, input.as_bytes())?;
            let mut source = MemSource::new(bytes, piece, Vec::new(alloc));
            let seen = answers(alloc, &mut source, limit, max)?;
            assert!(rt;
                seen.as_slice() == expected.as_bytes(),
                "{input:?} in pieces of {piece}"
            );
        }
    }
    Ok(())
}

static FAILING_READS: &[(u64, &str)] = &[
    (1, "R"),
    (2, "R"),
    (3, "ab|R"),
    (4, "ab|cd|R"),
    (5, "ab|cd|E"),
];

#[test]
fn failing_reads(rt: HostRuntime) -> Result<(), Fail> {
    let alloc = rt.alloc();
    for &(failing, expected) in FAILING_READS {
        let bytes = Vec::from_slice(alloc, b"ab\ncd\n")?;
        let mut source = MemSource::new(bytes, 2, vec![in alloc; failing]?);
        let seen = answers(alloc, &mut source, 100, 10)?;
        assert!(rt;
            seen.as_slice() == expected.as_bytes(),
            "failing at {failing}"
        );
    }
    Ok(())
}

// A reader that is interrupted before it gives its bytes.
#[derive(Drop)]
struct Interrupted<'a> {
    bytes: &'a [u8],
    times: u8,
}

impl Read for Interrupted<'_> {
    fn read(&mut self, buf: &mut [u8]) -> std::io::Result<usize> {
        if self.times > 0 {
            self.times -= 1;
            return Err(Error::from(ErrorKind::Interrupted));
        }
        self.bytes.read(buf)
    }
}

// What becomes of two pieces and two flushes: `.` where all is done, else how many bytes were taken, or `-`.
fn taken<K: Sink>(alloc: Global, sink: &mut K) -> Result<Vec<u8>, AllocError> {
    let mut seen = Vec::new(alloc);
    for piece in [b"abc".as_slice(), b"defg".as_slice()] {
        match write_whole(sink, piece) {
            Ok(()) => seen.push(b'.')?,
            Err(partial) => {
                let written = partial.written;
                seen.extend_from_slice(format!(in alloc; "{written}")?.as_bytes())?;
            }
        }
    }
    for _ in 0..2 {
        seen.push(if sink.flush().is_ok() { b'.' } else { b'-' })?;
    }
    Ok(seen)
}

#[test]
fn failing_sink(rt: HostRuntime) -> Result<(), Fail> {
    let mut sink = MemSink::new(rt.alloc(), 2, vec![in rt.alloc(); 4, 6]?);
    let seen = taken(rt.alloc(), &mut sink)?;
    let bytes = sink.into_bytes();
    assert!(rt; seen.as_slice() == b".2.-".as_slice() && bytes.as_slice() == b"abcde".as_slice());
    Ok(())
}

// The place has room for the first piece and one byte more.
#[test]
fn full_sink(rt: HostRuntime) -> Result<(), Fail> {
    let mut place = [0; 4];
    let mut sink = StdSink::new(place.as_mut_slice());
    let seen = taken(rt.alloc(), &mut sink)?;
    assert!(rt; seen.as_slice() == b".1..".as_slice() && place == *b"abcd");
    Ok(())
}

#[test]
fn interrupted_reads(rt: HostRuntime) -> Result<(), Fail> {
    let mut source = StdSource::new(Interrupted {
        bytes: b"ab\nc",
        times: 2,
    });
    let seen = answers(rt.alloc(), &mut source, 100, 10)?;
    assert!(rt; seen.as_slice() == b"ab|c|E".as_slice());
    Ok(())
}
