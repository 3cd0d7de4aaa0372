//! Whole sessions whose bytes come in pieces: each line with the reply to it, which is empty where the line is no job.
use crate::running::expect;
use std::alloc::{AllocError, Global};
use std::test::Fail;

/// Lines of blanks are no jobs.
const BLANKS: [(&str, &str); 5] = [
    ("", ""),
    (" \t\r", ""),
    (
        r#"{"job":"a","op":"lk","steps":[{"rule":"ax","main":"p","premises":[],"left":["p"],"right":["p"]}]}"#,
        r#"{"job":"a","n":1,"ok":{"cuts":0,"left":["p"],"quants":0,"right":["p"]}}"#,
    ),
    ("", ""),
    ("\t", ""),
];

/// Each kind of error, each cause of a faulty step, and each cause of a faulty step of a refutation.
const ERRORS: [(&str, &str); 25] = [
    (
        r#"{"job":"a","op":"lk","steps":[{"rule":"ax","main":"p","premises":[],"left":["p"],"right":["p"]}]}"#,
        r#"{"job":"a","n":1,"ok":{"cuts":0,"left":["p"],"quants":0,"right":["p"]}}"#,
    ),
    ("[", r#"{"error":{"kind":"json"},"job":null,"n":2}"#),
    (
        r#"{"op":"show"}"#,
        r#"{"error":{"field":"job","kind":"field"},"job":null,"n":3}"#,
    ),
    (
        r#"{"job":"b","op":"fly"}"#,
        r#"{"error":{"kind":"op"},"job":"b","n":4}"#,
    ),
    (
        r#"{"job":"c","op":"lk","steps":[{"rule":"ax","main":"p &"}]}"#,
        r#"{"error":{"at":3,"field":"steps/0/main","kind":"formula","what":"expected"},"job":"c","n":5}"#,
    ),
    (
        r#"{"job":"d","op":"problem","text":"fof(a,axiom,p"}"#,
        r#"{"error":{"at":13,"kind":"tptp","what":"expected"},"job":"d","n":6}"#,
    ),
    (
        r#"{"job":"a","op":"lk","steps":[{"rule":"ax","main":"p","premises":[],"left":["p"],"right":["p"]}]}"#,
        r#"{"error":{"kind":"name_taken"},"job":"a","n":7}"#,
    ),
    (
        r#"{"job":"e","op":"show","of":"z"}"#,
        r#"{"error":{"kind":"unknown_name","name":"z"},"job":"e","n":8}"#,
    ),
    (
        r#"{"job":"f","op":"show","of":"b"}"#,
        r#"{"error":{"kind":"kind","name":"b"},"job":"f","n":9}"#,
    ),
    ("", ""),
    (
        r#"{"job":"g","op":"lk","steps":[]}"#,
        r#"{"error":{"kind":"empty"},"job":"g","n":10}"#,
    ),
    (
        r#"{"job":"h","op":"lk","steps":[{"rule":"weak","premises":[0],"left":[],"right":[]}]}"#,
        r#"{"error":{"cause":"reference","kind":"step","step":0},"job":"h","n":11}"#,
    ),
    (
        r#"{"job":"i","op":"lk","steps":[{"rule":"weak","premises":[],"left":[],"right":[]}]}"#,
        r#"{"error":{"cause":"premises","kind":"step","step":0},"job":"i","n":12}"#,
    ),
    (
        r#"{"job":"j","op":"lk","steps":[{"rule":"ax","main":"p","premises":[],"left":["p"],"right":["p"]},{"rule":"andL","main":"p | q","premises":[0],"left":[],"right":[]}]}"#,
        r#"{"error":{"cause":"shape","kind":"step","step":1},"job":"j","n":13}"#,
    ),
    (
        r#"{"job":"k","op":"lk","steps":[{"rule":"ax","main":"p","premises":[],"left":["p"],"right":["q"]}]}"#,
        r#"{"error":{"cause":"main_missing","kind":"step","step":0},"job":"k","n":14}"#,
    ),
    (
        r#"{"job":"l","op":"lk","steps":[{"rule":"ax","main":"p(X)","premises":[],"left":["p(X)"],"right":["p(X)"]},{"rule":"allR","main":"![Y]: p(Y)","var":"X","premises":[0],"left":["p(X)"],"right":["![Y]: p(Y)"]}]}"#,
        r#"{"error":{"cause":"eigen_free","kind":"step","step":1},"job":"l","n":15}"#,
    ),
    (
        r#"{"job":"m","op":"lk","steps":[{"rule":"ax","main":"p","premises":[],"left":["p"],"right":["p"]},{"rule":"andR","main":"p & q","premises":[0,0],"left":["p"],"right":["p & q"]}]}"#,
        r#"{"error":{"cause":"premise","kind":"step","premise":1,"step":1},"job":"m","n":16}"#,
    ),
    ("", ""),
    (
        r#"{"job":"n","op":"lk","steps":[{"rule":"ax","main":"p","premises":[],"left":["p"],"right":["p"]},{"rule":"ax","main":"q","premises":[],"left":["q"],"right":["q"]},{"rule":"andR","main":"p & q","premises":[0,1],"left":["p","q"],"right":["p & q"]},{"rule":"andL","main":"p & q","premises":[0],"left":["p & q"],"right":["p"]},{"rule":"cut","main":"p & q","premises":[2,3],"left":["p","q"],"right":["p"]}]}"#,
        r#"{"job":"n","n":17,"ok":{"cuts":1,"left":["p","q"],"quants":0,"right":["p"]}}"#,
    ),
    (
        r#"{"job":"o","op":"cutelim","proof":"n","budget":2}"#,
        r#"{"error":{"kind":"budget"},"job":"o","n":18}"#,
    ),
    (
        r#"{"job":"pp","op":"problem","text":"cnf(a1,axiom,p(a)). cnf(a2,axiom,~p(X) | p(f(X))). fof(h,axiom,q). cnf(g,negated_conjecture,~(p(f(a))))."}"#,
        r#"{"job":"pp","n":19,"ok":{"entries":4,"left":["p(a)","q","~p(f(a))","![V0]: (~p(V0) | p(f(V0)))"],"right":[]}}"#,
    ),
    (
        r#"{"job":"q","op":"resolution","problem":"pp","steps":[{"input":0},{"input":9}]}"#,
        r#"{"error":{"cause":"reference","kind":"refutation","step":1},"job":"q","n":20}"#,
    ),
    (
        r#"{"job":"r","op":"resolution","problem":"pp","steps":[{"input":0},{"input":2},{"resolve":[1,0],"atom":"p(a)"}]}"#,
        r#"{"error":{"cause":"atom_missing","kind":"refutation","step":2},"job":"r","n":21}"#,
    ),
    (
        r#"{"job":"s","op":"resolution","problem":"pp","steps":[{"input":0}]}"#,
        r#"{"error":{"cause":"not_empty","kind":"refutation","step":0},"job":"s","n":22}"#,
    ),
    (
        r#"{"job":"t","op":"measure","proof":"a"}"#,
        r#"{"job":"t","n":23,"ok":{"cuts":0,"nodes":1,"quants":0,"size":1}}"#,
    ),
];

/// The input and the replies, each line with its newline.
fn texts(alloc: Global, table: &[(&str, &str)]) -> Result<(String, String), AllocError> {
    let mut input = String::new(alloc);
    let mut replies = String::new(alloc);
    for (line, reply) in table {
        input.push_str(line)?;
        input.push_str("\n")?;
        if !reply.is_empty() {
            replies.push_str(reply)?;
            replies.push_str("\n")?;
        }
    }
    Ok((input, replies))
}

/// The newline of the last line may be absent, and an input without lines has no reply.
#[test]
fn sessions_are_answered_line_by_line(rt: HostRuntime) -> Result<(), Fail> {
    let alloc = rt.alloc();
    let sessions: [(&[(&str, &str)], u8); 3] = [(&[], 0), (&BLANKS, 0), (&ERRORS, 1)];
    for (table, status) in sessions {
        let (input, replies) = texts(alloc, table)?;
        let input = input.as_bytes();
        for piece in [1, 7, 1000] {
            expect(&rt, alloc, input, piece, status, replies.as_str())?;
        }
        let open = input.strip_suffix(b"\n").unwrap_or(input);
        expect(&rt, alloc, open, 7, status, replies.as_str())?;
    }
    Ok(())
}
