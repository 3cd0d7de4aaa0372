//! Annotations, which are passed over.
ghost use Rattle.std.specs.Prelude.{◌≡◌, ◌<◌, ◌≤◌, ◌^◌, suc, false, length, IfOk};
ghost use Rattle.tptp_problem.specs.Readers.{Gives};
ghost use Rattle.tptp_problem.specs.AnnotationReader.{closing, outer_of, annotation_at};
ghost use Rattle.tptp_problem.specs.Pieces.{quotes_closed, in_quotes, comment_piece as piece_of_comment, byte_piece as piece_of_byte, piece_from as piece_by_first, piece_of, IsSizedPiece};

use crate::errors::{ProblemKind, ReadError};
use crate::tokens::fault;
use std::alloc::{AllocError, Global};
use std::collections::VecDeque;
use tptp_tokens::{Pool, Scan, TextKind, scan};

/// The two kinds of brackets.
#[derive(Clone, Copy, PartialEq, Eq)]
pub enum Bracket {
    Round,
    Square,
}

/// What stands at the front in an annotation. Lengths and places are in bytes from the front.
#[derive(Clone, Copy)]
pub enum Piece {
    /// The text is at its end.
    End,
    /// A byte between pieces: a tab, a newline or a carriage return.
    Separator,
    /// A byte, a text in quotes or a comment of this length.
    Passed(usize),
    Opens(Bracket),
    Closes(Bracket),
    /// A fault at this place.
    Wrong(usize, TextKind),
}

/// What a closing bracket does in an annotation.
#[derive(Clone, Copy)]
pub enum Closing {
    /// It can't stand there.
    Refused,
    /// It ends the annotation.
    Ended,
    /// The annotation goes on behind it.
    Inside,
}

// The text in quotes; `rest` stands behind the opening quote.
fn quoted_piece(quote: u8, rest: &[u8]) -> Piece
    ensures value { result ≡ in_quotes quote false 1 rest.now }
    ensures sized { IsSizedPiece result (suc (length rest.now)) }
{
    let mut escaping = false;
    for (passed, byte) in rest.iter().enumerate() {
        match *byte {
            b' '..=b'~' => {
                if escaping {
                    escaping = false;
                } else if *byte == quote {
                    return close_quotes(passed + 1);
                } else {
                    escaping = *byte == b'\\';
                }
            }
            _ => return Piece::Wrong(passed + 1, TextKind::Token),
        }
    }
    Piece::Wrong(0, TextKind::OpenQuote)
}

// `passed` bytes stand before the closing quote, the opening one included.
fn close_quotes(passed: usize) -> Piece
    requires { passed < 2 ^ 63 }
    ensures value { result ≡ quotes_closed passed }
    ensures sized { IsSizedPiece result (suc passed) }
{
    if passed == 1 {
        Piece::Wrong(0, TextKind::Token)
    } else {
        Piece::Passed(passed + 1)
    }
}

fn comment_piece(found: Scan) -> Piece
    ensures { result ≡ piece_of_comment found }
{
    match found {
        Scan::Blank(length) => Piece::Passed(length),
        Scan::Wrong(place, kind) => Piece::Wrong(place, kind),
        _ => Piece::Wrong(0, TextKind::Token),
    }
}

fn byte_piece(byte: u8) -> Piece
    ensures value { result ≡ piece_of_byte byte }
    ensures sized { IsSizedPiece result 1 }
{
    match byte {
        b'(' => Piece::Opens(Bracket::Round),
        b')' => Piece::Closes(Bracket::Round),
        b'[' => Piece::Opens(Bracket::Square),
        b']' => Piece::Closes(Bracket::Square),
        b' '..=b'~' => Piece::Passed(1),
        _ => Piece::Wrong(0, TextKind::Token),
    }
}

/// What stands at the front in an annotation.
#[tactic(auto, unfolding(crate::specs::Pieces::piece_of))]
pub fn next_piece(alloc: Global, pool: &mut Pool, bytes: &[u8]) -> Result<Piece, AllocError>
    ensures value { IfOk result (λ p. p ≡ piece_of bytes.now) }
    ensures sized { IfOk result (λ p. IsSizedPiece p (length bytes.now)) }
{
    match bytes {
        [] => Ok(Piece::End),
        [b'\t' | b'\n' | b'\r', ..] => Ok(Piece::Separator),
        [quote, rest @ ..] if *quote == b'"' || *quote == b'\'' => Ok(quoted_piece(*quote, rest)),
        [b'%', ..] | [b'/', b'*', ..] => Ok(comment_piece(scan(alloc, pool, bytes)?)),
        [byte, ..] => Ok(byte_piece(*byte)),
    }
}

// Closes the innermost bracket; `some` says whether a piece stands before.
fn close(inner: &mut VecDeque<Bracket>, bracket: Bracket, some: bool) -> Closing
    ensures value { result ≡ closing bracket inner.old.items some }
    ensures outer { inner.new.items ≡ outer_of inner.old.items }
{
    match inner.pop_front() {
        Some(Bracket::Round) => match bracket {
            Bracket::Round => Closing::Inside,
            Bracket::Square => Closing::Refused,
        },
        Some(Bracket::Square) => match bracket {
            Bracket::Round => Closing::Refused,
            Bracket::Square => Closing::Inside,
        },
        None => match bracket {
            Bracket::Round if some => Closing::Ended,
            _ => Closing::Refused,
        },
    }
}

/// The bytes behind the `)` that ends an annotation, which is passed over.
#[tactic(auto, unfolding(crate::specs::AnnotationReader::annotation_at), using(crate::proofs::Loops::annotation_separator, crate::proofs::Loops::annotation_passed, crate::proofs::Loops::annotation_opens, crate::proofs::Loops::annotation_refused, crate::proofs::Loops::annotation_ended, crate::proofs::Loops::annotation_inside, crate::proofs::Loops::annotation_wrong))]
pub fn read_annotation<'a>(
    alloc: Global,
    pool: &mut Pool,
    bytes: &'a [u8],
) -> Result<&'a [u8], ReadError>
    ensures value { Gives (λ x. x.now) result (annotation_at bytes.now) }
    ensures bound { IfOk result (λ x. length x.now ≤ length bytes.now) }
{
    let expected = ProblemKind::Text(TextKind::Expected);
    let mut inner: VecDeque<Bracket> = VecDeque::new(alloc);
    let mut some = false;
    let mut rest = bytes;
    loop {
        match next_piece(alloc, pool, rest)? {
            Piece::End => return Err(fault(0, expected)),
            Piece::Separator => rest = rest.split_at(1).1,
            Piece::Passed(length) => {
                some = true;
                rest = rest.split_at(length).1;
            }
            Piece::Opens(bracket) => {
                inner.push_front(bracket)?;
                some = true;
                rest = rest.split_at(1).1;
            }
            Piece::Closes(bracket) => match close(&mut inner, bracket, some) {
                Closing::Refused => return Err(fault(rest.len(), expected)),
                Closing::Ended => return Ok(rest.split_at(1).1),
                Closing::Inside => rest = rest.split_at(1).1,
            },
            Piece::Wrong(place, kind) => {
                return Err(fault(rest.len() - place, ProblemKind::Text(kind)));
            }
        }
    }
}
