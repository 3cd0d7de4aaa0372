//! Tokens that are no words, and comments between `/*` and `*/`.
ghost use Rattle.std.specs.Prelude.{◌≡◌, suc, false, length};
ghost use Rattle.tptp_tokens.specs.Lexer.{single, exclamation, equals, tilde, less, slash, sign, longer, comment, IsSized};

use crate::tokens::{BinaryOperator, ChainOperator, Quantifier, Scan, TextKind, Token};

/// The token of one byte that begins no other token.
pub fn single_symbol(byte: u8) -> Option<Token>
    ensures { result ≡ single byte }
{
    match byte {
        b'(' => Some(Token::Open),
        b')' => Some(Token::Close),
        b'[' => Some(Token::OpenSquare),
        b']' => Some(Token::CloseSquare),
        b',' => Some(Token::Comma),
        b'.' => Some(Token::Dot),
        b':' => Some(Token::Colon),
        b'?' => Some(Token::Quantifier(Quantifier::Ex)),
        b'&' => Some(Token::Chain(ChainOperator::And)),
        b'|' => Some(Token::Chain(ChainOperator::Or)),
        _ => None,
    }
}

/// The token whose first byte may begin another token too.
pub fn longer_symbol(first: u8, rest: &[u8]) -> Scan
    ensures value { result ≡ longer first rest.now }
    ensures sized { IsSized result (suc (length rest.now)) }
{
    match first {
        b'!' => scan_exclamation(rest),
        b'=' => scan_equals(rest),
        b'~' => scan_tilde(rest),
        b'<' => scan_less(rest),
        b'/' => scan_slash(rest),
        b'+' | b'-' => scan_sign(rest),
        _ => Scan::Wrong(0, TextKind::Token),
    }
}

fn scan_exclamation(rest: &[u8]) -> Scan
    ensures value { result ≡ exclamation rest.now }
    ensures sized { IsSized result (suc (length rest.now)) }
{
    match rest {
        [b'=', ..] => Scan::Found(Token::Equality(false), 2),
        _ => Scan::Found(Token::Quantifier(Quantifier::All), 1),
    }
}

fn scan_equals(rest: &[u8]) -> Scan
    ensures value { result ≡ equals rest.now }
    ensures sized { IsSized result (suc (length rest.now)) }
{
    match rest {
        [b'>', ..] => Scan::Found(Token::Binary(BinaryOperator::Implies), 2),
        _ => Scan::Found(Token::Equality(true), 1),
    }
}

fn scan_tilde(rest: &[u8]) -> Scan
    ensures value { result ≡ tilde rest.now }
    ensures sized { IsSized result (suc (length rest.now)) }
{
    match rest {
        [b'|', ..] => Scan::Found(Token::Binary(BinaryOperator::Nor), 2),
        [b'&', ..] => Scan::Found(Token::Binary(BinaryOperator::Nand), 2),
        _ => Scan::Found(Token::Negation, 1),
    }
}

fn scan_less(rest: &[u8]) -> Scan
    ensures value { result ≡ less rest.now }
    ensures sized { IsSized result (suc (length rest.now)) }
{
    match rest {
        [b'=', b'>', ..] => Scan::Found(Token::Binary(BinaryOperator::Equivalent), 3),
        [b'=', ..] => Scan::Found(Token::Binary(BinaryOperator::ImpliedBy), 2),
        [b'~', b'>', ..] => Scan::Found(Token::Binary(BinaryOperator::Different), 3),
        _ => Scan::Wrong(0, TextKind::Token),
    }
}

fn scan_slash(rest: &[u8]) -> Scan
    ensures value { result ≡ slash rest.now }
    ensures sized { IsSized result (suc (length rest.now)) }
{
    match rest {
        [b'*', inside @ ..] => scan_comment(inside),
        _ => Scan::Wrong(0, TextKind::Token),
    }
}

fn scan_sign(rest: &[u8]) -> Scan
    ensures value { result ≡ sign rest.now }
    ensures sized { IsSized result (suc (length rest.now)) }
{
    match rest {
        [b'0'..=b'9', ..] => Scan::Wrong(0, TextKind::Number),
        _ => Scan::Wrong(0, TextKind::Token),
    }
}

// `inside` stands behind the `/*`.
fn scan_comment(inside: &[u8]) -> Scan
    ensures value { result ≡ comment false 2 inside.now }
    ensures sized { IsSized result (suc (suc (length inside.now))) }
{
    let mut behind_star = false;
    for (passed, byte) in inside.iter().enumerate() {
        if behind_star && *byte == b'/' {
            return Scan::Blank(passed + 3);
        }
        behind_star = *byte == b'*';
    }
    Scan::Wrong(0, TextKind::OpenComment)
}
