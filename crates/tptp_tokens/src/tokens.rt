//! Tokens, and the faults of texts.
use fol::{Text, Var};

/// A quantifier: `!` or `?`.
#[derive(Clone, Copy, PartialEq, Eq)]
pub enum Quantifier {
    All,
    Ex,
}

/// A connective that joins two or more members: `&` or `|`.
#[derive(Clone, Copy, PartialEq, Eq)]
pub enum ChainOperator {
    And,
    Or,
}

/// A connective that joins exactly two parts: `=>`, `<=`, `<=>`, `<~>`, `~|` and `~&`, in this order.
#[derive(Clone, Copy, PartialEq, Eq)]
pub enum BinaryOperator {
    Implies,
    ImpliedBy,
    Equivalent,
    Different,
    Nor,
    Nand,
}

/// A token. A name in quotes and the same name without them are one token, and so are a numbered variable and its text.
#[derive(Drop)]
pub enum Token {
    /// A lower word or a name in quotes, as the name itself.
    Name(Text),
    Variable(Var),
    /// `$true` or `$false`.
    Truth(bool),
    /// `=`, or `!=` where it is false.
    Equality(bool),
    Negation,
    Quantifier(Quantifier),
    Chain(ChainOperator),
    Binary(BinaryOperator),
    Open,
    Close,
    OpenSquare,
    CloseSquare,
    Comma,
    Dot,
    Colon,
}

/// Why a text isn't read.
#[derive(Clone, Copy, PartialEq, Eq, Debug)]
pub enum TextKind {
    /// A byte that begins no token or can't stand in quotes, an escape that isn't one, or empty quotes.
    Token,
    /// The tokens up to this one begin no text of the grammar.
    Expected,
    /// The token goes past a limit of nesting, or of members of a chain or a list of variables.
    Deep,
    /// A word with `$` other than `$true` and `$false`.
    DefinedWord,
    /// A digit, or a sign before a digit.
    Number,
    /// A distinct object, in double quotes.
    Distinct,
    /// A quote without its end.
    OpenQuote,
    /// A comment without its end.
    OpenComment,
}

/// The first fault of a text: the byte at which the faulty token starts, counted from 0, and what is wrong with it.
#[derive(Clone, Copy, PartialEq, Eq, Debug)]
pub struct TextFault {
    pub at: u64,
    pub kind: TextKind,
}

/// What stands at the front of a text. Lengths and places are in bytes from the front.
#[derive(Drop)]
pub enum Scan {
    /// The text is at its end.
    End,
    /// White space or a comment of this length.
    Blank(usize),
    /// A token of this length.
    Found(Token, usize),
    /// A fault at this place.
    Wrong(usize, TextKind),
}
