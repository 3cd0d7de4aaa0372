//! Literals by number.

/// An atom by its number, or its negation: twice the number, and one more for the negation.
#[derive(Clone, Copy, PartialEq, Eq)]
pub(crate) struct Literal {
    code: u32,
}

impl Literal {
    /// The atom, which is below 2^31, or its negation.
    pub fn new(atom: u32, is_negative: bool) -> Literal {
        Literal {
            code: atom.wrapping_mul(2) | u32::from(is_negative),
        }
    }

    /// The other literal of its atom.
    pub fn negated(self) -> Literal {
        Literal {
            code: self.code ^ 1,
        }
    }

    /// Whether it is the negation of its atom.
    pub fn is_negative(self) -> bool {
        self.code % 2 == 1
    }

    /// The number of its atom.
    pub fn number(self) -> u32 {
        self.code / 2
    }

    /// The place of its atom in tables of atoms.
    pub fn atom(self) -> usize {
        self.number() as usize
    }

    /// Its place in tables of literals.
    pub fn place(self) -> usize {
        self.code as usize
    }
}
