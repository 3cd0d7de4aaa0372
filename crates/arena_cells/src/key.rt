//! Keys: what stands at a number, with the numbers of its parts.
ghost use Rattle.std.specs.Prelude.{◌≡◌, true, IfOk};
ghost use Rattle.arena_cells.specs.Keys.{has_only_numbers};

use crate::numbers::Numbers;
use fol::{Sym, Var};
use std::alloc::AllocError;

/// A rule with the numbers of what it names: its main formula (of a cut the cut formula) and, where it instantiates a quantifier, a term
/// or an eigenvariable, which is the number of its term.
#[derive(Clone, Copy)]
pub enum RuleKey {
    Ax(u32),
    TopR,
    BotL,
    NegL(u32),
    NegR(u32),
    AndL(u32),
    AndR(u32),
    OrL(u32),
    OrR(u32),
    ImpL(u32),
    ImpR(u32),
    AllL(u32, u32),
    AllR(u32, u32),
    ExL(u32, u32),
    ExR(u32, u32),
    DefL(u32),
    DefR(u32),
    Cut(u32),
    Weak,
}

/// The numbers of an inference's premises.
#[derive(Clone, Copy)]
pub enum Parts {
    Zero,
    One(u32),
    Two(u32, u32),
}

/// What stands at a number of an arena, with the numbers of its parts.
pub enum Key {
    /// A symbol.
    Symbol(Sym),
    /// The term that is a free variable.
    Free(Var),
    /// The term that is the variable of a quantifier around.
    Bound(u32),
    /// The term of a symbol and a list of terms.
    App(u32, u32),
    /// The list of no term.
    Nil,
    /// The list of a term and a list of terms.
    Cons(u32, u32),
    /// The atom of a symbol without a body and a list of terms.
    Atom(u32, u32),
    /// The atom of a symbol, its body and a list of terms.
    Defined(u32, u32, u32),
    /// Truth.
    Top,
    /// Falsehood.
    Bot,
    /// The negation of a formula.
    Not(u32),
    /// The conjunction of two formulas.
    And(u32, u32),
    /// The disjunction of two formulas.
    Or(u32, u32),
    /// The implication from the first formula to the second.
    Imp(u32, u32),
    /// The universal formula with this body.
    All(u32),
    /// The existential formula with this body.
    Ex(u32),
    /// The set of variables, by the rising numbers of their terms.
    Variables(Numbers),
    /// The map from variables, by the rising numbers of their terms, to terms, in the same order.
    Map(Numbers, Numbers),
    /// The set of formulas, by their rising numbers.
    Side(Numbers),
    /// The sequent of two sets of formulas.
    Sequent(u32, u32),
    /// The proof tree of a rule, a sequent and the trees of the premises.
    Tree(RuleKey, u32, Parts),
}

impl Drop for Key {
    fn drop(self) {
        match self {
            Key::Symbol(symbol) => drop(symbol),
            Key::Free(variable) => drop(variable),
            Key::Variables(numbers) | Key::Side(numbers) => drop(numbers),
            Key::Map(variables, terms) => {
                drop(variables);
                drop(terms);
            }
            Key::Bound(_)
            | Key::App(_, _)
            | Key::Nil
            | Key::Cons(_, _)
            | Key::Atom(_, _)
            | Key::Defined(_, _, _)
            | Key::Top
            | Key::Bot
            | Key::Not(_)
            | Key::And(_, _)
            | Key::Or(_, _)
            | Key::Imp(_, _)
            | Key::All(_)
            | Key::Ex(_)
            | Key::Sequent(_, _)
            | Key::Tree(_, _, _) => {}
        }
    }
}

impl Key {
    /// The same key, whose parts are shared.
    pub fn copy(&self) -> Result<Key, AllocError>
        ensures { IfOk result (λ copy. copy ≡ self.now) }
    {
        Ok(match self {
            Key::Symbol(symbol) => Key::Symbol(symbol.copy()?),
            Key::Free(variable) => Key::Free(variable.copy()?),
            Key::Variables(numbers) => Key::Variables(numbers.copy()?),
            Key::Map(variables, terms) => Key::Map(variables.copy()?, terms.copy()?),
            Key::Side(numbers) => Key::Side(numbers.copy()?),
            _ => self.copy_numbers(),
        })
    }

    // The same key, which has nothing but numbers.
    fn copy_numbers(&self) -> Key
        requires { has_only_numbers self.now ≡ true }
        ensures { result ≡ self.now }
    {
        match *self {
            Key::Bound(index) => Key::Bound(index),
            Key::App(symbol, terms) => Key::App(symbol, terms),
            Key::Nil => Key::Nil,
            Key::Cons(term, terms) => Key::Cons(term, terms),
            Key::Atom(symbol, terms) => Key::Atom(symbol, terms),
            Key::Defined(symbol, body, terms) => Key::Defined(symbol, body, terms),
            Key::Top => Key::Top,
            Key::Bot => Key::Bot,
            Key::Not(body) => Key::Not(body),
            Key::And(first, second) => Key::And(first, second),
            Key::Or(first, second) => Key::Or(first, second),
            Key::Imp(first, second) => Key::Imp(first, second),
            Key::All(body) => Key::All(body),
            Key::Ex(body) => Key::Ex(body),
            Key::Sequent(left, right) => Key::Sequent(left, right),
            Key::Tree(rule, end, premises) => Key::Tree(rule, end, premises),
            _ => unreachable!(),
        }
    }
}
