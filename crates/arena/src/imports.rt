//! Terms and formulas that come into an arena.
ghost use Rattle.std.specs.Prelude.{◌≡◌, IfOk};
ghost use Rattle.fol.specs.Syntax.{atom};
ghost use Rattle.arena_cells.specs.Standing.{Extends, HasSymbol, HasVariable, HasTerm, HasTerms, HasFormula};
ghost use Rattle.arena.specs.NodeKeys.{key_over, key_of_both};

use crate::arena::Arena;
use arena_cells::Key;
use fol::{Formula, FormulaNode, Predicate, Sym, Term, TermNode, Terms, TermsLink, Var};
use std::alloc::{AllocError, Global};

// The key of a formula with this body: of a negation, a universal or, of each other node, an existential formula.
fn key_over(node: &FormulaNode, body: u32) -> Key
    ensures { result ≡ key_over node.now body }
{
    match node {
        FormulaNode::Not(_) => Key::Not(body),
        FormulaNode::All(_) => Key::All(body),
        _ => Key::Ex(body),
    }
}

// The key of a formula of two: of a conjunction, a disjunction or, of each other node, an implication.
fn key_of_both(node: &FormulaNode, first: u32, second: u32) -> Key
    ensures { result ≡ key_of_both node.now first second }
{
    match node {
        FormulaNode::And(..) => Key::And(first, second),
        FormulaNode::Or(..) => Key::Or(first, second),
        _ => Key::Imp(first, second),
    }
}

impl Arena {
    /// The number of a symbol.
    pub fn import_symbol(&mut self, alloc: Global, symbol: &Sym) -> Result<u32, AllocError>
        ensures symbol { IfOk result (λ n. HasSymbol self.new n symbol.now) }
        ensures grown { Extends self.old self.new }
    {
        self.put(alloc, Key::Symbol(symbol.copy()?))
    }

    /// The number of a variable, which is that of its term.
    pub fn import_variable(&mut self, alloc: Global, variable: &Var) -> Result<u32, AllocError>
        ensures variable { IfOk result (λ n. HasVariable self.new n variable.now) }
        ensures grown { Extends self.old self.new }
    {
        self.put(alloc, Key::Free(variable.copy()?))
    }

    /// The number of a term.
    #[cycle(import_term)]
    #[tactic(auto, using(arena_cells::proofs::Facts::places))]
    pub fn import_term(&mut self, alloc: Global, term: &Term) -> Result<u32, AllocError>
        ensures term { IfOk result (λ n. HasTerm self.new n term.now) }
        ensures grown { Extends self.old self.new }
    {
        match term.node() {
            TermNode::Free(variable) => self.import_variable(alloc, variable),
            TermNode::Bound(index) => self.put(alloc, Key::Bound(*index)),
            TermNode::App(symbol, terms) => {
                let symbol = self.import_symbol(alloc, symbol)?;
                let terms = self.import_terms(alloc, terms)?;
                self.put(alloc, Key::App(symbol, terms))
            }
        }
    }

    /// The number of a list of terms.
    #[cycle(import_term)]
    #[tactic(auto, using(arena_cells::proofs::Facts::places))]
    pub fn import_terms(&mut self, alloc: Global, terms: &Terms) -> Result<u32, AllocError>
        ensures terms { IfOk result (λ n. HasTerms self.new n terms.now) }
        ensures grown { Extends self.old self.new }
    {
        match terms.link() {
            TermsLink::Nil => self.put(alloc, Key::Nil),
            TermsLink::Cons(term, rest) => {
                let term = self.import_term(alloc, term)?;
                let rest = self.import_terms(alloc, rest)?;
                self.put(alloc, Key::Cons(term, rest))
            }
        }
    }

    /// The number of a formula. One that was imported before mostly costs one look-up by its fingerprint and one comparison of formulas;
    /// else each node is put into the arena.
    pub fn import_formula(&mut self, alloc: Global, formula: &Formula) -> Result<u32, AllocError>
        ensures formula { IfOk result (λ n. HasFormula self.new n formula.now) }
        ensures grown { Extends self.old self.new }
    {
        if let Some(number) = self.look_up_formula(formula) {
            return Ok(number);
        }
        let number = self.walk_formula(alloc, formula)?;
        self.note_formula(formula.copy()?, number)?;
        Ok(number)
    }

    // The number of a formula, each of whose nodes is put into the arena.
    #[cycle(walk_formula)]
    #[tactic(auto, using(arena_cells::proofs::Facts::places))]
    fn walk_formula(&mut self, alloc: Global, formula: &Formula) -> Result<u32, AllocError>
        ensures formula { IfOk result (λ n. HasFormula self.new n formula.now) }
        ensures grown { Extends self.old self.new }
    {
        let node = formula.node();
        match node {
            FormulaNode::Atom(predicate, terms) => self.walk_atom(alloc, predicate, terms),
            FormulaNode::Top => self.put(alloc, Key::Top),
            FormulaNode::Bot => self.put(alloc, Key::Bot),
            FormulaNode::Not(body) | FormulaNode::All(body) | FormulaNode::Ex(body) => {
                let body = self.walk_formula(alloc, body)?;
                self.put(alloc, key_over(node, body))
            }
            FormulaNode::And(first, second)
            | FormulaNode::Or(first, second)
            | FormulaNode::Imp(first, second) => {
                let first = self.walk_formula(alloc, first)?;
                let second = self.walk_formula(alloc, second)?;
                self.put(alloc, key_of_both(node, first, second))
            }
        }
    }

    // The number of an atom, whose symbol may have a body.
    #[cycle(walk_formula)]
    #[tactic(auto, using(arena_cells::proofs::Facts::places))]
    fn walk_atom(
        &mut self,
        alloc: Global,
        predicate: &Predicate,
        terms: &Terms,
    ) -> Result<u32, AllocError>
        ensures formula { IfOk result (λ n. HasFormula self.new n (atom predicate.now terms.now)) }
        ensures grown { Extends self.old self.new }
    {
        let symbol = self.import_symbol(alloc, &predicate.symbol)?;
        match &predicate.body {
            None => {
                let terms = self.import_terms(alloc, terms)?;
                self.put(alloc, Key::Atom(symbol, terms))
            }
            Some(body) => {
                let body = self.walk_formula(alloc, body)?;
                let terms = self.import_terms(alloc, terms)?;
                self.put(alloc, Key::Defined(symbol, body, terms))
            }
        }
    }
}
