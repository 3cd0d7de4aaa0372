//! Terms, lists of terms and formulas, with shared nodes that keep facts of what stands below them.
//!
//! As a tree none of them has more than 2^26 nodes. What would have more is refused as want of memory where it is made, since a walk
//! over a formula that sharing keeps small, as over deeply nested equivalences, would otherwise go on for hours.
ghost use Rattle.std.specs.Prelude.{◌≡◌, ◌+◌, ◌≤◌, ◌^◌, ◌||◌, max, IfOk};
ghost use Rattle.fol.specs.Syntax.{free, bound, app, nil, cons, pred, plain, atom, top, bot, not, and, or, imp, all, ex};
ghost use Rattle.fol.specs.Shown.{term_of, terms_of, body_of, formula_of};
ghost use Rattle.fol.specs.Facts.{term_size, terms_size, formula_size, is_term_open, are_terms_open, is_open, term_dangling, terms_dangling, formula_dangling, has_body, term_fingerprint, terms_fingerprint, pred_fingerprint, formula_fingerprint, AreFacts, AreTermFacts, AreTermsFacts, AreFormulaFacts};
ghost use Rattle.fol.specs.Mixing.{mixed};

use crate::facts::{Facts, MAX_SIZE, mix};
use crate::symbols::{Sym, Var};
use std::alloc::{AllocError, Global};
use std::marker::Model;
use std::sync::Arc;

/// A term, of at most 2^26 nodes as a tree.
#[cycle(term)]
pub struct Term {
    cell: Arc<TermCell>,
}

// The root of a term with the facts of the whole.
#[cycle(term)]
#[derive(Drop)]
struct TermCell {
    facts: Facts,
    node: TermNode,
}

/// What stands at the root of a term.
#[cycle(term)]
#[derive(Drop)]
pub enum TermNode {
    /// A free variable.
    Free(Var),
    /// The variable of a quantifier around the term: 0 is that of the nearest one.
    Bound(u32),
    /// A function symbol with its arguments; with none it is a constant.
    App(Sym, Terms),
}

/// A list of terms, the arguments of a symbol, of at most 2^26 nodes as a tree.
#[cycle(term)]
pub struct Terms {
    cell: Arc<TermsCell>,
}

// The root of a list with the facts of the whole.
#[cycle(term)]
#[derive(Drop)]
struct TermsCell {
    facts: Facts,
    link: TermsLink,
}

/// How a list of terms begins.
#[cycle(term)]
#[derive(Drop)]
pub enum TermsLink {
    Nil,
    Cons(Term, Terms),
}

/// A predicate symbol: its name with its number of arguments, and its body where it has one. A well-formed body is a formula without
/// free variables that begins with a universal quantifier for each argument, the outermost for the first. Predicate symbols are equal
/// where their names, numbers of arguments and bodies are.
#[cycle(formula)]
pub struct Predicate {
    pub symbol: Sym,
    pub body: Option<Formula>,
}

/// A formula, of at most 2^26 nodes as a tree, those of bodies included.
#[cycle(formula)]
pub struct Formula {
    cell: Arc<FormulaCell>,
}

// The root of a formula with the facts of the whole.
#[cycle(formula)]
#[derive(Drop)]
struct FormulaCell {
    facts: Facts,
    node: FormulaNode,
}

/// What stands at the root of a formula. The body of a quantifier has the quantified variable as `Bound(0)`.
#[cycle(formula)]
#[derive(Drop)]
pub enum FormulaNode {
    Atom(Predicate, Terms),
    Top,
    Bot,
    Not(Formula),
    And(Formula, Formula),
    Or(Formula, Formula),
    Imp(Formula, Formula),
    All(Formula),
    Ex(Formula),
}

impl Model for Term {
    ghost use Rattle.fol.specs.Syntax.{Term as Meaning};
    ghost use Rattle.fol.specs.Codes.{coded_term};

    ghost Value = { Meaning };

    ghost coded = { coded_term };

    ghost use Rattle.std.specs.Prelude.{◌≤◌, ◌^◌};
    ghost use Rattle.fol.specs.Syntax.{term_nodes};
    ghost use Rattle.fol.specs.Shown.{term_of};
    ghost use Rattle.fol.specs.Facts.{AreTermFacts};

    ghost view = { λ t. term_of t.cell.value.node };

    ghost invariant = { λ t. AreTermFacts t.cell.value.facts (term_of t.cell.value.node) × (t.cell.value.facts.size ≤ 2 ^ 26) };

    ghost size = { term_nodes };
}

impl Model for Terms {
    ghost use Rattle.fol.specs.Syntax.{Terms as Meaning};
    ghost use Rattle.fol.specs.Codes.{coded_terms};

    ghost Value = { Meaning };

    ghost coded = { coded_terms };

    ghost use Rattle.std.specs.Prelude.{◌≤◌, ◌^◌};
    ghost use Rattle.fol.specs.Syntax.{terms_nodes};
    ghost use Rattle.fol.specs.Shown.{terms_of};
    ghost use Rattle.fol.specs.Facts.{AreTermsFacts};

    ghost view = { λ ts. terms_of ts.cell.value.link };

    ghost invariant = { λ ts. AreTermsFacts ts.cell.value.facts (terms_of ts.cell.value.link) × (ts.cell.value.facts.size ≤ 2 ^ 26) };

    ghost size = { terms_nodes };
}

impl Model for Predicate {
    ghost use Rattle.fol.specs.Syntax.{Pred as Meaning};
    ghost use Rattle.fol.specs.Codes.{coded_pred};

    ghost Value = { Meaning };

    ghost coded = { coded_pred };

    ghost use Rattle.fol.specs.Syntax.{pred, pred_nodes};
    ghost use Rattle.fol.specs.Shown.{body_of};

    ghost view = { λ p. pred p.symbol (body_of p.body) };

    ghost size = { pred_nodes };
}

impl Model for Formula {
    ghost use Rattle.fol.specs.Syntax.{Formula as Meaning};
    ghost use Rattle.fol.specs.Codes.{coded_formula};

    ghost Value = { Meaning };

    ghost coded = { coded_formula };

    ghost use Rattle.std.specs.Prelude.{◌≤◌, ◌^◌};
    ghost use Rattle.fol.specs.Syntax.{formula_nodes};
    ghost use Rattle.fol.specs.Shown.{formula_of};
    ghost use Rattle.fol.specs.Facts.{AreFormulaFacts};

    ghost view = { λ f. formula_of f.cell.value.node };

    ghost invariant = { λ f. AreFormulaFacts f.cell.value.facts (formula_of f.cell.value.node) × (f.cell.value.facts.size ≤ 2 ^ 26) };

    ghost size = { formula_nodes };
}

impl Drop for Term {
    #[cycle(term_drop)]
    fn drop(self) {
        let Term { cell } = self;
        drop(cell);
    }
}

impl Drop for Terms {
    #[cycle(term_drop)]
    fn drop(self) {
        let Terms { cell } = self;
        drop(cell);
    }
}

impl Drop for Predicate {
    #[cycle(formula_drop)]
    fn drop(self) {
        let Predicate { symbol, body } = self;
        drop(symbol);
        drop(body);
    }
}

impl Drop for Formula {
    #[cycle(formula_drop)]
    fn drop(self) {
        let Formula { cell } = self;
        drop(cell);
    }
}

impl Term {
    // Refuses what has more than `MAX_SIZE` nodes as a tree.
    fn of(alloc: Global, node: TermNode) -> Result<Term, AllocError>
        ensures { IfOk result (λ t. t ≡ term_of node) }
    {
        let facts = term_facts(&node);
        if facts.size > MAX_SIZE {
            return Err(AllocError);
        }
        let cell = Arc::new(alloc, TermCell { facts, node })?;
        Ok(Term { cell })
    }

    /// The free variable as a term.
    pub fn free(alloc: Global, var: Var) -> Result<Term, AllocError>
        ensures { IfOk result (λ t. t ≡ free var) }
    {
        Term::of(alloc, TermNode::Free(var))
    }

    /// The variable of the quantifier that has `index` quantifiers between itself and the term.
    pub fn bound(alloc: Global, index: u32) -> Result<Term, AllocError>
        ensures { IfOk result (λ t. t ≡ bound index) }
    {
        Term::of(alloc, TermNode::Bound(index))
    }

    /// The symbol with these arguments. Whether there are as many as its arity says is for `well_formed_term` to tell.
    pub fn app(alloc: Global, symbol: Sym, terms: Terms) -> Result<Term, AllocError>
        ensures { IfOk result (λ t. t ≡ app symbol terms) }
    {
        Term::of(alloc, TermNode::App(symbol, terms))
    }

    /// The node at the root.
    pub fn node(&self) -> &TermNode
        ensures { term_of result.now ≡ self.now }
    {
        &self.cell.node
    }

    /// The number of nodes of the term as a tree.
    pub fn size(&self) -> u32
        ensures size { result ≡ term_size self.now }
        ensures within { result ≤ 2 ^ 26 }
    {
        self.cell.facts.size
    }

    /// Whether a variable stands in the term.
    pub fn has_free(&self) -> bool
        ensures { result ≡ is_term_open self.now }
    {
        self.cell.facts.has_free
    }

    /// The least number that is above each index in the term.
    pub fn dangling(&self) -> u64
        ensures { result ≡ term_dangling self.now }
    {
        self.cell.facts.dangling
    }

    /// A number in which unequal terms mostly differ.
    pub fn fingerprint(&self) -> u64
        ensures { result ≡ term_fingerprint self.now }
    {
        self.cell.facts.fingerprint
    }

    fn facts(&self) -> Facts
        ensures facts { AreTermFacts result self.now }
        ensures within { result.size ≤ 2 ^ 26 }
    {
        self.cell.facts
    }

    /// Another owner of the same nodes.
    pub fn copy(&self) -> Result<Term, AllocError>
        ensures { IfOk result (λ t. t ≡ self.now) }
    {
        let cell = Arc::try_clone(&self.cell)?;
        Ok(Term { cell })
    }
}

impl Terms {
    // Refuses what has more than `MAX_SIZE` nodes as a tree.
    fn of(alloc: Global, link: TermsLink) -> Result<Terms, AllocError>
        ensures { IfOk result (λ ts. ts ≡ terms_of link) }
    {
        let facts = terms_facts(&link);
        if facts.size > MAX_SIZE {
            return Err(AllocError);
        }
        let cell = Arc::new(alloc, TermsCell { facts, link })?;
        Ok(Terms { cell })
    }

    /// The list of no term.
    pub fn empty(alloc: Global) -> Result<Terms, AllocError>
        ensures { IfOk result (λ ts. ts ≡ nil) }
    {
        Terms::of(alloc, TermsLink::Nil)
    }

    /// The list that begins with `term` and goes on with `terms`.
    pub fn cons(alloc: Global, term: Term, terms: Terms) -> Result<Terms, AllocError>
        ensures { IfOk result (λ ts. ts ≡ cons term terms) }
    {
        Terms::of(alloc, TermsLink::Cons(term, terms))
    }

    /// How the list begins.
    pub fn link(&self) -> &TermsLink
        ensures { terms_of result.now ≡ self.now }
    {
        &self.cell.link
    }

    /// The number of nodes of the list as a tree.
    pub fn size(&self) -> u32
        ensures size { result ≡ terms_size self.now }
        ensures within { result ≤ 2 ^ 26 }
    {
        self.cell.facts.size
    }

    /// Whether a variable stands in the list.
    pub fn has_free(&self) -> bool
        ensures { result ≡ are_terms_open self.now }
    {
        self.cell.facts.has_free
    }

    /// The least number that is above each index in the list.
    pub fn dangling(&self) -> u64
        ensures { result ≡ terms_dangling self.now }
    {
        self.cell.facts.dangling
    }

    /// A number in which unequal lists mostly differ.
    pub fn fingerprint(&self) -> u64
        ensures { result ≡ terms_fingerprint self.now }
    {
        self.cell.facts.fingerprint
    }

    fn facts(&self) -> Facts
        ensures facts { AreTermsFacts result self.now }
        ensures within { result.size ≤ 2 ^ 26 }
    {
        self.cell.facts
    }

    /// Another owner of the same list.
    pub fn copy(&self) -> Result<Terms, AllocError>
        ensures { IfOk result (λ ts. ts ≡ self.now) }
    {
        let cell = Arc::try_clone(&self.cell)?;
        Ok(Terms { cell })
    }
}

impl Predicate {
    /// The predicate symbol without a body.
    pub fn plain(symbol: Sym) -> Predicate
        ensures { result ≡ plain symbol }
    {
        Predicate { symbol, body: None }
    }

    /// A number in which unequal predicate symbols mostly differ, without a walk over the name or the body.
    #[tactic(auto, unfolding(crate::specs::Facts::pred_fingerprint, crate::specs::Facts::body_fingerprint))]
    pub fn fingerprint(&self) -> u64
        ensures { result ≡ pred_fingerprint self.now }
    {
        match &self.body {
            None => self.symbol.fingerprint(),
            Some(body) => mix(mix(19, self.symbol.fingerprint()), body.fingerprint()),
        }
    }

    /// The same predicate symbol, whose name and body are shared.
    pub fn copy(&self) -> Result<Predicate, AllocError>
        ensures { IfOk result (λ p. p ≡ self.now) }
    {
        let symbol = self.symbol.copy()?;
        match &self.body {
            None => Ok(Predicate { symbol, body: None }),
            Some(body) => {
                let body = body.copy()?;
                Ok(Predicate {
                    symbol,
                    body: Some(body),
                })
            }
        }
    }
}

impl Formula {
    // Refuses what has more than `MAX_SIZE` nodes as a tree.
    fn of(alloc: Global, node: FormulaNode) -> Result<Formula, AllocError>
        ensures { IfOk result (λ f. f ≡ formula_of node) }
    {
        let facts = formula_facts(&node);
        if facts.size > MAX_SIZE {
            return Err(AllocError);
        }
        let cell = Arc::new(alloc, FormulaCell { facts, node })?;
        Ok(Formula { cell })
    }

    /// The atom of a predicate symbol without a body, with these arguments. Whether there are as many as its arity says is for
    /// `well_formed` to tell.
    pub fn atom(alloc: Global, symbol: Sym, terms: Terms) -> Result<Formula, AllocError>
        ensures { IfOk result (λ f. f ≡ atom (plain symbol) terms) }
    {
        Formula::of(alloc, FormulaNode::Atom(Predicate::plain(symbol), terms))
    }

    /// The atom of a predicate symbol, with or without a body, with these arguments.
    pub fn atom_of(alloc: Global, predicate: Predicate, terms: Terms) -> Result<Formula, AllocError>
        ensures { IfOk result (λ f. f ≡ atom predicate terms) }
    {
        Formula::of(alloc, FormulaNode::Atom(predicate, terms))
    }

    /// Truth.
    pub fn top(alloc: Global) -> Result<Formula, AllocError>
        ensures { IfOk result (λ f. f ≡ top) }
    {
        Formula::of(alloc, FormulaNode::Top)
    }

    /// Falsity.
    pub fn bot(alloc: Global) -> Result<Formula, AllocError>
        ensures { IfOk result (λ f. f ≡ bot) }
    {
        Formula::of(alloc, FormulaNode::Bot)
    }

    /// The negation.
    pub fn not(alloc: Global, body: Formula) -> Result<Formula, AllocError>
        ensures { IfOk result (λ f. f ≡ not body) }
    {
        Formula::of(alloc, FormulaNode::Not(body))
    }

    /// The conjunction.
    pub fn and(alloc: Global, first: Formula, second: Formula) -> Result<Formula, AllocError>
        ensures { IfOk result (λ f. f ≡ and first second) }
    {
        Formula::of(alloc, FormulaNode::And(first, second))
    }

    /// The disjunction.
    pub fn or(alloc: Global, first: Formula, second: Formula) -> Result<Formula, AllocError>
        ensures { IfOk result (λ f. f ≡ or first second) }
    {
        Formula::of(alloc, FormulaNode::Or(first, second))
    }

    /// The implication from `first` to `second`.
    pub fn imp(alloc: Global, first: Formula, second: Formula) -> Result<Formula, AllocError>
        ensures { IfOk result (λ f. f ≡ imp first second) }
    {
        Formula::of(alloc, FormulaNode::Imp(first, second))
    }

    /// The universal formula of this body, which has the quantified variable as `Bound(0)`.
    pub fn all(alloc: Global, body: Formula) -> Result<Formula, AllocError>
        ensures { IfOk result (λ f. f ≡ all body) }
    {
        Formula::of(alloc, FormulaNode::All(body))
    }

    /// The existential formula of this body, which has the quantified variable as `Bound(0)`.
    pub fn ex(alloc: Global, body: Formula) -> Result<Formula, AllocError>
        ensures { IfOk result (λ f. f ≡ ex body) }
    {
        Formula::of(alloc, FormulaNode::Ex(body))
    }

    /// The node at the root.
    pub fn node(&self) -> &FormulaNode
        ensures { formula_of result.now ≡ self.now }
    {
        &self.cell.node
    }

    /// The number of nodes of the formula as a tree, those of the bodies in it included.
    pub fn size(&self) -> u32
        ensures size { result ≡ formula_size self.now }
        ensures within { result ≤ 2 ^ 26 }
    {
        self.cell.facts.size
    }

    /// Whether a variable is free in the formula.
    pub fn has_free(&self) -> bool
        ensures { result ≡ is_open self.now }
    {
        self.cell.facts.has_free
    }

    /// How many of the quantifiers that may stand around the formula its indices reach: 0 where it uses none of them.
    pub fn dangling(&self) -> u64
        ensures { result ≡ formula_dangling self.now }
    {
        self.cell.facts.dangling
    }

    /// Whether the predicate symbol of some atom has a body.
    pub fn has_body(&self) -> bool
        ensures { result ≡ has_body self.now }
    {
        self.cell.facts.with_body
    }

    /// A number in which unequal formulas mostly differ.
    pub fn fingerprint(&self) -> u64
        ensures { result ≡ formula_fingerprint self.now }
    {
        self.cell.facts.fingerprint
    }

    fn facts(&self) -> Facts
        ensures facts { AreFormulaFacts result self.now }
        ensures within { result.size ≤ 2 ^ 26 }
    {
        self.cell.facts
    }

    /// Another owner of the same nodes.
    pub fn copy(&self) -> Result<Formula, AllocError>
        ensures { IfOk result (λ f. f ≡ self.now) }
    {
        let cell = Arc::try_clone(&self.cell)?;
        Ok(Formula { cell })
    }
}

// Each kind of node begins its fingerprint with a number of its own.
#[tactic(auto, unfolding(crate::specs::Facts::term_fingerprint))]
fn term_facts(node: &TermNode) -> Facts
    ensures { AreTermFacts result (term_of node.now) }
{
    match node {
        TermNode::Free(var) => Facts {
            size: 1,
            has_free: true,
            dangling: 0,
            with_body: false,
            fingerprint: mix(1, var.fingerprint()),
        },
        TermNode::Bound(index) => Facts {
            size: 1,
            has_free: false,
            dangling: u64::from(*index) + 1,
            with_body: false,
            fingerprint: mix(2, u64::from(*index)),
        },
        TermNode::App(symbol, terms) => terms
            .facts()
            .on_top(mix(mix(3, symbol.fingerprint()), terms.fingerprint())),
    }
}

#[tactic(auto, unfolding(crate::specs::Facts::terms_fingerprint))]
fn terms_facts(link: &TermsLink) -> Facts
    ensures { AreTermsFacts result (terms_of link.now) }
{
    match link {
        TermsLink::Nil => Facts::leaf(mix(4, 0)),
        TermsLink::Cons(term, terms) => {
            let fingerprint = mix(mix(5, term.fingerprint()), terms.fingerprint());
            term.facts().joined(terms.facts(), fingerprint)
        }
    }
}

#[tactic(auto, unfolding(crate::specs::Facts::formula_fingerprint))]
fn formula_facts(node: &FormulaNode) -> Facts
    ensures { AreFormulaFacts result (formula_of node.now) }
{
    match node {
        FormulaNode::Atom(predicate, terms) => atom_facts(predicate, terms),
        FormulaNode::Top => Facts::leaf(mix(7, 0)),
        FormulaNode::Bot => Facts::leaf(mix(8, 0)),
        FormulaNode::Not(body) => body.facts().on_top(mix(9, body.fingerprint())),
        FormulaNode::And(first, second) => joined(10, first, second),
        FormulaNode::Or(first, second) => joined(11, first, second),
        FormulaNode::Imp(first, second) => joined(12, first, second),
        FormulaNode::All(body) => body.facts().bound(mix(13, body.fingerprint())),
        FormulaNode::Ex(body) => body.facts().bound(mix(14, body.fingerprint())),
    }
}

// The facts of an atom: the nodes of a body are nodes of the atom, and no variable is free in it.
#[tactic(auto, unfolding(crate::specs::Facts::formula_fingerprint))]
fn atom_facts(predicate: &Predicate, terms: &Terms) -> Facts
    ensures { AreFormulaFacts result (atom predicate.now terms.now) }
{
    let fingerprint = mix(mix(6, predicate.fingerprint()), terms.fingerprint());
    match &predicate.body {
        None => terms.facts().on_top(fingerprint),
        Some(body) => terms.facts().with_body_of(body.size(), fingerprint),
    }
}

// The facts of a connective between two formulas.
fn joined(kind: u64, first: &Formula, second: &Formula) -> Facts
    ensures { AreFacts result (formula_size first.now + formula_size second.now + 1) (is_open first.now || is_open second.now) (max (formula_dangling first.now) (formula_dangling second.now)) (has_body first.now || has_body second.now) (mixed (mixed kind (formula_fingerprint first.now)) (formula_fingerprint second.now)) }
{
    let fingerprint = mix(mix(kind, first.fingerprint()), second.fingerprint());
    first.facts().joined(second.facts(), fingerprint)
}
