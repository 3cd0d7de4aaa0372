//! The order of texts, symbols, variables, terms, predicate symbols and formulas. It is total, only equal values tie, and `==` is equality: it looks at
//! fingerprints first, so that unequal values mostly cost one look.
ghost use Rattle.std.specs.Prelude.{◌≡◌, ◌↔◌, IsTrue, refl};
ghost use Rattle.std.specs.Ordering.{eq_by_cmp, as_partial_cmp};
ghost use Rattle.std.specs.Cmp.{partial_equiv_from_equiv, partial_order_from_total};
ghost use Rattle.std.proofs.lemmas.Cmp.{eq_by_cmp_equiv};
ghost use Rattle.fol.specs.Order.{text_cmp, sym_cmp, var_cmp, term_kind as kind_of_term, term_cmp, terms_cmp, pred_cmp, formula_kind as kind_of_formula, formula_cmp};
ghost use Rattle.fol.specs.Shown.{term_of, formula_of};
ghost use Rattle.fol.specs.OrderLaws.{text_total, sym_total, var_total, term_total, terms_total, pred_total, formula_total};

use crate::symbols::{Sym, Var};
use crate::syntax::{Formula, FormulaNode, Predicate, Term, TermNode, Terms, TermsLink};
use crate::texts::Text;
use std::cmp::Ordering;

impl PartialEq for Text {
    ghost eq = { eq_by_cmp text_cmp };

    ghost laws = { partial_equiv_from_equiv (eq_by_cmp_equiv text_total) };

    #[tactic(auto, using(crate::proofs::OrderTies::text_equality_same, crate::proofs::Fingerprints::text_apart, crate::proofs::Fingerprints::text_equal))]
    fn eq(&self, other: &Text) -> bool
        ensures value { result ≡ eq_by_cmp text_cmp self.now other.now }
        ensures same { IsTrue result ↔ (self.now ≡ other.now) }
    {
        if self.fingerprint() != other.fingerprint() {
            return false;
        }
        self.as_bytes() == other.as_bytes()
    }
}

impl Eq for Text {
    ghost laws = { eq_by_cmp_equiv text_total };
}

impl PartialOrd for Text {
    ghost partial_cmp = { as_partial_cmp text_cmp };

    ghost laws = { partial_order_from_total text_total };

    fn partial_cmp(&self, other: &Text) -> Option<Ordering> {
        Some(self.cmp(other))
    }
}

/// Texts are ordered by their bytes from the left, and a text is after each of its beginnings.
impl Ord for Text {
    ghost cmp = { text_cmp };

    ghost total = { text_total };

    ghost matches_partial_cmp = { λ x y. refl };

    ghost matches_eq = { λ x y. refl };

    #[tactic(auto, using(crate::proofs::OrderTies::text_order_same))]
    fn cmp(&self, other: &Text) -> Ordering
        ensures value { result ≡ text_cmp self.now other.now }
        ensures ties { (result ≡ Ordering.Equal) ↔ (self.now ≡ other.now) }
    {
        self.as_bytes().cmp(other.as_bytes())
    }
}

impl PartialEq for Sym {
    ghost eq = { eq_by_cmp sym_cmp };

    ghost laws = { partial_equiv_from_equiv (eq_by_cmp_equiv sym_total) };

    #[tactic(auto, using(crate::proofs::OrderTies::sym_equality_same, crate::proofs::Fingerprints::sym_equal))]
    fn eq(&self, other: &Sym) -> bool
        ensures value { result ≡ eq_by_cmp sym_cmp self.now other.now }
        ensures same { IsTrue result ↔ (self.now ≡ other.now) }
    {
        self.arity == other.arity && self.name == other.name
    }
}

impl Eq for Sym {
    ghost laws = { eq_by_cmp_equiv sym_total };
}

impl PartialOrd for Sym {
    ghost partial_cmp = { as_partial_cmp sym_cmp };

    ghost laws = { partial_order_from_total sym_total };

    fn partial_cmp(&self, other: &Sym) -> Option<Ordering> {
        Some(self.cmp(other))
    }
}

/// Symbols are ordered by name, and then by the number of arguments.
impl Ord for Sym {
    ghost cmp = { sym_cmp };

    ghost total = { sym_total };

    ghost matches_partial_cmp = { λ x y. refl };

    ghost matches_eq = { λ x y. refl };

    #[tactic(auto, using(crate::proofs::OrderTies::sym_order_same))]
    fn cmp(&self, other: &Sym) -> Ordering
        ensures value { result ≡ sym_cmp self.now other.now }
        ensures ties { (result ≡ Ordering.Equal) ↔ (self.now ≡ other.now) }
    {
        self.name
            .cmp(&other.name)
            .then(self.arity.cmp(&other.arity))
    }
}

impl PartialEq for Var {
    ghost eq = { eq_by_cmp var_cmp };

    ghost laws = { partial_equiv_from_equiv (eq_by_cmp_equiv var_total) };

    #[tactic(auto, using(crate::proofs::OrderTies::var_equality_same))]
    fn eq(&self, other: &Var) -> bool
        ensures value { result ≡ eq_by_cmp var_cmp self.now other.now }
        ensures same { IsTrue result ↔ (self.now ≡ other.now) }
    {
        are_vars_equal(self, other)
    }
}

impl Eq for Var {
    ghost laws = { eq_by_cmp_equiv var_total };
}

impl PartialOrd for Var {
    ghost partial_cmp = { as_partial_cmp var_cmp };

    ghost laws = { partial_order_from_total var_total };

    fn partial_cmp(&self, other: &Var) -> Option<Ordering> {
        Some(self.cmp(other))
    }
}

/// Words come before numbers. Words are ordered by their bytes, and numbers by size.
impl Ord for Var {
    ghost cmp = { var_cmp };

    ghost total = { var_total };

    ghost matches_partial_cmp = { λ x y. refl };

    ghost matches_eq = { λ x y. refl };

    #[tactic(auto, using(crate::proofs::OrderTies::var_order_same))]
    fn cmp(&self, other: &Var) -> Ordering
        ensures value { result ≡ var_cmp self.now other.now }
        ensures ties { (result ≡ Ordering.Equal) ↔ (self.now ≡ other.now) }
    {
        match (self, other) {
            (Var::Word(x), Var::Word(y)) => x.cmp(y),
            (Var::Word(_), Var::Num(_)) => Ordering::Less,
            (Var::Num(_), Var::Word(_)) => Ordering::Greater,
            (Var::Num(m), Var::Num(n)) => m.cmp(n),
        }
    }
}

impl PartialEq for Term {
    ghost eq = { eq_by_cmp term_cmp };

    ghost laws = { partial_equiv_from_equiv (eq_by_cmp_equiv term_total) };

    #[tactic(auto, using(crate::proofs::OrderTies::term_equality_same, crate::proofs::Fingerprints::term_apart))]
    fn eq(&self, other: &Term) -> bool
        ensures value { result ≡ eq_by_cmp term_cmp self.now other.now }
        ensures same { IsTrue result ↔ (self.now ≡ other.now) }
    {
        if self.fingerprint() != other.fingerprint() {
            return false;
        }
        self.cmp(other).is_eq()
    }
}

impl Eq for Term {
    ghost laws = { eq_by_cmp_equiv term_total };
}

impl PartialOrd for Term {
    ghost partial_cmp = { as_partial_cmp term_cmp };

    ghost laws = { partial_order_from_total term_total };

    fn partial_cmp(&self, other: &Term) -> Option<Ordering> {
        Some(self.cmp(other))
    }
}

/// Free variables come first, then bound ones by index, then applications by symbol and arguments.
impl Ord for Term {
    ghost cmp = { term_cmp };

    ghost total = { term_total };

    ghost matches_partial_cmp = { λ x y. refl };

    ghost matches_eq = { λ x y. refl };

    #[tactic(auto, using(crate::proofs::OrderTies::term_order_same))]
    fn cmp(&self, other: &Term) -> Ordering
        ensures value { result ≡ term_cmp self.now other.now }
        ensures ties { (result ≡ Ordering.Equal) ↔ (self.now ≡ other.now) }
    {
        compare_terms(self, other)
    }
}

impl PartialEq for Terms {
    ghost eq = { eq_by_cmp terms_cmp };

    ghost laws = { partial_equiv_from_equiv (eq_by_cmp_equiv terms_total) };

    #[tactic(auto, using(crate::proofs::OrderTies::terms_equality_same, crate::proofs::Fingerprints::terms_apart))]
    fn eq(&self, other: &Terms) -> bool
        ensures value { result ≡ eq_by_cmp terms_cmp self.now other.now }
        ensures same { IsTrue result ↔ (self.now ≡ other.now) }
    {
        if self.fingerprint() != other.fingerprint() {
            return false;
        }
        self.cmp(other).is_eq()
    }
}

impl Eq for Terms {
    ghost laws = { eq_by_cmp_equiv terms_total };
}

impl PartialOrd for Terms {
    ghost partial_cmp = { as_partial_cmp terms_cmp };

    ghost laws = { partial_order_from_total terms_total };

    fn partial_cmp(&self, other: &Terms) -> Option<Ordering> {
        Some(self.cmp(other))
    }
}

/// Lists are ordered term by term from the left, and a list is after each of its beginnings.
impl Ord for Terms {
    ghost cmp = { terms_cmp };

    ghost total = { terms_total };

    ghost matches_partial_cmp = { λ x y. refl };

    ghost matches_eq = { λ x y. refl };

    #[tactic(auto, using(crate::proofs::OrderTies::terms_order_same))]
    fn cmp(&self, other: &Terms) -> Ordering
        ensures value { result ≡ terms_cmp self.now other.now }
        ensures ties { (result ≡ Ordering.Equal) ↔ (self.now ≡ other.now) }
    {
        compare_lists(self, other)
    }
}

impl PartialEq for Formula {
    ghost eq = { eq_by_cmp formula_cmp };

    ghost laws = { partial_equiv_from_equiv (eq_by_cmp_equiv formula_total) };

    #[tactic(auto, using(crate::proofs::OrderTies::formula_equality_same, crate::proofs::Fingerprints::formula_apart))]
    fn eq(&self, other: &Formula) -> bool
        ensures value { result ≡ eq_by_cmp formula_cmp self.now other.now }
        ensures same { IsTrue result ↔ (self.now ≡ other.now) }
    {
        if self.fingerprint() != other.fingerprint() {
            return false;
        }
        self.cmp(other).is_eq()
    }
}

impl Eq for Formula {
    ghost laws = { eq_by_cmp_equiv formula_total };
}

impl PartialOrd for Formula {
    ghost partial_cmp = { as_partial_cmp formula_cmp };

    ghost laws = { partial_order_from_total formula_total };

    fn partial_cmp(&self, other: &Formula) -> Option<Ordering> {
        Some(self.cmp(other))
    }
}

/// Formulas are ordered by kind, in the order in which `FormulaNode` lists them, and those of one kind part by part from the left.
impl Ord for Formula {
    ghost cmp = { formula_cmp };

    ghost total = { formula_total };

    ghost matches_partial_cmp = { λ x y. refl };

    ghost matches_eq = { λ x y. refl };

    fn cmp(&self, other: &Formula) -> Ordering
        ensures value { result ≡ formula_cmp self.now other.now }
        ensures ties { (result ≡ Ordering.Equal) ↔ (self.now ≡ other.now) }
    {
        compare_formulas(self, other)
    }
}

impl PartialEq for Predicate {
    ghost eq = { eq_by_cmp pred_cmp };

    ghost laws = { partial_equiv_from_equiv (eq_by_cmp_equiv pred_total) };

    #[tactic(auto, using(crate::proofs::OrderTies::pred_equality_same, crate::proofs::Fingerprints::pred_apart))]
    fn eq(&self, other: &Predicate) -> bool
        ensures value { result ≡ eq_by_cmp pred_cmp self.now other.now }
        ensures same { IsTrue result ↔ (self.now ≡ other.now) }
    {
        if self.fingerprint() != other.fingerprint() {
            return false;
        }
        self.cmp(other).is_eq()
    }
}

impl Eq for Predicate {
    ghost laws = { eq_by_cmp_equiv pred_total };
}

impl PartialOrd for Predicate {
    ghost partial_cmp = { as_partial_cmp pred_cmp };

    ghost laws = { partial_order_from_total pred_total };

    fn partial_cmp(&self, other: &Predicate) -> Option<Ordering> {
        Some(self.cmp(other))
    }
}

/// Predicate symbols are ordered by name, then by the number of arguments, then by their bodies: none comes before some.
impl Ord for Predicate {
    ghost cmp = { pred_cmp };

    ghost total = { pred_total };

    ghost matches_partial_cmp = { λ x y. refl };

    ghost matches_eq = { λ x y. refl };

    #[tactic(auto, using(crate::proofs::OrderTies::pred_order_same))]
    fn cmp(&self, other: &Predicate) -> Ordering
        ensures value { result ≡ pred_cmp self.now other.now }
        ensures ties { (result ≡ Ordering.Equal) ↔ (self.now ≡ other.now) }
    {
        compare_predicates(self, other)
    }
}

#[tactic(auto, using(crate::proofs::Fingerprints::nat_equal))]
fn are_vars_equal(a: &Var, b: &Var) -> bool
    ensures { result ≡ eq_by_cmp var_cmp a.now b.now }
{
    match (a, b) {
        (Var::Word(x), Var::Word(y)) => x == y,
        (Var::Num(m), Var::Num(n)) => m == n,
        _ => false,
    }
}

// The place of the node's kind among the kinds of terms.
fn term_kind(node: &TermNode) -> u8
    ensures { result ≡ kind_of_term (term_of node.now) }
{
    match node {
        TermNode::Free(_) => 0,
        TermNode::Bound(_) => 1,
        TermNode::App(..) => 2,
    }
}

#[cycle(term_order)]
fn compare_terms(a: &Term, b: &Term) -> Ordering
    ensures { result ≡ term_cmp a.now b.now }
{
    match (a.node(), b.node()) {
        (TermNode::Free(v), TermNode::Free(w)) => v.cmp(w),
        (TermNode::Bound(i), TermNode::Bound(j)) => i.cmp(j),
        (TermNode::App(s, ts), TermNode::App(r, us)) => match s.cmp(r) {
            Ordering::Equal => compare_lists(ts, us),
            unequal => unequal,
        },
        (x, y) => term_kind(x).cmp(&term_kind(y)),
    }
}

#[cycle(term_order)]
fn compare_lists(a: &Terms, b: &Terms) -> Ordering
    ensures { result ≡ terms_cmp a.now b.now }
{
    match (a.link(), b.link()) {
        (TermsLink::Nil, TermsLink::Nil) => Ordering::Equal,
        (TermsLink::Nil, TermsLink::Cons(..)) => Ordering::Less,
        (TermsLink::Cons(..), TermsLink::Nil) => Ordering::Greater,
        (TermsLink::Cons(t, ts), TermsLink::Cons(u, us)) => match compare_terms(t, u) {
            Ordering::Equal => compare_lists(ts, us),
            unequal => unequal,
        },
    }
}

// The place of the node's kind among the kinds of formulas.
fn formula_kind(node: &FormulaNode) -> u8
    ensures { result ≡ kind_of_formula (formula_of node.now) }
{
    match node {
        FormulaNode::Atom(..) => 0,
        FormulaNode::Top => 1,
        FormulaNode::Bot => 2,
        FormulaNode::Not(_) => 3,
        FormulaNode::And(..) => 4,
        FormulaNode::Or(..) => 5,
        FormulaNode::Imp(..) => 6,
        FormulaNode::All(_) => 7,
        FormulaNode::Ex(_) => 8,
    }
}

#[cycle(formula_order)]
fn compare_predicates(a: &Predicate, b: &Predicate) -> Ordering
    ensures { result ≡ pred_cmp a.now b.now }
{
    match a.symbol.cmp(&b.symbol) {
        Ordering::Equal => match (&a.body, &b.body) {
            (None, None) => Ordering::Equal,
            (None, Some(_)) => Ordering::Less,
            (Some(_), None) => Ordering::Greater,
            (Some(f), Some(g)) => compare_formulas(f, g),
        },
        unequal => unequal,
    }
}

#[cycle(formula_order)]
fn compare_formulas(a: &Formula, b: &Formula) -> Ordering
    ensures { result ≡ formula_cmp a.now b.now }
{
    match (a.node(), b.node()) {
        (FormulaNode::Atom(p, ts), FormulaNode::Atom(q, us)) => match compare_predicates(p, q) {
            Ordering::Equal => compare_lists(ts, us),
            unequal => unequal,
        },
        (FormulaNode::Not(f), FormulaNode::Not(g))
        | (FormulaNode::All(f), FormulaNode::All(g))
        | (FormulaNode::Ex(f), FormulaNode::Ex(g)) => compare_formulas(f, g),
        (FormulaNode::And(f, g), FormulaNode::And(h, k))
        | (FormulaNode::Or(f, g), FormulaNode::Or(h, k))
        | (FormulaNode::Imp(f, g), FormulaNode::Imp(h, k)) => match compare_formulas(f, h) {
            Ordering::Equal => compare_formulas(g, k),
            unequal => unequal,
        },
        (x, y) => formula_kind(x).cmp(&formula_kind(y)),
    }
}
