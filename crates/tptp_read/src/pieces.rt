//! Formulas and terms from their parts.
ghost use Rattle.std.specs.Prelude.{◌≡◌, IfOk};
ghost use Rattle.fol.specs.Formed.{count_terms};
ghost use Rattle.fol.specs.Syntax.{nil};
ghost use Rattle.tptp_read.specs.Meaning.{chained_by, joined_by, truth as truth_of, equality_sym, equation as equation_of, application as application_of, quantified as quantified_in};
ghost use Rattle.tptp_read.specs.Machine.{closed as closed_by, called as called_with, completed as completed_by};

use crate::state::{Call, Part};
use crate::variables::Variables;
use fol::{Formula, Sym, Term, Terms, TermsLink, Text, Var};
use std::alloc::{AllocError, Global};
use substitution::{close_all, close_ex};
use tptp_tokens::{BinaryOperator, ChainOperator, Pool, Quantifier};

/// One more member of a chain.
pub fn chained(
    alloc: Global,
    operator: ChainOperator,
    members: Formula,
    member: Formula,
) -> Result<Formula, AllocError>
    ensures { IfOk result (λ f. f ≡ chained_by operator members member) }
{
    match operator {
        ChainOperator::And => Formula::and(alloc, members, member),
        ChainOperator::Or => Formula::or(alloc, members, member),
    }
}

/// The two parts of a binary connective. `<=>` and `<~>` share them.
pub fn joined(
    alloc: Global,
    operator: BinaryOperator,
    first: Formula,
    second: Formula,
) -> Result<Formula, AllocError>
    ensures { IfOk result (λ f. f ≡ joined_by operator first second) }
{
    match operator {
        BinaryOperator::Implies => Formula::imp(alloc, first, second),
        BinaryOperator::ImpliedBy => Formula::imp(alloc, second, first),
        BinaryOperator::Equivalent => equivalence(alloc, first, second),
        BinaryOperator::Different => {
            let both = equivalence(alloc, first, second)?;
            Formula::not(alloc, both)
        }
        BinaryOperator::Nor => {
            let either = Formula::or(alloc, first, second)?;
            Formula::not(alloc, either)
        }
        BinaryOperator::Nand => {
            let both = Formula::and(alloc, first, second)?;
            Formula::not(alloc, both)
        }
    }
}

fn equivalence(alloc: Global, first: Formula, second: Formula) -> Result<Formula, AllocError>
    ensures { IfOk result (λ f. f ≡ joined_by BinaryOperator.Equivalent first second) }
{
    let forth = Formula::imp(alloc, first.copy()?, second.copy()?)?;
    let back = Formula::imp(alloc, second, first)?;
    Formula::and(alloc, forth, back)
}

/// Truth or falsity.
pub fn truth(alloc: Global, value: bool) -> Result<Formula, AllocError>
    ensures { IfOk result (λ f. f ≡ truth_of value) }
{
    if value {
        Formula::top(alloc)
    } else {
        Formula::bot(alloc)
    }
}

fn equality_symbol(alloc: Global, pool: &mut Pool) -> Result<Sym, AllocError>
    ensures { IfOk result (λ s. s ≡ equality_sym) }
{
    let name = pool.text(alloc, b'=', &[])?;
    Ok(Sym { name, arity: 2 })
}

/// The equation of two terms, or its negation where `sign` is false.
pub fn equation(
    alloc: Global,
    pool: &mut Pool,
    sign: bool,
    left: Term,
    right: Term,
) -> Result<Formula, AllocError>
    ensures { IfOk result (λ f. f ≡ equation_of sign left right) }
{
    let right = Terms::cons(alloc, right, pool.no_terms(alloc)?)?;
    let terms = Terms::cons(alloc, left, right)?;
    let atom = Formula::atom(alloc, equality_symbol(alloc, pool)?, terms)?;
    if sign {
        Ok(atom)
    } else {
        Formula::not(alloc, atom)
    }
}

// A text of fewer than 2^32 bytes has fewer arguments.
fn number_of(terms: &Terms) -> Result<u32, AllocError>
    ensures { IfOk result (λ n. n ≡ count_terms terms.now) }
{
    let mut count: u32 = 0;
    let mut rest = terms;
    while let TermsLink::Cons(_, tail) = rest.link() {
        count = count.checked_add(1).ok_or(AllocError)?;
        rest = tail;
    }
    Ok(count)
}

// A name with its arguments, whose number is its arity.
fn application(alloc: Global, name: Text, terms: Terms) -> Result<Term, AllocError>
    ensures { IfOk result (λ t. t ≡ application_of name terms) }
{
    let arity = number_of(&terms)?;
    Term::app(alloc, Sym { name, arity }, terms)
}

/// A name with no arguments.
pub fn constant(alloc: Global, pool: &mut Pool, name: Text) -> Result<Term, AllocError>
    ensures { IfOk result (λ t. t ≡ application_of name nil) }
{
    pool.constant(alloc, name)
}

/// The application whose last argument is `term`.
pub fn called(alloc: Global, pool: &mut Pool, call: Call, term: Term) -> Result<Term, AllocError>
    ensures { IfOk result (λ t. t ≡ called_with call term) }
{
    let Call { name, terms } = call;
    let last = Terms::cons(alloc, term, pool.no_terms(alloc)?)?;
    let terms = terms.in_order(alloc, last)?;
    application(alloc, name, terms)
}

/// The formula with all variables quantified, the innermost one first.
#[tactic(auto, using(crate::proofs::Closing::closed_turned))]
pub fn closed(
    alloc: Global,
    quantifier: Quantifier,
    variables: Variables,
    formula: Formula,
) -> Result<Formula, AllocError>
    ensures { IfOk result (λ f. f ≡ closed_by quantifier variables formula) }
{
    let vars = variables.in_order(alloc)?;
    let closed = quantified(alloc, quantifier, &vars, &formula)?;
    Ok(closed)
}

// The first variable is the outermost.
#[tactic(auto, using(crate::proofs::Closing::over_all, crate::proofs::Closing::over_ex))]
fn quantified(
    alloc: Global,
    quantifier: Quantifier,
    vars: &[Var],
    formula: &Formula,
) -> Result<Formula, AllocError>
    ensures { IfOk result (λ f. f ≡ quantified_in quantifier vars.now formula.now) }
{
    match quantifier {
        Quantifier::All => close_all(alloc, vars, formula),
        Quantifier::Ex => close_ex(alloc, vars, formula),
    }
}

/// The formula that ends with a unit.
pub fn completed(alloc: Global, part: Part, unit: Formula) -> Result<Formula, AllocError>
    ensures { IfOk result (λ f. f ≡ completed_by part unit) }
{
    match part {
        Part::First => Ok(unit),
        Part::Chained(operator, members, _) => chained(alloc, operator, members, unit),
        Part::Joined(operator, first) => joined(alloc, operator, first, unit),
    }
}
