//! The test that a formula is the instance of a body by a variable. It builds no term, and so takes no memory.
ghost use Rattle.std.specs.Prelude.{◌≡◌, ◌+◌, true};
ghost use Rattle.std.specs.Ordering.{eq_by_cmp};
ghost use Rattle.fol.specs.Syntax.{free};
ghost use Rattle.fol.specs.Order.{formula_cmp, term_cmp, terms_cmp};
ghost use Rattle.fol.specs.Formed.{is_formed_at};
ghost use Rattle.substitution.specs.Instance.{inst_term_at, inst_terms_at, inst_at, inst, IsOpenBody};

use fol::{Formula, FormulaNode, Term, TermNode, Terms, TermsLink, Var};

/// Whether `formula` is the instance of the body by the variable.
pub fn is_variable_instance(body: &Formula, variable: &Var, formula: &Formula) -> bool
    requires { IsOpenBody body.now }
    ensures { result ≡ eq_by_cmp formula_cmp formula.now (inst body.now (free variable.now)) }
{
    is_instance_at(body, variable, formula, 0)
}

// `depth` is the number of quantifiers passed. It stops at the largest `u64`, which is above every index.
#[tactic(auto, using(substitution::proofs::Depth::next_inst, substitution::proofs::Depth::next_open, substitution::proofs::Ties::eq_then))]
fn is_instance_at(body: &Formula, variable: &Var, formula: &Formula, depth: u64) -> bool
    requires { is_formed_at (depth + 1) body.now ≡ true }
    ensures { result ≡ eq_by_cmp formula_cmp formula.now (inst_at (free variable.now) depth body.now) }
{
    match (body.node(), formula.node()) {
        (FormulaNode::Atom(s, ts), FormulaNode::Atom(r, us)) => {
            r == s && are_term_instances_at(ts, variable, us, depth)
        }
        (FormulaNode::Top, FormulaNode::Top) | (FormulaNode::Bot, FormulaNode::Bot) => true,
        (FormulaNode::Not(f), FormulaNode::Not(g)) => is_instance_at(f, variable, g, depth),
        (FormulaNode::All(f), FormulaNode::All(g)) | (FormulaNode::Ex(f), FormulaNode::Ex(g)) => {
            is_instance_at(f, variable, g, depth.saturating_add(1))
        }
        (FormulaNode::And(a, b), FormulaNode::And(c, d))
        | (FormulaNode::Or(a, b), FormulaNode::Or(c, d))
        | (FormulaNode::Imp(a, b), FormulaNode::Imp(c, d)) => {
            is_instance_at(a, variable, c, depth) && is_instance_at(b, variable, d, depth)
        }
        _ => false,
    }
}

#[cycle(is_term_instance)]
#[tactic(auto, using(substitution::proofs::Ties::eq_then))]
fn is_term_instance_at(pattern: &Term, variable: &Var, value: &Term, depth: u64) -> bool
    ensures { result ≡ eq_by_cmp term_cmp value.now (inst_term_at (free variable.now) depth pattern.now) }
{
    match (pattern.node(), value.node()) {
        (TermNode::Bound(i), TermNode::Free(w)) if u64::from(*i) == depth => w == variable,
        (TermNode::Bound(i), TermNode::Bound(j)) if u64::from(*i) != depth => j == i,
        (TermNode::Free(v), TermNode::Free(w)) => w == v,
        (TermNode::App(s, ts), TermNode::App(r, us)) => {
            r == s && are_term_instances_at(ts, variable, us, depth)
        }
        _ => false,
    }
}

#[cycle(is_term_instance)]
#[tactic(auto, using(substitution::proofs::Ties::eq_then))]
fn are_term_instances_at(patterns: &Terms, variable: &Var, values: &Terms, depth: u64) -> bool
    ensures { result ≡ eq_by_cmp terms_cmp values.now (inst_terms_at (free variable.now) depth patterns.now) }
{
    match (patterns.link(), values.link()) {
        (TermsLink::Nil, TermsLink::Nil) => true,
        (TermsLink::Cons(t, ts), TermsLink::Cons(u, us)) => {
            is_term_instance_at(t, variable, u, depth)
                && are_term_instances_at(ts, variable, us, depth)
        }
        _ => false,
    }
}
