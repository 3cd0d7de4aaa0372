//! Ground clauses with and without a model.
use crate::samples::formula_of;
use lk_rules::Formulas;
use sat_search::{Ground, SatAnswer, solve};
use std::alloc::Global;
use std::test::Fail;
use tptp_read::TextError;

// The atoms of a list with spaces between them: those that are negated, or the others.
fn atoms_of(alloc: Global, literals: &str, is_negated: bool) -> Result<Formulas, TextError> {
    let mut atoms = Formulas::new(alloc);
    for literal in literals.split_whitespace() {
        match literal.strip_prefix("~") {
            Some(atom) if is_negated => atoms.add(formula_of(alloc, atom.as_bytes())?)?,
            None if !is_negated => atoms.add(formula_of(alloc, literal.as_bytes())?)?,
            _ => {}
        }
    }
    Ok(atoms)
}

// Clauses, and whether they have a model. Three pigeons don't fit into two holes, and two do.
static CLAUSES: &[(&[&str], bool)] = &[
    (&[], true),
    (&[""], false),
    (&["p", "~p"], false),
    (&["p ~p"], true),
    (&["p q", "~p q", "p ~q"], true),
    (&["p q", "~p q", "p ~q", "~p ~q"], false),
    (
        &[
            "p(a)",
            "~p(a) p(f(a))",
            "~p(f(a)) p(f(f(a)))",
            "~p(f(f(a)))",
        ],
        false,
    ),
    (&["a1 a2", "b1 b2", "~a1 ~b1", "~a2 ~b2"], true),
    (
        &[
            "a1 a2", "b1 b2", "c1 c2", "~a1 ~b1", "~a1 ~c1", "~b1 ~c1", "~a2 ~b2", "~a2 ~c2",
            "~b2 ~c2",
        ],
        false,
    ),
];

#[test]
fn models(rt: HostRuntime) -> Result<(), Fail> {
    let alloc = rt.alloc();
    for &(texts, has_model) in CLAUSES {
        let mut clauses = Vec::new(alloc);
        for text in texts {
            clauses.push(Ground {
                negative: atoms_of(alloc, text, true)?,
                positive: atoms_of(alloc, text, false)?,
            })?;
        }
        let answer = solve(alloc, &clauses)?;
        assert_eq!(rt; matches!(answer, SatAnswer::Model(_)), has_model);
    }
    Ok(())
}
