//! Atoms whose predicate symbols carry definitions.
use crate::samples::{formula_of, shown};
use fol::{Formula, FormulaNode, Predicate, well_formed};
use free_variables::grade;
use std::alloc::{AllocError, Global};
use std::test::Fail;
use substitution::{is_unfolding, unfold};

// The atom with a body for its symbol; any other formula as it is.
fn defined(alloc: Global, atom: &Formula, body: &Formula) -> Result<Formula, AllocError> {
    match atom.node() {
        FormulaNode::Atom(predicate, terms) => {
            let predicate = Predicate {
                symbol: predicate.symbol.copy()?,
                body: Some(body.copy()?),
            };
            Formula::atom_of(alloc, predicate, terms.copy()?)
        }
        _ => atom.copy(),
    }
}

// An atom, the body of its symbol, and the unfolding.
static UNFOLDINGS: &[(&str, &str, &str)] = &[
    ("e", "p", "p"),
    ("e(a,b)", "![X,Y]: (p(X) & q(Y))", "p(a) & q(b)"),
    (
        "e(a,b)",
        "![X,Y]: (r(Y,X) => ?[Z]: r(X,Z))",
        "r(b,a) => ?[V0]: r(a,V0)",
    ),
    ("e(f(X))", "![Y,Z]: r(Y,Z)", "![V0]: r(f(X),V0)"),
];

#[test]
fn unfoldings(rt: HostRuntime) -> Result<(), Fail> {
    for &(atom, body, unfolding) in UNFOLDINGS {
        let plain = formula_of(rt.alloc(), atom.as_bytes())?;
        let body = formula_of(rt.alloc(), body.as_bytes())?;
        let other = formula_of(rt.alloc(), unfolding.as_bytes())?;
        let formula = defined(rt.alloc(), &plain, &body)?;
        let Some(unfolded) = unfold(rt.alloc(), &formula)? else {
            return Err(Fail::from("no unfolding"));
        };
        let text = shown(rt.alloc(), &unfolded)?;
        assert!(rt;
            text.as_bytes() == unfolding.as_bytes(),
            "the unfolding of {atom}"
        );
        assert!(rt;
            is_unfolding(&formula, &other),
            "{unfolding} is the unfolding of {atom}"
        );
        assert!(rt; !is_unfolding(&formula, &plain), "{atom} is no unfolding");
        assert!(rt; unfold(rt.alloc(), &plain)?.is_none(), "{atom} has no body");
        assert!(rt;
            plain < formula && formula.has_body(),
            "{atom} with a body comes later"
        );
        assert!(rt;
            grade(&formula) == grade(&body).saturating_add(1),
            "the grade of {atom}"
        );
        let name = shown(rt.alloc(), &formula)?;
        assert!(rt;
            name.as_bytes() == atom.as_bytes(),
            "{atom} is written as it is"
        );
    }
    Ok(())
}

// Atoms with bodies for their symbols that aren't well formed: a variable is free in one, and one has too few quantifiers.
static ILL_FORMED: &[(&str, &str)] = &[("e", "p(X)"), ("e(a,b)", "![X]: p(X)")];

#[test]
fn ill_formed_bodies(rt: HostRuntime) -> Result<(), Fail> {
    for &(atom, body) in ILL_FORMED {
        let plain = formula_of(rt.alloc(), atom.as_bytes())?;
        let body = formula_of(rt.alloc(), body.as_bytes())?;
        let formula = defined(rt.alloc(), &plain, &body)?;
        assert!(rt;
            !well_formed(&formula),
            "{atom} with the body isn't well formed"
        );
    }
    Ok(())
}
