//! Sets of the variables and the predicate symbols of formulas.
use crate::samples::{formula_of, push_variable, shown_variables};
use fol::{Formula, Var};
use free_variables::{Syms, free_vars, fresh, grade, preds, push_free_vars};
use std::alloc::{AllocError, Global};
use std::test::Fail;

fn crosses_threads<T: Send + Sync>(_value: &T) {}

// The names of symbols, each with its arity and a space before it.
fn shown_symbols(alloc: Global, symbols: &Syms) -> Result<Vec<u8>, AllocError> {
    let mut out = Vec::new(alloc);
    for predicate in symbols.as_slice() {
        let symbol = &predicate.symbol;
        let arity = symbol.arity;
        out.push(b' ')?;
        out.extend_from_slice(symbol.name.as_bytes())?;
        out.extend_from_slice(format!(in alloc; "/{arity}")?.as_bytes())?;
    }
    Ok(out)
}

// The free variables of a formula, and the fresh variable outside them.
fn variables(alloc: Global, formula: &Formula) -> Result<Vec<u8>, AllocError> {
    let mut occurrences = Vec::new(alloc);
    push_free_vars(&mut occurrences, formula)?;
    let outside = fresh(&occurrences);
    let mut out = shown_variables(alloc, free_vars(alloc, formula)?.as_slice())?;
    out.push(b';')?;
    push_variable(alloc, &mut out, &outside)?;
    Ok(out)
}

static MEMBERS: &[(&str, &str, &str, u64)] = &[
    ("$true", "; V0", "", 0),
    ("p(X)", "X; V0", " p/1", 0),
    ("r(Z,A)", "A Z; V0", " r/2", 0),
    ("![X]: p(X)", "; V0", " p/1", 1),
    ("?[X]: r(X,Y)", "Y; V0", " r/2", 1),
    ("~q(f(X))", "X; V0", " q/1", 1),
    ("q(X) & ![Y]: r(B,X)", "B X; V0", " q/1 r/2", 2),
    ("q(X) | ![Y]: r(B,X)", "B X; V0", " q/1 r/2", 2),
    ("q(X) => ![Y]: r(B,X)", "B X; V0", " q/1 r/2", 2),
    ("q & p(X) & p(Y,X)", "X Y; V0", " p/1 p/2 q/0", 2),
    ("p(V0,V1,V3)", "V0 V1 V3; V2", " p/3", 0),
    ("p(V2,V1,V0)", "V0 V1 V2; V3", " p/3", 0),
    ("p(V1,X,V0,V0)", "X V0 V1; V2", " p/4", 0),
    (
        "p(V18446744073709551615,X)",
        "X V18446744073709551615; V0",
        " p/2",
        0,
    ),
];

#[test]
fn members(rt: HostRuntime) -> Result<(), Fail> {
    for &(text, vars, symbols, count) in MEMBERS {
        let formula = formula_of(rt.alloc(), text.as_bytes())?;
        crosses_threads(&formula);
        let found = variables(rt.alloc(), &formula)?;
        let named = shown_symbols(rt.alloc(), &preds(rt.alloc(), &formula)?)?;
        assert!(rt;
            found.as_slice() == vars.as_bytes(),
            "the variables of {text}"
        );
        assert!(rt;
            named.as_slice() == symbols.as_bytes() && grade(&formula) == count,
            "at {text}"
        );
    }
    Ok(())
}

// The union of the free variables of two formulas, with `V0` and without `V1`.
fn union_of_variables(alloc: Global, f: &Formula, g: &Formula) -> Result<Vec<u8>, AllocError> {
    let mut vars = free_vars(alloc, f)?.union(alloc, &free_vars(alloc, g)?)?;
    vars.add(Var::Num(0))?;
    vars.remove(&Var::Num(1));
    shown_variables(alloc, vars.copy(alloc)?.as_slice())
}

// The union of the predicate symbols of two formulas.
fn union_of_symbols(alloc: Global, f: &Formula, g: &Formula) -> Result<Vec<u8>, AllocError> {
    let symbols = preds(alloc, f)?.union(alloc, &preds(alloc, g)?)?;
    shown_symbols(alloc, &symbols.copy(alloc)?)
}

static UNIONS: &[(&str, &str, &str, &str)] = &[
    ("p(X)", "p(X)", "X V0", " p/1"),
    ("p(X)", "q(Y) & p(X)", "X Y V0", " p/1 q/1"),
    ("p(X,V3)", "q(V1,X)", "X V0 V3", " p/2 q/2"),
    ("q & p(X)", "p(X,X) & p(X)", "X V0", " p/1 p/2 q/0"),
];

#[test]
fn unions(rt: HostRuntime) -> Result<(), Fail> {
    for &(first, second, vars, symbols) in UNIONS {
        let f = formula_of(rt.alloc(), first.as_bytes())?;
        let g = formula_of(rt.alloc(), second.as_bytes())?;
        let found = union_of_variables(rt.alloc(), &f, &g)?;
        let named = union_of_symbols(rt.alloc(), &f, &g)?;
        assert!(rt;
            found.as_slice() == vars.as_bytes(),
            "{first} with {second}"
        );
        assert!(rt;
            named.as_slice() == symbols.as_bytes(),
            "symbols of {first} with {second}"
        );
    }
    Ok(())
}
