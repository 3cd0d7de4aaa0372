//! Instances, closures and images.
use crate::samples::{
    formula_of, push_variable, shown, shown_term, term_of, variable_of, variables_of,
};
use fol::{Formula, FormulaNode, Term, Text};
use free_variables::Vars;
use std::alloc::{AllocError, Global};
use std::test::Fail;
use substitution::{Subst, apply, apply_term, bind, close_all, close_ex, instance, is_instance};
use tptp_read::TextError;

// Whether the other formula is the instance of the quantified one by the term, as the two calls have it.
fn is_instance_of(
    alloc: Global,
    quantified: &str,
    by: &str,
    other: &Formula,
) -> Result<(bool, bool), TextError> {
    let quantified = formula_of(alloc, quantified.as_bytes())?;
    let by = term_of(alloc, by.as_bytes())?;
    match quantified.node() {
        FormulaNode::All(body) | FormulaNode::Ex(body) => {
            let made = instance(alloc, body, &by)?;
            Ok((made == *other, is_instance(body, &by, other)))
        }
        _ => Err(TextError::Memory),
    }
}

const LOVES: &str = "![X]: (p(X) & ?[Y]: r(Y,X))";

static INSTANCES: &[(&str, &str, &str, bool)] = &[
    ("![X]: p(X)", "X", "p(X)", true),
    ("?[X]: p(X)", "f(X)", "p(f(X))", true),
    ("![X]: p(f(X))", "a", "p(f(a))", true),
    ("?[X]: r(X,X)", "b", "r(b,b)", true),
    ("![Y]: p(X)", "a", "p(X)", true),
    ("![X]: $true", "a", "$true", true),
    ("?[X]: ![Y]: r(Y,X)", "a", "![Y]: r(Y,a)", true),
    ("![X]: ?[Y]: r(Y,X)", "Y", "?[V0]: r(V0,Y)", true),
    ("![X]: ?[Y]: ![Z]: r(Z,X)", "X", "?[Y]: ![Z]: r(Z,X)", true),
    (
        "?[X]: (~p(X) | ![Y]: p(X))",
        "a",
        "~p(a) | ![Y]: p(a)",
        true,
    ),
    ("![X]: (p(X) => p(X))", "a", "p(a) => p(a)", true),
    (LOVES, "f(X)", "p(f(X)) & ?[Y]: r(Y,f(X))", true),
    (LOVES, "X", "p(X) & ?[Y]: r(Y,X)", true),
    (LOVES, "X", "p(Y) & ?[Z]: r(Z,X)", false),
    (LOVES, "X", "p(X) & ?[Z]: r(Z,Y)", false),
    (LOVES, "X", "p(X) & ![Z]: r(Z,X)", false),
    (LOVES, "X", "p(X) | ?[Z]: r(Z,X)", false),
    (LOVES, "X", "p(X) & ?[Z]: r(Z,Z)", false),
    (LOVES, "X", "p(X) & ?[Z]: r(X,X)", false),
    (LOVES, "X", "p(X)", false),
];

#[test]
fn instances(rt: HostRuntime) -> Result<(), Fail> {
    let alloc = rt.alloc();
    for &(quantified, by, other, expected) in INSTANCES {
        let formula = formula_of(alloc, other.as_bytes())?;
        let (made, found) = is_instance_of(alloc, quantified, by, &formula)?;
        assert!(rt;
            made == expected && found == expected,
            "{other} of {quantified}"
        );
    }
    Ok(())
}

// The canonical text of a formula with `X` bound by a universal quantifier.
fn bound(alloc: Global, text: &str) -> Result<Text, TextError> {
    let formula = formula_of(alloc, text.as_bytes())?;
    let body = bind(alloc, &formula, &variable_of(alloc, "X")?)?;
    Ok(shown(alloc, &Formula::all(alloc, body)?)?)
}

static BOUND: &[(&str, &str)] = &[
    ("p(X)", "![V0]: p(V0)"),
    ("p(Y)", "![V0]: p(Y)"),
    ("p(f(X))", "![V0]: p(f(V0))"),
    ("![Y]: r(Y,X)", "![V0]: ![V1]: r(V1,V0)"),
    ("![Y]: ?[Z]: r(Z,X)", "![V0]: ![V1]: ?[V2]: r(V2,V0)"),
    ("p(X) & ?[Y]: r(Y,X)", "![V0]: (p(V0) & ?[V1]: r(V1,V0))"),
    (
        "p(Y) => (~p(X) | $true)",
        "![V0]: (p(Y) => (~p(V0) | $true))",
    ),
];

#[test]
fn bindings(rt: HostRuntime) -> Result<(), Fail> {
    for &(text, expected) in BOUND {
        let found = bound(rt.alloc(), text)?;
        assert!(rt; found.as_bytes() == expected.as_bytes(), "at {text}");
    }
    Ok(())
}

// The canonical text of a formula with the variables of a list quantified, universally or existentially.
fn closed(alloc: Global, all: bool, list: &str, text: &str) -> Result<Text, TextError> {
    let vars = variables_of(alloc, list)?;
    let formula = formula_of(alloc, text.as_bytes())?;
    let closed = if all {
        close_all(alloc, &vars, &formula)?
    } else {
        close_ex(alloc, &vars, &formula)?
    };
    Ok(shown(alloc, &closed)?)
}

static CLOSED: &[(bool, &str, &str, &str)] = &[
    (true, "", "p(X)", "p(X)"),
    (true, "X", "p(X)", "![V0]: p(V0)"),
    (true, "X Y", "r(X,Y)", "![V0]: ![V1]: r(V0,V1)"),
    (true, "X X", "p(X)", "![V0]: ![V1]: p(V1)"),
    (true, "X Y X", "r(X,Y)", "![V0]: ![V1]: ![V2]: r(V2,V1)"),
    (true, "X Y", "?[Z]: r(X,Z)", "![V0]: ![V1]: ?[V2]: r(V0,V2)"),
    (true, "Z", "~p(X) & $true", "![V0]: (~p(X) & $true)"),
    (false, "", "p(X)", "p(X)"),
    (false, "X", "p(X)", "?[V0]: p(V0)"),
    (false, "X Y", "r(X,Y)", "?[V0]: ?[V1]: r(V0,V1)"),
    (false, "X X", "p(X)", "?[V0]: ?[V1]: p(V1)"),
    (false, "X Y X", "r(X,Y)", "?[V0]: ?[V1]: ?[V2]: r(V2,V1)"),
    (
        false,
        "X Y",
        "?[Z]: r(X,Z)",
        "?[V0]: ?[V1]: ?[V2]: r(V0,V2)",
    ),
    (false, "Z", "~p(X) & $true", "?[V0]: (~p(X) & $true)"),
];

#[test]
fn closures(rt: HostRuntime) -> Result<(), Fail> {
    for &(all, list, text, expected) in CLOSED {
        let found = closed(rt.alloc(), all, list, text)?;
        assert!(rt; found.as_bytes() == expected.as_bytes(), "{list} in {text}");
    }
    Ok(())
}

// The map that sends the variables of one list to the terms of another one.
fn map_of(alloc: Global, vars: &str, terms: &str) -> Result<Subst, TextError> {
    let mut map = Subst::new(alloc);
    for (var, term) in vars.split_whitespace().zip(terms.split_whitespace()) {
        map.set(variable_of(alloc, var)?, term_of(alloc, term.as_bytes())?)?;
    }
    Ok(map)
}

static IMAGES: &[(&str, &str)] = &[
    ("p(X)", "p(f(Y))"),
    ("p(Y)", "p(X)"),
    ("p(Z)", "p(Z)"),
    ("r(X,Y)", "r(f(Y),X)"),
    ("p(f(f(X)))", "p(f(f(f(Y))))"),
    ("![Z]: r(Z,X)", "![V0]: r(V0,f(Y))"),
    ("?[Z]: p(Z)", "?[V0]: p(V0)"),
    ("~p(X) & p(Y)", "~p(f(Y)) & p(X)"),
    ("(p(X) | p(Y)) => p(Z)", "(p(f(Y)) | p(X)) => p(Z)"),
    ("?[X]: ![Y]: r(Y,X)", "?[V0]: ![V1]: r(V1,V0)"),
    ("r(X,X) => $true", "r(f(Y),f(Y)) => $true"),
];

// The canonical text of the image of a formula.
fn image(alloc: Global, map: &Subst, text: &str) -> Result<Text, TextError> {
    let formula = formula_of(alloc, text.as_bytes())?;
    Ok(shown(alloc, &apply(alloc, map, &formula)?)?)
}

#[test]
fn images(rt: HostRuntime) -> Result<(), Fail> {
    let map = map_of(rt.alloc(), "X Y", "f(Y) X")?;
    for &(text, expected) in IMAGES {
        let found = image(rt.alloc(), &map, text)?;
        assert!(rt; found.as_bytes() == expected.as_bytes(), "at {text}");
    }
    Ok(())
}

// The variables of a map, each with its image.
fn shown_map(alloc: Global, map: &Subst) -> Result<Vec<u8>, AllocError> {
    let mut out = Vec::new(alloc);
    for var in map.vars(alloc)?.as_slice() {
        let image = apply_term(alloc, map, &Term::free(alloc, var.copy()?)?)?;
        push_variable(alloc, &mut out, var)?;
        out.push(b'=')?;
        out.extend_from_slice(shown_term(alloc, &image)?.as_bytes())?;
    }
    Ok(out)
}

// A map that is restricted to some variables.
fn restricted(alloc: Global, map: &Subst, list: &str) -> Result<Subst, TextError> {
    let some = Vars::from_vec(variables_of(alloc, list)?);
    Ok(map.restrict(alloc, &some)?)
}

static MAPS: &[(&str, &str, &str, &str, &str)] = &[
    ("", "", "X", "", ""),
    ("Y X", "X f(Y)", "X Z", "X=f(Y) Y=X", "X=f(Y)"),
    ("X V1 X", "a V1 b", "X V1", "X=b V1=V1", "X=b"),
    ("X Y", "Y X", "V0", "X=Y Y=X", ""),
    (
        "V10 V2 Z",
        "a b c",
        "V10 V2",
        "Z=c V2=b V10=a",
        "V2=b V10=a",
    ),
];

#[test]
fn maps(rt: HostRuntime) -> Result<(), Fail> {
    let alloc = rt.alloc();
    for &(vars, terms, list, whole, part) in MAPS {
        let map = map_of(alloc, vars, terms)?;
        let all = shown_map(alloc, &map.copy(alloc)?)?;
        let some = shown_map(alloc, &restricted(alloc, &map, list)?)?;
        assert!(rt;
            all.as_slice() == whole.as_bytes() && some.as_slice() == part.as_bytes(),
            "at {whole}"
        );
    }
    Ok(())
}
