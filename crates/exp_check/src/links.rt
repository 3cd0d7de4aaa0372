//! The variables of strong quantifiers by their numbers, and which of them has to be there before which.
ghost use Rattle.std.specs.Prelude.{◌≡◌, ◌++◌, ◌∷◌, [], ℕ, List, length, Some, IfOk, IfNone, IfSome};
ghost use Rattle.std.specs.Ordering.{eq_by_cmp};
ghost use Rattle.fol.specs.Order.{var_cmp};
ghost use Rattle.finite.specs.Finite as set;
ghost use Rattle.exp_check.specs.declared.dependency.Edge.{Edge as Pair};
ghost use Rattle.exp_check.specs.Links.{IsNumber, AreLinks};

use crate::dependency::Edge;
use fol::Var;
use free_variables::Vars;
use std::alloc::{AllocError, Global};

/// The number of a variable, and that of one before which it has to be there.
#[derive(Clone, Copy, PartialEq, Eq, PartialOrd, Ord)]
pub(crate) struct Link {
    pub before: usize,
    pub after: usize,
}

// The place of a variable among those of a set.
fn number_of(vars: &Vars, var: &Var) -> Option<usize>
    ensures { IsNumber (set.listing vars.now) var.now result }
{
    finite::search(vars.as_slice(), var).ok()
}

// Appends the link of an edge, where both of its variables have numbers.
fn push_link(links: &mut Vec<Link>, vars: &Vars, edge: &Edge) -> Result<(), AllocError>
    ensures { IfOk result (λ _. (es : List Pair) → AreLinks (set.listing vars.now) es links.old.items → AreLinks (set.listing vars.now) (es ++ edge.now ∷ []) links.new.items) }
{
    let Some(before) = number_of(vars, &edge.before) else {
        return Ok(());
    };
    let Some(after) = number_of(vars, &edge.after) else {
        return Ok(());
    };
    links.push(Link { before, after })?;
    Ok(())
}

/// The links of the edges between the variables of a set, in rising order.
pub(crate) fn links_of(alloc: Global, vars: &Vars, edges: &[Edge]) -> Result<Vec<Link>, AllocError>
    ensures { IfOk result (λ ls. AreLinks (set.listing vars.now) edges.now ls.items) }
{
    let mut links = Vec::with_capacity(alloc, edges.len())?;
    for edge in edges {
        push_link(&mut links, vars, edge)?;
    }
    links.sort_unstable();
    Ok(links)
}
