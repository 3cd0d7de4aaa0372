//! The literals of a clause, in the order in which a search for a map sends them.
ghost use Rattle.std.specs.Prelude.{◌≡◌, ◌++◌, true, false, map, IfOk, OnOk};
ghost use Rattle.res_prover.specs.Sending.{sides, AreLiteralsOf};

use crate::marked::MarkedClause;
use crate::marks::MarkedAtom;
use std::alloc::{AllocError, Global};

/// An atom of a clause.
#[derive(Drop)]
pub(crate) struct Literal<'a> {
    pub is_left: bool,
    pub atom: &'a MarkedAtom,
    /// To how many atoms of another clause it may be sent, if no variable has a term yet.
    pub targets: usize,
}

// To how many of the others the atom may be sent.
fn count_targets(atom: &MarkedAtom, others: &[MarkedAtom]) -> usize {
    let mut count = 0usize;
    for other in others {
        if atom.is_within(other) {
            count = count.saturating_add(1);
        }
    }
    count
}

// Adds the atoms of one side.
fn push_side<'a>(
    literals: &mut Vec<Literal<'a>>,
    is_left: bool,
    atoms: &'a [MarkedAtom],
    others: &[MarkedAtom],
) -> Result<(), AllocError>
    ensures { OnOk result (sides literals.new.items ≡ sides literals.old.items ++ map (λ f. (is_left, f)) atoms.now) }
{
    for place in 0..atoms.len() {
        let atom = &atoms[place];
        let targets = count_targets(atom, others);
        literals.push(Literal {
            is_left,
            atom,
            targets,
        })?;
    }
    Ok(())
}

/// The literals of the clause, and those first that may be sent to the fewest atoms of the other one.
pub(crate) fn ordered_literals<'a>(
    alloc: Global,
    one: &'a MarkedClause,
    other: &MarkedClause,
) -> Result<Vec<Literal<'a>>, AllocError>
    ensures { IfOk result (λ v. AreLiteralsOf one.now v.items) }
{
    let left = one.side(true);
    let right = one.side(false);
    let mut all = Vec::with_capacity(alloc, left.len().saturating_add(right.len()))?;
    push_side(&mut all, true, left, other.side(true))?;
    push_side(&mut all, false, right, other.side(false))?;
    all.sort_by_key(|literal| literal.targets)?;
    Ok(all)
}
