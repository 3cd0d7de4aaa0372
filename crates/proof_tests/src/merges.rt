//! Merging of expansion trees.
ghost use Rattle.std.specs.Prelude.{◌≡◌, IfOk};
ghost use Rattle.fol.specs.Syntax.{top};
ghost use Rattle.expansion_laws.specs.Expansions.{conj, wk, leaf};

use exp_tree::{Exp, ExpRoot, merge};
use fol::Formula;
use std::alloc::{AllocError, Global};
use std::process::Abort;
use std::test::Fail;

// A conjunction of which only the second part is used.
fn second_used(alloc: Global) -> Result<Exp, AllocError>
    ensures { IfOk result (λ e. e ≡ conj (wk top) (leaf top)) }
{
    let first = Exp::wk(alloc, Formula::top(alloc)?)?;
    let second = Exp::leaf(alloc, Formula::top(alloc)?)?;
    Exp::and(alloc, first, second)
}

// The same of which only the first part is used.
fn first_used(alloc: Global) -> Result<Exp, AllocError>
    ensures { IfOk result (λ e. e ≡ conj (leaf top) (wk top)) }
{
    let first = Exp::leaf(alloc, Formula::top(alloc)?)?;
    let second = Exp::wk(alloc, Formula::top(alloc)?)?;
    Exp::and(alloc, first, second)
}

fn both_used(alloc: Global) -> Result<Exp, AllocError>
    ensures { IfOk result (λ e. e ≡ conj (leaf top) (leaf top)) }
{
    let first = second_used(alloc)?;
    let second = first_used(alloc)?;
    merge(alloc, &first, &second)
}

#[test]
fn marks_of_both(rt: HostRuntime) -> Result<(), Fail> {
    let tree = both_used(rt.alloc())?;
    let are_leaves = match tree.root() {
        ExpRoot::And(first, second) => {
            matches!(first.root(), ExpRoot::Leaf(_)) && matches!(second.root(), ExpRoot::Leaf(_))
        }
        _ => false,
    };
    assert!(rt; are_leaves);
    Ok(())
}
