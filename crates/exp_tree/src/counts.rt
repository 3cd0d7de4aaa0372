//! The number of instances of expansion trees.
ghost use Rattle.std.specs.Prelude.{◌≡◌};
ghost use Rattle.exp_tree.specs.Sizes.{capped};
ghost use Rattle.exp_tree.specs.Shown.{insts_of};
ghost use Rattle.exp_tree.specs.Instances.{instances, instances_in, instances_each, instances_of};
ghost use Rattle.exp_tree.specs.Reads.{expansion_of};

use crate::expansion::{Exp, ExpRoot, Inst};
use crate::sequents::ExpSequent;

#[cycle(instances)]
fn count_in_tree(exp: &Exp) -> u64
    ensures { result ≡ capped (instances exp.now) }
{
    match exp.root() {
        ExpRoot::Wk(_) | ExpRoot::Leaf(_) => 0,
        ExpRoot::Not(child) | ExpRoot::Strong(_, _, child) => count_in_tree(child),
        ExpRoot::And(first, second) | ExpRoot::Or(first, second) | ExpRoot::Imp(first, second) => {
            count_in_tree(first).saturating_add(count_in_tree(second))
        }
        ExpRoot::Weak(_, children) => count_in_list(children),
    }
}

// The instances of a list with those in their trees.
#[cycle(instances)]
fn count_in_list(children: &[Inst]) -> u64
    ensures { result ≡ capped (instances_in (insts_of children.now)) }
{
    let mut count: u64 = 0;
    for instance in children {
        let below = count_in_tree(&instance.child);
        count = count.saturating_add(1).saturating_add(below);
    }
    count
}

fn count_in_trees(trees: &[Exp]) -> u64
    ensures { result ≡ capped (instances_each trees.now) }
{
    let mut count: u64 = 0;
    for tree in trees {
        count = count.saturating_add(count_in_tree(tree));
    }
    count
}

/// The number of instances at the weak quantifiers of the unfolded trees, cut off at 2^64 - 1.
pub fn count_instances(exps: &ExpSequent) -> u64
    ensures { result ≡ capped (instances_of (expansion_of exps.now)) }
{
    let left = count_in_trees(exps.left.as_slice());
    let right = count_in_trees(exps.right.as_slice());
    left.saturating_add(right)
}
