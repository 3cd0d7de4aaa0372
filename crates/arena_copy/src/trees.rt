//! Copies of proof trees.
ghost use Rattle.std.specs.Prelude.{◌≡◌, IfOk};
ghost use Rattle.proof_trees.specs.Trees.{below};
ghost use Rattle.arena_cells.specs.Standing.{Extends, HasTree, tree_at, IsTreeAt};
ghost use Rattle.arena_cells.specs.Meaning.{trees_at, HasPremises};
ghost use Rattle.arena_copy.specs.Copied.{AreCopied};

use crate::copied::Copied;
use crate::rules::copy_rule;
use crate::sequents::copy_sequent;
use arena::{Arena, Parts};
use arena_proofs::{end, inference, premises, rule};
use std::alloc::{AllocError, Global};

// The number of a tree's copy.
#[cycle(copy_known)]
fn copy_known(
    alloc: Global,
    from: &Arena,
    to: &mut Arena,
    copied: &mut Copied,
    proof: u32,
) -> Result<u32, AllocError>
    requires there { IsTreeAt from.now proof }
    requires copied { AreCopied from.now to.old copied.old }
    ensures tree { IfOk result (λ n. HasTree to.new n (tree_at from.now proof)) }
    ensures grown { Extends to.old to.new }
    ensures copied { IfOk result (λ _. AreCopied from.now to.new copied.new) }
{
    if let Some(copy) = copied.copy(from, to, proof) {
        return Ok(copy);
    }
    let parts = copy_premises(alloc, from, to, copied, proof)?;
    let copy = copy_over(alloc, from, to, copied, proof, parts)?;
    copied.note(from, to, proof, copy)?;
    Ok(copy)
}

// The numbers of the copies of a tree's premises.
#[cycle(copy_known)]
fn copy_premises(
    alloc: Global,
    from: &Arena,
    to: &mut Arena,
    copied: &mut Copied,
    proof: u32,
) -> Result<Parts, AllocError>
    requires there { IsTreeAt from.now proof }
    requires copied { AreCopied from.now to.old copied.old }
    ensures there { IfOk result (HasPremises to.new) }
    ensures trees { IfOk result (λ parts. trees_at to.new parts ≡ below (tree_at from.now proof)) }
    ensures grown { Extends to.old to.new }
    ensures copied { IfOk result (λ _. AreCopied from.now to.new copied.new) }
{
    match premises(from, proof) {
        Parts::Zero => Ok(Parts::Zero),
        Parts::One(only) => {
            let only = copy_known(alloc, from, to, copied, only)?;
            Ok(Parts::One(only))
        }
        Parts::Two(first, second) => {
            let first = copy_known(alloc, from, to, copied, first)?;
            let second = copy_known(alloc, from, to, copied, second)?;
            Ok(Parts::Two(first, second))
        }
    }
}

// The number of the copy of a tree, over the copies of its premises.
fn copy_over(
    alloc: Global,
    from: &Arena,
    to: &mut Arena,
    copied: &mut Copied,
    proof: u32,
    parts: Parts,
) -> Result<u32, AllocError>
    requires proof { IsTreeAt from.now proof }
    requires there { HasPremises to.old parts }
    requires trees { trees_at to.old parts ≡ below (tree_at from.now proof) }
    requires copied { AreCopied from.now to.old copied.old }
    ensures tree { IfOk result (λ n. HasTree to.new n (tree_at from.now proof)) }
    ensures grown { Extends to.old to.new }
    ensures copied { IfOk result (λ _. AreCopied from.now to.new copied.new) }
{
    let end = copy_sequent(alloc, from, to, copied, end(from, proof))?;
    let rule = copy_rule(alloc, from, to, copied, rule(from, proof))?;
    inference(to, alloc, rule, end, parts)
}

/// The number in an arena of the very tree that stands at a number of another one. Each distinct part of it is copied by its key once, so
/// that a tree of n distinct things takes O(n) look-ups.
pub fn copy_tree(alloc: Global, from: &Arena, to: &mut Arena, proof: u32) -> Result<u32, AllocError>
    requires { IsTreeAt from.now proof }
    ensures stands { IfOk result (λ n. HasTree to.new n (tree_at from.now proof)) }
    ensures grown { Extends to.old to.new }
{
    let mut copied = Copied::new(alloc);
    copy_known(alloc, from, to, &mut copied, proof)
}
