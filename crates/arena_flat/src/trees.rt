//! Proof trees with all unfolded.
ghost use Rattle.std.specs.Prelude.{◌≡◌, IfOk, OnOk, IfSome, OnSome, IfNone};
ghost use Rattle.proof_trees.specs.Trees.{concl, below};
ghost use Rattle.arena_cells.specs.Standing.{Extends, HasTree, tree_at, IsTreeAt};
ghost use Rattle.arena_cells.specs.Meaning.{trees_at, HasPremises};
ghost use Rattle.def_laws.specs.Unfolded.{unfolded, unfolded_all, HasNoBody};
ghost use Rattle.proof_trees.specs.Conclusions.{EachNode};
ghost use Rattle.arena_flat.specs.Flattened.{AreFlat};
ghost use Rattle.arena_flat.specs.Short.{HasShortRules, HaveShortRules, HasShortSides};

use crate::flattened::Flattened;
use crate::plain::is_plain;
use crate::rules::{flatten_rule, rule_is_short};
use crate::sequents::{flatten_sequent, sides_are_short};
use arena::{Arena, Parts};
use arena_proofs::{end, inference, premises, rule};
use std::alloc::{AllocError, Global};

// The number of a tree with all unfolded.
#[cycle(flatten_known)]
fn flatten_known(
    alloc: Global,
    from: &Arena,
    to: &mut Arena,
    flattened: &mut Flattened,
    proof: u32,
) -> Result<u32, AllocError>
    requires there { IsTreeAt from.now proof }
    requires flattened { AreFlat from.now to.old flattened.old }
    ensures tree { IfOk result (λ n. HasTree to.new n (unfolded (tree_at from.now proof))) }
    ensures short { OnOk result (HasShortRules (tree_at from.now proof)) }
    ensures grown { Extends to.old to.new }
    ensures flattened { OnOk result (AreFlat from.now to.new flattened.new) }
{
    if let Some(flat) = flattened.tree(from, to, proof) {
        return Ok(flat);
    }
    let parts = flatten_premises(alloc, from, to, flattened, proof)?;
    let flat = flatten_over(alloc, from, to, flattened, proof, parts)?;
    flattened.note_tree(from, to, proof, flat)?;
    Ok(flat)
}

// The numbers of a tree's premises with all unfolded.
#[cycle(flatten_known)]
fn flatten_premises(
    alloc: Global,
    from: &Arena,
    to: &mut Arena,
    flattened: &mut Flattened,
    proof: u32,
) -> Result<Parts, AllocError>
    requires there { IsTreeAt from.now proof }
    requires flattened { AreFlat from.now to.old flattened.old }
    ensures there { IfOk result (HasPremises to.new) }
    ensures trees { IfOk result (λ parts. trees_at to.new parts ≡ unfolded_all (below (tree_at from.now proof))) }
    ensures short { OnOk result (HaveShortRules (below (tree_at from.now proof))) }
    ensures grown { Extends to.old to.new }
    ensures flattened { OnOk result (AreFlat from.now to.new flattened.new) }
{
    match premises(from, proof) {
        Parts::Zero => Ok(Parts::Zero),
        Parts::One(only) => {
            let only = flatten_known(alloc, from, to, flattened, only)?;
            Ok(Parts::One(only))
        }
        Parts::Two(first, second) => {
            let first = flatten_known(alloc, from, to, flattened, first)?;
            let second = flatten_known(alloc, from, to, flattened, second)?;
            Ok(Parts::Two(first, second))
        }
    }
}

// The number of a tree with all unfolded, over its premises.
fn flatten_over(
    alloc: Global,
    from: &Arena,
    to: &mut Arena,
    flattened: &mut Flattened,
    proof: u32,
    parts: Parts,
) -> Result<u32, AllocError>
    requires proof { IsTreeAt from.now proof }
    requires there { HasPremises to.old parts }
    requires trees { trees_at to.old parts ≡ unfolded_all (below (tree_at from.now proof)) }
    requires short { HaveShortRules (below (tree_at from.now proof)) }
    requires flattened { AreFlat from.now to.old flattened.old }
    ensures tree { IfOk result (λ n. HasTree to.new n (unfolded (tree_at from.now proof))) }
    ensures short { OnOk result (HasShortRules (tree_at from.now proof)) }
    ensures grown { Extends to.old to.new }
    ensures flattened { OnOk result (AreFlat from.now to.new flattened.new) }
{
    rule_is_short(from, rule(from, proof));
    let end = flatten_sequent(alloc, from, to, flattened, end(from, proof))?;
    let rule = flatten_rule(alloc, from, to, flattened, rule(from, proof))?;
    inference(to, alloc, rule, end, parts)
}

// The formulas of a tree's end sequent are short.
fn end_is_short(from: &Arena, proof: u32)
    requires { IsTreeAt from.now proof }
    ensures { HasShortSides (concl (tree_at from.now proof)) }
{
    sides_are_short(from, end(from, proof));
}

/// The number in an arena of the tree that stands at a number of another one, with all unfolded; nothing where no predicate symbol in the tree
/// has a body, and so it is the tree itself. Each distinct term, formula, side and subtree is done once. No formula of an arena is so large
/// that it would not be well formed with all unfolded, so the tree that is made is valid where the old one is.
pub fn unfold_tree(
    alloc: Global,
    from: &Arena,
    to: &mut Arena,
    proof: u32,
) -> Result<Option<u32>, AllocError>
    requires { IsTreeAt from.now proof }
    ensures tree { IfOk result (λ made. IfSome made (λ n. HasTree to.new n (unfolded (tree_at from.now proof)))) }
    ensures plain { IfOk result (λ made. IfNone made (EachNode HasNoBody (tree_at from.now proof))) }
    ensures short { IfOk result (λ made. OnSome made (HasShortRules (tree_at from.now proof))) }
    ensures end { HasShortSides (concl (tree_at from.now proof)) }
    ensures grown { Extends to.old to.new }
{
    end_is_short(from, proof);
    if is_plain(alloc, from, proof)? {
        return Ok(None);
    }
    let mut flattened = Flattened::new(alloc);
    let made = flatten_known(alloc, from, to, &mut flattened, proof)?;
    Ok(Some(made))
}
