//! Proofs of lists: a walk over the lists that counts their inferences, and makes them in an arena where that is asked for.
ghost use Rattle.std.specs.Prelude.{◌≡◌, ◌+◌, ◌<◌, Err, IfOk, IfSome};
ghost use Rattle.std.specs.List.{All};
ghost use Rattle.proof_trees.specs.Trees.{node, none};
ghost use Rattle.arena_cells.specs.Standing.{Extends, HasSequent, HasTree, sequent_at, IsSequentAt};
ghost use Rattle.arena_cells.specs.Meaning.{rule_at, HasRuleParts};
ghost use Rattle.building_laws.specs.Lists.{conclusion as sequent_of};
ghost use Rattle.building_laws.specs.Building.{visits};
ghost use Rattle.building_laws.specs.Buildable.{IsBuildable};
ghost use Rattle.arena_building.specs.Begun.{IsBegun};
ghost use Rattle.arena_building.specs.Building.{visits_each, one_of, two_of, IsAnswered, IsProofOf, AreProofsOf};
ghost use Rattle.arena_building.specs.Dividing.{items_of, parts_each, IsAddedNumbered, ArePremisesNumbered};
ghost use Rattle.arena_building.specs.Kept.{kept_of};
ghost use Rattle.arena_building.specs.Leaves.{IsOpen};
ghost use Rattle.arena_building.specs.Numbered.{trees, IsNumbered};
ghost use Rattle.arena_building.specs.Putting.{put};
ghost use Rattle.arena_building.specs.Sides.{HasSides};
ghost use Rattle.arena_building.specs.Taking.{lists_over, IsRest};

use crate::dividing::{Added, Premises};
use crate::leaves::closing;
use crate::lists::{Kept, Rest};
use crate::placed::PlacedExp;
use crate::sides::{Sides, rest_sides, with_added};
use crate::steps::{Taken, take_step};
use arena::{Arena, Parts, RuleKey};
use arena_proofs::inference;
use building_laws::{BuildFault, laws};
use std::alloc::{AllocError, Global};

// A premise that is begun. Where proofs are made, the numbers are there.
enum Begun {
    /// The proof, by a rule without premises.
    Closed(Option<u32>),
    /// The sequent of a list whose leaves end no branch.
    Open(Option<u32>),
}

// Takes one from what is left.
fn count(left: &mut u64) -> Result<(), BuildFault>
    ensures counted { IfOk result (λ _. left.old ≡ left.new + 1) }
    ensures budget { result ≡ Err BuildFault.Budget → left.old ≡ 0 }
{
    if *left == 0 {
        return Err(BuildFault::Budget);
    }
    *left -= 1;
    Ok(())
}

// The proof by a rule without premises, of a sequent that is there.
fn close(
    arena: &mut Arena,
    alloc: Global,
    rule: RuleKey,
    end: Option<u32>,
) -> Result<Option<u32>, AllocError>
    requires rule { HasRuleParts arena.old rule }
    requires end { IfSome end (IsSequentAt arena.old) }
    ensures proof { IfOk result (IsAnswered (λ e n. HasTree arena.new n (node (rule_at arena.old rule) (sequent_at arena.old e) none)) end) }
    ensures grown { Extends arena.old arena.new }
{
    match end {
        Some(end) => Ok(Some(inference(arena, alloc, rule, end, Parts::Zero)?)),
        None => Ok(None),
    }
}

// The sequent of a list with trees that are added, where the sides of the list are there.
fn conclusion_with(
    arena: &mut Arena,
    alloc: Global,
    rest: &Rest<'_>,
    sides: Option<Sides>,
    added: &Added<'_>,
) -> Result<Option<u32>, AllocError>
    requires sides { IfSome sides (λ s. HasSides arena.old s (sequent_of (trees rest.now.list.items))) }
    requires added { IsAddedNumbered arena.old added.now }
    ensures sequent { IfOk result (IsAnswered (λ _ n. HasSequent arena.new n (sequent_of (put (trees rest.now.list.items) rest.now.place (trees (items_of added.now))))) sides) }
    ensures grown { Extends arena.old arena.new }
{
    let Some(sides) = sides else {
        return Ok(None);
    };
    let sides = with_added(arena, alloc, sides, added)?;
    Ok(Some(arena.put_sequent(alloc, sides.left, sides.right)?))
}

// Begins the premise with trees that are added to what stays of a list. Where its leaves end the branch, its inference is counted, and its
// proof made.
fn begin(
    arena: &mut Arena,
    alloc: Global,
    rest: &Rest<'_>,
    sides: Option<Sides>,
    added: &Added<'_>,
    left: &mut u64,
) -> Result<Begun, BuildFault>
    requires rest { IsRest arena.old rest.now }
    requires sides { IfSome sides (λ s. HasSides arena.old s (sequent_of (trees rest.now.list.items))) }
    requires added { IsAddedNumbered arena.old added.now }
    ensures begun { IfOk result (IsBegun arena.new sides left.old left.new (put (trees rest.now.list.items) rest.now.place (trees (items_of added.now)))) }
    ensures budget { result ≡ Err BuildFault.Budget → left.old < visits (put (trees rest.now.list.items) rest.now.place (trees (items_of added.now))) }
    ensures grown { Extends arena.old arena.new }
{
    laws::taken();
    laws::steps();
    let end = conclusion_with(arena, alloc, rest, sides, added)?;
    match added.closing(arena, alloc, &rest.list)? {
        Some(rule) => {
            count(left)?;
            Ok(Begun::Closed(close(arena, alloc, rule, end)?))
        }
        None => Ok(Begun::Open(end)),
    }
}

// The only premise, where its proof was made.
fn one(only: Option<u32>) -> Option<Parts>
    ensures { result ≡ one_of only }
{
    match only {
        Some(only) => Some(Parts::One(only)),
        None => None,
    }
}

// Two premises, where their proofs were made.
fn two(first: Option<u32>, second: Option<u32>) -> Option<Parts>
    ensures { result ≡ two_of first second }
{
    match (first, second) {
        (Some(first), Some(second)) => Some(Parts::Two(first, second)),
        _ => None,
    }
}

// The walk over a list whose leaves end no branch, and over the lists above it. The proof is made where the list's sequent is there.
#[cycle(build)]
fn build_open(
    arena: &mut Arena,
    alloc: Global,
    list: Vec<PlacedExp<'_>>,
    end: Option<u32>,
    left: &mut u64,
) -> Result<Option<u32>, BuildFault>
    requires buildable { IsBuildable (trees list.items) }
    requires numbers { All (IsNumbered arena.old) list.items }
    requires open_leaves { IsOpen (trees list.items) }
    requires end { IfSome end (λ n. HasSequent arena.old n (sequent_of (trees list.items))) }
    ensures proof { IfOk result (IsAnswered (λ _. IsProofOf arena.new (trees list.entry.items)) end) }
    ensures counted { IfOk result (λ _. left.old ≡ left.new + visits (trees list.entry.items)) }
    ensures budget { result ≡ Err BuildFault.Budget → left.old < visits (trees list.entry.items) }
    ensures grown { Extends arena.old arena.new }
{
    laws::lists();
    laws::steps();
    count(left)?;
    let Some(taken) = take_step(arena, alloc, list)? else {
        unreachable!()
    };
    let Taken {
        rule,
        rest,
        main,
        premises,
    } = taken;
    let sides = rest_sides(arena, alloc, end, main, &rest.list)?;
    let proofs = build_premises(arena, alloc, rest, sides, premises, left)?;
    let Some(end) = end else {
        return Ok(None);
    };
    let Some(proofs) = proofs else { unreachable!() };
    Ok(Some(inference(arena, alloc, rule, end, proofs)?))
}

// The walk over the lists of premises, one after the other.
#[cycle(build)]
fn build_premises(
    arena: &mut Arena,
    alloc: Global,
    rest: Rest<'_>,
    sides: Option<Sides>,
    premises: Premises<'_>,
    left: &mut u64,
) -> Result<Option<Parts>, BuildFault>
    requires buildable { All IsBuildable (lists_over rest (parts_each premises)) }
    requires rest { IsRest arena.old rest }
    requires sides { IfSome sides (λ s. HasSides arena.old s (sequent_of (trees rest.list.items))) }
    requires premises { ArePremisesNumbered arena.old premises }
    ensures proofs { IfOk result (IsAnswered (λ _. AreProofsOf arena.new (lists_over rest.entry (parts_each premises.entry))) sides) }
    ensures counted { IfOk result (λ _. left.old ≡ left.new + visits_each (lists_over rest.entry (parts_each premises.entry))) }
    ensures budget { result ≡ Err BuildFault.Budget → left.old < visits_each (lists_over rest.entry (parts_each premises.entry)) }
    ensures grown { Extends arena.old arena.new }
{
    match premises {
        Premises::One(added) => {
            let only = build_premise(arena, alloc, Kept::Moved(rest), sides, added, left)?;
            Ok(one(only))
        }
        Premises::Two(first, second) => {
            let first = build_premise(arena, alloc, Kept::Copied(&rest), sides, first, left)?;
            let second = build_premise(arena, alloc, Kept::Moved(rest), sides, second, left)?;
            Ok(two(first, second))
        }
    }
}

// The walk over the list of a premise.
#[cycle(build)]
fn build_premise<'e>(
    arena: &mut Arena,
    alloc: Global,
    rest: Kept<'_, 'e>,
    sides: Option<Sides>,
    added: Added<'e>,
    left: &mut u64,
) -> Result<Option<u32>, BuildFault>
    requires buildable { IsBuildable (put (trees (kept_of rest).list.items) (kept_of rest).place (trees (items_of added))) }
    requires rest { IsRest arena.old (kept_of rest) }
    requires sides { IfSome sides (λ s. HasSides arena.old s (sequent_of (trees (kept_of rest).list.items))) }
    requires added { IsAddedNumbered arena.old added }
    ensures proof { IfOk result (IsAnswered (λ _. IsProofOf arena.new (put (trees (kept_of rest.entry).list.items) (kept_of rest.entry).place (trees (items_of added.entry)))) sides) }
    ensures counted { IfOk result (λ _. left.old ≡ left.new + visits (put (trees (kept_of rest.entry).list.items) (kept_of rest.entry).place (trees (items_of added.entry)))) }
    ensures budget { result ≡ Err BuildFault.Budget → left.old < visits (put (trees (kept_of rest.entry).list.items) (kept_of rest.entry).place (trees (items_of added.entry))) }
    ensures grown { Extends arena.old arena.new }
{
    match begin(arena, alloc, rest.rest(), sides, &added, left)? {
        Begun::Closed(proof) => Ok(proof),
        Begun::Open(end) => {
            let list = rest.with(alloc, added)?;
            build_open(arena, alloc, list, end, left)
        }
    }
}

/// Takes one from `left` for each inference of the proof of a list, and ends where nothing is left. The proof is made where the list's
/// sequent is there.
pub(crate) fn build_list(
    arena: &mut Arena,
    alloc: Global,
    list: Vec<PlacedExp<'_>>,
    end: Option<u32>,
    left: &mut u64,
) -> Result<Option<u32>, BuildFault>
    requires buildable { IsBuildable (trees list.items) }
    requires numbers { All (IsNumbered arena.old) list.items }
    requires end { IfSome end (λ n. HasSequent arena.old n (sequent_of (trees list.items))) }
    ensures proof { IfOk result (IsAnswered (λ _. IsProofOf arena.new (trees list.entry.items)) end) }
    ensures counted { IfOk result (λ _. left.old ≡ left.new + visits (trees list.entry.items)) }
    ensures budget { result ≡ Err BuildFault.Budget → left.old < visits (trees list.entry.items) }
    ensures grown { Extends arena.old arena.new }
{
    laws::taken();
    laws::steps();
    match closing(arena, alloc, &list)? {
        Some(rule) => {
            count(left)?;
            Ok(close(arena, alloc, rule, end)?)
        }
        None => build_open(arena, alloc, list, end, left),
    }
}
