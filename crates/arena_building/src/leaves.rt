//! The rule without premises by which the leaves of a list end a branch.
ghost use Rattle.std.specs.Prelude.{◌≡◌, ◌++◌, ℕ, filter, option_map, option_to_list, IfOk, IfSome};
ghost use Rattle.std.specs.List.{All, list_any};
ghost use Rattle.std.specs.Ordering.{nat_cmp};
ghost use Rattle.finite.specs.Finite as set;
ghost use Rattle.lk_rules.specs.declared.sequent.Side.TheVariants.{Left as OnLeft};
ghost use Rattle.arena_cells.specs.Standing.{IsFormulaAt};
ghost use Rattle.arena_cells.specs.Meaning.{rule_at, HasRuleParts};
ghost use Rattle.building_laws.specs.Lists.{leaf_sequent};
ghost use Rattle.building_laws.specs.Building.{closing_rule};
ghost use Rattle.arena_building.specs.Leaves.{is_truth_leaf, is_falsity_leaf, leaf_number, leaf_numbers, is_number_in, is_common, lesser_of, IsLeastAt};
ghost use Rattle.arena_building.specs.Numbered.{trees, IsNumbered};

use crate::placed::PlacedExp;
use arena::{Arena, RuleKey};
use free_variables::rising;
use lk_rules::Side;
use std::alloc::{AllocError, Global};
use std::cmp::Ordering;

// Appends the number of a leaf on the side.
fn push_leaf(numbers: &mut Vec<u32>, placed: &PlacedExp<'_>, side: Side) -> Result<(), AllocError>
    ensures { IfOk result (λ _. numbers.new.items ≡ numbers.old.items ++ option_to_list (leaf_number side placed.now)) }
{
    if let Some(number) = placed.leaf_on(side) {
        numbers.push(number)?;
    }
    Ok(())
}

// The numbers of the leaves on a side, in rising order.
fn leaves_on(alloc: Global, list: &[PlacedExp<'_>], side: Side) -> Result<Vec<u32>, AllocError>
    ensures rises { IfOk result (λ ns. set.IsRising nat_cmp ns.items) }
    ensures same { IfOk result (λ ns. (n : ℕ) → is_number_in ns.items n ≡ is_number_in (leaf_numbers side list.now) n) }
{
    let mut numbers = Vec::new(alloc);
    for placed in list {
        push_leaf(&mut numbers, placed, side)?;
    }
    rising::sort_distinct(&mut numbers);
    Ok(numbers)
}

// Whether the number is among these.
fn is_among(numbers: &[u32], number: u32) -> bool
    requires { set.IsRising nat_cmp numbers.now }
    ensures { result ≡ is_number_in numbers.now number }
{
    finite::search(numbers, &number).is_ok()
}

// Appends the number of a leaf on the left that is among these.
fn push_among(
    common: &mut Vec<u32>,
    placed: &PlacedExp<'_>,
    numbers: &[u32],
) -> Result<(), AllocError>
    requires { set.IsRising nat_cmp numbers.now }
    ensures { IfOk result (λ _. common.new.items ≡ common.old.items ++ filter (is_number_in numbers.now) (option_to_list (leaf_number OnLeft placed.now))) }
{
    if let Some(number) = placed.leaf_on(Side::Left) {
        if is_among(numbers, number) {
            common.push(number)?;
        }
    }
    Ok(())
}

// The numbers of the leaves on the left that are among these.
fn among(alloc: Global, list: &[PlacedExp<'_>], numbers: &[u32]) -> Result<Vec<u32>, AllocError>
    requires { set.IsRising nat_cmp numbers.now }
    ensures { IfOk result (λ common. common.items ≡ filter (is_number_in numbers.now) (leaf_numbers OnLeft list.now)) }
{
    let mut common = Vec::new(alloc);
    for placed in list {
        push_among(&mut common, placed, numbers)?;
    }
    Ok(common)
}

// The numbers of the formulas that are leaves on both sides.
fn common(alloc: Global, list: &[PlacedExp<'_>]) -> Result<Vec<u32>, AllocError>
    ensures { IfOk result (λ common. (n : ℕ) → is_number_in common.items n ≡ is_common list.now n) }
{
    let right = leaves_on(alloc, list, Side::Right)?;
    among(alloc, list, &right)
}

// The number of the lesser formula of two, or of the one that there is.
fn lesser(arena: &Arena, least: Option<u32>, number: u32) -> u32
    requires least { IfSome least (IsFormulaAt arena.now) }
    requires number { IsFormulaAt arena.now number }
    ensures { result ≡ lesser_of arena.now least number }
{
    let Some(least) = least else {
        return number;
    };
    match arena.formula(least).cmp(arena.formula(number)) {
        Ordering::Less | Ordering::Equal => least,
        Ordering::Greater => number,
    }
}

/// The number of the least formula of some.
pub(crate) fn least(arena: &Arena, numbers: &[u32]) -> Option<u32>
    requires { All (IsFormulaAt arena.now) numbers.now }
    ensures there { IfSome result (IsFormulaAt arena.now) }
    ensures least { IsLeastAt arena.now numbers.now result }
{
    let mut least = None;
    for number in numbers {
        least = Some(lesser(arena, least, *number));
    }
    least
}

// Whether truth is a leaf on the right.
fn has_truth(list: &[PlacedExp<'_>]) -> bool
    ensures { result ≡ list_any is_truth_leaf list.now }
{
    list.iter().any(|placed| placed.is_truth())
}

// Whether falsity is a leaf on the left.
fn has_falsity(list: &[PlacedExp<'_>]) -> bool
    ensures { result ≡ list_any is_falsity_leaf list.now }
{
    list.iter().any(|placed| placed.is_falsity())
}

/// The rule without premises at a list: an axiom on the least formula that is a leaf on both sides; else truth on the right; else falsity
/// on the left.
pub(crate) fn closing(
    arena: &Arena,
    alloc: Global,
    list: &[PlacedExp<'_>],
) -> Result<Option<RuleKey>, AllocError>
    requires { All (IsNumbered arena.now) list.now }
    ensures rule { IfOk result (λ rule. option_map (rule_at arena.now) rule ≡ closing_rule (leaf_sequent (trees list.now))) }
    ensures parts { IfOk result (λ rule. IfSome rule (HasRuleParts arena.now)) }
{
    arena.known();
    let common = common(alloc, list)?;
    if let Some(formula) = least(arena, &common) {
        return Ok(Some(RuleKey::Ax(formula)));
    }
    if has_truth(list) {
        return Ok(Some(RuleKey::TopR));
    }
    if has_falsity(list) {
        return Ok(Some(RuleKey::BotL));
    }
    Ok(None)
}
