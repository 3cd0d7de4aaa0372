//! The step that is taken at a list.
ghost use Rattle.std.specs.Prelude.{◌≡◌, Some, IfOk, IfSome, is_some, position, option_map};
ghost use Rattle.std.specs.List.{All};
ghost use Rattle.finite.specs.Finite as set;
ghost use Rattle.arena_cells.specs.Standing.{Extends};
ghost use Rattle.arena_cells.specs.Meaning.{HasRuleParts};
ghost use Rattle.building_laws.specs.Lists.{strongs_in_list};
ghost use Rattle.building_laws.specs.Building.{parts, instance_at, first_step, step_at};
ghost use Rattle.arena_building.specs.Choosing.{ready_in, IsAsReady};
ghost use Rattle.arena_building.specs.Dividing.{ArePremisesNumbered};
ghost use Rattle.arena_building.specs.Leaves.{IsOpen};
ghost use Rattle.arena_building.specs.Numbered.{trees, IsNumbered};
ghost use Rattle.arena_building.specs.Taking.{step_of, IsRest, HasEnd};

use crate::dividing::{Added, Divided, Premises, divide};
use crate::instances::{Instance, instantiate};
use crate::lists::{Rest, awaited_vars};
use crate::placed::PlacedExp;
use crate::sides::Main;
use arena::{Arena, RuleKey};
use building_laws::laws;
use free_variables::Vars;
use std::alloc::{AllocError, Global};

/// A rule, what stays of the list, the formula that was taken out with its tree, and the trees that are added for each premise.
#[derive(Drop)]
pub(crate) struct Taken<'e> {
    pub rule: RuleKey,
    pub rest: Rest<'e>,
    pub main: Option<Main>,
    pub premises: Premises<'e>,
}

// The place of the first tree with a connective or a strong quantifier at its root.
fn first_compound(list: &[PlacedExp<'_>]) -> Option<usize>
    ensures { result ≡ position (λ q. is_some (parts q.placed)) list.now }
{
    list.iter().position(|placed| placed.is_compound())
}

// The place of the first tree with an instance whose term has no variable of the set.
fn first_with_instance(list: &[PlacedExp<'_>], vars: &Vars) -> Option<usize>
    ensures { result ≡ position (λ q. is_some (ready_in vars.now q.placed.tree)) list.now }
{
    list.iter().position(|placed| placed.ready(vars).is_some())
}

// The step at the first tree with a connective or a strong quantifier at its root.
fn take_apart<'e>(
    arena: &mut Arena,
    alloc: Global,
    list: Vec<PlacedExp<'e>>,
    place: usize,
) -> Result<Taken<'e>, AllocError>
    requires numbers { All (IsNumbered arena.old) list.items }
    requires open_leaves { IsOpen (trees list.items) }
    requires place { position (λ q. is_some (parts q.placed)) list.items ≡ Some place }
    ensures step { IfOk result (λ t. first_step parts (trees list.entry.items) ≡ Some (step_of arena.new t)) }
    ensures rule { IfOk result (λ t. HasRuleParts arena.new t.rule) }
    ensures rest { IfOk result (λ t. IsRest arena.new t.rest) }
    ensures premises { IfOk result (λ t. ArePremisesNumbered arena.new t.premises) }
    ensures end { IfOk result (HasEnd arena.new (trees list.entry.items)) }
    ensures grown { Extends arena.old arena.new }
{
    let mut list = list;
    let placed = list.remove(place);
    let side = placed.side();
    let formula = placed.formula();
    let Divided { rule, premises } = divide(arena, alloc, placed)?;
    Ok(Taken {
        rule,
        rest: Rest { list, place },
        main: Some(Main { side, formula }),
        premises,
    })
}

// The step at the first instance whose term has no variable of a strong quantifier of the list. The tree of the other instances stays.
fn take_instance<'e>(
    arena: &mut Arena,
    alloc: Global,
    list: Vec<PlacedExp<'e>>,
    vars: &Vars,
    place: usize,
) -> Result<Taken<'e>, AllocError>
    requires numbers { All (IsNumbered arena.old) list.items }
    requires open_leaves { IsOpen (trees list.items) }
    requires vars { IsAsReady vars.now (set.of_list (strongs_in_list (trees list.items))) (trees list.items) }
    requires place { position (λ q. is_some (ready_in vars.now q.placed.tree)) list.items ≡ Some place }
    ensures step { IfOk result (λ t. first_step (instance_at (strongs_in_list (trees list.entry.items))) (trees list.entry.items) ≡ Some (step_of arena.new t)) }
    ensures rule { IfOk result (λ t. HasRuleParts arena.new t.rule) }
    ensures rest { IfOk result (λ t. IsRest arena.new t.rest) }
    ensures premises { IfOk result (λ t. ArePremisesNumbered arena.new t.premises) }
    ensures end { IfOk result (HasEnd arena.new (trees list.entry.items)) }
    ensures grown { Extends arena.old arena.new }
{
    let mut list = list;
    let placed = list.remove(place);
    let Some(instance) = placed.ready(vars) else {
        unreachable!()
    };
    let Instance {
        rule,
        others,
        child,
    } = instantiate(arena, alloc, placed, instance)?;
    list.insert(place, others)?;
    let place = place + 1;
    Ok(Taken {
        rule,
        rest: Rest { list, place },
        main: None,
        premises: Premises::One(Added::One(child)),
    })
}

/// The step that is taken at a list whose leaves end no branch: that of the first connective or strong quantifier; else that of the first
/// instance, by tree and then by term, whose term has no variable of a strong quantifier that is still in the list.
pub(crate) fn take_step<'e>(
    arena: &mut Arena,
    alloc: Global,
    list: Vec<PlacedExp<'e>>,
) -> Result<Option<Taken<'e>>, AllocError>
    requires numbers { All (IsNumbered arena.old) list.items }
    requires open_leaves { IsOpen (trees list.items) }
    ensures step { IfOk result (λ o. step_at (trees list.entry.items) ≡ option_map (step_of arena.new) o) }
    ensures rule { IfOk result (λ o. IfSome o (λ t. HasRuleParts arena.new t.rule)) }
    ensures rest { IfOk result (λ o. IfSome o (λ t. IsRest arena.new t.rest)) }
    ensures premises { IfOk result (λ o. IfSome o (λ t. ArePremisesNumbered arena.new t.premises)) }
    ensures end { IfOk result (λ o. IfSome o (HasEnd arena.new (trees list.entry.items))) }
    ensures grown { Extends arena.old arena.new }
{
    laws::taken();
    if let Some(place) = first_compound(&list) {
        return Ok(Some(take_apart(arena, alloc, list, place)?));
    }
    let vars = awaited_vars(alloc, &list)?;
    match first_with_instance(&list, &vars) {
        Some(place) => { Ok(Some(take_instance(arena, alloc, list, &vars, place)?)) }
        None => Ok(None),
    }
}
