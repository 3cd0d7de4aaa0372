//! Lists of trees on sides.
ghost use Rattle.std.specs.Prelude.{◌≡◌, ◌++◌, ◌≤◌, length, map, IfOk};
ghost use Rattle.std.specs.List.{All};
ghost use Rattle.finite.specs.Finite as set;
ghost use Rattle.arena_cells.specs.Standing.{Extends};
ghost use Rattle.building_laws.specs.Lists.{on, start as start_list, strongs_in_list};
ghost use Rattle.exp_tree.specs.Reads.{expansion_of};
ghost use Rattle.arena_building.specs.Choosing.{begins_closed as is_begun_closed, IsAsReady};
ghost use Rattle.arena_building.specs.Dividing.{items_of};
ghost use Rattle.arena_building.specs.Numbered.{trees as placed_in, IsNumbered};
ghost use Rattle.arena_building.specs.Putting.{put};
ghost use Rattle.arena_building.specs.Kept.{kept_of};

use crate::dividing::Added;
use crate::placed::{PlacedExp, place_tree};
use arena::Arena;
use exp_tree::{Exp, ExpSequent};
use free_variables::Vars;
use lk_rules::Side;
use std::alloc::{AllocError, Global};

/// What stays of a list when a tree is taken out, and the place at which new trees are added.
#[derive(Drop)]
pub(crate) struct Rest<'e> {
    pub list: Vec<PlacedExp<'e>>,
    pub place: usize,
}

/// What stays of a list, for the list of a premise: it is moved into that, or copied.
#[derive(Drop)]
pub(crate) enum Kept<'a, 'e> {
    Moved(Rest<'e>),
    Copied(&'a Rest<'e>),
}

/// The same list, with room for two more trees.
pub(crate) fn copy_list<'e>(
    alloc: Global,
    list: &[PlacedExp<'e>],
) -> Result<Vec<PlacedExp<'e>>, AllocError>
    ensures { IfOk result (λ copies. copies.items ≡ list.now) }
{
    let mut copies = Vec::with_capacity(alloc, list.len() + 2)?;
    for placed in list {
        copies.push(placed.copy(alloc)?)?;
    }
    Ok(copies)
}

impl<'e> Rest<'e> {
    /// The same of a list.
    pub fn copy(&self, alloc: Global) -> Result<Rest<'e>, AllocError>
        ensures list { IfOk result (λ copy. copy.list.items ≡ self.now.list.items) }
        ensures place { IfOk result (λ copy. copy.place ≡ self.now.place) }
    {
        let list = copy_list(alloc, &self.list)?;
        Ok(Rest {
            list,
            place: self.place,
        })
    }

    /// The list with trees that are added at the place.
    pub fn with(self, added: Added<'e>) -> Result<Vec<PlacedExp<'e>>, AllocError>
        requires { self.place ≤ length self.list.items }
        ensures { IfOk result (λ list. list.items ≡ put self.entry.list.items self.entry.place (items_of added.entry)) }
    {
        let Rest { mut list, place } = self;
        match added {
            Added::One(placed) => list.insert(place, placed)?,
            Added::Two(first, second) => {
                list.insert(place, second)?;
                list.insert(place, first)?;
            }
        }
        Ok(list)
    }
}

impl<'e> Kept<'_, 'e> {
    /// What stays.
    pub fn rest(&self) -> &Rest<'e>
        ensures { result.now ≡ kept_of self.now }
    {
        match self {
            Kept::Moved(rest) => rest,
            Kept::Copied(rest) => rest,
        }
    }

    /// The list with trees that are added at the place.
    pub fn with(self, alloc: Global, added: Added<'e>) -> Result<Vec<PlacedExp<'e>>, AllocError>
        requires { (kept_of self).place ≤ length (kept_of self).list.items }
        ensures { IfOk result (λ list. list.items ≡ put (kept_of self.entry).list.items (kept_of self.entry).place (items_of added.entry)) }
    {
        match self {
            Kept::Moved(rest) => rest.with(added),
            Kept::Copied(rest) => rest.copy(alloc)?.with(added),
        }
    }
}

// The variables of the strong quantifiers that are still in the list.
fn strong_vars(alloc: Global, list: &[PlacedExp<'_>]) -> Result<Vars, AllocError>
    ensures { IfOk result (λ vars. vars ≡ set.of_list (strongs_in_list (placed_in list.now))) }
{
    let mut vars = Vec::new(alloc);
    for placed in list {
        placed.push_vars(&mut vars)?;
    }
    Ok(Vars::from_vec(vars))
}

// Whether the term of the first instance, by tree and then by term, has no free variable.
fn begins_closed(list: &[PlacedExp<'_>]) -> bool
    ensures { result ≡ is_begun_closed (placed_in list.now) }
{
    for placed in list {
        if let Some(closed) = placed.first_closed() {
            return closed;
        }
    }
    false
}

/// Variables by which the first instance is found that may be taken. The variables of the strong quantifiers are looked for only where the
/// first instance of all has a free variable.
pub(crate) fn awaited_vars(alloc: Global, list: &[PlacedExp<'_>]) -> Result<Vars, AllocError>
    ensures { IfOk result (λ vars. IsAsReady vars (set.of_list (strongs_in_list (placed_in list.now))) (placed_in list.now)) }
{
    if begins_closed(list) {
        return Ok(Vars::new(alloc));
    }
    strong_vars(alloc, list)
}

// Appends trees on a side.
fn push_trees<'e>(
    arena: &mut Arena,
    alloc: Global,
    list: &mut Vec<PlacedExp<'e>>,
    side: Side,
    trees: &'e [Exp],
) -> Result<(), AllocError>
    requires { All (IsNumbered arena.old) list.old.items }
    ensures trees { IfOk result (λ _. placed_in list.new.items ≡ placed_in list.old.items ++ map (on side) trees.now) }
    ensures numbers { IfOk result (λ _. All (IsNumbered arena.new) list.new.items) }
    ensures grown { Extends arena.old arena.new }
{
    for tree in trees {
        list.push(place_tree(arena, alloc, side, tree)?)?;
    }
    Ok(())
}

/// The list that building begins with: the trees of the left in order, then those of the right.
pub(crate) fn start<'e>(
    arena: &mut Arena,
    alloc: Global,
    exps: &'e ExpSequent,
) -> Result<Vec<PlacedExp<'e>>, AllocError>
    ensures list { IfOk result (λ list. placed_in list.items ≡ start_list (expansion_of exps.now)) }
    ensures numbers { IfOk result (λ list. All (IsNumbered arena.new) list.items) }
    ensures grown { Extends arena.old arena.new }
{
    let mut list = Vec::new(alloc);
    push_trees(arena, alloc, &mut list, Side::Left, exps.left.as_slice())?;
    push_trees(arena, alloc, &mut list, Side::Right, exps.right.as_slice())?;
    Ok(list)
}
