//! The side that went out last, with the places of its formulas: the next one mostly has nearly the same formulas.
ghost use Rattle.std.specs.Prelude.{◌≡◌, ℕ, ◌<◌, Bool, IsTrue, true, List, IfOk};
ghost use Rattle.std.specs.List.{All, list_all};
ghost use Rattle.std.specs.Ordering.{nat_cmp};
ghost use Rattle.fol.specs.Formed.{is_formed};
ghost use Rattle.finite.specs.Finite as set;
ghost use Rattle.arena_cells.specs.Items.{Item};
ghost use Rattle.arena_cells.specs.Standing.{side_at, IsSideAt};
ghost use Rattle.arena_graph.specs.declared.ranks.RankedFormula.{RankedFormula as Entry};
ghost use Rattle.arena_graph.specs.Ranks.{AreRanks};
ghost use Rattle.arena_graph.specs.Changes.{differ, is_odd, AreChanges};
ghost use Rattle.arena_graph.specs.Places.{ArePlaces, ArePlacesOf};
ghost use Rattle.arena_graph.specs.LastSide.{IsPlacedSide, IsLastSide, DoFollow};

use crate::ranks::Ranks;
use crate::runs::same_run;
use arena::Arena;
use lk_rules::Formulas;
use std::alloc::{AllocError, Global};
use std::cmp::Ordering;

// Up to so many formulas come or go one by one.
const FEW: usize = 16;

/// A side that went out, with the places of its formulas in rising order, and room for the numbers that come or go.
#[derive(Drop)]
pub(crate) struct LastSide {
    side: Option<u32>,
    places: Vec<usize>,
    changes: Vec<u32>,
}

// The numbers that come or go from one rising list to the other, by one walk over both.
fn find_changes(changes: &mut Vec<u32>, old: &[u32], new: &[u32]) -> Result<(), AllocError>
    ensures { IfOk result (λ _. AreChanges changes.new.items old.now new.now) }
{
    changes.clear();
    let mut i = same_run(old, new);
    let mut j = i;
    while i < old.len() && j < new.len() {
        match old[i].cmp(&new[j]) {
            Ordering::Less => {
                changes.push(old[i])?;
                i += 1;
            }
            Ordering::Equal => {
                let run = 1 + same_run(&old[i + 1..], &new[j + 1..]);
                i += run;
                j += run;
            }
            Ordering::Greater => {
                changes.push(new[j])?;
                j += 1;
            }
        }
    }
    changes.extend_from_slice(&old[i..])?;
    changes.extend_from_slice(&new[j..])?;
    Ok(())
}

// Takes a place out of the rising list, or puts it in where it isn't there.
fn change_place(places: &mut Vec<usize>, place: usize) -> Result<(), AllocError>
    requires { set.IsRising nat_cmp places.old.items }
    ensures rises { set.IsRising nat_cmp places.new.items }
    ensures within { (n : ℕ) → place < n → All (λ k. k < n) places.old.items → All (λ k. k < n) places.new.items }
    ensures changed { IfOk result (λ _. (p : ℕ → Bool) → is_odd p places.new.items ≡ differ (p place) (is_odd p places.old.items)) }
{
    match finite::search(places, &place) {
        Ok(at) => {
            places.remove(at);
        }
        Err(at) => places.insert(at, place)?,
    }
    Ok(())
}

// The places of the formulas that come or go come or go, where all are known.
fn change_places(
    arena: &Arena,
    ranks: &Ranks,
    places: &mut Vec<usize>,
    changes: &[u32],
) -> Result<bool, AllocError>
    requires ranks { AreRanks arena.now ranks.now }
    requires places { ArePlaces ranks.now.entries.items places.old.items }
    ensures { IfOk result (λ known. IsTrue known → DoFollow arena.now ranks.now.entries.items changes.now places.old.items places.new.items) }
{
    for number in changes {
        let Some(place) = ranks.place(arena, *number) else {
            return Ok(false);
        };
        change_place(places, place)?;
    }
    Ok(true)
}

impl LastSide {
    /// No side.
    pub fn new(alloc: Global) -> LastSide
        ensures { (a : List Item) (es : List Entry) → IsLastSide a es result }
    {
        LastSide {
            side: None,
            places: Vec::new(alloc),
            changes: Vec::new(alloc),
        }
    }

    /// Forgets the side.
    pub fn forget(&mut self)
        ensures { (a : List Item) (es : List Entry) → IsLastSide a es self.new }
    {
        self.side = None;
    }

    // Finds the places of the side's formulas by those of the last side's, where they differ in few.
    fn follow(
        &mut self,
        arena: &Arena,
        ranks: &Ranks,
        last: u32,
        side: u32,
    ) -> Result<bool, AllocError>
        requires ranks { AreRanks arena.now ranks.now }
        requires last { IsPlacedSide arena.now ranks.now.entries.items self.old.places.items last }
        requires side { IsSideAt arena.now side }
        ensures places { IfOk result (λ known. IsTrue known → ArePlacesOf ranks.now.entries.items (side_at arena.now side) self.new.places.items) }
        ensures side { self.new.side ≡ self.old.side }
    {
        arena.known();
        let old = arena.side_numbers(last);
        find_changes(&mut self.changes, old, arena.side_numbers(side))?;
        if self.changes.len() > FEW {
            return Ok(false);
        }
        change_places(arena, ranks, &mut self.places, &self.changes)
    }

    // Finds the places of the side's formulas, where all are known.
    fn find(&mut self, arena: &Arena, ranks: &Ranks, side: u32) -> Result<bool, AllocError>
        requires ranks { AreRanks arena.now ranks.now }
        requires last { IsLastSide arena.now ranks.now.entries.items self.old }
        requires side { IsSideAt arena.now side }
        ensures places { IfOk result (λ known. IsTrue known → ArePlacesOf ranks.now.entries.items (side_at arena.now side) self.new.places.items) }
        ensures none { self.new.side ≡ None }
    {
        if let Some(last) = self.side.take() {
            if self.follow(arena, ranks, last, side)? {
                return Ok(true);
            }
        }
        ranks.find_places(arena, arena.side_numbers(side), &mut self.places)
    }

    /// A set of well-formed formulas. Where the places of all are known, no formula is compared with another.
    pub fn export(
        &mut self,
        alloc: Global,
        arena: &Arena,
        ranks: &Ranks,
        side: u32,
    ) -> Result<Formulas, AllocError>
        requires ranks { AreRanks arena.now ranks.now }
        requires last { IsLastSide arena.now ranks.now.entries.items self.old }
        requires side { IsSideAt arena.now side }
        requires formed { list_all is_formed (set.listing (side_at arena.now side)) ≡ true }
        ensures side { IfOk result (λ formulas. formulas ≡ side_at arena.now side) }
        ensures last_stays { IsLastSide arena.now ranks.now.entries.items self.new }
    {
        if !self.find(arena, ranks, side)? {
            return arena.export_side(alloc, side);
        }
        self.side = Some(side);
        ranks.set_at(alloc, &self.places)
    }
}
