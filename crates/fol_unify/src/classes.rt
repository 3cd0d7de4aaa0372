//! Classes of numbers, of which each number leads to another or is the root of its class.
ghost use Rattle.std.specs.Prelude.{◌≡◌, ◌≢◌, ◌⊎◌, ◌<◌, ℕ, List, length, IfOk, OnOk, slice_set};
ghost use Rattle.fol_unify.specs.Classes.{next, Leads, AreRising};

use std::alloc::{AllocError, Global};
use std::marker::Model;

/// Numbers in classes. Contracts see the list of where each number leads, which is to itself from a root.
#[derive(Drop)]
pub(crate) struct Classes {
    links: Vec<u32>,
    // A number's height is below that of the number to which it leads.
    heights: Vec<u32>,
}

impl Model for Classes {
    ghost use Rattle.std.specs.Prelude.{ℕ, List};
    ghost use Rattle.std.specs.Coded.{coded_list};
    ghost use base.Stored.{coded_ℕ};
    ghost use Rattle.fol_unify.specs.Classes.{AreRising};

    ghost Value = { List ℕ };

    ghost coded = { coded_list coded_ℕ };

    ghost view = { λ c. c.links.items };

    ghost invariant = { λ c. AreRising c.links.items c.heights.items };
}

// The root to which the number leads.
fn root_of(links: &[u32], heights: &[u32], number: u32) -> u32
    requires rising { AreRising links.now heights.now }
    requires below { number < length links.now }
    ensures leads { Leads links.now number result }
    ensures below { result < length links.now }
{
    let mut at = number;
    while links[at as usize] != at {
        at = links[at as usize];
    }
    at
}

impl Classes {
    /// Each number below the count, in a class of its own.
    pub fn new(alloc: Global, count: u32) -> Result<Classes, AllocError>
        ensures count { IfOk result (λ c. length c ≡ count) }
        ensures own { IfOk result (λ c. (n : ℕ) → n < count → next c n ≡ n) }
    {
        let mut links = Vec::with_capacity(alloc, count as usize)?;
        let mut heights = Vec::with_capacity(alloc, count as usize)?;
        for number in 0..count {
            links.push(number)?;
            heights.push(0)?;
        }
        Ok(Classes { links, heights })
    }

    /// Each number leads to a number.
    pub fn known(&self)
        ensures { (n : ℕ) → n < length self.now → next self.now n < length self.now }
    {
        let _links = &self.links;
    }

    /// The root of the number's class.
    pub fn root(&self, number: u32) -> u32
        requires { number < length self.now }
        ensures leads { Leads self.now number result }
        ensures below { result < length self.now }
    {
        root_of(&self.links, &self.heights, number)
    }

    /// Puts a class into another, to whose root its root leads from now on.
    pub fn put_under(&mut self, child: u32, parent: u32) -> Result<(), AllocError>
        requires child { child < length self.old }
        requires parent { parent < length self.old }
        requires apart { child ≢ parent }
        requires child_root { next self.old child ≡ child }
        requires parent_root { next self.old parent ≡ parent }
        ensures { OnOk result (self.new ≡ slice_set self.old child parent) }
    {
        let height = self.heights[child as usize];
        if self.heights[parent as usize] <= height {
            let Some(above) = height.checked_add(1) else {
                return Err(AllocError);
            };
            self.heights[parent as usize] = above;
        }
        self.links[child as usize] = parent;
        Ok(())
    }

    /// Puts the lower class of the two under the other.
    pub fn join(&mut self, first: u32, other: u32) -> Result<(), AllocError>
        requires first { first < length self.old }
        requires other { other < length self.old }
        requires apart { first ≢ other }
        requires first_root { next self.old first ≡ first }
        requires other_root { next self.old other ≡ other }
        ensures { OnOk result ((self.new ≡ slice_set self.old first other) ⊎ (self.new ≡ slice_set self.old other first)) }
    {
        if self.heights[first as usize] <= self.heights[other as usize] {
            self.put_under(first, other)
        } else {
            self.put_under(other, first)
        }
    }
}
