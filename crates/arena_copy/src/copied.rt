//! What has been copied from one arena to another.
ghost use Rattle.std.specs.Prelude.{IfSome, OnOk, List};
ghost use Rattle.arena_cells.specs.Items.{Item};
ghost use Rattle.arena_cells.specs.Standing.{Stands, item_at};
ghost use Rattle.arena_copy.specs.Copied.{AreCopied};

use arena::Arena;
use number_hash::ByNumber;
use std::alloc::{AllocError, Global};
use std::collections::HashMap;

/// The numbers of things in one arena, each with the number of the same thing in another one.
#[derive(Drop)]
pub(crate) struct Copied {
    numbers: HashMap<u32, u32, ByNumber>,
}

impl Copied {
    /// Nothing has been copied.
    pub fn new(alloc: Global) -> Copied
        ensures { (a b : List Item) → AreCopied a b result }
    {
        Copied {
            numbers: HashMap::with_hasher(alloc, ByNumber),
        }
    }

    /// The number of the copy of what stands at a number, where there is one.
    pub fn copy(&self, from: &Arena, to: &Arena, number: u32) -> Option<u32>
        requires { AreCopied from.now to.now self.now }
        ensures { IfSome result (λ n. Stands to.now n (item_at from.now number)) }
    {
        let (_from, _to) = (from, to);
        self.numbers.get(&number).copied()
    }

    /// Enters the number of a copy.
    pub fn note(
        &mut self,
        from: &Arena,
        to: &Arena,
        number: u32,
        copy: u32,
    ) -> Result<(), AllocError>
        requires copied { AreCopied from.now to.now self.old }
        requires stands { Stands to.now copy (item_at from.now number) }
        ensures { OnOk result (AreCopied from.now to.now self.new) }
    {
        let (_from, _to) = (from, to);
        self.numbers.insert(number, copy)?;
        Ok(())
    }
}
