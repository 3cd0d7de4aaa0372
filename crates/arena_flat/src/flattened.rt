//! What has been unfolded from one arena to another.
ghost use Rattle.std.specs.Prelude.{◌≡◌, nat_eq, Some, IfSome, OnOk, List};
ghost use Rattle.std.specs.HashMap as hash;
ghost use Rattle.arena_cells.specs.Items.{Item};
ghost use Rattle.arena_cells.specs.Standing.{Stands, item_at, HasFormula, HasSide, HasTree, formula_at, side_at, tree_at};
ghost use Rattle.def_laws.specs.Flat.{flat as flat_of, flat_set};
ghost use Rattle.def_laws.specs.Unfolded.{unfolded};
ghost use Rattle.arena_flat.specs.Flattened.{AreFlat};
ghost use Rattle.arena_flat.specs.Short.{HasShortRules};

use arena::Arena;
use number_hash::ByNumber;
use std::alloc::{AllocError, Global};
use std::collections::HashMap;

/// The numbers of terms, lists of terms, formulas, sides and trees in one arena, each with the number of the same thing with all unfolded in
/// another one. Terms stay as they are.
#[derive(Drop)]
pub(crate) struct Flattened {
    terms: HashMap<u32, u32, ByNumber>,
    formulas: HashMap<u32, u32, ByNumber>,
    sides: HashMap<u32, u32, ByNumber>,
    trees: HashMap<u32, u32, ByNumber>,
}

impl Flattened {
    /// Nothing has been unfolded.
    pub fn new(alloc: Global) -> Flattened
        ensures { (a b : List Item) → AreFlat a b result }
    {
        Flattened {
            terms: HashMap::with_hasher(alloc, ByNumber),
            formulas: HashMap::with_hasher(alloc, ByNumber),
            sides: HashMap::with_hasher(alloc, ByNumber),
            trees: HashMap::with_hasher(alloc, ByNumber),
        }
    }

    /// The number of the same term or list of terms, where it is known.
    pub fn term(&self, from: &Arena, to: &Arena, term: u32) -> Option<u32>
        requires { AreFlat from.now to.now self.now }
        ensures known { result ≡ hash.get nat_eq self.now.terms term }
        ensures right { IfSome result (λ n. Stands to.now n (item_at from.now term)) }
    {
        let (_from, _to) = (from, to);
        self.terms.get(&term).copied()
    }

    /// The number of the unfolded formula, where it is known.
    pub fn formula(&self, from: &Arena, to: &Arena, formula: u32) -> Option<u32>
        requires { AreFlat from.now to.now self.now }
        ensures known { result ≡ hash.get nat_eq self.now.formulas formula }
        ensures right { IfSome result (λ n. HasFormula to.now n (flat_of (formula_at from.now formula))) }
    {
        let (_from, _to) = (from, to);
        self.formulas.get(&formula).copied()
    }

    /// The number of the unfolded side, where it is known.
    pub fn side(&self, from: &Arena, to: &Arena, side: u32) -> Option<u32>
        requires { AreFlat from.now to.now self.now }
        ensures known { result ≡ hash.get nat_eq self.now.sides side }
        ensures right { IfSome result (λ n. HasSide to.now n (flat_set (side_at from.now side))) }
    {
        let (_from, _to) = (from, to);
        self.sides.get(&side).copied()
    }

    /// The number of the unfolded tree, where it is known.
    pub fn tree(&self, from: &Arena, to: &Arena, proof: u32) -> Option<u32>
        requires { AreFlat from.now to.now self.now }
        ensures known { result ≡ hash.get nat_eq self.now.trees proof }
        ensures tree { IfSome result (λ n. HasTree to.now n (unfolded (tree_at from.now proof))) }
        ensures short { IfSome result (λ _. HasShortRules (tree_at from.now proof)) }
    {
        let (_from, _to) = (from, to);
        self.trees.get(&proof).copied()
    }

    /// Enters the number of a term or of a list of terms.
    pub fn note_term(
        &mut self,
        from: &Arena,
        to: &Arena,
        term: u32,
        copy: u32,
    ) -> Result<(), AllocError>
        requires flattened { AreFlat from.now to.now self.old }
        requires stands { Stands to.now copy (item_at from.now term) }
        ensures entered { OnOk result (hash.get nat_eq self.new.terms term ≡ Some copy) }
        ensures right { OnOk result (AreFlat from.now to.now self.new) }
    {
        let (_from, _to) = (from, to);
        self.terms.insert(term, copy)?;
        Ok(())
    }

    /// Enters the number of an unfolded formula.
    pub fn note_formula(
        &mut self,
        from: &Arena,
        to: &Arena,
        formula: u32,
        flat: u32,
    ) -> Result<(), AllocError>
        requires flattened { AreFlat from.now to.now self.old }
        requires stands { HasFormula to.now flat (flat_of (formula_at from.now formula)) }
        ensures entered { OnOk result (hash.get nat_eq self.new.formulas formula ≡ Some flat) }
        ensures right { OnOk result (AreFlat from.now to.now self.new) }
    {
        let (_from, _to) = (from, to);
        self.formulas.insert(formula, flat)?;
        Ok(())
    }

    /// Enters the number of an unfolded side.
    pub fn note_side(
        &mut self,
        from: &Arena,
        to: &Arena,
        side: u32,
        flat: u32,
    ) -> Result<(), AllocError>
        requires flattened { AreFlat from.now to.now self.old }
        requires stands { HasSide to.now flat (flat_set (side_at from.now side)) }
        ensures entered { OnOk result (hash.get nat_eq self.new.sides side ≡ Some flat) }
        ensures right { OnOk result (AreFlat from.now to.now self.new) }
    {
        let (_from, _to) = (from, to);
        self.sides.insert(side, flat)?;
        Ok(())
    }

    /// Enters the number of an unfolded tree.
    pub fn note_tree(
        &mut self,
        from: &Arena,
        to: &Arena,
        proof: u32,
        flat: u32,
    ) -> Result<(), AllocError>
        requires flattened { AreFlat from.now to.now self.old }
        requires stands { HasTree to.now flat (unfolded (tree_at from.now proof)) }
        requires short { HasShortRules (tree_at from.now proof) }
        ensures entered { OnOk result (hash.get nat_eq self.new.trees proof ≡ Some flat) }
        ensures right { OnOk result (AreFlat from.now to.now self.new) }
    {
        let (_from, _to) = (from, to);
        self.trees.insert(proof, flat)?;
        Ok(())
    }
}
