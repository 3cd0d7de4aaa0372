//! The variables of a quantifier.
ghost use Rattle.std.specs.Prelude.{◌≡◌, [], ◌∷◌, length, reverse, IfOk, OnOk};

use fol::Var;
use std::alloc::{AllocError, Global};
use std::marker::Model;

/// The variables of a quantifier, the last one first. They are kept in the order of the text.
#[derive(Drop)]
pub struct Variables {
    items: Vec<Var>,
}

impl Model for Variables {
    ghost use Rattle.std.specs.Prelude.{List, reverse};
    ghost use Rattle.fol.specs.declared.symbols.Var.{Var};

    ghost Value = { List Var };

    ghost view = { λ v. reverse v.items.items };
}

impl Variables {
    /// No variables.
    pub fn empty(alloc: Global) -> Variables
        ensures { result ≡ [] }
    {
        Variables {
            items: Vec::new(alloc),
        }
    }

    /// How many they are.
    pub fn len(&self) -> usize
        ensures { result ≡ length self.now }
    {
        self.items.len()
    }

    /// Puts one more in front.
    pub fn push(&mut self, var: Var) -> Result<(), AllocError>
        ensures { OnOk result (self.new ≡ var ∷ self.old) }
    {
        self.items.push(var)?;
        Ok(())
    }

    /// The variables as they stand in the text, the first one first.
    pub fn in_order(self, _alloc: Global) -> Result<Vec<Var>, AllocError>
        ensures { IfOk result (λ vars. vars.items ≡ reverse self) }
    {
        Ok(self.items)
    }
}
