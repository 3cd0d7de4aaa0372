//! Clauses.
ghost use Rattle.std.specs.Prelude.{◌≡◌, IfOk};

use fol::{Formula, Var};
use std::alloc::{AllocError, Global};
use std::marker::Model;

/// A list of variables.
#[derive(Drop)]
pub struct VarList {
    items: Vec<Var>,
}

impl Model for VarList {
    ghost use Rattle.std.specs.Prelude.{List};
    ghost use Rattle.std.specs.Coded.{coded_list};
    ghost use Rattle.fol.specs.declared.symbols.Var.{Var as Variable};
    ghost use Rattle.free_variables.specs.Sets.{coded_var};

    ghost Value = { List Variable };

    ghost coded = { coded_list coded_var };

    ghost view = { λ a. a.items.items };
}

impl VarList {
    /// The list of these variables, which are moved and not copied.
    pub fn from_vec(items: Vec<Var>) -> VarList
        ensures { result ≡ items.items }
    {
        VarList { items }
    }

    /// The variables, in order.
    pub fn as_slice(&self) -> &[Var]
        ensures { result.now ≡ self.now }
    {
        self.items.as_slice()
    }

    /// The same list, whose variables are shared.
    pub fn copy(&self, alloc: Global) -> Result<VarList, AllocError>
        ensures { IfOk result (λ copy. copy ≡ self.now) }
    {
        let mut items = Vec::with_capacity(alloc, self.items.len())?;
        for var in &self.items {
            items.push(var.copy()?)?;
        }
        Ok(VarList { items })
    }
}

/// A clause: a disjunction of literals, as it was read, and its variables in the order in which each occurs first.
#[derive(Drop)]
pub struct Clause {
    pub matrix: Formula,
    pub vars: VarList,
}
