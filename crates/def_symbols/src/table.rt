//! Definitions with a table by their symbols.
ghost use Rattle.std.specs.Prelude.{◌≡◌, [], IfOk, IsTrue, ◌↔◌, find, option_copied};
ghost use Rattle.fol.specs.Syntax.{plain};
ghost use Rattle.def_laws.specs.Marking.{is_like};
ghost use Rattle.def_symbols.specs.Table.{Finds};

use fol::{Predicate, Sym};
use std::alloc::{AllocError, Global};
use std::collections::BTreeMap;
use std::marker::Model;

/// Definitions in their order, with a table by which the one of a symbol is found without a walk over the others. Of two definitions of one
/// name and one number of arguments the first one counts.
#[derive(Drop)]
pub struct Definitions {
    list: Vec<Predicate>,
    table: BTreeMap<Sym, Predicate>,
}

impl Model for Definitions {
    ghost use Rattle.std.specs.Prelude.{List};
    ghost use Rattle.std.specs.Coded.{coded_list};
    ghost use Rattle.fol.specs.Syntax.{Pred};
    ghost use Rattle.fol.specs.Codes.{coded_pred};
    ghost use Rattle.def_symbols.specs.Table.{Finds};

    ghost Value = { List Pred };

    ghost coded = { coded_list coded_pred };

    ghost view = { λ d. d.list.items };

    ghost invariant = { λ d. Finds d.table d.list.items };
}

impl Definitions {
    /// The definitions of a list.
    pub fn new(alloc: Global, list: Vec<Predicate>) -> Result<Definitions, AllocError>
        ensures { IfOk result (λ definitions. definitions ≡ list.items) }
    {
        let table = table_of(alloc, &list)?;
        Ok(Definitions { list, table })
    }

    /// The definitions in their order.
    pub fn as_slice(&self) -> &[Predicate]
        ensures { result.now ≡ self.now }
    {
        self.list.as_slice()
    }

    /// Whether there is none.
    pub fn is_empty(&self) -> bool
        ensures { IsTrue result ↔ (self.now ≡ []) }
    {
        self.list.is_empty()
    }

    /// The first definition of the symbol's name and number of arguments.
    pub fn get(&self, symbol: &Sym) -> Option<&Predicate>
        ensures { option_copied result ≡ find (is_like (plain symbol.now)) self.now }
    {
        self.table.get(symbol)
    }
}

// The table of a list. It is filled from the end on, so that the first of two remains.
fn table_of(alloc: Global, list: &[Predicate]) -> Result<BTreeMap<Sym, Predicate>, AllocError>
    ensures { IfOk result (λ table. Finds table list.now) }
{
    let mut table = BTreeMap::new(alloc);
    for at in (0..list.len()).rev() {
        let definition = &list[at];
        table.insert(definition.symbol.copy()?, definition.copy()?)?;
    }
    Ok(table)
}
