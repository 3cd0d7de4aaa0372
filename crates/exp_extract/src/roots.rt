//! The addresses of a sequent's formulas.
ghost use Rattle.std.specs.Prelude.{◌≡◌, false, map, IfOk, OnOk};
ghost use Rattle.std.specs.List.{All};
ghost use Rattle.fol.specs.Syntax.{Formula as Meaning};
ghost use Rattle.fol.specs.Order.{formula_cmp};
ghost use Rattle.fol.specs.Formed.{IsFormed};
ghost use Rattle.finite.specs.Finite as set;
ghost use Rattle.expansion_laws.specs.Expansions.{turn};
ghost use Rattle.extraction_laws.specs.Addresses.{root, is_listed};
ghost use Rattle.exp_extract.specs.Marked.{address_in};
ghost use Rattle.exp_extract.specs.Quantifiers.{Grows, AreWithin};

use crate::marks::Marks;
use fol::Formula;
use lk_rules::Side;
use std::alloc::{AllocError, Global};

/// Enters the addresses of the formulas on a side of a sequent, of which none is there yet. Their numbers are in the same order.
pub(crate) fn enter_roots(
    marks: &mut Marks,
    alloc: Global,
    side: Side,
    formulas: &[Formula],
) -> Result<Vec<u32>, AllocError>
    requires rises { set.IsRising formula_cmp formulas.now }
    requires formed { All IsFormed formulas.now }
    requires absent { (f : Meaning) → is_listed (root side f) marks.old.addresses ≡ false }
    ensures addresses { IfOk result (λ list. map (address_in marks.new.addresses) list.items ≡ map (root side) formulas.now) }
    ensures within { IfOk result (λ list. AreWithin marks.new.addresses list.items) }
    ensures others { OnOk result ((f : Meaning) → is_listed (root (turn side) f) marks.new.addresses ≡ is_listed (root (turn side) f) marks.old.addresses) }
    ensures grown { OnOk result (Grows marks.old.addresses marks.new.addresses) }
    ensures outside { OnOk result (marks.new.outside ≡ marks.old.outside) }
    ensures state { OnOk result (marks.new.state ≡ marks.old.state) }
{
    let mut list = Vec::with_capacity(alloc, formulas.len())?;
    for formula in formulas {
        let number = marks.root(alloc, side, formula.copy()?)?;
        list.push(number)?;
    }
    Ok(list)
}
