//! Sequents by number from sequents of formulas, and back.
ghost use Rattle.std.specs.Prelude.{◌≡◌, ◌*◌, ◌≤◌, true, [], ◌∷◌, ◌++◌, if◌then◌else◌, filter, length, IfOk, OnOk};
ghost use Rattle.std.specs.List.{list_all};
ghost use Rattle.fol.specs.Order.{formula_cmp};
ghost use Rattle.finite.specs.Finite as set;
ghost use Rattle.search_laws.specs.Search.{left_atoms as atoms_on_left};
ghost use Rattle.prop_search.specs.Bits.{has_number};
ghost use Rattle.prop_search.specs.Formulas.{number_of, is_listed, side_of, sequent_of, IsFit};
ghost use Rattle.prop_search.specs.Premises.{with_each};

use crate::bits;
use crate::connective::Signed;
use crate::numbered::Numbered;
use crate::numbering::Numbering;
use fol::Formula;
use lk_rules::{Formulas, Sequent, Side};
use std::alloc::{AllocError, Global};

// Adds the formulas of a list to one side of a sequent.
fn add_each(numbering: &Numbering, sequent: &mut Numbered, side: Side, formulas: &[Formula])
    requires listed { list_all (is_listed numbering.now) formulas.now ≡ true }
    requires fit { IsFit numbering.now sequent.old }
    ensures fit { IsFit numbering.now sequent.new }
    ensures sequent { sequent_of numbering.now sequent.new ≡ with_each (sequent_of numbering.now sequent.old) side formulas.now }
{
    for formula in formulas {
        let number = numbering.number(formula);
        numbering.add(sequent, Signed { side, number });
    }
}

/// A sequent whose formulas have numbers, by these.
pub(crate) fn numbered(
    alloc: Global,
    numbering: &Numbering,
    sequent: &Sequent,
) -> Result<Numbered, AllocError>
    requires left { list_all (is_listed numbering.now) (set.listing sequent.now.left) ≡ true }
    requires right { list_all (is_listed numbering.now) (set.listing sequent.now.right) ≡ true }
    ensures fit { IfOk result (IsFit numbering.now) }
    ensures sequent { IfOk result (λ made. sequent_of numbering.now made ≡ sequent.now) }
{
    numbering.known();
    let mut made = Numbered::new(alloc, 2 * numbering.width())?;
    add_each(numbering, &mut made, Side::Left, sequent.left());
    add_each(numbering, &mut made, Side::Right, sequent.right());
    Ok(made)
}

// Appends a formula, if it is wanted.
fn push_where(
    formulas: &mut Vec<Formula>,
    formula: &Formula,
    is_wanted: bool,
) -> Result<(), AllocError>
    ensures { OnOk result (formulas.new.items ≡ (if is_wanted then formulas.old.items ++ formula.now ∷ [] else formulas.old.items)) }
{
    if is_wanted {
        formulas.push(formula.copy()?)?;
    }
    Ok(())
}

// The formulas whose numbers are in a set.
fn picked(alloc: Global, formulas: &[Formula], words: &[u64]) -> Result<Vec<Formula>, AllocError>
    requires rises { set.IsRising formula_cmp formulas.now }
    requires room { length formulas.now ≤ 64 * length words.now }
    ensures { IfOk result (λ picked. picked.items ≡ filter (λ f. has_number words.now (number_of formulas.now f)) formulas.now) }
{
    let mut picked = Vec::new(alloc);
    for (i, formula) in formulas.iter().enumerate() {
        push_where(&mut picked, formula, bits::has(words, i))?;
    }
    Ok(picked)
}

/// The set of the formulas whose numbers are in a set.
pub(crate) fn side(
    alloc: Global,
    numbering: &Numbering,
    words: &[u64],
) -> Result<Formulas, AllocError>
    requires { length numbering.now ≤ 64 * length words.now }
    ensures { IfOk result (λ side. side ≡ side_of numbering.now (has_number words.now)) }
{
    numbering.known();
    let picked = picked(alloc, numbering.formulas(), words)?;
    let side = Formulas::from_vec(alloc, picked)?;
    Ok(side)
}

/// The atoms on the left of a sequent whose other formulas there are truth.
pub(crate) fn left_atoms(
    alloc: Global,
    numbering: &Numbering,
    sequent: Numbered,
) -> Result<Formulas, AllocError>
    requires { IsFit numbering.now sequent }
    ensures { IfOk result (λ atoms. atoms ≡ atoms_on_left (sequent_of numbering.now sequent)) }
{
    numbering.known();
    let mut rest = sequent;
    numbering.take(&mut rest, Side::Left, numbering.top());
    let width = numbering.width();
    let (left, _) = rest.words().split_at(width);
    let atoms = side(alloc, numbering, left)?;
    Ok(atoms)
}
