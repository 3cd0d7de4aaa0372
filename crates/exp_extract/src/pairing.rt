//! The marks of an axiom.
ghost use Rattle.std.specs.Prelude.{◌≡◌, IfOk, OnOk};
ghost use Rattle.fol.specs.Syntax.{free};
ghost use Rattle.extraction_laws.specs.Addresses.{part, via, formula_at};
ghost use Rattle.extraction_laws.specs.States.{instantiated, named, variable_at};
ghost use Rattle.extraction_laws.specs.Extraction.{paired};
ghost use Rattle.exp_extract.specs.Marked.{address_at, IsPlace};
ghost use Rattle.exp_extract.specs.Quantifiers.{IsWeakAt, IsStrongAt, Grows};
ghost use Rattle.exp_extract.specs.Pairing.{ArePaired, IsPart, IsTurnedPart};

use crate::marks::Marks;
use extraction_laws::laws;
use fol::FormulaNode;
use std::alloc::{AllocError, Global};

// The strong quantifier gets its variable, and the weak one the instance by that. The numbers are those of the instances, the weak one's
// first.
fn instances(
    marks: &mut Marks,
    alloc: Global,
    weak: u32,
    strong: u32,
) -> Result<(u32, u32), AllocError>
    requires weak_place { IsPlace marks.old weak }
    requires strong_place { IsPlace marks.old strong }
    requires weak { IsWeakAt (address_at marks.old weak) }
    requires strong { IsStrongAt (address_at marks.old strong) }
    ensures instance { IfOk result (λ p. IsPlace marks.new p.0 × (address_at marks.new p.0 ≡ via (address_at marks.old weak) (free (variable_at marks.old.outside marks.old.state (address_at marks.old strong))))) }
    ensures witness { IfOk result (λ p. IsPlace marks.new p.1 × (address_at marks.new p.1 ≡ via (address_at marks.old strong) (free (variable_at marks.old.outside marks.old.state (address_at marks.old strong))))) }
    ensures grown { OnOk result (Grows marks.old.addresses marks.new.addresses) }
    ensures outside { OnOk result (marks.new.outside ≡ marks.old.outside) }
    ensures state { OnOk result (marks.new.state ≡ instantiated (address_at marks.old weak) (free (variable_at marks.old.outside marks.old.state (address_at marks.old strong))) (named (address_at marks.old strong) marks.old.state)) }
{
    let term = marks.variable_term(strong).copy()?;
    marks.name(alloc, strong)?;
    let instance = marks.make_via(alloc, weak, &term)?;
    let witness = marks.make_via(alloc, strong, &term)?;
    Ok((instance, witness))
}

// The parts of two paired addresses, on the same sides.
#[cycle(pair)]
fn pair_parts(
    marks: &mut Marks,
    alloc: Global,
    left: u32,
    right: u32,
    number: u64,
) -> Result<(), AllocError>
    requires paired { ArePaired marks.old left right }
    requires part { IsPart (formula_at (address_at marks.old left)) number }
    ensures grown { OnOk result (Grows marks.old.addresses marks.new.addresses) }
    ensures outside { OnOk result (marks.new.outside ≡ marks.old.outside) }
    ensures state { OnOk result (marks.new.state ≡ paired marks.old.outside (part (address_at marks.old left) number) (part (address_at marks.old right) number) marks.old.state) }
{
    let first = marks.make_part(alloc, left, number)?;
    let second = marks.make_part(alloc, right, number)?;
    pair(marks, alloc, first, second)
}

// The parts of two paired addresses, on the other sides.
#[cycle(pair)]
fn pair_turned(
    marks: &mut Marks,
    alloc: Global,
    left: u32,
    right: u32,
    number: u64,
) -> Result<(), AllocError>
    requires paired { ArePaired marks.old left right }
    requires part { IsTurnedPart (formula_at (address_at marks.old left)) number }
    ensures grown { OnOk result (Grows marks.old.addresses marks.new.addresses) }
    ensures outside { OnOk result (marks.new.outside ≡ marks.old.outside) }
    ensures state { OnOk result (marks.new.state ≡ paired marks.old.outside (part (address_at marks.old right) number) (part (address_at marks.old left) number) marks.old.state) }
{
    let first = marks.make_part(alloc, left, number)?;
    let second = marks.make_part(alloc, right, number)?;
    pair(marks, alloc, second, first)
}

/// The marks of an axiom's formula, which stands at two addresses: it is expanded down to atoms.
#[cycle(pair)]
pub(crate) fn pair(
    marks: &mut Marks,
    alloc: Global,
    left: u32,
    right: u32,
) -> Result<(), AllocError>
    requires { ArePaired marks.old left right }
    ensures grown { OnOk result (Grows marks.old.addresses marks.new.addresses) }
    ensures outside { OnOk result (marks.new.outside ≡ marks.old.outside) }
    ensures state { OnOk result (marks.new.state ≡ paired marks.old.outside (address_at marks.old left) (address_at marks.old right) marks.old.state) }
{
    laws::axioms();
    marks.open(left)?;
    marks.open(right)?;
    let formula = marks.places.formula(left).copy()?;
    match formula.node() {
        FormulaNode::Atom(..) | FormulaNode::Top | FormulaNode::Bot => Ok(()),
        FormulaNode::Not(_) => pair_turned(marks, alloc, left, right, 0),
        FormulaNode::And(..) | FormulaNode::Or(..) => {
            pair_parts(marks, alloc, left, right, 0)?;
            pair_parts(marks, alloc, left, right, 1)
        }
        FormulaNode::Imp(..) => {
            pair_turned(marks, alloc, left, right, 0)?;
            pair_parts(marks, alloc, left, right, 1)
        }
        FormulaNode::All(_) => {
            let (left, right) = instances(marks, alloc, left, right)?;
            pair(marks, alloc, left, right)
        }
        FormulaNode::Ex(_) => {
            let (right, left) = instances(marks, alloc, right, left)?;
            pair(marks, alloc, left, right)
        }
    }
}
