//! The values of classes of numbers.
ghost use Rattle.std.specs.Prelude.{◌≡◌, ◌≢◌, ◌<◌, ◌≤◌, ◌+◌, ◌↔◌, ℕ, length, Option, IfOk, OnOk, Err, IsTrue};
ghost use Rattle.std.specs.FinMap as fin;
ghost use Rattle.fol.specs.declared.symbols.Var.{Var as Variable};
ghost use Rattle.fol.specs.Syntax.{Term as Meaning};
ghost use Rattle.unify_laws.specs.Equations.{Unifies};
ghost use Rattle.arena_cells.specs.Standing.{Extends, item_at};
ghost use Rattle.fol_unify.specs.declared.faults.UnifyFault.TheVariants.{NoUnifier};
ghost use Rattle.fol_unify.specs.Classes.{next};
ghost use Rattle.fol_unify.specs.Solving.{kind_of, other as another, AreSolved};
ghost use Rattle.fol_unify.specs.Values.{IsDone, IsOpen, IsValue, AreValued, AreAbove, AreNotBelow, MarksGrow, AreDone, IsSolution};

use crate::faults::UnifyFault;
use crate::shapes::{Shape, shape_of};
use arena_cells::{Cells, Key};
use fol::Term;
use std::alloc::{AllocError, Global};
use substitution::Subst;

/// How far the value of a class is.
#[derive(Clone, Copy)]
pub(crate) enum Mark {
    /// It was not asked for.
    New,
    /// Those of its parts are being made.
    Open,
    /// It is at the number.
    Done(u32),
}

// The number of the value of the class of a term or of a list of terms. A class whose value is a part of itself has no unifier.
#[cycle(value)]
fn value_of(
    alloc: Global,
    cells: &mut Cells,
    equations: &[(Term, Term)],
    roots: &[u32],
    marks: &mut Vec<Mark>,
    number: u32,
) -> Result<u32, UnifyFault>
    requires number { number < length roots.now }
    requires known { kind_of (item_at cells.old number) ≢ another }
    requires solved { AreSolved cells.old equations.now roots.now }
    requires valued { AreValued cells.old equations.now roots.now marks.old.items }
    requires above { AreAbove cells.old equations.now marks.old.items number }
    ensures value { IfOk result (λ v. IsDone marks.new.items (next roots.now number) v) }
    ensures grown { Extends cells.old cells.new }
    ensures valued { OnOk result (AreValued cells.new equations.now roots.now marks.new.items) }
    ensures marks { OnOk result (MarksGrow marks.old.items marks.new.items) }
    ensures none { result ≡ Err NoUnifier → (h : Variable → Option Meaning) → Unifies h equations.now → ⊥ }
{
    let root = roots[number as usize];
    match marks[root as usize] {
        Mark::Done(value) => Ok(value),
        Mark::Open => Err(UnifyFault::NoUnifier),
        Mark::New => {
            marks[root as usize] = Mark::Open;
            let value = root_value(alloc, cells, equations, roots, marks, root)?;
            marks[root as usize] = Mark::Done(value);
            Ok(value)
        }
    }
}

// The number of the value of a class that is open, by its root.
#[cycle(value)]
fn root_value(
    alloc: Global,
    cells: &mut Cells,
    equations: &[(Term, Term)],
    roots: &[u32],
    marks: &mut Vec<Mark>,
    root: u32,
) -> Result<u32, UnifyFault>
    requires root { root < length roots.now }
    requires known { kind_of (item_at cells.old root) ≢ another }
    requires solved { AreSolved cells.old equations.now roots.now }
    requires valued { AreValued cells.old equations.now roots.now marks.old.items }
    requires above { AreNotBelow cells.old equations.now marks.old.items root }
    ensures value { IfOk result (λ v. IsValue cells.new equations.now roots.now marks.new.items root v) }
    ensures grown { Extends cells.old cells.new }
    ensures valued { OnOk result (AreValued cells.new equations.now roots.now marks.new.items) }
    ensures marks { OnOk result (MarksGrow marks.old.items marks.new.items) }
    ensures none { result ≡ Err NoUnifier → (h : Variable → Option Meaning) → Unifies h equations.now → ⊥ }
{
    match shape_of(cells, root) {
        Shape::Variable | Shape::Index | Shape::Empty => Ok(root),
        Shape::Application(symbol, terms) => {
            let terms = value_of(alloc, cells, equations, roots, marks, terms)?;
            let value = cells.put(alloc, Key::App(symbol, terms))?;
            Ok(value)
        }
        Shape::Front(term, terms) => {
            let term = value_of(alloc, cells, equations, roots, marks, term)?;
            let terms = value_of(alloc, cells, equations, roots, marks, terms)?;
            let value = cells.put(alloc, Key::Cons(term, terms))?;
            Ok(value)
        }
    }
}

// Whether a term or a list of terms stands at the number.
fn is_known(cells: &Cells, number: u32) -> bool
    requires { number < length cells.now }
    ensures { IsTrue result ↔ kind_of (item_at cells.now number) ≢ another }
{
    matches!(
        cells.key(number),
        Key::Free(_) | Key::Bound(_) | Key::App(..) | Key::Nil | Key::Cons(..)
    )
}

// Marks of classes that were not looked at.
fn new_marks(alloc: Global, count: usize) -> Result<Vec<Mark>, AllocError>
    ensures count { IfOk result (λ v. length v.items ≡ count) }
    ensures done { IfOk result (λ v. (r n : ℕ) → ¬ IsDone v.items r n) }
    ensures opened { IfOk result (λ v. (r : ℕ) → ¬ IsOpen v.items r) }
{
    let mut marks = Vec::with_capacity(alloc, count)?;
    for _ in 0..count {
        marks.push(Mark::New)?;
    }
    Ok(marks)
}

// Makes the value of the class of the number, where a term or a list of terms stands at it.
fn note_value(
    alloc: Global,
    cells: &mut Cells,
    equations: &[(Term, Term)],
    roots: &[u32],
    marks: &mut Vec<Mark>,
    number: u32,
) -> Result<(), UnifyFault>
    requires number { number < length roots.now }
    requires inside { length roots.now ≤ length cells.old }
    requires solved { AreSolved cells.old equations.now roots.now }
    requires valued { AreValued cells.old equations.now roots.now marks.old.items }
    requires closed { (r : ℕ) → ¬ IsOpen marks.old.items r }
    ensures value { OnOk result (kind_of (item_at cells.old number) ≢ another → (v : ℕ) × IsDone marks.new.items (next roots.now number) v) }
    ensures grown { Extends cells.old cells.new }
    ensures valued { OnOk result (AreValued cells.new equations.now roots.now marks.new.items) }
    ensures marks { OnOk result (MarksGrow marks.old.items marks.new.items) }
    ensures none { result ≡ Err NoUnifier → (h : Variable → Option Meaning) → Unifies h equations.now → ⊥ }
{
    if !is_known(cells, number) {
        return Ok(());
    }
    value_of(alloc, cells, equations, roots, marks, number)?;
    Ok(())
}

/// The values of the classes of all numbers.
pub(crate) fn all_values(
    alloc: Global,
    cells: &mut Cells,
    equations: &[(Term, Term)],
    roots: &[u32],
) -> Result<Vec<Mark>, UnifyFault>
    requires solved { AreSolved cells.old equations.now roots.now }
    requires count { length roots.now ≡ length cells.old }
    ensures grown { Extends cells.old cells.new }
    ensures valued { IfOk result (λ v. AreValued cells.new equations.now roots.now v.items) }
    ensures done { IfOk result (λ v. AreDone cells.new roots.now v.items (length roots.now)) }
    ensures none { result ≡ Err NoUnifier → (h : Variable → Option Meaning) → Unifies h equations.now → ⊥ }
{
    let Ok(count) = u32::try_from(roots.len()) else {
        return Err(UnifyFault::Memory);
    };
    let mut marks = new_marks(alloc, roots.len())?;
    for number in 0..count {
        note_value(alloc, cells, equations, roots, &mut marks, number)?;
    }
    Ok(marks)
}

// Binds the variable at the number, unless it is a root.
fn bind(
    cells: &Cells,
    equations: &[(Term, Term)],
    roots: &[u32],
    marks: &[Mark],
    map: &mut Subst,
    number: u32,
) -> Result<(), AllocError>
    requires number { number < length roots.now }
    requires solved { AreSolved cells.now equations.now roots.now }
    requires valued { AreValued cells.now equations.now roots.now marks.now }
    requires done { AreDone cells.now roots.now marks.now (length roots.now) }
    requires solution { IsSolution cells.now roots.now marks.now number map.old }
    ensures { OnOk result (IsSolution cells.now roots.now marks.now (number + 1) map.new) }
{
    cells.known();
    let _equations = equations;
    let root = roots[number as usize];
    let Key::Free(variable) = cells.key(number) else {
        return Ok(());
    };
    if root == number {
        return Ok(());
    }
    if let Mark::Done(value) = marks[root as usize] {
        map.set(variable.copy()?, cells.term(value).copy()?)?;
    }
    Ok(())
}

/// The map from the variables that are no roots to the values of their classes.
pub(crate) fn solution(
    alloc: Global,
    cells: &Cells,
    equations: &[(Term, Term)],
    roots: &[u32],
    marks: &[Mark],
) -> Result<Subst, UnifyFault>
    requires solved { AreSolved cells.now equations.now roots.now }
    requires valued { AreValued cells.now equations.now roots.now marks.now }
    requires done { AreDone cells.now roots.now marks.now (length roots.now) }
    ensures solution { IfOk result (λ m. IsSolution cells.now roots.now marks.now (length roots.now) m) }
    ensures memory { ¬ (result ≡ Err NoUnifier) }
{
    let Ok(count) = u32::try_from(roots.len()) else {
        return Err(UnifyFault::Memory);
    };
    let mut map = Subst::new(alloc);
    for number in 0..count {
        bind(cells, equations, roots, marks, &mut map, number)?;
    }
    Ok(map)
}
