//! The laws of Herbrand sequents. The function does nothing: its contract is the law.
ghost use Rattle.std.specs.Prelude.{◌≡◌, true, List};
ghost use Rattle.fol.specs.Syntax.{Formula};
ghost use Rattle.lk_rules.specs.declared.sequent.Sequent.{Sequent as Conclusion};
ghost use Rattle.lk_rules.specs.declared.sequent.Side.{Side as Place};
ghost use Rattle.lk_rules.specs.Sequents.{side_of};
ghost use Rattle.search_laws.specs.Truth.{IsPropositional, IsTautology};
ghost use Rattle.herbrand_laws.specs.Herbrand.{Item, herbrand_sequent, IsMatrixInstance};
ghost use Rattle.cut_intro.specs.Instancing.{AreInstancesFor};
ghost use Rattle.finite.specs.Finite as set;

/// The Herbrand sequent of instances, as `herbrand` answers them, is a tautology without quantifiers. Each of its formulas is the matrix instance
/// of a formula of the proof's end sequent by a tuple of as many terms as that has quantifiers.
pub fn herbrand_sequents()
    ensures tautology { (s : Conclusion) (items : List Item) → AreInstancesFor s items → IsTautology (herbrand_sequent items) }
    ensures propositional { (s : Conclusion) (items : List Item) → AreInstancesFor s items → IsPropositional (herbrand_sequent items) }
    ensures instances { (s : Conclusion) (items : List Item) → AreInstancesFor s items → (side : Place) (f : Formula) → set.has (side_of (herbrand_sequent items) side) f ≡ true → IsMatrixInstance s side f }
{}
