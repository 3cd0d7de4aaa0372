//! Canonical texts are read back. Each function does nothing: its contract is the law.
ghost use Rattle.std.specs.Prelude.{◌≡◌, ℕ, ◌^◌, ◌<◌, true, false, length};
ghost use Rattle.fol.specs.declared.symbols.Var.TheVariants.{Num};
ghost use Rattle.fol.specs.Syntax.{Formula, Term};
ghost use Rattle.fol.specs.Facts.{has_body};
ghost use Rattle.fol.specs.Formed.{IsFormed, IsFormedTerm};
ghost use Rattle.finite.specs.Finite as set;
ghost use Rattle.free_variables.specs.Occurrence.{is_free_in, vars_formula};
ghost use Rattle.tptp_read.specs.Texts.{IsFormulaText, IsTermText};
ghost use Rattle.tptp_print.specs.Canonical.{canonical, canonical_term};
ghost use Rattle.tptp_round_trip.specs.Limits.{IsWithinLimits, IsTermWithinLimits, AreNumbersInRange, AreTermNumbersInRange};

/// The canonical text of a formula within the reader's limits means the formula, where none of its predicate symbols has a body: such a
/// symbol is written as its name. If the text means anything, the formula is within the limits, and it is what the text means.
pub fn canonical_formulas_are_read()
    ensures read { (f : Formula) → has_body f ≡ false → IsFormed f → IsWithinLimits f → AreNumbersInRange f → IsFormulaText (canonical f) f }
    ensures within { (f g : Formula) → IsFormed f → AreNumbersInRange f → IsFormulaText (canonical f) g → IsWithinLimits f }
    ensures only { (f g : Formula) → has_body f ≡ false → IsFormed f → AreNumbersInRange f → IsFormulaText (canonical f) g → g ≡ f }
{}

/// The same of terms.
pub fn canonical_terms_are_read()
    ensures read { (t : Term) → IsFormedTerm t → IsTermWithinLimits t → AreTermNumbersInRange t → IsTermText (canonical_term t) t }
    ensures within { (t u : Term) → IsFormedTerm t → AreTermNumbersInRange t → IsTermText (canonical_term t) u → IsTermWithinLimits t }
    ensures only { (t u : Term) → IsFormedTerm t → AreTermNumbersInRange t → IsTermText (canonical_term t) u → u ≡ t }
{}

/// A formula within the limits has numbers below 2^64 alone in its text, if it has fewer than 2^63 free variables, and those have such
/// numbers.
pub fn few_variables_have_numbers_in_range()
    ensures { (f : Formula) → IsWithinLimits f → length (set.listing (vars_formula f set.empty)) < 2 ^ 63
        → ((n : ℕ) → is_free_in (Num n) f ≡ true → n < 2 ^ 64) → AreNumbersInRange f }
{}

/// Canonical texts tell formulas and terms apart, however deep they are: no limit of a reader is asked for.
pub fn canonical_texts_tell_apart()
    ensures formula { (f g : Formula) → has_body f ≡ false → has_body g ≡ false → IsFormed f → IsFormed g → AreNumbersInRange f → AreNumbersInRange g → canonical f ≡ canonical g → f ≡ g }
    ensures term { (t u : Term) → IsFormedTerm t → IsFormedTerm u → AreTermNumbersInRange t → AreTermNumbersInRange u → canonical_term t ≡ canonical_term u → t ≡ u }
{}
