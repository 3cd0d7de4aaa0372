//! The laws of readings. The functions do nothing: their contracts are the laws.
ghost use Rattle.std.specs.Prelude.{◌≡◌, ◌↔◌, ℕ, List, length, false, Some, Ok, Err};
ghost use Rattle.fol.specs.declared.symbols.Var.{Var as VarMeaning};
ghost use Rattle.fol.specs.Facts.{has_body};
ghost use Rattle.fol.specs.Formed.{IsFormed, IsFormedTerm, IsFormedVar};
ghost use Rattle.fol.specs.Syntax.{Formula as FormulaMeaning, Term as TermMeaning};
ghost use Rattle.tptp_tokens.specs.Lexer.{scanned, whole_variable};
ghost use Rattle.tptp_tokens.specs.declared.tokens.TextFault.{TextFault};
ghost use Rattle.tptp_read.specs.Texts.{IsFormulaText, IsTermText, IsFormulaFault, IsTermFault, formula_reading, term_reading};

/// The reading of a text gives exactly the formula or the term that the text is by the grammar, and exactly its first fault.
pub fn readings()
    ensures formula { (text : List ℕ) (f : FormulaMeaning) → (formula_reading text ≡ Ok f) ↔ IsFormulaText text f }
    ensures formula_fault { (text : List ℕ) (e : TextFault) → (formula_reading text ≡ Err e) ↔ IsFormulaFault text e }
    ensures term { (text : List ℕ) (t : TermMeaning) → (term_reading text ≡ Ok t) ↔ IsTermText text t }
    ensures term_fault { (text : List ℕ) (e : TextFault) → (term_reading text ≡ Err e) ↔ IsTermFault text e }
{}

/// What the reading of a text gives is well formed, however long the text is: a formula, a term, and a variable that is the whole text.
/// No predicate symbol in it has a body.
pub fn formed_readings()
    ensures formula { (text : List ℕ) (f : FormulaMeaning) → formula_reading text ≡ Ok f → IsFormed f }
    ensures term { (text : List ℕ) (t : TermMeaning) → term_reading text ≡ Ok t → IsFormedTerm t }
    ensures plain { (text : List ℕ) (f : FormulaMeaning) → formula_reading text ≡ Ok f → has_body f ≡ false }
    ensures variable { (text : List ℕ) (v : VarMeaning) → whole_variable (scanned text) (length text) ≡ Some v → IsFormedVar v }
{}
