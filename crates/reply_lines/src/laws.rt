//! The laws of reply lines. Each function does nothing: its contract is the law.
ghost use Rattle.std.specs.Prelude.{◌≡◌, ℕ, List, [], ◌∷◌, ◌++◌};
ghost use Rattle.std.specs.List.{All};
ghost use Rattle.finite.specs.Finite as set;
ghost use Rattle.lk_rules.specs.Formulas.{FormulaSet};
ghost use Rattle.lk_rules.specs.declared.sequent.Sequent.{Sequent};
ghost use Rattle.refutations.specs.declared.step.ResStep.{ResStep};
ghost use Rattle.reply_lines.specs.declared.replies.Outcome.{Outcome as OutcomeMeaning};
ghost use Rattle.reply_lines.specs.declared.replies.Outcome.TheVariants.{Satisfiable, Unsatisfiable, Saturated, Refuted};
ghost use Rattle.reply_lines.specs.declared.replies.Reply.{Reply as ReplyMeaning};
ghost use Rattle.reply_lines.specs.Replies.{is_ok_outcome, line_of};
ghost use Rattle.reply_lines.specs.OneLine.{IsOneLine, is_want, reports_want};
ghost use Rattle.reply_lines.specs.Shown.{IsShownFormula, IsShownStep, IsShownClause, AreAlike};

/// A reply line is one line: its last byte is the newline, and no other byte of it is. Its first bytes tell whether it reports want of
/// memory.
pub fn lines()
    ensures one { (reply : ReplyMeaning) → IsOneLine (line_of reply) }
    ensures want { (reply : ReplyMeaning) (text : List ℕ) → line_of reply ≡ text ++ 10 ∷ [] → reports_want text ≡ is_want reply.outcome }
{}

/// The line of a reply tells whether it is an error. The line of one that shows a certificate tells it, where canonical texts tell what it
/// names. Of ground clauses: there is one model for each line, and one list of steps, and a line never shows both. Of resolution by rounds:
/// there is one list of clauses that no round adds a clause to for each line, and one list of steps, and a line never shows both.
pub fn certificates()
    ensures want { (x y : OutcomeMeaning) → AreAlike x y → is_want x ≡ is_want y }
    ensures ok { (x y : OutcomeMeaning) → AreAlike x y → is_ok_outcome x ≡ is_ok_outcome y }
    ensures model { (a b : FormulaSet) → All IsShownFormula (set.listing a) → All IsShownFormula (set.listing b) → AreAlike (Satisfiable a) (Satisfiable b) → a ≡ b }
    ensures refutation { (xs ys : List ResStep) → All IsShownStep xs → All IsShownStep ys → AreAlike (Unsatisfiable xs) (Unsatisfiable ys) → xs ≡ ys }
    ensures apart { (a : FormulaSet) (xs : List ResStep) → All IsShownStep xs → ¬ AreAlike (Satisfiable a) (Unsatisfiable xs) }
    ensures saturated { (ks js : List Sequent) → All IsShownClause ks → All IsShownClause js → AreAlike (Saturated ks) (Saturated js) → ks ≡ js }
    ensures refuted { (xs ys : List ResStep) → All IsShownStep xs → All IsShownStep ys → AreAlike (Refuted xs) (Refuted ys) → xs ≡ ys }
    ensures unsaturated { (ks : List Sequent) (xs : List ResStep) → All IsShownClause ks → All IsShownStep xs → ¬ AreAlike (Saturated ks) (Refuted xs) }
{}
