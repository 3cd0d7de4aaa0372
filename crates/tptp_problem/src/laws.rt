//! The laws of readings. The functions do nothing: their contracts are the laws.
ghost use Rattle.std.specs.Prelude.{◌≡◌, ◌↔◌, ℕ, List, Ok, Err};
ghost use Rattle.tptp_problem.specs.Problems.{IsProblemText, IsProblemFault};
ghost use Rattle.tptp_problem.specs.ProblemClauses.{IsReadProblem};
ghost use Rattle.tptp_problem.specs.Reading.{problem_reading};
ghost use Rattle.tptp_problem.specs.declared.errors.ProblemKind.{ProblemKind as Kind};
ghost use Rattle.tptp_problem.specs.declared.problems.Problem.{Problem as ProblemMeaning};

/// The reading of a text gives exactly the problem that the text is, and exactly its first fault.
pub fn readings()
    ensures problem { (text : List ℕ) (p : ProblemMeaning) → (problem_reading text ≡ Ok p) ↔ IsProblemText text p }
    ensures fault { (text : List ℕ) (at : ℕ) (kind : Kind) → (problem_reading text ≡ Err (at, kind)) ↔ IsProblemFault text at kind }
{}

/// Of a problem that is read the formula of each entry is well formed, and that of a `cnf` entry is a disjunction of literals.
pub fn read_problems()
    ensures { (text : List ℕ) (p : ProblemMeaning) → problem_reading text ≡ Ok p → IsReadProblem p }
{}
