//! What is replied to a job and what the job holds, by what its operation came to.
ghost use Rattle.std.specs.Prelude.{◌≡◌, true, IfOk};
ghost use Rattle.fol.specs.Syntax.{pred, defined};
ghost use Rattle.fol.specs.Formed.{IsFormedPred};
ghost use Rattle.proof_graph.specs.declared.graph.Graph.{Graph as GraphMeaning};
ghost use Rattle.proof_graph.specs.Graphs.{IsOf};
ghost use Rattle.exp_tree.specs.Reads.{expansion_of};
ghost use Rattle.tptp_problem.specs.ProblemClauses.{IsReadProblem};
ghost use Rattle.operation_laws.specs.Answers.{Answer, problem as problem_made, interpolant as interpolant_made, definition as definition_made, summary_of, exp_summary_of, shown_refusal as refusal_shown, shown_failure as failure_shown};
ghost use Rattle.held_values.specs.Means.{sense, Fits, IsAnswered};
ghost use Rattle.operations.specs.Means.{FitsMade, made_of, Comes, is_refusal, IsShort};
ghost use Rattle.operations.specs.Noted.{is_done, is_reduced};
ghost use Rattle.operations.specs.Runs.{IsReply};

use crate::answers::{Made, Ran};
use exp_tree::{CheckedExp, count_instances, shallow_sequent, strong_vars};
use fol::{Formula, Predicate, Sym};
use held_values::Held;
use job_words::{FormedFormula, SymbolName};
use operation_laws::{Failure, Refusal};
use proof_graph::{Graph, ProofRef};
use proof_steps::{cuts, quants};
use reply_lines::{ExpSummary, Outcome, Summary};
use std::alloc::{AllocError, Global};
use tptp_problem::Problem;

fn shown_refusal(refusal: Refusal) -> Outcome
    ensures { result ≡ refusal_shown refusal }
{
    match refusal {
        Refusal::UnknownName(text) => Outcome::UnknownName(text),
        Refusal::Kind(text) => Outcome::Kind(text),
        Refusal::Empty => Outcome::Empty,
        Refusal::Step { step, cause } => Outcome::Step { step, cause },
    }
}

fn shown_failure(failure: Failure) -> Outcome
    ensures { result ≡ failure_shown failure }
{
    match failure {
        Failure::Budget => Outcome::Budget,
        Failure::Unproved(refusal) => shown_refusal(refusal),
        Failure::Refutation { step, cause } => Outcome::Refutation { step, cause },
        Failure::Quantified { formula, side } => Outcome::Quantified { formula, side },
        Failure::Falsified(atoms) => Outcome::Falsified(atoms),
        Failure::Node { node, cause } => Outcome::Node { node, cause },
        Failure::Root { root, cause } => Outcome::Root { root, cause },
        Failure::EigenTwice(var) => Outcome::EigenTwice(var),
        Failure::EigenFree(var) => Outcome::EigenFree(var),
        Failure::Cycle(vars) => Outcome::Cycle(vars),
        Failure::Cut(step) => Outcome::Cut(step),
        Failure::Defined { formula, side } => Outcome::Defined { formula, side },
        Failure::Partition { formula, side } => Outcome::Partition { formula, side },
        Failure::NotPrenex { formula, side } => Outcome::NotPrenex { formula, side },
        Failure::TooMany(count) => Outcome::TooMany(count),
        Failure::DefTwice(text) => Outcome::DefTwice(text),
        Failure::DefFree(var) => Outcome::DefFree(var),
        Failure::DefLarge => Outcome::DefLarge,
        Failure::NotGround(clause) => Outcome::NotGround(clause),
        Failure::Rounds => Outcome::Rounds,
    }
}

// A proof in short.
fn summary(graph: &Graph, alloc: Global, proof: &ProofRef) -> Result<Summary, AllocError>
    requires { IsOf graph.now proof.now }
    ensures { IfOk result (λ s. s ≡ summary_of proof.now.tree) }
{
    let cuts = cuts(alloc, graph, proof)?;
    let quants = quants(alloc, graph, proof)?;
    let end = graph.get(proof).end.copy()?;
    Ok(Summary { cuts, end, quants })
}

// A problem is held as it is, and shown by the number of its entries and its sequent.
fn hold_problem(problem: Problem) -> Result<(Outcome, Held), AllocError>
    requires { IsReadProblem problem }
    ensures { (g : GraphMeaning) → IfOk result (λ reply. IsReply g (problem_made problem) reply.0 reply.1) }
{
    let entries = problem.entries.as_slice().len() as u64;
    let sequent = problem.sequent.copy()?;
    Ok((
        Outcome::Entries { entries, sequent },
        Held::Problem(problem),
    ))
}

// Expansion trees in short.
#[tactic(auto, using(crate::proofs::Expanded::few_capped))]
fn exp_summary(alloc: Global, checked: &CheckedExp) -> Result<ExpSummary, AllocError>
    ensures { IfOk result (λ s. s ≡ exp_summary_of (expansion_of checked.now)) }
{
    let trees = checked.tree();
    let end = shallow_sequent(alloc, trees)?;
    let instances = count_instances(trees);
    let strong = strong_vars(alloc, trees)?.len() as u64;
    Ok(ExpSummary {
        end,
        instances,
        strong,
    })
}

// Two proofs are held as a pair, and shown in short with the interpolant.
fn hold_interpolant(
    graph: &Graph,
    alloc: Global,
    formula: FormedFormula,
    first: ProofRef,
    second: ProofRef,
) -> Result<(Outcome, Held), AllocError>
    requires first { IsOf graph.now first }
    requires second { IsOf graph.now second }
    ensures { IfOk result (λ reply. IsReply graph.now (interpolant_made formula first.tree second.tree) reply.0 reply.1) }
{
    let first_summary = summary(graph, alloc, &first)?;
    let second_summary = summary(graph, alloc, &second)?;
    Ok((
        Outcome::Interpolant {
            first: first_summary,
            formula,
            second: second_summary,
        },
        Held::Pair(first, second),
    ))
}

// A symbol is held with the formula that it stands for, and shown by its name, by how many arguments it has, and by the formula.
fn hold_definition(symbol: Sym, body: Formula) -> Result<(Outcome, Held), AllocError>
    requires { IsFormedPred (pred symbol (defined body)) }
    ensures { (g : GraphMeaning) → IfOk result (λ reply. IsReply g (definition_made symbol body) reply.0 reply.1) }
{
    let outcome = Outcome::Definition {
        symbol: SymbolName::new(symbol.name.copy()?),
        arity: u64::from(symbol.arity),
        body: FormedFormula::new(body.copy()?),
    };
    let body = Some(body);
    Ok((outcome, Held::Definition(Predicate { symbol, body })))
}

// What is replied to a job whose operation is done, with what the job holds.
fn hold(graph: &Graph, alloc: Global, made: Made) -> Result<(Outcome, Held), AllocError>
    requires { FitsMade graph.now made }
    ensures { IfOk result (λ reply. IsReply graph.now (made_of made) reply.0 reply.1) }
{
    match made {
        Made::Proof(proof) => {
            let summary = summary(graph, alloc, &proof)?;
            Ok((Outcome::Proof(summary), Held::Proof(proof)))
        }
        Made::Reduced(proof, reductions) => {
            let summary = summary(graph, alloc, &proof)?;
            Ok((Outcome::Reduced(summary, reductions), Held::Proof(proof)))
        }
        Made::Introduced { proof, shorter } => {
            let summary = summary(graph, alloc, &proof)?;
            Ok((Outcome::Introduced { summary, shorter }, Held::Proof(proof)))
        }
        Made::Interpolant {
            formula,
            first,
            second,
        } => hold_interpolant(graph, alloc, formula, first, second),
        Made::Problem(problem) => hold_problem(problem),
        Made::Expansion(checked) => {
            let summary = exp_summary(alloc, &checked)?;
            Ok((Outcome::Expansion(summary), Held::Expansion(checked)))
        }
        Made::Definition(symbol, body) => hold_definition(symbol, body),
        Made::Refutation(refutation) => {
            let steps = refutation.steps.copy()?;
            Ok((Outcome::Unsatisfiable(steps), Held::Refutation(refutation)))
        }
        Made::Derivation(refutation) => {
            let steps = refutation.steps.copy()?;
            Ok((Outcome::Refuted(steps), Held::Refutation(refutation)))
        }
        Made::Proves(proves) => Ok((Outcome::Proves(proves), Held::Nothing)),
        Made::Steps(steps) => Ok((Outcome::Steps(steps), Held::Nothing)),
        Made::Sizes {
            cuts,
            nodes,
            quants,
            size,
        } => {
            let measured = Outcome::Measure {
                cuts,
                nodes,
                quants,
                size,
            };
            Ok((measured, Held::Nothing))
        }
        Made::Nodes(flat) => Ok((Outcome::Nodes(flat), Held::Nothing)),
        Made::Herbrand { count, sequent } => {
            Ok((Outcome::Herbrand { count, sequent }, Held::Nothing))
        }
        Made::Model(atoms) => Ok((Outcome::Satisfiable(atoms), Held::Nothing)),
        Made::Saturated(clauses) => Ok((Outcome::Saturated(clauses), Held::Nothing)),
    }
}

/// What is replied to a job, with what the job holds.
pub fn conclude(graph: &Graph, alloc: Global, ran: Ran) -> (Outcome, Held)
    requires { (wanted : Answer) × Comes graph.now ran wanted }
    ensures answered { (wanted : Answer) → Comes graph.now ran wanted → IsAnswered result.0 (sense result.1) wanted }
    ensures fits { Fits graph.now result.1 }
    ensures refused { result.1 ≡ Held.Refused → is_refusal ran ≡ true }
    ensures reduced { is_reduced result.0 ≡ true → is_done ran ≡ true }
    ensures budget { IsShort ran → result.0 ≡ Outcome.Budget }
{
    match ran {
        Ran::Refused(refusal) => (shown_refusal(refusal), Held::Refused),
        Ran::Unnamed => (Outcome::Memory, Held::Refused),
        Ran::Failed(failure) => (shown_failure(failure), Held::Refused),
        Ran::Lacking => (Outcome::Memory, Held::Unheld),
        Ran::Done(made) => match hold(graph, alloc, made) {
            Ok(reply) => reply,
            Err(_) => (Outcome::Memory, Held::Unheld),
        },
    }
}
