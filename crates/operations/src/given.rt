//! What the names of jobs in an operation are given.
ghost use Rattle.std.specs.Prelude.{◌≡◌, ◌<◌, List, Some, IfOk, IfErr, IfSome, is_some, length, map, option_map};
ghost use Rattle.std.specs.List.{All};
ghost use Rattle.fol.specs.Syntax.{Pred};
ghost use Rattle.fol.specs.Formed.{IsFormedPred};
ghost use Rattle.proof_graph.specs.declared.graph.Graph.{Graph};
ghost use Rattle.proof_graph.specs.Graphs.{IsOf};
ghost use Rattle.exp_tree.specs.Reads.{expansion_of};
ghost use Rattle.operation_laws.specs.Given.{first_name as first_of_pair, second_name as second_of_pair, pair_name as pair_of, one_of as one_named, proof_given as proof_found, problem_given as problem_found, expansion_given as expansion_found, shown_given as shown_found, definition_given as definition_found, definitions_given as definitions_found, found, first_of, second_of};
ghost use Rattle.held_values.specs.Means.{sense, Fits};
ghost use Rattle.operations.specs.Means.{FitsShown, Finds, FindsNone, FindsProof, shown_as, GivesNothing};
ghost use Rattle.operations.specs.Noted.{proof_in, first_held};
ghost use Rattle.held_values.specs.declared.held.Held.TheVariants.{Problem as ProblemHeld};

use crate::answers::Absent;
use exp_tree::CheckedExp;
use fol::Predicate;
use held_values::{Held, first_name, pair_name, second_name};
use job_words::Utf8Text;
use operation_laws::Refusal;
use proof_graph::ProofRef;
use std::alloc::{AllocError, Global};
use tptp_problem::Problem;

fn is_of_pair(text: &Utf8Text) -> bool
    ensures { result ≡ is_some (pair_of text.now) }
{
    pair_name(text.as_str()).is_some()
}

// Whether a name stands for the first proof of a pair.
fn is_first(text: &Utf8Text) -> bool
    ensures { result ≡ is_some (first_of_pair text.now) }
{
    first_name(text.as_str()).is_some()
}

// Whether a name stands for the second proof of a pair.
fn is_second(text: &Utf8Text) -> bool
    ensures { result ≡ is_some (second_of_pair text.now) }
{
    second_name(text.as_str()).is_some()
}

/// A text of its own.
pub fn text_copy(alloc: Global, text: &Utf8Text) -> Result<Utf8Text, AllocError>
    ensures { IfOk result (λ copy. copy ≡ text.now) }
{
    Ok(Utf8Text::from_string(String::from_str(alloc, text.as_str())?))
}

// Why a field is given nothing of a value that it doesn't take.
fn nothing_given(alloc: Global, text: &Utf8Text, value: &Held) -> Absent
    ensures { GivesNothing result text.now value.now }
{
    match value {
        Held::Unheld => Absent::Wanting,
        Held::Unknown => match text_copy(alloc, text) {
            Ok(text) => Absent::Refused(Refusal::UnknownName(text)),
            Err(_) => Absent::Unnamed,
        },
        _ => match text_copy(alloc, text) {
            Ok(text) => Absent::Refused(Refusal::Kind(text)),
            Err(_) => Absent::Unnamed,
        },
    }
}

// The proof of a pair that a name stands for.
fn one_of<'h>(text: &Utf8Text, first: &'h ProofRef, second: &'h ProofRef) -> Option<&'h ProofRef>
    ensures fits { IfSome result (λ r. (g : Graph) → IsOf g first.now → IsOf g second.now → IsOf g r.now) }
    ensures value { option_map (λ r. r.now.tree) result ≡ one_named text.now first.now.tree second.now.tree }
    ensures reference { option_map (λ r. r.now) result ≡ one_named text.now first.now second.now }
{
    if is_first(text) {
        return Some(first);
    }
    if is_second(text) {
        return Some(second);
    }
    None
}

/// The proof that a field with this text is given, or why there is none.
pub fn proof_given<'h>(
    alloc: Global,
    text: &Utf8Text,
    value: &'h Held,
) -> Result<&'h ProofRef, Absent>
    ensures fits { IfOk result (λ r. (g : Graph) → Fits g value.now → IsOf g r.now) }
    ensures found { FindsProof (λ r. r.now.tree) result (proof_found text.now (sense value.now)) }
    ensures reference { IfOk result (λ r. proof_in text.now value.now ≡ Some r.now) }
{
    match value {
        Held::Proof(proof) if !is_of_pair(text) => Ok(proof),
        Held::Refutation(_) if !is_of_pair(text) => Err(Absent::Unmade),
        Held::Pair(first, second) => match one_of(text, first, second) {
            Some(proof) => Ok(proof),
            None => Err(nothing_given(alloc, text, value)),
        },
        _ => Err(nothing_given(alloc, text, value)),
    }
}

/// The problem that a field with this text is given, or why there is none.
pub fn problem_given<'h>(
    alloc: Global,
    text: &Utf8Text,
    value: &'h Held,
) -> Result<&'h Problem, Absent>
    ensures value { IfOk result (λ p. value.now ≡ ProblemHeld p.now) }
    ensures found { Finds (λ p. p.now) result (problem_found text.now (sense value.now)) }
{
    match value {
        Held::Problem(problem) if !is_of_pair(text) => Ok(problem),
        _ => Err(nothing_given(alloc, text, value)),
    }
}

/// The expansion trees that a field with this text is given, or why there are none.
pub fn expansion_given<'h>(
    alloc: Global,
    text: &Utf8Text,
    value: &'h Held,
) -> Result<&'h CheckedExp, Absent>
    ensures { Finds (λ e. expansion_of e.now) result (expansion_found text.now (sense value.now)) }
{
    match value {
        Held::Expansion(trees) if !is_of_pair(text) => Ok(trees),
        _ => Err(nothing_given(alloc, text, value)),
    }
}

/// What can be shown.
pub enum ToShow<'h> {
    /// A proof, which may be one of a pair.
    Proof(&'h ProofRef),
    /// Expansion trees that are an expansion proof of the sequent of their formulas.
    Expansion(&'h CheckedExp),
}

/// The proof or the trees that a field with this text is given, or why there is neither.
pub fn shown_given<'h>(
    alloc: Global,
    text: &Utf8Text,
    value: &'h Held,
) -> Result<ToShow<'h>, Absent>
    ensures fits { IfOk result (λ s. (g : Graph) → Fits g value.now → FitsShown g s) }
    ensures found { FindsProof shown_as result (shown_found text.now (sense value.now)) }
{
    match value {
        Held::Proof(proof) if !is_of_pair(text) => Ok(ToShow::Proof(proof)),
        Held::Refutation(_) if !is_of_pair(text) => Err(Absent::Unmade),
        Held::Expansion(trees) if !is_of_pair(text) => Ok(ToShow::Expansion(trees)),
        Held::Pair(first, second) => match one_of(text, first, second) {
            Some(proof) => Ok(ToShow::Proof(proof)),
            None => Err(nothing_given(alloc, text, value)),
        },
        _ => Err(nothing_given(alloc, text, value)),
    }
}

/// The symbol that a name for a definition is given, or why there is none.
pub fn definition_given<'h>(
    alloc: Global,
    text: &Utf8Text,
    value: &'h Held,
) -> Result<&'h Predicate, Absent>
    ensures fits { IfOk result (λ p. (g : Graph) → Fits g value.now → IsFormedPred p.now) }
    ensures found { Finds (λ p. p.now) result (definition_found text.now (sense value.now)) }
{
    match value {
        Held::Definition(symbol) if !is_of_pair(text) => Ok(symbol),
        _ => Err(nothing_given(alloc, text, value)),
    }
}

/// Whether each name of a list is given a definition: the first fault of a name, or want of memory, where no name has a fault and the job of
/// one wanted memory.
pub fn are_defined(alloc: Global, texts: &[Utf8Text], given: &[Held]) -> Result<(), Absent>
    requires { length given.now ≡ length texts.now }
    ensures found { IfOk result (λ _. (ds : List Pred) × (definitions_found texts.now (map sense given.now) ≡ found ds)) }
    ensures absent { IfErr result (λ absent. FindsNone absent (definitions_found texts.now (map sense given.now))) }
{
    let mut wants = false;
    for (index, text) in texts.iter().enumerate() {
        match definition_given(alloc, text, &given[index]) {
            Ok(_) => {}
            Err(Absent::Wanting) => wants = true,
            Err(Absent::Refused(refusal)) => return Err(Absent::Refused(refusal)),
            Err(Absent::Unnamed) => return Err(Absent::Unnamed),
            Err(Absent::Unmade) => unreachable!(),
        }
    }
    if wants {
        return Err(Absent::Wanting);
    }
    Ok(())
}

/// The symbols that the names of a list are given, where each is given a definition.
pub fn definitions_given(
    alloc: Global,
    texts: &[Utf8Text],
    given: &[Held],
) -> Result<Vec<Predicate>, AllocError>
    requires { length given.now ≡ length texts.now }
    ensures found { IfOk result (λ ds. definitions_found texts.now (map sense given.now) ≡ found ds.items) }
    ensures formed { IfOk result (λ ds. (g : Graph) → All (Fits g) given.now → All IsFormedPred ds.items) }
{
    let mut symbols = Vec::new(alloc);
    for (index, text) in texts.iter().enumerate() {
        let Ok(symbol) = definition_given(alloc, text, &given[index]) else {
            return Err(AllocError);
        };
        symbols.push(symbol.copy()?)?;
    }
    Ok(symbols)
}

/// The value of the first name.
pub fn first(given: &[Held]) -> &Held
    requires { 0 < length given.now }
    ensures value { sense result.now ≡ first_of (map sense given.now) }
    ensures first { result.now ≡ first_held given.now }
    ensures fits { (g : Graph) → All (Fits g) given.now → Fits g result.now }
{
    &given[0]
}

/// The value of the second name.
pub fn second(given: &[Held]) -> &Held
    requires { 1 < length given.now }
    ensures value { sense result.now ≡ second_of (map sense given.now) }
{
    &given[1]
}
