//! Reading a job.
ghost use Rattle.std.specs.Prelude.{◌≡◌, IfOk};
ghost use Rattle.line_values.specs.View.{view};
ghost use Rattle.job_lang.specs.Fields.{Gives};
ghost use Rattle.job_lang.specs.Jobs.{error_with, value_of as line_value, name_of as name_data, lk_of as lk_data, define_of as define_data, subst_of as subst_data, cutelim_of as cutelim_data, prove_of as prove_data, resolution_of as resolution_data, tautology_of as tautology_data, expansion_of as expansion_data, expand_of as expand_data, fromexp_of as fromexp_data, interpolate_of as interpolate_data, herbrand_of as herbrand_data, cutintro_of as cutintro_data, op_among, budgeted, op_named as named_op, op_of as op_data, reads_job, GivesJob};

use crate::budgets::{Budget, budget_at};
use crate::definitions::{name_at, using_at, variables_at};
use crate::expansions::flat_at;
use crate::formulas::formula_at;
use crate::maps::{FormedMap, map_at};
use crate::places::Place;
use crate::problems::problem_at;
use crate::reading::{ReadError, field_fault, text_at, written_at};
use crate::resolutions::{ResSteps, res_steps_at};
use crate::round_numbers::{RoundNumber, rounds_at};
use crate::sequents::{part_at, sequent_at};
use crate::steps::steps_at;
use crate::widths::{Width, width_at};
use exp_tree::FlatExp;
use job_words::{
    FormedFormula, FormedVars, JobCause, Name, Steps, SymbolName, Utf8Text, Utf8Texts, is_name,
};
use json::Scratch;
use line_values::{Value, ValueError, read_value};
use lk_rules::Sequent;
use std::alloc::Global;
use text_tables::FormulaTexts;
use tptp_problem::Problem;

/// The memory in which a line was read is kept for the next one, unless the line had more bytes than this.
const LONGEST_KEPT: usize = 1 << 20;

/// What a job asks for.
pub enum Op {
    /// The steps of a proof, to be checked. The symbols in them stand for formulas as the definitions say that these jobs hold.
    Lk {
        steps: Steps,
        using: Utf8Texts,
    },
    /// A problem, read from its text.
    Problem {
        problem: Problem,
    },
    /// Whether a proof proves a problem. Both are named by their jobs.
    Proves {
        proof: Utf8Text,
        problem: Utf8Text,
    },
    /// The canonical steps of a proof.
    Show {
        of: Utf8Text,
    },
    /// The sizes of a proof.
    Measure {
        proof: Utf8Text,
    },
    /// A proof with its free variables replaced by terms.
    Subst {
        proof: Utf8Text,
        map: FormedMap,
    },
    /// A proof made free of cuts, within a budget of reductions.
    Cutelim {
        proof: Utf8Text,
        budget: Budget,
    },
    /// A proof made free of cuts, however many reductions that takes.
    Eliminate {
        proof: Utf8Text,
    },
    /// A predicate symbol that stands for a formula, with variables for its arguments. The symbols in the formula stand for formulas
    /// themselves as the definitions say that these jobs hold.
    Define {
        symbol: SymbolName,
        vars: FormedVars,
        body: FormedFormula,
        using: Utf8Texts,
    },
    /// A proof in which each symbol that stands for a formula has given way to this formula.
    Unfold {
        proof: Utf8Text,
    },
    /// A model of the clauses of a problem, which is named by its job and has no variables in them, or a refutation.
    Sat {
        problem: Utf8Text,
    },
    /// A refutation of the clauses of a problem, which is named by its job, or the clauses that rounds of resolution end with.
    Prove {
        problem: Utf8Text,
        rounds: RoundNumber,
    },
    /// The steps of a refutation of the clauses of a problem, which is named by its job.
    Resolution {
        problem: Utf8Text,
        steps: ResSteps,
    },
    /// A search for a proof of a sequent without quantifiers, within a budget of sequents that are visited.
    Tautology {
        sequent: Sequent,
        budget: Budget,
    },
    /// The nodes of expansion trees and which of them are roots, to be checked as an expansion proof, within a budget of nodes of the
    /// unfolded trees and of sequents that are visited.
    Expansion {
        flat: FlatExp,
        budget: Budget,
    },
    /// An expansion proof of the end sequent of a proof without cuts, which is named by its job. The budget is of inferences of the proof as
    /// a tree.
    Expand {
        proof: Utf8Text,
        budget: Budget,
    },
    /// A proof without cuts of the sequent of an expansion proof, which is named by its job. The budget is of inferences of the proof that
    /// is built, as a tree.
    Fromexp {
        expansion: Utf8Text,
        budget: Budget,
    },
    /// An interpolant of a proof without cuts, which is named by its job. Two sequents, the parts, have together just the formulas of its
    /// end sequent. The budget is of inferences of the proof as a tree.
    Interpolate {
        proof: Utf8Text,
        first: Sequent,
        second: Sequent,
        budget: Budget,
    },
    /// The Herbrand sequent of a proof without cuts, which is named by its job. The budget is of inferences of the proof as a tree.
    Herbrand {
        proof: Utf8Text,
        budget: Budget,
    },
    /// A proof without cuts, which is named by its job, with one cut where that makes it shorter. The width is of rows of the delta table.
    /// The budget is of inferences of the proof as a tree, and of sequents that each search visits.
    Cutintro {
        proof: Utf8Text,
        width: Width,
        budget: Budget,
    },
}

impl Drop for Op {
    fn drop(self) {
        match self {
            Op::Lk { steps, using } => {
                drop(steps);
                drop(using);
            }
            Op::Define {
                symbol,
                vars,
                body,
                using,
            } => {
                drop(symbol);
                drop(vars);
                drop(body);
                drop(using);
            }
            Op::Problem { problem } => drop(problem),
            Op::Proves { proof, problem } => {
                drop(proof);
                drop(problem);
            }
            Op::Show { of: name }
            | Op::Measure { proof: name }
            | Op::Eliminate { proof: name }
            | Op::Unfold { proof: name }
            | Op::Sat { problem: name }
            | Op::Prove {
                problem: name,
                rounds: _,
            }
            | Op::Cutelim {
                proof: name,
                budget: _,
            }
            | Op::Expand {
                proof: name,
                budget: _,
            }
            | Op::Fromexp {
                expansion: name,
                budget: _,
            }
            | Op::Herbrand {
                proof: name,
                budget: _,
            }
            | Op::Cutintro {
                proof: name,
                width: _,
                budget: _,
            } => drop(name),
            Op::Subst { proof, map } => {
                drop(proof);
                drop(map);
            }
            Op::Resolution { problem, steps } => {
                drop(problem);
                drop(steps);
            }
            Op::Tautology { sequent, budget: _ } => drop(sequent),
            Op::Expansion { flat, budget: _ } => drop(flat),
            Op::Interpolate {
                proof,
                first,
                second,
                budget: _,
            } => {
                drop(proof);
                drop(first);
                drop(second);
            }
        }
    }
}

/// A job: what it asks for, under a name.
#[derive(Drop)]
pub struct Job {
    pub name: Name,
    pub op: Op,
}

/// Why a line isn't read.
#[derive(Drop)]
pub enum JobError {
    Memory,
    /// The first fault, and the job's name where its field is well formed.
    Fault { name: Option<Name>, cause: JobCause },
}

#[tactic(auto, using(crate::proofs::Given::cause_given))]
fn name_of(alloc: Global, value: &Value<'_>) -> Result<Name, ReadError>
    ensures { Gives (λ n. n) result (name_data (view value.now)) }
{
    let text = text_at(alloc, value, Place::Top, "job")?;
    if !is_name(text.as_bytes()) {
        return Err(field_fault(alloc, Place::Top, "job", None));
    }
    Ok(Name::from_string(String::from_str(alloc, text)?))
}

fn lk_of(alloc: Global, texts: &mut FormulaTexts, value: &Value<'_>) -> Result<Op, ReadError>
    ensures { Gives (λ op. op) result (lk_data (view value.now)) }
{
    let steps = steps_at(alloc, texts, value)?;
    let using = using_at(alloc, value)?;
    Ok(Op::Lk { steps, using })
}

fn define_of(alloc: Global, texts: &mut FormulaTexts, value: &Value<'_>) -> Result<Op, ReadError>
    ensures { Gives (λ op. op) result (define_data (view value.now)) }
{
    let symbol = name_at(alloc, value)?;
    let vars = variables_at(alloc, value)?;
    let body = FormedFormula::new(formula_at(alloc, texts, value, Place::Top, "body")?);
    let using = using_at(alloc, value)?;
    Ok(Op::Define {
        symbol,
        vars,
        body,
        using,
    })
}

fn subst_of(alloc: Global, value: &Value<'_>) -> Result<Op, ReadError>
    ensures { Gives (λ op. op) result (subst_data (view value.now)) }
{
    let proof = written_at(alloc, value, Place::Top, "proof")?;
    let map = map_at(alloc, value, Place::Top)?;
    Ok(Op::Subst { proof, map })
}

fn cutelim_of(alloc: Global, value: &Value<'_>) -> Result<Op, ReadError>
    ensures { Gives (λ op. op) result (cutelim_data (view value.now)) }
{
    let proof = written_at(alloc, value, Place::Top, "proof")?;
    let budget = budget_at(alloc, value)?;
    Ok(Op::Cutelim { proof, budget })
}

fn prove_of(alloc: Global, value: &Value<'_>) -> Result<Op, ReadError>
    ensures { Gives (λ op. op) result (prove_data (view value.now)) }
{
    let problem = written_at(alloc, value, Place::Top, "problem")?;
    let rounds = rounds_at(alloc, value)?;
    Ok(Op::Prove { problem, rounds })
}

fn resolution_of(
    alloc: Global,
    texts: &mut FormulaTexts,
    value: &Value<'_>,
) -> Result<Op, ReadError>
    ensures { Gives (λ op. op) result (resolution_data (view value.now)) }
{
    let problem = written_at(alloc, value, Place::Top, "problem")?;
    let steps = res_steps_at(alloc, texts, value)?;
    Ok(Op::Resolution { problem, steps })
}

fn tautology_of(alloc: Global, texts: &mut FormulaTexts, value: &Value<'_>) -> Result<Op, ReadError>
    ensures { Gives (λ op. op) result (tautology_data (view value.now)) }
{
    let sequent = sequent_at(alloc, texts, value, Place::Top)?;
    let budget = budget_at(alloc, value)?;
    Ok(Op::Tautology { sequent, budget })
}

fn expansion_of(alloc: Global, texts: &mut FormulaTexts, value: &Value<'_>) -> Result<Op, ReadError>
    ensures { Gives (λ op. op) result (expansion_data (view value.now)) }
{
    let flat = flat_at(alloc, texts, value)?;
    let budget = budget_at(alloc, value)?;
    Ok(Op::Expansion { flat, budget })
}

fn expand_of(alloc: Global, value: &Value<'_>) -> Result<Op, ReadError>
    ensures { Gives (λ op. op) result (expand_data (view value.now)) }
{
    let proof = written_at(alloc, value, Place::Top, "proof")?;
    let budget = budget_at(alloc, value)?;
    Ok(Op::Expand { proof, budget })
}

fn fromexp_of(alloc: Global, value: &Value<'_>) -> Result<Op, ReadError>
    ensures { Gives (λ op. op) result (fromexp_data (view value.now)) }
{
    let expansion = written_at(alloc, value, Place::Top, "expansion")?;
    let budget = budget_at(alloc, value)?;
    Ok(Op::Fromexp { expansion, budget })
}

fn interpolate_of(
    alloc: Global,
    texts: &mut FormulaTexts,
    value: &Value<'_>,
) -> Result<Op, ReadError>
    ensures { Gives (λ op. op) result (interpolate_data (view value.now)) }
{
    let proof = written_at(alloc, value, Place::Top, "proof")?;
    let first = part_at(alloc, texts, value, Place::First, "first")?;
    let second = part_at(alloc, texts, value, Place::Second, "second")?;
    let budget = budget_at(alloc, value)?;
    Ok(Op::Interpolate {
        proof,
        first,
        second,
        budget,
    })
}

fn herbrand_of(alloc: Global, value: &Value<'_>) -> Result<Op, ReadError>
    ensures { Gives (λ op. op) result (herbrand_data (view value.now)) }
{
    let proof = written_at(alloc, value, Place::Top, "proof")?;
    let budget = budget_at(alloc, value)?;
    Ok(Op::Herbrand { proof, budget })
}

fn cutintro_of(alloc: Global, value: &Value<'_>) -> Result<Op, ReadError>
    ensures { Gives (λ op. op) result (cutintro_data (view value.now)) }
{
    let proof = written_at(alloc, value, Place::Top, "proof")?;
    let width = width_at(alloc, value)?;
    let budget = budget_at(alloc, value)?;
    Ok(Op::Cutintro {
        proof,
        width,
        budget,
    })
}

// The operations that have a budget.
fn budgeted_op_named(
    alloc: Global,
    texts: &mut FormulaTexts,
    name: &str,
    value: &Value<'_>,
) -> Result<Op, ReadError>
    ensures { Gives (λ op. op) result (op_among budgeted name.now (view value.now)) }
{
    if name == "cutelim" {
        return cutelim_of(alloc, value);
    }
    if name == "tautology" {
        return tautology_of(alloc, texts, value);
    }
    if name == "expansion" {
        return expansion_of(alloc, texts, value);
    }
    if name == "expand" {
        return expand_of(alloc, value);
    }
    if name == "fromexp" {
        return fromexp_of(alloc, value);
    }
    if name == "interpolate" {
        return interpolate_of(alloc, texts, value);
    }
    if name == "herbrand" {
        return herbrand_of(alloc, value);
    }
    if name == "cutintro" {
        return cutintro_of(alloc, value);
    }
    Err(ReadError::Fault(JobCause::Op))
}

fn op_named(
    alloc: Global,
    texts: &mut FormulaTexts,
    name: &str,
    value: &Value<'_>,
) -> Result<Op, ReadError>
    ensures { Gives (λ op. op) result (named_op name.now (view value.now)) }
{
    if name == "lk" {
        return lk_of(alloc, texts, value);
    }
    if name == "problem" {
        let problem = problem_at(alloc, value)?;
        return Ok(Op::Problem { problem });
    }
    if name == "proves" {
        let proof = written_at(alloc, value, Place::Top, "proof")?;
        let problem = written_at(alloc, value, Place::Top, "problem")?;
        return Ok(Op::Proves { proof, problem });
    }
    if name == "show" {
        let of = written_at(alloc, value, Place::Top, "of")?;
        return Ok(Op::Show { of });
    }
    if name == "measure" {
        let proof = written_at(alloc, value, Place::Top, "proof")?;
        return Ok(Op::Measure { proof });
    }
    if name == "subst" {
        return subst_of(alloc, value);
    }
    if name == "resolution" {
        return resolution_of(alloc, texts, value);
    }
    if name == "eliminate" {
        let proof = written_at(alloc, value, Place::Top, "proof")?;
        return Ok(Op::Eliminate { proof });
    }
    if name == "define" {
        return define_of(alloc, texts, value);
    }
    if name == "unfold" {
        let proof = written_at(alloc, value, Place::Top, "proof")?;
        return Ok(Op::Unfold { proof });
    }
    if name == "sat" {
        let problem = written_at(alloc, value, Place::Top, "problem")?;
        return Ok(Op::Sat { problem });
    }
    if name == "prove" {
        return prove_of(alloc, value);
    }
    budgeted_op_named(alloc, texts, name, value)
}

fn op_of(alloc: Global, texts: &mut FormulaTexts, value: &Value<'_>) -> Result<Op, ReadError>
    ensures { Gives (λ op. op) result (op_data (view value.now)) }
{
    let name = text_at(alloc, value, Place::Top, "op")?;
    op_named(alloc, texts, name, value)
}

fn value_of<'a>(
    alloc: Global,
    line: &'a [u8],
    scratch: &'a mut Scratch,
) -> Result<Value<'a>, ReadError>
    ensures { Gives view result (line_value line.now) }
{
    match read_value(alloc, line, scratch) {
        Ok(value) => Ok(value),
        Err(ValueError::Memory) => Err(ReadError::Memory),
        Err(ValueError::Invalid) => Err(ReadError::Fault(JobCause::Json)),
    }
}

fn error_of(name: Option<Name>, error: ReadError) -> JobError
    ensures { result ≡ error_with name error }
{
    match error {
        ReadError::Memory => JobError::Memory,
        ReadError::Fault(cause) => JobError::Fault { name, cause },
    }
}

// The job that a line is, read in the memory that is lent.
fn read_with(
    alloc: Global,
    texts: &mut FormulaTexts,
    line: &[u8],
    scratch: &mut Scratch,
) -> Result<Job, JobError>
    ensures { GivesJob result (reads_job line.now) }
{
    let value = match value_of(alloc, line, scratch) {
        Ok(value) => value,
        Err(error) => return Err(error_of(None, error)),
    };
    let name = match name_of(alloc, &value) {
        Ok(name) => name,
        Err(error) => return Err(error_of(None, error)),
    };
    match op_of(alloc, texts, &value) {
        Ok(op) => Ok(Job { name, op }),
        Err(error) => Err(error_of(Some(name), error)),
    }
}

/// The job that a line is, or its first fault: the line's JSON, then the fields `job` and `op`, then those of the operation, each list
/// and object from its front. Formulas whose texts were read before are taken from the table.
pub fn read_job(alloc: Global, texts: &mut FormulaTexts, line: &[u8]) -> Result<Job, JobError>
    ensures { GivesJob result (reads_job line.now) }
{
    let Ok(mut scratch) = texts.take_scratch(alloc) else {
        return Err(JobError::Memory);
    };
    let job = read_with(alloc, texts, line, &mut scratch);
    if line.len() <= LONGEST_KEPT {
        texts.keep_scratch(scratch);
    }
    job
}
