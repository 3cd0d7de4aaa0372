//! What came of a job: the object of an Ok reply, or that of an error.
ghost use Rattle.std.specs.Prelude.{◌≡◌, [], ◌∷◌};
ghost use Rattle.fol.specs.Formed.{IsFormed};
ghost use Rattle.reply_lines.specs.Replies.{summary_data, reduced_data, interpolant_data, herbrand_data, introduced_data, definition_data, cut_data, too_many_data, entries_data, proves_data, measure_data, named as named_data, plain as plain_data, field_data, text_kind as kind_text, problem_kind as problem_kind_text, formula_data, tptp_data, reading_data, premise_fault as premise_fault_data, step_data, refutation_cause as refutation_cause_text, refutation_data, answer_data};
ghost use Rattle.json_text.specs.Tokens.{data_tokens, Adds};
ghost use Rattle.reply_lines.specs.Tokens.{said, fault_data};
ghost use Rattle.reply_lines.specs.declared.replies.StepShown.TheVariants.{Rule};

use crate::certificates::{
    put_not_ground, put_refuted, put_satisfiable, put_saturated, put_unsatisfiable,
};
use crate::expansions::{put_expansion, put_nodes};
use crate::members::{put_formula, put_number, put_side, put_text};
use crate::replies::{Outcome, RefutationShown, StepShown, Summary};
use crate::steps::put_steps;
use crate::terms::put_symbol;
use crate::tree_faults::{
    put_cycle, put_falsified, put_node_fault, put_root_fault, put_side_fault, put_variable_fault,
};
use fol::Formula;
use job_words::{JobCause, SymbolName};
use json_text::JsonText;
use lk_rules::{RuleFault, Sequent};
use std::alloc::Global;
use text_tables::CanonicalTexts;
use tptp_problem::ProblemKind;
use tptp_tokens::TextKind;

fn put_summary(out: &mut JsonText, alloc: Global, texts: &mut CanonicalTexts, summary: &Summary)
    ensures { Adds out.old out.new (data_tokens (summary_data summary.now)) }
{
    out.begin_object();
    put_number(out, "cuts", summary.cuts);
    put_side(out, alloc, texts, "left", &summary.end.left);
    put_number(out, "quants", summary.quants);
    put_side(out, alloc, texts, "right", &summary.end.right);
    out.end_object();
}

fn put_reduced(
    out: &mut JsonText,
    alloc: Global,
    texts: &mut CanonicalTexts,
    summary: &Summary,
    reductions: u64,
)
    ensures { Adds out.old out.new (data_tokens (reduced_data summary.now reductions)) }
{
    out.begin_object();
    put_number(out, "cuts", summary.cuts);
    put_side(out, alloc, texts, "left", &summary.end.left);
    put_number(out, "quants", summary.quants);
    put_number(out, "reductions", reductions);
    put_side(out, alloc, texts, "right", &summary.end.right);
    out.end_object();
}

fn put_interpolant(
    out: &mut JsonText,
    alloc: Global,
    texts: &mut CanonicalTexts,
    first: &Summary,
    formula: &Formula,
    second: &Summary,
)
    requires { IsFormed formula.now }
    ensures { Adds out.old out.new (data_tokens (interpolant_data first.now formula.now second.now)) }
{
    out.begin_object();
    out.key("first");
    put_summary(out, alloc, texts, first);
    out.key("formula");
    put_formula(out, alloc, texts, formula);
    out.key("second");
    put_summary(out, alloc, texts, second);
    out.end_object();
}

fn put_herbrand(
    out: &mut JsonText,
    alloc: Global,
    texts: &mut CanonicalTexts,
    count: u64,
    sequent: &Sequent,
)
    ensures { Adds out.old out.new (data_tokens (herbrand_data count sequent.now)) }
{
    out.begin_object();
    put_number(out, "count", count);
    put_side(out, alloc, texts, "left", &sequent.left);
    put_side(out, alloc, texts, "right", &sequent.right);
    out.end_object();
}

fn put_introduced(
    out: &mut JsonText,
    alloc: Global,
    texts: &mut CanonicalTexts,
    summary: &Summary,
    shorter: bool,
)
    ensures { Adds out.old out.new (data_tokens (introduced_data summary.now shorter)) }
{
    out.begin_object();
    put_number(out, "cuts", summary.cuts);
    put_side(out, alloc, texts, "left", &summary.end.left);
    put_number(out, "quants", summary.quants);
    put_side(out, alloc, texts, "right", &summary.end.right);
    out.key("shorter");
    out.boolean(shorter);
    out.end_object();
}

fn put_definition(
    out: &mut JsonText,
    alloc: Global,
    texts: &mut CanonicalTexts,
    symbol: &SymbolName,
    arity: u64,
    body: &Formula,
)
    requires { IsFormed body.now }
    ensures { Adds out.old out.new (data_tokens (definition_data symbol.now arity body.now)) }
{
    out.begin_object();
    put_number(out, "arity", arity);
    out.key("body");
    put_formula(out, alloc, texts, body);
    out.key("symbol");
    put_symbol(out, alloc, symbol);
    out.end_object();
}

fn put_entries(
    out: &mut JsonText,
    alloc: Global,
    texts: &mut CanonicalTexts,
    entries: u64,
    sequent: &Sequent,
)
    ensures { Adds out.old out.new (data_tokens (entries_data entries sequent.now)) }
{
    out.begin_object();
    put_number(out, "entries", entries);
    put_side(out, alloc, texts, "left", &sequent.left);
    put_side(out, alloc, texts, "right", &sequent.right);
    out.end_object();
}

fn put_proves(out: &mut JsonText, proves: bool)
    ensures { Adds out.old out.new (data_tokens (proves_data proves)) }
{
    out.begin_object();
    out.key("proves");
    out.boolean(proves);
    out.end_object();
}

fn put_measure(out: &mut JsonText, cuts: u64, nodes: u64, quants: u64, size: u64)
    ensures { Adds out.old out.new (data_tokens (measure_data cuts nodes quants size)) }
{
    out.begin_object();
    put_number(out, "cuts", cuts);
    put_number(out, "nodes", nodes);
    put_number(out, "quants", quants);
    put_number(out, "size", size);
    out.end_object();
}

fn put_named(out: &mut JsonText, kind: &str, name: &str)
    ensures { Adds out.old out.new (data_tokens (named_data kind.now name.now)) }
{
    out.begin_object();
    put_text(out, "kind", kind);
    put_text(out, "name", name);
    out.end_object();
}

fn put_plain(out: &mut JsonText, kind: &str)
    ensures { Adds out.old out.new (data_tokens (plain_data kind.now)) }
{
    out.begin_object();
    put_text(out, "kind", kind);
    out.end_object();
}

fn put_field_fault(out: &mut JsonText, field: &str)
    ensures { Adds out.old out.new (data_tokens (field_data field.now)) }
{
    out.begin_object();
    put_text(out, "field", field);
    put_text(out, "kind", "field");
    out.end_object();
}

fn text_kind(kind: TextKind) -> &'static str
    ensures { result.now ≡ kind_text kind }
{
    match kind {
        TextKind::Token => "token",
        TextKind::Expected => "expected",
        TextKind::Deep => "deep",
        TextKind::DefinedWord => "defined_word",
        TextKind::Number => "number",
        TextKind::Distinct => "distinct",
        TextKind::OpenQuote => "open_quote",
        TextKind::OpenComment => "open_comment",
    }
}

fn put_formula_fault(out: &mut JsonText, field: &str, place: u64, what: &str)
    ensures { Adds out.old out.new (data_tokens (formula_data field.now place what.now)) }
{
    out.begin_object();
    put_number(out, "at", place);
    put_text(out, "field", field);
    put_text(out, "kind", "formula");
    put_text(out, "what", what);
    out.end_object();
}

fn problem_kind(kind: ProblemKind) -> &'static str
    ensures { result.now ≡ problem_kind_text kind }
{
    match kind {
        ProblemKind::Text(kind) => text_kind(kind),
        ProblemKind::Include => "include",
        ProblemKind::Language => "language",
        ProblemKind::NameTwice => "name_twice",
        ProblemKind::Role => "role",
        ProblemKind::Clause => "clause",
    }
}

fn put_problem_fault(out: &mut JsonText, place: u64, what: &str)
    ensures { Adds out.old out.new (data_tokens (tptp_data place what.now)) }
{
    out.begin_object();
    put_number(out, "at", place);
    put_text(out, "kind", "tptp");
    put_text(out, "what", what);
    out.end_object();
}

fn put_reading(out: &mut JsonText, cause: &JobCause)
    ensures { Adds out.old out.new (data_tokens (reading_data cause.now)) }
{
    match cause {
        JobCause::Json => put_plain(out, "json"),
        JobCause::Field(field) => put_field_fault(out, field.as_str()),
        JobCause::Op => put_plain(out, "op"),
        JobCause::Formula { field, fault } => {
            put_formula_fault(out, field.as_str(), fault.at, text_kind(fault.kind))
        }
        JobCause::Tptp { at, kind } => put_problem_fault(out, *at, problem_kind(*kind)),
    }
}

fn put_fault(out: &mut JsonText, cause: &str, kind: &str, step: u64)
    ensures { Adds out.old out.new (data_tokens (fault_data cause.now kind.now step)) }
{
    out.begin_object();
    put_text(out, "cause", cause);
    put_text(out, "kind", kind);
    put_number(out, "step", step);
    out.end_object();
}

fn put_premise_fault(out: &mut JsonText, premise: u64, step: u64)
    ensures { Adds out.old out.new (data_tokens (premise_fault_data premise step)) }
{
    out.begin_object();
    put_text(out, "cause", "premise");
    put_text(out, "kind", "step");
    put_number(out, "premise", premise);
    put_number(out, "step", step);
    out.end_object();
}

fn put_rule_fault(out: &mut JsonText, step: u64, fault: RuleFault)
    ensures { Adds out.old out.new (data_tokens (step_data step (Rule fault))) }
{
    match fault {
        RuleFault::Premises => put_fault(out, "premises", "step", step),
        RuleFault::Shape => put_fault(out, "shape", "step", step),
        RuleFault::MainMissing => put_fault(out, "main_missing", "step", step),
        RuleFault::EigenFree => put_fault(out, "eigen_free", "step", step),
        RuleFault::Premise(premise) => put_premise_fault(out, premise, step),
    }
}

fn put_step_fault(out: &mut JsonText, step: u64, cause: StepShown)
    ensures { Adds out.old out.new (data_tokens (step_data step cause)) }
{
    match cause {
        StepShown::Reference => put_fault(out, "reference", "step", step),
        StepShown::Rule(fault) => put_rule_fault(out, step, fault),
    }
}

fn refutation_cause(cause: RefutationShown) -> &'static str
    ensures { result.now ≡ refutation_cause_text cause }
{
    match cause {
        RefutationShown::Reference => "reference",
        RefutationShown::AtomMissing => "atom_missing",
        RefutationShown::NotEmpty => "not_empty",
    }
}

fn put_refutation_fault(out: &mut JsonText, step: u64, cause: RefutationShown)
    ensures { Adds out.old out.new (data_tokens (refutation_data step cause)) }
{
    put_fault(out, refutation_cause(cause), "refutation", step);
}

fn put_cut(out: &mut JsonText, step: u64)
    ensures { Adds out.old out.new (data_tokens (cut_data step)) }
{
    out.begin_object();
    put_text(out, "kind", "cut");
    put_number(out, "step", step);
    out.end_object();
}

fn put_too_many(out: &mut JsonText, count: u64)
    ensures { Adds out.old out.new (data_tokens (too_many_data count)) }
{
    out.begin_object();
    put_number(out, "count", count);
    put_text(out, "kind", "too_many");
    out.end_object();
}

/// What came of a job, be it the object of an Ok reply or of an error.
pub fn put_answer(out: &mut JsonText, alloc: Global, texts: &mut CanonicalTexts, outcome: &Outcome)
    ensures { Adds out.old out.new (data_tokens (said (answer_data outcome.now))) }
{
    match outcome {
        Outcome::Proof(summary) => put_summary(out, alloc, texts, summary),
        Outcome::Reduced(summary, reductions) => {
            put_reduced(out, alloc, texts, summary, *reductions)
        }
        Outcome::Entries { entries, sequent } => put_entries(out, alloc, texts, *entries, sequent),
        Outcome::Proves(proves) => put_proves(out, *proves),
        Outcome::Steps(steps) => put_steps(out, alloc, texts, steps.as_slice()),
        Outcome::Measure {
            cuts,
            nodes,
            quants,
            size,
        } => put_measure(out, *cuts, *nodes, *quants, *size),
        Outcome::Expansion(summary) => put_expansion(out, alloc, texts, summary),
        Outcome::Nodes(flat) => put_nodes(out, alloc, texts, flat),
        Outcome::Interpolant {
            first,
            formula,
            second,
        } => put_interpolant(out, alloc, texts, first, formula.get(), second),
        Outcome::Herbrand { count, sequent } => put_herbrand(out, alloc, texts, *count, sequent),
        Outcome::Introduced { summary, shorter } => {
            put_introduced(out, alloc, texts, summary, *shorter)
        }
        Outcome::Definition {
            symbol,
            arity,
            body,
        } => put_definition(out, alloc, texts, symbol, *arity, body.get()),
        Outcome::Satisfiable(atoms) => put_satisfiable(out, alloc, texts, atoms),
        Outcome::Unsatisfiable(steps) => put_unsatisfiable(out, alloc, texts, steps.as_slice()),
        Outcome::Saturated(clauses) => put_saturated(out, alloc, texts, clauses.as_slice()),
        Outcome::Refuted(steps) => put_refuted(out, alloc, texts, steps.as_slice()),
        Outcome::LineTooLong => put_plain(out, "line_too_long"),
        Outcome::Reading(cause) => put_reading(out, cause),
        Outcome::NameTaken => put_plain(out, "name_taken"),
        Outcome::UnknownName(name) => put_named(out, "unknown_name", name.as_str()),
        Outcome::Kind(name) => put_named(out, "kind", name.as_str()),
        Outcome::Empty => put_plain(out, "empty"),
        Outcome::Step { step, cause } => put_step_fault(out, *step, *cause),
        Outcome::Refutation { step, cause } => put_refutation_fault(out, *step, *cause),
        Outcome::Quantified { formula, side } => {
            put_side_fault(out, alloc, texts, "quantified", formula.get(), *side)
        }
        Outcome::Falsified(atoms) => put_falsified(out, alloc, texts, atoms),
        Outcome::Node { node, cause } => put_node_fault(out, *node, *cause),
        Outcome::Root { root, cause } => put_root_fault(out, *root, *cause),
        Outcome::EigenTwice(var) => put_variable_fault(out, alloc, "eigen_twice", var),
        Outcome::EigenFree(var) => put_variable_fault(out, alloc, "eigen_free", var),
        Outcome::Cycle(vars) => put_cycle(out, alloc, vars.as_slice()),
        Outcome::Cut(step) => put_cut(out, *step),
        Outcome::Defined { formula, side } => {
            put_side_fault(out, alloc, texts, "defined", formula.get(), *side)
        }
        Outcome::Partition { formula, side } => {
            put_side_fault(out, alloc, texts, "partition", formula.get(), *side)
        }
        Outcome::NotPrenex { formula, side } => {
            put_side_fault(out, alloc, texts, "not_prenex", formula.get(), *side)
        }
        Outcome::TooMany(count) => put_too_many(out, *count),
        Outcome::DefTwice(name) => put_named(out, "def_twice", name.as_str()),
        Outcome::DefFree(var) => put_variable_fault(out, alloc, "def_free", var),
        Outcome::DefLarge => put_plain(out, "def_large"),
        Outcome::NotGround(clause) => put_not_ground(out, *clause),
        Outcome::Rounds => put_plain(out, "rounds"),
        Outcome::Budget => put_plain(out, "budget"),
        Outcome::Memory => put_plain(out, "memory"),
    }
}
