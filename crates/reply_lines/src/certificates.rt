//! Certificates in a reply: the atoms of a model, the steps of a refutation, the clauses to which no round of resolution adds one, or the clause
//! that has a variable where none may have one.
ghost use Rattle.std.specs.Prelude.{◌≡◌};
ghost use Rattle.std.specs.FinMap as fin;
ghost use Rattle.std.specs.List.{All};
ghost use Rattle.fol.specs.Formed.{IsFormed};
ghost use Rattle.job_words.specs.Refutations.{IsFormedBinding, HasFormedParts, HaveFormedParts};
ghost use Rattle.reply_lines.specs.Replies.{input_data, subst_data, resolve_data, res_step_data, res_steps_data, satisfiable_data, unsatisfiable_data, clause_data, clauses_data, saturated_data, refuted_data, not_ground_data};
ghost use Rattle.json_text.specs.Tokens.{data_tokens, Adds};

use crate::maps::put_map;
use crate::members::{put_formula, put_number, put_numbers, put_side, put_text};
use fol::Formula;
use json_text::JsonText;
use lk_rules::{Formulas, Sequent};
use refutations::ResStep;
use std::alloc::Global;
use substitution::Subst;
use text_tables::CanonicalTexts;

fn put_input(out: &mut JsonText, clause: u64)
    ensures { Adds out.old out.new (data_tokens (input_data clause)) }
{
    out.begin_object();
    put_number(out, "input", clause);
    out.end_object();
}

fn put_subst(out: &mut JsonText, alloc: Global, step: u64, map: &Subst)
    requires { All IsFormedBinding (fin.entries map.now) }
    ensures { Adds out.old out.new (data_tokens (subst_data step map.now)) }
{
    out.begin_object();
    out.key("map");
    put_map(out, alloc, map);
    put_number(out, "subst", step);
    out.end_object();
}

fn put_resolve(
    out: &mut JsonText,
    alloc: Global,
    texts: &mut CanonicalTexts,
    positive: u64,
    negative: u64,
    atom: &Formula,
)
    requires { IsFormed atom.now }
    ensures { Adds out.old out.new (data_tokens (resolve_data positive negative atom.now)) }
{
    out.begin_object();
    out.key("atom");
    put_formula(out, alloc, texts, atom);
    put_numbers(out, "resolve", &[positive, negative]);
    out.end_object();
}

fn put_step(out: &mut JsonText, alloc: Global, texts: &mut CanonicalTexts, step: &ResStep)
    requires { HasFormedParts step.now }
    ensures { Adds out.old out.new (data_tokens (res_step_data step.now)) }
{
    match step {
        ResStep::Input(clause) => put_input(out, *clause),
        ResStep::Subst(step, map) => put_subst(out, alloc, *step, map),
        ResStep::Resolve {
            positive,
            negative,
            atom,
        } => put_resolve(out, alloc, texts, *positive, *negative, atom),
    }
}

fn put_list(out: &mut JsonText, alloc: Global, texts: &mut CanonicalTexts, steps: &[ResStep])
    requires { HaveFormedParts steps.now }
    ensures { Adds out.old out.new (data_tokens (res_steps_data steps.now)) }
{
    out.begin_array();
    for step in steps {
        put_step(out, alloc, texts, step);
    }
    out.end_array();
}

/// Clauses that are never true together, with the steps of a refutation.
pub fn put_unsatisfiable(
    out: &mut JsonText,
    alloc: Global,
    texts: &mut CanonicalTexts,
    steps: &[ResStep],
)
    requires { HaveFormedParts steps.now }
    ensures { Adds out.old out.new (data_tokens (unsatisfiable_data steps.now)) }
{
    out.begin_object();
    out.key("satisfiable");
    out.boolean(false);
    out.key("steps");
    put_list(out, alloc, texts, steps);
    out.end_object();
}

/// Clauses that are true together where just these atoms are true.
pub fn put_satisfiable(
    out: &mut JsonText,
    alloc: Global,
    texts: &mut CanonicalTexts,
    atoms: &Formulas,
)
    ensures { Adds out.old out.new (data_tokens (satisfiable_data atoms.now)) }
{
    out.begin_object();
    out.key("satisfiable");
    out.boolean(true);
    put_side(out, alloc, texts, "true", atoms);
    out.end_object();
}

// A clause by its sides.
fn put_clause(out: &mut JsonText, alloc: Global, texts: &mut CanonicalTexts, clause: &Sequent)
    ensures { Adds out.old out.new (data_tokens (clause_data clause.now)) }
{
    out.begin_object();
    put_side(out, alloc, texts, "left", &clause.left);
    put_side(out, alloc, texts, "right", &clause.right);
    out.end_object();
}

fn put_clauses(out: &mut JsonText, alloc: Global, texts: &mut CanonicalTexts, clauses: &[Sequent])
    ensures { Adds out.old out.new (data_tokens (clauses_data clauses.now)) }
{
    out.begin_array();
    for clause in clauses {
        put_clause(out, alloc, texts, clause);
    }
    out.end_array();
}

/// Clauses that no round adds a clause to.
pub fn put_saturated(
    out: &mut JsonText,
    alloc: Global,
    texts: &mut CanonicalTexts,
    clauses: &[Sequent],
)
    ensures { Adds out.old out.new (data_tokens (saturated_data clauses.now)) }
{
    out.begin_object();
    out.key("clauses");
    put_clauses(out, alloc, texts, clauses);
    out.key("saturated");
    out.boolean(true);
    out.end_object();
}

/// The steps of a refutation that the rounds find.
pub fn put_refuted(out: &mut JsonText, alloc: Global, texts: &mut CanonicalTexts, steps: &[ResStep])
    requires { HaveFormedParts steps.now }
    ensures { Adds out.old out.new (data_tokens (refuted_data steps.now)) }
{
    out.begin_object();
    out.key("saturated");
    out.boolean(false);
    out.key("steps");
    put_list(out, alloc, texts, steps);
    out.end_object();
}

/// A clause with a variable, where none may have one.
pub fn put_not_ground(out: &mut JsonText, clause: u64)
    ensures { Adds out.old out.new (data_tokens (not_ground_data clause)) }
{
    out.begin_object();
    put_number(out, "clause", clause);
    put_text(out, "kind", "not_ground");
    out.end_object();
}
