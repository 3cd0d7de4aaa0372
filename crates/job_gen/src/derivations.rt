//! Derivations with cuts.
ghost use Rattle.std.specs.Prelude.{◌≡◌, ◌<◌, ◌∷◌, [], map};
ghost use Rattle.job_gen.specs.Derivations.{step_data, axiom_data, cut_data, first_steps, further_cuts, derivation_steps};
ghost use Rattle.job_gen.specs.Values.{list_data};
ghost use Rattle.json_text.specs.Tokens.{data_tokens, Adds};
ghost use Rattle.job_gen.specs.Tokens.{all_tokens};

use crate::members::{put_numbers, put_text, put_texts};
use json_text::JsonText;

fn put_step(
    out: &mut JsonText,
    rule: &str,
    main: &str,
    premises: &[u64],
    left: &[&str],
    right: &[&str],
)
    ensures { let sides = map (λ text. text.now) in
        Adds out.old out.new
        (data_tokens (step_data rule.now main.now premises.now (sides left.now) (sides right.now))) }
{
    out.begin_object();
    put_texts(out, "left", left);
    put_text(out, "main", main);
    put_numbers(out, "premises", premises);
    put_texts(out, "right", right);
    put_text(out, "rule", rule);
    out.end_object();
}

fn put_axiom(out: &mut JsonText, formula: &str)
    ensures { Adds out.old out.new (data_tokens (axiom_data formula.now)) }
{
    put_step(out, "ax", formula, &[], &[formula], &[formula]);
}

fn put_cut(out: &mut JsonText, formula: &str, first: u64, second: u64)
    ensures { Adds out.old out.new (data_tokens (cut_data formula.now first second)) }
{
    put_step(out, "cut", formula, &[first, second], &["p", "q"], &["p"]);
}

fn put_first_steps(out: &mut JsonText)
    ensures { Adds out.old out.new (all_tokens first_steps) }
{
    put_axiom(out, "p");
    put_axiom(out, "q");
    put_step(out, "andR", "p & q", &[0, 1], &["p", "q"], &["p & q"]);
    put_step(out, "andL", "p & q", &[0], &["p & q"], &["p"]);
    put_cut(out, "p & q", 2, 3);
}

fn put_further_cuts(out: &mut JsonText, cuts: u64)
    requires { cuts < 16 }
    ensures { Adds out.old out.new (all_tokens (further_cuts cuts)) }
{
    for j in 0..cuts {
        put_cut(out, "p", 4 + j, 0);
    }
}

/// The steps of the derivation with so many further cuts, as an array.
pub fn put_steps(out: &mut JsonText, cuts: u64)
    requires { cuts < 16 }
    ensures { Adds out.old out.new (data_tokens (list_data (derivation_steps cuts))) }
{
    out.begin_array();
    put_first_steps(out);
    put_further_cuts(out, cuts);
    out.end_array();
}
