//! The steps of a proof in a reply.
ghost use Rattle.std.specs.Prelude.{◌≡◌, [], ◌∷◌, map, codes};
ghost use Rattle.std.specs.List.{All};
ghost use Rattle.fol.specs.Formed.{IsFormed, IsFormedTerm, IsFormedVar};
ghost use Rattle.lk_rules.specs.Rules.{IsFormedRule};
ghost use Rattle.json.specs.Token.{key as key_token, string as string_token};
ghost use Rattle.serde_json.specs.Data.{array};
ghost use Rattle.serde_json.specs.View.{items_of};
ghost use Rattle.tptp_print.specs.Canonical.{canonical};
ghost use Rattle.reply_lines.specs.Replies.{bare_step, main_step, term_step, variable_step, proof_step, steps_data};
ghost use Rattle.json_text.specs.Tokens.{data_tokens, Adds};

use crate::members::{put_formula, put_numbers, put_side, put_text};
use crate::terms::{put_term, put_variable};
use fol::{Formula, Term, Var};
use job_words::RuleKind;
use json_text::JsonText;
use lk_rules::{Rule, Sequent, Step};
use std::alloc::Global;
use text_tables::CanonicalTexts;

// The member that is the main formula.
fn put_main(out: &mut JsonText, alloc: Global, texts: &mut CanonicalTexts, main: &Formula)
    requires { IsFormed main.now }
    ensures { Adds out.old out.new (key_token (codes "main") ∷ string_token (canonical main.now) ∷ []) }
{
    out.key("main");
    put_formula(out, alloc, texts, main);
}

fn put_bare(
    out: &mut JsonText,
    alloc: Global,
    texts: &mut CanonicalTexts,
    end: &Sequent,
    premises: &[u64],
    rule: &str,
)
    ensures { Adds out.old out.new (data_tokens (bare_step end.now premises.now rule.now)) }
{
    out.begin_object();
    put_side(out, alloc, texts, "left", &end.left);
    put_numbers(out, "premises", premises);
    put_side(out, alloc, texts, "right", &end.right);
    put_text(out, "rule", rule);
    out.end_object();
}

fn put_with_main(
    out: &mut JsonText,
    alloc: Global,
    texts: &mut CanonicalTexts,
    end: &Sequent,
    premises: &[u64],
    rule: &str,
    main: &Formula,
)
    requires { IsFormed main.now }
    ensures { Adds out.old out.new (data_tokens (main_step end.now premises.now rule.now main.now)) }
{
    out.begin_object();
    put_side(out, alloc, texts, "left", &end.left);
    put_main(out, alloc, texts, main);
    put_numbers(out, "premises", premises);
    put_side(out, alloc, texts, "right", &end.right);
    put_text(out, "rule", rule);
    out.end_object();
}

fn put_with_term(
    out: &mut JsonText,
    alloc: Global,
    texts: &mut CanonicalTexts,
    end: &Sequent,
    premises: &[u64],
    rule: &str,
    main: &Formula,
    term: &Term,
)
    requires main { IsFormed main.now }
    requires term { IsFormedTerm term.now }
    ensures { Adds out.old out.new (data_tokens (term_step end.now premises.now rule.now main.now term.now)) }
{
    out.begin_object();
    put_side(out, alloc, texts, "left", &end.left);
    put_main(out, alloc, texts, main);
    put_numbers(out, "premises", premises);
    put_side(out, alloc, texts, "right", &end.right);
    put_text(out, "rule", rule);
    out.key("term");
    put_term(out, alloc, term);
    out.end_object();
}

fn put_with_variable(
    out: &mut JsonText,
    alloc: Global,
    texts: &mut CanonicalTexts,
    end: &Sequent,
    premises: &[u64],
    rule: &str,
    main: &Formula,
    var: &Var,
)
    requires main { IsFormed main.now }
    requires var { IsFormedVar var.now }
    ensures { Adds out.old out.new (data_tokens (variable_step end.now premises.now rule.now main.now var.now)) }
{
    out.begin_object();
    put_side(out, alloc, texts, "left", &end.left);
    put_main(out, alloc, texts, main);
    put_numbers(out, "premises", premises);
    put_side(out, alloc, texts, "right", &end.right);
    put_text(out, "rule", rule);
    out.key("var");
    put_variable(out, alloc, var);
    out.end_object();
}

fn put_step(out: &mut JsonText, alloc: Global, texts: &mut CanonicalTexts, step: &Step)
    requires { IsFormedRule step.now.rule }
    ensures { Adds out.old out.new (data_tokens (proof_step step.now)) }
{
    let premises = step.premises.as_slice();
    let rule = RuleKind::of(&step.rule).name();
    let end = &step.end;
    match &step.rule {
        Rule::TopR | Rule::BotL | Rule::Weak => put_bare(out, alloc, texts, end, premises, rule),
        Rule::Ax(main)
        | Rule::NegL(main)
        | Rule::NegR(main)
        | Rule::AndL(main)
        | Rule::AndR(main)
        | Rule::OrL(main)
        | Rule::OrR(main)
        | Rule::ImpL(main)
        | Rule::ImpR(main)
        | Rule::DefL(main)
        | Rule::DefR(main)
        | Rule::Cut(main) => put_with_main(out, alloc, texts, end, premises, rule, main),
        Rule::AllL(main, term) | Rule::ExR(main, term) => {
            put_with_term(out, alloc, texts, end, premises, rule, main, term)
        }
        Rule::AllR(main, var) | Rule::ExL(main, var) => {
            put_with_variable(out, alloc, texts, end, premises, rule, main, var)
        }
    }
}

fn put_list(out: &mut JsonText, alloc: Global, texts: &mut CanonicalTexts, steps: &[Step])
    requires { All (λ s. IsFormedRule s.rule) steps.now }
    ensures { Adds out.old out.new (data_tokens (array (items_of (map proof_step steps.now)))) }
{
    out.begin_array();
    for step in steps {
        put_step(out, alloc, texts, step);
    }
    out.end_array();
}

/// The object of the steps of a proof, each whole.
pub fn put_steps(out: &mut JsonText, alloc: Global, texts: &mut CanonicalTexts, steps: &[Step])
    requires { All (λ s. IsFormedRule s.rule) steps.now }
    ensures { Adds out.old out.new (data_tokens (steps_data steps.now)) }
{
    out.begin_object();
    out.key("steps");
    put_list(out, alloc, texts, steps);
    out.end_object();
}
