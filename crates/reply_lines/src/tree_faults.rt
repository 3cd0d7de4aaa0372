//! Faults of sequents and of expansion trees in a reply.
ghost use Rattle.std.specs.Prelude.{◌≡◌, [], ◌∷◌, codes};
ghost use Rattle.std.specs.List.{All};
ghost use Rattle.fol.specs.Formed.{IsFormed, IsFormedVar};
ghost use Rattle.json.specs.Token.{key as key_token, string as string_token};
ghost use Rattle.reply_lines.specs.Replies.{side_name as side_text, side_fault, falsified_data, place_fault, node_cause as node_cause_text, root_cause as root_cause_text, variable_fault, variables_data, cycle_data};
ghost use Rattle.json_text.specs.Tokens.{data_tokens, Adds};

use crate::members::{put_formula, put_number, put_side, put_text};
use crate::terms::put_variable;
use exp_tree::{NodeCause, RootCause};
use fol::{Formula, Var};
use job_words::FormedVar;
use json_text::JsonText;
use lk_rules::{Formulas, Side};
use std::alloc::Global;
use text_tables::CanonicalTexts;

fn side_name(side: Side) -> &'static str
    ensures { result.now ≡ side_text side }
{
    match side {
        Side::Left => "left",
        Side::Right => "right",
    }
}

fn put_side_name(out: &mut JsonText, side: Side)
    ensures { Adds out.old out.new (key_token (codes "side") ∷ string_token (side_text side) ∷ []) }
{
    put_text(out, "side", side_name(side));
}

/// A formula that may not stand on this side of a sequent.
pub fn put_side_fault(
    out: &mut JsonText,
    alloc: Global,
    texts: &mut CanonicalTexts,
    kind: &str,
    formula: &Formula,
    side: Side,
)
    requires { IsFormed formula.now }
    ensures { Adds out.old out.new (data_tokens (side_fault kind.now formula.now side)) }
{
    out.begin_object();
    out.key("formula");
    put_formula(out, alloc, texts, formula);
    put_text(out, "kind", kind);
    put_side_name(out, side);
    out.end_object();
}

/// A sequent that is false where just these atoms are true.
pub fn put_falsified(
    out: &mut JsonText,
    alloc: Global,
    texts: &mut CanonicalTexts,
    atoms: &Formulas,
)
    ensures { Adds out.old out.new (data_tokens (falsified_data atoms.now)) }
{
    out.begin_object();
    put_text(out, "kind", "falsified");
    put_side(out, alloc, texts, "true", atoms);
    out.end_object();
}

fn put_place_fault(out: &mut JsonText, cause: &str, kind: &str, place: u64)
    ensures { Adds out.old out.new (data_tokens (place_fault cause.now kind.now place)) }
{
    out.begin_object();
    put_text(out, "cause", cause);
    put_text(out, "kind", kind);
    put_number(out, kind, place);
    out.end_object();
}

fn node_cause(cause: NodeCause) -> &'static str
    ensures { result.now ≡ node_cause_text cause }
{
    match cause {
        NodeCause::Reference => "reference",
        NodeCause::Shape => "shape",
        NodeCause::Instance => "instance",
        NodeCause::Polarity => "polarity",
    }
}

fn root_cause(cause: RootCause) -> &'static str
    ensures { result.now ≡ root_cause_text cause }
{
    match cause {
        RootCause::Reference => "reference",
        RootCause::Polarity => "polarity",
        RootCause::Twice => "twice",
    }
}

/// A faulty node of a flat list.
pub fn put_node_fault(out: &mut JsonText, node: u64, cause: NodeCause)
    ensures { Adds out.old out.new (data_tokens (place_fault (node_cause_text cause) (codes "node") node)) }
{
    put_place_fault(out, node_cause(cause), "node", node);
}

/// A faulty root of a flat list.
pub fn put_root_fault(out: &mut JsonText, root: u64, cause: RootCause)
    ensures { Adds out.old out.new (data_tokens (place_fault (root_cause_text cause) (codes "root") root)) }
{
    put_place_fault(out, root_cause(cause), "root", root);
}

/// A fault of the variable of a strong quantifier.
pub fn put_variable_fault(out: &mut JsonText, alloc: Global, kind: &str, var: &FormedVar)
    ensures { Adds out.old out.new (data_tokens (variable_fault kind.now var.now)) }
{
    out.begin_object();
    put_text(out, "kind", kind);
    out.key("var");
    put_variable(out, alloc, var.get());
    out.end_object();
}

fn put_variables(out: &mut JsonText, alloc: Global, vars: &[Var])
    requires { All IsFormedVar vars.now }
    ensures { Adds out.old out.new (data_tokens (variables_data vars.now)) }
{
    out.begin_array();
    for var in vars {
        put_variable(out, alloc, var);
    }
    out.end_array();
}

/// Variables of strong quantifiers each of which has to be there before the next.
pub fn put_cycle(out: &mut JsonText, alloc: Global, vars: &[Var])
    requires { All IsFormedVar vars.now }
    ensures { Adds out.old out.new (data_tokens (cycle_data vars.now)) }
{
    out.begin_object();
    out.key("cycle");
    put_variables(out, alloc, vars);
    put_text(out, "kind", "cycle");
    out.end_object();
}
