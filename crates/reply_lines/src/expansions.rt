//! Expansion trees in a reply.
ghost use Rattle.std.specs.Prelude.{◌≡◌, true, [], ◌∷◌, codes};
ghost use Rattle.std.specs.List.{All, list_all};
ghost use Rattle.fol.specs.Formed.{IsFormed, IsFormedTerm, IsFormedVar, is_formed_term};
ghost use Rattle.json.specs.Token.{key as key_token, string as string_token};
ghost use Rattle.job_words.specs.NodeKinds.{node_name};
ghost use Rattle.exp_tree.specs.FlatLists.{is_formed_node};
ghost use Rattle.reply_lines.specs.Replies.{expansion_data, formula_node, not_node, pair_node, instance_data, instances_data, weak_node, strong_node, node_data, node_list, nodes_data};
ghost use Rattle.json_text.specs.Tokens.{data_tokens, Adds};

use crate::members::{put_formula, put_number, put_numbers, put_side, put_text};
use crate::replies::ExpSummary;
use crate::terms::{put_term, put_variable};
use exp_tree::{ExpNode, FlatExp};
use fol::{Formula, Term, Var};
use job_words::NodeKind;
use json_text::JsonText;
use std::alloc::Global;
use text_tables::CanonicalTexts;

/// The object of an expansion proof in short.
pub fn put_expansion(
    out: &mut JsonText,
    alloc: Global,
    texts: &mut CanonicalTexts,
    summary: &ExpSummary,
)
    ensures { Adds out.old out.new (data_tokens (expansion_data summary.now)) }
{
    out.begin_object();
    put_number(out, "instances", summary.instances);
    put_side(out, alloc, texts, "left", &summary.end.left);
    put_side(out, alloc, texts, "right", &summary.end.right);
    put_number(out, "strong", summary.strong);
    out.end_object();
}

// The member that is the kind of a node.
fn put_kind(out: &mut JsonText, kind: NodeKind)
    ensures { Adds out.old out.new (key_token (codes "kind") ∷ string_token (node_name kind) ∷ []) }
{
    put_text(out, "kind", kind.name());
}

fn put_formula_node(
    out: &mut JsonText,
    alloc: Global,
    texts: &mut CanonicalTexts,
    kind: NodeKind,
    formula: &Formula,
)
    requires { IsFormed formula.now }
    ensures { Adds out.old out.new (data_tokens (formula_node kind formula.now)) }
{
    out.begin_object();
    out.key("formula");
    put_formula(out, alloc, texts, formula);
    put_kind(out, kind);
    out.end_object();
}

fn put_not(out: &mut JsonText, of: u64)
    ensures { Adds out.old out.new (data_tokens (not_node of)) }
{
    out.begin_object();
    put_kind(out, NodeKind::Not);
    put_number(out, "of", of);
    out.end_object();
}

fn put_pair(out: &mut JsonText, kind: NodeKind, first: u64, second: u64)
    ensures { Adds out.old out.new (data_tokens (pair_node kind first second)) }
{
    out.begin_object();
    put_kind(out, kind);
    put_numbers(out, "of", &[first, second]);
    out.end_object();
}

fn put_instance(out: &mut JsonText, alloc: Global, instance: &(Term, u64))
    requires { IsFormedTerm instance.now.0 }
    ensures { Adds out.old out.new (data_tokens (instance_data instance.now)) }
{
    out.begin_object();
    put_number(out, "of", instance.1);
    out.key("term");
    put_term(out, alloc, &instance.0);
    out.end_object();
}

fn put_instances(out: &mut JsonText, alloc: Global, instances: &[(Term, u64)])
    requires { list_all (λ i. is_formed_term i.0) instances.now ≡ true }
    ensures { Adds out.old out.new (data_tokens (instances_data instances.now)) }
{
    out.begin_array();
    for instance in instances {
        put_instance(out, alloc, instance);
    }
    out.end_array();
}

fn put_weak(
    out: &mut JsonText,
    alloc: Global,
    texts: &mut CanonicalTexts,
    formula: &Formula,
    instances: &[(Term, u64)],
)
    requires formula { IsFormed formula.now }
    requires terms { list_all (λ i. is_formed_term i.0) instances.now ≡ true }
    ensures { Adds out.old out.new (data_tokens (weak_node formula.now instances.now)) }
{
    out.begin_object();
    out.key("formula");
    put_formula(out, alloc, texts, formula);
    out.key("instances");
    put_instances(out, alloc, instances);
    put_kind(out, NodeKind::Weak);
    out.end_object();
}

fn put_strong(
    out: &mut JsonText,
    alloc: Global,
    texts: &mut CanonicalTexts,
    formula: &Formula,
    var: &Var,
    of: u64,
)
    requires formula { IsFormed formula.now }
    requires var { IsFormedVar var.now }
    ensures { Adds out.old out.new (data_tokens (strong_node formula.now var.now of)) }
{
    out.begin_object();
    out.key("formula");
    put_formula(out, alloc, texts, formula);
    put_kind(out, NodeKind::Strong);
    put_number(out, "of", of);
    out.key("var");
    put_variable(out, alloc, var);
    out.end_object();
}

fn put_node(out: &mut JsonText, alloc: Global, texts: &mut CanonicalTexts, node: &ExpNode)
    requires { is_formed_node node.now ≡ true }
    ensures { Adds out.old out.new (data_tokens (node_data node.now)) }
{
    match node {
        ExpNode::Wk(formula) => put_formula_node(out, alloc, texts, NodeKind::Wk, formula),
        ExpNode::Leaf(formula) => put_formula_node(out, alloc, texts, NodeKind::Leaf, formula),
        ExpNode::Not(of) => put_not(out, *of),
        ExpNode::And(first, second) => put_pair(out, NodeKind::And, *first, *second),
        ExpNode::Or(first, second) => put_pair(out, NodeKind::Or, *first, *second),
        ExpNode::Imp(first, second) => put_pair(out, NodeKind::Imp, *first, *second),
        ExpNode::Weak(formula, instances) => {
            put_weak(out, alloc, texts, formula, instances.as_slice())
        }
        ExpNode::Strong(formula, var, of) => put_strong(out, alloc, texts, formula, var, *of),
    }
}

fn put_list(out: &mut JsonText, alloc: Global, texts: &mut CanonicalTexts, nodes: &[ExpNode])
    requires { list_all is_formed_node nodes.now ≡ true }
    ensures { Adds out.old out.new (data_tokens (node_list nodes.now)) }
{
    out.begin_array();
    for node in nodes {
        put_node(out, alloc, texts, node);
    }
    out.end_array();
}

/// The object of expansion trees as a flat list.
pub fn put_nodes(out: &mut JsonText, alloc: Global, texts: &mut CanonicalTexts, flat: &FlatExp)
    ensures { Adds out.old out.new (data_tokens (nodes_data flat.now)) }
{
    out.begin_object();
    put_numbers(out, "left", flat.left.as_slice());
    out.key("nodes");
    put_list(out, alloc, texts, flat.nodes.as_slice());
    put_numbers(out, "right", flat.right.as_slice());
    out.end_object();
}
