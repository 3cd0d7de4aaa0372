//! Chains of implications, as expansion proofs.
ghost use Rattle.std.specs.Prelude.{◌<◌, map};
ghost use Rattle.std.specs.List.{range_with_len, flat_map};
ghost use Rattle.job_gen.specs.Values.{list_data};
ghost use Rattle.job_gen.specs.Chains.{leaf_data, imp_data, implication_nodes, instance_data, weak_data, chain_nodes};
ghost use Rattle.json_text.specs.Tokens.{data_tokens, Adds};
ghost use Rattle.job_gen.specs.Tokens.{all_tokens};

use crate::members::{put_atom, put_iterate, put_numbers, put_text};
use json_text::JsonText;
use std::alloc::Global;

/// The formula whose instances are the implications of a chain.
const UNIVERSAL: &str = "![X]: (p(X) => p(f(X)))";

fn put_leaf(out: &mut JsonText, alloc: Global, k: u64)
    ensures { Adds out.old out.new (data_tokens (leaf_data k)) }
{
    out.begin_object();
    out.key("formula");
    put_atom(out, alloc, k);
    put_text(out, "kind", "leaf");
    out.end_object();
}

fn put_imp(out: &mut JsonText, from: u64, to: u64)
    ensures { Adds out.old out.new (data_tokens (imp_data from to)) }
{
    out.begin_object();
    put_text(out, "kind", "imp");
    put_numbers(out, "of", &[from, to]);
    out.end_object();
}

fn put_implication_nodes(out: &mut JsonText, alloc: Global, i: u64)
    requires { i < 8 }
    ensures { Adds out.old out.new (all_tokens (implication_nodes i)) }
{
    put_leaf(out, alloc, i);
    put_leaf(out, alloc, i + 1);
    put_imp(out, 3 * i, 3 * i + 1);
}

fn put_implications(out: &mut JsonText, alloc: Global, k: u64)
    requires { k < 9 }
    ensures { Adds out.old out.new (all_tokens (flat_map implication_nodes (range_with_len 0 k))) }
{
    for i in 0..k {
        put_implication_nodes(out, alloc, i);
    }
}

fn put_instance(out: &mut JsonText, alloc: Global, i: u64)
    requires { i < 8 }
    ensures { Adds out.old out.new (data_tokens (instance_data i)) }
{
    out.begin_object();
    out.key("of");
    out.number(3 * i + 2);
    out.key("term");
    put_iterate(out, alloc, i);
    out.end_object();
}

fn put_instances(out: &mut JsonText, alloc: Global, k: u64)
    requires { k < 9 }
    ensures { Adds out.old out.new (data_tokens (list_data (map instance_data (range_with_len 0 k)))) }
{
    out.begin_array();
    for i in 0..k {
        put_instance(out, alloc, i);
    }
    out.end_array();
}

fn put_weak(out: &mut JsonText, alloc: Global, k: u64)
    requires { k < 9 }
    ensures { Adds out.old out.new (data_tokens (weak_data k)) }
{
    out.begin_object();
    put_text(out, "formula", UNIVERSAL);
    out.key("instances");
    put_instances(out, alloc, k);
    put_text(out, "kind", "weak");
    out.end_object();
}

/// The nodes of the chain of k implications, as an array.
pub fn put_nodes(out: &mut JsonText, alloc: Global, k: u64)
    requires { k < 9 }
    ensures { Adds out.old out.new (data_tokens (list_data (chain_nodes k))) }
{
    out.begin_array();
    put_implications(out, alloc, k);
    put_weak(out, alloc, k);
    put_leaf(out, alloc, 0);
    put_leaf(out, alloc, k);
    out.end_array();
}
