//! Reading expansion trees as flat lists.
ghost use Rattle.std.specs.Prelude.{◌≡◌, true, map, IfOk};
ghost use Rattle.std.specs.List.{list_all};
ghost use Rattle.fol.specs.Formed.{IsFormedTerm, is_formed_term};
ghost use Rattle.exp_tree.specs.FlatLists.{is_formed_node};
ghost use Rattle.line_values.specs.View.{view};
ghost use Rattle.job_lang.specs.Fields.{Gives};
ghost use Rattle.job_lang.specs.Expansions.{members_of_instance as instance_members, instance_at as instance_element, instances_of as instances_data, instances_at as instances_member, weak_at as weak_members, strong_at as strong_members, node_of_kind as node_with, node_of as node_data, node_at as node_element, nodes_of as nodes_data, nodes_at as nodes_member, flat_at as flat_members};

use crate::formulas::{formula_at, term_at, variable_at};
use crate::numbers::{number_at, numbers_at, pair_at};
use crate::places::Place;
use crate::reading::{ReadError, field_fault, items_at, text_at};
use exp_tree::{ExpNode, ExpNodes, FlatExp, FlatInsts};
use fol::Term;
use job_words::NodeKind;
use line_values::Value;
use std::alloc::Global;
use text_tables::FormulaTexts;

fn members_of_instance(
    alloc: Global,
    value: &Value<'_>,
    place: Place,
) -> Result<(Term, u64), ReadError>
    ensures value { Gives (λ i. i) result (instance_members place (view value.now)) }
    ensures formed { IfOk result (λ i. IsFormedTerm i.0) }
{
    let term = term_at(alloc, value, place, "term")?;
    let of = number_at(alloc, value, place, "of")?;
    Ok((term, of))
}

#[tactic(auto, using(crate::proofs::Given::cause_given))]
fn instance_at(
    alloc: Global,
    value: &Value<'_>,
    node: usize,
    index: usize,
) -> Result<(Term, u64), ReadError>
    ensures value { Gives (λ i. i) result (instance_element node index (view value.now)) }
    ensures formed { IfOk result (λ i. IsFormedTerm i.0) }
{
    match value.as_object() {
        Some(_) => {
            members_of_instance(
                alloc,
                value,
                Place::Instance {
                    node,
                    instance: index,
                },
            )
        }
        None => Err(field_fault(alloc, Place::Node(node), "instances", Some(index))),
    }
}

fn instances_of(alloc: Global, values: &[Value<'_>], node: usize) -> Result<FlatInsts, ReadError>
    ensures value { Gives (λ is. is) result (instances_data node (map view values.now)) }
    ensures formed { IfOk result (λ is. list_all (λ i. is_formed_term i.0) is ≡ true) }
{
    let mut items = Vec::new(alloc);
    for (index, value) in values.iter().enumerate() {
        let instance = instance_at(alloc, value, node, index)?;
        items.push(instance)?;
    }
    Ok(FlatInsts::from_vec(items))
}

#[tactic(auto, using(crate::proofs::Given::cause_given))]
fn instances_at(alloc: Global, value: &Value<'_>, node: usize) -> Result<FlatInsts, ReadError>
    ensures value { Gives (λ is. is) result (instances_member node (view value.now)) }
    ensures formed { IfOk result (λ is. list_all (λ i. is_formed_term i.0) is ≡ true) }
{
    let Some(values) = items_at(value, "instances") else {
        return Err(field_fault(alloc, Place::Node(node), "instances", None));
    };
    instances_of(alloc, values, node)
}

fn weak_at(
    alloc: Global,
    texts: &mut FormulaTexts,
    value: &Value<'_>,
    index: usize,
) -> Result<ExpNode, ReadError>
    ensures value { Gives (λ n. n) result (weak_members index (view value.now)) }
    ensures formed { IfOk result (λ n. is_formed_node n ≡ true) }
{
    let formula = formula_at(alloc, texts, value, Place::Node(index), "formula")?;
    let instances = instances_at(alloc, value, index)?;
    Ok(ExpNode::Weak(formula, instances))
}

fn strong_at(
    alloc: Global,
    texts: &mut FormulaTexts,
    value: &Value<'_>,
    index: usize,
) -> Result<ExpNode, ReadError>
    ensures value { Gives (λ n. n) result (strong_members index (view value.now)) }
    ensures formed { IfOk result (λ n. is_formed_node n ≡ true) }
{
    let place = Place::Node(index);
    let formula = formula_at(alloc, texts, value, place, "formula")?;
    let var = variable_at(alloc, value, place, "var")?;
    let of = number_at(alloc, value, place, "of")?;
    Ok(ExpNode::Strong(formula, var, of))
}

// A node of this kind with what it names.
fn node_of_kind(
    alloc: Global,
    texts: &mut FormulaTexts,
    kind: NodeKind,
    value: &Value<'_>,
    index: usize,
) -> Result<ExpNode, ReadError>
    ensures value { Gives (λ n. n) result (node_with index kind (view value.now)) }
    ensures formed { IfOk result (λ n. is_formed_node n ≡ true) }
{
    let place = Place::Node(index);
    match kind {
        NodeKind::Wk => {
            let formula = formula_at(alloc, texts, value, place, "formula")?;
            Ok(ExpNode::Wk(formula))
        }
        NodeKind::Leaf => {
            let formula = formula_at(alloc, texts, value, place, "formula")?;
            Ok(ExpNode::Leaf(formula))
        }
        NodeKind::Not => {
            let of = number_at(alloc, value, place, "of")?;
            Ok(ExpNode::Not(of))
        }
        NodeKind::And => {
            let (first, second) = pair_at(alloc, value, place, "of")?;
            Ok(ExpNode::And(first, second))
        }
        NodeKind::Or => {
            let (first, second) = pair_at(alloc, value, place, "of")?;
            Ok(ExpNode::Or(first, second))
        }
        NodeKind::Imp => {
            let (first, second) = pair_at(alloc, value, place, "of")?;
            Ok(ExpNode::Imp(first, second))
        }
        NodeKind::Weak => weak_at(alloc, texts, value, index),
        NodeKind::Strong => strong_at(alloc, texts, value, index),
    }
}

#[tactic(auto, using(crate::proofs::Given::cause_given))]
fn node_of(
    alloc: Global,
    texts: &mut FormulaTexts,
    value: &Value<'_>,
    index: usize,
) -> Result<ExpNode, ReadError>
    ensures value { Gives (λ n. n) result (node_data index (view value.now)) }
    ensures formed { IfOk result (λ n. is_formed_node n ≡ true) }
{
    let name = text_at(alloc, value, Place::Node(index), "kind")?;
    match NodeKind::named(name) {
        Some(kind) => node_of_kind(alloc, texts, kind, value, index),
        None => Err(field_fault(alloc, Place::Node(index), "kind", None)),
    }
}

#[tactic(auto, using(crate::proofs::Given::cause_given))]
fn node_at(
    alloc: Global,
    texts: &mut FormulaTexts,
    value: &Value<'_>,
    index: usize,
) -> Result<ExpNode, ReadError>
    ensures value { Gives (λ n. n) result (node_element index (view value.now)) }
    ensures formed { IfOk result (λ n. is_formed_node n ≡ true) }
{
    match value.as_object() {
        Some(_) => node_of(alloc, texts, value, index),
        None => Err(field_fault(alloc, Place::Top, "nodes", Some(index))),
    }
}

fn nodes_of(
    alloc: Global,
    texts: &mut FormulaTexts,
    values: &[Value<'_>],
) -> Result<ExpNodes, ReadError>
    ensures { Gives (λ ns. ns) result (nodes_data (map view values.now)) }
{
    let mut items = Vec::new(alloc);
    for (index, value) in values.iter().enumerate() {
        let node = node_at(alloc, texts, value, index)?;
        items.push(node)?;
    }
    Ok(ExpNodes::from_vec(items))
}

#[tactic(auto, using(crate::proofs::Given::cause_given))]
fn nodes_at(
    alloc: Global,
    texts: &mut FormulaTexts,
    value: &Value<'_>,
) -> Result<ExpNodes, ReadError>
    ensures { Gives (λ ns. ns) result (nodes_member (view value.now)) }
{
    let Some(values) = items_at(value, "nodes") else {
        return Err(field_fault(alloc, Place::Top, "nodes", None));
    };
    nodes_of(alloc, texts, values)
}

/// The members that are a flat list: its nodes, and the places of the roots on the left and on the right.
pub fn flat_at(
    alloc: Global,
    texts: &mut FormulaTexts,
    value: &Value<'_>,
) -> Result<FlatExp, ReadError>
    ensures { Gives (λ flat. flat) result (flat_members (view value.now)) }
{
    let nodes = nodes_at(alloc, texts, value)?;
    let left = numbers_at(alloc, value, Place::Top, "left")?;
    let right = numbers_at(alloc, value, Place::Top, "right")?;
    Ok(FlatExp { nodes, left, right })
}
