//! How many weak quantifiers stand in front of a formula.
ghost use Rattle.std.specs.Prelude.{◌≡◌, ◌≤◌, ◌^◌};
ghost use Rattle.herbrand_laws.specs.Herbrand.{prefix as prefix_of};

use fol::{Formula, FormulaNode};
use lk_rules::Side;

/// How many weak quantifiers stand in front of a formula on a side.
#[tactic(auto, using(crate::proofs::ItemFacts::prefix_within))]
pub fn prefix(side: Side, formula: &Formula) -> u32
    ensures value { result ≡ prefix_of side formula.now }
    ensures within { result ≤ 2 ^ 26 }
{
    let _size = formula.size();
    match (side, formula.node()) {
        (Side::Left, FormulaNode::All(body)) | (Side::Right, FormulaNode::Ex(body)) => {
            1 + prefix(side, body)
        }
        _ => 0,
    }
}
