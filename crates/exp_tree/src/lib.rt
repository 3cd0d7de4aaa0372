//! Expansion trees with shared parts, and the flat lists by which they are written, after Miller (1987).
#![tactic(auto)]

mod building;
mod checked;
mod counts;
mod deep_formulas;
mod expansion;
mod facts;
mod flat;
mod flat_insts;
pub mod laws;
mod merging;
mod node_keys;
mod nodes;
mod reading;
mod reading_lists;
mod roots;
mod sequent_formulas;
mod sequents;
mod sorting;
mod table;
mod writing;

pub use checked::CheckedExp;
pub use counts::count_instances;
pub use deep_formulas::{deep, other};
pub use expansion::{Exp, ExpRoot, Inst};
pub use flat::{ExpNode, FlatExp, NodeCause, NodesFault, RootCause};
pub use flat_insts::FlatInsts;
pub use merging::merge;
pub use nodes::ExpNodes;
pub use reading_lists::read_nodes;
pub use sequent_formulas::{
    deep_sequent, push_strongs, push_strongs_in, shallow_sequent, strong_vars,
};
pub use sequents::{ExpSequent, Exps};
pub use writing::write_nodes;
