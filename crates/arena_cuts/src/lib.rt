//! Contraction and elimination of cuts, after Gentzen (1935), over the numbers of an arena.
#![tactic(auto)]

mod above;
mod cases;
mod contraction;
mod cut;
mod elimination;
mod fault;
mod parts;
mod steps;
mod table;
mod whole;

pub use contraction::contract_in;
pub use elimination::eliminate_in;
pub use fault::ElimFault;
pub use steps::Steps;
pub use table::Reduced;
pub use whole::eliminate_whole_in;
