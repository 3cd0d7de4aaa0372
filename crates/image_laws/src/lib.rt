//! Proofs of refutations under maps: what each step derives, the proofs of input clauses under a map, and two maps in a row as one.
#![tactic(auto)]

pub mod laws;
