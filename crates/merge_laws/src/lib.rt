//! Extraction and merging of expansion trees, after Miller (1987): the trees of united marks are merged trees. The laws of it.
#![tactic(auto)]

pub mod laws;
