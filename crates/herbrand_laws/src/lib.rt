//! Herbrand sequents, after Herbrand (1930), and introduction of cuts by them, after Hetzl, Leitsch, Reis and Weller (2014), with their laws.
#![tactic(auto)]

pub mod laws;
