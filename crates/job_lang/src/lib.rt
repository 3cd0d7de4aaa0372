//! Reading jobs: a job is a line of JSON.
#![tactic(auto)]

mod budgets;
mod definitions;
mod expansions;
mod formulas;
mod jobs;
pub mod laws;
mod maps;
mod numbers;
mod places;
mod problems;
mod reading;
mod resolutions;
mod round_numbers;
mod rules;
mod sequents;
mod steps;
mod widths;

pub use budgets::Budget;
pub use jobs::{Job, JobError, Op, read_job};
pub use maps::FormedMap;
pub use places::Place;
pub use reading::ReadError;
pub use resolutions::ResSteps;
pub use round_numbers::RoundNumber;
pub use widths::Width;
