//! The server: it reads jobs, one a line, and writes a reply to each.
#![tactic(auto)]

mod bundles;
mod command;
mod counts;
mod ending;
mod generating;
pub mod laws;
mod notes;
mod parts;
mod running;
mod serving;
mod session;
mod writing;

pub use bundles::EndedSessions;
pub use command::{serve, serve_on, top};
pub use ending::Ended;
pub use held_values::Held;
pub use job_workers::{Gate, NoGate};
pub use operations::answer;
pub use parts::{Done, serve_parts};
