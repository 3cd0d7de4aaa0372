//! Windows of tasks run by workers: a board on which workers take and put tasks in turns, and a call that runs a whole window.
#![tactic(auto)]

mod boards;
mod events;
mod gates;
mod given;
mod laws;
mod progress;
mod records;
mod runners;
mod slates;
mod tasks;
mod tickets;
mod windows;
mod workers;

pub use boards::{Board, BoardOf, BoardPass};
pub use events::Event;
pub use gates::{Gate, NoGate};
pub use laws::board_laws;
pub use runners::Runner;
pub use slates::Slate;
pub use tasks::{Need, Task};
pub use tickets::Ticket;
pub use windows::run_window;
