//! The replies of a session as a function of its jobs, which the server's replies are proved to be, with the laws of what is answered.
#![tactic(auto)]

pub mod laws;
