//! Why an elimination gave up.
use thiserror::Error;

/// Why an elimination gave up.
#[derive(Debug, Drop, Error)]
pub enum ElimFault {
    /// After as many contractions as the budget allows a cut is left.
    #[error("out of budget")]
    Budget,
    /// There was no memory for a new inference or for the table.
    #[error("out of memory")]
    Memory,
}
