//! Why a line isn't read.
use crate::texts::Utf8Text;
use tptp_problem::ProblemKind;
use tptp_tokens::TextFault;

/// Why a line isn't read as a job: its first fault in the order of reading.
#[derive(Drop)]
pub enum JobCause {
    /// The line has no JSON value.
    Json,
    /// A field is missing or of the wrong form.
    Field(Utf8Text),
    /// The operation is unknown.
    Op,
    /// The text of a formula or a term has a fault.
    Formula { field: Utf8Text, fault: TextFault },
    /// The text of a problem has a fault, at this byte of it.
    Tptp { at: u64, kind: ProblemKind },
}
