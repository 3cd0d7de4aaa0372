/// How a session ended.
#[derive(Clone, Copy, PartialEq, Eq)]
pub enum Ended {
    /// The input was read to its end and all replies were written; true where none of them is an error.
    Done(bool),
    /// Reading failed.
    ReadFault,
    /// Writing or flushing failed.
    WriteFault,
    /// Memory ran out.
    Memory,
    /// The input is longer than a session may read.
    InputFull,
}
