//! Lines in, bytes out: sources and sinks of bytes whose faults are counted, a reader of lines and a
//! write that goes on until all is written.
#![tactic(auto)]

mod ends;
mod lines;
mod memory;
mod never;
mod next;
mod reader;
mod std_ends;

pub use ends::{Failed, Partial, Sink, Source, write_whole};
pub use memory::{MemSink, MemSource};
pub use never::{NeverSink, NeverSource};
pub use next::{Next, next_line};
pub use reader::LineReader;
pub use std_ends::{StdSink, StdSource};
