//! What lies outside the program: a source of bytes, a sink of bytes and a gate round each task, with implementations
//! in memory and over the readers and writers of std, and the calls that read and write a whole text.
#![tactic(auto)]

mod gate;
mod memory_sink;
mod memory_source;
mod outside;
mod plan;
mod standard;
mod whole;

pub use gate::{Gate, OpenGate};
pub use memory_sink::MemSink;
pub use memory_source::MemSource;
pub use outside::{Failed, Sink, Source};
pub use standard::{StdSink, StdSource};
pub use whole::{ReadEnd, read_all, write_all};
