//! The outside of the program: where bytes come from, where they go, and who may look in between.
//!
//! A source and a sink tell their bytes where they can, and count their faults; every promise about reading
//! and writing speaks of these two. The rules are those of this project's own profile (docs/platform.md).
#![tactic(auto)]

mod memory;
mod outside;
mod standard;
mod whole;

pub use memory::{MemSink, MemSource};
pub use outside::{Gate, OpenGate, Pulled, Pushed, Sink, Source, Who};
pub use standard::{StdSink, StdSource};
pub use whole::{ReadFault, WriteFault, read_all, write_all};
