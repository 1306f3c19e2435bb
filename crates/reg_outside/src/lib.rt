//! Sources, sinks and wires of the outside, whose faults are counted: a call fails only where its object's count rose.
#![tactic(auto)]

mod failed;
mod lab;
pub mod laws;
mod mem_lab;
mod mem_sink;
mod mem_source;
mod mem_wire;
mod null_lab;
mod planned;
mod schedule;
mod sink;
mod source;
mod std_sink;
mod std_source;
mod wire;

pub use failed::Failed;
pub use lab::Lab;
pub use mem_lab::MemLab;
pub use mem_sink::MemSink;
pub use mem_source::MemSource;
pub use mem_wire::MemWire;
pub use null_lab::{NullLab, NullWire};
pub use planned::Planned;
pub use sink::Sink;
pub use source::Source;
pub use std_sink::StdSink;
pub use std_source::StdSource;
pub use wire::{Mask, Wire};
