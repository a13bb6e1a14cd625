//! The outside of the host: sources, sinks, links and gates, each with a count of its faults, and lines from a source that gives its
//! bytes in pieces (profile).
#![tactic(auto)]

mod buffer;
mod bytes;
mod crash;
mod dial;
mod file_in;
mod file_out;
mod frame_sink;
mod gate;
mod keep;
pub mod laws;
mod link;
mod mem_dial;
mod mem_link;
mod plan;
mod plan_gate;
mod plan_sink;
mod plan_source;
mod plan_store;
mod reader;
mod sink;
mod source;
mod store;

pub use buffer::find_byte;
pub use bytes::Bytes;
pub use crash::Crash;
pub use dial::Dial;
pub use file_in::FileIn;
pub use file_out::FileOut;
pub use frame_sink::FrameSink;
pub use gate::{Gate, Next};
pub use keep::Keep;
pub use link::Link;
pub use mem_dial::MemDial;
pub use mem_link::MemLink;
pub use plan_gate::PlanGate;
pub use plan_sink::PlanSink;
pub use plan_source::PlanSource;
pub use plan_store::PlanStore;
pub use reader::{Found, LineReader};
pub use sink::{Sink, Wrote};
pub use source::{Got, Source};
pub use store::{Opened, Store};
pub use wire_num::OutOfMemory;
