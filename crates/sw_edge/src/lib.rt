// The program's outside: where bytes come from and go to, and the transfer of whole texts.
#![tactic(auto)]

pub mod edge;
pub mod memory;
pub mod standard;
pub mod transfer;

pub use edge::{Gate, Got, Put, Sink, Source};
pub use memory::{MemSink, MemSource, Turn};
pub use standard::{OpenGate, StdSink, StdSource};
pub use transfer::{ReadError, WriteFault, read_all, write_all};
