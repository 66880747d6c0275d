//! What lies outside the program: the store that holds the objects of an array, and the streams
//! that are read and written, each with an implementation in memory.
#![tactic(auto)]

mod bytes;
mod call;
mod clock;
mod enter;
mod fate;
mod journal;
mod memory;
mod objects;
mod recorder;
mod store;
mod streams;

pub use bytes::SharedBytes;
pub use call::{Call, Made, Reply, StoreError};
pub use clock::{Clock, FixedClock};
pub use enter::enter_call;
pub use fate::{Fate, Fault, FaultList};
pub use journal::{Entry, Journal};
pub use memory::MemStore;
pub use recorder::Recorder;
pub use store::{Store, apply};
pub use streams::{
    Failed, InputFault, MemSink, MemSource, READ_LIMIT, Sink, Source, read_input, write_all,
};
