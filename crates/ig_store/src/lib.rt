//! The outside as the product sees it: stores of files under a rule, sinks that take text, clocks; and each of them
//! in memory, for tests and rehearsals. It stands on paths (`ig_space`) and on the definitions of files and logs
//! (`ig_defs`). Its contracts say what each call adds to the log, and that a fault has a cause.
#![tactic(auto)]

mod clock;
mod fails;
mod files;
mod listing;
mod mem_clock;
mod mem_sink;
mod mem_store;
mod rule;
mod sink;
mod steps;
mod store;

pub use clock::Clock;
pub use fails::{Fail, Fails};
pub use files::FileMap;
pub use ig_defs::{Act, Step, StoreError};
pub use ig_space::{Bytes, Names, Path, Paths, Text};
pub use mem_clock::MemClock;
pub use mem_sink::MemSink;
pub use mem_store::MemStore;
pub use rule::Rule;
pub use sink::{Sink, SinkFault};
pub use steps::Steps;
pub use store::Store;
