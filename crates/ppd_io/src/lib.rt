//! Bytes in and out: where they are read, written and kept by name, with counts of faults, over the system; a source of
//! bytes in memory; and the lines of a source.
#![tactic(auto)]

mod adapters;
mod bytes;
mod gate;
mod host;
mod lines;
mod put;
mod shelf;
mod sink;
mod source;
mod steady;

pub use adapters::{Counted, StdSink, StdSource};
pub use bytes::CHUNK_BYTES;
pub use gate::{FreeGate, Gate};
pub use host::HostShelf;
pub use lines::{LineError, LineReader};
pub use put::put_all;
pub use shelf::{Shelf, ShelfError};
pub use sink::{Failed, Sink};
pub use source::Source;
pub use steady::SteadySource;
