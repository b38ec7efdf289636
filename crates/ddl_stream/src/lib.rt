//! Streams as ranges of bytes, and the input file.
#![tactic(auto)]

mod input;
mod laws;
mod range;

pub use ddl_slots::{Origin, SlotId, Stream};
pub use input::{GotByte, Input, OpenError};
pub use laws::agree_law;
pub use range::{at_end, drop, offset, take};
