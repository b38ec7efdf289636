//! What every crate shares: want of memory, lists of bytes, places in a module, names with numbers, counts, and what a refusal shows.
#![tactic(auto)]

mod bytes;
mod memory;
mod names;
mod span;
mod stage;
mod steps;
mod told;
mod why;

pub use bytes::Bytes;
pub use memory::NoMemory;
pub use names::Names;
pub use span::Span;
pub use stage::Stage;
pub use steps::Steps;
pub use told::Told;
pub use why::Why;
