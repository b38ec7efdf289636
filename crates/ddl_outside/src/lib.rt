//! What lies outside the program: files that are read by name, and a sink that is written to.
#![tactic(auto)]

mod files;
mod filling;
mod host_files;
mod host_out;
mod mem_files;
mod mem_sink;
mod named;
mod refusal;
mod sink;
mod whole_file;
mod writing;

pub use files::{Files, Length, Piece};
pub use filling::{Filled, fill};
pub use host_files::HostFiles;
pub use host_out::HostOut;
pub use mem_files::MemFiles;
pub use mem_sink::MemSink;
pub use refusal::Refusal;
pub use sink::{Offer, Sink, Took};
pub use whole_file::{Whole, read_whole};
pub use writing::{Written, write_lines, write_whole};
