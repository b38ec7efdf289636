//! What the program does with the words of its command line.
#![tactic(auto)]

mod answer;
mod checking;
mod command;
mod laws;
mod loading;
mod names;
mod refusal;
mod running;
mod showing;
mod status;

pub use command::run;
pub use laws::table_law;
pub use status::Status;
