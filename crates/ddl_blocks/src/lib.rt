//! Blocks of instructions, and the definition of the machine that runs them.
#![tactic(auto)]

mod block;
mod code;
mod instr;
mod laws;

pub use block::{Block, Function, ValueType};
pub use code::Code;
pub use instr::{End, FaultTarget, Instr, Targets};
pub use laws::{budget_law, numbers_law, operations_law};
