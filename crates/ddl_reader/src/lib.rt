//! The grammar's laws, and the machine that reads a module token by token.
#![tactic(auto)]

mod law;

pub use law::{
    machine_knows_the_least_depth, machine_reads_modules_exactly, prints_tell_modules_apart,
};
