use crate::instr::{End, Instr};
use ddl_types::Ty;

/// The type of a value of a block.
#[derive(Drop)]
pub enum ValueType {
    Of(Ty),
    /// An array of elements of this type that still grows.
    Builder(Ty),
    /// The number of a thread.
    Thread,
}

/// A function. Its first block is its beginning.
#[derive(Drop)]
pub struct Function {
    /// How many values it takes: those that its first block begins with.
    pub params: u32,
    pub blocks: Vec<Block>,
    pub result: ValueType,
    /// The declaration whose copy it is.
    pub name: Option<u32>,
}

/// Instructions in a row. The values are numbered: first those that the block begins with, then the result of each
/// instruction that has one.
#[derive(Drop)]
pub struct Block {
    pub params: Vec<ValueType>,
    pub body: Vec<Instr>,
    pub end: End,
}
