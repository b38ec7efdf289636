use crate::block::ValueType;
use ddl_base::{Span, Why};
use ddl_core::Operation;
use ddl_ops::Pattern;
use ddl_types::{Fault, Ty};

/// An instruction. Values and blocks are named by their numbers.
#[derive(Drop)]
pub enum Instr {
    /// An operation on values or on the stream, with the type of its result.
    Do {
        operation: Operation,
        arguments: Vec<u32>,
        of: ValueType,
        span: Span,
        /// The declarations in which it stands, outermost first.
        opened: Vec<u32>,
        targets: Targets,
    },
    /// The array of a builder.
    Build(u32),
    /// The number of the first pattern that the value has, or how many there are where it has none.
    Choose {
        value: u32,
        patterns: Vec<Pattern>,
    },
    /// The content of a value that has the pattern, of this type; where it has another one, on at the other block.
    Content {
        value: u32,
        pattern: Pattern,
        of: Ty,
        other: u32,
    },
    /// A new thread, suspended, at this block with these values and the present stream and continuation. The result is its
    /// number where it is the right side of a biased choice.
    Spawn {
        block: u32,
        arguments: Vec<u32>,
        biased: bool,
    },
    /// The thread of this number is to end when its turn comes.
    Notify(u32),
    /// One reference to a value more. It is not counted.
    Dup(u32),
    /// One reference to a value less. It is not counted.
    Free(u32),
    /// A failure at the present stream.
    Note {
        why: Why,
        span: Span,
        /// The declarations in which it stands, outermost first.
        opened: Vec<u32>,
    },
}

/// Where an operation goes on that has no result, with the values of its block.
#[derive(Drop)]
pub struct Targets {
    /// The block for its failure, where it may fail.
    pub fail: Option<u32>,
    /// A block for each fault that it may have.
    pub faults: Vec<FaultTarget>,
}

/// The block for a fault.
#[derive(Drop)]
pub struct FaultTarget {
    pub fault: Fault,
    pub block: u32,
}

/// The end of a block.
#[derive(Drop)]
pub enum End {
    /// On at a block with these values.
    Jump {
        block: u32,
        arguments: Vec<u32>,
    },
    /// On at the one or the other block, by a truth value.
    Branch {
        value: u32,
        truth: u32,
        other: u32,
    },
    /// On at the block of this number in the list.
    Switch {
        value: u32,
        blocks: Vec<u32>,
    },
    /// A function at these values; each of its results goes on at a block, after the values that are kept.
    Call {
        function: u32,
        arguments: Vec<u32>,
        block: u32,
        keep: Vec<u32>,
        /// The declarations in which it stands, outermost first.
        opened: Vec<u32>,
    },
    /// A value goes back to where the function was called; from the first one it is a parse.
    Return(u32),
    /// The thread ends.
    Fail,
    /// The whole run ends.
    Halt {
        fault: Fault,
        span: Span,
    },
}
