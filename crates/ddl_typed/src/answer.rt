use ddl_base::{Span, Why};
use ddl_types::{Fault, Plain};

/// What is told of an entry on an input: its parses in order, and how it closes.
#[derive(Drop)]
pub struct Answer {
    pub parses: Vec<Parse>,
    pub closing: Close,
}

/// One parse.
#[derive(Drop)]
pub struct Parse {
    pub value: Plain,
    /// The place after the parse, in the bytes of its own stream.
    pub end: u64,
    /// Whether that stream is one of the input.
    pub in_input: bool,
}

/// How an answer closes.
#[derive(Clone, Copy, PartialEq, Eq)]
pub enum Close {
    /// After at least one parse.
    Parses,
    /// Without a parse, by the best failure.
    Failed(Failure),
    /// By a fault, which may come after parses.
    Faulted(Fault, Span),
}

/// Why and where there was no parse, and the form that said so.
#[derive(Clone, Copy, PartialEq, Eq)]
pub struct Failure {
    pub why: Why,
    /// Whether `at` is a place in the input.
    pub in_input: bool,
    /// The place, in the bytes of the form's stream.
    pub at: u64,
    pub span: Span,
}
