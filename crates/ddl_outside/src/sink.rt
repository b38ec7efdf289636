ghost use Rattle.std.specs.Prelude.{◌<◌, length};
ghost use Rattle.ddl_outside.specs.Sink.{SinkState, IsTook};

/// What a write took.
#[derive(Clone, Copy, PartialEq, Eq)]
pub enum Took {
    /// So many of the first bytes, at least one.
    Took(usize),
    /// The call failed, and took nothing.
    Failed,
}

/// What a write was offered, where it took some of it.
#[derive(Clone, Copy, PartialEq, Eq)]
pub struct Offer {
    /// So many bytes it took.
    pub took: usize,
    /// So many more it was offered.
    pub left: usize,
}

/// Where bytes are written to, each behind those before.
pub trait Sink {
    /// What contracts know of the sink: what was written, what each write was offered, what the sink still takes, and what
    /// went wrong.
    ghost state: { Self → SinkState };

    /// Writes some of the first bytes of a piece.
    fn write(&mut self, piece: &[u8]) -> Took
        requires { 0 < length piece.now }
        ensures answer { IsTook (state self.old) (state self.new) piece.now result };
}
