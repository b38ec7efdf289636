use crate::{Decl, Name};
use ddl_base::{Bytes, Span};

/// A module, as its tokens say.
#[derive(Drop)]
pub struct Module {
    pub imports: Vec<Import>,
    pub decls: Vec<Decl>,
}

/// `import Name`. The span holds both words, the name has its own.
#[derive(Drop)]
pub struct Import {
    pub name: Name,
    pub span: Span,
}

/// A loaded module, with the places of those that it imports in the list of loaded modules.
#[derive(Drop)]
pub struct SourceUnit {
    pub name: Bytes,
    pub tree: Module,
    pub imports: Vec<u32>,
}

impl Import {
    ghost use Rattle.std.specs.Prelude.{◌≡◌};

    /// From its first byte to its last.
    pub fn span(&self) -> Span
        ensures { result ≡ self.now.span }
    {
        self.span
    }
}
