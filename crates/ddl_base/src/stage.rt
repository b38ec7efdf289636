/// The step of reading a specification that refuses it, in the order in which they are taken.
#[derive(Clone, Copy, PartialEq, Eq)]
pub enum Stage {
    /// Modules with their imports.
    Load,
    /// Bytes to tokens.
    Lex,
    /// Tokens to a tree.
    Syntax,
    /// Uses of names to their bindings.
    Names,
    /// Inference of types.
    Types,
    /// Layouts of bit data.
    Bits,
    /// The copies that the entry needs.
    Spec,
}
