//! What holds of the definitions alone.

ghost use Rattle.ddl_types.specs.Keeping.{KeepsItself, KeepsTwice, KeepsCut};

/// The laws of keeping: a meaning keeps itself; one that keeps a second one, which keeps a third one, keeps the third one
/// with the product of the factors; and what is kept is kept where both are cut before a parse that is too deep. There is
/// nothing to run.
pub fn keeping_law()
    ensures itself { KeepsItself }
    ensures twice { KeepsTwice }
    ensures cut { KeepsCut }
{}
