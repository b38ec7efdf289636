ghost use Rattle.ddl_exact.specs.OneNames.{OneNames, OneResolved};
ghost use Rattle.ddl_exact.specs.OneSource.{OneSource, SomeSource};

/// The law of texts: each text has a tree, or its first error of tokens, or a token that no module goes on with,
/// or one with which each module nests too deep. These exclude each other, and of each a text has at most one. So
/// what is answered of a text is told by the text alone, unless memory runs out. There is nothing to run.
pub fn source_law()
    ensures one { OneSource }
    ensures some { SomeSource }
{}

/// The law of names: bound uses and the first refusal exclude each other, and of each modules have at most one.
/// It is told by their names, their trees and the places of their imports, unless memory runs out. The same holds
/// of the modules that are kept with their uses. There is nothing to run.
pub fn names_law()
    ensures one { OneNames }
    ensures kept { OneResolved }
{}
