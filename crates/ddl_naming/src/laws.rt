ghost use Rattle.ddl_naming.specs.Declarations.{TakesGrammars, TakesValues};
ghost use Rattle.ddl_naming.specs.Laws.{TakesClasses, TakesTypes, TakesUses};

/// In each reading of a type or of a class, and in each typing of an expression, each name has its own use next,
/// and what follows those that are found in it is left. Of a declaration the header takes its own, then the body,
/// and none is left. There is nothing to run.
pub fn named_law()
    ensures types { TakesTypes }
    ensures classes { TakesClasses }
    ensures forms { TakesUses }
    ensures grammars { TakesGrammars }
    ensures values { TakesValues }
{}
