ghost use Rattle.ddl_principal.specs.Laws.{IsPrincipal, IsTyping};

/// What is elaborated of a group is a typing of it, and the principal one. There is nothing to run.
pub fn principal_law()
    ensures typing { IsTyping }
    ensures principal { IsPrincipal }
{}
