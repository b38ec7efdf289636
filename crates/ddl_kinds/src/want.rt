ghost use Rattle.std.specs.Prelude.{◌≡◌};
ghost use Rattle.ddl_kinds.specs.Kinds.{takes};

/// What a place wants of the form that stands there.
#[derive(Clone, Copy, PartialEq, Eq)]
pub enum Want {
    Grammar,
    Value,
    /// A grammar, or a value that counts as `^` of it.
    Free,
    /// A class, as the argument for a class parameter.
    Class,
    /// A text literal, as the argument of `Fail`.
    Text,
}

/// What a form may stand for.
#[derive(Clone, Copy, PartialEq, Eq)]
pub enum Form {
    Grammar,
    Value,
    /// A grammar or a value, as its parts are: `if`, `case`, `for`, `map`, and what has a written type.
    Either,
    /// What stands in parentheses.
    Group,
    /// A text: a grammar, or a value where one is wanted.
    Text,
    /// A class: a grammar, but for a class parameter.
    Class,
    /// The name of a bitdata: no expression.
    Bits,
}

impl Want {
    /// Whether a form of this sort may stand there.
    pub fn takes(self, form: Form) -> bool
        ensures { result ≡ takes self form }
    {
        match self {
            Want::Grammar => !matches!(form, Form::Value | Form::Bits),
            Want::Value => !matches!(form, Form::Grammar | Form::Class | Form::Bits),
            Want::Free => form != Form::Bits,
            Want::Class => matches!(form, Form::Class | Form::Group),
            Want::Text => form == Form::Text,
        }
    }
}
