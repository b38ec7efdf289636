use crate::{Cls, Expr, Name, Number, TypeExpr};
use ddl_base::Span;

/// A declaration of a module.
#[derive(Drop)]
pub enum Decl {
    /// `def P a b : t = e`
    Grammar {
        name: Name,
        params: Vec<Param>,
        result: Option<TypeExpr>,
        body: Expr,
        span: Span,
    },
    /// `def f a b : t = e`
    Value {
        name: Name,
        params: Vec<Param>,
        result: Option<TypeExpr>,
        body: Expr,
        span: Span,
    },
    /// `def $c = class`
    Class {
        name: Name,
        body: Cls,
        span: Span,
    },
    /// `bitdata B = bits`
    Bits {
        name: Name,
        bits: Bits,
        span: Span,
    },
    /// `bitdata B where { c = bits; d = bits }`
    BitsUnion {
        name: Name,
        cons: Vec<Con>,
        span: Span,
    },
}

/// A parameter of a declaration.
#[derive(Drop)]
pub enum Param {
    Upper(Name),
    Lower(Name),
    Class(Name),
    /// `(P : t)`
    TypedUpper {
        name: Name,
        of: TypeExpr,
        span: Span,
    },
    /// `(x : t)`
    TypedLower {
        name: Name,
        of: TypeExpr,
        span: Span,
    },
}

/// A constructor of a bitdata with several.
#[derive(Drop)]
pub struct Con {
    pub name: Name,
    pub bits: Bits,
    pub span: Span,
}

/// The layout of a bitdata or of one of its constructors.
#[derive(Drop)]
pub enum Bits {
    /// A number in base 2 or 16.
    Exactly(Number),
    /// `{ part, part }`
    Parts { parts: Vec<Part>, span: Span },
}

/// A part of a layout.
#[derive(Drop)]
pub enum Part {
    /// A number in base 2 or 16.
    Fixed(Number),
    /// `x : t`
    Named {
        name: Name,
        of: TypeExpr,
        span: Span,
    },
    /// `_ : t`
    Unnamed {
        of: TypeExpr,
        span: Span,
    },
}

impl Decl {
    ghost use Rattle.std.specs.Prelude.{◌≡◌};
    ghost use Rattle.ddl_tree.specs.ModuleTree.{decl_span};
    ghost use Rattle.ddl_tree.specs.ViewModule.{decl_view};

    /// From its first byte to its last.
    pub fn span(&self) -> Span
        ensures { result ≡ decl_span (decl_view self.now) }
    {
        match self {
            Decl::Grammar { span, .. }
            | Decl::Value { span, .. }
            | Decl::Class { span, .. }
            | Decl::Bits { span, .. }
            | Decl::BitsUnion { span, .. } => *span,
        }
    }
}

impl Param {
    ghost use Rattle.std.specs.Prelude.{◌≡◌};
    ghost use Rattle.ddl_tree.specs.ModuleTree.{param_span};
    ghost use Rattle.ddl_tree.specs.ViewModule.{param_view};

    /// From its first byte to its last.
    pub fn span(&self) -> Span
        ensures { result ≡ param_span (param_view self.now) }
    {
        match self {
            Param::Upper(name) | Param::Lower(name) | Param::Class(name) => name.span,
            Param::TypedUpper { span, .. } | Param::TypedLower { span, .. } => *span,
        }
    }
}

impl Con {
    ghost use Rattle.std.specs.Prelude.{◌≡◌};

    /// From its first byte to its last.
    pub fn span(&self) -> Span
        ensures { result ≡ self.now.span }
    {
        self.span
    }
}

impl Bits {
    ghost use Rattle.std.specs.Prelude.{◌≡◌};
    ghost use Rattle.ddl_tree.specs.ModuleTree.{bits_span};
    ghost use Rattle.ddl_tree.specs.ViewModule.{bits_view};

    /// From its first byte to its last.
    pub fn span(&self) -> Span
        ensures { result ≡ bits_span (bits_view self.now) }
    {
        match self {
            Bits::Exactly(number) => number.span,
            Bits::Parts { span, .. } => *span,
        }
    }
}

impl Part {
    ghost use Rattle.std.specs.Prelude.{◌≡◌};
    ghost use Rattle.ddl_tree.specs.ModuleTree.{part_span};
    ghost use Rattle.ddl_tree.specs.ViewModule.{part_view};

    /// From its first byte to its last.
    pub fn span(&self) -> Span
        ensures { result ≡ part_span (part_view self.now) }
    {
        match self {
            Part::Fixed(number) => number.span,
            Part::Named { span, .. } | Part::Unnamed { span, .. } => *span,
        }
    }
}
