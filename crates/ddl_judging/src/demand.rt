//! What forms ask of types, beside equations.

use ddl_base::{Bytes, Span};
use ddl_types::{Cond, Ty};

/// What a form asks of types.
#[derive(Drop)]
pub enum Demand {
    /// A condition.
    Cond(Cond),
    /// Of `{| tag = e |}`: a union with this tag, whose content is of this type.
    Make {
        of: Ty,
        tag: Bytes,
        content: Ty,
    },
    /// Of a `map`: what it goes over, the names of its turns, and the array or map of its bodies.
    Gather {
        over: Ty,
        key: Ty,
        value: Ty,
        body: Ty,
        result: Ty,
    },
}

/// What is asked, and the place of the form that asks.
#[derive(Drop)]
pub struct Asked {
    pub what: Demand,
    pub span: Span,
}
