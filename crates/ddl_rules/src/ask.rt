//! What forms ask of types.

use ddl_base::Span;
use ddl_judging::Demand;
use ddl_types::Ty;

/// What is asked of types, and where.
#[derive(Drop)]
pub enum Ask {
    /// Two types that have to be one, the first being what is wanted.
    Equates { wanted: Ty, has: Ty, span: Span },
    Demands { what: Demand, span: Span },
}
