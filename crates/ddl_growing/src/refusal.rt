//! Why the equations and conditions of a group are refused.

ghost use Rattle.std.specs.Prelude.{◌≡◌};
ghost use Rattle.ddl_growing.specs.declared.refusal.SettleError.TheVariants as error;

use ddl_base::{NoMemory, Span};
use ddl_judging::Wrong;
use ddl_types::Ty;

/// The first refusal of a group whose equations so far have a solution.
#[derive(Drop)]
pub enum SettleError {
    /// An equation that a condition adds has no solution, and is not endless: its two sides.
    Clash { span: Span, left: Ty, right: Ty },
    /// A variable that would be this larger type that holds it.
    Endless { span: Span, variable: u32, of: Ty },
    /// A condition is false.
    Wrong { span: Span, why: Wrong },
    /// A condition is neither true nor false, and is not kept.
    Unresolved { span: Span },
    NoMemory,
}

impl From<NoMemory> for SettleError {
    ghost from_gives = { λ _ e. e ≡ error.NoMemory };

    fn from(_error: NoMemory) -> Self {
        SettleError::NoMemory
    }
}
