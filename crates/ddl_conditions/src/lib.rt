//! What conditions on types add to the equations of a group, and whether they hold.
#![tactic(auto)]

mod closing;
mod group;
mod keeping;
mod laws;
mod numbers;
mod settling;
mod standing;
mod walk;
mod written;

pub use ddl_growing::SettleError;
pub use ddl_judging::{Asked, BitsShape, Demand, Shapes, Wanted, Wrong};
pub use group::Group;
pub use laws::{given_law, growth_law};
pub use settling::settle;
