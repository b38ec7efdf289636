//! What forms ask of types, and whether it holds.
#![tactic(auto)]

mod casts;
mod demand;
mod equality;
mod fields;
mod finding;
mod judging;
mod known;
mod numeric;
mod refusal;
mod same;
mod shapes;

pub use demand::{Asked, Demand};
pub use finding::{Member, bits_member, place_member};
pub use judging::{Verdict, judge};
pub use refusal::{Wanted, Wrong};
pub use shapes::{BitsShape, Shapes};
