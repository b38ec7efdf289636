//! Layouts of bits: which numbers a bitdata has, and which of its constructors each fits.
#![tactic(auto)]

mod below;
mod checked;
mod clash;
mod common;
mod counts;
mod coverage;
mod cuts;
mod error;
mod fitting;
mod flow;
mod layout;
mod leaves;
mod marks;
mod meeting;
mod one_width;
mod overlap;
mod places;
mod ranges;
mod stepping;
mod verdict;
mod widths;

pub use checked::{Checked, fits};
pub use coverage::covered;
pub use error::{BitError, Gap};
pub use layout::{Layout, LayoutCon, LayoutPart};
pub use verdict::check;
