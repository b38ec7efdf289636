//! Numbers, faults, types and printable values, and the definitions of values, streams and outcomes.
#![tactic(auto)]

mod changing;
mod cond;
mod fault;
mod laws;
mod leaves;
mod num;
mod plain;
mod scheme;
mod substitution;
mod ty;

pub use changing::{Change, changed_cond};
pub use cond::Cond;
pub use fault::Fault;
pub use laws::keeping_law;
pub use leaves::{Leaves, mapped, mapped_all};
pub use num::{Num, NumType};
pub use plain::Plain;
pub use scheme::{Instance, Scheme};
pub use substitution::{apply, apply_cond, instance};
pub use ty::Ty;
