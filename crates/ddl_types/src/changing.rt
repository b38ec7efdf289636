//! Conditions with each of their types changed.

ghost use Rattle.std.specs.Prelude.{◌≡◌, IfOk};
ghost use Rattle.ddl_types.specs.Types as types;
ghost use Rattle.ddl_types.specs.TyView.{ty_view};
ghost use Rattle.ddl_types.specs.Conditions.{EachType, with_types};
ghost use Rattle.ddl_types.specs.CondView.{cond_view};

use crate::{Cond, Ty};
use ddl_base::{Bytes, NoMemory};
use std::alloc::Global;

/// What becomes of each type.
pub trait Change {
    ghost can: { Self → types.Ty → Type 0 };

    ghost to: { Self → types.Ty → types.Ty };

    /// What becomes of `t`.
    fn change(&self, alloc: Global, t: &Ty) -> Result<Ty, NoMemory>
        requires can { can self.now (ty_view t.now) }
        ensures { IfOk result (λ r. ty_view r ≡ to self.now (ty_view t.now)) };
}

/// A condition with each of its types changed.
pub fn changed_cond<C: Change>(alloc: Global, change: &C, cond: &Cond) -> Result<Cond, NoMemory>
    requires can { EachType (C.can change.now) (cond_view cond.now) }
    ensures { IfOk result (λ c. cond_view c ≡ with_types (C.to change.now) (cond_view cond.now)) }
{
    match cond {
        Cond::Num(t) => Ok(Cond::Num(change.change(alloc, t)?)),
        Cond::Word(t) => Ok(Cond::Word(change.change(alloc, t)?)),
        Cond::Lit { number, of } => Ok(Cond::Lit {
            number: *number,
            of: change.change(alloc, of)?,
        }),
        Cond::Key(t) => Ok(Cond::Key(change.change(alloc, t)?)),
        Cond::Lossless { from, to } => {
            let (from, to) = changed_two(alloc, change, from, to)?;
            Ok(Cond::Lossless { from, to })
        }
        Cond::Cut { from, to } => {
            let (from, to) = changed_two(alloc, change, from, to)?;
            Ok(Cond::Cut { from, to })
        }
        Cond::Fit { from, to } => {
            let (from, to) = changed_two(alloc, change, from, to)?;
            Ok(Cond::Fit { from, to })
        }
        Cond::Cat {
            left,
            right,
            result,
        } => {
            let (left, right, result) = changed_three(alloc, change, left, right, result)?;
            Ok(Cond::Cat {
                left,
                right,
                result,
            })
        }
        Cond::Field { of, name, result } => {
            let (of, name, result) = changed_named(alloc, change, of, name, result)?;
            Ok(Cond::Field { of, name, result })
        }
        Cond::Tag { of, name, result } => {
            let (of, name, result) = changed_named(alloc, change, of, name, result)?;
            Ok(Cond::Tag { of, name, result })
        }
        Cond::Loop { over, key, value } => {
            let (over, key, value) = changed_three(alloc, change, over, key, value)?;
            Ok(Cond::Loop { over, key, value })
        }
    }
}

fn changed_two<C: Change>(alloc: Global, change: &C, s: &Ty, t: &Ty) -> Result<(Ty, Ty), NoMemory>
    requires s { C.can change.now (ty_view s.now) }
    requires t { C.can change.now (ty_view t.now) }
    ensures first { IfOk result (λ r. ty_view r.0 ≡ C.to change.now (ty_view s.now)) }
    ensures second { IfOk result (λ r. ty_view r.1 ≡ C.to change.now (ty_view t.now)) }
{
    let first = change.change(alloc, s)?;
    Ok((first, change.change(alloc, t)?))
}

fn changed_three<C: Change>(
    alloc: Global,
    change: &C,
    s: &Ty,
    t: &Ty,
    u: &Ty,
) -> Result<(Ty, Ty, Ty), NoMemory>
    requires s { C.can change.now (ty_view s.now) }
    requires t { C.can change.now (ty_view t.now) }
    requires u { C.can change.now (ty_view u.now) }
    ensures first { IfOk result (λ r. ty_view r.0 ≡ C.to change.now (ty_view s.now)) }
    ensures second { IfOk result (λ r. ty_view r.1 ≡ C.to change.now (ty_view t.now)) }
    ensures third { IfOk result (λ r. ty_view r.2 ≡ C.to change.now (ty_view u.now)) }
{
    let (first, second) = changed_two(alloc, change, s, t)?;
    Ok((first, second, change.change(alloc, u)?))
}

fn changed_named<C: Change>(
    alloc: Global,
    change: &C,
    of: &Ty,
    name: &Bytes,
    member: &Ty,
) -> Result<(Ty, Bytes, Ty), NoMemory>
    requires of { C.can change.now (ty_view of.now) }
    requires member { C.can change.now (ty_view member.now) }
    ensures of { IfOk result (λ r. ty_view r.0 ≡ C.to change.now (ty_view of.now)) }
    ensures name { IfOk result (λ r. r.1 ≡ name.now) }
    ensures member { IfOk result (λ r. ty_view r.2 ≡ C.to change.now (ty_view member.now)) }
{
    let (of, member) = changed_two(alloc, change, of, member)?;
    Ok((of, Bytes::of(alloc, name.get())?, member))
}
