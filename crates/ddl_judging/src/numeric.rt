//! Whether demands on types of numbers hold, and on what is compared or gone over.

ghost use Rattle.std.specs.Prelude.{◌≡◌, ◌+◌, ◌^◌, nat_le, nat_lt, IfOk};
ghost use Rattle.ddl_types.specs.Types.{on, Ty.con, Tys.none, Head.uint};
ghost use Rattle.ddl_types.specs.TyView.{ty_view};
ghost use Rattle.ddl_unify.specs.State.{solution};
ghost use Rattle.ddl_judging.specs.Judging.{false_for, if_true, not_number, literal_range, width_range, number};
ghost use Rattle.ddl_judging.specs.Judging.{word_type, literal, comparable, joined, looped};
ghost use Rattle.ddl_judging.specs.VerdictView.{verdict_view};
ghost use Rattle.ddl_judging.specs.declared.refusal.Wanted.TheVariants as wanted;

use crate::judging::Verdict;
use crate::known::is_known;
use crate::refusal::{Wanted, Wrong};
use ddl_base::NoMemory;
use ddl_types::Ty;
use ddl_unify::Solver;

/// It is false, since the type is not what is wanted.
fn not_number(solver: &Solver, t: &Ty, wanted: Wanted) -> Result<Verdict, NoMemory>
    ensures { IfOk result (λ v. verdict_view v
        ≡ false_for (not_number (on (ty_view t.now) (solution solver.now)) wanted)) }
{
    let of = solver.read(t)?;
    Ok(Verdict::False(Wrong::NotNumber { of, wanted }))
}

/// `int`, a `uint` or a `sint`.
#[tactic(auto, using(ddl_types::proofs::TyLayers::layers))]
pub(crate) fn number(solver: &Solver, t: &Ty) -> Result<Verdict, NoMemory>
    ensures { IfOk result (λ v. verdict_view v ≡ number (on (ty_view t.now) (solution solver.now))) }
{
    match solver.head(t) {
        Ty::Var(_) => Ok(Verdict::Undecided),
        Ty::Int | Ty::Uint(_) | Ty::Sint(_) => Ok(Verdict::Holds),
        _ => not_number(solver, t, Wanted::Number),
    }
}

/// A `uint`.
#[tactic(auto, using(ddl_types::proofs::TyLayers::layers))]
pub(crate) fn word(solver: &Solver, t: &Ty) -> Result<Verdict, NoMemory>
    ensures { IfOk result (λ v. verdict_view v ≡ word_type (on (ty_view t.now) (solution solver.now))) }
{
    match solver.head(t) {
        Ty::Var(_) => Ok(Verdict::Undecided),
        Ty::Uint(_) => Ok(Verdict::Holds),
        _ => not_number(solver, t, Wanted::Word),
    }
}

/// What can be compared.
#[tactic(auto, using(ddl_types::proofs::TyLayers::layers))]
pub(crate) fn comparable(solver: &Solver, t: &Ty) -> Result<Verdict, NoMemory>
    ensures { IfOk result (λ v. verdict_view v ≡ comparable (on (ty_view t.now) (solution solver.now))) }
{
    match solver.head(t) {
        Ty::Var(_) => Ok(Verdict::Undecided),
        Ty::Int | Ty::Uint(_) | Ty::Sint(_) | Ty::Bool | Ty::Array(_) => Ok(Verdict::Holds),
        Ty::Unit | Ty::Stream | Ty::Maybe(_) | Ty::Map(_, _) | Ty::Bits(_) | Ty::Place(_, _) => {
            not_number(solver, t, Wanted::Key)
        }
    }
}

/// What a loop can go over.
#[tactic(auto, using(ddl_types::proofs::TyLayers::layers))]
pub(crate) fn looped(solver: &Solver, t: &Ty) -> Result<Verdict, NoMemory>
    ensures { IfOk result (λ v. verdict_view v ≡ looped (on (ty_view t.now) (solution solver.now))) }
{
    match solver.head(t) {
        Ty::Var(_) => Ok(Verdict::Undecided),
        Ty::Array(_) | Ty::Map(_, _) => Ok(Verdict::Holds),
        _ => not_number(solver, t, Wanted::Loop),
    }
}

/// Whether a number is below a power of two.
fn is_below_power(number: u128, exponent: u8) -> bool
    ensures { result ≡ nat_lt number (2 ^ exponent) }
{
    if exponent >= 128 {
        return true;
    }
    number >> exponent == 0
}

/// It holds where the number is below a power of two, and else the number is out of the type's range.
fn in_range(solver: &Solver, number: u128, t: &Ty, exponent: u8) -> Result<Verdict, NoMemory>
    ensures { IfOk result (λ v. verdict_view v
        ≡ if_true (nat_lt number (2 ^ exponent)) (literal_range number (on (ty_view t.now) (solution solver.now)))) }
{
    if is_below_power(number, exponent) {
        return Ok(Verdict::Holds);
    }
    out_of_range(solver, number, t)
}

/// The number is out of the type's range.
fn out_of_range(solver: &Solver, number: u128, t: &Ty) -> Result<Verdict, NoMemory>
    ensures { IfOk result (λ v. verdict_view v
        ≡ false_for (literal_range number (on (ty_view t.now) (solution solver.now)))) }
{
    let of = solver.read(t)?;
    Ok(Verdict::False(Wrong::LiteralRange { number, of }))
}

/// A type of numbers with this one in its range.
#[tactic(auto, using(ddl_types::proofs::TyLayers::layers))]
pub(crate) fn literal(solver: &Solver, number: u128, t: &Ty) -> Result<Verdict, NoMemory>
    ensures { IfOk result (λ v. verdict_view v ≡ literal number (on (ty_view t.now) (solution solver.now))) }
{
    match solver.head(t) {
        Ty::Var(_) => Ok(Verdict::Undecided),
        Ty::Int => in_range(solver, number, t, 127),
        Ty::Uint(width) => in_range(solver, number, t, *width),
        Ty::Sint(width) => in_range(solver, number, t, width.saturating_sub(1)),
        _ => out_of_range(solver, number, t),
    }
}

/// Two widths that are at most 128 together.
fn in_width(left: u8, right: u8) -> Verdict
    ensures { verdict_view result ≡ if_true (nat_le (left + right) 128) (width_range (left + right)) }
{
    let number = u32::from(left) + u32::from(right);
    if number <= 128 {
        Verdict::Holds
    } else {
        Verdict::False(Wrong::WidthRange { number })
    }
}

/// Two `uint`s of at most 128 bits together.
#[tactic(auto, using(ddl_types::proofs::TyLayers::layers))]
pub(crate) fn joined(solver: &Solver, left: &Ty, right: &Ty) -> Result<Verdict, NoMemory>
    ensures { IfOk result (λ v. verdict_view v
        ≡ joined (on (ty_view left.now) (solution solver.now)) (on (ty_view right.now) (solution solver.now))) }
{
    match solver.head(left) {
        Ty::Var(_) => Ok(Verdict::Undecided),
        Ty::Uint(width) => joined_after(solver, *width, right),
        _ => joined_to(solver, left, right),
    }
}

/// A `uint` after one of this width.
#[tactic(auto, using(ddl_types::proofs::TyLayers::layers))]
fn joined_after(solver: &Solver, width: u8, right: &Ty) -> Result<Verdict, NoMemory>
    ensures { IfOk result (λ v. verdict_view v
        ≡ joined (con (uint width) none) (on (ty_view right.now) (solution solver.now))) }
{
    match solver.head(right) {
        Ty::Var(_) => Ok(Verdict::Undecided),
        Ty::Uint(other) => Ok(in_width(width, *other)),
        _ => not_number(solver, right, Wanted::Word),
    }
}

/// A type after one that is known to be no `uint`.
#[tactic(auto, using(crate::proofs::JoinedWords::joined_unknown, crate::proofs::JoinedWords::joined_known))]
fn joined_to(solver: &Solver, left: &Ty, right: &Ty) -> Result<Verdict, NoMemory>
    requires { word_type (on (ty_view left.now) (solution solver.now))
        ≡ false_for (not_number (on (ty_view left.now) (solution solver.now)) wanted.Word) }
    ensures { IfOk result (λ v. verdict_view v
        ≡ joined (on (ty_view left.now) (solution solver.now)) (on (ty_view right.now) (solution solver.now))) }
{
    if !is_known(solver, right) {
        return Ok(Verdict::Undecided);
    }
    not_number(solver, left, Wanted::Word)
}
