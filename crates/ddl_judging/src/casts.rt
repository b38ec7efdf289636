//! Whether demands on casts hold.

ghost use Rattle.std.specs.Prelude.{◌≡◌, ◌||◌, ◌==◌, IfOk, false, ◌&&◌};
ghost use Rattle.ddl_types.specs.Types.{on, Head.uint, Head.sint, Head.int, Head.bits};
ghost use Rattle.ddl_types.specs.TyView.{ty_view};
ghost use Rattle.ddl_unify.specs.State.{solution};
ghost use Rattle.ddl_judging.specs.Casts.{casting_view, casting_to, casting_at, number_type, bits_type, is_wide};
ghost use Rattle.ddl_judging.specs.Casts.{is_filled};
ghost use Rattle.ddl_judging.specs.Judging.{false_for, not_lossless, cutting, fitting, IsLossless, IsCast, IsEqual};
ghost use Rattle.ddl_judging.specs.Judging.{if_keeps, if_covered};
ghost use Rattle.ddl_judging.specs.Known.{is_known};
ghost use Rattle.ddl_judging.specs.Shapes.{bits_at};
ghost use Rattle.ddl_judging.specs.VerdictView.{verdict_view};
ghost use Rattle.ddl_judging.specs.Views.{shapes_view};

use crate::equality::equality;
use crate::fields::bits_of;
use crate::judging::Verdict;
use crate::known::is_known;
use crate::refusal::Wrong;
use crate::same::same_variable;
use crate::shapes::Shapes;
use ddl_base::NoMemory;
use ddl_types::Ty;
use ddl_unify::Solver;
use std::alloc::Global;

/// What the table says of a cast between two types.
#[derive(Clone, Copy)]
enum Casting {
    /// It is lossless.
    Keeps,
    Loses,
    /// A bitdata has a gap: the least number that fits none of its constructors.
    HasGap(u128),
    /// It is lossless where the two types are equal.
    IfEqual,
}

/// Lossless, or not.
fn if_keeps(kept: bool) -> Casting
    ensures { casting_view result ≡ if_keeps kept }
{
    if kept { Casting::Keeps } else { Casting::Loses }
}

/// Lossless to a bitdata, where it has this width and no gap.
fn if_covered(has_width: bool, gap: Option<u128>) -> Casting
    ensures { casting_view result ≡ if_covered has_width gap }
{
    if !has_width {
        return Casting::Loses;
    }
    match gap {
        None => Casting::Keeps,
        Some(number) => Casting::HasGap(number),
    }
}

/// The width of a bitdata.
fn width_of(shapes: &Shapes, number: u32) -> u8
    ensures { result ≡ (bits_at (shapes_view shapes.now).bitdata number).width }
{
    match bits_of(shapes, number) {
        None => 0,
        Some(bits) => bits.width,
    }
}

/// The gap of a bitdata.
fn gap_of(shapes: &Shapes, number: u32) -> Option<u128>
    ensures { result ≡ (bits_at (shapes_view shapes.now).bitdata number).gap }
{
    match bits_of(shapes, number) {
        None => None,
        Some(bits) => bits.gap,
    }
}

/// The table's row of `uint`.
#[tactic(auto, using(ddl_types::proofs::TyLayers::layers))]
fn from_uint(solver: &Solver, shapes: &Shapes, width: u8, to: &Ty) -> Casting
    ensures { casting_view result ≡ casting_to (shapes_view shapes.now) (uint width)
        (on (ty_view to.now) (solution solver.now)) }
{
    match solver.head(to) {
        Ty::Uint(other) => if_keeps(width <= *other),
        Ty::Sint(other) => if_keeps(width < *other),
        Ty::Int => if_keeps(width <= 127),
        Ty::Bits(number) => if_covered(width_of(shapes, *number) == width, gap_of(shapes, *number)),
        _ => Casting::IfEqual,
    }
}

/// The table's row of `sint`.
#[tactic(auto, using(ddl_types::proofs::TyLayers::layers))]
fn from_sint(solver: &Solver, shapes: &Shapes, width: u8, to: &Ty) -> Casting
    ensures { casting_view result ≡ casting_to (shapes_view shapes.now) (sint width)
        (on (ty_view to.now) (solution solver.now)) }
{
    match solver.head(to) {
        Ty::Sint(other) => if_keeps(width <= *other),
        Ty::Int => Casting::Keeps,
        _ => Casting::IfEqual,
    }
}

/// The table's row of `int`.
#[tactic(auto, using(ddl_types::proofs::TyLayers::layers))]
fn from_int(solver: &Solver, shapes: &Shapes, to: &Ty) -> Casting
    ensures { casting_view result ≡ casting_to (shapes_view shapes.now) int (on (ty_view to.now) (solution solver.now)) }
{
    match solver.head(to) {
        Ty::Sint(width) => if_keeps(*width == 128),
        _ => Casting::IfEqual,
    }
}

/// The table's row of a bitdata.
#[tactic(auto, using(ddl_types::proofs::TyLayers::layers))]
fn from_bits(solver: &Solver, shapes: &Shapes, number: u32, to: &Ty) -> Casting
    ensures { casting_view result ≡ casting_to (shapes_view shapes.now) (bits number)
        (on (ty_view to.now) (solution solver.now)) }
{
    match solver.head(to) {
        Ty::Uint(width) => if_keeps(width_of(shapes, number) == *width),
        _ => Casting::IfEqual,
    }
}

/// What the table says of a cast.
#[tactic(auto, using(ddl_types::proofs::TyLayers::layers, crate::proofs::Casting::silent))]
fn row_of(solver: &Solver, shapes: &Shapes, from: &Ty, to: &Ty) -> Casting
    ensures { casting_view result ≡ casting_at (shapes_view shapes.now) (on (ty_view from.now) (solution solver.now))
        (on (ty_view to.now) (solution solver.now)) }
{
    match solver.head(from) {
        Ty::Uint(width) => from_uint(solver, shapes, *width, to),
        Ty::Sint(width) => from_sint(solver, shapes, *width, to),
        Ty::Int => from_int(solver, shapes, to),
        Ty::Bits(number) => from_bits(solver, shapes, *number, to),
        _ => Casting::IfEqual,
    }
}

/// A type of numbers.
#[tactic(auto, using(ddl_types::proofs::TyLayers::layers))]
fn is_number(solver: &Solver, t: &Ty) -> bool
    ensures { result ≡ number_type (on (ty_view t.now) (solution solver.now)) }
{
    matches!(solver.head(t), Ty::Int | Ty::Uint(_) | Ty::Sint(_))
}

/// A type of numbers, or a bitdata.
#[tactic(auto, using(ddl_types::proofs::TyLayers::layers))]
fn has_bits(solver: &Solver, t: &Ty) -> bool
    ensures { result ≡ bits_type (on (ty_view t.now) (solution solver.now)) }
{
    matches!(
        solver.head(t),
        Ty::Int | Ty::Uint(_) | Ty::Sint(_) | Ty::Bits(_)
    )
}

/// A bitdata of this width.
#[tactic(auto, using(ddl_types::proofs::TyLayers::layers))]
fn is_wide(solver: &Solver, shapes: &Shapes, width: u8, t: &Ty) -> bool
    ensures { result ≡ is_wide (shapes_view shapes.now) width (on (ty_view t.now) (solution solver.now)) }
{
    match solver.head(t) {
        Ty::Bits(number) => width_of(shapes, *number) == width,
        _ => false,
    }
}

/// A `uint`, and a bitdata of its width.
#[tactic(auto, using(ddl_types::proofs::TyLayers::layers))]
fn is_filled(solver: &Solver, shapes: &Shapes, from: &Ty, to: &Ty) -> bool
    ensures { result ≡ is_filled (shapes_view shapes.now) (on (ty_view from.now) (solution solver.now))
        (on (ty_view to.now) (solution solver.now)) }
{
    match solver.head(from) {
        Ty::Uint(width) => is_wide(solver, shapes, *width, to),
        _ => false,
    }
}

/// It is false, since the cast from one type to the other is not lossless, or is none.
fn not_lossless(solver: &Solver, from: &Ty, to: &Ty) -> Result<Verdict, NoMemory>
    ensures { IfOk result (λ v. verdict_view v
        ≡ false_for (not_lossless (on (ty_view from.now) (solution solver.now))
        (on (ty_view to.now) (solution solver.now)))) }
{
    let from = solver.read(from)?;
    let to = solver.read(to)?;
    Ok(Verdict::False(Wrong::NotLossless { from, to }))
}

/// A cast that may cut off bits.
#[tactic(auto, using(crate::proofs::Casting::cuttings))]
pub(crate) fn cutting(solver: &Solver, from: &Ty, to: &Ty) -> Result<Verdict, NoMemory>
    ensures { IfOk result (λ v. verdict_view v
        ≡ cutting (on (ty_view from.now) (solution solver.now)) (on (ty_view to.now) (solution solver.now))) }
{
    if !is_known(solver, from) || !is_known(solver, to) {
        return Ok(Verdict::Undecided);
    }
    if has_bits(solver, from) && is_number(solver, to) {
        return Ok(Verdict::Holds);
    }
    not_lossless(solver, from, to)
}

/// A cast that may fail.
#[tactic(auto, using(crate::proofs::Casting::fittings))]
pub(crate) fn fitting(
    solver: &Solver,
    shapes: &Shapes,
    from: &Ty,
    to: &Ty,
) -> Result<Verdict, NoMemory>
    ensures { IfOk result (λ v. verdict_view v
        ≡ fitting (shapes_view shapes.now) (on (ty_view from.now) (solution solver.now))
        (on (ty_view to.now) (solution solver.now))) }
{
    if !is_known(solver, from) || !is_known(solver, to) {
        return Ok(Verdict::Undecided);
    }
    if is_filled(solver, shapes, from, to) || has_bits(solver, from) && is_number(solver, to) {
        return Ok(Verdict::Holds);
    }
    not_lossless(solver, from, to)
}

/// A cast between two types that are known, by the table.
fn by_table(
    alloc: Global,
    solver: &Solver,
    shapes: &Shapes,
    from: &Ty,
    to: &Ty,
) -> Result<Verdict, NoMemory>
    ensures { IfOk result (λ v. IsCast (casting_at (shapes_view shapes.now)
        (on (ty_view from.now) (solution solver.now)) (on (ty_view to.now) (solution solver.now)))
        (on (ty_view from.now) (solution solver.now)) (on (ty_view to.now) (solution solver.now)) (verdict_view v)) }
{
    match row_of(solver, shapes, from, to) {
        Casting::Keeps => Ok(Verdict::Holds),
        Casting::Loses => not_lossless(solver, from, to),
        Casting::HasGap(number) => Ok(Verdict::False(Wrong::Gap { number })),
        Casting::IfEqual => if_equal(alloc, solver, from, to),
    }
}

/// A cast between two types as they are solved, of which the table says nothing.
fn if_equal(alloc: Global, solver: &Solver, from: &Ty, to: &Ty) -> Result<Verdict, NoMemory>
    ensures { IfOk result (λ v. IsEqual (on (ty_view from.now) (solution solver.now))
        (on (ty_view to.now) (solution solver.now)) (verdict_view v)) }
{
    let from = solver.read(from)?;
    let to = solver.read(to)?;
    equality(alloc, from, to)
}

/// A lossless cast.
#[tactic(auto, using(crate::proofs::Lossless::lossless_cases))]
pub(crate) fn lossless(
    alloc: Global,
    solver: &Solver,
    shapes: &Shapes,
    from: &Ty,
    to: &Ty,
) -> Result<Verdict, NoMemory>
    ensures { IfOk result (λ v. IsLossless (shapes_view shapes.now) (on (ty_view from.now) (solution solver.now))
        (on (ty_view to.now) (solution solver.now)) (verdict_view v)) }
{
    if is_known(solver, from) && is_known(solver, to) {
        return by_table(alloc, solver, shapes, from, to);
    }
    if same_variable(solver, from, to) {
        return Ok(Verdict::Holds);
    }
    Ok(Verdict::Undecided)
}
