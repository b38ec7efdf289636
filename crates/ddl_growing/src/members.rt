//! The turns of forms that ask for a field or a tag.

ghost use Rattle.std.specs.Prelude.{◌≡◌, ◌==◌, if◌then◌else◌};
ghost use Rattle.ddl_types.specs.Types.{Below};
ghost use Rattle.ddl_types.specs.TyView.{ty_view};
ghost use Rattle.ddl_unify.specs.Equations.{MostGeneral};
ghost use Rattle.ddl_unify.specs.State.{accepted, solution, variables};
ghost use Rattle.ddl_growing.specs.Carrying.{Carries, IsTaken, asking, for_member, of_found};
ghost use Rattle.ddl_judging.specs.Demands.{make};
ghost use Rattle.ddl_growing.specs.Giving.{of_bits, of_place};
ghost use Rattle.ddl_judging.specs.Shapes.{bits_at, found, place_at};
ghost use Rattle.ddl_growing.specs.SolverView.{solved};
ghost use Rattle.ddl_growing.specs.Turns.{AreShapes};
ghost use Rattle.ddl_judging.specs.Views.{shapes_view};

use crate::adding::{Sides, add, add_two, fresh_variables, place_type};
use crate::heads::{Known, known_head};
use crate::refusal::SettleError;
use crate::turn::Turn;
use ddl_base::Span;
use ddl_judging::{Member, Shapes, bits_member, place_member};
use ddl_types::{Ty, apply};
use ddl_unify::Solver;
use std::alloc::Global;

/// What a form asks for: that a type has a member of this name, which is of another type.
#[derive(Clone, Copy)]
pub(crate) struct Sought<'a> {
    pub of: &'a Ty,
    pub name: &'a [u8],
    pub result: &'a Ty,
}

/// The turn of a form that asks for a field, or a tag.
pub(crate) fn take_member(
    alloc: Global,
    solver: &mut Solver,
    shapes: &Shapes,
    span: Span,
    tagged: bool,
    sought: Sought<'_>,
) -> Result<Turn, SettleError>
    requires of_below { Below (ty_view sought.of.now) (variables solver.old) }
    requires result_below { Below (ty_view sought.result.now) (variables solver.old) }
    requires shapes { AreShapes (variables solver.old) (shapes_view shapes.now) }
    ensures most { MostGeneral (accepted solver.new) (solution solver.new) }
    ensures taken { IsTaken (shapes_view shapes.now)
        (asking (for_member tagged (ty_view sought.entry.of.now) sought.entry.name.now
        (ty_view sought.entry.result.now)) span) (solved solver.old) (solved solver.new) result }
{
    match known_head(solver, sought.of) {
        Known::Unknown => Ok(Turn::Waits),
        Known::Place(number) => {
            add_place_member(alloc, solver, shapes, span, tagged, number, sought)
        }
        Known::Bits(number) => add_bits_member(solver, shapes, span, tagged, number, sought),
        _ => Ok(Turn::Silent),
    }
}

/// The turn of a form that makes a union.
pub(crate) fn take_make(
    alloc: Global,
    solver: &mut Solver,
    shapes: &Shapes,
    span: Span,
    sought: Sought<'_>,
) -> Result<Turn, SettleError>
    requires of_below { Below (ty_view sought.of.now) (variables solver.old) }
    requires result_below { Below (ty_view sought.result.now) (variables solver.old) }
    requires shapes { AreShapes (variables solver.old) (shapes_view shapes.now) }
    ensures most { MostGeneral (accepted solver.new) (solution solver.new) }
    ensures taken { IsTaken (shapes_view shapes.now)
        (asking (make (ty_view sought.entry.of.now) sought.entry.name.now (ty_view sought.entry.result.now)) span)
        (solved solver.old) (solved solver.new) result }
{
    match known_head(solver, sought.of) {
        Known::Unknown => Ok(Turn::Waits),
        Known::Place(number) => add_place_member(alloc, solver, shapes, span, true, number, sought),
        _ => Ok(Turn::Silent),
    }
}

/// Adds the type of a member of a bitdata.
fn add_bits_member(
    solver: &mut Solver,
    shapes: &Shapes,
    span: Span,
    tagged: bool,
    number: u32,
    sought: Sought<'_>,
) -> Result<Turn, SettleError>
    requires most { MostGeneral (accepted solver.old) (solution solver.old) }
    requires result_below { Below (ty_view sought.result.now) (variables solver.old) }
    requires shapes { AreShapes (variables solver.old) (shapes_view shapes.now) }
    ensures most { MostGeneral (accepted solver.new) (solution solver.new) }
    ensures added { Carries (of_bits (found tagged sought.entry.name.now
        (bits_at (shapes_view shapes.now).bitdata number).shape) (ty_view sought.entry.result.now)) span
        (solved solver.old) (solved solver.new) result }
{
    match bits_member(shapes, number, tagged, sought.name) {
        None => Ok(Turn::Silent),
        Some(of) => {
            let sides = Sides {
                left: of,
                right: sought.result,
            };
            add(solver, span, sides)
        }
    }
}

/// Adds the type of a member of a place.
fn add_place_member(
    alloc: Global,
    solver: &mut Solver,
    shapes: &Shapes,
    span: Span,
    tagged: bool,
    number: u32,
    sought: Sought<'_>,
) -> Result<Turn, SettleError>
    requires most { MostGeneral (accepted solver.old) (solution solver.old) }
    requires of_below { Below (ty_view sought.of.now) (variables solver.old) }
    requires result_below { Below (ty_view sought.result.now) (variables solver.old) }
    requires shapes { AreShapes (variables solver.old) (shapes_view shapes.now) }
    ensures most { MostGeneral (accepted solver.new) (solution solver.new) }
    ensures added { Carries (of_place (place_at (shapes_view shapes.now).places number) tagged number
        (ty_view sought.entry.of.now) sought.entry.name.now (ty_view sought.entry.result.now) (variables solver.old))
        span (solved solver.old) (solved solver.new) result }
{
    match place_member(shapes, number, tagged, sought.name) {
        None => Ok(Turn::Silent),
        Some(member) => {
            if member.vars == 0 {
                add_own(alloc, solver, span, number, member.of, sought)
            } else {
                add_at_fresh(alloc, solver, span, number, member, sought)
            }
        }
    }
}

/// Adds that a type is a place without variables, and that the type of a member is as wanted.
fn add_own(
    alloc: Global,
    solver: &mut Solver,
    span: Span,
    number: u32,
    member: &Ty,
    sought: Sought<'_>,
) -> Result<Turn, SettleError>
    requires member_below { Below (ty_view member.now) (variables solver.old) }
    requires of_below { Below (ty_view sought.of.now) (variables solver.old) }
    requires result_below { Below (ty_view sought.result.now) (variables solver.old) }
    ensures most { MostGeneral (accepted solver.new) (solution solver.new) }
    ensures added { Carries (of_found number 0 (variables solver.old) (ty_view member.now) (ty_view sought.entry.of.now)
        (ty_view sought.entry.result.now)) span (solved solver.old) (solved solver.new) result }
{
    let place = place_type(number, Vec::new(alloc));
    let places = Sides {
        left: &place,
        right: sought.of,
    };
    let members = Sides {
        left: member,
        right: sought.result,
    };
    add_two(solver, span, places, members)
}

/// The same for a place with variables of its own, at new ones.
fn add_at_fresh(
    alloc: Global,
    solver: &mut Solver,
    span: Span,
    number: u32,
    member: Member<'_>,
    sought: Sought<'_>,
) -> Result<Turn, SettleError>
    requires most { MostGeneral (accepted solver.old) (solution solver.old) }
    requires some { (member.vars ≡ 0) → ⊥ }
    requires member_below { Below (ty_view member.of.now) member.vars }
    requires of_below { Below (ty_view sought.of.now) (variables solver.old) }
    requires result_below { Below (ty_view sought.result.now) (variables solver.old) }
    ensures most { MostGeneral (accepted solver.new) (solution solver.new) }
    ensures added { Carries (of_found number member.entry.vars (variables solver.old) (ty_view member.entry.of.now)
        (ty_view sought.entry.of.now) (ty_view sought.entry.result.now)) span (solved solver.old) (solved solver.new)
        result }
{
    let arguments = fresh_variables(alloc, solver, member.vars)?;
    let applied = apply(alloc, member.of, &arguments)?;
    let place = place_type(number, arguments);
    let places = Sides {
        left: &place,
        right: sought.of,
    };
    let members = Sides {
        left: &applied,
        right: sought.result,
    };
    add_two(solver, span, places, members)
}
