//! Whether a variable stands in the types of a group.

ghost use Rattle.std.specs.Prelude.{◌≡◌, IfOk, map, length, false, replicate};
ghost use Rattle.ddl_types.specs.TyView.{ty_view};
ghost use Rattle.ddl_unify.specs.State.{solution};
ghost use Rattle.ddl_conditions.specs.Standing.{Stands};
ghost use Rattle.ddl_conditions.specs.Closing.{Says};
ghost use Rattle.ddl_conditions.specs.Seen.{AreRead, IsRead, members, open_types};
ghost use Rattle.ddl_judging.specs.Views.{place_shape, shapes_view};

use crate::written::{holds, mark_places};
use ddl_base::NoMemory;
use ddl_judging::Shapes;
use ddl_typed::PlaceType;
use ddl_types::Ty;
use ddl_unify::Solver;
use std::alloc::Global;

/// Whether a variable stands in the types of a group under the solution. Each place is opened once.
pub(crate) fn stands(
    alloc: Global,
    solver: &Solver,
    shapes: &Shapes,
    roots: &[Ty],
    variable: u32,
) -> Result<bool, NoMemory>
    ensures { IfOk result (λ b. Says b (Stands (shapes_view shapes.now) (map ty_view roots.now) (solution solver.now)
        variable)) }
{
    let mut seen = none_seen(alloc, shapes.places.len())?;
    let found = search(alloc, solver, shapes, roots, variable, &mut seen)?;
    Ok(found)
}

/// The search: the types of the declarations, then those of the members of each place that was seen.
fn search(
    alloc: Global,
    solver: &Solver,
    shapes: &Shapes,
    roots: &[Ty],
    variable: u32,
    seen: &mut [bool],
) -> Result<bool, NoMemory>
    requires { seen.old ≡ replicate (length shapes.now.places.items) false }
    ensures { IfOk result (λ b. Says b (Stands (shapes_view shapes.now) (map ty_view roots.now) (solution solver.now)
        variable)) }
{
    let mut pending = Vec::new(alloc);
    if stands_in(solver, roots, variable, seen, &mut pending)? {
        return Ok(true);
    }
    while let Some(place) = pending.pop() {
        let types = members_of(shapes, place);
        if stands_in(solver, types, variable, seen, &mut pending)? {
            return Ok(true);
        }
    }
    Ok(false)
}

/// No place was seen.
fn none_seen(alloc: Global, count: usize) -> Result<Vec<bool>, NoMemory>
    ensures { IfOk result (λ seen. seen.items ≡ replicate count false) }
{
    Ok(vec![in alloc; false; count]?)
}

/// The types of the members of a place; none beyond the list.
fn members_of(shapes: &Shapes, place: u32) -> &[Ty]
    ensures { map ty_view result.now ≡ members (shapes_view shapes.now) place }
{
    match shapes.places.get(place as usize) {
        Some(shape) => open_types_of(shape),
        None => &[],
    }
}

/// The types of the members, where they speak of no variables of the place's own.
fn open_types_of(shape: &PlaceType) -> &[Ty]
    ensures { map ty_view result.now ≡ open_types (place_shape shape.now) }
{
    if shape.vars == 0 { &shape.types } else { &[] }
}

/// Whether a variable stands in one of these types; else the places in them are marked.
fn stands_in(
    solver: &Solver,
    types: &[Ty],
    variable: u32,
    seen: &mut [bool],
    pending: &mut Vec<u32>,
) -> Result<bool, NoMemory>
    ensures { IfOk result (λ b. AreRead b (solution solver.now) variable (map ty_view types.now) seen.old seen.new
        pending.old.items pending.new.items) }
{
    for t in types {
        if stands_at(solver, t, variable, seen, pending)? {
            return Ok(true);
        }
    }
    Ok(false)
}

/// Whether a variable stands in a type; else the places in it are marked.
fn stands_at(
    solver: &Solver,
    t: &Ty,
    variable: u32,
    seen: &mut [bool],
    pending: &mut Vec<u32>,
) -> Result<bool, NoMemory>
    ensures { IfOk result (λ b. IsRead b (solution solver.now) variable (ty_view t.now) seen.old seen.new
        pending.old.items pending.new.items) }
{
    let read = solver.read(t)?;
    if holds(&read, variable) {
        return Ok(true);
    }
    mark_places(&read, seen, pending)?;
    Ok(false)
}
