//! The walk through the types of a group.

ghost use Rattle.std.specs.Prelude.{◌≡◌, ◌≢◌, ◌++◌, IfOk, OnOk, MatchOption, map};
ghost use Rattle.ddl_types.specs.Types.{Head.place, on};
ghost use Rattle.ddl_types.specs.TyView.{ty_view};
ghost use Rattle.ddl_unify.specs.State.{solution};
ghost use Rattle.ddl_judging.specs.Shapes.{place_at};
ghost use Rattle.ddl_judging.specs.Views.{shapes_view};
ghost use Rattle.ddl_schemes.specs.FoundView.{found_view, waiting};
ghost use Rattle.ddl_schemes.specs.Order.{Walks, members, unseen, with_head};
ghost use Rattle.ddl_schemes.specs.Steps.{behind, seen_after};

use crate::found::{Found, add_place, add_variable, none_found};
use crate::reading::{push_all, push_two, read_all};
use ddl_base::NoMemory;
use ddl_judging::Shapes;
use ddl_types::Ty;
use ddl_unify::Solver;
use std::alloc::Global;

/// What appears in the types of a group's declarations, as they are solved.
pub(crate) fn walk(
    alloc: Global,
    solver: &Solver,
    shapes: &Shapes,
    roots: &[Ty],
) -> Result<Found, NoMemory>
    ensures { IfOk result (λ found. Walks (shapes_view shapes.now) (solution solver.now)
        (map (λ t. on t (solution solver.now)) (map ty_view roots.now)) unseen (found_view found)) }
{
    let mut found = none_found(alloc);
    let mut stack = Vec::new(alloc);
    push_all(&mut stack, read_all(alloc, solver, roots)?)?;
    while let Some(t) = stack.pop() {
        step(alloc, solver, shapes, &mut found, &mut stack, t)?;
    }
    Ok(found)
}

/// Meets a type, and puts on the stack what is walked behind it.
#[tactic(auto, using(ddl_types::proofs::TyLayers::layers, crate::proofs::Stacks::stacks, crate::proofs::Stepping::steppings))]
fn step(
    alloc: Global,
    solver: &Solver,
    shapes: &Shapes,
    found: &mut Found,
    stack: &mut Vec<Ty>,
    t: Ty,
) -> Result<(), NoMemory>
    ensures found { OnOk result (found_view found.new
        ≡ seen_after (shapes_view shapes.now) (ty_view t) (found_view found.old)) }
    ensures stack { OnOk result (waiting stack.new.items
        ≡ behind (shapes_view shapes.now) (solution solver.now) (found_view found.old) (ty_view t)
        ++ waiting stack.old.items) }
{
    match t {
        Ty::Var(variable) => {
            add_variable(found, variable)?;
            Ok(())
        }
        Ty::Maybe(inner) => {
            stack.push(Box::into_inner(inner))?;
            Ok(())
        }
        Ty::Array(element) => {
            stack.push(Box::into_inner(element))?;
            Ok(())
        }
        Ty::Map(key, value) => {
            push_two(stack, key, value)?;
            Ok(())
        }
        Ty::Place(number, arguments) => {
            open(alloc, solver, shapes, found, stack, number)?;
            push_all(stack, arguments)?;
            Ok(())
        }
        _ => Ok(()),
    }
}

/// Meets a place, and puts the types of its members on the stack, where it is a new one without
/// variables of its own.
#[tactic(auto, using(crate::proofs::Stepping::openings))]
fn open(
    alloc: Global,
    solver: &Solver,
    shapes: &Shapes,
    found: &mut Found,
    stack: &mut Vec<Ty>,
    number: u32,
) -> Result<(), NoMemory>
    ensures found { OnOk result (found_view found.new
        ≡ with_head (shapes_view shapes.now) (place number) (found_view found.old)) }
    ensures stack { OnOk result (waiting stack.new.items
        ≡ members (shapes_view shapes.now) (solution solver.now) (found_view found.old) (place number)
        ++ waiting stack.old.items) }
{
    match own_types(shapes, number) {
        None => Ok(()),
        Some(types) => {
            if add_place(found, number)? {
                push_all(stack, read_all(alloc, solver, types)?)?;
            }
            Ok(())
        }
    }
}

/// The types of the members of a place without variables of its own. Beyond the list are none.
fn own_types(shapes: &Shapes, number: u32) -> Option<&[Ty]>
    ensures { MatchOption result ((place_at (shapes_view shapes.now).places number).vars ≢ 0) (λ types.
        ((place_at (shapes_view shapes.now).places number).vars ≡ 0)
        × (map ty_view types.now ≡ (place_at (shapes_view shapes.now).places number).types)) }
{
    match shapes.places.get(number as usize) {
        None => Some(&[]),
        Some(shape) => {
            if shape.vars == 0 {
                Some(&shape.types)
            } else {
                None
            }
        }
    }
}
