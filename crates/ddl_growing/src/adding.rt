//! Equations and variables that a demand adds.

ghost use Rattle.std.specs.Prelude.{◌≡◌, ◌∷◌, [], IfOk, length, map};
ghost use Rattle.ddl_types.specs.Types.{Below, Ty.con, Tys.more, Tys.none, Head.array_of, Head.map_of, Head.place};
ghost use Rattle.ddl_types.specs.Types.{tys_of};
ghost use Rattle.ddl_types.specs.TyView.{ty_view};
ghost use Rattle.ddl_unify.specs.Equations.{EachBelow, MostGeneral};
ghost use Rattle.ddl_unify.specs.State.{accepted, solution, variables};
ghost use Rattle.ddl_growing.specs.Carrying.{Carries, given, listed, sides_view};
ghost use Rattle.ddl_growing.specs.SolverView.{solved};
ghost use Rattle.ddl_growing.specs.Turns.{HasAdded};

use crate::refusal::SettleError;
use crate::turn::Turn;
use ddl_base::{NoMemory, Span};
use ddl_types::Ty;
use ddl_unify::{EquateError, Solver};
use std::alloc::Global;

/// The sides of an equation.
#[derive(Clone, Copy)]
pub(crate) struct Sides<'a> {
    pub left: &'a Ty,
    pub right: &'a Ty,
}

/// A new variable.
pub(crate) fn fresh_variable(solver: &mut Solver) -> Result<u32, NoMemory>
    requires most { MostGeneral (accepted solver.old) (solution solver.old) }
    ensures most { MostGeneral (accepted solver.new) (solution solver.new) }
    ensures variable { IfOk result (λ v. v ≡ variables solver.old) }
    ensures added { IfOk result (λ _. HasAdded [] 1 (solved solver.old) (solved solver.new)) }
{
    if solver.is_full() {
        return Err(NoMemory);
    }
    let variable = solver.fresh()?;
    Ok(variable)
}

/// So many new variables.
#[tactic(auto, using(ddl_types::proofs::TyLayers::layers, crate::proofs::Naming::lists))]
pub(crate) fn fresh_variables(
    alloc: Global,
    solver: &mut Solver,
    count: u32,
) -> Result<Vec<Ty>, NoMemory>
    requires most { MostGeneral (accepted solver.old) (solution solver.old) }
    ensures most { MostGeneral (accepted solver.new) (solution solver.new) }
    ensures types { IfOk result (λ ts. map ty_view ts.items ≡ listed count (variables solver.old)) }
    ensures long { IfOk result (λ ts. length ts.items ≡ count) }
    ensures added { IfOk result (λ _. HasAdded [] count (solved solver.old) (solved solver.new)) }
{
    let count = count as usize;
    let mut made = Vec::new(alloc);
    while made.len() < count {
        let variable = fresh_variable(solver)?;
        made.push(Ty::Var(variable))?;
    }
    Ok(made)
}

/// The array of elements of a type.
#[tactic(auto, using(ddl_types::proofs::TyLayers::layers))]
pub(crate) fn array_type(alloc: Global, element: Ty) -> Result<Ty, NoMemory>
    ensures { IfOk result (λ t. ty_view t ≡ con array_of (more (ty_view element) none)) }
{
    Ok(Ty::Array(Box::new(alloc, element)?))
}

/// The map from keys to values of these types.
#[tactic(auto, using(ddl_types::proofs::TyLayers::layers))]
pub(crate) fn map_type(alloc: Global, key: Ty, value: Ty) -> Result<Ty, NoMemory>
    ensures { IfOk result (λ t. ty_view t ≡ con map_of (more (ty_view key) (more (ty_view value) none))) }
{
    Ok(Ty::Map(Box::new(alloc, key)?, Box::new(alloc, value)?))
}

/// A record or a union with these types for the variables of its place.
#[tactic(auto, using(ddl_types::proofs::TyLayers::layers))]
pub(crate) fn place_type(number: u32, types: Vec<Ty>) -> Ty
    ensures { ty_view result ≡ con (place number) (tys_of (map ty_view types.items)) }
{
    Ty::Place(number, types)
}

/// Adds an equation.
pub(crate) fn add(solver: &mut Solver, span: Span, sides: Sides<'_>) -> Result<Turn, SettleError>
    requires below { EachBelow (sides_view sides ∷ []) (variables solver.old) }
    ensures most { MostGeneral (accepted solver.new) (solution solver.new) }
    ensures added { Carries (given (sides_view sides.entry ∷ []) 0) span (solved solver.old) (solved solver.new) result }
{
    match solver.equate(sides.left, sides.right) {
        Ok(()) => Ok(Turn::Adds),
        Err(EquateError::Clash(left, right)) => Err(SettleError::Clash { span, left, right }),
        Err(EquateError::Endless(variable, of)) => Err(SettleError::Endless { span, variable, of }),
        Err(EquateError::NoMemory) => Err(SettleError::NoMemory),
    }
}

/// Adds two equations.
pub(crate) fn add_two(
    solver: &mut Solver,
    span: Span,
    first: Sides<'_>,
    second: Sides<'_>,
) -> Result<Turn, SettleError>
    requires below { EachBelow (sides_view first ∷ sides_view second ∷ []) (variables solver.old) }
    ensures most { MostGeneral (accepted solver.new) (solution solver.new) }
    ensures added { Carries (given (sides_view first.entry ∷ sides_view second.entry ∷ []) 0) span (solved solver.old)
        (solved solver.new) result }
{
    add(solver, span, first)?;
    add(solver, span, second)
}

/// Adds three equations.
pub(crate) fn add_three(
    solver: &mut Solver,
    span: Span,
    first: Sides<'_>,
    second: Sides<'_>,
    third: Sides<'_>,
) -> Result<Turn, SettleError>
    requires below { EachBelow (sides_view first ∷ sides_view second ∷ sides_view third ∷ []) (variables solver.old) }
    ensures most { MostGeneral (accepted solver.new) (solution solver.new) }
    ensures added { Carries (given (sides_view first.entry ∷ sides_view second.entry ∷ sides_view third.entry ∷ []) 0)
        span (solved solver.old) (solved solver.new) result }
{
    add(solver, span, first)?;
    add_two(solver, span, second, third)
}

/// Adds four equations.
pub(crate) fn add_four(
    solver: &mut Solver,
    span: Span,
    first: Sides<'_>,
    second: Sides<'_>,
    third: Sides<'_>,
    fourth: Sides<'_>,
) -> Result<Turn, SettleError>
    requires below { EachBelow (sides_view first ∷ sides_view second ∷ sides_view third ∷ sides_view fourth ∷ [])
        (variables solver.old) }
    ensures most { MostGeneral (accepted solver.new) (solution solver.new) }
    ensures added { Carries (given (sides_view first.entry ∷ sides_view second.entry ∷ sides_view third.entry
        ∷ sides_view fourth.entry ∷ []) 0) span (solved solver.old) (solved solver.new) result }
{
    add(solver, span, first)?;
    add_three(solver, span, second, third, fourth)
}
