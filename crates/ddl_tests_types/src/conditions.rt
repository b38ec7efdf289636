//! Worked rows: what is asked of one solver, and what is answered.

ghost use Rattle.std.specs.Prelude.{◌≡◌, []};
ghost use Rattle.ddl_types.specs.TyView.{ty_view};
ghost use Rattle.ddl_types.specs.Conditions.{lit};
ghost use Rattle.ddl_judging.specs.Demands.{DemandBelow};
ghost use Rattle.ddl_judging.specs.Demands as d;
ghost use Rattle.ddl_judging.specs.Views.{demand_view, shapes_view};

use crate::types::array;
use ddl_base::{Bytes, NoMemory, Span};
use ddl_conditions::{Asked, Demand, Group, SettleError, Shapes, Wrong, settle};
use ddl_types::{Cond, Ty};
use ddl_unify::Solver;
use std::alloc::Global;
use std::test::Fail;

const SPAN: Span = Span {
    module: 1,
    from: 14,
    to: 17,
};

fn no_shapes(alloc: Global) -> Shapes
    ensures { shapes_view result ≡ record { places = []; bitdata = [] } }
{
    Shapes {
        places: Vec::new(alloc),
        bits: Vec::new(alloc),
    }
}

/// A solver of one variable, and what is answered for one demand.
fn one(
    alloc: Global,
    what: Demand,
    root: Ty,
    with_parameters: bool,
) -> Result<(Solver, Result<Vec<usize>, SettleError>), NoMemory>
    requires { DemandBelow 1 (demand_view what) }
{
    let mut solver = Solver::new(alloc);
    solver.fresh()?;
    let mut asked = Vec::new(alloc);
    asked.push(Asked { what, span: SPAN })?;
    let mut roots = Vec::new(alloc);
    roots.push(root)?;
    let shapes = no_shapes(alloc);
    let group = Group {
        shapes: &shapes,
        asked: &asked,
        roots: &roots,
        with_parameters,
    };
    let answer = settle(alloc, &mut solver, &group);
    Ok((solver, answer))
}

fn is_word(t: &Ty, width: u8) -> bool {
    match t {
        Ty::Uint(w) => *w == width,
        _ => false,
    }
}

fn clashes(answer: &Result<Vec<usize>, SettleError>) -> bool {
    match answer {
        Err(SettleError::Clash { left, right, .. }) => is_word(left, 8)
            && matches!(right, Ty::Bool),
        _ => false,
    }
}

fn is_met(answer: &Result<Vec<usize>, SettleError>) -> bool {
    match answer {
        Ok(kept) => kept.is_empty(),
        Err(_) => false,
    }
}

fn keeps_it(answer: &Result<Vec<usize>, SettleError>) -> bool {
    match answer {
        Ok(kept) => kept.len() == 1,
        Err(_) => false,
    }
}

fn out_of_range(answer: &Result<Vec<usize>, SettleError>) -> bool {
    match answer {
        Err(
            SettleError::Wrong {
                why: Wrong::LiteralRange { number, of },
                ..
            },
        ) => *number == 256 && is_word(of, 8),
        _ => false,
    }
}

fn is_unresolved(answer: &Result<Vec<usize>, SettleError>) -> bool {
    match answer {
        Err(SettleError::Unresolved { span }) => span.from == 14,
        _ => false,
    }
}

fn literal(number: u128, of: Ty) -> Demand
    ensures { demand_view result ≡ d.condition (lit number (ty_view of)) }
{
    Demand::Cond(Cond::Lit { number, of })
}

// `[true] == [true]` is refused, since arrays of bytes alone are compared; `[] == []` is one
#[test]
#[tactic(auto, using(ddl_types::proofs::TyLayers::layers))]
fn arrays_of_bytes_are_compared(rt: HostRuntime) -> Result<(), Fail> {
    let alloc = rt.alloc();
    let what = Demand::Cond(Cond::Key(array(alloc, Ty::Bool)?));
    let (_solver, answer) = one(alloc, what, Ty::Unit, false)?;
    assert!(rt; clashes(&answer));
    let what = Demand::Cond(Cond::Key(array(alloc, Ty::Var(0))?));
    let (solver, answer) = one(alloc, what, Ty::Unit, false)?;
    assert!(rt; is_met(&answer));
    assert!(rt; is_word(solver.head(&Ty::Var(0)), 8));
    Ok(())
}

// `256 : uint 8` is out of range; a number that nothing else is said of is an `int`, but where it stands in the type of a
// declaration with parameters, where it is kept
#[test]
#[tactic(auto, using(ddl_types::proofs::TyLayers::layers))]
fn numbers_become_int_or_are_kept(rt: HostRuntime) -> Result<(), Fail> {
    let alloc = rt.alloc();
    let (_solver, answer) = one(alloc, literal(256, Ty::Uint(8)), Ty::Unit, false)?;
    assert!(rt; out_of_range(&answer));
    let (solver, answer) = one(alloc, literal(5, Ty::Var(0)), Ty::Var(0), false)?;
    assert!(rt; is_met(&answer));
    assert!(rt; matches!(solver.head(&Ty::Var(0)), Ty::Int));
    let (solver, answer) = one(alloc, literal(5, Ty::Var(0)), Ty::Var(0), true)?;
    assert!(rt; keeps_it(&answer));
    assert!(rt; matches!(solver.head(&Ty::Var(0)), Ty::Var(_)));
    let (_solver, answer) = one(alloc, literal(5, Ty::Var(0)), Ty::Unit, true)?;
    assert!(rt; is_met(&answer));
    Ok(())
}

// what nothing tells the type of has no fields
#[test]
#[tactic(auto, using(ddl_types::proofs::TyLayers::layers))]
fn fields_of_what_is_not_known_are_unresolved(rt: HostRuntime) -> Result<(), Fail> {
    let alloc = rt.alloc();
    let what = Demand::Cond(Cond::Field {
        of: Ty::Var(0),
        name: Bytes::of(alloc, b"x")?,
        result: Ty::Bool,
    });
    let (_solver, answer) = one(alloc, what, Ty::Var(0), true)?;
    assert!(rt; is_unresolved(&answer));
    Ok(())
}
