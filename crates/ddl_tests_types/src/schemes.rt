//! A group of types, its variables, and its types for all types of these.

use ddl_base::{NoMemory, Span};
use ddl_judging::Shapes;
use ddl_schemes::Numbering;
use ddl_typed::PlaceType;
use ddl_types::{Cond, Ty};
use ddl_unify::Solver;
use std::alloc::Global;
use std::test::Fail;

const SPAN: Span = Span {
    module: 1,
    from: 14,
    to: 17,
};

/// A solver with four variables, of which `?1` is `int`.
#[tactic(auto, using(ddl_types::proofs::TyLayers::layers))]
fn solved(alloc: Global) -> Result<Solver, NoMemory> {
    let mut solver = Solver::new(alloc);
    solver.fresh()?;
    solver.fresh()?;
    solver.fresh()?;
    solver.fresh()?;
    match solver.equate(&Ty::Var(1), &Ty::Int) {
        Ok(()) => Ok(solver),
        Err(_) => Err(NoMemory),
    }
}

/// One place, whose member is `?2` or the place itself.
fn one_place(alloc: Global) -> Result<Shapes, NoMemory> {
    let mut types = Vec::new(alloc);
    types.push(Ty::Var(2))?;
    types.push(Ty::Place(0, Vec::new(alloc)))?;
    let mut places = Vec::new(alloc);
    places.push(PlaceType {
        span: SPAN,
        vars: 0,
        tagged: true,
        names: Vec::new(alloc),
        types,
    })?;
    Ok(Shapes {
        places,
        bits: Vec::new(alloc),
    })
}

/// The numbering of a group with the types `[?3 -> ?1]`, the place, and `?0`.
fn numbered(alloc: Global, solver: &Solver) -> Result<Numbering, NoMemory> {
    let shapes = one_place(alloc)?;
    let mut roots = Vec::new(alloc);
    roots.push(Ty::Map(Box::new(alloc, Ty::Var(3))?, Box::new(alloc, Ty::Var(1))?))?;
    roots.push(Ty::Place(0, Vec::new(alloc)))?;
    roots.push(Ty::Var(0))?;
    Numbering::of(alloc, solver, &shapes, &roots)
}

fn is_variable(t: &Ty, number: u32) -> bool {
    match t {
        Ty::Var(n) => *n == number,
        _ => false,
    }
}

fn arguments(t: &Ty) -> usize {
    match t {
        Ty::Place(_, ts) => ts.len(),
        _ => 0,
    }
}

// `?3`, `?2` in the place, `?0`, in that order; `?1` is solved
#[test]
fn numbers_in_order(rt: HostRuntime) -> Result<(), Fail> {
    let alloc = rt.alloc();
    let solver = solved(alloc)?;
    let numbering = numbered(alloc, &solver)?;
    assert_eq!(rt; numbering.count(), 3);
    let first = numbering.renamed(alloc, &solver, &Ty::Var(3))?;
    assert!(rt; is_variable(&first, 0));
    let second = numbering.renamed(alloc, &solver, &Ty::Var(2))?;
    assert!(rt; is_variable(&second, 1));
    let third = numbering.renamed(alloc, &solver, &Ty::Var(0))?;
    assert!(rt; is_variable(&third, 2));
    let bound = numbering.renamed(alloc, &solver, &Ty::Var(1))?;
    assert!(rt; matches!(bound, Ty::Int));
    let absent = numbering.renamed(alloc, &solver, &Ty::Var(9))?;
    assert!(rt; matches!(absent, Ty::Unit));
    Ok(())
}

// elsewhere the place has the three variables as arguments
#[test]
fn shares_a_place(rt: HostRuntime) -> Result<(), Fail> {
    let alloc = rt.alloc();
    let solver = solved(alloc)?;
    let numbering = numbered(alloc, &solver)?;
    let place = Ty::Place(0, Vec::new(alloc));
    let own = numbering.shared(alloc, &solver, 0, &place)?;
    assert_eq!(rt; arguments(&own), 3);
    let below = numbering.shared(alloc, &solver, 1, &place)?;
    assert_eq!(rt; arguments(&below), 0);
    let cond = numbering.shared_cond(alloc, &solver, 0, &Cond::Num(Ty::Var(2)))?;
    match &cond {
        Cond::Num(t) => assert!(rt; is_variable(t, 1)),
        _ => assert!(rt; false),
    }
    Ok(())
}
