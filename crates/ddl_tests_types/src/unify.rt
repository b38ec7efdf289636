//! Worked rows: equations one after another on one solver, and what each is answered with.

ghost use Rattle.std.specs.Prelude.{◌≡◌, IfOk};
ghost use Rattle.ddl_types.specs.Types.{Ty.con, Tys.none, Tys.more, Head.place};
ghost use Rattle.ddl_types.specs.TyView.{ty_view};
ghost use Rattle.ddl_unify.specs.State.{variables};

use crate::types::{array, same};
use ddl_base::NoMemory;
use ddl_types::Ty;
use ddl_unify::{EquateError, Solver};
use std::alloc::Global;
use std::test::Fail;

#[tactic(auto, using(ddl_types::proofs::TyLayers::layers))]
fn place_one(alloc: Global, t: Ty) -> Result<Ty, NoMemory>
    ensures { IfOk result (λ r. ty_view r ≡ con (place 7) (more (ty_view t) none)) }
{
    let mut ts = Vec::new(alloc);
    ts.push(t)?;
    Ok(Ty::Place(7, ts))
}

#[tactic(auto, using(ddl_types::proofs::TyLayers::layers))]
fn place_two(alloc: Global, t: Ty, u: Ty) -> Result<Ty, NoMemory>
    ensures { IfOk result (λ r. ty_view r ≡ con (place 7) (more (ty_view t) (more (ty_view u) none))) }
{
    let mut ts = Vec::new(alloc);
    ts.push(t)?;
    ts.push(u)?;
    Ok(Ty::Place(7, ts))
}

fn clashes(answer: &Result<(), EquateError>, left: &Ty, right: &Ty) -> bool {
    match answer {
        Err(EquateError::Clash(l, r)) => same(l, left) && same(r, right),
        _ => false,
    }
}

fn is_endless(answer: &Result<(), EquateError>, v: u32, t: &Ty) -> bool {
    match answer {
        Err(EquateError::Endless(w, u)) => *w == v && same(u, t),
        _ => false,
    }
}

/// A solver with three variables.
fn three(alloc: Global) -> Result<Solver, NoMemory>
    ensures { IfOk result (λ s. variables s ≡ 3) }
{
    let mut solver = Solver::new(alloc);
    solver.fresh()?;
    solver.fresh()?;
    solver.fresh()?;
    Ok(solver)
}

#[test]
#[tactic(auto, using(ddl_types::proofs::TyLayers::layers))]
fn clashes_are_told_with_whole_sides(rt: HostRuntime) -> Result<(), Fail> {
    let alloc = rt.alloc();
    let mut solver = three(alloc)?;
    // at the root
    let answer = solver.equate(&Ty::Int, &Ty::Bool);
    assert!(rt; clashes(&answer, &Ty::Int, &Ty::Bool));
    // inside, after variables were bound: `?0 = [?1]`, `?1 = int`, `?0 = [bool]`
    assert!(rt;
        solver
            .equate(&Ty::Var(0), &array(alloc, Ty::Var(1))?)
            .is_ok()
    );
    assert!(rt; solver.equate(&Ty::Var(1), &Ty::Int).is_ok());
    assert!(rt; same(solver.head(&Ty::Var(0)), &array(alloc, Ty::Var(1))?));
    assert!(rt; same(solver.head(&Ty::Var(2)), &Ty::Var(2)));
    let bools = array(alloc, Ty::Bool)?;
    let answer = solver.equate(&Ty::Var(0), &bools);
    assert!(rt; clashes(&answer, &array(alloc, Ty::Int)?, &bools));
    // places with different numbers of arguments
    let one = place_one(alloc, Ty::Var(2))?;
    let two = place_two(alloc, Ty::Var(2), Ty::Var(2))?;
    let answer = solver.equate(&one, &two);
    assert!(rt; clashes(&answer, &one, &two));
    // inside an array it is a clash too: `[?2] = [[?2]]`
    let shallow = array(alloc, Ty::Var(2))?;
    let deep = array(alloc, array(alloc, Ty::Var(2))?)?;
    let answer = solver.equate(&shallow, &deep);
    assert!(rt; clashes(&answer, &shallow, &deep));
    // the refused equations bound nothing
    let read = solver.read(&Ty::Var(2))?;
    assert!(rt; same(&read, &Ty::Var(2)));
    Ok(())
}

#[test]
#[tactic(auto, using(ddl_types::proofs::TyLayers::layers))]
fn endless_equations_are_told(rt: HostRuntime) -> Result<(), Fail> {
    let alloc = rt.alloc();
    let mut solver = three(alloc)?;
    // a variable with itself changes nothing
    assert!(rt; solver.equate(&Ty::Var(0), &Ty::Var(0)).is_ok());
    // directly, and inside a place's arguments
    let around = array(alloc, Ty::Var(0))?;
    let answer = solver.equate(&Ty::Var(0), &around);
    assert!(rt; is_endless(&answer, 0, &around));
    let held = place_one(alloc, Ty::Var(0))?;
    let answer = solver.equate(&held, &Ty::Var(0));
    assert!(rt; is_endless(&answer, 0, &held));
    // through two equations: `?1 = [?2]`, `?2 = [?1]`
    assert!(rt;
        solver
            .equate(&Ty::Var(1), &array(alloc, Ty::Var(2))?)
            .is_ok()
    );
    let answer = solver.equate(&Ty::Var(2), &array(alloc, Ty::Var(1))?);
    assert!(rt; is_endless(&answer, 2, &array(alloc, array(alloc, Ty::Var(2))?)?));
    // the refused equations are not kept
    assert!(rt; solver.equate(&Ty::Var(2), &Ty::Bool).is_ok());
    let read = solver.read(&Ty::Var(1))?;
    assert!(rt; same(&read, &array(alloc, Ty::Bool)?));
    Ok(())
}
