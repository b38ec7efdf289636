//! Solving: equations taken apart, and variables bound, until none is left.

ghost use Rattle.std.specs.Prelude.{◌≡◌, ◌∷◌, ◌++◌, [], List, IfOk, OnOk, IfSome};
ghost use Rattle.ddl_types.specs.Types.{Ty.var, Below, on};
ghost use Rattle.ddl_types.specs.TyView.{ty_view};
ghost use Rattle.ddl_unify.specs.declared.store.Bound.{Bound};
ghost use Rattle.ddl_unify.specs.Bindings.{Unbound};
ghost use Rattle.ddl_unify.specs.Equations.{Equation, equal, EachBelow};
ghost use Rattle.ddl_unify.specs.Comparing.{Remembers, MayAwait, Remembered};
ghost use Rattle.ddl_unify.specs.Heads.{IsCon};
ghost use Rattle.ddl_unify.specs.Occurs.{NoVar};
ghost use Rattle.ddl_unify.specs.View.{equations, pair_view};
ghost use Rattle.ddl_unify.specs.Trails.{bindings, solution, variables, CanBind};
ghost use Rattle.ddl_unify.specs.Solving.{BindIs, MayBind, Opened, SplitIs, Turned, Settled, Tried};

use crate::compared::Compared;
use crate::heads::{is_alike, push_parts};
use crate::occurs::occurs;
use crate::reading::unbound;
use crate::store::{Pair, copied};
use crate::trail::Trail;
use ddl_base::NoMemory;
use ddl_types::Ty;
use std::alloc::Global;

/// A type that is no variable, for one that is read as such: itself, or what a variable is bound to.
#[tactic(auto, using(ddl_types::proofs::TyLayers::layers, crate::proofs::Opening::openings))]
fn opened(alloc: Global, trail: &Trail, t: Ty) -> Result<Ty, NoMemory>
    requires con { NoVar (on (ty_view t) (solution trail.now)) }
    requires below { Below (ty_view t) (variables trail.now) }
    ensures { IfOk result (λ r. Opened trail.now (ty_view t) (ty_view r)) }
{
    match t {
        Ty::Var(v) => {
            let r = opened_at(alloc, trail, v)?;
            Ok(r)
        }
        other => Ok(other),
    }
}

#[cycle(opened)]
#[tactic(auto, using(ddl_types::proofs::TyLayers::layers, crate::proofs::Opening::openings))]
fn opened_at(alloc: Global, trail: &Trail, v: u32) -> Result<Ty, NoMemory>
    requires con { NoVar (on (var v) (solution trail.now)) }
    ensures { IfOk result (λ r. Opened trail.now (var v) (ty_view r)) }
{
    match trail.bound_to(v) {
        None => Ok(Ty::Var(v)),
        Some(to) => {
            let r = opened_in(alloc, trail, to)?;
            Ok(r)
        }
    }
}

#[cycle(opened)]
#[tactic(auto, using(ddl_types::proofs::TyLayers::layers, crate::proofs::Opening::openings))]
fn opened_in(alloc: Global, trail: &Trail, t: &Ty) -> Result<Ty, NoMemory>
    requires con { NoVar (on (ty_view t.now) (solution trail.now)) }
    requires below { Below (ty_view t.now) (variables trail.now) }
    ensures { IfOk result (λ r. Opened trail.now (ty_view t.now) (ty_view r)) }
{
    match t {
        Ty::Var(v) => {
            let r = opened_at(alloc, trail, *v)?;
            Ok(r)
        }
        other => {
            let r = other.copy(alloc)?;
            Ok(r)
        }
    }
}

/// Binds a variable that is not bound to a type that does not hold it.
fn bind(trail: &mut Trail, v: u32, t: Ty) -> Result<bool, NoMemory>
    requires { CanBind trail.old v (ty_view t) }
    ensures { BindIs result trail.old v (ty_view t) trail.new }
{
    match trail.bind(v, t) {
        Ok(()) => Ok(true),
        Err(e) => Err(e),
    }
}

/// Makes two variables that are not bound equal.
fn bind_same(trail: &mut Trail, v: u32, w: u32) -> Result<bool, NoMemory>
    requires v { MayBind trail.old v (var w) }
    requires w { Unbound w (bindings trail.old) }
    ensures { BindIs result trail.old v (var w) trail.new }
{
    if v == w {
        return Ok(true);
    }
    bind(trail, v, Ty::Var(w))
}

/// Binds a variable that is not bound to a type that is read as none; false where that holds it.
fn bind_checked(alloc: Global, trail: &mut Trail, v: u32, t: Ty) -> Result<bool, NoMemory>
    requires may { MayBind trail.old v (ty_view t) }
    requires con { NoVar (on (ty_view t) (solution trail.old)) }
    ensures { BindIs result trail.old v (ty_view t) trail.new }
{
    match occurs(alloc, trail, &t, v) {
        Ok(false) => bind(trail, v, t),
        Ok(true) => Ok(false),
        Err(e) => Err(e),
    }
}

/// Makes a variable that is not bound equal to a type; false where that has no solution.
fn bind_to(alloc: Global, trail: &mut Trail, v: u32, t: Ty) -> Result<bool, NoMemory>
    requires { MayBind trail.old v (ty_view t) }
    ensures { BindIs result trail.old v (ty_view t) trail.new }
{
    match unbound(trail, &t) {
        Some(w) => bind_same(trail, v, w),
        None => bind_checked(alloc, trail, v, t),
    }
}

/// Takes two types apart that are no variables; false where their heads differ.
fn split(stack: &mut Vec<Pair>, left: Ty, right: Ty) -> Result<bool, NoMemory>
    requires left_con { IsCon (ty_view left) }
    requires right_con { IsCon (ty_view right) }
    ensures { IfOk result (λ b. SplitIs b (ty_view left) (ty_view right)
        (equations stack.old.items) (equations stack.new.items)) }
{
    if !is_alike(&left, &right) {
        return Ok(false);
    }
    push_parts(stack, left, right)?;
    Ok(true)
}

/// Solves one equation, or puts those between its parts on the stack; false where it has no solution.
fn step(
    alloc: Global,
    trail: &mut Trail,
    stack: &mut Vec<Pair>,
    pair: Pair,
) -> Result<bool, NoMemory>
    requires { EachBelow (pair_view pair ∷ equations stack.old.items) (variables trail.old) }
    ensures { Turned result trail.old (equations stack.old.items) (ty_view pair.left) (ty_view pair.right)
        trail.new (equations stack.new.items) }
{
    let Pair { left, right } = pair;
    match unbound(trail, &left) {
        Some(v) => bind_to(alloc, trail, v, right),
        None => step_right(alloc, trail, stack, left, right),
    }
}

/// The same for a type that is read as no variable on the left.
fn step_right(
    alloc: Global,
    trail: &mut Trail,
    stack: &mut Vec<Pair>,
    left: Ty,
    right: Ty,
) -> Result<bool, NoMemory>
    requires con { NoVar (on (ty_view left) (solution trail.old)) }
    requires below { EachBelow (equal (ty_view left) (ty_view right) ∷ equations stack.old.items)
        (variables trail.old) }
    ensures { Turned result trail.old (equations stack.old.items) (ty_view left) (ty_view right)
        trail.new (equations stack.new.items) }
{
    match unbound(trail, &right) {
        Some(v) => bind_to(alloc, trail, v, left),
        None => split_read(alloc, trail, stack, left, right),
    }
}

/// The same for two types that are read as no variables.
fn split_read(
    alloc: Global,
    trail: &Trail,
    stack: &mut Vec<Pair>,
    left: Ty,
    right: Ty,
) -> Result<bool, NoMemory>
    requires left_con { NoVar (on (ty_view left) (solution trail.now)) }
    requires right_con { NoVar (on (ty_view right) (solution trail.now)) }
    requires below { EachBelow (equal (ty_view left) (ty_view right) ∷ equations stack.old.items)
        (variables trail.now) }
    ensures { Turned result trail.now (equations stack.old.items) (ty_view left) (ty_view right)
        trail.now (equations stack.new.items) }
{
    match opened(alloc, trail, left) {
        Ok(left) => split_opened(alloc, trail, stack, left, right),
        Err(e) => Err(e),
    }
}

/// The same where the left type is none as it is written.
fn split_opened(
    alloc: Global,
    trail: &Trail,
    stack: &mut Vec<Pair>,
    left: Ty,
    right: Ty,
) -> Result<bool, NoMemory>
    requires left_con { IsCon (ty_view left) }
    requires right_con { NoVar (on (ty_view right) (solution trail.now)) }
    requires below { EachBelow (equal (ty_view left) (ty_view right) ∷ equations stack.old.items)
        (variables trail.now) }
    ensures { Turned result trail.now (equations stack.old.items) (ty_view left) (ty_view right)
        trail.now (equations stack.new.items) }
{
    match opened(alloc, trail, right) {
        Ok(right) => split(stack, left, right),
        Err(e) => Err(e),
    }
}

/// The variables that two types are, if both are.
#[tactic(auto, using(ddl_types::proofs::TyLayers::layers))]
fn variables(pair: &Pair) -> Option<(u32, u32)>
    ensures { IfSome result (λ p. (ty_view pair.now.left ≡ var p.0) × (ty_view pair.now.right ≡ var p.1)) }
{
    match &pair.left {
        Ty::Var(v) => match &pair.right {
            Ty::Var(w) => Some((*v, *w)),
            _ => None,
        },
        _ => None,
    }
}

/// Two variables are equal once the equations above the given number are solved, if there are any.
fn await_parts(
    compared: &mut Compared,
    left: u32,
    right: u32,
    above: usize,
    count: usize,
) -> Result<(), NoMemory>
    ensures { OnOk result ((xs : List Bound) (es : List Equation) →
        MayAwait left right above compared.old compared.new xs es) }
{
    if count == above {
        return Ok(());
    }
    compared.expect(left, right, above)
}

/// The same for two variables; nothing is left to do where they were made equal before.
fn compare(
    alloc: Global,
    trail: &mut Trail,
    stack: &mut Vec<Pair>,
    compared: &mut Compared,
    pair: Pair,
    left: u32,
    right: u32,
) -> Result<bool, NoMemory>
    requires left { ty_view pair.left ≡ var left }
    requires right { ty_view pair.right ≡ var right }
    requires below { EachBelow (pair_view pair ∷ equations stack.old.items) (variables trail.old) }
    requires remembers { Remembers compared.old trail.old.0 (equations stack.old.items ++ pair_view pair ∷ []) }
    ensures step { Turned result trail.old (equations stack.old.items) (ty_view pair.left) (ty_view pair.right)
        trail.new (equations stack.new.items) }
    ensures remembers { Remembered result compared.new trail.new.0 (equations stack.new.items) }
{
    if compared.knows(left, right) {
        return Ok(true);
    }
    let above = stack.len();
    match step(alloc, trail, stack, pair) {
        Ok(true) => match await_parts(compared, left, right, above, stack.len()) {
            Ok(()) => Ok(true),
            Err(e) => Err(e),
        },
        Ok(false) => Ok(false),
        Err(e) => Err(e),
    }
}

/// One step, with what is remembered of the steps before.
fn turn(
    alloc: Global,
    trail: &mut Trail,
    stack: &mut Vec<Pair>,
    compared: &mut Compared,
    pair: Pair,
) -> Result<bool, NoMemory>
    requires below { EachBelow (pair_view pair ∷ equations stack.old.items) (variables trail.old) }
    requires remembers { Remembers compared.old trail.old.0 (equations stack.old.items ++ pair_view pair ∷ []) }
    ensures step { Turned result trail.old (equations stack.old.items) (ty_view pair.left) (ty_view pair.right)
        trail.new (equations stack.new.items) }
    ensures remembers { Remembered result compared.new trail.new.0 (equations stack.new.items) }
{
    match compared.settle(stack.len()) {
        Ok(()) => {}
        Err(e) => return Err(e),
    }
    match variables(&pair) {
        None => step(alloc, trail, stack, pair),
        Some((v, w)) => compare(alloc, trail, stack, compared, pair, v, w),
    }
}

/// Solves the equations of a stack; false where they have no solution.
fn solve(
    alloc: Global,
    trail: &mut Trail,
    stack: &mut Vec<Pair>,
    compared: &mut Compared,
) -> Result<bool, NoMemory>
    requires below { EachBelow (equations stack.old.items) (variables trail.old) }
    requires remembers { Remembers compared.old trail.old.0 (equations stack.old.items) }
    ensures { Settled result trail.old (equations stack.old.items) trail.new }
{
    while let Some(pair) = stack.pop() {
        match turn(alloc, trail, stack, compared, pair) {
            Ok(true) => {}
            Ok(false) => return Ok(false),
            Err(e) => return Err(e),
        }
    }
    Ok(true)
}

/// Solves one equation; what was bound on the way stays.
fn solve_one(alloc: Global, trail: &mut Trail, left: &Ty, right: &Ty) -> Result<bool, NoMemory>
    requires { EachBelow (equal (ty_view left.now) (ty_view right.now) ∷ []) (variables trail.old) }
    ensures { Settled result trail.old (equal (ty_view left.now) (ty_view right.now) ∷ []) trail.new }
{
    match copied(alloc, left, right) {
        Ok(pair) => solve_pair(alloc, trail, pair),
        Err(e) => Err(e),
    }
}

/// The same for a copy of the equation.
fn solve_pair(alloc: Global, trail: &mut Trail, pair: Pair) -> Result<bool, NoMemory>
    requires { EachBelow (pair_view pair ∷ []) (variables trail.old) }
    ensures { Settled result trail.old (pair_view pair ∷ []) trail.new }
{
    let mut stack = Vec::new(alloc);
    match stack.push(pair) {
        Ok(()) => {}
        Err(_) => return Err(NoMemory),
    }
    let mut compared = Compared::new(alloc);
    solve(alloc, trail, &mut stack, &mut compared)
}

/// Solves one equation, or leaves the bindings as they were.
pub fn try_solve(alloc: Global, trail: &mut Trail, left: &Ty, right: &Ty) -> Result<bool, NoMemory>
    requires { EachBelow (equal (ty_view left.now) (ty_view right.now) ∷ []) (variables trail.old) }
    ensures { Tried result trail.old (ty_view left.now) (ty_view right.now) trail.new }
{
    let n = trail.len();
    match solve_one(alloc, trail, left, right) {
        Ok(true) => {
            trail.law();
            Ok(true)
        }
        Ok(false) => {
            trail.undo(n);
            Ok(false)
        }
        Err(e) => {
            trail.undo(n);
            Err(e)
        }
    }
}
