ghost use Rattle.std.specs.Prelude.{◌≡◌, ◌+◌, ◌^◌, ◌<◌, ◌-◌, ℕ, IfOk, OnOk};
ghost use Rattle.ddl_types.specs.Types.{Below};
ghost use Rattle.ddl_types.specs.TyView.{ty_view};
ghost use Rattle.ddl_unify.specs.State.{variables};

use ddl_base::NoMemory;
use ddl_types::Ty;
use ddl_unify::{EquateError, Solver};
use std::alloc::Global;

/// What a variable of a tower is made of: an array of another, or a map from it to itself.
#[derive(Clone, Copy)]
pub enum Link {
    Array,
    Map,
}

/// Whether each variable is made of the one that comes after it, or of the one before.
#[derive(Clone, Copy)]
pub enum Order {
    Downward,
    Upward,
}

/// One tower, or two whose outermost variables are made equal.
#[derive(Clone, Copy)]
pub enum Towers {
    One,
    TwoEqual,
}

#[tactic(auto, using(ddl_types::proofs::TyLayers::layers))]
fn made_of(alloc: Global, link: Link, variable: u32) -> Result<Ty, NoMemory>
    ensures { IfOk result (λ t. (n : ℕ) → variable < n → Below (ty_view t) n) }
{
    let part = Box::new(alloc, Ty::Var(variable))?;
    match link {
        Link::Array => Ok(Ty::Array(part)),
        Link::Map => Ok(Ty::Map(part, Box::new(alloc, Ty::Var(variable))?)),
    }
}

/// Makes a variable of another.
#[tactic(auto, using(ddl_types::proofs::TyLayers::layers))]
fn tie(
    alloc: Global,
    solver: &mut Solver,
    link: Link,
    from: u32,
    to: u32,
) -> Result<(), EquateError>
    requires from_below { from < variables solver.old }
    requires to_below { to < variables solver.old }
    ensures { OnOk result (variables solver.new ≡ variables solver.old) }
{
    let made = made_of(alloc, link, to)?;
    solver.equate(&Ty::Var(from), &made)?;
    Ok(())
}

/// Makes a tower of new variables, one link after the other; gives the outermost.
fn build(
    alloc: Global,
    solver: &mut Solver,
    link: Link,
    order: Order,
    height: u32,
) -> Result<u32, EquateError>
    requires height { height < 2 ^ 24 }
    requires room { variables solver.old < 2 ^ 25 }
    ensures count { IfOk result (λ _. variables solver.new ≡ variables solver.old + height + 1) }
    ensures outermost { IfOk result (λ top. top < variables solver.new) }
{
    let first = solver.fresh()?;
    let mut last = first;
    for _ in 0..height {
        let next = solver.fresh()?;
        match order {
            Order::Downward => tie(alloc, solver, link, last, next)?,
            Order::Upward => tie(alloc, solver, link, next, last)?,
        }
        last = next;
    }
    match order {
        Order::Downward => Ok(first),
        Order::Upward => Ok(last),
    }
}

/// Makes a tower; gives its height.
pub fn tower(alloc: Global, link: Link, order: Order, height: u32) -> Result<u32, EquateError>
    requires { height < 2 ^ 24 }
{
    let mut solver = Solver::new(alloc);
    build(alloc, &mut solver, link, order, height)?;
    Ok(height)
}

/// Makes two towers, and then their outermost variables equal; gives their height.
#[tactic(auto, using(ddl_types::proofs::TyLayers::layers))]
pub fn equal_towers(
    alloc: Global,
    link: Link,
    order: Order,
    height: u32,
) -> Result<u32, EquateError>
    requires { height < 2 ^ 24 }
{
    let mut solver = Solver::new(alloc);
    let left = build(alloc, &mut solver, link, order, height)?;
    let right = build(alloc, &mut solver, link, order, height)?;
    solver.equate(&Ty::Var(left), &Ty::Var(right))?;
    Ok(height)
}
