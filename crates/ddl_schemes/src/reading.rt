//! Types as they are solved, and stacks of them.

ghost use Rattle.std.specs.Prelude.{◌≡◌, ◌∷◌, ◌++◌, IfOk, OnOk, map};
ghost use Rattle.ddl_types.specs.Types.{on};
ghost use Rattle.ddl_types.specs.TyView.{ty_view};
ghost use Rattle.ddl_unify.specs.State.{solution};
ghost use Rattle.ddl_schemes.specs.FoundView.{waiting};

use ddl_base::NoMemory;
use ddl_types::Ty;
use ddl_unify::Solver;
use std::alloc::Global;

/// Types as they are solved.
pub(crate) fn read_all(alloc: Global, solver: &Solver, types: &[Ty]) -> Result<Vec<Ty>, NoMemory>
    ensures { IfOk result (λ v. map ty_view v.items ≡ map (λ t. on t (solution solver.now)) (map ty_view types.now)) }
{
    let mut read = Vec::new(alloc);
    for t in types {
        read.push(solver.read(t)?)?;
    }
    Ok(read)
}

/// Puts types on a stack, the first one last.
#[tactic(auto, using(crate::proofs::Stacks::stacks))]
pub(crate) fn push_all(stack: &mut Vec<Ty>, mut types: Vec<Ty>) -> Result<(), NoMemory>
    ensures { OnOk result (waiting stack.new.items ≡ map ty_view types.items ++ waiting stack.old.items) }
{
    while let Some(t) = types.pop() {
        stack.push(t)?;
    }
    Ok(())
}

/// Puts two types on a stack, the first one last.
#[tactic(auto, using(crate::proofs::Stacks::stacks))]
pub(crate) fn push_two(stack: &mut Vec<Ty>, first: Box<Ty>, second: Box<Ty>) -> Result<(), NoMemory>
    ensures { OnOk result (waiting stack.new.items ≡ ty_view first.value ∷ ty_view second.value
        ∷ waiting stack.old.items) }
{
    stack.push(Box::into_inner(second))?;
    stack.push(Box::into_inner(first))?;
    Ok(())
}
