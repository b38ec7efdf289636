//! Types that are no variables: their heads and their parts.

ghost use Rattle.std.specs.Prelude.{◌≡◌, ◌++◌, ◌∷◌, [], IfOk, true, map, length};
ghost use Rattle.ddl_types.specs.Types.{Ty.con, Tys.none, Tys.more, Head.maybe_of, Head.array_of, Head.map_of};
ghost use Rattle.ddl_types.specs.Types.{Head.place, tys_of};
ghost use Rattle.ddl_types.specs.TyView.{ty_view};
ghost use Rattle.ddl_unify.specs.Heads.{alike, pairs, parts};
ghost use Rattle.ddl_unify.specs.Equations.{equal};
ghost use Rattle.ddl_unify.specs.View.{equations};

use crate::store::Pair;
use ddl_base::NoMemory;
use ddl_types::Ty;

/// Whether two types have one head and as many parts.
#[tactic(auto, using(ddl_types::proofs::TyLayers::layers, crate::proofs::Parts::lengths))]
pub fn is_alike(left: &Ty, right: &Ty) -> bool
    ensures { result ≡ alike (ty_view left.now) (ty_view right.now) }
{
    match left {
        Ty::Var(_) => false,
        Ty::Int => matches!(right, Ty::Int),
        Ty::Uint(m) => match right {
            Ty::Uint(n) => *m == *n,
            _ => false,
        },
        Ty::Sint(m) => match right {
            Ty::Sint(n) => *m == *n,
            _ => false,
        },
        Ty::Bool => matches!(right, Ty::Bool),
        Ty::Unit => matches!(right, Ty::Unit),
        Ty::Stream => matches!(right, Ty::Stream),
        Ty::Maybe(_) => matches!(right, Ty::Maybe(_)),
        Ty::Array(_) => matches!(right, Ty::Array(_)),
        Ty::Map(_, _) => matches!(right, Ty::Map(_, _)),
        Ty::Bits(m) => match right {
            Ty::Bits(n) => *m == *n,
            _ => false,
        },
        Ty::Place(m, ls) => match right {
            Ty::Place(n, rs) => *m == *n && ls.len() == rs.len(),
            _ => false,
        },
    }
}

/// Puts the equations between the parts of two types on a stack, the first part's last.
#[tactic(auto, using(ddl_types::proofs::TyLayers::layers, crate::proofs::Parts::splits))]
pub fn push_parts(stack: &mut Vec<Pair>, left: Ty, right: Ty) -> Result<(), NoMemory>
    requires { alike (ty_view left) (ty_view right) ≡ true }
    ensures { IfOk result (λ _. equations stack.new.items ≡ equations stack.old.items
        ++ pairs (parts (ty_view left)) (parts (ty_view right))) }
{
    match left {
        Ty::Maybe(inner) => {
            push_maybe(stack, inner, right)?;
            Ok(())
        }
        Ty::Array(element) => {
            push_array(stack, element, right)?;
            Ok(())
        }
        Ty::Map(key, value) => {
            push_map(stack, key, value, right)?;
            Ok(())
        }
        Ty::Place(number, ls) => {
            push_place(stack, number, ls, right)?;
            Ok(())
        }
        _ => Ok(()),
    }
}

#[tactic(auto, using(ddl_types::proofs::TyLayers::layers, crate::proofs::Parts::splits))]
fn push_maybe(stack: &mut Vec<Pair>, left: Box<Ty>, right: Ty) -> Result<(), NoMemory>
    requires { alike (con maybe_of (more (ty_view left.value) none)) (ty_view right) ≡ true }
    ensures { IfOk result (λ _. equations stack.new.items ≡ equations stack.old.items
        ++ pairs (more (ty_view left.value) none) (parts (ty_view right))) }
{
    match right {
        Ty::Maybe(inner) => {
            push_boxes(stack, left, inner)?;
            Ok(())
        }
        _ => Ok(()),
    }
}

#[tactic(auto, using(ddl_types::proofs::TyLayers::layers, crate::proofs::Parts::splits))]
fn push_array(stack: &mut Vec<Pair>, left: Box<Ty>, right: Ty) -> Result<(), NoMemory>
    requires { alike (con array_of (more (ty_view left.value) none)) (ty_view right) ≡ true }
    ensures { IfOk result (λ _. equations stack.new.items ≡ equations stack.old.items
        ++ pairs (more (ty_view left.value) none) (parts (ty_view right))) }
{
    match right {
        Ty::Array(element) => {
            push_boxes(stack, left, element)?;
            Ok(())
        }
        _ => Ok(()),
    }
}

#[tactic(auto, using(ddl_types::proofs::TyLayers::layers, crate::proofs::Parts::splits))]
fn push_map(stack: &mut Vec<Pair>, key: Box<Ty>, value: Box<Ty>, right: Ty) -> Result<(), NoMemory>
    requires { alike (con map_of (more (ty_view key.value) (more (ty_view value.value) none))) (ty_view right) ≡ true }
    ensures { IfOk result (λ _. equations stack.new.items ≡ equations stack.old.items
        ++ pairs (more (ty_view key.value) (more (ty_view value.value) none)) (parts (ty_view right))) }
{
    match right {
        Ty::Map(right_key, right_value) => {
            push_boxes(stack, value, right_value)?;
            push_boxes(stack, key, right_key)?;
            Ok(())
        }
        _ => Ok(()),
    }
}

#[tactic(auto, using(ddl_types::proofs::TyLayers::layers, crate::proofs::Parts::splits))]
fn push_boxes(stack: &mut Vec<Pair>, left: Box<Ty>, right: Box<Ty>) -> Result<(), NoMemory>
    ensures { IfOk result (λ _. equations stack.new.items ≡ equations stack.old.items
        ++ equal (ty_view left.value) (ty_view right.value) ∷ []) }
{
    stack.push(Pair {
        left: Box::into_inner(left),
        right: Box::into_inner(right),
    })?;
    Ok(())
}

#[tactic(auto, using(ddl_types::proofs::TyLayers::layers, crate::proofs::Parts::splits))]
fn push_place(stack: &mut Vec<Pair>, number: u32, ls: Vec<Ty>, right: Ty) -> Result<(), NoMemory>
    requires { alike (con (place number) (tys_of (map ty_view ls.items))) (ty_view right) ≡ true }
    ensures { IfOk result (λ _. equations stack.new.items ≡ equations stack.old.items
        ++ pairs (tys_of (map ty_view ls.items)) (parts (ty_view right))) }
{
    match right {
        Ty::Place(_, rs) => {
            push_all(stack, ls, rs)?;
            Ok(())
        }
        _ => Ok(()),
    }
}

#[tactic(auto, using(crate::proofs::Parts::splits))]
fn push_all(stack: &mut Vec<Pair>, mut ls: Vec<Ty>, mut rs: Vec<Ty>) -> Result<(), NoMemory>
    requires { length ls.items ≡ length rs.items }
    ensures { IfOk result (λ _. equations stack.new.items ≡ equations stack.old.items
        ++ pairs (tys_of (map ty_view ls.items)) (tys_of (map ty_view rs.items))) }
{
    while let Some(left) = ls.pop() {
        if let Some(right) = rs.pop() {
            stack.push(Pair { left, right })?;
        }
    }
    Ok(())
}
