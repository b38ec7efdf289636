//! Types that several files of tests build and compare.
ghost use Rattle.std.specs.Prelude.{◌≡◌, IfOk};
ghost use Rattle.ddl_types.specs.Types.{Ty.con, Tys.none, Tys.more, Head.array_of};
ghost use Rattle.ddl_types.specs.TyView.{ty_view};

use ddl_base::NoMemory;
use ddl_types::Ty;
use std::alloc::Global;

#[tactic(auto, using(ddl_types::proofs::TyLayers::layers))]
pub(crate) fn array(alloc: Global, t: Ty) -> Result<Ty, NoMemory>
    ensures { IfOk result (λ r. ty_view r ≡ con array_of (more (ty_view t) none)) }
{
    Ok(Ty::Array(Box::new(alloc, t)?))
}

/// Whether two types are one, at the forms that the tests have. Of places the numbers of arguments are compared.
pub(crate) fn same(left: &Ty, right: &Ty) -> bool {
    match left {
        Ty::Var(m) => matches!(right, Ty::Var(n) if *m == *n),
        Ty::Uint(m) => matches!(right, Ty::Uint(n) if *m == *n),
        Ty::Int => matches!(right, Ty::Int),
        Ty::Bool => matches!(right, Ty::Bool),
        Ty::Unit => matches!(right, Ty::Unit),
        Ty::Maybe(x) => match right {
            Ty::Maybe(y) => same(x, y),
            _ => false,
        },
        Ty::Array(x) => match right {
            Ty::Array(y) => same(x, y),
            _ => false,
        },
        Ty::Map(k, x) => match right {
            Ty::Map(l, y) => same(k, l) && same(x, y),
            _ => false,
        },
        Ty::Place(_, ls) => match right {
            Ty::Place(_, rs) => ls.len() == rs.len(),
            _ => false,
        },
        _ => false,
    }
}
