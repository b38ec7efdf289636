use ddl_types::{Cond, Scheme, Ty, instance};
use std::test::Fail;

// a scheme `[?0 -> ?1]` with a condition, at `int` and `uint 8`
#[test]
#[tactic(auto, using(ddl_types::proofs::TyLayers::layers))]
fn makes_an_instance(rt: HostRuntime) -> Result<(), Fail> {
    let alloc = rt.alloc();
    let mut conds = Vec::new(alloc);
    conds.push(Cond::Lit {
        number: 255,
        of: Ty::Var(1),
    })?;
    let scheme = Scheme {
        vars: 2,
        conds,
        of: Ty::Map(Box::new(alloc, Ty::Var(0))?, Box::new(alloc, Ty::Var(1))?),
    };
    let mut args = Vec::new(alloc);
    args.push(Ty::Int)?;
    args.push(Ty::Uint(8))?;
    let made = instance(alloc, &scheme, &args)?;
    match &made.of {
        Ty::Map(key, value) => {
            assert!(rt; matches!(**key, Ty::Int));
            assert!(rt; matches!(**value, Ty::Uint(8)));
        }
        _ => assert!(rt; false),
    }
    assert_eq!(rt; made.conds.len(), 1);
    Ok(())
}
