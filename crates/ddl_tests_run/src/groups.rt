//! Worked rows, and a long chain and a large group.
use ddl_base::{NoMemory, Span};
use ddl_groups::groups;
use ddl_names::{Bound, BuiltIn, Resolved, Use};
use ddl_sample_groups::{Uses, declarations, declared};
use std::alloc::Global;
use std::test::Fail;

const SPAN: Span = Span {
    module: 1,
    from: 0,
    to: 1,
};

/// So many declarations with these uses, each of the second declaration by the first.
fn resolved(alloc: Global, count: u32, uses: &[(u32, u32)]) -> Result<Resolved, NoMemory> {
    let mut decls = Vec::new(alloc);
    let mut all = Vec::new(alloc);
    for declaration in 0..count {
        decls.push(declared(alloc, all.len())?)?;
        for (from, to) in uses {
            if *from == declaration {
                all.push(Use {
                    span: SPAN,
                    bound: Bound::Decl(*to),
                })?;
            }
        }
    }
    Ok(Resolved {
        units: Vec::new(alloc),
        decls,
        uses: all,
    })
}

fn told(alloc: Global, count: u32, uses: &[(u32, u32)]) -> Result<String, NoMemory> {
    let found = groups(alloc, &resolved(alloc, count, uses)?)?;
    let text = format!(in alloc; "{:?}", found.lists)?;
    Ok(text)
}

#[test]
fn groups_stand_in_the_order_of_need_and_of_text(rt: HostRuntime) -> Result<(), Fail> {
    let alloc = rt.alloc();
    assert_eq!(rt; told(alloc, 0, [].as_slice())?.as_str(), "[]");
    assert_eq!(rt; told(alloc, 1, [(0, 0)].as_slice())?.as_str(), "[[0]]");
    assert_eq!(rt;
        told(alloc, 3, [(0, 2)].as_slice())?.as_str(),
        "[[1], [2], [0]]"
    );
    assert_eq!(rt;
        told(
            alloc,
            4,
            [(0, 1), (1, 0), (0, 2), (2, 3), (3, 2)].as_slice()
        )?
        .as_str(),
        "[[2, 3], [0, 1]]"
    );
    assert_eq!(rt;
        told(
            alloc,
            5,
            [(0, 4), (4, 2), (2, 0), (3, 1), (1, 4)].as_slice()
        )?
        .as_str(),
        "[[0, 2, 4], [1], [3]]"
    );
    Ok(())
}

/// Each declaration uses the next, and in the group the last one the first.
#[test]
fn a_long_chain_and_a_large_group_are_no_trouble(rt: HostRuntime) -> Result<(), Fail> {
    let alloc = rt.alloc();
    let chain = declarations(alloc, Uses::Chain, 60_000, 1)?;
    assert_eq!(rt; groups(alloc, &chain)?.lists.len(), 60_000);
    let ring = declarations(alloc, Uses::Ring, 60_000, 1)?;
    assert_eq!(rt; groups(alloc, &ring)?.lists.len(), 1);
    Ok(())
}

/// The first of three declarations uses the last, and the last the second: the uses are told by where they begin.
#[test]
fn uses_stand_in_their_declarations(rt: HostRuntime) -> Result<(), Fail> {
    let alloc = rt.alloc();
    let mut decls = Vec::new(alloc);
    let mut uses = Vec::new(alloc);
    for first_use in [0, 3, 3] {
        decls.push(declared(alloc, first_use)?)?;
    }
    for bound in [
        Bound::Local(SPAN),
        Bound::Decl(2),
        Bound::BuiltIn(BuiltIn::UInt8),
        Bound::Decl(1),
    ] {
        uses.push(Use { span: SPAN, bound })?;
    }
    let resolved = Resolved {
        units: Vec::new(alloc),
        decls,
        uses,
    };
    let found = groups(alloc, &resolved)?;
    let text = format!(in alloc; "{:?}", found.lists)?;
    assert_eq!(rt; text.as_str(), "[[1], [2], [0]]");
    Ok(())
}
