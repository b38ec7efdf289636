use ddl_base::{Bytes, NoMemory, Span};
use ddl_names::{Bound, BuiltIn, DeclInfo, Resolved, Use};
use ddl_tree::{ByteLit, Cls, Decl, Kind, Name};
use std::alloc::Global;

/// What each declaration uses: the next ones, those after the last being the first ones or none; or no declaration.
#[derive(Clone, Copy)]
pub enum Uses {
    Chain,
    Ring,
    Nothing,
}

const SPAN: Span = Span {
    module: 1,
    from: 0,
    to: 1,
};

/// What the use `step` places on from a declaration is bound to, of so many.
fn bound(uses: Uses, count: u32, declaration: u32, step: u32) -> Bound {
    let to = declaration.wrapping_add(step);
    match uses {
        Uses::Chain => Bound::Decl(to),
        Uses::Ring => Bound::Decl(to.checked_rem(count).unwrap_or(0)),
        Uses::Nothing => Bound::BuiltIn(BuiltIn::UInt8),
    }
}

/// `def $c = 'c'`, whose uses begin at a place of all.
pub fn declared(alloc: Global, first_use: usize) -> Result<DeclInfo, NoMemory> {
    let name = Name {
        text: Bytes::of(alloc, b"$c")?,
        span: SPAN,
    };
    let byte = ByteLit::Quoted {
        value: b'c',
        span: SPAN,
    };
    Ok(DeclInfo {
        unit: 1,
        name: Bytes::of(alloc, b"$c")?,
        kind: Kind::Class,
        params: Vec::new(alloc),
        first_use,
        decl: Decl::Class {
            name,
            body: Cls::One(byte),
            span: SPAN,
        },
    })
}

/// So many declarations, with so many uses in each.
pub fn declarations(
    alloc: Global,
    uses: Uses,
    count: u32,
    each: u32,
) -> Result<Resolved, NoMemory> {
    let mut decls = Vec::new(alloc);
    let mut all = Vec::new(alloc);
    for declaration in 0..count {
        decls.push(declared(alloc, all.len())?)?;
        for step in 0..each {
            all.push(Use {
                span: SPAN,
                bound: bound(uses, count, declaration, step.wrapping_add(1)),
            })?;
        }
    }
    Ok(Resolved {
        units: Vec::new(alloc),
        decls,
        uses: all,
    })
}
