//! Worked rows over a prelude, a module and two that it imports.
use ddl_base::{Bytes, NoMemory};
use ddl_names::{Bound, BuiltIn, Resolved, resolve};
use ddl_samples::names;
use ddl_tree::{Decl, Expr, Module, Name, Param, SourceUnit};
use std::alloc::Global;
use std::test::Fail;

/// Two declarations of the module, each with the one name that it uses or with none, and what is told of them: the first
/// use of each declaration, and what the uses in the module are bound to.
const ROWS: [([(&str, &str); 2], &str); 13] = [
    (
        [("M", "Foo"), ("N", "END")],
        "Unknown(Span { module: 1, from: 2, to: 2 })",
    ),
    (
        [("M", "END"), ("M", "END")],
        "Twice(Span { module: 1, from: 10, to: 10 }, Span { module: 1, from: 0, to: 0 })",
    ),
    (
        [("M", "F"), ("N", "END")],
        "TwoImports(Span { module: 1, from: 2, to: 2 }, 2, 3)",
    ),
    (
        [("m", "END"), ("N", "END")],
        "WrongKind(Span { module: 1, from: 2, to: 2 })",
    ),
    (
        [("M", "Match"), ("N", "END")],
        "WrongCount { span: Span { module: 1, from: 2, to: 2 }, given: 0, wanted: 1 }",
    ),
    (
        [("M", "Foo"), ("N", "F")],
        "Unknown(Span { module: 1, from: 2, to: 2 })",
    ),
    (
        [("M", "F"), ("N", "Foo")],
        "TwoImports(Span { module: 1, from: 2, to: 2 }, 2, 3)",
    ),
    (
        [("m", "x"), ("N", "END")],
        "[0, 1, 2, 3, 4, 5] Local(Span { module: 1, from: 1, to: 1 }) BuiltIn(End)",
    ),
    (
        [("M", "N"), ("N", "M")],
        "[0, 1, 2, 3, 4, 5] Decl(2) Decl(1)",
    ),
    (
        [("M", "P"), ("N", "G")],
        "[0, 1, 2, 3, 4, 5] Decl(0) Decl(5)",
    ),
    ([("m", ""), ("N", "P")], "[0, 1, 1, 2, 3, 4] Decl(0)"),
    ([("M", "P"), ("n", "")], "[0, 1, 2, 2, 3, 4] Decl(0)"),
    (
        [("END", "P"), ("N", "END")],
        "[0, 1, 2, 3, 4, 5] Decl(0) Decl(1)",
    ),
];

fn name(alloc: Global, text: &str, module: u32, place: u32) -> Result<Name, NoMemory> {
    names::name(alloc, text.as_bytes(), names::span(module, place, place))
}

/// The name of a value or of a grammar, as it is spelled; or else no name.
fn body(text: &str, name: Name) -> Expr {
    match text.as_bytes().first() {
        None => Expr::True(name.span),
        Some(b'a'..=b'z') => Expr::Lower(name),
        Some(_) => Expr::Upper(name),
    }
}

/// `def M = e`, or `def m x = e`. Names that stand in it have places behind this one.
fn decl(alloc: Global, words: (&str, &str), module: u32, place: u32) -> Result<Decl, Fail> {
    let (called, used) = words;
    let name_of_it = name(alloc, called, module, place)?;
    let body = body(used, name(alloc, used, module, place.saturating_add(2))?);
    let span = name_of_it.span;
    let mut params = Vec::new(alloc);
    match called.as_bytes().first() {
        Some(b'a'..=b'z') => {
            params.push(Param::Lower(name(alloc, "x", module, place.saturating_add(1))?))?;
            Ok(Decl::Value {
                name: name_of_it,
                params,
                result: None,
                body,
                span,
            })
        }
        _ => Ok(Decl::Grammar {
            name: name_of_it,
            params,
            result: None,
            body,
            span,
        }),
    }
}

/// A module of these declarations.
fn unit(
    alloc: Global,
    module: u32,
    imports: &[u32],
    words: &[(&str, &str)],
) -> Result<SourceUnit, Fail> {
    let mut decls = Vec::new(alloc);
    let mut place = 0u32;
    for row in words {
        decls.push(decl(alloc, *row, module, place)?)?;
        place = place.saturating_add(10);
    }
    Ok(SourceUnit {
        name: Bytes::of(alloc, b"A")?,
        tree: Module {
            imports: Vec::new(alloc),
            decls,
        },
        imports: imports.to_vec(alloc)?,
    })
}

fn units(alloc: Global, words: &[(&str, &str)]) -> Result<Vec<SourceUnit>, Fail> {
    let mut units = Vec::new(alloc);
    units.push(unit(alloc, 0, [].as_slice(), [("P", "UInt8")].as_slice())?)?;
    units.push(unit(alloc, 1, [2, 3].as_slice(), words)?)?;
    units.push(unit(alloc, 2, [].as_slice(), [("F", "UInt8")].as_slice())?)?;
    units.push(unit(
        alloc,
        3,
        [].as_slice(),
        [("F", "UInt8"), ("G", "UInt8")].as_slice(),
    )?)?;
    Ok(units)
}

/// A built-in name of the rows.
pub(crate) fn builtin(name: BuiltIn) -> &'static str {
    match name {
        BuiltIn::End => "End",
        BuiltIn::Fail => "Fail",
        BuiltIn::UInt8 => "UInt8",
        _ => "another",
    }
}

fn bound(alloc: Global, bound: Bound) -> Result<String, Fail> {
    let text = match bound {
        Bound::Local(span) => format!(in alloc; " Local({span:?})")?,
        Bound::Decl(number) => format!(in alloc; " Decl({number})")?,
        Bound::BuiltIn(name) => format!(in alloc; " BuiltIn({})", builtin(name))?,
    };
    Ok(text)
}

fn shown(alloc: Global, resolved: &Resolved) -> Result<String, Fail> {
    let mut firsts = Vec::new(alloc);
    for decl in &resolved.decls {
        firsts.push(decl.first_use)?;
    }
    let mut text = format!(in alloc; "{firsts:?}")?;
    for found in &resolved.uses {
        if found.span.module == 1 {
            text.push_str(bound(alloc, found.bound)?.as_str())?;
        }
    }
    Ok(text)
}

#[test]
fn names_are_bound(rt: HostRuntime) -> Result<(), Fail> {
    let alloc = rt.alloc();
    for (words, want) in &ROWS {
        let text = match resolve(alloc, units(alloc, words.as_slice())?) {
            Ok(resolved) => shown(alloc, &resolved)?,
            Err(error) => format!(in alloc; "{error:?}")?,
        };
        assert_eq!(rt; text.as_str(), *want);
    }
    Ok(())
}
