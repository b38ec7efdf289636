//! Which names are bound to what, and which modules are refused, over files in memory.

use crate::names::builtin;
use ddl_base::{Stage, Told};
use ddl_front::bound_modules;
use ddl_names::{Bound, Use, bindings};
use ddl_outside::{MemFiles, Refusal};
use ddl_tree::SourceUnit;
use std::alloc::Global;
use std::str;
use std::test::Fail;

/// The module `A`, and its uses with what binds each: the place of a local name, the number of a declaration, or a
/// built-in name. Behind them stand those of `B`.
const USES: [(&str, &str); 12] = [
    (
        "def Main = block { x = UInt8; let x = x; ^ x }",
        "23:UInt8 38:19 43:34",
    ),
    ("def P x = block { let x = x; ^ x }", "26:6 31:22"),
    ("def f xs = for (s = 0; x in xs) s + x", "28:6 32:16 36:23"),
    ("def f xs = map (k, x in xs) k", "24:6 28:16"),
    ("def f m = case m of { just x -> x; _ -> 0 }", "15:6 32:27"),
    ("def P Q = Q\ndef Q = END", "10:6 20:End"),
    ("def UInt8 = END\ndef Main = UInt8", "12:End 27:#0"),
    ("def a : B = 0\nbitdata B = 0b0", "8:#1"),
    ("def Main = P $[1 .. 3]\ndef P $c = $c", "11:#1 34:29"),
    ("def Main = First { a = 1; b = Fail \"no\" }", "30:Fail"),
    ("import B\ndef Main = F", "20:#1 8:UInt8"),
    (
        "import B\ndef F = END\ndef Main = F",
        "17:End 32:#0 8:UInt8",
    ),
];

/// The module `A`, and what is told of it.
const REFUSALS: [(&str, &str); 35] = [
    ("def Main = block { x = ^ x; END }", "Names.1 25..26"),
    (
        "def Main = block { block { x = UInt8 }; ^ x }",
        "Names.1 42..43",
    ),
    ("def f xs = map (x in x) x", "Names.1 21..22"),
    ("def f xs = for (s = s; x in xs) s", "Names.1 20..21"),
    (
        "def f m = case m of { just x -> 1; _ -> x }",
        "Names.1 40..41",
    ),
    ("def a = 1\ndef a = 2", "Names.2 14..15 4 5"),
    ("bitdata B = 0b0\ndef B = UInt8", "Names.2 20..21 8 9"),
    ("def f x x = 1", "Names.2 8..9 6 7"),
    (
        "def Main = block { x = UInt8; x = END }",
        "Names.2 30..31 19 20",
    ),
    (
        "def Main = block { $$ = UInt8; $$ = END }",
        "Names.2 31..33 19 21",
    ),
    (
        "def Main = First { a = UInt8; a = END }",
        "Names.2 30..31 19 20",
    ),
    ("def r = { a = 1, a = 2 }", "Names.2 17..18 10 11"),
    (
        "bitdata B where { a = 0b0; a = 0b1 }",
        "Names.2 27..28 18 19",
    ),
    (
        "bitdata B = { a : uint 1, a : uint 1 }",
        "Names.2 26..27 14 15",
    ),
    ("import B\nimport C\ndef Main = F", "Names.3 29..30 B C"),
    ("def Main = block { 3 }", "Names.4 19..20"),
    ("def Main = First { UInt8; 1 }", "Names.4 26..27"),
    ("def Main = ^ UInt8", "Names.4 13..18"),
    ("def Main = Many END UInt8", "Names.4 16..19"),
    ("def Main = if UInt8 then UInt8 else END", "Names.4 14..19"),
    (
        "def Main = block { x = if true then 1 else UInt8; END }",
        "Names.4 43..48",
    ),
    (
        "def Main = block { x = if true then UInt8 else 1; END }",
        "Names.4 47..48",
    ),
    ("def Main = P \"a\"\ndef P $c = $c", "Names.4 13..16"),
    ("def Main = Fail 1", "Names.4 16..17"),
    ("def f P = 1", "Names.4 6..7"),
    ("def a : UInt8 = 1", "Names.4 8..13"),
    ("def a = $c\ndef $c = 'c'", "Names.4 8..10"),
    ("def Main = G\ndef G x = ^ x", "Names.5 11..12 0 1"),
    ("def Main : G = ^ 1\ndef G x = ^ x", "Names.5 11..12 0 1"),
    ("def f = f 1", "Names.5 8..9 1 0"),
    ("def a = b\ndef c = UInt8", "Names.1 8..9"),
    ("def c = UInt8\ndef a = b", "Names.4 8..13"),
    ("def a = b\ndef c = 1\ndef c = 2", "Names.2 24..25 14 15"),
    ("def a = UInt8 b", "Names.4 8..13"),
    ("def Main = UInt8 b", "Names.5 11..16 1 0"),
];

/// What binds a use, behind what stands there.
fn push_use(alloc: Global, text: &mut String, used: &Use) -> Result<(), Fail> {
    if !text.is_empty() {
        text.push_str(" ")?;
    }
    let from = used.span.from;
    let shown = match used.bound {
        Bound::Local(span) => format!(in alloc; "{from}:{}", span.from)?,
        Bound::Decl(number) => format!(in alloc; "{from}:#{number}")?,
        Bound::BuiltIn(name) => format!(in alloc; "{from}:{}", builtin(name))?,
    };
    text.push_str(shown.as_str())?;
    Ok(())
}

/// What binds each use in these modules.
fn shown(alloc: Global, units: &[SourceUnit]) -> Result<String, Fail> {
    let mut text = String::new(alloc);
    for used in &bindings(alloc, units)?.all {
        push_use(alloc, &mut text, used)?;
    }
    Ok(text)
}

/// The cause of a refusal, where it stands, and what else is told.
fn told(alloc: Global, told: &Told) -> Result<String, Fail> {
    let stage = if told.stage == Stage::Names {
        "Names"
    } else {
        "another"
    };
    let mut text = format!(in alloc; "{stage}.{} {}..{}", told.number, told.from, told.to)?;
    for more in &told.more {
        text.push_str(" ")?;
        text.push_str(str::from_utf8(more.get())?)?;
    }
    Ok(text)
}

/// What comes of the module `A`. `B` and `C` declare the grammar `F`.
fn answered(alloc: Global, module: &str) -> Result<String, Fail> {
    let mut files = MemFiles::new(alloc);
    files.add("A.ddl", module.as_bytes().to_vec(alloc)?)?;
    files.add("B.ddl", b"def F = UInt8".to_vec(alloc)?)?;
    files.add("C.ddl", b"def F = UInt8".to_vec(alloc)?)?;
    match bound_modules(alloc, &mut files, "A") {
        Ok(units) => shown(alloc, &units),
        Err(Refusal::Refused(refusal)) => told(alloc, &refusal),
        Err(_other) => Ok(format!(in alloc; "no line")?),
    }
}

#[test]
fn names_are_bound(rt: HostRuntime) -> Result<(), Fail> {
    let alloc = rt.alloc();
    for (module, want) in &USES {
        assert_eq!(rt; answered(alloc, module)?.as_str(), *want);
    }
    Ok(())
}

#[test]
fn modules_are_refused(rt: HostRuntime) -> Result<(), Fail> {
    let alloc = rt.alloc();
    for (module, want) in &REFUSALS {
        assert_eq!(rt; answered(alloc, module)?.as_str(), *want);
    }
    Ok(())
}
