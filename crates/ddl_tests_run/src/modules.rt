ghost use Rattle.std.specs.Prelude.{◌≡◌, IfOk};

use ddl_base::Bytes;
use ddl_modules::{LoadError, load};
use ddl_outside::MemFiles;
use ddl_tree::SourceUnit;
use std::alloc::Global;
use std::str;
use std::test::Fail;

/// A name behind what stands there.
fn push_name(text: &mut String, name: &Bytes) -> Result<(), Fail> {
    text.push_str(" ")?;
    text.push_str(str::from_utf8(name.get())?)?;
    Ok(())
}

/// The names of modules, one behind the other.
fn push_names(text: &mut String, names: &[Bytes]) -> Result<(), Fail> {
    for name in names {
        push_name(text, name)?;
    }
    Ok(())
}

/// The names of units, each with the numbers of those that it imports.
fn shown(alloc: Global, units: &[SourceUnit]) -> Result<String, Fail> {
    let mut text = String::new(alloc);
    for unit in units {
        push_name(&mut text, &unit.name)?;
        let imports = format!(in alloc; "{:?}", unit.imports)?;
        text.push_str(imports.as_str())?;
    }
    Ok(text)
}

/// What was answered, in words.
fn told(alloc: Global, answer: Result<Vec<SourceUnit>, LoadError>) -> Result<String, Fail> {
    match answer {
        Ok(units) => shown(alloc, &units),
        Err(LoadError::Missing(file)) => {
            let mut text = format!(in alloc; "missing")?;
            push_name(&mut text, &file)?;
            Ok(text)
        }
        Err(LoadError::TooMany { importer, span }) => {
            let mut text = format!(in alloc; "too many at {span:?}")?;
            push_name(&mut text, &importer)?;
            Ok(text)
        }
        Err(LoadError::Cycle { span, modules }) => {
            let mut text = format!(in alloc; "cycle at {span:?}")?;
            push_names(&mut text, &modules)?;
            Ok(text)
        }
        Err(error) => Ok(format!(in alloc; "{error}")?),
    }
}

/// Modules by their files, and what the root `d/A` answers.
const ROWS: [(&str, &str, &str); 7] = [
    (
        "import B\nimport Prelude\nimport C\ndef Main = UInt8",
        "import C",
        " Prelude[] A[2, 0, 3] B[3] C[]",
    ),
    (
        "import B\ndef Main = UInt8",
        "import A",
        "cycle at Span { module: 1, from: 7, to: 8 } A B",
    ),
    (
        "import C\nimport B",
        "import B",
        "cycle at Span { module: 3, from: 7, to: 8 } B",
    ),
    ("import B\nimport B", "", " Prelude[] A[2, 2] B[]"),
    (
        "import A",
        "",
        "cycle at Span { module: 1, from: 7, to: 8 } A",
    ),
    ("import D", "", "missing d/D.ddl"),
    ("import", "", "unexpected token 1"),
];

#[test]
fn modules_are_loaded(rt: HostRuntime) -> Result<(), Fail> {
    let alloc = rt.alloc();
    for (a, b, want) in &ROWS {
        let mut files = MemFiles::new(alloc);
        files.add("d/A.ddl", a.as_bytes().to_vec(alloc)?)?;
        files.add("d/B.ddl", b.as_bytes().to_vec(alloc)?)?;
        files.add("d/C.ddl", Vec::new(alloc))?;
        let answer = load(alloc, &mut files, "d/A");
        let text = told(alloc, answer)?;
        assert_eq!(rt; text.as_str(), *want);
    }
    Ok(())
}

/// A load of three modules asks for a length and for bytes three times.
#[test]
fn each_failing_call_is_told(rt: HostRuntime) -> Result<(), Fail> {
    let alloc = rt.alloc();
    for call in 1u64..=7 {
        let mut files = MemFiles::new(alloc);
        files.add("A.ddl", b"import B".to_vec(alloc)?)?;
        files.add("B.ddl", b"import C".to_vec(alloc)?)?;
        files.add("C.ddl", b"def Main = UInt8".to_vec(alloc)?)?;
        files.fail_at(call)?;
        let answer = load(alloc, &mut files, "A");
        let text = told(alloc, answer)?;
        let want = if call <= 6 {
            "reading failed"
        } else {
            " Prelude[] A[2] B[3] C[]"
        };
        assert_eq!(rt; text.as_str(), want);
    }
    Ok(())
}

/// 256 modules, each of which imports the next, and the last this one.
fn chain(alloc: Global, last: u32) -> Result<MemFiles, Fail>
    ensures { IfOk result (λ files. files.calls ≡ 0) }
{
    let mut files = MemFiles::new(alloc);
    for number in 1u32..=256 {
        let next = if number < 256 { number + 1 } else { last };
        let file = format!(in alloc; "M{number}.ddl")?;
        let text = format!(in alloc; "import M{next}")?;
        files.add(file.as_str(), text.as_bytes().to_vec(alloc)?)?;
    }
    Ok(files)
}

#[test]
fn module_257_is_refused(rt: HostRuntime) -> Result<(), Fail> {
    let alloc = rt.alloc();
    let mut files = chain(alloc, 257)?;
    let answer = load(alloc, &mut files, "M1");
    let text = told(alloc, answer)?;
    assert_eq!(rt;
        text.as_str(),
        "too many at Span { module: 256, from: 7, to: 11 } M256"
    );
    Ok(())
}

#[test]
fn a_cycle_of_256_modules_is_told(rt: HostRuntime) -> Result<(), Fail> {
    let alloc = rt.alloc();
    let mut files = chain(alloc, 1)?;
    let answer = load(alloc, &mut files, "M1");
    let text = told(alloc, answer)?;
    let mut want = format!(in alloc; "cycle at Span {{ module: 1, from: 7, to: 9 }}")?;
    for number in 1u32..=256 {
        let name = format!(in alloc; " M{number}")?;
        want.push_str(name.as_str())?;
    }
    assert_eq!(rt; text.as_str(), want.as_str());
    Ok(())
}

/// So many bytes: an import of this module, and spaces.
fn padded(alloc: Global, import: &str, length: usize) -> Result<Vec<u8>, Fail> {
    let mut bytes = import.as_bytes().to_vec(alloc)?;
    bytes.resize(length, b' ')?;
    Ok(bytes)
}

/// Four modules of 2^22 bytes each, one of which may have more, and one of so many bytes behind them.
#[test]
fn lengths_are_limited(rt: HostRuntime) -> Result<(), Fail> {
    let alloc = rt.alloc();
    let most: usize = 1 << 22;
    for (first, last, want) in [
        (most, 0, " Prelude[] A[2] B[3] C[4] D[5] E[]"),
        (most, 1, "too large: 1 bytes"),
        (most + 1, 0, "too large: 4194305 bytes"),
    ] {
        let mut files = MemFiles::new(alloc);
        files.add("A.ddl", padded(alloc, "import B", first)?)?;
        files.add("B.ddl", padded(alloc, "import C", most)?)?;
        files.add("C.ddl", padded(alloc, "import D", most)?)?;
        files.add("D.ddl", padded(alloc, "import E", most)?)?;
        files.add("E.ddl", padded(alloc, "", last)?)?;
        let answer = load(alloc, &mut files, "A");
        let text = told(alloc, answer)?;
        assert_eq!(rt; text.as_str(), want);
    }
    Ok(())
}
