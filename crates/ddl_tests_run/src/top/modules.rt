//! Modules that import others, and their names.

use super::{AMPLE, words};
use ddl_outside::{MemFiles, MemSink};
use ddl_top::{Status, run};
use std::alloc::Global;
use std::process::Abort;
use std::test::Fail;

/// A call: its words with a space between them, the files of its modules, and what it answers. The input is not there.
struct Row {
    words: &'static str,
    files: &'static [(&'static str, &'static str)],
    status: Status,
    text: &'static str,
}

const LOADS: [Row; 5] = [
    Row {
        words: "run A in",
        files: &[
            ("A.ddl", "import B\ndef Main = UInt8"),
            ("B.ddl", "import A"),
        ],
        status: Status::Refused,
        text: "{\"refused\":{\"code\":\"load.5\",\"from\":7,\"module\":\"A\",\"more\":[\"A\",\"B\"],\"to\":8}}\n",
    },
    Row {
        words: "run A in",
        files: &[("A.ddl", "import B\ndef Main = UInt8")],
        status: Status::Missing,
        text: "{\"name\":\"B.ddl\",\"stopped\":\"missing\"}\n",
    },
    Row {
        words: "check dir/A",
        files: &[("dir/A.ddl", "import B\ndef Main = UInt8")],
        status: Status::Missing,
        text: "{\"name\":\"dir/B.ddl\",\"stopped\":\"missing\"}\n",
    },
    Row {
        words: "check A",
        files: &[("A.ddl", "def Main = Choose { a = UInt8; b = Match \"x\" }")],
        status: Status::Parses,
        text: "{\"declarations\":1}\n",
    },
    Row {
        words: "check A",
        files: &[
            ("A.ddl", "import B\nimport Prelude\ndef Main = F"),
            ("B.ddl", "def F = G 1\ndef G x = ^ x"),
        ],
        status: Status::Parses,
        text: "{\"declarations\":3}\n",
    },
];

const NAMES: [Row; 7] = [
    Row {
        words: "run A in",
        files: &[("A.ddl", "def Main = Foo")],
        status: Status::Refused,
        text: "{\"refused\":{\"code\":\"names.1\",\"from\":11,\"module\":\"A\",\"more\":[],\"to\":14}}\n",
    },
    Row {
        words: "run A in",
        files: &[("A.ddl", "def Main = ^ 0\ndef Main = ^ 1")],
        status: Status::Refused,
        text: "{\"refused\":{\"code\":\"names.2\",\"from\":19,\"module\":\"A\",\"more\":[\"4\",\"8\"],\"to\":23}}\n",
    },
    Row {
        words: "run A in",
        files: &[
            ("A.ddl", "import B\nimport C\ndef Main = F"),
            ("B.ddl", "def F = UInt8"),
            ("C.ddl", "def F = UInt8"),
        ],
        status: Status::Refused,
        text: "{\"refused\":{\"code\":\"names.3\",\"from\":29,\"module\":\"A\",\"more\":[\"B\",\"C\"],\"to\":30}}\n",
    },
    Row {
        words: "check A",
        files: &[("A.ddl", "def Main = 3")],
        status: Status::Refused,
        text: "{\"refused\":{\"code\":\"names.4\",\"from\":11,\"module\":\"A\",\"more\":[],\"to\":12}}\n",
    },
    Row {
        words: "run A in",
        files: &[("A.ddl", "def Main = UInt8 UInt8")],
        status: Status::Refused,
        text: "{\"refused\":{\"code\":\"names.5\",\"from\":11,\"module\":\"A\",\"more\":[\"1\",\"0\"],\"to\":16}}\n",
    },
    Row {
        words: "run A in",
        files: &[
            ("A.ddl", "import B\ndef Main = UInt8"),
            ("B.ddl", "def F = UInt8"),
        ],
        status: Status::Refused,
        text: "{\"stopped\":\"unbuilt\"}\n",
    },
    Row {
        words: "run A in",
        files: &[("A.ddl", "def Main = Many UInt8")],
        status: Status::Refused,
        text: "{\"stopped\":\"unbuilt\"}\n",
    },
];

/// Each row of a table is answered as it says.
fn answers(rt: &impl Abort, alloc: Global, rows: &[Row]) -> Result<(), Fail> {
    for row in rows {
        let mut files = MemFiles::new(alloc);
        'files: for (name, text) in row.files {
            files.add(name, text.as_bytes().to_vec(alloc)?)?;
        }
        let mut out = MemSink::new(alloc, AMPLE)?;
        let status = run(alloc, &words(alloc, row.words)?, &mut files, &mut out);
        assert!(rt; status == row.status);
        assert_eq!(rt; out.bytes(), row.text.as_bytes());
    }
    Ok(())
}

#[test]
fn modules_are_loaded_in_order(rt: HostRuntime) -> Result<(), Fail> {
    answers(&rt, rt.alloc(), &LOADS)
}

#[test]
fn names_are_bound_or_refused(rt: HostRuntime) -> Result<(), Fail> {
    answers(&rt, rt.alloc(), &NAMES)
}

/// What `run A in` answers where no call fails.
fn refused(rt: &impl Abort, alloc: Global, files: MemFiles, text: &str) -> Result<(), Fail> {
    let mut files = files;
    let mut out = MemSink::new(alloc, AMPLE)?;
    let status = run(alloc, &words(alloc, "run A in")?, &mut files, &mut out);
    assert!(rt; status == Status::Refused);
    assert_eq!(rt; out.bytes(), text.as_bytes());
    Ok(())
}

/// `A` and modules `M2` to `M256`, each of which imports the next: the last import is one too many.
#[test]
fn too_many_modules(rt: HostRuntime) -> Result<(), Fail> {
    let alloc = rt.alloc();
    let mut files = MemFiles::new(alloc);
    files.add("A.ddl", b"import M2".to_vec(alloc)?)?;
    for k in 2u32..257 {
        let name = format!(in alloc; "M{k}.ddl")?;
        let next = k + 1;
        let text = format!(in alloc; "import M{next}")?;
        files.add(name.as_str(), text.as_bytes().to_vec(alloc)?)?;
    }
    let text =
        "{\"refused\":{\"code\":\"load.4\",\"from\":7,\"module\":\"M256\",\"more\":[],\"to\":11}}\n";
    refused(&rt, alloc, files, text)
}

/// 65,536 declarations, of which the last is one too many.
#[test]
fn too_many_declarations(rt: HostRuntime) -> Result<(), Fail> {
    let alloc = rt.alloc();
    let mut module = Vec::new(alloc);
    for k in 0u32..65_536 {
        let decl = format!(in alloc; "def f{k} = 0\n")?;
        module.extend_from_slice(decl.as_bytes())?;
    }
    let mut files = MemFiles::new(alloc);
    files.add("A.ddl", module)?;
    let text =
        "{\"refused\":{\"code\":\"names.6\",\"from\":971919,\"module\":\"A\",\"more\":[],\"to\":971925}}\n";
    refused(&rt, alloc, files, text)
}
