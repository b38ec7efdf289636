mod modules;

use ddl_outside::{Files, Length, MemFiles, MemSink, Piece};
use ddl_top::{Status, run};
use std::alloc::Global;
use std::process::Abort;
use std::test::Fail;

/// Room for any line of these tests.
const AMPLE: usize = 200_000;

const BLOCK: &str = "def Main = block { x = UInt8; let y = Match \"b\"; ^ y; END }";

const PARSES: &str = "{\"end\":2,\"in\":\"input\",\"value\":{\"x\":97}}\n{\"parses\":1}\n";

const LAID_OUT: &str = "def Main = (block\n\tUInt8\n        UInt8)";

const SHOWN: &str = "def Main = ( block { UInt8 ; UInt8 } )\n";

const READ: &str = "{\"stopped\":\"read\"}\n";

const WORDS: &str = "{\"stopped\":\"words\"}\n";

/// A call: its words with a space between them, the files `A.ddl` and `in`, and what it answers.
struct Row {
    words: &'static str,
    module: &'static str,
    input: &'static str,
    status: Status,
    text: &'static str,
}

const RUNS: [Row; 10] = [
    Row {
        words: "run A in",
        module: "def Main = Match \"ab\"",
        input: "ab",
        status: Status::Parses,
        text: "{\"end\":2,\"in\":\"input\",\"value\":[97,98]}\n{\"parses\":1}\n",
    },
    Row {
        words: "run A in",
        module: "def Main = Match \"ab\"",
        input: "",
        status: Status::NoParse,
        text: "{\"fail\":{\"at\":0,\"from\":11,\"in\":\"input\",\"module\":\"A\",\"to\":21,\"why\":\"match\"}}\n",
    },
    Row {
        words: "run A A.ddl",
        module: "def Main = block { Match \"def\"; x = UInt8 }",
        input: "",
        status: Status::Parses,
        text: "{\"end\":4,\"in\":\"input\",\"value\":{\"x\":32}}\n{\"parses\":1}\n",
    },
    Row {
        words: "run A in",
        module: BLOCK,
        input: "ab",
        status: Status::Parses,
        text: PARSES,
    },
    Row {
        words: "run A in",
        module: "def Main = block { $$ = UInt8; Match \"b\" }",
        input: "ab",
        status: Status::Parses,
        text: "{\"end\":2,\"in\":\"input\",\"value\":97}\n{\"parses\":1}\n",
    },
    Row {
        words: "run dir/A in",
        module: "def Main = block { UInt8; UInt8 }",
        input: "a",
        status: Status::NoParse,
        text: "{\"fail\":{\"at\":1,\"from\":26,\"in\":\"input\",\"module\":\"A\",\"to\":31,\"why\":\"byte\"}}\n",
    },
    Row {
        words: "run A in",
        module: "def Main = block { ^ z }",
        input: "",
        status: Status::Refused,
        text: "{\"refused\":{\"code\":\"names.1\",\"from\":21,\"module\":\"A\",\"more\":[],\"to\":22}}\n",
    },
    Row {
        words: "run A in",
        module: "-- one byte\ndef Main = -- in a block\n  block\n    (UInt8)\n",
        input: "a",
        status: Status::Parses,
        text: "{\"end\":1,\"in\":\"input\",\"value\":97}\n{\"parses\":1}\n",
    },
    Row {
        words: "run B in",
        module: BLOCK,
        input: "ab",
        status: Status::Missing,
        text: "{\"name\":\"B.ddl\",\"stopped\":\"missing\"}\n",
    },
    Row {
        words: "run A out",
        module: BLOCK,
        input: "ab",
        status: Status::Missing,
        text: "{\"name\":\"out\",\"stopped\":\"missing\"}\n",
    },
];

const OTHERS: [Row; 9] = [
    Row {
        words: "run A",
        module: BLOCK,
        input: "ab",
        status: Status::Words,
        text: WORDS,
    },
    Row {
        words: "run A in --budget 0",
        module: BLOCK,
        input: "ab",
        status: Status::Words,
        text: WORDS,
    },
    Row {
        words: "show A",
        module: LAID_OUT,
        input: "",
        status: Status::Parses,
        text: SHOWN,
    },
    Row {
        words: "show A in",
        module: LAID_OUT,
        input: "",
        status: Status::Words,
        text: WORDS,
    },
    Row {
        words: "run A in",
        module: "def Main = ^ 340282366920938463463374607431768211456",
        input: "",
        status: Status::Refused,
        text: "{\"refused\":{\"code\":\"lex.4\",\"from\":13,\"module\":\"A\",\"more\":[],\"to\":13}}\n",
    },
    Row {
        words: "run A out",
        module: "def Main =",
        input: "",
        status: Status::Refused,
        text: "{\"refused\":{\"code\":\"syntax.1\",\"from\":10,\"module\":\"A\",\"more\":[\"3\"],\"to\":10}}\n",
    },
    Row {
        words: "show A",
        module: "def Main = @",
        input: "",
        status: Status::Refused,
        text: "{\"refused\":{\"code\":\"lex.1\",\"from\":11,\"module\":\"A\",\"more\":[],\"to\":11}}\n",
    },
    Row {
        words: "run A in",
        module: "def Main = \"ab",
        input: "",
        status: Status::Refused,
        text: "{\"refused\":{\"code\":\"lex.2\",\"from\":11,\"module\":\"A\",\"more\":[],\"to\":11}}\n",
    },
    Row {
        words: "run A in",
        module: "def Main = \"\\q\"",
        input: "",
        status: Status::Refused,
        text: "{\"refused\":{\"code\":\"lex.3\",\"from\":12,\"module\":\"A\",\"more\":[],\"to\":12}}\n",
    },
];

/// The words of a line, one at each space.
fn words(alloc: Global, line: &str) -> Result<Vec<String>, Fail> {
    let mut words = Vec::new(alloc);
    for word in line.split(' ') {
        words.push(String::from_str(alloc, word)?)?;
    }
    Ok(words)
}

/// The module as `A.ddl` and `dir/A.ddl`, and the input as `in`; the call of this number fails,
/// and with 0 none.
fn files(alloc: Global, module: &[u8], input: &[u8], failing: u64) -> Result<MemFiles, Fail> {
    let mut files = MemFiles::new(alloc);
    files.add("A.ddl", module.to_vec(alloc)?)?;
    files.add("dir/A.ddl", module.to_vec(alloc)?)?;
    files.add("in", input.to_vec(alloc)?)?;
    if failing > 0 {
        files.fail_at(failing)?;
    }
    Ok(files)
}

/// Each row of a table is answered as it says.
fn answers(rt: &impl Abort, alloc: Global, rows: &[Row]) -> Result<(), Fail> {
    for row in rows {
        let mut files = files(alloc, row.module.as_bytes(), row.input.as_bytes(), 0)?;
        let mut out = MemSink::new(alloc, AMPLE)?;
        let status = run(alloc, &words(alloc, row.words)?, &mut files, &mut out);
        assert!(rt; status == row.status, "at {} of {}", row.words, row.module);
        assert_eq!(rt;
            out.bytes(),
            row.text.as_bytes(),
            "at {} of {}",
            row.words,
            row.module
        );
    }
    Ok(())
}

#[test]
fn runs(rt: HostRuntime) -> Result<(), Fail> {
    answers(&rt, rt.alloc(), &RUNS)
}

#[test]
fn other_answers(rt: HostRuntime) -> Result<(), Fail> {
    answers(&rt, rt.alloc(), &OTHERS)
}

/// Files of which each read tells one byte.
#[derive(Drop)]
struct OneByOne {
    files: MemFiles,
}

impl Files for OneByOne {
    ghost use Rattle.ddl_outside.specs.MemFiles.{files_state};
    ghost use Rattle.ddl_outside.specs.Told.{told_in_held};

    ghost state = { λ f. files_state f.files };

    ghost told_is_held = { λ f name n told. told_in_held f.files.files name n told };

    fn length(&mut self, name: &str) -> Length {
        self.files.length(name)
    }

    fn read(&mut self, name: &str, at: u64, into: &mut [u8]) -> Piece {
        match self.files.read(name, at, into) {
            Piece::Got(_) => Piece::Got(1),
            piece => piece,
        }
    }
}

/// The module and the input are read on where a read gives less than was asked for.
#[test]
fn short_reads_go_on(rt: HostRuntime) -> Result<(), Fail> {
    let alloc = rt.alloc();
    let files = files(alloc, BLOCK.as_bytes(), b"ab", 0)?;
    let mut files = OneByOne { files };
    let mut out = MemSink::new(alloc, AMPLE)?;
    let status = run(alloc, &words(alloc, "run A in")?, &mut files, &mut out);
    assert!(rt; status == Status::Parses);
    assert_eq!(rt; out.bytes(), PARSES.as_bytes());
    Ok(())
}

/// Each of the calls of the files fails in turn: the length and the bytes of the module, and of the input where there
/// is one.
fn each_read_fails(rt: &impl Abort, alloc: Global, row: &Row, calls: u64) -> Result<(), Fail> {
    for failing in 1..=calls {
        let mut files = files(alloc, row.module.as_bytes(), row.input.as_bytes(), failing)?;
        let mut out = MemSink::new(alloc, AMPLE)?;
        let status = run(alloc, &words(alloc, row.words)?, &mut files, &mut out);
        assert!(rt; status == Status::ReadFault, "call {failing}");
        assert_eq!(rt; out.bytes(), READ.as_bytes(), "call {failing}");
    }
    Ok(())
}

#[test]
fn a_failed_read_stops(rt: HostRuntime) -> Result<(), Fail> {
    each_read_fails(&rt, rt.alloc(), &RUNS[2], 4)?;
    each_read_fails(&rt, rt.alloc(), &OTHERS[2], 2)
}

/// A sink of each room below the whole takes what fits, and then its write fails.
fn each_room_is_filled(rt: &impl Abort, alloc: Global, row: &Row) -> Result<(), Fail> {
    let text = row.text.as_bytes();
    for room in 0..text.len() {
        let mut files = files(alloc, row.module.as_bytes(), row.input.as_bytes(), 0)?;
        let mut out = MemSink::new(alloc, room)?;
        let status = run(alloc, &words(alloc, row.words)?, &mut files, &mut out);
        assert!(rt; status == Status::WriteFault);
        assert_eq!(rt; out.bytes(), &text[..room]);
    }
    Ok(())
}

#[test]
fn a_failed_write_leaves_a_first_part(rt: HostRuntime) -> Result<(), Fail> {
    let alloc = rt.alloc();
    each_room_is_filled(&rt, alloc, &RUNS[2])?;
    each_room_is_filled(&rt, alloc, &OTHERS[2])?;
    for failing in 1..3 {
        let mut files = files(alloc, BLOCK.as_bytes(), b"ab", 0)?;
        let mut out = MemSink::new(alloc, AMPLE)?;
        out.fail_at(failing)?;
        let status = run(alloc, &words(alloc, "run A in")?, &mut files, &mut out);
        assert!(rt; status == Status::WriteFault);
        let first = if failing == 1 { 0 } else { 40 };
        assert_eq!(rt; out.bytes(), &PARSES.as_bytes()[..first], "call {failing}");
    }
    Ok(())
}

/// What `run A in` answers of a module and an input of zero bytes.
fn answer_of(
    rt: &impl Abort,
    alloc: Global,
    module: Vec<u8>,
    input: u64,
    status: Status,
    text: &str,
) -> Result<(), Fail> {
    let mut files = MemFiles::new(alloc);
    files.add("A.ddl", module)?;
    files.add_zeros("in", input)?;
    let mut out = MemSink::new(alloc, AMPLE)?;
    let status = run(alloc, &words(alloc, "run A in")?, &mut files, &mut out);
    assert!(rt; status == status);
    assert_eq!(rt; out.bytes(), text.as_bytes());
    Ok(())
}

/// So many copies of a byte behind other bytes.
fn padded(out: &mut Vec<u8>, byte: u8, count: usize) -> Result<(), Fail> {
    for _ in 0..count {
        out.push(byte)?;
    }
    Ok(())
}

#[test]
fn a_large_input(rt: HostRuntime) -> Result<(), Fail> {
    let module = b"def Main = Match \"ab\"".to_vec(rt.alloc())?;
    answer_of(
        &rt,
        rt.alloc(),
        module,
        (1 << 30) + 1,
        Status::TooLarge,
        "{\"stopped\":\"large\"}\n",
    )
}

#[test]
fn too_many_tokens(rt: HostRuntime) -> Result<(), Fail> {
    let mut module = Vec::new(rt.alloc());
    padded(&mut module, b';', (1 << 20) + 1)?;
    let text =
        "{\"refused\":{\"code\":\"lex.5\",\"from\":1048576,\"module\":\"A\",\"more\":[],\"to\":1048576}}\n";
    answer_of(&rt, rt.alloc(), module, 0, Status::Refused, text)
}

#[test]
fn too_deep(rt: HostRuntime) -> Result<(), Fail> {
    let mut module = b"def Main = ".to_vec(rt.alloc())?;
    padded(&mut module, b'(', 200)?;
    module.extend_from_slice(b"UInt8")?;
    padded(&mut module, b')', 200)?;
    let text =
        "{\"refused\":{\"code\":\"syntax.2\",\"from\":210,\"module\":\"A\",\"more\":[\"202\"],\"to\":211}}\n";
    answer_of(&rt, rt.alloc(), module, 0, Status::Refused, text)
}

#[test]
fn a_long_module(rt: HostRuntime) -> Result<(), Fail> {
    let alloc = rt.alloc();
    let mut files = MemFiles::new(alloc);
    files.add_zeros("A.ddl", (1 << 22) + 1)?;
    let mut out = MemSink::new(alloc, AMPLE)?;
    let status = run(alloc, &words(alloc, "run A in")?, &mut files, &mut out);
    assert!(rt; status == Status::Refused);
    let text =
        "{\"refused\":{\"code\":\"load.3\",\"from\":0,\"module\":\"A\",\"more\":[\"4194305\"],\"to\":0}}\n";
    assert_eq!(rt; out.bytes(), text.as_bytes());
    Ok(())
}

#[test]
fn numbers(rt: HostRuntime) {
    assert_eq!(rt; Status::Parses.number(), 0);
    assert_eq!(rt; Status::TooLarge.number(), 10);
}
