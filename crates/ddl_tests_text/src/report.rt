ghost use Rattle.ddl_types.specs.Plain.{IsPaired};
ghost use Rattle.ddl_types.specs.PlainView.{plain_view};
ghost use Rattle.ddl_report.specs.Closing.{HasItsText};

use ddl_base::{Bytes, NoMemory, Stage, Told, Why};
use ddl_report::{Closing, closing_line, line_of_parse, refusal_line};
use ddl_types::{Fault, Num, Plain};
use std::alloc::Global;
use std::process::Abort;
use std::test::Fail;

fn expect_closing(
    rt: &impl Abort,
    alloc: Global,
    closing: Closing,
    want: &str,
) -> Result<(), NoMemory>
    requires { HasItsText closing }
{
    let line = closing_line(alloc, &closing)?;
    assert_eq!(rt; line.as_slice(), want.as_bytes(), "{want}");
    Ok(())
}

fn expect_value(rt: &impl Abort, alloc: Global, value: Plain, want: &str) -> Result<(), NoMemory>
    requires { IsPaired (plain_view value) }
{
    let line = line_of_parse(alloc, 7, false, &value)?;
    assert_eq!(rt; line.as_slice(), want.as_bytes(), "{want}");
    Ok(())
}

#[test]
fn closings(rt: HostRuntime) -> Result<(), Fail> {
    let alloc = rt.alloc();
    expect_closing(
        &rt,
        alloc,
        Closing::Parses { number: 2 },
        "{\"parses\":2}\n",
    )?;
    let said = Closing::Fail {
        why: Why::Said(3),
        in_input: true,
        at: 1,
        module: Bytes::of(alloc, b"A")?,
        from: 17,
        to: 21,
        text: Some(Bytes::of(alloc, b"\xc3\xa9")?),
    };
    expect_closing(
        &rt,
        alloc,
        said,
        "{\"fail\":{\"at\":1,\"from\":17,\"in\":\"input\",\"module\":\"A\",\"text\":\"\u{c3}\u{a9}\",\"to\":21,\"why\":\"said\"}}\n",
    )?;
    let fault = Closing::Fault {
        fault: Fault::DivZero,
        module: Bytes::of(alloc, b"A")?,
        from: 4,
        to: 8,
    };
    expect_closing(
        &rt,
        alloc,
        fault,
        "{\"fault\":{\"from\":4,\"kind\":\"divzero\",\"module\":\"A\",\"to\":8}}\n",
    )?;
    expect_closing(
        &rt,
        alloc,
        Closing::Spent { budget: 1000 },
        "{\"spent\":1000}\n",
    )?;
    let counts = Closing::Counts {
        steps: 5,
        threads: 1,
        slots: 2,
        left: 0,
    };
    expect_closing(
        &rt,
        alloc,
        counts,
        "{\"counts\":{\"left\":0,\"slots\":2,\"steps\":5,\"threads\":1}}\n",
    )?;
    expect_closing(
        &rt,
        alloc,
        Closing::Declarations { number: 1 },
        "{\"declarations\":1}\n",
    )?;
    Ok(())
}

#[test]
fn stops(rt: HostRuntime) -> Result<(), Fail> {
    let alloc = rt.alloc();
    expect_closing(&rt, alloc, Closing::Words, "{\"stopped\":\"words\"}\n")?;
    expect_closing(&rt, alloc, Closing::Large, "{\"stopped\":\"large\"}\n")?;
    expect_closing(&rt, alloc, Closing::Read, "{\"stopped\":\"read\"}\n")?;
    expect_closing(&rt, alloc, Closing::Unbuilt, "{\"stopped\":\"unbuilt\"}\n")?;
    Ok(())
}

#[test]
fn refusals(rt: HostRuntime) -> Result<(), Fail> {
    let alloc = rt.alloc();
    let bad_byte = Told {
        stage: Stage::Lex,
        number: 4,
        module: Bytes::of(alloc, b"A")?,
        from: 13,
        to: 13,
        more: Vec::new(alloc),
    };
    let line = refusal_line(alloc, &bad_byte)?;
    assert_eq!(rt;
        line.as_slice(),
        b"{\"refused\":{\"code\":\"lex.4\",\"from\":13,\"module\":\"A\",\"more\":[],\"to\":13}}\n".as_slice()
    );
    let twice = Told {
        stage: Stage::Names,
        number: 2,
        module: Bytes::of(alloc, b"A")?,
        from: 19,
        to: 23,
        more: vec![in alloc; Bytes::of(alloc, b"4")?, Bytes::of(alloc, b"8")?]?,
    };
    let line = refusal_line(alloc, &twice)?;
    assert_eq!(rt;
        line.as_slice(),
        b"{\"refused\":{\"code\":\"names.2\",\"from\":19,\"module\":\"A\",\"more\":[\"4\",\"8\"],\"to\":23}}\n".as_slice()
    );
    Ok(())
}

/// Names with bytes that JSON escapes, and names that are no UTF-8.
#[test]
fn names(rt: HostRuntime) -> Result<(), Fail> {
    let alloc = rt.alloc();
    let rows: [(&[u8], &str); 4] = [
        (
            b"a/\"\\\x7f",
            "{\"name\":\"a/\\\"\\\\\u{7f}\",\"stopped\":\"missing\"}\n",
        ),
        (
            b"\x08\x0c\n\r\t\x00\x1f",
            "{\"name\":\"\\b\\f\\n\\r\\t\\u0000\\u001f\",\"stopped\":\"missing\"}\n",
        ),
        (
            b"\xc3\xa9",
            "{\"name\":\"\u{e9}\",\"stopped\":\"missing\"}\n",
        ),
        (
            b"\xff\xe9A",
            "{\"name\":\"\u{ff}\u{e9}A\",\"stopped\":\"missing\"}\n",
        ),
    ];
    for (name, want) in rows {
        let name = Bytes::of(alloc, name)?;
        let line = closing_line(alloc, &Closing::Missing { name })?;
        assert_eq!(rt; line.as_slice(), want.as_bytes(), "{want}");
    }
    Ok(())
}

#[test]
#[tactic(auto, using(ddl_report::proofs::ValueLemmas::value_lemmas))]
fn numbers(rt: HostRuntime) -> Result<(), Fail> {
    let alloc = rt.alloc();
    let rows = [
        (Num::Uint(18446744073709551615), "18446744073709551615"),
        (
            Num::Uint(18446744073709551616),
            "{\"$int\":\"18446744073709551616\"}",
        ),
        (
            Num::Sint(18446744073709551616),
            "{\"$int\":\"18446744073709551616\"}",
        ),
        (Num::Sint(-9223372036854775808), "-9223372036854775808"),
        (
            Num::Sint(-9223372036854775809),
            "{\"$int\":\"-9223372036854775809\"}",
        ),
        (Num::Sint(0), "0"),
    ];
    for (number, want) in rows {
        let line = line_of_parse(alloc, 7, true, &Plain::Num(number))?;
        let want = format!(in alloc; "{{\"end\":7,\"in\":\"input\",\"value\":{want}}}\n")?;
        assert_eq!(rt; line.as_slice(), want.as_bytes(), "{want}");
    }
    Ok(())
}

#[test]
#[tactic(auto, using(ddl_report::proofs::ValueLemmas::value_lemmas))]
fn values(rt: HostRuntime) -> Result<(), Fail> {
    let alloc = rt.alloc();
    expect_value(
        &rt,
        alloc,
        Plain::Unit,
        "{\"end\":7,\"in\":\"array\",\"value\":{}}\n",
    )?;
    expect_value(
        &rt,
        alloc,
        Plain::Bool(true),
        "{\"end\":7,\"in\":\"array\",\"value\":true}\n",
    )?;
    let none = Plain::Just(Box::new(alloc, Plain::Nothing)?);
    expect_value(
        &rt,
        alloc,
        none,
        "{\"end\":7,\"in\":\"array\",\"value\":{\"$just\":null}}\n",
    )?;
    let stream = Plain::Union {
        tag: Bytes::of(alloc, b"some\xff")?,
        value: Box::new(
            alloc,
            Plain::Stream {
                in_input: true,
                from: 1,
                to: 3,
            },
        )?,
    };
    expect_value(
        &rt,
        alloc,
        stream,
        "{\"end\":7,\"in\":\"array\",\"value\":{\"$some\u{ff}\":{\"$stream\":{\"from\":1,\"in\":\"input\",\"to\":3}}}}\n",
    )?;
    Ok(())
}

/// Of the two fields `a` the last one is written, `_` is not, and the keys are in byte order.
#[test]
#[tactic(auto, using(ddl_report::proofs::ValueLemmas::value_lemmas))]
fn records(rt: HostRuntime) -> Result<(), Fail> {
    let alloc = rt.alloc();
    let names = vec![in alloc;
        Bytes::of(alloc, b"a")?,
        Bytes::of(alloc, b"_")?,
        Bytes::of(alloc, b"B")?,
        Bytes::of(alloc, b"a")?,
    ]?;
    let values = vec![in alloc;
        Plain::Unit,
        Plain::Unit,
        Plain::Nothing,
        Plain::Bool(false),
    ]?;
    expect_value(
        &rt,
        alloc,
        Plain::Record { names, values },
        "{\"end\":7,\"in\":\"array\",\"value\":{\"B\":null,\"a\":false}}\n",
    )?;
    Ok(())
}

#[test]
#[tactic(auto, using(ddl_report::proofs::ValueLemmas::value_lemmas))]
fn lists_and_maps(rt: HostRuntime) -> Result<(), Fail> {
    let alloc = rt.alloc();
    let keys = vec![in alloc; Plain::Num(Num::Uint(1)), Plain::Num(Num::Uint(2))]?;
    let values = vec![in alloc; Plain::Array(Vec::new(alloc)), Plain::Bool(false)]?;
    expect_value(
        &rt,
        alloc,
        Plain::Map { keys, values },
        "{\"end\":7,\"in\":\"array\",\"value\":{\"$map\":[[1,[]],[2,false]]}}\n",
    )?;
    Ok(())
}
