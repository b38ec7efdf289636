ghost use Rattle.std.specs.Prelude.{◌≡◌, ℕ, ◌<◌, IfOk};
ghost use Rattle.ddl_typed.specs.Simple.{AreSimple, IsSimple};
ghost use Rattle.ddl_typed.specs.Tree.{field, let_, plain, result_};
ghost use Rattle.ddl_typed.specs.View.{item_view, items_view, view};

use ddl_base::{Bytes, NoMemory, Span, Why};
use ddl_tree::Kind;
use ddl_typed::{
    Answer, Close, Failure, TBody, TClass, TDecl, TDeclaration, TExpr, TForm, TItem, denote,
    form_declared,
};
use ddl_types::{Fault, Num, Plain, Scheme, Ty};
use std::alloc::Global;
use std::test::Fail;

fn span(from: u32, to: u32) -> Span {
    Span {
        module: 0,
        from,
        to,
    }
}

#[tactic(auto, using(ddl_typed::proofs::Layers::layers))]
fn byte(from: u32, to: u32) -> TExpr
    ensures { (n : ℕ) → IsSimple (view result) n }
{
    TExpr {
        form: TForm::UInt8,
        of: Ty::Uint(8),
        span: span(from, to),
    }
}

#[tactic(auto, using(ddl_typed::proofs::Layers::layers))]
fn end(from: u32, to: u32) -> TExpr
    ensures { (n : ℕ) → IsSimple (view result) n }
{
    TExpr {
        form: TForm::End,
        of: Ty::Unit,
        span: span(from, to),
    }
}

#[tactic(auto, using(ddl_typed::proofs::Layers::layers))]
fn match_text(alloc: Global, text: &[u8], from: u32, at: u32, to: u32) -> Result<TExpr, NoMemory>
    ensures { IfOk result (λ e. (n : ℕ) → IsSimple (view e) n) }
{
    let text = TExpr {
        form: TForm::Text(Bytes::of(alloc, text)?),
        of: Ty::Array(Box::new(alloc, Ty::Uint(8))?),
        span: span(at, to),
    };
    Ok(TExpr {
        form: TForm::Match(Box::new(alloc, text)?),
        of: Ty::Array(Box::new(alloc, Ty::Uint(8))?),
        span: span(from, to),
    })
}

#[tactic(auto, using(ddl_typed::proofs::Layers::layers))]
fn named(alloc: Global, name: u32, from: u32, to: u32) -> Result<TExpr, NoMemory>
    ensures { IfOk result (λ e. (n : ℕ) → name < n → IsSimple (view e) n) }
{
    let value = TExpr {
        form: TForm::Local(name),
        of: Ty::Unit,
        span: span(from, to),
    };
    Ok(TExpr {
        form: TForm::Pure(Box::new(alloc, value)?),
        of: Ty::Unit,
        span: span(from, to),
    })
}

#[tactic(auto, using(ddl_typed::proofs::Layers::layers))]
fn block(items: Vec<TItem>, from: u32, to: u32) -> TExpr
    ensures { (n : ℕ) → AreSimple (items_view items.items) n → IsSimple (view result) n }
{
    TExpr {
        form: TForm::Block(items),
        of: Ty::Unit,
        span: span(from, to),
    }
}

#[tactic(auto, using(ddl_typed::proofs::Layers::layers))]
fn plain(body: TExpr) -> TItem
    ensures { item_view result ≡ plain (view body) }
{
    TItem::Plain(body)
}

#[tactic(auto, using(ddl_typed::proofs::Layers::layers))]
fn bound(name: u32, body: TExpr) -> TItem
    ensures { item_view result ≡ let_ name (view body) }
{
    TItem::Let { name, body }
}

#[tactic(auto, using(ddl_typed::proofs::Layers::layers))]
fn field(alloc: Global, label: &[u8], name: u32, body: TExpr) -> Result<TItem, NoMemory>
    ensures { IfOk result (λ i. item_view i ≡ field label.now name (view body)) }
{
    Ok(TItem::Field {
        label: Bytes::of(alloc, label)?,
        name,
        body,
    })
}

#[tactic(auto, using(ddl_typed::proofs::Layers::layers))]
fn dollar(body: TExpr) -> TItem
    ensures { item_view result ≡ result_ (view body) }
{
    TItem::Result(body)
}

// A block of this many bytes.
fn bytes(alloc: Global, count: u32) -> Result<TExpr, NoMemory>
    ensures { IfOk result (λ e. IsSimple (view e) 0) }
{
    let mut items = Vec::new(alloc);
    for at in 0..count {
        items.push(plain(byte(at, at + 1)))?;
    }
    Ok(block(items, 0, count))
}

// A byte in this many records, one in another.
fn nested(alloc: Global, count: u32) -> Result<TExpr, NoMemory>
    ensures { IfOk result (λ e. IsSimple (view e) 0) }
{
    let mut inner = byte(0, 1);
    for _step in 0..count {
        inner = record(alloc, inner)?;
    }
    Ok(inner)
}

fn record(alloc: Global, x: TExpr) -> Result<TExpr, NoMemory>
    requires { IsSimple (view x) 0 }
    ensures { IfOk result (λ e. IsSimple (view e) 0) }
{
    let mut items = Vec::new(alloc);
    items.push(field(alloc, b"x", 0, x)?)?;
    Ok(block(items, 0, 1))
}

// What is answered of an entry with this body, the name at 4 to 8.
fn answered(alloc: Global, body: TExpr, input: &[u8]) -> Result<Answer, NoMemory>
    requires { IsSimple (view body) 0 }
{
    let entry = TDecl {
        name: Bytes::of(alloc, b"Main")?,
        span: span(4, 8),
        body,
    };
    denote(alloc, &entry, input)
}

// The value of the only parse, where it ends there in the input.
fn value(answer: &Answer, end: u64) -> Option<&Plain> {
    if answer.closing != Close::Parses || answer.parses.len() != 1 {
        return None;
    }
    let parse = answer.parses.first()?;
    if parse.in_input && parse.end == end {
        Some(&parse.value)
    } else {
        None
    }
}

fn is_number(value: &Plain, number: u128) -> bool {
    match value {
        Plain::Num(Num::Uint(n)) => *n == number,
        _ => false,
    }
}

fn is_pair(value: Option<&Plain>, first: u128, second: u128) -> bool {
    match value {
        Some(Plain::Array(values)) => match values.as_slice() {
            [a, b] => is_number(a, first) && is_number(b, second),
            _ => false,
        },
        _ => false,
    }
}

// Whether the value is a record of one field with this number.
fn is_record(value: Option<&Plain>, name: &[u8], number: u128) -> bool {
    match value {
        Some(Plain::Record { names, values }) => match (names.as_slice(), values.as_slice()) {
            ([called], [held]) => called.get() == name && is_number(held, number),
            _ => false,
        },
        _ => false,
    }
}

// Whether there is no parse, and why.
fn fails(answer: &Answer, why: Why, at: u64, span: Span) -> bool {
    let failure = Failure {
        why,
        in_input: true,
        at,
        span,
    };
    answer.parses.is_empty() && answer.closing == Close::Failed(failure)
}

#[test]
fn matches_tell_their_bytes_or_where_they_fail(rt: HostRuntime) -> Result<(), Fail> {
    let alloc = rt.alloc();
    let answer = answered(alloc, match_text(alloc, b"ab", 11, 17, 21)?, b"ab")?;
    assert!(rt; is_pair(value(&answer, 2), 97, 98));
    let answer = answered(alloc, match_text(alloc, b"ab", 11, 17, 21)?, b"")?;
    assert!(rt; fails(&answer, Why::Match, 0, span(11, 21)));
    Ok(())
}

#[test]
fn long_blocks_are_read_once(rt: HostRuntime) -> Result<(), Fail> {
    let alloc = rt.alloc();
    let input = vec![in alloc; b'a'; 2000]?;
    let answer = answered(alloc, bytes(alloc, 2000)?, &input)?;
    assert!(rt; value(&answer, 2000).is_some());
    Ok(())
}

#[test]
fn values_nest_to_120(rt: HostRuntime) -> Result<(), Fail> {
    let alloc = rt.alloc();
    let answer = answered(alloc, nested(alloc, 120)?, b"a")?;
    assert!(rt; value(&answer, 1).is_some());
    let answer = answered(alloc, nested(alloc, 121)?, b"a")?;
    assert!(rt; answer.closing == Close::Faulted(Fault::DeepResult, span(4, 8)));
    assert!(rt; answer.parses.is_empty());
    Ok(())
}

#[test]
fn a_field_makes_a_record(rt: HostRuntime) -> Result<(), Fail> {
    let alloc = rt.alloc();
    let x = field(alloc, b"x", 0, byte(23, 28))?;
    let y = bound(1, match_text(alloc, b"b", 38, 44, 47)?);
    let items = vec![in alloc; x, y, plain(named(alloc, 1, 49, 52)?), plain(end(54, 57))]?;
    let answer = answered(alloc, block(items, 11, 59), b"ab")?;
    assert!(rt; is_record(value(&answer, 2), b"x", 97));
    Ok(())
}

#[test]
fn dollars_give_the_value(rt: HostRuntime) -> Result<(), Fail> {
    let alloc = rt.alloc();
    let items = vec![in alloc;
        dollar(byte(24, 29)),
        plain(match_text(alloc, b"b", 31, 37, 40)?),
    ]?;
    let answer = answered(alloc, block(items, 11, 42), b"ab")?;
    assert!(rt; matches!(value(&answer, 2), Some(number) if is_number(number, 97)));
    Ok(())
}

#[test]
fn an_absent_byte_fails_at_its_form(rt: HostRuntime) -> Result<(), Fail> {
    let alloc = rt.alloc();
    let items = vec![in alloc; plain(byte(19, 24)), plain(byte(26, 31))]?;
    let answer = answered(alloc, block(items, 11, 33), b"a")?;
    assert!(rt; fails(&answer, Why::Byte, 1, span(26, 31)));
    Ok(())
}

fn declared(alloc: Global, kind: Kind, body: TBody) -> Result<TDeclaration, NoMemory> {
    Ok(TDeclaration {
        unit: 0,
        name: Bytes::of(alloc, b"Main")?,
        span: span(4, 8),
        kind,
        params: Vec::new(alloc),
        scheme: Scheme {
            vars: 0,
            conds: Vec::new(alloc),
            of: Ty::Uint(8),
        },
        body,
    })
}

#[test]
fn a_class_stands_for_no_form(rt: HostRuntime) -> Result<(), Fail> {
    let alloc = rt.alloc();
    let class = declared(alloc, Kind::Class, TBody::Class(TClass::Range(48, 57)))?;
    assert!(rt; form_declared(class).is_none());
    let main = declared(alloc, Kind::Grammar, TBody::Expr(byte(11, 16)))?;
    assert!(rt; form_declared(main).is_some());
    Ok(())
}
