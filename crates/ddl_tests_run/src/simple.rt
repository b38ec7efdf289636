use ddl_base::{NoMemory, Span};
use ddl_samples::names;
use ddl_simple::specified;
use ddl_tree::{Decl, Expr, Item, Module, Name};
use ddl_typed::{Answer, Close, denote};
use ddl_types::{Num, Plain};
use std::alloc::Global;
use std::test::Fail;

fn at(from: u32, to: u32) -> Span {
    names::span(0, from, to)
}

fn name(alloc: Global, text: &[u8], from: u32, to: u32) -> Result<Name, NoMemory> {
    names::name(alloc, text, at(from, to))
}

// def Main = body
fn main_is(alloc: Global, body: Expr) -> Result<Module, NoMemory> {
    let span = at(0, body.span().to);
    let main = Decl::Grammar {
        name: name(alloc, b"Main", 4, 8)?,
        params: Vec::new(alloc),
        result: None,
        body,
        span,
    };
    Ok(Module {
        imports: Vec::new(alloc),
        decls: vec![in alloc; main]?,
    })
}

// block { x = UInt8; ^ NAME }
fn field_and_name(alloc: Global, used: &[u8]) -> Result<Expr, NoMemory> {
    let field = Item::Field {
        name: name(alloc, b"x", 19, 20)?,
        value: Expr::Upper(name(alloc, b"UInt8", 23, 28)?),
        span: at(19, 28),
    };
    let pure = Expr::Pure {
        value: Box::new(alloc, Expr::Lower(name(alloc, used, 32, 33)?))?,
        span: at(30, 33),
    };
    Ok(Expr::Block {
        items: vec![in alloc; field, Item::Plain(pure)]?,
        span: at(11, 35),
    })
}

// What the module of this body answers on an input, where it is one that runs.
fn answer(alloc: Global, body: Expr, input: &[u8]) -> Result<Option<Answer>, NoMemory> {
    match specified(alloc, &main_is(alloc, body)?)? {
        Some(entry) => Ok(Some(denote(alloc, &entry, input)?)),
        None => Ok(None),
    }
}

// Whether the value is this number.
fn is_number(value: &Plain, number: u128) -> bool {
    match value {
        Plain::Num(Num::Uint(held)) => *held == number,
        _ => false,
    }
}

// Whether the value is a record of one field with this number.
fn is_record(value: &Plain, name: &[u8], number: u128) -> bool {
    match value {
        Plain::Record { names, values } => match (names.as_slice(), values.as_slice()) {
            ([called], [held]) => called.get() == name && is_number(held, number),
            _ => false,
        },
        _ => false,
    }
}

// Whether the one parse is such a record, and ends there in the input.
fn gives_record(answer: &Answer, name: &[u8], number: u128, end: u64) -> bool {
    match answer.parses.as_slice() {
        [parse] => {
            answer.closing == Close::Parses
                && parse.in_input
                && parse.end == end
                && is_record(&parse.value, name, number)
        }
        _ => false,
    }
}

#[test]
fn a_field_and_its_use_are_specified(rt: HostRuntime) -> Result<(), Fail> {
    let alloc = rt.alloc();
    match answer(alloc, field_and_name(alloc, b"x")?, b"a")? {
        Some(answer) => assert!(rt; gives_record(&answer, b"x", 97, 1)),
        None => assert!(rt; false),
    }
    Ok(())
}

#[test]
fn a_name_that_is_not_bound_specifies_nothing(rt: HostRuntime) -> Result<(), Fail> {
    let alloc = rt.alloc();
    assert!(rt; answer(alloc, field_and_name(alloc, b"z")?, b"a")?.is_none());
    Ok(())
}
