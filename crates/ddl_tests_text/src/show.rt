use ddl_base::{Bytes, NoMemory, Span};
use ddl_samples::names;
use ddl_show::{show, show_law};
use ddl_token::Base;
use ddl_tree::{Bits, Decl, Expr, Import, Item, Module, Name, Number};
use std::alloc::Global;

const AT: Span = Span {
    module: 0,
    from: 0,
    to: 0,
};

fn name(alloc: Global, text: &[u8]) -> Result<Name, NoMemory> {
    names::name(alloc, text, AT)
}

fn number(value: u128, base: Base, digits: u32) -> Number {
    names::number(value, base, digits, AT)
}

fn upper(alloc: Global, text: &[u8]) -> Result<Expr, NoMemory> {
    Ok(Expr::Upper(name(alloc, text)?))
}

/// Whether the module `def Main = body` is shown so.
fn is_shown(alloc: Global, body: Expr, text: &[u8]) -> Result<bool, NoMemory> {
    let main = Decl::Grammar {
        name: name(alloc, b"Main")?,
        params: Vec::new(alloc),
        result: None,
        body,
        span: AT,
    };
    let mut decls = Vec::new(alloc);
    decls.push(main)?;
    let imports = Vec::new(alloc);
    let shown = show(alloc, &Module { imports, decls })?;
    Ok(shown.as_slice() == text)
}

/// `block { UInt8 ; UInt8 }`
fn two_bytes(alloc: Global) -> Result<Expr, NoMemory> {
    let mut items = Vec::new(alloc);
    items.push(Item::Plain(upper(alloc, b"UInt8")?))?;
    items.push(Item::Plain(upper(alloc, b"UInt8")?))?;
    Ok(Expr::Block { items, span: AT })
}

#[test]
fn a_block_in_parentheses(rt: HostRuntime) -> Result<(), NoMemory> {
    let alloc = rt.alloc();
    let inner = Box::new(alloc, two_bytes(alloc)?)?;
    let paren = Expr::Paren {
        inner,
        typed: None,
        span: AT,
    };
    assert!(rt; is_shown(alloc, paren, b"def Main = ( block { UInt8 ; UInt8 } )\n")?);
    Ok(())
}

#[test]
fn numbers_keep_base_and_digits(rt: HostRuntime) -> Result<(), NoMemory> {
    let alloc = rt.alloc();
    let rows: [(Number, &[u8]); 4] = [
        (number(7, Base::Decimal, 3), b"def Main = 007\n"),
        (number(0xab, Base::Hexadecimal, 2), b"def Main = 0xab\n"),
        (number(5, Base::Binary, 4), b"def Main = 0b0101\n"),
        (
            number(u128::MAX, Base::Decimal, 39),
            b"def Main = 340282366920938463463374607431768211455\n",
        ),
    ];
    for (number, text) in rows {
        assert!(rt; is_shown(alloc, Expr::Num(number), text)?);
    }
    Ok(())
}

#[test]
fn literals_are_escaped(rt: HostRuntime) -> Result<(), NoMemory> {
    let alloc = rt.alloc();
    let bytes = Bytes::of(alloc, b"a\"'\\\n\x7F\xFF")?;
    let text = Expr::Text { bytes, span: AT };
    assert!(rt; is_shown(alloc, text, b"def Main = \"a\\\"'\\\\\\x0a\\x7f\\xff\"\n")?);
    let rows: [(u8, &[u8]); 4] = [
        (b'a', b"def Main = 'a'\n"),
        (b'\'', b"def Main = '\\''\n"),
        (b'"', b"def Main = '\"'\n"),
        (0, b"def Main = '\\x00'\n"),
    ];
    for (value, text) in rows {
        assert!(rt; is_shown(alloc, Expr::Char { value, span: AT }, text)?);
    }
    Ok(())
}

/// `bitdata B = 0b0000`
fn zeros(alloc: Global) -> Result<Decl, NoMemory> {
    Ok(Decl::Bits {
        name: name(alloc, b"B")?,
        bits: Bits::Exactly(number(0, Base::Binary, 4)),
        span: AT,
    })
}

#[test]
fn imports_and_declarations_have_lines(rt: HostRuntime) -> Result<(), NoMemory> {
    let alloc = rt.alloc();
    let mut imports = Vec::new(alloc);
    imports.push(Import {
        name: name(alloc, b"A")?,
        span: AT,
    })?;
    let mut decls = Vec::new(alloc);
    decls.push(zeros(alloc)?)?;
    decls.push(zeros(alloc)?)?;
    let text = show(alloc, &Module { imports, decls })?;
    assert_eq!(rt;
        text.as_slice(),
        b"import A\nbitdata B = 0b0000\nbitdata B = 0b0000\n".as_slice()
    );
    Ok(())
}

#[test]
fn the_law_can_be_called() {
    show_law();
}
