use ddl_base::{NoMemory, Span};
use ddl_samples::names::{name, number, span};
use ddl_token::Base;
use ddl_tree::{
    Alt, Binder, Binding, Bits, ByteLit, Cls, Con, Decl, Expr, Import, InfixOp, Item, Number,
    Param, Part, Pat, Shape, TypeExpr,
};

fn at(from: u32, to: u32) -> Span {
    span(1, from, to)
}

fn eight(span: Span) -> Number {
    number(8, Base::Decimal, 1, span)
}

// x - 8 of `def Main = x - 8`, and each form that can hold it
#[test]
fn expressions_stand_where_they_say(rt: HostRuntime) -> Result<(), NoMemory> {
    let alloc = rt.alloc();
    let left = Expr::Lower(name(alloc, b"x", at(11, 12))?);
    assert_eq!(rt; left.span(), at(11, 12));
    let difference = Expr::Infix {
        op: InfixOp::Subtract,
        left: Box::new(alloc, left)?,
        right: Box::new(alloc, Expr::Num(eight(at(15, 16))))?,
        span: at(11, 16),
    };
    assert_eq!(rt; difference.span(), at(11, 16));
    let item = Item::Plain(difference);
    assert_eq!(rt; item.span(), at(11, 16));
    let binding = Binding {
        name: name(alloc, b"y", at(20, 21))?,
        value: Expr::True(at(24, 28)),
        span: at(20, 28),
    };
    assert_eq!(rt; binding.span(), at(20, 28));
    let alt = Alt {
        pattern: Pat::Any(at(30, 31)),
        body: Expr::Nothing(at(35, 42)),
        span: at(30, 42),
    };
    assert_eq!(rt; alt.pattern.span(), at(30, 31));
    assert_eq!(rt; alt.span(), at(30, 42));
    assert_eq!(rt; Shape::IsJust(at(1, 5)).span(), at(1, 5));
    assert_eq!(rt; Binder::Ignored(at(6, 7)).span(), at(6, 7));
    Ok(())
}

#[test]
fn declarations_stand_where_they_say(rt: HostRuntime) -> Result<(), NoMemory> {
    let alloc = rt.alloc();
    let width = TypeExpr::Uint {
        width: eight(at(25, 26)),
        span: at(20, 26),
    };
    assert_eq!(rt; width.span(), at(20, 26));
    let part = Part::Unnamed {
        of: width,
        span: at(16, 26),
    };
    assert_eq!(rt; part.span(), at(16, 26));
    let bits = Bits::Exactly(eight(at(12, 13)));
    assert_eq!(rt; bits.span(), at(12, 13));
    let con = Con {
        name: name(alloc, b"c", at(8, 9))?,
        bits,
        span: at(8, 13),
    };
    assert_eq!(rt; con.span(), at(8, 13));
    let class = Cls::One(ByteLit::Quoted {
        value: 65,
        span: at(9, 12),
    });
    assert_eq!(rt; class.span(), at(9, 12));
    let decl = Decl::Class {
        name: name(alloc, b"$c", at(4, 6))?,
        body: class,
        span: at(0, 12),
    };
    assert_eq!(rt; decl.span(), at(0, 12));
    let param = Param::Upper(name(alloc, b"P", at(40, 41))?);
    assert_eq!(rt; param.span(), at(40, 41));
    let import = Import {
        name: name(alloc, b"A", at(7, 8))?,
        span: at(0, 8),
    };
    assert_eq!(rt; import.span(), at(0, 8));
    Ok(())
}
