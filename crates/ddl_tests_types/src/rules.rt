//! Worked rows: what is asked of one elaboration, and what it gives.

use crate::types::same;
use ddl_arith::Op;
use ddl_base::{Bytes, NoMemory, Span};
use ddl_judging::Demand;
use ddl_kinds::{Bound, BuiltIn, Use};
use ddl_ops::{Pattern, Primitive};
use ddl_rules::{
    Ask, Elaboration, Known, Meant, TypeRefusal, Typing, builtin_form, type_refusal, types,
    typing_of,
};
use ddl_samples::names;
use ddl_token::Base;
use ddl_tree::{Binder, ByteLit, Cls, InfixOp, Kind, Name, Names, Number, Pat, Shape, TypeExpr};
use ddl_typed::{TClass, TForm};
use ddl_types::{Cond, Ty};
use std::alloc::Global;
use std::test::Fail;

fn at(from: u32) -> Span {
    names::span(0, from, from.saturating_add(1))
}

fn use_at(from: u32, bound: Bound) -> Use {
    Use {
        span: at(from),
        bound,
    }
}

fn name(alloc: Global, text: &[u8], from: u32) -> Result<Name, NoMemory> {
    names::name(alloc, text, at(from))
}

fn number(value: u128, from: u32) -> Number {
    names::number(value, Base::Decimal, 3, at(from))
}

/// A declaration of two variables: `[?1]`, with a number `?0` as its parameter.
fn arrays(alloc: Global) -> Result<Vec<Known>, NoMemory> {
    let mut declaration = Known {
        vars: 2,
        kinds: Vec::new(alloc),
        params: Vec::new(alloc),
        of: types::array(alloc, types::variable(1))?,
        conds: Vec::new(alloc),
    };
    declaration.kinds.push(Kind::Value)?;
    declaration.params.push(types::variable(0))?;
    declaration.conds.push(Cond::Num(types::variable(0)))?;
    let mut known = Vec::new(alloc);
    known.push(declaration)?;
    Ok(known)
}

/// Before anything is asked; five variables were given out.
fn begun<'a>(alloc: Global, known: &'a [Known], uses: &'a [Use]) -> Elaboration<'a> {
    Elaboration {
        alloc,
        known,
        uses,
        locals: Vec::new(alloc),
        next: 5,
        places: Vec::new(alloc),
        texts: Vec::new(alloc),
        sites: 0,
        asks: Vec::new(alloc),
    }
}

/// Whether it was asked there that the wanted type is the other one.
fn equates(ask: Option<&Ask>, from: u32, left: &Ty, right: &Ty) -> bool {
    match ask {
        Some(Ask::Equates { wanted, has, span }) => {
            span.from == from && same(wanted, left) && same(has, right)
        }
        _ => false,
    }
}

fn asks_number(ask: Option<&Ask>, from: u32, value: u128) -> bool {
    match ask {
        Some(
            Ask::Demands {
                what: Demand::Cond(Cond::Lit { number, of }),
                span,
            },
        ) => span.from == from && *number == value && same(of, &Ty::Uint(8)),
        _ => false,
    }
}

// [F -> uint 8], whose F has the variables ?5 and ?6, and uint 129
#[test]
fn written_types_are_types_or_refused(rt: HostRuntime) -> Result<(), Fail> {
    let alloc = rt.alloc();
    let known = arrays(alloc)?;
    let uses = [use_at(1, Bound::Decl(0))];
    let mut elaboration = begun(alloc, &known, &uses);
    let written = TypeExpr::MapOf {
        key: Box::new(alloc, TypeExpr::Named(name(alloc, b"F", 1)?))?,
        value: Box::new(
            alloc,
            TypeExpr::Uint {
                width: number(8, 5),
                span: at(5),
            },
        )?,
        span: at(0),
    };
    assert!(rt; type_refusal(&written).is_none());
    let of = elaboration.written(&written)?;
    let wanted = types::map(
        alloc,
        types::array(alloc, types::variable(6))?,
        types::word(8),
    )?;
    assert!(rt; same(&of, &wanted));
    assert_eq!(rt; elaboration.next, 7);
    let wide = TypeExpr::Uint {
        width: number(129, 5),
        span: at(0),
    };
    let refusal = TypeRefusal::WidthRange {
        span: at(0),
        width: 129,
    };
    assert!(rt; type_refusal(&wide) == Some(refusal));
    Ok(())
}

// just x, `v is true`, and the names of `k, x in v`
#[test]
fn patterns_ask_of_their_subject(rt: HostRuntime) -> Result<(), Fail> {
    let alloc = rt.alloc();
    let mut elaboration = begun(alloc, &[], &[]);
    let subject = types::variable(3);
    let pattern = Pat::Just {
        content: Binder::Called(name(alloc, b"x", 25)?),
        span: at(20),
    };
    let fitted = elaboration.fitted(&pattern, &subject)?;
    assert!(rt; matches!(fitted, Pattern::Just(Some(0))));
    let content = types::maybe(alloc, types::variable(5))?;
    assert!(rt; equates(elaboration.asks.get(0), 20, &subject, &content));
    assert!(rt; elaboration.local(at(25)).is_some());
    let slot = elaboration.before_guard(&Shape::IsTrue(at(15)), at(10))?;
    assert!(rt; slot.is_none());
    let (guard, of) = elaboration.guarded(&Shape::IsTrue(at(15)), &subject, slot, at(10))?;
    assert!(rt; matches!(guard, Pattern::Truth(true)));
    assert!(rt; same(&of, &types::unit()));
    assert!(rt; equates(elaboration.asks.get(1), 15, &subject, &types::truth()));
    let called = Names {
        first: name(alloc, b"k", 30)?,
        second: Some(name(alloc, b"y", 33)?),
        span: at(30),
    };
    let turn = elaboration.bind_turn(&called, types::variable(1), types::variable(2))?;
    assert!(rt; turn.key == Some(1) && turn.element == 2);
    elaboration.leave(2);
    assert!(rt; elaboration.local(at(30)).is_some() && elaboration.local(at(33)).is_none());
    Ok(())
}

// 300 .. 'z', and $c
#[test]
fn classes_are_made(rt: HostRuntime) -> Result<(), Fail> {
    let alloc = rt.alloc();
    let uses = [use_at(40, Bound::Decl(4))];
    let mut elaboration = begun(alloc, &[], &uses);
    let written = Cls::Range {
        first: ByteLit::Code(number(300, 20)),
        last: ByteLit::Quoted {
            value: 122,
            span: at(27),
        },
        span: at(20),
    };
    let class = elaboration.class(&written)?;
    assert!(rt; matches!(class, TClass::Range(0, 122)));
    assert!(rt; asks_number(elaboration.asks.get(0), 20, 300));
    let named = elaboration.class_named();
    assert!(rt; matches!(named, TClass::Declared(4)));
    assert!(rt; elaboration.uses.is_empty());
    Ok(())
}

// F, at the variables ?5 and ?6, and Lookup, at ?7 and ?8
#[test]
fn names_stand_for_what_they_are_bound_to(rt: HostRuntime) -> Result<(), Fail> {
    let alloc = rt.alloc();
    let known = arrays(alloc)?;
    let uses = [
        use_at(1, Bound::Decl(0)),
        use_at(2, Bound::BuiltIn(BuiltIn::Lookup)),
    ];
    let mut elaboration = begun(alloc, &known, &uses);
    let declared = elaboration.target(at(1))?;
    let meant = Meant::Declaration {
        number: 0,
        vars: 2,
        first: 5,
    };
    assert!(rt; declared.meant == meant);
    assert!(rt; same(&declared.of, &types::array(alloc, types::variable(6))?));
    let lookup = elaboration.target(at(2))?;
    assert!(rt; lookup.meant == Meant::BuiltIn(BuiltIn::Lookup));
    assert!(rt; lookup.params.len() == 2 && same(&lookup.of, &types::variable(8)));
    assert_eq!(rt; elaboration.asks.len(), 2);
    let form = builtin_form(alloc, BuiltIn::Lookup, 0, Vec::new(alloc))?;
    let is_lookup = match &form {
        TForm::Primitive { primitive, .. } => *primitive == Primitive::Lookup,
        _ => false,
    };
    assert!(rt; is_lookup);
    Ok(())
}

#[test]
fn operators_are_typed(rt: HostRuntime) {
    for (operator, typing) in [
        (InfixOp::ShiftLeft, Typing::Shifts(Op::Shl)),
        (InfixOp::Append, Typing::Joins),
        (InfixOp::AppendWithin, Typing::ShiftsIn),
    ] {
        assert!(rt; typing_of(operator) == typing);
    }
}

// what is given out is counted, and an ask stands where its place was held
#[test]
fn numbers_are_given_out(rt: HostRuntime) -> Result<(), Fail> {
    let alloc = rt.alloc();
    let uses = [use_at(1, Bound::Decl(4))];
    let mut elaboration = begun(alloc, &[], &uses);
    assert_eq!(rt; elaboration.variables(2)?, 5);
    assert_eq!(rt; elaboration.site()?, 0);
    assert!(rt; elaboration.take_use() == Some(Bound::Decl(4)));
    assert!(rt; elaboration.take_use().is_none());
    assert_eq!(rt; elaboration.text(Bytes::of(alloc, b"bad")?)?, 0);
    let place = elaboration.place(at(1), true, Vec::new(alloc), Vec::new(alloc))?;
    assert!(rt; matches!(place, Ty::Place(0, _)));
    assert_eq!(rt; elaboration.bind(at(3), types::unit())?, 0);
    let slot = elaboration.hold(at(7))?;
    elaboration.require(Cond::Num(types::int()), at(8))?;
    elaboration.demand(Demand::Cond(Cond::Num(types::signed(8))), at(9))?;
    elaboration.equate(types::stream(), types::stream(), at(9))?;
    elaboration.fill(
        slot,
        Ask::Equates {
            wanted: types::truth(),
            has: types::unit(),
            span: at(7),
        },
    );
    assert_eq!(rt; elaboration.asks.len(), 4);
    assert!(rt; equates(elaboration.asks.get(0), 7, &types::truth(), &types::unit()));
    Ok(())
}
