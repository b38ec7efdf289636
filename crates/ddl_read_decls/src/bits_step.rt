#![tactic(auto, using(ddl_tree::proofs::Layers::layers))]

ghost use Rattle.std.specs.Prelude.{◌≡◌, [], ◌∷◌, ◌++◌, map, IfOk};
ghost use Rattle.ddl_tree.specs.View.{type_view};
ghost use Rattle.ddl_tree.specs.ViewModule.{con_view, bits_view, part_view};
ghost use Rattle.ddl_states.specs.FrameView.{layout_view, parted_view, part_start_view};
ghost use Rattle.ddl_states.specs.Gives.{Gives, Comes};
ghost use Rattle.ddl_states.specs.StackView.{forms};
ghost use Rattle.ddl_reader.specs.StepDecl as step;
ghost use Rattle.ddl_reader.specs.Frames as m;

use crate::module_step::declare;
use ddl_base::{NoMemory, Span};
use ddl_states::part::{joined, name_at, number_at};
use ddl_states::{
    BitsFocus, DeclFrame, Focus, FoundType, Frame, Layout, PartStart, Parted, Refusal, Stack,
    TypeFocus,
};
use ddl_token::{Base, Mark, Tok, Word};
use ddl_tree::{Bits, Con, Decl, Name, Part, TypeExpr};
use std::alloc::Global;

/// The name behind `bitdata`.
pub fn bits_name(
    alloc: Global,
    stack: &Stack,
    kind: &Tok,
    at: Span,
    from: Span,
) -> Result<Focus, Refusal>
    ensures { Gives (step.bits_name kind.now at from (forms stack.now)) result stack.now }
{
    match kind {
        Tok::Upper(name) => {
            let name = name_at(alloc, name, at)?;
            Ok(Focus::Bits(BitsFocus::AfterName { from, name }))
        }
        _ => Err(Refusal::Unexpected),
    }
}

/// `=` or `where` after the name.
pub fn after_bits_name(stack: &Stack, kind: &Tok, from: Span, name: Name) -> Result<Focus, Refusal>
    ensures { Gives (step.after_bits_name_with kind.now from name (forms stack.now)) result stack.now }
{
    match kind {
        Tok::Mark(Mark::Equals) => { Ok(Focus::Bits(BitsFocus::Bits(Layout::Decl { from, name }))) }
        Tok::Word(Word::Where) => Ok(Focus::Bits(BitsFocus::OpenCons { from, name })),
        _ => Err(Refusal::Unexpected),
    }
}

/// The brace after `where`.
pub fn open_cons(
    alloc: Global,
    stack: &Stack,
    kind: &Tok,
    from: Span,
    name: Name,
) -> Result<Focus, Refusal>
    ensures { Gives (step.open_cons_with kind.now from name (forms stack.now)) result stack.now }
{
    match kind {
        Tok::Mark(Mark::OpenBrace) => Ok(Focus::Bits(BitsFocus::Con {
            from,
            name,
            cons: Vec::new(alloc),
            deep: 0,
        })),
        _ => Err(Refusal::Unexpected),
    }
}

/// The name of a constructor.
pub fn con_name(
    alloc: Global,
    stack: &Stack,
    kind: &Tok,
    at: Span,
    from: Span,
    name: Name,
    cons: Vec<Con>,
    deep: u32,
) -> Result<Focus, Refusal>
    ensures { Gives (step.con_name kind.now at from name (map con_view cons.items) deep (forms stack.now)) result
        stack.now }
{
    match kind {
        Tok::Lower(text) => {
            let con = name_at(alloc, text, at)?;
            Ok(Focus::Bits(BitsFocus::ConEquals {
                from,
                name,
                cons,
                deep,
                con,
            }))
        }
        _ => Err(Refusal::Unexpected),
    }
}

/// `=` after the name of a constructor.
pub fn con_equals(
    stack: &Stack,
    kind: &Tok,
    from: Span,
    name: Name,
    cons: Vec<Con>,
    deep: u32,
    con: Name,
) -> Result<Focus, Refusal>
    ensures { Gives (step.con_equals_with kind.now from name (map con_view cons.items) deep con (forms stack.now))
        result stack.now }
{
    match kind {
        Tok::Mark(Mark::Equals) => Ok(Focus::Bits(BitsFocus::Bits(Layout::Con {
            from,
            name,
            cons,
            con,
            deep,
        }))),
        _ => Err(Refusal::Unexpected),
    }
}

/// `x = bits`
fn con_of(name: Name, bits: Bits) -> Con
    ensures { con_view result ≡ step.con_of name (bits_view bits) }
{
    let span = joined(name.span, bits.span());
    Con { name, bits, span }
}

/// One more constructor.
#[tactic(auto, using(std::proofs::lemmas::List::map_push))]
fn with_con(mut cons: Vec<Con>, name: Name, bits: Bits) -> Result<Vec<Con>, NoMemory>
    ensures { IfOk result (λ all. map con_view all.items ≡ map con_view cons.items ++ step.con_of name (bits_view bits)
        ∷ []) }
{
    cons.push(con_of(name, bits))?;
    Ok(cons)
}

/// Declares a bitdata with one layout.
fn declare_bits(
    stack: &mut Stack,
    from: Span,
    name: Name,
    bits: Bits,
    deep: u32,
) -> Result<Focus, NoMemory>
    ensures { Comes (step.bits_done (m.of_decl from name) (bits_view bits) deep (forms stack.old)) result stack.new }
{
    let span = joined(from, bits.span());
    declare(stack, Decl::Bits { name, bits, span }, deep)?;
    Ok(Focus::Decl)
}

/// A layout that has been read whole.
fn bits_done(stack: &mut Stack, layout: Layout, bits: Bits, deep: u32) -> Result<Focus, NoMemory>
    ensures { Comes (step.bits_done (layout_view layout) (bits_view bits) deep (forms stack.old)) result stack.new }
{
    match layout {
        Layout::Decl { from, name } => declare_bits(stack, from, name, bits, deep),
        Layout::Con {
            from,
            name,
            cons,
            con,
            deep: before,
        } => {
            let cons = with_con(cons, con, bits)?;
            Ok(Focus::Bits(BitsFocus::AfterCon {
                from,
                name,
                cons,
                deep: before.max(deep),
            }))
        }
    }
}

/// After a constructor.
pub fn after_con(
    stack: &mut Stack,
    kind: &Tok,
    at: Span,
    from: Span,
    name: Name,
    cons: Vec<Con>,
    deep: u32,
) -> Result<Focus, Refusal>
    ensures { Gives (step.after_con_with kind.now at from name (map con_view cons.items) deep (forms stack.old)) result
        stack.new }
{
    match kind {
        Tok::Mark(Mark::Semicolon) => Ok(Focus::Bits(BitsFocus::Con {
            from,
            name,
            cons,
            deep,
        })),
        Tok::Mark(Mark::CloseBrace) => {
            let span = joined(from, at);
            declare(stack, Decl::BitsUnion { name, cons, span }, deep)?;
            Ok(Focus::Decl)
        }
        _ => Err(Refusal::Unexpected),
    }
}

/// A layout.
pub fn bits_with(
    alloc: Global,
    stack: &mut Stack,
    kind: &Tok,
    at: Span,
    layout: Layout,
) -> Result<Focus, Refusal>
    ensures { Gives (step.bits_with kind.now at (layout_view layout) (forms stack.old)) result stack.new }
{
    match kind {
        Tok::Number {
            value,
            base: base @ (Base::Hexadecimal | Base::Binary),
            digits,
        } => {
            let number = number_at(*value, *base, *digits, at);
            Ok(bits_done(stack, layout, Bits::Exactly(number), 0)?)
        }
        Tok::Mark(Mark::OpenBrace) => Ok(Focus::Bits(BitsFocus::Part(Parted {
            layout,
            from: at,
            parts: Vec::new(alloc),
            deep: 0,
        }))),
        _ => Err(Refusal::Unexpected),
    }
}

/// One more part of a layout.
#[tactic(auto, using(std::proofs::lemmas::List::map_push))]
fn with_part(mut parted: Parted, part: Part, deep: u32) -> Result<Parted, NoMemory>
    ensures { IfOk result (λ all. parted_view all ≡ step.with_part (parted_view parted) (part_view part) deep) }
{
    parted.parts.push(part)?;
    parted.deep = parted.deep.max(deep);
    Ok(parted)
}

/// The first token of a part of a layout.
pub fn part_with(
    alloc: Global,
    stack: &Stack,
    kind: &Tok,
    at: Span,
    parted: Parted,
) -> Result<Focus, Refusal>
    ensures { Gives (step.part_with kind.now at (parted_view parted) (forms stack.now)) result stack.now }
{
    let start = match kind {
        Tok::Number {
            value,
            base: base @ (Base::Hexadecimal | Base::Binary),
            digits,
        } => {
            let part = Part::Fixed(number_at(*value, *base, *digits, at));
            let parted = with_part(parted, part, 0)?;
            return Ok(Focus::Bits(BitsFocus::AfterPart(parted)));
        }
        Tok::Lower(name) => PartStart::Named(name_at(alloc, name, at)?),
        Tok::Mark(Mark::Underscore) => PartStart::Unnamed(at),
        _ => return Err(Refusal::Unexpected),
    };
    Ok(Focus::Bits(BitsFocus::PartColon { parted, start }))
}

/// `:` after what begins a part.
pub fn part_colon(
    stack: &mut Stack,
    kind: &Tok,
    parted: Parted,
    start: PartStart,
) -> Result<Focus, Refusal>
    ensures { Gives (step.part_colon_with kind.now (parted_view parted) (part_start_view start) (forms stack.old))
        result stack.new }
{
    match kind {
        Tok::Mark(Mark::Colon) => {
            stack.push(Frame::Decl(DeclFrame::Part { parted, start }))?;
            Ok(Focus::Type(TypeFocus::Want))
        }
        _ => Err(Refusal::Unexpected),
    }
}

/// A part by what began it and its type.
fn part_of(start: PartStart, of: TypeExpr) -> Part
    ensures { part_view result ≡ step.part_of (part_start_view start) (type_view of) }
{
    match start {
        PartStart::Named(name) => {
            let span = joined(name.span, of.span());
            Part::Named { name, of, span }
        }
        PartStart::Unnamed(from) => {
            let span = joined(from, of.span());
            Part::Unnamed { of, span }
        }
    }
}

/// After a part of a layout.
pub fn after_part(stack: &mut Stack, kind: &Tok, at: Span, parted: Parted) -> Result<Focus, Refusal>
    ensures { Gives (step.after_part_with kind.now at (parted_view parted) (forms stack.old)) result stack.new }
{
    match kind {
        Tok::Mark(Mark::Comma) => Ok(Focus::Bits(BitsFocus::Part(parted))),
        Tok::Mark(Mark::CloseBrace) => {
            let span = joined(parted.from, at);
            let bits = Bits::Parts {
                parts: parted.parts,
                span,
            };
            Ok(bits_done(stack, parted.layout, bits, parted.deep)?)
        }
        _ => Err(Refusal::Unexpected),
    }
}

/// After the type of a part of a layout.
pub fn after_part_type(
    stack: &mut Stack,
    kind: &Tok,
    at: Span,
    parted: Parted,
    start: PartStart,
    part: FoundType,
) -> Result<Focus, Refusal>
    ensures { Gives (step.after_part_with kind.now at
        (step.with_part (parted_view parted) (step.part_of (part_start_view start) (type_view part.of)) part.deep)
        (forms stack.old)) result stack.new }
{
    let parted = with_part(parted, part_of(start, part.of), part.deep)?;
    after_part(stack, kind, at, parted)
}
