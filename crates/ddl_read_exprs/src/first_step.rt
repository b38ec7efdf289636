#![tactic(auto, using(ddl_tree::proofs::Layers::layers, crate::proofs::NoBegin::no_begin))]

ghost use Rattle.std.specs.Prelude.{◌≡◌, [], ◌∷◌};
ghost use Rattle.ddl_tree.specs.ExprTree as ex;
ghost use Rattle.ddl_tree.specs.View.{view};
ghost use Rattle.ddl_states.specs.FocusView.{loop_focus_view};
ghost use Rattle.ddl_states.specs.FrameView.{frame_view, inner_frame_view, last_frame_view, list_frame_view};
ghost use Rattle.ddl_states.specs.FrameView.{repeat_view};
ghost use Rattle.ddl_reader.specs.Frames as m;
ghost use Rattle.ddl_states.specs.Gives.{Gives, Comes};
ghost use Rattle.ddl_states.specs.StackView.{forms};
ghost use Rattle.ddl_reader.specs.StepExpr as step;
ghost use Rattle.ddl_reader.specs.StepType as step_type;

use ddl_base::{Bytes, NoMemory, Span};
use ddl_states::part::{found, joined, name_at, number_at, open};
use ddl_states::{
    ClassFocus, ClassFrame, FieldFocus, Focus, Frame, InnerFrame, LastFrame, ListFocus, ListFrame,
    LoopFocus, Refusal, Repeat, Stack, Start,
};
use ddl_token::{Mark, Tok, Word};
use ddl_tree::{Bias, Bound, Expr, PrefixOp};
use std::alloc::Global;

/// An expression of one token.
fn atom(alloc: Global, stack: &Stack, expr: Expr) -> Result<Focus, NoMemory>
    ensures { Comes (forms stack.now, m.have (step_type.found (view expr) 1)) result stack.now }
{
    Ok(Focus::Have(found(alloc, expr, 1)?))
}

/// Opens a form where an expression of this nonterminal may stand.
fn open_within(stack: &mut Stack, level: u8, frame: Frame) -> Result<Focus, Refusal>
    ensures { Gives (step.if_within level (forms stack.old) (frame_view frame ∷ forms stack.old, m.want)) result
        stack.new }
{
    if stack.least() <= level {
        Ok(open(stack, frame)?)
    } else {
        Err(Refusal::Unexpected)
    }
}

/// Begins a loop where one may stand.
fn loop_within(stack: &Stack, focus: LoopFocus) -> Result<Focus, Refusal>
    ensures { Gives (step.if_within 3 (forms stack.now) (forms stack.now, loop_focus_view focus)) result stack.now }
{
    if stack.least() <= 3 {
        Ok(Focus::Loop(focus))
    } else {
        Err(Refusal::Unexpected)
    }
}

/// The first token of an expression.
pub fn begin(alloc: Global, stack: &mut Stack, kind: &Tok, at: Span) -> Result<Focus, Refusal>
    ensures { Gives (step.begin kind.now at (forms stack.old)) result stack.new }
{
    match kind {
        Tok::Word(word) => begin_word(alloc, stack, *word, at),
        Tok::Mark(mark) => begin_mark(alloc, stack, *mark, at),
        Tok::Number {
            value,
            base,
            digits,
        } => {
            let number = number_at(*value, *base, *digits, at);
            Ok(atom(alloc, stack, Expr::Num(number))?)
        }
        Tok::Char(value) => Ok(begin_char(alloc, stack, *value, at)?),
        Tok::Text(bytes) => Ok(begin_text(alloc, stack, bytes, at)?),
        Tok::Upper(name) => Ok(begin_upper(alloc, stack, name, at)?),
        Tok::Lower(name) => Ok(begin_lower(alloc, stack, name, at)?),
        Tok::Class(name) => Ok(begin_class(alloc, stack, name, at)?),
    }
}

fn begin_char(alloc: Global, stack: &Stack, value: u8, at: Span) -> Result<Focus, NoMemory>
    ensures { Comes (forms stack.now, m.have (step_type.found (ex.Char value at) 1)) result stack.now }
{
    atom(alloc, stack, Expr::Char { value, span: at })
}

fn begin_text(alloc: Global, stack: &Stack, bytes: &Bytes, at: Span) -> Result<Focus, NoMemory>
    ensures { Comes (forms stack.now, m.have (step_type.found (ex.Text bytes.now at) 1)) result stack.now }
{
    let bytes = Bytes::of(alloc, bytes.get())?;
    atom(alloc, stack, Expr::Text { bytes, span: at })
}

fn begin_upper(alloc: Global, stack: &Stack, name: &Bytes, at: Span) -> Result<Focus, NoMemory>
    ensures { Comes (forms stack.now, m.have (step_type.found (ex.Upper (step.name_at name.now at)) 1)) result stack.now }
{
    let name = name_at(alloc, name, at)?;
    atom(alloc, stack, Expr::Upper(name))
}

fn begin_lower(alloc: Global, stack: &Stack, name: &Bytes, at: Span) -> Result<Focus, NoMemory>
    ensures { Comes (forms stack.now, m.have (step_type.found (ex.Lower (step.name_at name.now at)) 1)) result stack.now }
{
    let name = name_at(alloc, name, at)?;
    atom(alloc, stack, Expr::Lower(name))
}

fn begin_class(alloc: Global, stack: &Stack, name: &Bytes, at: Span) -> Result<Focus, NoMemory>
    ensures { Comes (forms stack.now, m.have (step_type.found (ex.Class (step.name_at name.now at)) 1)) result stack.now }
{
    let name = name_at(alloc, name, at)?;
    atom(alloc, stack, Expr::Class(name))
}

fn repeat(bias: Bias, from: Span) -> Repeat
    ensures { repeat_view result ≡ step.repeat bias from }
{
    Repeat { bias, from }
}

/// `Many`, and no bound yet.
fn many(bias: Bias, from: Span) -> Frame
    ensures { frame_view result ≡ m.in_many (step.repeat bias from) ex.Free 0 }
{
    Frame::Last(LastFrame::Many {
        repeat: repeat(bias, from),
        bound: Bound::Free,
        deep: 0,
    })
}

fn optional(bias: Bias, from: Span) -> Frame
    ensures { frame_view result ≡ m.in_optional (step.repeat bias from) }
{
    Frame::Last(LastFrame::Optional(repeat(bias, from)))
}

fn begin_word(alloc: Global, stack: &mut Stack, word: Word, at: Span) -> Result<Focus, Refusal>
    ensures { Gives (step.begin_word word at (forms stack.old)) result stack.new }
{
    match word {
        Word::True => Ok(atom(alloc, stack, Expr::True(at))?),
        Word::False => Ok(atom(alloc, stack, Expr::False(at))?),
        Word::Nothing => Ok(atom(alloc, stack, Expr::Nothing(at))?),
        Word::If => open_within(stack, 3, Frame::Inner(InnerFrame::If(at))),
        Word::For => loop_within(stack, LoopFocus::OpenFor(at)),
        Word::Map => loop_within(stack, LoopFocus::OpenMap(at)),
        Word::Just => open_within(stack, 16, Frame::Last(LastFrame::Just(at))),
        Word::Many => open_within(stack, 16, many(Bias::Biased, at)),
        Word::ManyAll => open_within(stack, 16, many(Bias::Unbiased, at)),
        Word::Optional => open_within(stack, 16, optional(Bias::Biased, at)),
        Word::OptionalAll => open_within(stack, 16, optional(Bias::Unbiased, at)),
        Word::Block => Ok(Focus::List(ListFocus::OpenBlock(at))),
        Word::First => Ok(Focus::List(ListFocus::OpenChoice(repeat(Bias::Biased, at)))),
        Word::Choose => Ok(Focus::List(ListFocus::OpenChoice(repeat(Bias::Unbiased, at)))),
        Word::Case => Ok(open(stack, Frame::Inner(InnerFrame::Subject(at)))?),
        Word::Let => begin_let(stack, at),
        _ => Err(Refusal::Unexpected),
    }
}

fn begin_mark(alloc: Global, stack: &mut Stack, mark: Mark, at: Span) -> Result<Focus, Refusal>
    ensures { Gives (step.begin_mark mark at (forms stack.old)) result stack.new }
{
    match mark {
        Mark::Caret => open_within(stack, 3, Frame::Last(LastFrame::Pure(at))),
        Mark::Minus => open_prefix(stack, PrefixOp::Negate, at),
        Mark::Bang => open_prefix(stack, PrefixOp::Not, at),
        Mark::Tilde => open_prefix(stack, PrefixOp::Complement, at),
        Mark::OpenParen => Ok(open(stack, Frame::Inner(InnerFrame::Paren(at)))?),
        Mark::OpenBracket => Ok(open_array(alloc, stack, at)?),
        Mark::OpenBrace => Ok(Focus::Field(FieldFocus::FirstOfRecord(at))),
        Mark::OpenUnion => Ok(Focus::Field(FieldFocus::OpenTagged(at))),
        Mark::DollarBracket => Ok(open_set(stack, at)?),
        Mark::DollarDollar => begin_result(stack, at),
        Mark::CloseBracket => close_array(alloc, stack, at),
        Mark::DotDot => begin_high(stack, at),
        Mark::CloseParen => close_low(stack, at),
        _ => Err(Refusal::Unexpected),
    }
}

fn open_prefix(stack: &mut Stack, op: PrefixOp, from: Span) -> Result<Focus, Refusal>
    ensures { Gives (step.if_within 14 (forms stack.old) (m.in_prefix op from ∷ forms stack.old, m.want)) result
        stack.new }
{
    open_within(stack, 14, Frame::Last(LastFrame::Prefix { op, from }))
}

fn open_array(alloc: Global, stack: &mut Stack, from: Span) -> Result<Focus, NoMemory>
    ensures { Comes (m.in_array from [] 0 ∷ forms stack.old, m.want) result stack.new }
{
    let frame = ListFrame::Array {
        from,
        elements: Vec::new(alloc),
        deep: 0,
    };
    open(stack, Frame::List(frame))
}

/// `$[`
fn open_set(stack: &mut Stack, from: Span) -> Result<Focus, NoMemory>
    ensures { Comes (m.in_set from ∷ forms stack.old, m.want_class) result stack.new }
{
    stack.push(Frame::Class(ClassFrame::Atom(from)))?;
    Ok(Focus::Class(ClassFocus::Want))
}

/// `$$` begins a part of a block.
fn begin_result(stack: &mut Stack, at: Span) -> Result<Focus, Refusal>
    ensures { Gives (step.begin_result at (forms stack.old)) result stack.new }
{
    match stack.pop() {
        Some(Frame::List(frame)) => begin_result_in(stack, frame, at),
        Some(_other) => Err(Refusal::Unexpected),
        None => Err(Refusal::Unexpected),
    }
}

fn begin_result_in(stack: &Stack, frame: ListFrame, at: Span) -> Result<Focus, Refusal>
    ensures { Gives (step.begin_result at (list_frame_view frame ∷ forms stack.now)) result stack.now }
{
    match frame {
        ListFrame::Block {
            from,
            items,
            deep,
            start,
        } => match start {
            Start::Plainly => Ok(Focus::List(ListFocus::ItemEquals {
                from,
                items,
                deep,
                start: Start::Result(at),
            })),
            Start::Result(_) | Start::Let(..) | Start::Field(_) => Err(Refusal::Unexpected),
        },
        _ => Err(Refusal::Unexpected),
    }
}

/// `let` begins a part of a block.
fn begin_let(stack: &mut Stack, at: Span) -> Result<Focus, Refusal>
    ensures { Gives (step.begin_let at (forms stack.old)) result stack.new }
{
    match stack.pop() {
        Some(Frame::List(frame)) => begin_let_in(stack, frame, at),
        Some(_other) => Err(Refusal::Unexpected),
        None => Err(Refusal::Unexpected),
    }
}

fn begin_let_in(stack: &Stack, frame: ListFrame, at: Span) -> Result<Focus, Refusal>
    ensures { Gives (step.begin_let at (list_frame_view frame ∷ forms stack.now)) result stack.now }
{
    match frame {
        ListFrame::Block {
            from,
            items,
            deep,
            start,
        } => match start {
            Start::Plainly => Ok(Focus::List(ListFocus::LetName {
                from,
                items,
                deep,
                at,
            })),
            Start::Result(_) | Start::Let(..) | Start::Field(_) => Err(Refusal::Unexpected),
        },
        _ => Err(Refusal::Unexpected),
    }
}

/// An array may be empty.
fn close_array(alloc: Global, stack: &mut Stack, at: Span) -> Result<Focus, Refusal>
    ensures { Gives (step.close_array at (forms stack.old)) result stack.new }
{
    match stack.pop() {
        Some(Frame::List(frame)) => close_array_in(alloc, stack, frame, at),
        Some(_other) => Err(Refusal::Unexpected),
        None => Err(Refusal::Unexpected),
    }
}

fn empty_array(alloc: Global, stack: &Stack, from: Span, at: Span) -> Result<Focus, NoMemory>
    ensures { Comes (forms stack.now, m.have (step_type.found (ex.Array ex.no_exprs (step_type.joined from at)) 1))
        result stack.now }
{
    let array = Expr::Array {
        elements: Vec::new(alloc),
        span: joined(from, at),
    };
    atom(alloc, stack, array)
}

fn close_array_in(
    alloc: Global,
    stack: &Stack,
    frame: ListFrame,
    at: Span,
) -> Result<Focus, Refusal>
    ensures { Gives (step.close_array at (list_frame_view frame ∷ forms stack.now)) result stack.now }
{
    match frame {
        ListFrame::Array { from, elements, .. } => {
            if elements.is_empty() {
                Ok(empty_array(alloc, stack, from, at)?)
            } else {
                Err(Refusal::Unexpected)
            }
        }
        _other => Err(Refusal::Unexpected),
    }
}

/// `(..` after `Many`.
fn begin_high(stack: &mut Stack, at: Span) -> Result<Focus, Refusal>
    ensures { Gives (step.begin_high at (forms stack.old)) result stack.new }
{
    match stack.pop() {
        Some(Frame::Inner(frame)) => begin_high_in(stack, frame, at),
        Some(_other) => Err(Refusal::Unexpected),
        None => Err(Refusal::Unexpected),
    }
}

fn begin_high_in(stack: &mut Stack, frame: InnerFrame, at: Span) -> Result<Focus, Refusal>
    ensures { Gives (step.begin_high at (inner_frame_view frame ∷ forms stack.old)) result stack.new }
{
    match frame {
        InnerFrame::Paren(from) => begin_high_behind(stack, at, from),
        _other => Err(Refusal::Unexpected),
    }
}

/// `..` after `(`, where that stands behind `Many`.
#[tactic(auto, using(crate::proofs::NoHigh::no_high))]
fn begin_high_behind(stack: &mut Stack, at: Span, from: Span) -> Result<Focus, Refusal>
    ensures { Gives (step.begin_high at (m.in_paren from ∷ forms stack.old)) result stack.new }
{
    match stack.pop() {
        Some(Frame::Last(frame)) => high_of(stack, frame, at, from),
        Some(_other) => Err(Refusal::Unexpected),
        None => Err(Refusal::Unexpected),
    }
}

fn high_of(stack: &mut Stack, frame: LastFrame, at: Span, from: Span) -> Result<Focus, Refusal>
    ensures { Gives (step.begin_high at (m.in_paren from ∷ last_frame_view frame ∷ forms stack.old)) result stack.new }
{
    match frame {
        LastFrame::Many { repeat, bound, .. } => match bound {
            Bound::Free => Ok(open(stack, Frame::Inner(InnerFrame::AtMost { repeat, from }))?),
            Bound::Exactly(_)
            | Bound::AtLeast { .. }
            | Bound::AtMost { .. }
            | Bound::Between { .. } => Err(Refusal::Unexpected),
        },
        _other => Err(Refusal::Unexpected),
    }
}

/// `)` after `Many (e ..`.
fn close_low(stack: &mut Stack, at: Span) -> Result<Focus, Refusal>
    ensures { Gives (step.close_low at (forms stack.old)) result stack.new }
{
    match stack.pop() {
        Some(Frame::Inner(frame)) => close_low_in(stack, frame, at),
        Some(_other) => Err(Refusal::Unexpected),
        None => Err(Refusal::Unexpected),
    }
}

fn close_low_in(stack: &mut Stack, frame: InnerFrame, at: Span) -> Result<Focus, Refusal>
    ensures { Gives (step.close_low at (inner_frame_view frame ∷ forms stack.old)) result stack.new }
{
    match frame {
        InnerFrame::Between { repeat, from, low } => {
            let frame = LastFrame::Many {
                repeat,
                deep: low.deep,
                bound: Bound::AtLeast {
                    low: low.expr,
                    span: joined(from, at),
                },
            };
            Ok(open(stack, Frame::Last(frame))?)
        }
        _other => Err(Refusal::Unexpected),
    }
}
