ghost use Rattle.std.specs.Prelude.{◌≤◌};
ghost use Rattle.ddl_states.specs.FocusView.{focus_view, type_focus_view, class_focus_view, loop_focus_view};
ghost use Rattle.ddl_states.specs.FocusView.{field_focus_view, list_focus_view, case_focus_view, head_focus_view};
ghost use Rattle.ddl_states.specs.FocusView.{bits_focus_view};
ghost use Rattle.ddl_states.specs.Gives.{Gives};
ghost use Rattle.ddl_states.specs.Heights.{coming, height};
ghost use Rattle.ddl_states.specs.StackView.{forms};
ghost use Rattle.ddl_reader.specs.Step as machine;

use crate::after_step::{step_byte, step_class, step_type};
use crate::have_step::step_have;
use ddl_base::Span;
use ddl_read_decls::{bits_step, decl_step, module_step};
use ddl_read_exprs::first_step::begin;
use ddl_read_forms::{case_step, field_step, list_step, loop_step};
use ddl_read_types::{class_step, type_step};
use ddl_states::{
    BitsFocus, CaseFocus, ClassFocus, FieldFocus, Focus, HeadFocus, ListFocus, LoopFocus, Refusal,
    Stack, TypeFocus,
};
use ddl_token::Tok;
use std::alloc::Global;

fn step_in_type(
    alloc: Global,
    stack: &mut Stack,
    kind: &Tok,
    at: Span,
    focus: TypeFocus,
) -> Result<Focus, Refusal>
    requires { height (forms stack.old) (coming (type_focus_view focus)) ≤ 400 }
    ensures { Gives (machine.step_at (type_focus_view focus) (forms stack.old) kind.now at) result stack.new }
{
    match focus {
        TypeFocus::Want => type_step::begin_type(alloc, stack, kind, at),
        TypeFocus::Have(part) => step_type(alloc, stack, kind, at, part),
        TypeFocus::Uint(from) => type_step::width_uint(alloc, stack, kind, at, from),
        TypeFocus::Sint(from) => type_step::width_sint(alloc, stack, kind, at, from),
        TypeFocus::Empty(from) => type_step::close_empty(alloc, stack, kind, at, from),
    }
}

fn step_in_class(
    alloc: Global,
    stack: &mut Stack,
    kind: &Tok,
    at: Span,
    focus: ClassFocus,
) -> Result<Focus, Refusal>
    requires { height (forms stack.old) (coming (class_focus_view focus)) ≤ 400 }
    ensures { Gives (machine.step_at (class_focus_view focus) (forms stack.old) kind.now at) result stack.new }
{
    match focus {
        ClassFocus::Want => class_step::begin_class(alloc, stack, kind, at),
        ClassFocus::Have(part) => step_class(alloc, stack, kind, at, part),
        ClassFocus::Byte(byte) => step_byte(alloc, stack, kind, at, byte),
        ClassFocus::Last(first) => class_step::last_byte(alloc, stack, kind, at, first),
    }
}

fn step_in_loop(
    alloc: Global,
    stack: &mut Stack,
    kind: &Tok,
    at: Span,
    focus: LoopFocus,
) -> Result<Focus, Refusal>
    ensures { Gives (machine.step_at (loop_focus_view focus) (forms stack.old) kind.now at) result stack.new }
{
    match focus {
        LoopFocus::OpenFor(from) => loop_step::open_for(stack, kind, from),
        LoopFocus::State(from) => loop_step::for_name(alloc, stack, kind, at, from),
        LoopFocus::Equals { from, state } => loop_step::for_equals(stack, kind, from, state),
        LoopFocus::OpenMap(from) => loop_step::open_map(stack, kind, from),
        LoopFocus::First(before) => loop_step::first_name(alloc, stack, kind, at, before),
        LoopFocus::AfterFirst { before, first } => {
            loop_step::after_first_name(stack, kind, before, first)
        }
        LoopFocus::Second { before, first } => {
            loop_step::second_name(alloc, stack, kind, at, before, first)
        }
        LoopFocus::In { before, names } => loop_step::in_list(stack, kind, before, names),
    }
}

fn step_in_field(
    alloc: Global,
    stack: &mut Stack,
    kind: &Tok,
    at: Span,
    focus: FieldFocus,
) -> Result<Focus, Refusal>
    requires { height (forms stack.old) (coming (field_focus_view focus)) ≤ 400 }
    ensures { Gives (machine.step_at (field_focus_view focus) (forms stack.old) kind.now at) result stack.new }
{
    match focus {
        FieldFocus::Shape(value) => field_step::shape(alloc, stack, kind, at, value),
        FieldFocus::Select(value) => field_step::select(alloc, stack, kind, at, value),
        FieldFocus::FirstOfRecord(from) => field_step::first_field(alloc, stack, kind, at, from),
        FieldFocus::NextOfRecord { from, fields, deep } => {
            field_step::next_field(alloc, stack, kind, at, from, fields, deep)
        }
        FieldFocus::RecordEquals {
            from,
            fields,
            deep,
            name,
        } => field_step::record_equals(stack, kind, from, fields, deep, name),
        FieldFocus::OpenTagged(from) => field_step::tag_name(alloc, stack, kind, at, from),
        FieldFocus::AfterTag { from, tag } => {
            field_step::after_tag(alloc, stack, kind, at, from, tag)
        }
    }
}

fn step_in_list(
    alloc: Global,
    stack: &mut Stack,
    kind: &Tok,
    at: Span,
    focus: ListFocus,
) -> Result<Focus, Refusal>
    ensures { Gives (machine.step_at (list_focus_view focus) (forms stack.old) kind.now at) result stack.new }
{
    match focus {
        ListFocus::OpenBlock(from) => list_step::open_block(alloc, stack, kind, from),
        ListFocus::ItemEquals {
            from,
            items,
            deep,
            start,
        } => list_step::item_equals(stack, kind, from, items, deep, start),
        ListFocus::LetName {
            from,
            items,
            deep,
            at: let_at,
        } => list_step::let_name(alloc, stack, kind, at, from, items, deep, let_at),
        ListFocus::OpenChoice(repeat) => list_step::open_choice(alloc, stack, kind, repeat),
        ListFocus::WantTag {
            repeat,
            alternatives,
            deep,
        } => list_step::want_tag(alloc, stack, kind, at, repeat, alternatives, deep),
        ListFocus::TagEquals {
            repeat,
            alternatives,
            deep,
            tag,
        } => list_step::tag_equals(stack, kind, repeat, alternatives, deep, tag),
    }
}

fn step_in_case(
    alloc: Global,
    stack: &mut Stack,
    kind: &Tok,
    at: Span,
    focus: CaseFocus,
) -> Result<Focus, Refusal>
    ensures { Gives (machine.step_at (case_focus_view focus) (forms stack.old) kind.now at) result stack.new }
{
    match focus {
        CaseFocus::Open { from, subject } => {
            case_step::open_case(alloc, stack, kind, from, subject)
        }
        CaseFocus::Pattern(cases) => case_step::pattern(alloc, stack, kind, at, cases),
        CaseFocus::Just { cases, from } => case_step::just(alloc, stack, kind, at, cases, from),
        CaseFocus::Tag { cases, tag } => case_step::tag(alloc, stack, kind, at, cases, tag),
        CaseFocus::Arrow { cases, pattern } => case_step::arrow(stack, kind, cases, pattern),
    }
}

fn step_in_head(
    alloc: Global,
    stack: &mut Stack,
    kind: &Tok,
    at: Span,
    focus: HeadFocus,
) -> Result<Focus, Refusal>
    ensures { Gives (machine.step_at (head_focus_view focus) (forms stack.old) kind.now at) result stack.new }
{
    match focus {
        HeadFocus::Import(from) => module_step::import_name(alloc, stack, kind, at, from),
        HeadFocus::Name(from) => decl_step::decl_name(alloc, stack, kind, at, from),
        HeadFocus::Param(head) => decl_step::param_with(alloc, stack, kind, at, head),
        HeadFocus::OpenParam { head, from } => {
            decl_step::param_name(alloc, stack, kind, at, head, from)
        }
        HeadFocus::ParamColon {
            head,
            from,
            sort,
            name,
        } => decl_step::param_colon(stack, kind, head, from, sort, name),
        HeadFocus::ClassEquals { from, name } => {
            decl_step::class_equals(stack, kind, from, name)
        }
    }
}

fn step_in_bits(
    alloc: Global,
    stack: &mut Stack,
    kind: &Tok,
    at: Span,
    focus: BitsFocus,
) -> Result<Focus, Refusal>
    ensures { Gives (machine.step_at (bits_focus_view focus) (forms stack.old) kind.now at) result stack.new }
{
    match focus {
        BitsFocus::Name(from) => bits_step::bits_name(alloc, stack, kind, at, from),
        BitsFocus::AfterName { from, name } => bits_step::after_bits_name(stack, kind, from, name),
        BitsFocus::OpenCons { from, name } => {
            bits_step::open_cons(alloc, stack, kind, from, name)
        }
        BitsFocus::Con {
            from,
            name,
            cons,
            deep,
        } => bits_step::con_name(alloc, stack, kind, at, from, name, cons, deep),
        BitsFocus::ConEquals {
            from,
            name,
            cons,
            deep,
            con,
        } => bits_step::con_equals(stack, kind, from, name, cons, deep, con),
        BitsFocus::AfterCon {
            from,
            name,
            cons,
            deep,
        } => bits_step::after_con(stack, kind, at, from, name, cons, deep),
        BitsFocus::Bits(layout) => bits_step::bits_with(alloc, stack, kind, at, layout),
        BitsFocus::Part(parted) => bits_step::part_with(alloc, stack, kind, at, parted),
        BitsFocus::AfterPart(parted) => bits_step::after_part(stack, kind, at, parted),
        BitsFocus::PartColon { parted, start } => {
            bits_step::part_colon(stack, kind, parted, start)
        }
    }
}

/// One token.
pub fn step(
    alloc: Global,
    stack: &mut Stack,
    kind: &Tok,
    at: Span,
    focus: Focus,
) -> Result<Focus, Refusal>
    requires { height (forms stack.old) (coming (focus_view focus)) ≤ 400 }
    ensures { Gives (machine.step_at (focus_view focus) (forms stack.old) kind.now at) result stack.new }
{
    match focus {
        Focus::Import => module_step::begin_import(stack, kind, at),
        Focus::Decl => module_step::begin_decl(stack, kind, at),
        Focus::Type(focus) => step_in_type(alloc, stack, kind, at, focus),
        Focus::Class(focus) => step_in_class(alloc, stack, kind, at, focus),
        Focus::Want => begin(alloc, stack, kind, at),
        Focus::Have(part) => step_have(alloc, stack, kind, at, part),
        Focus::Loop(focus) => step_in_loop(alloc, stack, kind, at, focus),
        Focus::Field(focus) => step_in_field(alloc, stack, kind, at, focus),
        Focus::List(focus) => step_in_list(alloc, stack, kind, at, focus),
        Focus::Case(focus) => step_in_case(alloc, stack, kind, at, focus),
        Focus::Head(focus) => step_in_head(alloc, stack, kind, at, focus),
        Focus::Bits(focus) => step_in_bits(alloc, stack, kind, at, focus),
    }
}
