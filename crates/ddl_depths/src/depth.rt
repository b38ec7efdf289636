ghost use Rattle.std.specs.Prelude.{◌≡◌, ◌≤◌, ◌+◌, max, []};
ghost use Rattle.ddl_reader.specs.Depths.{around, layout_deep, loop_need as loop_need_of, need as need_of, need_expr};
ghost use Rattle.ddl_states.specs.Heights.{coming};
ghost use Rattle.ddl_states.specs.FocusView as focus_view;
ghost use Rattle.ddl_states.specs.FrameView as view;
ghost use Rattle.ddl_depths.specs.Limit.{hole_need};
ghost use Rattle.ddl_states.specs.StackView.{stack_view};

use ddl_states::{
    BitsFocus, CaseFocus, Cases, ClassFocus, ClassFrame, DeclFrame, FieldFocus, Focus, Frame,
    HeadFocus, InnerFrame, LastFrame, Layout, ListFocus, ListFrame, Loop, LoopFocus, Parted,
    TypeFocus, TypeFrame,
};

fn around_type(frame: &TypeFrame, deep: u64) -> u64
    requires { deep ≤ 200 }
    ensures { result ≡ around (view.type_frame_view frame.now) deep }
{
    match frame {
        TypeFrame::Maybe(_) | TypeFrame::Bracket(_) | TypeFrame::Within(_) => 1 + deep,
        TypeFrame::MapValue { key, .. } => 1 + (key.deep as u64).max(deep),
        TypeFrame::Cast { value, .. } => 1 + (value.deep as u64).max(deep),
        TypeFrame::Paren { inner, .. } => 1 + (inner.deep as u64).max(deep),
    }
}

fn around_class(frame: &ClassFrame, deep: u64) -> u64
    requires { deep ≤ 200 }
    ensures { result ≡ around (view.class_frame_view frame.now) deep }
{
    match frame {
        ClassFrame::Union(left) => 1 + (left.deep as u64).max(deep),
        ClassFrame::Other(_) | ClassFrame::Grouped(_) | ClassFrame::Set(_) | ClassFrame::Atom(_) =>
            1 + deep,
    }
}

fn around_last(frame: &LastFrame, deep: u64) -> u64
    requires { deep ≤ 200 }
    ensures { result ≡ around (view.last_frame_view frame.now) deep }
{
    match frame {
        LastFrame::Infix { left, .. } => 1 + (left.deep as u64).max(deep),
        LastFrame::Else {
            condition,
            then,
            ..
        } => 1 + (condition.deep as u64).max((then.deep as u64).max(deep)),
        LastFrame::For { start, list, .. } => {
            1 + (start.deep as u64).max((list.deep as u64).max(deep))
        }
        LastFrame::Map { list, .. } => 1 + (list.deep as u64).max(deep),
        LastFrame::CallGrammar { deep: before, .. }
        | LastFrame::CallValue { deep: before, .. }
        | LastFrame::Many { deep: before, .. } => 1 + (*before as u64).max(deep),
        LastFrame::Pure(_)
        | LastFrame::Prefix { .. }
        | LastFrame::Just(_)
        | LastFrame::Optional(_) => 1 + deep,
    }
}

fn around_inner(frame: &InnerFrame, deep: u64) -> u64
    requires { deep ≤ 200 }
    ensures { result ≡ around (view.inner_frame_view frame.now) deep }
{
    match frame {
        InnerFrame::Then { condition, .. } => 1 + (condition.deep as u64).max(deep),
        InnerFrame::ForList { start, .. } => 1 + (start.deep as u64).max(deep),
        InnerFrame::Between { low, .. } => 1 + (low.deep as u64).max(deep),
        InnerFrame::If(_)
        | InnerFrame::ForStart { .. }
        | InnerFrame::MapList { .. }
        | InnerFrame::AtMost { .. }
        | InnerFrame::Paren(_)
        | InnerFrame::Tagged { .. }
        | InnerFrame::Subject(_) => 1 + deep,
    }
}

fn around_list(frame: &ListFrame, deep: u64) -> u64
    requires { deep ≤ 200 }
    ensures { result ≡ around (view.list_frame_view frame.now) deep }
{
    match frame {
        ListFrame::Array { deep: before, .. }
        | ListFrame::Record { deep: before, .. }
        | ListFrame::Block { deep: before, .. }
        | ListFrame::Untagged { deep: before, .. }
        | ListFrame::WithTags { deep: before, .. } => 1 + (*before as u64).max(deep),
        ListFrame::Alt {
            subject,
            deep: before,
            ..
        } => 1 + (subject.deep as u64).max((*before as u64).max(deep)),
    }
}

fn layout_depth(layout: &Layout) -> u64
    ensures { result ≡ layout_deep (view.layout_view layout.now) }
{
    match layout {
        Layout::Decl { .. } => 0,
        Layout::Con { deep, .. } => *deep as u64,
    }
}

fn around_decl(frame: &DeclFrame, deep: u64) -> u64
    requires { deep ≤ 200 }
    ensures { result ≡ around (view.decl_frame_view frame.now) deep }
{
    match frame {
        DeclFrame::Module { deep: before, .. } => (*before as u64).max(deep),
        DeclFrame::Param { head, .. } | DeclFrame::Result(head) => (head.deep as u64).max(deep),
        DeclFrame::Body {
            head,
            deep: before,
            ..
        } => (head.deep as u64).max((*before as u64).max(deep)),
        DeclFrame::ClassBody { .. } => deep,
        DeclFrame::Part { parted, .. } => {
            layout_depth(&parted.layout).max((parted.deep as u64).max(deep))
        }
    }
}

/// How deep a form is around a part of this depth.
pub fn around_frame(frame: &Frame, deep: u64) -> u64
    requires { deep ≤ 200 }
    ensures { result ≡ around (view.frame_view frame.now) deep }
{
    match frame {
        Frame::Type(frame) => around_type(frame, deep),
        Frame::Class(frame) => around_class(frame, deep),
        Frame::Last(frame) => around_last(frame, deep),
        Frame::Inner(frame) => around_inner(frame, deep),
        Frame::List(frame) => around_list(frame, deep),
        Frame::Decl(frame) => around_decl(frame, deep),
    }
}

fn loop_need(before: &Loop) -> u64
    ensures { result ≡ loop_need_of (focus_view.loop_view before.now) }
{
    match before {
        Loop::For { start, .. } => 1 + (start.deep as u64).max(1),
        Loop::Map(_) => 2,
    }
}

fn type_need(focus: &TypeFocus) -> u64
    ensures { result ≡ coming (focus_view.type_focus_view focus.now) }
{
    match focus {
        TypeFocus::Have(part) => part.deep as u64,
        TypeFocus::Want | TypeFocus::Uint(_) | TypeFocus::Sint(_) | TypeFocus::Empty(_) => 1,
    }
}

fn class_need(focus: &ClassFocus) -> u64
    ensures { result ≡ coming (focus_view.class_focus_view focus.now) }
{
    match focus {
        ClassFocus::Have(part) => part.deep as u64,
        ClassFocus::Want | ClassFocus::Byte(_) | ClassFocus::Last(_) => 1,
    }
}

fn loop_focus_need(focus: &LoopFocus) -> u64
    ensures { result ≡ coming (focus_view.loop_focus_view focus.now) }
{
    match focus {
        LoopFocus::OpenFor(_)
        | LoopFocus::State(_)
        | LoopFocus::Equals { .. }
        | LoopFocus::OpenMap(_) => 2,
        LoopFocus::First(before)
        | LoopFocus::AfterFirst { before, .. }
        | LoopFocus::Second { before, .. }
        | LoopFocus::In { before, .. } => loop_need(before),
    }
}

fn field_need(focus: &FieldFocus) -> u64
    ensures { result ≡ coming (focus_view.field_focus_view focus.now) }
{
    match focus {
        FieldFocus::Shape(value) | FieldFocus::Select(value) => 1 + value.deep as u64,
        FieldFocus::NextOfRecord { deep, .. } | FieldFocus::RecordEquals { deep, .. } => {
            1 + (*deep as u64).max(1)
        }
        FieldFocus::FirstOfRecord(_) | FieldFocus::OpenTagged(_) | FieldFocus::AfterTag { .. } => 1,
    }
}

fn list_need(focus: &ListFocus) -> u64
    ensures { result ≡ coming (focus_view.list_focus_view focus.now) }
{
    match focus {
        ListFocus::OpenBlock(_) | ListFocus::OpenChoice(_) => 2,
        ListFocus::ItemEquals { deep, .. }
        | ListFocus::LetName { deep, .. }
        | ListFocus::WantTag { deep, .. }
        | ListFocus::TagEquals { deep, .. } => 1 + (*deep as u64).max(1),
    }
}

fn cases_need(cases: &Cases) -> u64
    ensures { result ≡ 1 + max cases.now.subject.deep (max cases.now.deep 1) }
{
    1 + (cases.subject.deep as u64).max((cases.deep as u64).max(1))
}

fn case_need(focus: &CaseFocus) -> u64
    ensures { result ≡ coming (focus_view.case_focus_view focus.now) }
{
    match focus {
        CaseFocus::Open { subject, .. } => 1 + (subject.deep as u64).max(1),
        CaseFocus::Pattern(cases)
        | CaseFocus::Just { cases, .. }
        | CaseFocus::Tag { cases, .. }
        | CaseFocus::Arrow { cases, .. } => cases_need(cases),
    }
}

fn head_need(focus: &HeadFocus) -> u64
    ensures { result ≡ coming (focus_view.head_focus_view focus.now) }
{
    match focus {
        HeadFocus::Import(_) => 0,
        HeadFocus::Param(head)
        | HeadFocus::OpenParam { head, .. }
        | HeadFocus::ParamColon { head, .. } => (head.deep as u64).max(1),
        HeadFocus::Name(_) | HeadFocus::ClassEquals { .. } => 1,
    }
}

fn parted_need(parted: &Parted) -> u64
    ensures { result ≡ max (layout_deep (view.layout_view parted.now.layout)) parted.now.deep }
{
    layout_depth(&parted.layout).max(parted.deep as u64)
}

fn bits_need(focus: &BitsFocus) -> u64
    ensures { result ≡ coming (focus_view.bits_focus_view focus.now) }
{
    match focus {
        BitsFocus::Name(_) | BitsFocus::AfterName { .. } | BitsFocus::OpenCons { .. } => 0,
        BitsFocus::Con { deep, .. }
        | BitsFocus::ConEquals { deep, .. }
        | BitsFocus::AfterCon { deep, .. } => *deep as u64,
        BitsFocus::Bits(layout) => layout_depth(layout),
        BitsFocus::Part(parted) | BitsFocus::AfterPart(parted) => parted_need(parted),
        BitsFocus::PartColon { parted, .. } => {
            layout_depth(&parted.layout).max((parted.deep as u64).max(1))
        }
    }
}

#[tactic(auto, using(crate::proofs::Limits::hole_needs))]
fn list_hole_need(frame: &ListFrame) -> u64
    ensures { result ≡ hole_need (view.list_frame_view frame.now) }
{
    match frame {
        ListFrame::Array { elements, .. } => (elements.len() as u64).min(1),
        ListFrame::Record { .. }
        | ListFrame::Block { .. }
        | ListFrame::Untagged { .. }
        | ListFrame::WithTags { .. }
        | ListFrame::Alt { .. } => 1,
    }
}

#[tactic(auto, using(crate::proofs::Limits::hole_needs))]
fn frame_hole_need(frame: &Frame) -> u64
    ensures { result ≡ hole_need (view.frame_view frame.now) }
{
    match frame {
        Frame::List(frame) => list_hole_need(frame),
        Frame::Type(_) | Frame::Class(_) | Frame::Last(_) | Frame::Inner(_) | Frame::Decl(_) => 1,
    }
}

/// The depth of the shallowest expression that can stand at the hole.
fn expr_need(frames: &[Frame]) -> u64
    ensures { result ≡ need_expr (stack_view frames.now []) }
{
    match frames.split_last() {
        Some((frame, _outer)) => frame_hole_need(frame),
        None => 1,
    }
}

/// The depth of the shallowest form that can stand at the hole.
#[tactic(auto, using(crate::proofs::Needs::needs))]
pub fn need(frames: &[Frame], focus: &Focus) -> u64
    ensures { result ≡ need_of (stack_view frames.now []) (focus_view.focus_view focus.now) }
{
    match focus {
        Focus::Import | Focus::Decl => 0,
        Focus::Want => expr_need(frames),
        Focus::Type(focus) => type_need(focus),
        Focus::Class(focus) => class_need(focus),
        Focus::Have(part) => part.deep as u64,
        Focus::Loop(focus) => loop_focus_need(focus),
        Focus::Field(focus) => field_need(focus),
        Focus::List(focus) => list_need(focus),
        Focus::Case(focus) => case_need(focus),
        Focus::Head(focus) => head_need(focus),
        Focus::Bits(focus) => bits_need(focus),
    }
}
