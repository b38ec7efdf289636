#![tactic(auto, using(ddl_tree::proofs::Layers::layers))]

ghost use Rattle.std.specs.Prelude.{◌≡◌, [], ◌∷◌, ◌++◌, map, IfOk, OnOk};
ghost use Rattle.ddl_token.specs.declared.token.Tok.TheVariants as k;
ghost use Rattle.ddl_tree.specs.ExprTree.{expr_span};
ghost use Rattle.ddl_tree.specs.View.{view, type_view, typed_view};
ghost use Rattle.ddl_tree.specs.ViewModule.{decl_view, param_view};
ghost use Rattle.ddl_states.specs.FrameView.{found_view, found_type_view, found_class_view, sort_view, head_view};
ghost use Rattle.ddl_states.specs.Gives.{Gives};
ghost use Rattle.ddl_states.specs.StackView.{forms};
ghost use Rattle.ddl_reader.specs.StepDecl as step;
ghost use Rattle.ddl_reader.specs.StepType as step_type;

use crate::module_step::{begin_decl, declare};
use ddl_base::{NoMemory, Span};
use ddl_states::part::{joined, name_at, open, open_union};
use ddl_states::{
    ClassFocus, DeclFrame, Focus, Found, FoundClass, FoundType, Frame, Head, HeadFocus, Refusal,
    Sort, Stack, TypeFocus,
};
use ddl_token::{Mark, Tok};
use ddl_tree::{Decl, Name, Param, TypeExpr};
use std::alloc::Global;

fn head_of(alloc: Global, from: Span, sort: Sort, name: Name) -> Head
    ensures { head_view result ≡ step.head_of from (sort_view sort) name }
{
    Head {
        from,
        sort,
        name,
        params: Vec::new(alloc),
        deep: 0,
    }
}

/// The name behind `def`.
pub fn decl_name(
    alloc: Global,
    stack: &Stack,
    kind: &Tok,
    at: Span,
    from: Span,
) -> Result<Focus, Refusal>
    ensures { Gives (step.decl_name kind.now at from (forms stack.now)) result stack.now }
{
    match kind {
        Tok::Upper(name) => {
            let name = name_at(alloc, name, at)?;
            let head = head_of(alloc, from, Sort::Grammar, name);
            Ok(Focus::Head(HeadFocus::Param(head)))
        }
        Tok::Lower(name) => {
            let name = name_at(alloc, name, at)?;
            let head = head_of(alloc, from, Sort::Value, name);
            Ok(Focus::Head(HeadFocus::Param(head)))
        }
        Tok::Class(name) => {
            let name = name_at(alloc, name, at)?;
            Ok(Focus::Head(HeadFocus::ClassEquals { from, name }))
        }
        _ => Err(Refusal::Unexpected),
    }
}

/// A head with one more parameter.
#[tactic(auto, using(std::proofs::lemmas::List::map_push))]
fn with_param(mut head: Head, param: Param, deep: u32) -> Result<Head, NoMemory>
    ensures { IfOk result (λ all. head_view all ≡ step.with_param (head_view head) (param_view param) deep) }
{
    head.params.push(param)?;
    head.deep = head.deep.max(deep);
    Ok(head)
}

/// A parameter, the result's type or the body.
pub fn param_with(
    alloc: Global,
    stack: &mut Stack,
    kind: &Tok,
    at: Span,
    head: Head,
) -> Result<Focus, Refusal>
    ensures { Gives (step.param_with kind.now at (head_view head) (forms stack.old)) result stack.new }
{
    let param = match kind {
        Tok::Upper(name) => Param::Upper(name_at(alloc, name, at)?),
        Tok::Lower(name) => Param::Lower(name_at(alloc, name, at)?),
        Tok::Class(name) => Param::Class(name_at(alloc, name, at)?),
        Tok::Mark(mark) => return after_params(stack, *mark, at, head),
        _ => return Err(Refusal::Unexpected),
    };
    Ok(Focus::Head(HeadFocus::Param(with_param(head, param, 0)?)))
}

fn after_params(stack: &mut Stack, mark: Mark, at: Span, head: Head) -> Result<Focus, Refusal>
    ensures { Gives (step.param_with (k.Mark mark) at (head_view head) (forms stack.old)) result stack.new }
{
    match mark {
        Mark::OpenParen => Ok(Focus::Head(HeadFocus::OpenParam { head, from: at })),
        Mark::Colon => {
            stack.push(Frame::Decl(DeclFrame::Result(head)))?;
            Ok(Focus::Type(TypeFocus::Want))
        }
        Mark::Equals => {
            let frame = DeclFrame::Body {
                head,
                result: None,
                deep: 0,
            };
            Ok(open(stack, Frame::Decl(frame))?)
        }
        _ => Err(Refusal::Unexpected),
    }
}

/// The name of a parameter with a type.
pub fn param_name(
    alloc: Global,
    stack: &Stack,
    kind: &Tok,
    at: Span,
    head: Head,
    from: Span,
) -> Result<Focus, Refusal>
    ensures { Gives (step.param_name kind.now at (head_view head) from (forms stack.now)) result stack.now }
{
    let (sort, name) = match kind {
        Tok::Upper(name) => (Sort::Grammar, name_at(alloc, name, at)?),
        Tok::Lower(name) => (Sort::Value, name_at(alloc, name, at)?),
        _ => return Err(Refusal::Unexpected),
    };
    Ok(Focus::Head(HeadFocus::ParamColon {
        head,
        from,
        sort,
        name,
    }))
}

/// `:` after the name of a parameter.
pub fn param_colon(
    stack: &mut Stack,
    kind: &Tok,
    head: Head,
    from: Span,
    sort: Sort,
    name: Name,
) -> Result<Focus, Refusal>
    ensures { Gives (step.param_colon_with kind.now (head_view head) from (sort_view sort) name (forms stack.old))
        result stack.new }
{
    match kind {
        Tok::Mark(Mark::Colon) => {
            let frame = DeclFrame::Param {
                head,
                from,
                sort,
                name,
            };
            stack.push(Frame::Decl(frame))?;
            Ok(Focus::Type(TypeFocus::Want))
        }
        _ => Err(Refusal::Unexpected),
    }
}

fn typed_param(sort: Sort, name: Name, of: TypeExpr, span: Span) -> Param
    ensures { param_view result ≡ step.typed_param (sort_view sort) name (type_view of) span }
{
    match sort {
        Sort::Grammar => Param::TypedUpper { name, of, span },
        Sort::Value => Param::TypedLower { name, of, span },
    }
}

/// `)` after the type of a parameter.
pub fn after_param_type(
    stack: &Stack,
    kind: &Tok,
    at: Span,
    head: Head,
    from: Span,
    sort: Sort,
    name: Name,
    part: FoundType,
) -> Result<Focus, Refusal>
    ensures { Gives (step.after_param_type kind.now at (head_view head) from (sort_view sort) name
        (found_type_view part) (forms stack.now)) result stack.now }
{
    match kind {
        Tok::Mark(Mark::CloseParen) => {
            let param = typed_param(sort, name, part.of, joined(from, at));
            Ok(Focus::Head(HeadFocus::Param(with_param(head, param, part.deep)?)))
        }
        _ => Err(Refusal::Unexpected),
    }
}

/// `=` after the type of the result.
pub fn after_result(
    stack: &mut Stack,
    kind: &Tok,
    head: Head,
    part: FoundType,
) -> Result<Focus, Refusal>
    ensures { Gives (step.after_result kind.now (head_view head) (found_type_view part) (forms stack.old)) result
        stack.new }
{
    match kind {
        Tok::Mark(Mark::Equals) => {
            let frame = DeclFrame::Body {
                head,
                deep: part.deep,
                result: Some(part.of),
            };
            Ok(open(stack, Frame::Decl(frame))?)
        }
        _ => Err(Refusal::Unexpected),
    }
}

fn decl_of(head: Head, result_type: Option<TypeExpr>, body: Found) -> Decl
    ensures { decl_view result ≡ step.decl_of (sort_view head.sort) head.name (map param_view head.params.items)
        (typed_view result_type) (found_view body) (step_type.joined head.from (expr_span (view body.expr.value))) }
{
    let span = joined(head.from, body.expr.span());
    let body = Box::into_inner(body.expr);
    match head.sort {
        Sort::Grammar => Decl::Grammar {
            name: head.name,
            params: head.params,
            result: result_type,
            body,
            span,
        },
        Sort::Value => Decl::Value {
            name: head.name,
            params: head.params,
            result: result_type,
            body,
            span,
        },
    }
}

/// Declares what this is the body of.
pub fn close_body(
    stack: &mut Stack,
    head: Head,
    result_type: Option<TypeExpr>,
    deep: u32,
    body: Found,
) -> Result<(), NoMemory>
    ensures { OnOk result (forms stack.new ≡ step.close_body (head_view head) (typed_view result_type) deep
        (found_view body) (forms stack.old)) }
{
    let deep = head.deep.max(deep.max(body.deep));
    declare(stack, decl_of(head, result_type, body), deep)
}

/// `=` after the name of a class.
pub fn class_equals(stack: &mut Stack, kind: &Tok, from: Span, name: Name) -> Result<Focus, Refusal>
    ensures { Gives (step.class_equals_with kind.now from name (forms stack.old)) result stack.new }
{
    match kind {
        Tok::Mark(Mark::Equals) => {
            stack.push(Frame::Decl(DeclFrame::ClassBody { from, name }))?;
            Ok(Focus::Class(ClassFocus::Want))
        }
        _ => Err(Refusal::Unexpected),
    }
}

/// Declares what class a name is.
pub fn close_class_body(
    stack: &mut Stack,
    from: Span,
    name: Name,
    body: FoundClass,
) -> Result<(), NoMemory>
    ensures { OnOk result (forms stack.new ≡ step.close_class_body from name (found_class_view body) (forms stack.old)) }
{
    let decl = Decl::Class {
        name,
        span: joined(from, body.class.span()),
        body: body.class,
    };
    declare(stack, decl, body.deep)
}

/// After the class that a name is declared to be.
pub fn after_class_body(
    stack: &mut Stack,
    kind: &Tok,
    at: Span,
    from: Span,
    name: Name,
    body: FoundClass,
) -> Result<Focus, Refusal>
    ensures { Gives (step.after_class_body kind.now at from name (found_class_view body) (forms stack.old)) result
        stack.new }
{
    match kind {
        Tok::Mark(Mark::Bar) => {
            let around = Frame::Decl(DeclFrame::ClassBody { from, name });
            Ok(open_union(stack, around, body)?)
        }
        _ => {
            close_class_body(stack, from, name, body)?;
            begin_decl(stack, kind, at)
        }
    }
}
