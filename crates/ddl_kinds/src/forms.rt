ghost use Rattle.std.specs.Prelude.{◌≡◌};
ghost use Rattle.ddl_tree.specs.View.{alts_view, typed_view, view};
ghost use Rattle.ddl_kinds.specs.Findings.{wants};
ghost use Rattle.ddl_kinds.specs.Kinds.{cast_want, first_want, form_of_cast, form_of_infix, form_of_parens, free_want};
ghost use Rattle.ddl_kinds.specs.Kinds.{settled, sides};
ghost use Rattle.ddl_kinds.specs.Found.{meaning_view, wants_view};

use crate::meaning::{Arguments, Meaning};
use crate::want::{Form, Want};
use ddl_tree::{Alt, CastOp, Expr, InfixOp, TypeExpr};

/// What an operator wants on its sides.
pub fn sides(op: InfixOp) -> Want
    ensures { result ≡ sides op }
{
    match op {
        InfixOp::Either | InfixOp::OrElse => Want::Grammar,
        _ => Want::Value,
    }
}

/// What two sides with an operator are as a form.
pub fn form_of_infix(op: InfixOp) -> Form
    ensures { result ≡ form_of_infix op }
{
    match op {
        InfixOp::Either | InfixOp::OrElse => Form::Grammar,
        _ => Form::Value,
    }
}

/// What a cast is as a form.
pub fn form_of_cast(op: CastOp) -> Form
    ensures { result ≡ form_of_cast op }
{
    match op {
        CastOp::Fit => Form::Grammar,
        _ => Form::Value,
    }
}

// What a cast is in a free place.
fn cast_want(op: CastOp) -> Want
    ensures { result ≡ cast_want op }
{
    match op {
        CastOp::Fit => Want::Grammar,
        _ => Want::Value,
    }
}

/// What parentheses are as a form.
pub fn form_of_parens(typed: &Option<TypeExpr>) -> Form
    ensures { result ≡ form_of_parens (typed_view typed.now) }
{
    match typed {
        None => Form::Group,
        Some(_) => Form::Either,
    }
}

/// What an expression is in a free place, by how it is written.
#[cycle(free)]
#[tactic(auto, using(ddl_tree::proofs::Layers::layers))]
pub fn free_want(expr: &Expr) -> Want
    ensures { result ≡ free_want (view expr.now) }
{
    match expr {
        Expr::Infix { op, .. } => sides(*op),
        Expr::Cast { op, .. } => cast_want(*op),
        Expr::If { then: inner, .. }
        | Expr::For { body: inner, .. }
        | Expr::Map { body: inner, .. }
        | Expr::Paren { inner, .. } => free_want(inner),
        Expr::Case { alts, .. } => first_want(alts),
        Expr::Pure { .. }
        | Expr::Is { .. }
        | Expr::CallGrammar { .. }
        | Expr::Many { .. }
        | Expr::Optional { .. }
        | Expr::Text { .. }
        | Expr::Upper(_)
        | Expr::Class(_)
        | Expr::Set { .. }
        | Expr::Block { .. }
        | Expr::Choice { .. } => Want::Grammar,
        Expr::Prefix { .. }
        | Expr::CallValue { .. }
        | Expr::Just { .. }
        | Expr::Select { .. }
        | Expr::Num(_)
        | Expr::Char { .. }
        | Expr::True(_)
        | Expr::False(_)
        | Expr::Nothing(_)
        | Expr::Lower(_)
        | Expr::Array { .. }
        | Expr::RecordOf { .. }
        | Expr::Tagged { .. } => Want::Value,
    }
}

/// What the first branch of a `case` is in a free place.
#[cycle(free)]
#[tactic(auto, using(ddl_tree::proofs::Layers::layers, crate::proofs::FirstBranch::firsts))]
pub fn first_want(alts: &[Alt]) -> Want
    ensures { result ≡ first_want (alts_view alts.now) }
{
    match alts.split_first() {
        None => Want::Free,
        Some((alt, _others)) => free_want(&alt.body),
    }
}

/// What the branches have to be, of which the first is this in a free place.
pub fn settled(want: Want, expr: &Expr) -> Want
    ensures { result ≡ settled want (free_want (view expr.now)) }
{
    match want {
        Want::Free => free_want(expr),
        _ => want,
    }
}

/// The same of the branches of a `case`.
pub fn settled_by(want: Want, alts: &[Alt]) -> Want
    ensures { result ≡ settled want (first_want (alts_view alts.now)) }
{
    match want {
        Want::Free => first_want(alts),
        _ => want,
    }
}

/// What the arguments of a name with this meaning have to be.
pub fn arguments_of<'a>(meaning: Meaning<'a>) -> Arguments<'a>
    ensures { wants_view result ≡ wants (meaning_view meaning.entry) }
{
    match meaning {
        Meaning::One { wants, .. } => wants,
        _ => Arguments::Nothing,
    }
}
