use crate::frame::{Frame, LastFrame};
use ddl_token::{Mark, Tok, Word};
use ddl_tree::{Expr, InfixOp};

impl Frame {
    ghost use Rattle.std.specs.Prelude.{◌≡◌};
    ghost use Rattle.ddl_states.specs.FrameView.{frame_view};
    ghost use Rattle.ddl_reader.specs.StepExpr as step;

    /// The widest nonterminal of an expression at the hole.
    #[tactic(auto, using(crate::proofs::Views::views))]
    pub fn hole(&self) -> u8
        ensures { result ≡ step.hole (frame_view self.now) }
    {
        match self {
            Frame::Last(frame) => frame.hole(),
            _ => 1,
        }
    }
}

impl LastFrame {
    ghost use Rattle.std.specs.Prelude.{◌≡◌};
    ghost use Rattle.ddl_states.specs.FrameView.{last_frame_view};
    ghost use Rattle.ddl_reader.specs.StepExpr as step;

    /// The widest nonterminal of an expression at the hole.
    pub fn hole(&self) -> u8
        ensures { result ≡ step.hole (last_frame_view self.now) }
    {
        match self {
            LastFrame::Infix { op, .. } => right_level(*op),
            LastFrame::Pure(_) => 4,
            LastFrame::Else { .. } | LastFrame::For { .. } | LastFrame::Map { .. } => 3,
            LastFrame::Prefix { .. } => 14,
            LastFrame::CallGrammar { .. }
            | LastFrame::CallValue { .. }
            | LastFrame::Just(_)
            | LastFrame::Many { .. }
            | LastFrame::Optional(_) => 17,
        }
    }
}

ghost use Rattle.std.specs.Prelude.{◌≡◌};
ghost use Rattle.ddl_tree.specs.Grammar as grammar;
ghost use Rattle.ddl_tree.specs.View.{view};
ghost use Rattle.ddl_reader.specs.StepExpr as step;

/// The nonterminal of an expression with this operator.
fn infix_level(op: InfixOp) -> u8
    ensures { result ≡ grammar.infix_level op }
{
    match op {
        InfixOp::Either => 1,
        InfixOp::OrElse => 2,
        InfixOp::Or => 4,
        InfixOp::And => 5,
        InfixOp::Equal
        | InfixOp::NotEqual
        | InfixOp::Less
        | InfixOp::LessEqual
        | InfixOp::Greater
        | InfixOp::GreaterEqual => 6,
        InfixOp::BitOr => 7,
        InfixOp::BitXor => 8,
        InfixOp::BitAnd => 9,
        InfixOp::ShiftLeft | InfixOp::ShiftRight => 10,
        InfixOp::Append | InfixOp::AppendWithin => 11,
        InfixOp::Add | InfixOp::Subtract => 12,
        InfixOp::Multiply | InfixOp::Divide | InfixOp::Remainder => 13,
    }
}

/// The widest nonterminal of its left side.
pub fn left_level(op: InfixOp) -> u8
    ensures { result ≡ grammar.left_level op }
{
    match op {
        InfixOp::Either => 2,
        InfixOp::OrElse => 3,
        InfixOp::Equal
        | InfixOp::NotEqual
        | InfixOp::Less
        | InfixOp::LessEqual
        | InfixOp::Greater
        | InfixOp::GreaterEqual => 7,
        other => infix_level(other),
    }
}

/// The widest nonterminal of its right side.
fn right_level(op: InfixOp) -> u8
    ensures { result ≡ grammar.right_level op }
{
    match op {
        InfixOp::Either => 1,
        InfixOp::OrElse => 2,
        InfixOp::Or => 5,
        InfixOp::And => 6,
        InfixOp::Equal
        | InfixOp::NotEqual
        | InfixOp::Less
        | InfixOp::LessEqual
        | InfixOp::Greater
        | InfixOp::GreaterEqual => 7,
        InfixOp::BitOr => 8,
        InfixOp::BitXor => 9,
        InfixOp::BitAnd => 10,
        InfixOp::ShiftLeft | InfixOp::ShiftRight => 11,
        InfixOp::Append | InfixOp::AppendWithin => 12,
        InfixOp::Add | InfixOp::Subtract => 13,
        InfixOp::Multiply | InfixOp::Divide | InfixOp::Remainder => 14,
    }
}

/// The narrowest nonterminal that an expression comes from.
#[tactic(auto, using(ddl_tree::proofs::Layers::layers))]
pub fn level(expr: &Expr) -> u8
    ensures { result ≡ grammar.level (view expr.now) }
{
    match expr {
        Expr::Infix { op, .. } => infix_level(*op),
        Expr::Pure { .. }
        | Expr::If { .. }
        | Expr::For { .. }
        | Expr::Map { .. }
        | Expr::Is { .. } => 3,
        Expr::Prefix { .. } => 14,
        Expr::Cast { .. } => 15,
        Expr::CallGrammar { .. }
        | Expr::CallValue { .. }
        | Expr::Just { .. }
        | Expr::Many { .. }
        | Expr::Optional { .. } => 16,
        Expr::Select { .. } => 17,
        Expr::Num(_)
        | Expr::Char { .. }
        | Expr::Text { .. }
        | Expr::True(_)
        | Expr::False(_)
        | Expr::Nothing(_)
        | Expr::Upper(_)
        | Expr::Lower(_)
        | Expr::Class(_)
        | Expr::Set { .. }
        | Expr::Paren { .. }
        | Expr::Array { .. }
        | Expr::RecordOf { .. }
        | Expr::Tagged { content: None, .. }
        | Expr::Tagged {
            content: Some(_),
            ..
        }
        | Expr::Block { .. }
        | Expr::Choice { .. }
        | Expr::Case { .. } => 18,
    }
}

/// The nonterminal that a token goes on with, where it follows an expression; 0 where it follows
/// none.
pub fn binds(kind: &Tok) -> u8
    ensures { result ≡ step.binds kind.now }
{
    match kind {
        Tok::Word(word) => word_binds(*word),
        Tok::Mark(mark) => mark_binds(*mark),
        _ => 16,
    }
}

fn word_binds(word: Word) -> u8
    ensures { result ≡ step.word_binds word }
{
    match word {
        Word::Is => 3,
        Word::As | Word::AsCut | Word::AsFit => 15,
        Word::True
        | Word::False
        | Word::Nothing
        | Word::Block
        | Word::First
        | Word::Choose
        | Word::Case => 16,
        _ => 0,
    }
}

fn mark_binds(mark: Mark) -> u8
    ensures { result ≡ step.mark_binds mark }
{
    match mark {
        Mark::Bar => 1,
        Mark::OrElse => 2,
        Mark::OrOr => 4,
        Mark::AndAnd => 5,
        Mark::EqualEqual
        | Mark::NotEqual
        | Mark::Less
        | Mark::LessEqual
        | Mark::Greater
        | Mark::GreaterEqual => 6,
        Mark::BitOr => 7,
        Mark::BitXor => 8,
        Mark::BitAnd => 9,
        Mark::ShiftLeft | Mark::ShiftRight => 10,
        Mark::Hash | Mark::LessHash => 11,
        Mark::Plus | Mark::Minus => 12,
        Mark::Star | Mark::Slash | Mark::Percent => 13,
        Mark::OpenParen
        | Mark::OpenBracket
        | Mark::OpenBrace
        | Mark::OpenUnion
        | Mark::DollarBracket => 16,
        Mark::Dot => 17,
        _ => 0,
    }
}
