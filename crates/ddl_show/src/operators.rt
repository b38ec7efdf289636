ghost use Rattle.std.specs.Prelude.{◌≡◌};
ghost use Rattle.ddl_token.specs.declared.token.Tok.TheVariants as k;
ghost use Rattle.ddl_tree.specs.Print.{cast_token, choice_token, infix_token, many_token, optional_token, prefix_token};

use ddl_token::{Mark, Word};
use ddl_tree::{Bias, CastOp, InfixOp, PrefixOp};

/// The mark of an operator between two expressions.
pub(crate) fn infix_mark(op: InfixOp) -> Mark
    ensures { k.Mark result ≡ infix_token op }
{
    match op {
        InfixOp::Either => Mark::Bar,
        InfixOp::OrElse => Mark::OrElse,
        InfixOp::Or => Mark::OrOr,
        InfixOp::And => Mark::AndAnd,
        InfixOp::Equal => Mark::EqualEqual,
        InfixOp::NotEqual => Mark::NotEqual,
        InfixOp::Less => Mark::Less,
        InfixOp::LessEqual => Mark::LessEqual,
        InfixOp::Greater => Mark::Greater,
        InfixOp::GreaterEqual => Mark::GreaterEqual,
        InfixOp::BitOr => Mark::BitOr,
        InfixOp::BitXor => Mark::BitXor,
        InfixOp::BitAnd => Mark::BitAnd,
        InfixOp::ShiftLeft => Mark::ShiftLeft,
        InfixOp::ShiftRight => Mark::ShiftRight,
        InfixOp::Append => Mark::Hash,
        InfixOp::AppendWithin => Mark::LessHash,
        InfixOp::Add => Mark::Plus,
        InfixOp::Subtract => Mark::Minus,
        InfixOp::Multiply => Mark::Star,
        InfixOp::Divide => Mark::Slash,
        InfixOp::Remainder => Mark::Percent,
    }
}

/// The mark of an operator before an expression.
pub(crate) fn prefix_mark(op: PrefixOp) -> Mark
    ensures { k.Mark result ≡ prefix_token op }
{
    match op {
        PrefixOp::Negate => Mark::Minus,
        PrefixOp::Not => Mark::Bang,
        PrefixOp::Complement => Mark::Tilde,
    }
}

/// The word of a cast.
pub(crate) fn cast_word(op: CastOp) -> Word
    ensures { k.Word result ≡ cast_token op }
{
    match op {
        CastOp::Lossless => Word::As,
        CastOp::Cut => Word::AsCut,
        CastOp::Fit => Word::AsFit,
    }
}

/// The word of a repetition.
pub(crate) fn many_word(bias: Bias) -> Word
    ensures { k.Word result ≡ many_token bias }
{
    match bias {
        Bias::Biased => Word::Many,
        Bias::Unbiased => Word::ManyAll,
    }
}

/// The word of an option.
pub(crate) fn optional_word(bias: Bias) -> Word
    ensures { k.Word result ≡ optional_token bias }
{
    match bias {
        Bias::Biased => Word::Optional,
        Bias::Unbiased => Word::OptionalAll,
    }
}

/// The word of a choice.
pub(crate) fn choice_word(bias: Bias) -> Word
    ensures { k.Word result ≡ choice_token bias }
{
    match bias {
        Bias::Biased => Word::First,
        Bias::Unbiased => Word::Choose,
    }
}
