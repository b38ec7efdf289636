//! The first form of the values of a type that no alternative takes.

ghost use Rattle.std.specs.Prelude.{◌≡◌, [], ◌∷◌, IfOk, None, map};
ghost use Rattle.ddl_judging.specs.Shapes.{Shape};
ghost use Rattle.ddl_judging.specs.Views.{bit_shape, place_shape, shapes_view};
ghost use Rattle.ddl_ops.specs.declared.pattern.Pattern.TheVariants as to;
ghost use Rattle.ddl_types.specs.TyView.{ty_view};
ghost use Rattle.ddl_typed.specs.View.{cases_view};
ghost use Rattle.ddl_typing.specs.Gaps.{first_untaken, forms_of, is_taken, tags_of, takes};

use ddl_base::{Bytes, NoMemory};
use ddl_judging::Shapes;
use ddl_ops::Pattern;
use ddl_typed::TCase;
use ddl_types::Ty;
use std::alloc::Global;

/// The first form of the values of this type that none of the alternatives takes.
#[tactic(auto, using(ddl_types::proofs::TyLayers::layers, crate::proofs::Members::members))]
pub(crate) fn untaken(
    alloc: Global,
    shapes: &Shapes,
    of: &Ty,
    cases: &[TCase],
) -> Result<Option<Pattern>, NoMemory>
    ensures { IfOk result (λ form. form
        ≡ first_untaken (forms_of (shapes_view shapes.now) (ty_view of.now)) (cases_view cases.now)) }
{
    match of {
        Ty::Bool => Ok(first_of(Pattern::Truth(false), Pattern::Truth(true), cases)),
        Ty::Maybe(_) => Ok(first_of(Pattern::Nothing, Pattern::Just(None), cases)),
        Ty::Place(number, _) => {
            let number = *number as usize;
            if number >= shapes.places.len() {
                return Ok(anything(cases));
            }
            let place = &shapes.places[number];
            of_tags(alloc, place.tagged, &place.names, cases)
        }
        Ty::Bits(number) => {
            let number = *number as usize;
            if number >= shapes.bits.len() {
                return Ok(anything(cases));
            }
            let bits = &shapes.bits[number];
            of_tags(alloc, bits.tagged, &bits.names, cases)
        }
        _ => Ok(anything(cases)),
    }
}

/// The first of two forms that is not taken.
fn first_of(first: Pattern, second: Pattern, cases: &[TCase]) -> Option<Pattern>
    ensures { result ≡ first_untaken (first ∷ second ∷ []) (cases_view cases.now) }
{
    if !is_taken(&first, cases) {
        return Some(first);
    }
    if !is_taken(&second, cases) {
        return Some(second);
    }
    None
}

/// What is left where the values have no forms of their own.
fn anything(cases: &[TCase]) -> Option<Pattern>
    ensures { result ≡ first_untaken (to.Any ∷ []) (cases_view cases.now) }
{
    if is_taken(&Pattern::Any, cases) {
        return None;
    }
    Some(Pattern::Any)
}

/// The first tag that is not taken, of a union or a bitdata with tags.
fn of_tags(
    alloc: Global,
    tagged: bool,
    names: &[Bytes],
    cases: &[TCase],
) -> Result<Option<Pattern>, NoMemory>
    ensures { (s : Shape) → s.tagged ≡ tagged → s.names ≡ names.now
        → IfOk result (λ form. form ≡ first_untaken (tags_of s) (cases_view cases.now)) }
{
    if !tagged {
        return Ok(anything(cases));
    }
    first_tag(alloc, names, cases)
}

/// The first of these tags that is not taken.
fn first_tag(alloc: Global, names: &[Bytes], cases: &[TCase]) -> Result<Option<Pattern>, NoMemory>
    ensures { IfOk result (λ form. form ≡ first_untaken (map (λ x. to.Tag x None) names.now) (cases_view cases.now)) }
{
    for name in names {
        if !is_tag_taken(name.get(), cases) {
            let tag = Bytes::of(alloc, name.get())?;
            return Ok(Some(Pattern::Tag { tag, content: None }));
        }
    }
    Ok(None)
}

/// Whether an alternative takes a form.
#[tactic(auto, using(ddl_typed::proofs::Layers::layers, crate::proofs::Turns::turns))]
fn is_taken(form: &Pattern, cases: &[TCase]) -> bool
    ensures { result ≡ is_taken (cases_view cases.now) form.now }
{
    for case in cases {
        if takes(&case.pattern, form) {
            return true;
        }
    }
    false
}

/// Whether an alternative takes the values of a tag.
#[tactic(auto, using(ddl_typed::proofs::Layers::layers, crate::proofs::Turns::turns))]
fn is_tag_taken(name: &[u8], cases: &[TCase]) -> bool
    ensures { result ≡ is_taken (cases_view cases.now) (to.Tag name.now None) }
{
    for case in cases {
        if takes_tag(&case.pattern, name) {
            return true;
        }
    }
    false
}

/// Whether a pattern takes all values of a form.
fn takes(pattern: &Pattern, form: &Pattern) -> bool
    ensures { result ≡ takes pattern.now form.now }
{
    match pattern {
        Pattern::Any => true,
        Pattern::Number(_) => false,
        Pattern::Truth(truth) => match form {
            Pattern::Truth(other) => truth == other,
            _ => false,
        },
        Pattern::Nothing => matches!(form, Pattern::Nothing),
        Pattern::Just(_) => matches!(form, Pattern::Just(_)),
        Pattern::Tag { tag, .. } => match form {
            Pattern::Tag { tag: other, .. } => tag.get() == other.get(),
            _ => false,
        },
    }
}

/// Whether a pattern takes all values of a tag.
fn takes_tag(pattern: &Pattern, name: &[u8]) -> bool
    ensures { result ≡ takes pattern.now (to.Tag name.now None) }
{
    match pattern {
        Pattern::Any => true,
        Pattern::Tag { tag, .. } => tag.get() == name,
        _ => false,
    }
}
