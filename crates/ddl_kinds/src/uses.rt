ghost use Rattle.std.specs.Prelude.{◌≡◌, IfOk, nat_eq};
ghost use Rattle.ddl_kinds.specs.declared.error.NameError.TheVariants.{WrongCount, WrongKind};
ghost use Rattle.ddl_kinds.specs.Kinds.{form_of_kind};
ghost use Rattle.ddl_kinds.specs.Findings.{demand, fits, is_type, name_use, type_use, use_of};
ghost use Rattle.ddl_kinds.specs.Found.{Finds, meaning_view};

use crate::bound::{Bound, Use};
use crate::error::NameError;
use crate::meaning::Meaning;
use crate::want::{Form, Want};
use ddl_base::{NoMemory, Span};
use ddl_tree::{Kind, Name};

// What a name of a kind is as a form.
fn form_of_kind(kind: Kind) -> Form
    ensures { result ≡ form_of_kind kind }
{
    match kind {
        Kind::Grammar => Form::Grammar,
        Kind::Value => Form::Value,
        Kind::Class => Form::Class,
        Kind::Bits => Form::Bits,
    }
}

// A count as a refusal tells it.
fn told(count: usize) -> Result<u32, NoMemory>
    ensures { IfOk result (λ n. n ≡ count) }
{
    match u32::try_from(count) {
        Ok(count) => Ok(count),
        Err(_wide) => Err(NoMemory),
    }
}

/// A form that may stand where this is wanted, or the refusal of its kind.
#[tactic(auto, using(crate::proofs::Finding::finding))]
pub fn fits(uses: &[Use], want: Want, form: Form, span: Span) -> Result<(), NameError>
    ensures { Finds (fits want form span) uses.now uses.now result }
{
    if want.takes(form) {
        Ok(())
    } else {
        Err(NameError::WrongKind(span))
    }
}

// So many arguments as are wanted, or the refusal of their count.
#[tactic(auto, using(crate::proofs::Finding::finding))]
fn counts(uses: &[Use], span: Span, given: usize, wanted: usize) -> Result<(), NameError>
    ensures { Finds (demand (nat_eq given wanted) (WrongCount span given wanted)) uses.now uses.now result }
{
    if given == wanted {
        return Ok(());
    }
    let given = told(given)?;
    let wanted = told(wanted)?;
    Err(NameError::WrongCount {
        span,
        given,
        wanted,
    })
}

// One more use.
#[tactic(auto, using(crate::proofs::Finding::finding))]
fn add(uses: &mut Vec<Use>, name: &Name, bound: Bound) -> Result<(), NameError>
    ensures { Finds (use_of name.now bound) uses.old.items uses.new.items result }
{
    let span = name.span;
    uses.push(Use { span, bound })?;
    Ok(())
}

/// A name with so many arguments, where this is wanted and where it means this.
#[tactic(auto, using(crate::proofs::Finding::finding))]
pub fn name_use(
    uses: &mut Vec<Use>,
    want: Want,
    name: &Name,
    given: usize,
    meaning: Meaning,
) -> Result<(), NameError>
    ensures { Finds (name_use want name.now given (meaning_view meaning.entry)) uses.old.items uses.new.items result }
{
    match meaning {
        Meaning::Unbound => Err(NameError::Unknown(name.span)),
        Meaning::TwoImports(first, second) => Err(NameError::TwoImports(name.span, first, second)),
        Meaning::One { bound, kind, wants } => {
            fits(uses, want, form_of_kind(kind), name.span)?;
            counts(uses, name.span, given, wants.len())?;
            add(uses, name, bound)?;
            Ok(())
        }
    }
}

// A type is a declaration, of a bitdata or of a grammar.
fn is_type(bound: Bound, kind: Kind) -> bool
    ensures { result ≡ is_type bound kind }
{
    matches!(bound, Bound::Decl(_)) && matches!(kind, Kind::Grammar | Kind::Bits)
}

// A type, or the refusal of its kind.
#[tactic(auto, using(crate::proofs::Finding::finding))]
fn is_typed(uses: &[Use], bound: Bound, kind: Kind, span: Span) -> Result<(), NameError>
    ensures { Finds (demand (is_type bound kind) (WrongKind span)) uses.now uses.now result }
{
    if is_type(bound, kind) {
        Ok(())
    } else {
        Err(NameError::WrongKind(span))
    }
}

/// A name as a type, where it means this.
#[tactic(auto, using(crate::proofs::Finding::finding))]
pub fn type_use(uses: &mut Vec<Use>, name: &Name, meaning: Meaning) -> Result<(), NameError>
    ensures { Finds (type_use name.now (meaning_view meaning.entry)) uses.old.items uses.new.items result }
{
    match meaning {
        Meaning::Unbound => Err(NameError::Unknown(name.span)),
        Meaning::TwoImports(first, second) => Err(NameError::TwoImports(name.span, first, second)),
        Meaning::One { bound, kind, wants } => {
            is_typed(uses, bound, kind, name.span)?;
            counts(uses, name.span, 0, wants.len())?;
            add(uses, name, bound)?;
            Ok(())
        }
    }
}
