//! What is told of a specification that is refused.

ghost use Rattle.std.specs.Prelude.{◌≡◌, ◌∷◌, [], IfOk, decimal};
ghost use Rattle.ddl_front.specs.Front.{IsLoadRefusal, IsNameRefusal};
ghost use Rattle.ddl_front.specs.Reasons.{IsNameReason, IsSourceReason, first_name, lex_number, lex_place, load_reason};
ghost use Rattle.ddl_front.specs.Reasons.{long_reason, name_reason, reason, reason_view};
ghost use Rattle.ddl_modules.specs.Cycles.{unit_name};
ghost use Rattle.ddl_names.specs.Resolves.{IsUnbound};
ghost use Rattle.ddl_source.specs.declared.error.SourceError.TheVariants as wrong;

use ddl_base::{Bytes, NoMemory, Span, Stage, Told};
use ddl_lex::LexError;
use ddl_modules::LoadError;
use ddl_names::NameError;
use ddl_outside::Refusal;
use ddl_source::SourceError;
use ddl_tree::SourceUnit;
use std::alloc::Global;

/// The cause of a refusal, by its place among those of its stage, and where it stands.
#[derive(Clone, Copy)]
struct Cause {
    stage: Stage,
    number: u8,
    from: u32,
    to: u32,
}

/// A number in decimal digits.
fn decimal(alloc: Global, number: u64) -> Result<Bytes, NoMemory>
    ensures { IfOk result (λ text. text ≡ decimal number) }
{
    let text = format!(in alloc; "{number}")?;
    Bytes::of(alloc, text.as_bytes())
}

/// What is told of a cause in a module of this name.
fn told(alloc: Global, name: &[u8], cause: Cause, more: Vec<Bytes>) -> Result<Told, NoMemory>
    ensures { IfOk result (λ t. reason_view t ≡ reason cause.stage cause.number name.now cause.from cause.to more.items) }
{
    Ok(Told {
        stage: cause.stage,
        number: cause.number,
        module: Bytes::of(alloc, name)?,
        from: cause.from,
        to: cause.to,
        more,
    })
}

/// What is told of a cause with one number.
fn told_with(alloc: Global, name: &[u8], cause: Cause, number: u64) -> Result<Told, NoMemory>
    ensures { IfOk result (λ t. reason_view t ≡ reason cause.stage cause.number name.now cause.from cause.to
        (decimal number ∷ [])) }
{
    let mut more = Vec::new(alloc);
    more.push(decimal(alloc, number)?)?;
    told(alloc, name, cause, more)
}

/// What is told of a cause with two texts.
fn told_pair(
    alloc: Global,
    name: &[u8],
    cause: Cause,
    first: Bytes,
    second: Bytes,
) -> Result<Told, NoMemory>
    ensures { IfOk result (λ t. reason_view t ≡ reason cause.stage cause.number name.now cause.from cause.to
        (first ∷ second ∷ [])) }
{
    let mut more = Vec::new(alloc);
    more.push(first)?;
    more.push(second)?;
    told(alloc, name, cause, more)
}

/// The number of an error of tokens among them.
fn lex_number(error: LexError) -> u8
    ensures { result ≡ lex_number error }
{
    match error {
        LexError::BadByte(_) => 1,
        LexError::OpenText(_) => 2,
        LexError::BadEscape(_) => 3,
        LexError::NumberTooWide(_) => 4,
        LexError::TooManyTokens(_) => 5,
        LexError::NoMemory => 0,
    }
}

/// The place of an error of tokens.
fn lex_place(error: LexError) -> u32
    ensures { result ≡ lex_place error }
{
    match error {
        LexError::BadByte(at)
        | LexError::OpenText(at)
        | LexError::BadEscape(at)
        | LexError::NumberTooWide(at)
        | LexError::TooManyTokens(at) => at,
        LexError::NoMemory => 0,
    }
}

/// What is told of an error of tokens.
fn lex_told(alloc: Global, name: &[u8], error: LexError) -> Result<Told, NoMemory>
    ensures { IfOk result (λ t. IsSourceReason name.now (wrong.Lex error) (reason_view t)) }
{
    let place = lex_place(error);
    let cause = Cause {
        stage: Stage::Lex,
        number: lex_number(error),
        from: place,
        to: place,
    };
    told(alloc, name, cause, Vec::new(alloc))
}

/// What is told of a module of this name that has so many bytes: more than it may have.
pub fn long_told(alloc: Global, name: &[u8], length: u64) -> Result<Told, NoMemory>
    ensures { IfOk result (λ t. reason_view t ≡ long_reason name.now length) }
{
    let cause = Cause {
        stage: Stage::Load,
        number: 3,
        from: 0,
        to: 0,
    };
    told_with(alloc, name, cause, length)
}

/// What is told of a module of this name whose text is wrong.
pub fn source_told(alloc: Global, name: &[u8], error: SourceError) -> Result<Told, NoMemory>
    ensures { IfOk result (λ t. IsSourceReason name.now error (reason_view t)) }
{
    match error {
        SourceError::Lex(error) => lex_told(alloc, name, error),
        SourceError::Unexpected { token, from, to } => {
            let cause = Cause {
                stage: Stage::Syntax,
                number: 1,
                from,
                to,
            };
            told_with(alloc, name, cause, token as u64)
        }
        SourceError::TooNested { token, from, to } => {
            let cause = Cause {
                stage: Stage::Syntax,
                number: 2,
                from,
                to,
            };
            told_with(alloc, name, cause, token as u64)
        }
        SourceError::NoMemory => Err(NoMemory),
    }
}

/// A cause of loading, and where it stands.
fn load_cause(number: u8, span: Span) -> Cause
    ensures { result ≡ record { stage = Stage.Load; number = number; «from» = span.from; to = span.to } }
{
    Cause {
        stage: Stage::Load,
        number,
        from: span.from,
        to: span.to,
    }
}

/// What is told of a cycle of these modules.
fn cycle_told(alloc: Global, span: Span, modules: Vec<Bytes>) -> Result<Told, NoMemory>
    ensures { IfOk result (λ t. reason_view t ≡ load_reason 5 (first_name modules.items) span modules.items) }
{
    let first = match modules.first() {
        Some(first) => Bytes::of(alloc, first.get())?,
        None => Bytes::of(alloc, b"")?,
    };
    told(alloc, first.get(), load_cause(5, span), modules)
}

/// The refusal of modules that are not loaded.
pub(crate) fn load_refusal(alloc: Global, error: LoadError) -> Result<Refusal, NoMemory>
    ensures { IfOk result (IsLoadRefusal error) }
{
    match error {
        LoadError::Missing(file) => Ok(Refusal::Missing(file)),
        LoadError::ReadFault => Ok(Refusal::ReadFault),
        LoadError::TooLarge { module, length } => {
            Ok(Refusal::Refused(long_told(alloc, module.get(), length)?))
        }
        LoadError::TooMany { importer, span } => {
            let cause = load_cause(4, span);
            Ok(Refusal::Refused(told(alloc, importer.get(), cause, Vec::new(alloc))?))
        }
        LoadError::Cycle { span, modules } => {
            Ok(Refusal::Refused(cycle_told(alloc, span, modules)?))
        }
        LoadError::Source { module, error } => {
            Ok(Refusal::Refused(source_told(alloc, module.get(), error)?))
        }
        LoadError::NoMemory => Err(NoMemory),
    }
}

/// The name of the module of this number.
fn unit_name(units: &[SourceUnit], module: u32) -> &[u8]
    ensures { result.now ≡ unit_name units.now «module» }
{
    match units.get(module as usize) {
        Some(unit) => unit.name.get(),
        None => b"",
    }
}

/// A cause of names, and where it stands.
fn name_cause(number: u8, span: Span) -> Cause
    ensures { result ≡ record { stage = Stage.Names; number = number; «from» = span.from; to = span.to } }
{
    Cause {
        stage: Stage::Names,
        number,
        from: span.from,
        to: span.to,
    }
}

/// What is told of a use or a declaration.
fn use_told(alloc: Global, units: &[SourceUnit], number: u8, span: Span) -> Result<Told, NoMemory>
    ensures { IfOk result (λ t. reason_view t ≡ name_reason units.now number span []) }
{
    let cause = name_cause(number, span);
    told(alloc, unit_name(units, span.module), cause, Vec::new(alloc))
}

/// What is told of a use or a declaration, with two texts.
fn use_told_with(
    alloc: Global,
    units: &[SourceUnit],
    number: u8,
    span: Span,
    first: Bytes,
    second: Bytes,
) -> Result<Told, NoMemory>
    ensures { IfOk result (λ t. reason_view t ≡ name_reason units.now number span (first ∷ second ∷ [])) }
{
    let cause = name_cause(number, span);
    told_pair(alloc, unit_name(units, span.module), cause, first, second)
}

/// What is told of names that are not bound.
fn name_told(alloc: Global, units: &[SourceUnit], error: NameError) -> Result<Told, NoMemory>
    ensures { IfOk result (λ t. IsNameReason units.now error (reason_view t)) }
{
    match error {
        NameError::Unknown(span) => use_told(alloc, units, 1, span),
        NameError::Twice(later, first) => {
            let from = decimal(alloc, u64::from(first.from))?;
            let to = decimal(alloc, u64::from(first.to))?;
            use_told_with(alloc, units, 2, later, from, to)
        }
        NameError::TwoImports(span, one, other) => {
            let one = Bytes::of(alloc, unit_name(units, one))?;
            let other = Bytes::of(alloc, unit_name(units, other))?;
            use_told_with(alloc, units, 3, span, one, other)
        }
        NameError::WrongKind(span) => use_told(alloc, units, 4, span),
        NameError::WrongCount {
            span,
            given,
            wanted,
        } => {
            let given = decimal(alloc, u64::from(given))?;
            let wanted = decimal(alloc, u64::from(wanted))?;
            use_told_with(alloc, units, 5, span, given, wanted)
        }
        NameError::TooManyDecls(span) => use_told(alloc, units, 6, span),
        NameError::NoMemory => Err(NoMemory),
    }
}

/// The refusal of modules whose names are not bound.
pub(crate) fn name_refusal(
    alloc: Global,
    units: &[SourceUnit],
    error: NameError,
) -> Result<Refusal, NoMemory>
    requires { IsUnbound units.now error }
    ensures { IfOk result (IsNameRefusal units.now) }
{
    let told = name_told(alloc, units, error)?;
    Ok(Refusal::Refused(told))
}
