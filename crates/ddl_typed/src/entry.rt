ghost use Rattle.std.specs.Prelude.{◌≡◌, ◌∷◌, [], All, IfOk, Some, false};
ghost use Rattle.ddl_types.specs.Outcome.{missed, parsed};
ghost use Rattle.ddl_types.specs.Plain.{IsPaired};
ghost use Rattle.ddl_types.specs.PlainOf.{cut};
ghost use Rattle.ddl_types.specs.PlainView.{plain_view};
ghost use Rattle.ddl_typed.specs.AnswerView.{answer_view, is_said, source_of, IsUnsaid};
ghost use Rattle.ddl_typed.specs.Evaluated.{rc_view, stream_at, meant};
ghost use Rattle.ddl_typed.specs.Env.{empty};
ghost use Rattle.ddl_typed.specs.Simple.{IsSimple};
ghost use Rattle.ddl_typed.specs.Told.{IsAnswer, told};
ghost use Rattle.ddl_typed.specs.View.{alone_view, view};

use crate::TDecl;
use crate::answer::{Answer, Close, Failure, Parse};
use crate::evaluate::eval;
use crate::shared::{is_deeper, to_plain};
use crate::step::{Parsed, Stop};
use ddl_base::{NoMemory, Span};
use ddl_types::Fault;
use std::alloc::Global;

/// How deep the JSON of a parse may nest.
const MAX_DEPTH: u32 = 120;

/// The denoted outcome of an entry of simple forms on an input, as it is told: its parse, or its best failure, or the
/// fault of a value that nests too deep to be printed. It takes time and room in proportion to the forms, the input that
/// they read and the value that is told.
pub fn denote(alloc: Global, entry: &TDecl, input: &[u8]) -> Result<Answer, NoMemory>
    requires { IsSimple (view entry.now.body) 0 }
    ensures answer { IfOk result (λ answer. IsAnswer (alone_view entry.now) 0 input.now (answer_view answer)) }
    ensures paired { IfOk result (λ answer. All (λ parse. IsPaired (plain_view parse.value)) answer.parses.items) }
    ensures unsaid { IfOk result (λ answer. IsUnsaid answer.closing) }
{
    let answer = told_at(alloc, entry, input)?;
    Ok(answer)
}

#[tactic(auto, using(crate::proofs::Answering::telling))]
fn told_at(alloc: Global, entry: &TDecl, input: &[u8]) -> Result<Answer, NoMemory>
    requires { IsSimple (view entry.now.body) 0 }
    ensures told { IfOk result (λ answer. told (cut entry.now.span (meant input.now (view entry.now.body) empty 0))
        ≡ Some (answer_view answer)) }
    ensures unsaid { IfOk result (λ answer. IsUnsaid answer.closing) }
{
    let mut scope = Vec::new(alloc);
    match eval(alloc, input, &entry.body, &mut scope, 0) {
        Ok(parsed) => {
            let answer = one_parse(alloc, input, entry.span, parsed)?;
            Ok(answer)
        }
        Err(Stop::Failed(failure)) => Ok(no_parse(alloc, failure)),
        Err(Stop::NoMemory) => Err(NoMemory),
    }
}

#[tactic(auto, using(crate::proofs::Answering::telling))]
fn one_parse(alloc: Global, input: &[u8], name: Span, given: Parsed) -> Result<Answer, NoMemory>
    ensures told { IfOk result (λ answer. told (cut name (parsed (rc_view given.value) (stream_at input.now given.at)))
        ≡ Some (answer_view answer)) }
    ensures unsaid { IfOk result (λ answer. IsUnsaid answer.closing) }
{
    let mut parses = Vec::new(alloc);
    if is_deeper(&given.value, MAX_DEPTH) {
        return Ok(Answer {
            parses,
            closing: Close::Faulted(Fault::DeepResult, name),
        });
    }
    parses.push(Parse {
        value: to_plain(alloc, &given.value)?,
        end: given.at as u64,
        in_input: true,
    })?;
    Ok(Answer {
        parses,
        closing: Close::Parses,
    })
}

#[tactic(auto, using(crate::proofs::Answering::telling))]
fn no_parse(alloc: Global, failure: Failure) -> Answer
    requires { is_said failure.why ≡ false }
    ensures told { (name : Span) → told (cut name
        (missed failure.why (source_of failure.in_input) failure.at failure.span)) ≡ Some (answer_view result) }
    ensures unsaid { IsUnsaid result.closing }
{
    Answer {
        parses: Vec::new(alloc),
        closing: Close::Failed(failure),
    }
}
