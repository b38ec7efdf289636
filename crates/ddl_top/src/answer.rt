ghost use Rattle.std.specs.Prelude.{◌≡◌, ◌++◌, ◌∷◌, [], All, map, IfOk};
ghost use Rattle.ddl_report.specs.Closing.{HasItsText};
ghost use Rattle.ddl_types.specs.Plain.{IsPaired};
ghost use Rattle.ddl_types.specs.PlainView.{plain_view};
ghost use Rattle.ddl_typed.specs.AnswerView.{answer_view, closing_view, shown_view, IsUnsaid};
ghost use Rattle.ddl_typed.specs.Simple.{IsSimple};
ghost use Rattle.ddl_simple.specs.Modules.{declared_view};
ghost use Rattle.ddl_typed.specs.View.{view};
ghost use Rattle.ddl_top.specs.Answered.{answer_lines, closing_of, closing_only, parse_line, status_of};
ghost use Rattle.ddl_top.specs.Reading.{IsAnswered};

use crate::status::Status;
use ddl_base::{Bytes, NoMemory};
use ddl_report::{Closing, closing_line, line_of_parse};
use ddl_typed::{Close, Parse, TDecl, denote};
use std::alloc::Global;

/// How a call ends, and the lines that it writes.
#[derive(Drop)]
pub(crate) struct Answer {
    pub(crate) status: Status,
    pub(crate) lines: Vec<Bytes>,
}

/// An answer of one line.
pub(crate) fn closing_answer(
    alloc: Global,
    status: Status,
    closing: &Closing,
) -> Result<Answer, NoMemory>
    requires { HasItsText closing.now }
    ensures { IfOk result (λ a. (a.status ≡ status) × (a.lines.items ≡ closing_only closing.now)) }
{
    let mut lines = Vec::new(alloc);
    lines.push(Bytes::from(closing_line(alloc, closing)?))?;
    Ok(Answer { status, lines })
}

/// The answer of a file that is not there.
pub(crate) fn missing_answer(alloc: Global, name: &[u8]) -> Result<Answer, NoMemory>
    ensures { IfOk result (λ a. (a.status ≡ Status.Missing)
        × (a.lines.items ≡ closing_only (Closing.Missing name.now))) }
{
    let name = Bytes::of(alloc, name)?;
    closing_answer(alloc, Status::Missing, &Closing::Missing { name })
}

/// How a denoted answer closes, in a module of this name, after so many parses.
fn closing_of(
    alloc: Global,
    name: &[u8],
    parses: &[Parse],
    close: Close,
) -> Result<Closing, NoMemory>
    requires { IsUnsaid close }
    ensures value { IfOk result (λ closing. closing ≡ closing_of name.now (closing_view parses.now close)) }
    ensures text { IfOk result HasItsText }
{
    match close {
        Close::Parses => Ok(Closing::Parses {
            number: parses.len() as u64,
        }),
        Close::Failed(failure) => Ok(Closing::Fail {
            why: failure.why,
            in_input: failure.in_input,
            at: failure.at,
            module: Bytes::of(alloc, name)?,
            from: failure.span.from,
            to: failure.span.to,
            text: None,
        }),
        Close::Faulted(fault, span) => Ok(Closing::Fault {
            fault,
            module: Bytes::of(alloc, name)?,
            from: span.from,
            to: span.to,
        }),
    }
}

/// The status of a call that ends so.
fn status_of(parses: &[Parse], close: Close) -> Status
    ensures { result ≡ status_of (closing_view parses.now close) }
{
    match close {
        Close::Parses => Status::Parses,
        Close::Failed(_) => Status::NoParse,
        Close::Faulted(..) => Status::Fault,
    }
}

/// A line for each parse.
fn parse_lines(alloc: Global, parses: &[Parse]) -> Result<Vec<Bytes>, NoMemory>
    requires { All (λ parse. IsPaired (plain_view parse.value)) parses.now }
    ensures { IfOk result (λ lines. lines.items ≡ map parse_line (map shown_view parses.now)) }
{
    let mut lines = Vec::new(alloc);
    for parse in parses {
        let line = line_of_parse(alloc, parse.end, parse.in_input, &parse.value)?;
        lines.push(Bytes::from(line))?;
    }
    Ok(lines)
}

/// What a specification denotes of an input, as the lines of a module of this name.
pub(crate) fn denoted_answer(
    alloc: Global,
    name: &[u8],
    spec: &TDecl,
    content: &[u8],
) -> Result<Answer, NoMemory>
    requires { IsSimple (view spec.now.body) 0 }
    ensures { IfOk result (λ a. IsAnswered name.now (declared_view spec.now) content.now a.status a.lines.items) }
{
    let denoted = denote(alloc, spec, content)?;
    let mut lines = parse_lines(alloc, &denoted.parses)?;
    let closing = closing_of(alloc, name, &denoted.parses, denoted.closing)?;
    lines.push(Bytes::from(closing_line(alloc, &closing)?))?;
    Ok(Answer {
        status: status_of(&denoted.parses, denoted.closing),
        lines,
    })
}
