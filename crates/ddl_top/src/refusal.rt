//! What is answered where a specification is refused.

ghost use Rattle.std.specs.Prelude.{◌≡◌, IfOk};
ghost use Rattle.ddl_front.specs.Reasons.{reason_view};
ghost use Rattle.ddl_top.specs.Refusals.{IsRefusalAnswer, reason_lines};

use crate::answer::{Answer, closing_answer, missing_answer};
use crate::status::Status;
use ddl_base::{Bytes, NoMemory, Told};
use ddl_outside::Refusal;
use ddl_report::{Closing, refusal_line};
use std::alloc::Global;

/// The answer of a reason that is told.
pub(crate) fn told_answer(alloc: Global, told: &Told) -> Result<Answer, NoMemory>
    ensures { IfOk result (λ a. (a.status ≡ Status.Refused) × (a.lines.items ≡ reason_lines (reason_view told.now))) }
{
    let mut lines = Vec::new(alloc);
    lines.push(Bytes::from(refusal_line(alloc, told)?))?;
    Ok(Answer {
        status: Status::Refused,
        lines,
    })
}

/// The answer of a refusal.
pub(crate) fn refusal_answer(alloc: Global, refusal: Refusal) -> Result<Answer, NoMemory>
    ensures { IfOk result (λ a. IsRefusalAnswer refusal a.status a.lines.items) }
{
    match refusal {
        Refusal::Missing(file) => missing_answer(alloc, file.get()),
        Refusal::ReadFault => closing_answer(alloc, Status::ReadFault, &Closing::Read),
        Refusal::Refused(told) => told_answer(alloc, &told),
        Refusal::Unbuilt => closing_answer(alloc, Status::Refused, &Closing::Unbuilt),
        Refusal::NoMemory => Err(NoMemory),
    }
}
