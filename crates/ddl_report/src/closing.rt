ghost use Rattle.std.specs.Prelude.{◌≡◌, IfOk};
ghost use Rattle.serde_json.specs.View.{view, members_view};
ghost use Rattle.ddl_report.specs.Lines.{line_text};
ghost use Rattle.ddl_report.specs.Closing.{HasItsText, closing_data, counts_data, fail_data, fault_data, fault_name};
ghost use Rattle.ddl_report.specs.Closing.{missing, stopped, tail_members, why_name};

use crate::line::line_of;
use crate::names::{characters, name_text, place_name};
use crate::object::{only_value, put_text};
use ddl_base::{Bytes, NoMemory, Why};
use ddl_types::Fault;
use serde_json::{Map, Value, put};
use std::alloc::Global;

/// What ends a run or a check, or stops it. Offsets are in bytes, `from` and `to` those of a span in a module's text.
#[derive(Drop)]
pub enum Closing {
    /// The end, after this number of parses.
    Parses {
        number: u64,
    },
    /// The end without a parse. `text` is there exactly where `why` is `Said`.
    Fail {
        why: Why,
        in_input: bool,
        at: u64,
        module: Bytes,
        from: u32,
        to: u32,
        text: Option<Bytes>,
    },
    Fault {
        fault: Fault,
        module: Bytes,
        from: u32,
        to: u32,
    },
    /// The budget of steps is used up.
    Spent {
        budget: u64,
    },
    /// What a run took. It follows another closing line.
    Counts {
        steps: u64,
        threads: u64,
        slots: u64,
        left: u64,
    },
    /// A specification is accepted, with this number of declarations.
    Declarations {
        number: u64,
    },
    /// The command line is not one of the program's.
    Words,
    /// The input is too large.
    Large,
    /// A file cannot be read.
    Read,
    /// There is no file of this name.
    Missing {
        name: Bytes,
    },
    /// The module is of a form that is not built yet.
    Unbuilt,
}

fn why_text(why: Why) -> &'static str
    ensures { result.now ≡ why_name why }
{
    match why {
        Why::Byte => "byte",
        Why::Match => "match",
        Why::Class => "class",
        Why::End => "end",
        Why::Take => "take",
        Why::Drop => "drop",
        Why::Index => "index",
        Why::Lookup => "lookup",
        Why::Insert => "insert",
        Why::Said(_) => "said",
        Why::Guard => "guard",
        Why::Fits => "fits",
        Why::Case => "case",
    }
}

fn fault_text(fault: Fault) -> &'static str
    ensures { result.now ≡ fault_name fault }
{
    match fault {
        Fault::Overflow => "overflow",
        Fault::DivZero => "divzero",
        Fault::Shift => "shift",
        Fault::DeepResult => "deep",
    }
}

fn stopped_value(alloc: Global, why: &str) -> Result<Value, NoMemory>
    ensures { IfOk result (λ v. view v ≡ stopped why.now) }
{
    let why = Value::try_from_str(alloc, why)?;
    only_value(alloc, "stopped", why)
}

fn missing_value(alloc: Global, name: &Bytes) -> Result<Value, NoMemory>
    ensures { IfOk result (λ v. view v ≡ missing name.now) }
{
    let mut members = Map::new(alloc);
    let name = name_text(alloc, name.get())?;
    put(&mut members, alloc, "name", Value::String(name))?;
    put_text(&mut members, alloc, "stopped", "missing")?;
    Ok(Value::Object(members))
}

/// The members of a failure from the text or the end on.
fn fail_tail(
    alloc: Global,
    why: Why,
    to: u32,
    text: &Option<Bytes>,
) -> Result<Map<String, Value>, NoMemory>
    ensures { IfOk result (λ m. members_view m.entries ≡ tail_members why to text.now) }
{
    let mut members = Map::new(alloc);
    if let Some(text) = text {
        let text = characters(alloc, text.get())?;
        put(&mut members, alloc, "text", Value::String(text))?;
    }
    put(&mut members, alloc, "to", Value::from(to))?;
    put_text(&mut members, alloc, "why", why_text(why))?;
    Ok(members)
}

fn fail_value(
    alloc: Global,
    why: Why,
    in_input: bool,
    at: u64,
    module: &Bytes,
    from: u32,
    to: u32,
    text: &Option<Bytes>,
) -> Result<Value, NoMemory>
    ensures { IfOk result (λ v. view v
        ≡ fail_data why in_input at «module».now from to text.now) }
{
    let mut members = fail_tail(alloc, why, to, text)?;
    let module = name_text(alloc, module.get())?;
    put(&mut members, alloc, "module", Value::String(module))?;
    put_text(&mut members, alloc, "in", place_name(in_input))?;
    put(&mut members, alloc, "from", Value::from(from))?;
    put(&mut members, alloc, "at", Value::from(at))?;
    only_value(alloc, "fail", Value::Object(members))
}

fn fault_value(
    alloc: Global,
    fault: Fault,
    module: &Bytes,
    from: u32,
    to: u32,
) -> Result<Value, NoMemory>
    ensures { IfOk result (λ v. view v ≡ fault_data fault «module».now from to) }
{
    let mut members = Map::new(alloc);
    let module = name_text(alloc, module.get())?;
    put(&mut members, alloc, "from", Value::from(from))?;
    put_text(&mut members, alloc, "kind", fault_text(fault))?;
    put(&mut members, alloc, "module", Value::String(module))?;
    put(&mut members, alloc, "to", Value::from(to))?;
    only_value(alloc, "fault", Value::Object(members))
}

fn counts_value(
    alloc: Global,
    steps: u64,
    threads: u64,
    slots: u64,
    left: u64,
) -> Result<Value, NoMemory>
    ensures { IfOk result (λ v. view v ≡ counts_data steps threads slots left) }
{
    let mut members = Map::new(alloc);
    put(&mut members, alloc, "left", Value::from(left))?;
    put(&mut members, alloc, "slots", Value::from(slots))?;
    put(&mut members, alloc, "steps", Value::from(steps))?;
    put(&mut members, alloc, "threads", Value::from(threads))?;
    only_value(alloc, "counts", Value::Object(members))
}

fn closing_value(alloc: Global, closing: &Closing) -> Result<Value, NoMemory>
    ensures { IfOk result (λ v. view v ≡ closing_data closing.now) }
{
    match closing {
        Closing::Parses { number } => only_value(alloc, "parses", Value::from(*number)),
        Closing::Fail {
            why,
            in_input,
            at,
            module,
            from,
            to,
            text,
        } => fail_value(alloc, *why, *in_input, *at, module, *from, *to, text),
        Closing::Fault {
            fault,
            module,
            from,
            to,
        } => fault_value(alloc, *fault, module, *from, *to),
        Closing::Spent { budget } => only_value(alloc, "spent", Value::from(*budget)),
        Closing::Counts {
            steps,
            threads,
            slots,
            left,
        } => counts_value(alloc, *steps, *threads, *slots, *left),
        Closing::Declarations { number } => {
            only_value(alloc, "declarations", Value::from(*number))
        }
        Closing::Words => stopped_value(alloc, "words"),
        Closing::Large => stopped_value(alloc, "large"),
        Closing::Read => stopped_value(alloc, "read"),
        Closing::Missing { name } => missing_value(alloc, name),
        Closing::Unbuilt => stopped_value(alloc, "unbuilt"),
    }
}

/// The line that ends a run, as its bytes with the newline. A failure has a text exactly where its cause is `Said`.
#[tactic(auto, using(crate::proofs::LineLemmas::line_lemmas))]
pub fn closing_line(alloc: Global, closing: &Closing) -> Result<Vec<u8>, NoMemory>
    requires { HasItsText closing.now }
    ensures { IfOk result (λ line. line.items ≡ line_text (closing_data closing.now)) }
{
    let value = closing_value(alloc, closing)?;
    line_of(alloc, &value)
}
