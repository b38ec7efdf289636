ghost use Rattle.std.specs.Prelude.{◌≡◌, string_bytes, IfOk};
ghost use Rattle.serde_json.specs.View.{view};
ghost use Rattle.ddl_report.specs.Lines.{line_text};
ghost use Rattle.ddl_report.specs.Refusal.{refusal_code, stage_name, texts_data, told_data};

use crate::line::line_of;
use crate::names::name_text;
use crate::object::only_value;
use ddl_base::{Bytes, NoMemory, Stage, Told};
use serde_json::{Map, Value, put};
use std::alloc::Global;

fn stage_text(stage: Stage) -> &'static str
    ensures { result.now ≡ stage_name stage }
{
    match stage {
        Stage::Load => "load",
        Stage::Lex => "lex",
        Stage::Syntax => "syntax",
        Stage::Names => "names",
        Stage::Types => "types",
        Stage::Bits => "bits",
        Stage::Spec => "spec",
    }
}

fn code_text(alloc: Global, stage: Stage, number: u8) -> Result<String, NoMemory>
    ensures { IfOk result (λ text. string_bytes text ≡ refusal_code stage number) }
{
    let stage = stage_text(stage);
    Ok(format!(in alloc; "{stage}.{number}")?)
}

fn texts_value(alloc: Global, texts: &[Bytes]) -> Result<Value, NoMemory>
    ensures { IfOk result (λ v. view v ≡ texts_data texts.now) }
{
    let mut items = Vec::with_capacity(alloc, texts.len())?;
    for text in texts {
        items.push(Value::String(name_text(alloc, text.get())?))?;
    }
    Ok(Value::Array(items))
}

fn refusal_value(alloc: Global, told: &Told) -> Result<Value, NoMemory>
    ensures { IfOk result (λ v. view v ≡ told_data told.now) }
{
    let mut members = Map::new(alloc);
    let code = code_text(alloc, told.stage, told.number)?;
    let module = name_text(alloc, told.module.get())?;
    let more = texts_value(alloc, &told.more)?;
    put(&mut members, alloc, "code", Value::String(code))?;
    put(&mut members, alloc, "from", Value::from(told.from))?;
    put(&mut members, alloc, "module", Value::String(module))?;
    put(&mut members, alloc, "more", more)?;
    put(&mut members, alloc, "to", Value::from(told.to))?;
    only_value(alloc, "refused", Value::Object(members))
}

/// The line of a refusal, as its bytes with the newline.
#[tactic(auto, using(crate::proofs::LineLemmas::line_lemmas))]
pub fn refusal_line(alloc: Global, told: &Told) -> Result<Vec<u8>, NoMemory>
    ensures { IfOk result (λ line. line.items ≡ line_text (told_data told.now)) }
{
    let value = refusal_value(alloc, told)?;
    line_of(alloc, &value)
}
