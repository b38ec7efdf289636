//! The types of built-in names.

ghost use Rattle.std.specs.Prelude.{◌≡◌, ◌+◌, [], ◌∷◌, IfOk, map, ℕ};
ghost use Rattle.ddl_types.specs.CondView.{cond_view};
ghost use Rattle.ddl_types.specs.TyView.{ty_view};
ghost use Rattle.ddl_types.specs.Types.{Ty.var};
ghost use Rattle.ddl_rules.specs.Asks.{bytes, map_type};
ghost use Rattle.ddl_rules.specs.BuiltInTypes.{builtin_row, conditions_of};

use crate::types;
use ddl_base::NoMemory;
use ddl_kinds::BuiltIn;
use ddl_types::{Cond, Ty};
use std::alloc::Global;

// How many variables it is over.
pub(crate) fn builtin_vars(builtin: BuiltIn) -> u32
    ensures { (n : ℕ) → result ≡ (builtin_row builtin n).vars }
{
    match builtin {
        BuiltIn::Index | BuiltIn::Fail | BuiltIn::Length | BuiltIn::Concat => 1,
        BuiltIn::Lookup | BuiltIn::Insert | BuiltIn::Empty | BuiltIn::Put | BuiltIn::Seek => 2,
        _ => 0,
    }
}

// The variable behind one.
fn second(first: u32) -> Result<Ty, NoMemory>
    ensures { IfOk result (λ t. ty_view t ≡ var (first + 1)) }
{
    match first.checked_add(1) {
        Some(number) => Ok(types::variable(number)),
        None => Err(NoMemory),
    }
}

// The map from a first variable to the one behind it.
fn a_map(alloc: Global, first: u32) -> Result<Ty, NoMemory>
    ensures { IfOk result (λ t. ty_view t ≡ map_type (var first) (var (first + 1))) }
{
    types::map(alloc, types::variable(first), second(first)?)
}

fn bytes(alloc: Global) -> Result<Ty, NoMemory>
    ensures { IfOk result (λ t. ty_view t ≡ bytes) }
{
    types::array(alloc, types::word(8))
}

// What it is, over variables from the first one on.
pub(crate) fn builtin_of(alloc: Global, builtin: BuiltIn, first: u32) -> Result<Ty, NoMemory>
    ensures { IfOk result (λ t. ty_view t ≡ (builtin_row builtin first).of) }
{
    match builtin {
        BuiltIn::UInt8 => Ok(types::word(8)),
        BuiltIn::Match | BuiltIn::BytesOfStream => bytes(alloc),
        BuiltIn::End | BuiltIn::SetStream => Ok(types::unit()),
        BuiltIn::GetStream | BuiltIn::Take | BuiltIn::Drop | BuiltIn::ArrayStream => {
            Ok(types::stream())
        }
        BuiltIn::Offset | BuiltIn::Length => Ok(types::word(64)),
        BuiltIn::Index | BuiltIn::Fail => Ok(types::variable(first)),
        BuiltIn::Lookup => second(first),
        BuiltIn::Insert | BuiltIn::Empty | BuiltIn::Put => a_map(alloc, first),
        BuiltIn::Concat => types::array(alloc, types::variable(first)),
        BuiltIn::Seek => types::maybe(alloc, second(first)?),
    }
}

// What it asks, over variables from the first one on.
pub(crate) fn builtin_condition(builtin: BuiltIn, first: u32) -> Option<Cond>
    ensures { conditions_of result ≡ (builtin_row builtin first).conditions }
{
    match builtin {
        BuiltIn::Lookup | BuiltIn::Insert | BuiltIn::Put | BuiltIn::Seek => {
            Some(Cond::Key(types::variable(first)))
        }
        _ => None,
    }
}

fn one(alloc: Global, only: Ty) -> Result<Vec<Ty>, NoMemory>
    ensures { IfOk result (λ v. map ty_view v.items ≡ ty_view only ∷ []) }
{
    let mut types = Vec::new(alloc);
    types.push(only)?;
    Ok(types)
}

fn two(alloc: Global, first: Ty, second: Ty) -> Result<Vec<Ty>, NoMemory>
    ensures { IfOk result (λ v. map ty_view v.items ≡ ty_view first ∷ ty_view second ∷ []) }
{
    let mut types = Vec::new(alloc);
    types.push(first)?;
    types.push(second)?;
    Ok(types)
}

// A key, a value and a map of these.
fn key_value_map(alloc: Global, first: u32) -> Result<Vec<Ty>, NoMemory>
    ensures { IfOk result (λ v. map ty_view v.items ≡ var first ∷ var (first + 1)
        ∷ map_type (var first) (var (first + 1)) ∷ []) }
{
    let mut types = Vec::new(alloc);
    types.push(types::variable(first))?;
    types.push(second(first)?)?;
    types.push(a_map(alloc, first)?)?;
    Ok(types)
}

// What its arguments have to be, over variables from the first one on.
pub(crate) fn builtin_params(
    alloc: Global,
    builtin: BuiltIn,
    first: u32,
) -> Result<Vec<Ty>, NoMemory>
    ensures { IfOk result (λ v. map ty_view v.items ≡ (builtin_row builtin first).params) }
{
    match builtin {
        BuiltIn::UInt8 | BuiltIn::End | BuiltIn::GetStream | BuiltIn::Offset | BuiltIn::Empty => {
            Ok(Vec::new(alloc))
        }
        BuiltIn::Match | BuiltIn::Fail | BuiltIn::ArrayStream => one(alloc, bytes(alloc)?),
        BuiltIn::SetStream | BuiltIn::BytesOfStream => one(alloc, types::stream()),
        BuiltIn::Take | BuiltIn::Drop => two(alloc, types::word(64), types::stream()),
        BuiltIn::Index => {
            let over = types::array(alloc, types::variable(first))?;
            two(alloc, over, types::word(64))
        }
        BuiltIn::Length => one(alloc, types::array(alloc, types::variable(first))?),
        BuiltIn::Concat => {
            let inner = types::array(alloc, types::variable(first))?;
            one(alloc, types::array(alloc, inner)?)
        }
        BuiltIn::Lookup | BuiltIn::Seek => {
            let over = a_map(alloc, first)?;
            two(alloc, types::variable(first), over)
        }
        BuiltIn::Insert | BuiltIn::Put => key_value_map(alloc, first),
    }
}
