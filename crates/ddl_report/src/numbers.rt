ghost use Rattle.std.specs.Prelude.{◌≡◌, pos, IfOk};
ghost use Rattle.serde_json.specs.View.{view};
ghost use Rattle.ddl_types.specs.Num.{whole};
ghost use Rattle.ddl_report.specs.Numbers.{integer_data};

use crate::object::only_value;
use ddl_base::NoMemory;
use ddl_types::Num;
use serde_json::Value;
use std::alloc::Global;

fn unsigned_value(alloc: Global, n: u128) -> Result<Value, NoMemory>
    ensures { IfOk result (λ v. view v ≡ integer_data (pos n)) }
{
    if let Ok(small) = u64::try_from(n) {
        return Ok(Value::from(small));
    }
    only_value(alloc, "$int", Value::String(n.to_string(alloc)?))
}

fn signed_value(alloc: Global, z: i128) -> Result<Value, NoMemory>
    ensures { IfOk result (λ v. view v ≡ integer_data z) }
{
    if let Ok(small) = u64::try_from(z) {
        return Ok(Value::from(small));
    }
    if let Ok(small) = i64::try_from(z) {
        return Ok(Value::from(small));
    }
    only_value(alloc, "$int", Value::String(z.to_string(alloc)?))
}

/// A whole number: as a number of JSON from -2^63 to 2^64-1, and else by its digits.
pub(crate) fn number_value(alloc: Global, number: Num) -> Result<Value, NoMemory>
    ensures { IfOk result (λ v. view v ≡ integer_data (whole number)) }
{
    match number {
        Num::Uint(n) => unsigned_value(alloc, n),
        Num::Sint(z) => signed_value(alloc, z),
    }
}
