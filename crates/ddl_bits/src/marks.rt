ghost use Rattle.std.specs.Prelude.{◌≡◌, ℕ, ◌||◌, false, length, slice_index_or, IfOk};

use ddl_base::NoMemory;
use std::alloc::Global;

/// A copy of marks.
pub(crate) fn copied(alloc: Global, marks: &[bool]) -> Result<Vec<bool>, NoMemory>
    ensures { IfOk result (λ copy. copy.items ≡ marks.now) }
{
    Ok(Vec::from_slice(alloc, marks)?)
}

/// Sets each mark that stands in the other list.
pub(crate) fn add_marks(marks: &mut [bool], other: &[bool])
    requires { length marks.old ≡ length other.now }
    ensures { (i : ℕ) → slice_index_or marks.new i false
        ≡ (slice_index_or marks.old i false || slice_index_or other.now i false) }
{
    for place in 0..marks.len() {
        marks[place] = marks[place] || other[place];
    }
}
