use ddl_base::NoMemory;
use ddl_groups::groups;
use ddl_sample_groups::{Uses, declarations};
use std::alloc::Global;

/// How many uses stand in a declaration.
const EACH: u32 = 8;

/// How many groups so many declarations have.
pub fn count_of(alloc: Global, uses: Uses, count: u32) -> Result<usize, NoMemory> {
    let resolved = declarations(alloc, uses, count, EACH)?;
    Ok(groups(alloc, &resolved)?.lists.len())
}
