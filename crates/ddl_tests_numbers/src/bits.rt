//! Layouts are built with their parts known to be accepted, so that `check` may be called.
mod deep;
mod nested;
mod small;
mod verdicts;

ghost use Rattle.ddl_bits.specs.Verdict.{HasAcceptedParts};
ghost use Rattle.ddl_bits.specs.View.{layout_view};

use ddl_bits::{BitError, Layout, check};
use std::alloc::Global;

/// What is wrong with a layout.
fn error(alloc: Global, layout: Layout) -> Option<BitError>
    requires { HasAcceptedParts (layout_view layout) }
{
    match check(alloc, layout) {
        Ok(_checked) => None,
        Err(error) => Some(error),
    }
}
