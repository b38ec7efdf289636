//! What elaboration goes on with.

use crate::{Ask, Known, Local};
use ddl_base::Bytes;
use ddl_kinds::Use;
use ddl_typed::PlaceType;
use std::alloc::Global;

/// What has been asked of types, what is left and what is noted, and what is known.
#[derive(Drop)]
pub struct Elaboration<'a> {
    pub alloc: Global,
    /// The declarations, by their numbers.
    pub known: &'a [Known],
    /// The uses of names that are left, in text order.
    pub uses: &'a [Use],
    /// The names in scope, the outermost first.
    pub locals: Vec<Local>,
    /// The next variable.
    pub next: u32,
    /// The records and unions, by their numbers.
    pub places: Vec<PlaceType>,
    /// The texts of `Fail`, by their numbers.
    pub texts: Vec<Bytes>,
    /// How many grammar arguments there were.
    pub sites: u32,
    /// What has been asked, in text order, a form before its parts.
    pub asks: Vec<Ask>,
}
