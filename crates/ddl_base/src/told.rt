use crate::{Bytes, Stage};

/// What a refusal line shows. `from` and `to` are offsets in bytes in the text of the module.
#[derive(Drop)]
pub struct Told {
    pub stage: Stage,
    /// The cause, by its place among the causes of its stage, from 1 on.
    pub number: u8,
    /// The name of the module.
    pub module: Bytes,
    pub from: u32,
    pub to: u32,
    /// What else is shown of the cause, as texts.
    pub more: Vec<Bytes>,
}
