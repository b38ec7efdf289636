ghost use Rattle.std.specs.Prelude.{◌≡◌, IfOk, OnOk};
ghost use Rattle.ddl_typed.specs.Blocks.{add_field, block_value, fields_or, nothing_built, with_part};
ghost use Rattle.ddl_typed.specs.Evaluated.{built_view, last_view, rc_view};
ghost use Rattle.ddl_typed.specs.SharedView.{part_view, parts_view};
ghost use Rattle.ddl_typed.specs.View.{item_view};

use crate::TItem;
use crate::shared::{Part, Shared, share};
use ddl_base::{Bytes, NoMemory};
use std::alloc::Global;
use std::rc::Rc;

/// What the items of a block have given so far.
#[derive(Drop)]
pub struct Built {
    pub parts: Vec<Part>,
    pub result: Option<Rc<Shared>>,
    /// None where the last item gives `{}`.
    pub last: Option<Rc<Shared>>,
}

impl Built {
    /// Before the first item.
    pub fn new(alloc: Global) -> Self
        ensures { built_view result ≡ nothing_built }
    {
        Built {
            parts: Vec::new(alloc),
            result: None,
            last: None,
        }
    }

    /// After one more item, which gave this value.
    #[tactic(auto, using(crate::proofs::Layers::layers))]
    pub fn add(&mut self, alloc: Global, item: &TItem, value: &Rc<Shared>) -> Result<(), NoMemory>
        ensures { OnOk result (built_view self.new
            ≡ with_part (item_view item.now) (rc_view value.now) (built_view self.old)) }
    {
        match item {
            TItem::Plain(_) => {
                self.last = Some(value.clone()?);
                Ok(())
            }
            TItem::Let { .. } => {
                self.last = None;
                Ok(())
            }
            TItem::Field { label, .. } => {
                add_part(alloc, &mut self.parts, label, value)?;
                self.last = Some(value.clone()?);
                Ok(())
            }
            TItem::Result(_) => {
                self.result = Some(value.clone()?);
                self.last = Some(value.clone()?);
                Ok(())
            }
        }
    }

    /// The value of the block.
    pub fn value(self, alloc: Global) -> Result<Rc<Shared>, NoMemory>
        ensures { IfOk result (λ value. rc_view value ≡ block_value (built_view self)) }
    {
        let Built {
            parts,
            result,
            last,
        } = self;
        match result {
            Some(value) => Ok(value),
            None => Ok(record_or(alloc, parts, last)?),
        }
    }
}

#[tactic(auto, using(crate::proofs::SharedLayers::shared_layers, crate::proofs::Building::building))]
fn add_part(
    alloc: Global,
    parts: &mut Vec<Part>,
    label: &Bytes,
    value: &Rc<Shared>,
) -> Result<(), NoMemory>
    ensures { OnOk result (parts_view parts.new.items
        ≡ add_field (parts_view parts.old.items) label.now (rc_view value.now)) }
{
    let part = part_of(alloc, label, value)?;
    parts.push(part)?;
    Ok(())
}

#[tactic(auto, using(crate::proofs::SharedLayers::shared_layers))]
fn part_of(alloc: Global, label: &Bytes, value: &Rc<Shared>) -> Result<Part, NoMemory>
    ensures { IfOk result (λ part. part_view part ≡ (label.now, rc_view value.now)) }
{
    Ok(Part {
        name: Bytes::of(alloc, label.get())?,
        value: value.clone()?,
    })
}

// The record of the parts, and without parts the last value.
#[tactic(auto, using(crate::proofs::SharedLayers::shared_layers, crate::proofs::Building::building))]
fn record_or(
    alloc: Global,
    parts: Vec<Part>,
    last: Option<Rc<Shared>>,
) -> Result<Rc<Shared>, NoMemory>
    ensures { IfOk result (λ value. rc_view value ≡ fields_or (parts_view parts.items) (last_view last)) }
{
    if parts.is_empty() {
        let value = last_or_unit(alloc, last)?;
        Ok(value)
    } else {
        let value = share(alloc, Shared::Record(parts))?;
        Ok(value)
    }
}

#[tactic(auto, using(crate::proofs::SharedLayers::shared_layers))]
fn last_or_unit(alloc: Global, last: Option<Rc<Shared>>) -> Result<Rc<Shared>, NoMemory>
    ensures { IfOk result (λ value. rc_view value ≡ last_view last) }
{
    match last {
        Some(value) => Ok(value),
        None => Ok(share(alloc, Shared::Unit)?),
    }
}
