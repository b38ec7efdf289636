//! Layouts of bits, built with their parts known to be accepted, so that they may be checked.
ghost use Rattle.ddl_bits.specs.Accepted.{PartAccepted, PartsAccepted};
ghost use Rattle.ddl_bits.specs.Tree.{inner};
ghost use Rattle.ddl_bits.specs.Verdict.{HasAcceptedParts};
ghost use Rattle.ddl_bits.specs.View.{con_view, layout_view, part_view};
ghost use Rattle.std.specs.Prelude.{◌≤◌, IfOk};

use ddl_base::{Bytes, NoMemory};
use ddl_bits::{Layout, LayoutCon, LayoutPart, check};
use std::alloc::Global;

/// A part of this width whose bits are given.
#[tactic(auto, using(ddl_bits::proofs::Layers::layers))]
pub fn given(bits: u128, width: u32) -> LayoutPart
    requires { 1 ≤ width }
    ensures { PartAccepted (part_view result) }
{
    LayoutPart::Fixed { bits, width }
}

/// A part of this width with any bits.
#[tactic(auto, using(ddl_bits::proofs::Layers::layers))]
pub fn any(width: u32) -> LayoutPart
    requires { 1 ≤ width }
    ensures { PartAccepted (part_view result) }
{
    LayoutPart::Any { name: None, width }
}

/// A part that holds a layout, which is to be accepted and to have a bit; else an error.
pub fn inner(alloc: Global, layout: Layout) -> Result<LayoutPart, NoMemory>
    requires { HasAcceptedParts (layout_view layout) }
    ensures { IfOk result (λ p. PartAccepted (part_view p)) }
{
    match check(alloc, layout) {
        Err(_error) => Err(NoMemory),
        Ok(checked) => {
            if checked.width == 0 {
                return Err(NoMemory);
            }
            holding(alloc, checked.layout)
        }
    }
}

#[tactic(auto, using(ddl_bits::proofs::Layers::layers, ddl_bits::proofs::Layers::view_inner))]
fn holding(alloc: Global, layout: Layout) -> Result<LayoutPart, NoMemory>
    requires { PartAccepted (inner (layout_view layout)) }
    ensures { IfOk result (λ p. PartAccepted (part_view p)) }
{
    let layout = Box::new(alloc, layout)?;
    Ok(LayoutPart::Inner { name: None, layout })
}

/// A constructor of one part.
#[tactic(auto, using(ddl_bits::proofs::Layers::layers))]
pub fn one(alloc: Global, part: LayoutPart) -> Result<LayoutCon, NoMemory>
    requires { PartAccepted (part_view part) }
    ensures { IfOk result (λ c. PartsAccepted (con_view c)) }
{
    let mut parts = Vec::new(alloc);
    parts.push(part)?;
    Ok(LayoutCon {
        name: Bytes::of(alloc, b"one")?,
        parts,
    })
}

/// A constructor of two parts, the first of which holds the higher bits.
#[tactic(auto, using(ddl_bits::proofs::Layers::layers))]
pub fn two(alloc: Global, first: LayoutPart, second: LayoutPart) -> Result<LayoutCon, NoMemory>
    requires first { PartAccepted (part_view first) }
    requires second { PartAccepted (part_view second) }
    ensures { IfOk result (λ c. PartsAccepted (con_view c)) }
{
    let mut parts = Vec::new(alloc);
    parts.push(first)?;
    parts.push(second)?;
    Ok(LayoutCon {
        name: Bytes::of(alloc, b"two")?,
        parts,
    })
}

/// A layout of one constructor.
#[tactic(auto, using(ddl_bits::proofs::Layers::layers))]
pub fn alone(alloc: Global, con: LayoutCon) -> Result<Layout, NoMemory>
    requires { PartsAccepted (con_view con) }
    ensures { IfOk result (λ l. HasAcceptedParts (layout_view l)) }
{
    let mut cons = Vec::new(alloc);
    cons.push(con)?;
    Ok(Layout { cons })
}

/// A layout of two constructors.
#[tactic(auto, using(ddl_bits::proofs::Layers::layers))]
pub fn either(alloc: Global, first: LayoutCon, second: LayoutCon) -> Result<Layout, NoMemory>
    requires first { PartsAccepted (con_view first) }
    requires second { PartsAccepted (con_view second) }
    ensures { IfOk result (λ l. HasAcceptedParts (layout_view l)) }
{
    let mut cons = Vec::new(alloc);
    cons.push(first)?;
    cons.push(second)?;
    Ok(Layout { cons })
}

/// A layout of three constructors.
#[tactic(auto, using(ddl_bits::proofs::Layers::layers))]
pub fn any_of_three(
    alloc: Global,
    first: LayoutCon,
    second: LayoutCon,
    third: LayoutCon,
) -> Result<Layout, NoMemory>
    requires first { PartsAccepted (con_view first) }
    requires second { PartsAccepted (con_view second) }
    requires third { PartsAccepted (con_view third) }
    ensures { IfOk result (λ l. HasAcceptedParts (layout_view l)) }
{
    let mut cons = Vec::new(alloc);
    cons.push(first)?;
    cons.push(second)?;
    cons.push(third)?;
    Ok(Layout { cons })
}
