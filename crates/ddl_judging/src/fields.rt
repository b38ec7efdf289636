//! Whether demands on fields and tags hold.

ghost use Rattle.std.specs.Prelude.{◌≡◌, IfOk, MatchOption, is_some};
ghost use Rattle.ddl_types.specs.Types.{on};
ghost use Rattle.ddl_types.specs.TyView.{ty_view};
ghost use Rattle.ddl_unify.specs.State.{solution};
ghost use Rattle.ddl_judging.specs.Judging.{false_for, no_field, has_field, has_tag, makes};
ghost use Rattle.ddl_judging.specs.Members.{if_found, no_bits};
ghost use Rattle.ddl_judging.specs.Shapes.{found, place_at, bits_at};
ghost use Rattle.ddl_judging.specs.VerdictView.{verdict_view};
ghost use Rattle.ddl_judging.specs.Views.{bit_shape, shapes_view};

use crate::finding::{bits_member, place_member};
use crate::judging::Verdict;
use crate::refusal::Wrong;
use crate::shapes::{BitsShape, Shapes};
use ddl_base::{Bytes, NoMemory};
use ddl_types::Ty;
use ddl_unify::Solver;
use std::alloc::Global;

/// The bitdata of a number.
pub(crate) fn bits_of(shapes: &Shapes, number: u32) -> Option<&BitsShape>
    ensures { MatchOption result (bits_at (shapes_view shapes.now).bitdata number ≡ no_bits) (λ b.
        bits_at (shapes_view shapes.now).bitdata number ≡ bit_shape b.now) }
{
    shapes.bits.get(number as usize)
}

/// Whether a record has a field, or a union a tag.
#[tactic(auto, using(crate::proofs::Searching::found_some))]
fn place_has(shapes: &Shapes, number: u32, tagged: bool, name: &[u8]) -> bool
    ensures { result ≡ is_some (found tagged name.now (place_at (shapes_view shapes.now).places number)) }
{
    place_member(shapes, number, tagged, name).is_some()
}

/// Whether a bitdata has a field or a tag.
#[tactic(auto, using(crate::proofs::Searching::found_some))]
fn bits_have(shapes: &Shapes, number: u32, tagged: bool, name: &[u8]) -> bool
    ensures { result ≡ is_some (found tagged name.now (bits_at (shapes_view shapes.now).bitdata number).shape) }
{
    bits_member(shapes, number, tagged, name).is_some()
}

/// It is false, since the type has no member of the name.
fn no_field(alloc: Global, solver: &Solver, t: &Ty, name: &[u8]) -> Result<Verdict, NoMemory>
    ensures { IfOk result (λ v. verdict_view v
        ≡ false_for (no_field name.now (on (ty_view t.now) (solution solver.now)))) }
{
    let name = Bytes::of(alloc, name)?;
    let of = solver.read(t)?;
    Ok(Verdict::False(Wrong::NoField { name, of }))
}

/// It holds where the member was found.
fn if_found(
    alloc: Global,
    solver: &Solver,
    found: bool,
    t: &Ty,
    name: &[u8],
) -> Result<Verdict, NoMemory>
    ensures { IfOk result (λ v. verdict_view v ≡ if_found found name.now (on (ty_view t.now) (solution solver.now))) }
{
    if found {
        return Ok(Verdict::Holds);
    }
    no_field(alloc, solver, t, name)
}

/// A record, or a bitdata written with `=`, with this field.
#[tactic(auto, using(ddl_types::proofs::TyLayers::layers, crate::proofs::Searching::found_is))]
pub(crate) fn has_field(
    alloc: Global,
    solver: &Solver,
    shapes: &Shapes,
    t: &Ty,
    name: &[u8],
) -> Result<Verdict, NoMemory>
    ensures { IfOk result (λ v. verdict_view v
        ≡ has_field (shapes_view shapes.now) name.now (on (ty_view t.now) (solution solver.now))) }
{
    match solver.head(t) {
        Ty::Var(_) => Ok(Verdict::Undecided),
        Ty::Place(number, _) => {
            let found = place_has(shapes, *number, false, name);
            if_found(alloc, solver, found, t, name)
        }
        Ty::Bits(number) => {
            let found = bits_have(shapes, *number, false, name);
            if_found(alloc, solver, found, t, name)
        }
        _ => no_field(alloc, solver, t, name),
    }
}

/// A union, or a bitdata written with `where`, with this tag.
#[tactic(auto, using(ddl_types::proofs::TyLayers::layers, crate::proofs::Searching::found_is))]
pub(crate) fn has_tag(
    alloc: Global,
    solver: &Solver,
    shapes: &Shapes,
    t: &Ty,
    name: &[u8],
) -> Result<Verdict, NoMemory>
    ensures { IfOk result (λ v. verdict_view v
        ≡ has_tag (shapes_view shapes.now) name.now (on (ty_view t.now) (solution solver.now))) }
{
    match solver.head(t) {
        Ty::Var(_) => Ok(Verdict::Undecided),
        Ty::Place(number, _) => {
            let found = place_has(shapes, *number, true, name);
            if_found(alloc, solver, found, t, name)
        }
        Ty::Bits(number) => {
            let found = bits_have(shapes, *number, true, name);
            if_found(alloc, solver, found, t, name)
        }
        _ => no_field(alloc, solver, t, name),
    }
}

/// A union with this tag, which a union form makes.
#[tactic(auto, using(ddl_types::proofs::TyLayers::layers, crate::proofs::Searching::found_is))]
pub(crate) fn makes(
    alloc: Global,
    solver: &Solver,
    shapes: &Shapes,
    t: &Ty,
    name: &[u8],
) -> Result<Verdict, NoMemory>
    ensures { IfOk result (λ v. verdict_view v
        ≡ makes (shapes_view shapes.now) name.now (on (ty_view t.now) (solution solver.now))) }
{
    match solver.head(t) {
        Ty::Var(_) => Ok(Verdict::Undecided),
        Ty::Place(number, _) => {
            let found = place_has(shapes, *number, true, name);
            if_found(alloc, solver, found, t, name)
        }
        _ => no_field(alloc, solver, t, name),
    }
}
