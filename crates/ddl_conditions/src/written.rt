//! The variables and the places of a type as it is written.

ghost use Rattle.std.specs.Prelude.{◌≡◌, OnOk, map, true};
ghost use Rattle.ddl_types.specs.Types.{tys_of};
ghost use Rattle.ddl_types.specs.TyView.{ty_view};
ghost use Rattle.ddl_unify.specs.Occurs.{has, has_all};
ghost use Rattle.ddl_conditions.specs.Standing.{has_place_all};
ghost use Rattle.ddl_conditions.specs.Seen.{Noted, PlaceIn, is_seen};

use ddl_base::NoMemory;
use ddl_types::Ty;

/// Whether a variable stands in a type.
#[cycle(holds)]
#[tactic(auto, using(ddl_types::proofs::TyLayers::layers, crate::proofs::Holding::holdings))]
pub(crate) fn holds(t: &Ty, v: u32) -> bool
    ensures { result ≡ has (ty_view t.now) v }
{
    match t {
        Ty::Var(n) => *n == v,
        Ty::Maybe(inner) => holds(inner, v),
        Ty::Array(element) => holds(element, v),
        Ty::Map(key, value) => holds(key, v) || holds(value, v),
        Ty::Place(_, ts) => holds_any(ts, v),
        _ => false,
    }
}

#[cycle(holds)]
#[tactic(auto, using(ddl_types::proofs::TyLayers::layers, crate::proofs::Holding::holdings))]
fn holds_any(ts: &[Ty], v: u32) -> bool
    ensures { result ≡ has_all (tys_of (map ty_view ts.now)) v }
{
    for t in ts {
        if holds(t, v) {
            return true;
        }
    }
    false
}

/// Whether a place is marked; beyond the marks there is nothing to see.
fn is_marked(seen: &[bool], place: u32) -> bool
    ensures { result ≡ is_seen seen.now place }
{
    match seen.get(place as usize) {
        Some(marked) => *marked,
        None => true,
    }
}

/// Marks a place, and keeps it to be opened if it is new.
fn note(place: u32, seen: &mut [bool], pending: &mut Vec<u32>) -> Result<(), NoMemory>
    ensures { OnOk result (Noted (λ p. p ≡ place) seen.old seen.new pending.old.items pending.new.items) }
{
    if is_marked(seen, place) {
        return Ok(());
    }
    pending.push(place)?;
    seen[place as usize] = true;
    Ok(())
}

/// Marks the places in a type, and keeps those that are new to be opened.
#[cycle(mark_places)]
#[tactic(auto, using(ddl_types::proofs::TyLayers::layers))]
pub(crate) fn mark_places(t: &Ty, seen: &mut [bool], pending: &mut Vec<u32>) -> Result<(), NoMemory>
    ensures { OnOk result (Noted (PlaceIn (ty_view t.now)) seen.old seen.new pending.old.items pending.new.items) }
{
    match t {
        Ty::Maybe(inner) => {
            mark_places(inner, seen, pending)?;
            Ok(())
        }
        Ty::Array(element) => {
            mark_places(element, seen, pending)?;
            Ok(())
        }
        Ty::Map(key, value) => {
            mark_places(key, seen, pending)?;
            mark_places(value, seen, pending)?;
            Ok(())
        }
        Ty::Place(number, ts) => {
            note(*number, seen, pending)?;
            mark_all(ts, seen, pending)?;
            Ok(())
        }
        _ => Ok(()),
    }
}

#[cycle(mark_places)]
#[tactic(auto, using(ddl_types::proofs::TyLayers::layers))]
fn mark_all(ts: &[Ty], seen: &mut [bool], pending: &mut Vec<u32>) -> Result<(), NoMemory>
    ensures { OnOk result (Noted (λ p. has_place_all (tys_of (map ty_view ts.now)) p ≡ true) seen.old seen.new
        pending.old.items pending.new.items) }
{
    for t in ts {
        mark_places(t, seen, pending)?;
    }
    Ok(())
}
