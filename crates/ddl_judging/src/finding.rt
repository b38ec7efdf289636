//! Members of records, unions and bitdata.

ghost use Rattle.std.specs.Prelude.{◌≡◌, MatchOption, None, Some, map};
ghost use Rattle.ddl_types.specs.TyView.{ty_view};
ghost use Rattle.ddl_judging.specs.Shapes.{bits_at, found, member, place_at};
ghost use Rattle.ddl_judging.specs.Views.{shapes_view};

use crate::shapes::Shapes;
use ddl_base::Bytes;
use ddl_types::Ty;

/// A member of a record or a union, and how many variables the types of its place have.
#[derive(Clone, Copy)]
pub struct Member<'a> {
    pub vars: u32,
    pub of: &'a Ty,
}

/// The type of the first member of a name.
fn first_of<'a>(name: &[u8], names: &[Bytes], types: &'a [Ty]) -> Option<&'a Ty>
    ensures { MatchOption result (member name.now names.now (map ty_view types.now) ≡ None) (λ t.
        member name.now names.now (map ty_view types.now) ≡ Some (ty_view t.now)) }
{
    let count = names.len().min(types.len());
    for i in 0..count {
        if names[i].get() == name {
            return Some(&types[i]);
        }
    }
    None
}

/// A field, or a tag, of a record or a union.
pub fn place_member<'a>(
    shapes: &'a Shapes,
    number: u32,
    tagged: bool,
    name: &[u8],
) -> Option<Member<'a>>
    ensures { MatchOption result (found tagged name.now (place_at (shapes_view shapes.now).places number) ≡ None) (λ m.
        (found tagged name.now (place_at (shapes_view shapes.now).places number) ≡ Some (ty_view m.of.now))
        × (m.vars ≡ (place_at (shapes_view shapes.now).places number).vars)) }
{
    let number = number as usize;
    if number >= shapes.places.len() {
        return None;
    }
    let place = &shapes.places[number];
    if place.tagged != tagged {
        return None;
    }
    match first_of(name, &place.names, &place.types) {
        None => None,
        Some(of) => Some(Member {
            vars: place.vars,
            of,
        }),
    }
}

/// A field, or a tag, of a bitdata.
pub fn bits_member<'a>(shapes: &'a Shapes, number: u32, tagged: bool, name: &[u8]) -> Option<&'a Ty>
    ensures { MatchOption result (found tagged name.now (bits_at (shapes_view shapes.now).bitdata number).shape ≡ None)
        (λ t. found tagged name.now (bits_at (shapes_view shapes.now).bitdata number).shape ≡ Some (ty_view t.now)) }
{
    let number = number as usize;
    if number >= shapes.bits.len() {
        return None;
    }
    let bits = &shapes.bits[number];
    if bits.tagged != tagged {
        return None;
    }
    first_of(name, &bits.names, &bits.types)
}
