//! What is noted beside the tree: records and unions, and the texts of `Fail`.

ghost use Rattle.std.specs.Prelude.{◌≡◌, [], IfOk, OnOk, length, map};
ghost use Rattle.ddl_types.specs.TyView.{ty_view};
ghost use Rattle.ddl_rules.specs.Asks.{place_type, with_place, with_text};
ghost use Rattle.ddl_rules.specs.Steps.{GoesOn};
ghost use Rattle.ddl_rules.specs.Views.{env_of, state_of};

use crate::{Elaboration, types};
use ddl_base::{Bytes, NoMemory, Span};
use ddl_typed::PlaceType;
use ddl_types::Ty;

// How many there are, as a number.
fn counted(count: usize) -> Result<u32, NoMemory>
    ensures { IfOk result (λ n. n ≡ count) }
{
    match u32::try_from(count) {
        Ok(count) => Ok(count),
        Err(_wide) => Err(NoMemory),
    }
}

impl<'a> Elaboration<'a> {
    /// The type of one more record or union. The names of a union are tags. In its own group it has
    /// no arguments.
    pub fn place(
        &mut self,
        span: Span,
        tagged: bool,
        names: Vec<Bytes>,
        types: Vec<Ty>,
    ) -> Result<Ty, NoMemory>
        ensures typed { IfOk result (λ t. ty_view t ≡ place_type (state_of self.old)) }
        ensures goes_on { OnOk result (GoesOn []
            (with_place span tagged names.items (map ty_view types.items) (state_of self.old)) (env_of self.old)
            self.old self.new) }
    {
        let number = counted(self.places.len())?;
        self.places.push(PlaceType {
            span,
            vars: 0,
            tagged,
            names,
            types,
        })?;
        Ok(types::place(self.alloc, number))
    }

    /// The number of one more text of a `Fail`.
    pub fn text(&mut self, text: Bytes) -> Result<u32, NoMemory>
        ensures numbered { IfOk result (λ n. n ≡ length (state_of self.old).texts) }
        ensures goes_on { OnOk result (GoesOn [] (with_text text (state_of self.old)) (env_of self.old) self.old
            self.new) }
    {
        let number = counted(self.texts.len())?;
        self.texts.push(text)?;
        Ok(number)
    }
}
