ghost use Rattle.std.specs.Prelude.{◌≡◌, ◌++◌, OnOk, [], ◌∷◌};
ghost use Rattle.ddl_kinds.specs.Findings.{again};
ghost use Rattle.ddl_kinds.specs.Found.{Finds};
ghost use Rattle.ddl_uses.specs.Held.{IsSeen, seen_view};

use crate::places::before;
use ddl_base::Span;
use ddl_kinds::{NameError, Use};
use ddl_tree::Name;
use std::alloc::Global;
use std::collections::HashMap;

/// A name, and where it stands.
#[derive(Clone, Copy)]
pub(crate) struct Place<'a> {
    pub(crate) text: &'a [u8],
    pub(crate) span: Span,
}

/// The names so far of which no two may be the same. A map leads to the first of each spelling.
#[derive(Drop)]
pub struct Seen<'a> {
    pub(crate) names: Vec<Place<'a>>,
    pub(crate) places: HashMap<&'a [u8], Span>,
}

impl<'a> Seen<'a> {
    /// No name.
    #[tactic(auto, using(crate::proofs::Placed::placed))]
    pub fn new(alloc: Global) -> Self
        ensures empty { seen_view result ≡ [] }
        ensures sound { IsSeen result }
    {
        Seen {
            names: Vec::new(alloc),
            places: HashMap::new(alloc),
        }
    }

    /// One name more, or the refusal where it stood before.
    #[tactic(auto, using(crate::proofs::Placed::placed))]
    pub(crate) fn once(&mut self, uses: &[Use], text: &'a [u8], span: Span) -> Result<(), NameError>
        requires { IsSeen self.old }
        ensures found { Finds (again (seen_view self.old) (record { text = text.now; span = span })) uses.now uses.now
            result }
        ensures seen { OnOk result (seen_view self.new ≡ seen_view self.old ++ record { text = text.now; span = span }
            ∷ []) }
        ensures sound { OnOk result (IsSeen self.new) }
    {
        if let Some(first) = before(&mut self.places, text, span)? {
            return Err(NameError::Twice(span, first));
        }
        self.names.push(Place { text, span })?;
        Ok(())
    }

    /// The same of a name as it stands.
    pub fn once_named(&mut self, uses: &[Use], name: &'a Name) -> Result<(), NameError>
        requires { IsSeen self.old }
        ensures found { Finds (again (seen_view self.old) name.now) uses.now uses.now result }
        ensures seen { OnOk result (seen_view self.new ≡ seen_view self.old ++ name.now ∷ []) }
        ensures sound { OnOk result (IsSeen self.new) }
    {
        self.once(uses, name.text.get(), name.span)
    }
}
