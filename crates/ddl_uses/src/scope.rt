ghost use Rattle.std.specs.Prelude.{◌≡◌, IfOk, List, None, OnOk, Option, Some, [], ◌∷◌, bytes_eq, drop, if◌then◌else◌};
ghost use Rattle.std.specs.Prelude.{length, option_map, ℕ};
ghost use Rattle.ddl_uses.specs.Held.{IsScope, at_text, local_view, scope_view};
ghost use Rattle.ddl_uses.specs.Scope.{in_scope, outermost};

use ddl_base::NoMemory;
use ddl_tree::{Kind, Name};
use std::alloc::Global;
use std::collections::HashMap;

/// A local name.
#[derive(Clone, Copy)]
pub(crate) struct Local<'a> {
    pub(crate) name: &'a Name,
    pub(crate) kind: Kind,
    /// The number of the name that it hides.
    pub(crate) hides: Option<usize>,
}

/// The local names in scope, numbered as they were bound. A map leads to the innermost of each spelling.
#[derive(Drop)]
pub struct Scope<'a> {
    pub(crate) locals: Vec<Local<'a>>,
    pub(crate) latest: HashMap<&'a [u8], usize>,
}

// The number that stands at a text.
fn number(latest: &HashMap<&[u8], usize>, text: &[u8]) -> Option<usize>
    ensures { result ≡ at_text latest.now text.now }
{
    let number = latest.get(text)?;
    Some(*number)
}

// Puts a number at a text, and tells the one that stood there.
#[tactic(auto, using(crate::proofs::Kept::updated))]
fn put<'a>(
    latest: &mut HashMap<&'a [u8], usize>,
    text: &'a [u8],
    number: usize,
) -> Result<Option<usize>, NoMemory>
    ensures old { IfOk result (λ o. o ≡ at_text latest.old text.now) }
    ensures new { OnOk result ((q : List ℕ) → at_text latest.new q
        ≡ (if bytes_eq text.now q then Some number else at_text latest.old q)) }
{
    let old = latest.insert(text, number)?;
    Ok(old)
}

// Takes out what stands at a text.
#[tactic(auto, using(crate::proofs::Kept::updated))]
fn take_out<'a>(latest: &mut HashMap<&'a [u8], usize>, text: &'a [u8])
    ensures { (q : List ℕ) → at_text latest.new q ≡ (if bytes_eq text.now q then None else at_text latest.old q) }
{
    latest.remove(text);
}

// Puts back what stood at a text.
#[tactic(auto, using(crate::proofs::Kept::updated))]
fn put_back<'a>(
    latest: &mut HashMap<&'a [u8], usize>,
    text: &'a [u8],
    number: Option<usize>,
) -> Result<(), NoMemory>
    ensures { OnOk result ((q : List ℕ) → at_text latest.new q
        ≡ (if bytes_eq text.now q then number else at_text latest.old q)) }
{
    match number {
        Some(number) => {
            put(latest, text, number)?;
        }
        None => take_out(latest, text),
    }
    Ok(())
}

impl<'a> Scope<'a> {
    /// Without a name.
    #[tactic(auto, using(crate::proofs::Scoped::scoped))]
    pub fn new(alloc: Global) -> Self
        ensures empty { scope_view result ≡ [] }
        ensures sound { IsScope result }
    {
        Scope {
            locals: Vec::new(alloc),
            latest: HashMap::new(alloc),
        }
    }

    /// Binds a name, which hides those of its spelling.
    #[tactic(auto, using(crate::proofs::Scoped::scoped))]
    pub fn bind(&mut self, name: &'a Name, kind: Kind) -> Result<(), NoMemory>
        requires { IsScope self.old }
        ensures bound { OnOk result (scope_view self.new ≡ record { name = name.now; kind = kind }
            ∷ scope_view self.old) }
        ensures sound { OnOk result (IsScope self.new) }
    {
        let hides = put(&mut self.latest, name.text.get(), self.locals.len())?;
        self.locals.push(Local { name, kind, hides })?;
        Ok(())
    }

    /// Forgets the innermost name, so that the one that it hid is seen again.
    #[tactic(auto, using(crate::proofs::Scoped::scoped))]
    pub(crate) fn forget(&mut self) -> Result<(), NoMemory>
        requires { IsScope self.old }
        ensures forgotten { OnOk result (scope_view self.new ≡ drop 1 (scope_view self.old)) }
        ensures sound { OnOk result (IsScope self.new) }
    {
        if let Some(local) = self.locals.pop() {
            put_back(&mut self.latest, local.name.text.get(), local.hides)?;
        }
        Ok(())
    }

    /// How many names are in scope.
    #[tactic(auto, using(crate::proofs::Outermost::outermosts))]
    pub(crate) fn len(&self) -> usize
        ensures { result ≡ length (scope_view self.now) }
    {
        self.locals.len()
    }

    /// Forgets names until so many are left.
    #[tactic(auto, using(crate::proofs::Outermost::outermosts))]
    pub(crate) fn truncate(&mut self, len: usize) -> Result<(), NoMemory>
        requires { IsScope self.old }
        ensures left { OnOk result (scope_view self.new ≡ outermost len (scope_view self.old)) }
        ensures sound { OnOk result (IsScope self.new) }
    {
        while self.len() > len {
            self.forget()?;
        }
        Ok(())
    }

    /// The innermost name of this spelling.
    #[tactic(auto, using(crate::proofs::Scoped::scoped))]
    pub(crate) fn find(&self, text: &[u8]) -> Option<Local<'a>>
        requires { IsScope self.now }
        ensures { option_map local_view result ≡ in_scope (scope_view self.now) text.now }
    {
        match number(&self.latest, text) {
            Some(number) => Some(self.locals[number]),
            None => None,
        }
    }
}
