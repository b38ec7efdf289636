ghost use Rattle.std.specs.Prelude.{◌≡◌, IfOk, List, None, OnOk, Some, bytes_eq, if◌then◌else◌, ℕ};
ghost use Rattle.std.specs.Option.{option_or};
ghost use Rattle.ddl_uses.specs.Held.{at_text};

use ddl_base::{NoMemory, Span};
use std::collections::HashMap;

// Where a text stood first.
fn place(places: &HashMap<&[u8], Span>, text: &[u8]) -> Option<Span>
    ensures { result ≡ at_text places.now text.now }
{
    let first = places.get(text)?;
    Some(*first)
}

// Keeps the place of a text that is new.
#[tactic(auto, using(crate::proofs::Kept::kept))]
fn keep<'a>(
    places: &mut HashMap<&'a [u8], Span>,
    text: &'a [u8],
    span: Span,
) -> Result<(), NoMemory>
    requires { at_text places.old text.now ≡ None }
    ensures { OnOk result ((q : List ℕ) → at_text places.new q
        ≡ option_or (at_text places.old q) (if bytes_eq text.now q then Some span else None)) }
{
    places.insert(text, span)?;
    Ok(())
}

/// Where a text stood before, or else it stands here for the first time, and is kept.
#[tactic(auto, using(crate::proofs::Kept::kept))]
pub fn before<'a>(
    places: &mut HashMap<&'a [u8], Span>,
    text: &'a [u8],
    span: Span,
) -> Result<Option<Span>, NoMemory>
    ensures before { IfOk result (λ o. o ≡ at_text places.old text.now) }
    ensures kept { IfOk result (λ o. o ≡ None → (q : List ℕ)
        → at_text places.new q ≡ option_or (at_text places.old q) (if bytes_eq text.now q then Some span else None)) }
{
    if let Some(first) = place(places, text) {
        return Ok(Some(first));
    }
    keep(places, text, span)?;
    Ok(None)
}
