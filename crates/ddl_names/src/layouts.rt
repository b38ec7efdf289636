ghost use Rattle.std.specs.Prelude.{◌≡◌, ◌++◌, OnOk, [], ◌∷◌, map};
ghost use Rattle.ddl_tree.specs.ViewModule.{bits_view, con_view, part_view};
ghost use Rattle.ddl_kinds.specs.Findings.{again};
ghost use Rattle.ddl_uses.specs.Forms.{once_again, typed_findings};
ghost use Rattle.ddl_kinds.specs.Found.{Finds};
ghost use Rattle.ddl_uses.specs.Walks.{IsOuter, site_view};
ghost use Rattle.ddl_uses.specs.Held.{IsScope, IsSeen, scope_view, seen_view};
ghost use Rattle.ddl_names.specs.Modules.{bits_findings, con_findings, part_findings, part_names, part_type};

use ddl_kinds::{NameError, Use};
use ddl_tree::{Bits, Con, Part};
use ddl_uses::{Outer, Scope, Seen, take_type};
use std::alloc::Global;

// The name of a part, or the refusal where it stood before.
#[tactic(auto, using(ddl_kinds::proofs::Finding::finding))]
fn once_named<'a>(seen: &mut Seen<'a>, uses: &[Use], part: &'a Part) -> Result<(), NameError>
    requires { IsSeen seen.old }
    ensures found { Finds (once_again (seen_view seen.old) (part_names (part_view part.now))) uses.now uses.now result }
    ensures seen { OnOk result (seen_view seen.new ≡ seen_view seen.old ++ part_names (part_view part.now)) }
    ensures sound { OnOk result (IsSeen seen.new) }
{
    match part {
        Part::Named { name, .. } => {
            seen.once_named(uses, name)?;
            Ok(())
        }
        Part::Fixed(_) | Part::Unnamed { .. } => Ok(()),
    }
}

// The names in the type of a part.
#[tactic(auto, using(ddl_kinds::proofs::Finding::finding))]
fn take_part_type<'a>(
    outer: &Outer<'a>,
    scope: &Scope<'a>,
    uses: &mut Vec<Use>,
    part: &Part,
) -> Result<(), NameError>
    requires names { IsOuter outer.now }
    requires scope { IsScope scope.now }
    ensures { Finds (typed_findings (site_view outer.now) (part_type (part_view part.now)) (scope_view scope.now))
        uses.old.items uses.new.items result }
{
    match part {
        Part::Named { of, .. } | Part::Unnamed { of, .. } => {
            take_type(outer, scope, uses, of)?;
            Ok(())
        }
        Part::Fixed(_) => Ok(()),
    }
}

// What is found in the parts of a layout.
#[tactic(auto, using(ddl_kinds::proofs::Finding::finding, crate::proofs::Declared::declared))]
fn take_parts<'a>(
    alloc: Global,
    outer: &Outer<'a>,
    uses: &mut Vec<Use>,
    parts: &'a [Part],
) -> Result<(), NameError>
    requires { IsOuter outer.now }
    ensures { Finds (part_findings (site_view outer.now) [] (map part_view parts.now)) uses.old.items uses.new.items
        result }
{
    let scope = Scope::new(alloc);
    let mut seen = Seen::new(alloc);
    for part in parts {
        once_named(&mut seen, uses, part)?;
        take_part_type(outer, &scope, uses, part)?;
    }
    Ok(())
}

/// What is found in a layout.
#[tactic(auto, using(ddl_kinds::proofs::Finding::finding))]
pub(crate) fn take_bits<'a>(
    alloc: Global,
    outer: &Outer<'a>,
    uses: &mut Vec<Use>,
    bits: &'a Bits,
) -> Result<(), NameError>
    requires { IsOuter outer.now }
    ensures { Finds (bits_findings (site_view outer.now) (bits_view bits.now)) uses.old.items uses.new.items result }
{
    match bits {
        Bits::Exactly(_) => Ok(()),
        Bits::Parts { parts, .. } => {
            take_parts(alloc, outer, uses, parts)?;
            Ok(())
        }
    }
}

// What is found in a constructor, after those that were seen.
#[tactic(auto, using(ddl_kinds::proofs::Finding::finding))]
fn take_con<'a>(
    alloc: Global,
    outer: &Outer<'a>,
    uses: &mut Vec<Use>,
    seen: &mut Seen<'a>,
    con: &'a Con,
) -> Result<(), NameError>
    requires names { IsOuter outer.now }
    requires seen { IsSeen seen.old }
    ensures found { Finds (again (seen_view seen.old) (con_view con.now).name
        ++ bits_findings (site_view outer.now) (con_view con.now).bits) uses.old.items uses.new.items result }
    ensures seen { OnOk result (seen_view seen.new ≡ seen_view seen.old ++ (con_view con.now).name ∷ []) }
    ensures sound { OnOk result (IsSeen seen.new) }
{
    seen.once_named(uses, &con.name)?;
    take_bits(alloc, outer, uses, &con.bits)?;
    Ok(())
}

/// What is found in constructors.
#[tactic(auto, using(ddl_kinds::proofs::Finding::finding, crate::proofs::Declared::declared))]
pub(crate) fn take_cons<'a>(
    alloc: Global,
    outer: &Outer<'a>,
    uses: &mut Vec<Use>,
    cons: &'a [Con],
) -> Result<(), NameError>
    requires { IsOuter outer.now }
    ensures { Finds (con_findings (site_view outer.now) [] (map con_view cons.now)) uses.old.items uses.new.items result }
{
    let mut seen = Seen::new(alloc);
    for con in cons {
        take_con(alloc, outer, uses, &mut seen, con)?;
    }
    Ok(())
}
