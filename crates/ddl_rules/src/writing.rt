//! Written types.

ghost use Rattle.std.specs.Prelude.{◌≡◌, ◌&&◌, IfOk, if◌then◌else◌, nat_le, None, Some};
ghost use Rattle.ddl_types.specs.Types.{Head.sint, Head.uint};
ghost use Rattle.ddl_types.specs.TyView.{ty_view};
ghost use Rattle.ddl_tree.specs.View.{type_view};
ghost use Rattle.ddl_rules.specs.Asks.{after_use, bound_next};
ghost use Rattle.ddl_rules.specs.Views.{env_of, state_of};
ghost use Rattle.ddl_rules.specs.Writing.{IsWritten, of_bound, of_known, sized, written};

use crate::renaming::renumbered;
use crate::{Elaboration, types};
use ddl_base::NoMemory;
use ddl_kinds::Bound;
use ddl_tree::TypeExpr;
use ddl_types::Ty;

// A width that is one.
fn as_width(bits: u128) -> Option<u8>
    ensures { result ≡ (if nat_le 1 bits && nat_le bits 128 then Some bits else None) }
{
    match u8::try_from(bits) {
        Ok(width) if 1 <= width && width <= 128 => Some(width),
        _ => None,
    }
}

fn sized_word(bits: u128) -> Ty
    ensures { ty_view result ≡ sized (uint bits) bits }
{
    match as_width(bits) {
        Some(width) => types::word(width),
        None => types::unit(),
    }
}

fn sized_sint(bits: u128) -> Ty
    ensures { ty_view result ≡ sized (sint bits) bits }
{
    match as_width(bits) {
        Some(width) => types::signed(width),
        None => types::unit(),
    }
}

impl<'a> Elaboration<'a> {
    // The type that the value of a declaration has.
    fn type_declared(&mut self, number: u32) -> Result<Ty, NoMemory>
        ensures { IfOk result (λ t. IsWritten t (of_known ((env_of self.old).known number) (state_of self.old))
            (env_of self.old) self.old self.new) }
    {
        match self.known.get(number as usize) {
            Some(known) => {
                let first = self.variables(known.vars)?;
                renumbered(self.alloc, known.vars, first, &known.of)
            }
            None => Ok(types::unit()),
        }
    }

    // The type that a name stands for.
    fn type_bound(&mut self, bound: Option<Bound>) -> Result<Ty, NoMemory>
        ensures { IfOk result (λ t. IsWritten t (of_bound (env_of self.old).known bound (state_of self.old))
            (env_of self.old) self.old self.new) }
    {
        match bound {
            Some(Bound::Decl(number)) => self.type_declared(number),
            _ => Ok(types::unit()),
        }
    }

    // The type that the next name stands for.
    fn type_named(&mut self) -> Result<Ty, NoMemory>
        ensures { IfOk result (λ t. IsWritten t
            (of_bound (env_of self.old).known (bound_next (state_of self.old).uses) (after_use (state_of self.old)))
            (env_of self.old) self.old self.new) }
    {
        let bound = self.take_use();
        self.type_bound(bound)
    }

    /// The type that is written there. The name of a declaration stands for the type of its value, at
    /// new variables. A width that is none and `float` have no type here, since they are refused before.
    #[cycle(written)]
    #[tactic(auto, using(ddl_tree::proofs::Layers::layers))]
    pub fn written(&mut self, of: &TypeExpr) -> Result<Ty, NoMemory>
        ensures { IfOk result (λ t. IsWritten t (written (env_of self.old).known (type_view of.now) (state_of self.old))
            (env_of self.old) self.old self.new) }
    {
        match of {
            TypeExpr::Int(_) => Ok(types::int()),
            TypeExpr::Uint { width, .. } => Ok(sized_word(width.value)),
            TypeExpr::Sint { width, .. } => Ok(sized_sint(width.value)),
            TypeExpr::Bool(_) => Ok(types::truth()),
            TypeExpr::Stream(_) => Ok(types::stream()),
            TypeExpr::Float(_) | TypeExpr::Double(_) | TypeExpr::Empty(_) => Ok(types::unit()),
            TypeExpr::Maybe { content, .. } => {
                let content = self.written(content)?;
                types::maybe(self.alloc, content)
            }
            TypeExpr::ArrayOf { element, .. } => {
                let element = self.written(element)?;
                types::array(self.alloc, element)
            }
            TypeExpr::MapOf { key, value, .. } => {
                let key = self.written(key)?;
                let value = self.written(value)?;
                let map = types::map(self.alloc, key, value)?;
                Ok(map)
            }
            TypeExpr::Named(_) => self.type_named(),
            TypeExpr::Within { inner, .. } => self.written(inner),
        }
    }
}
