//! Classes of bytes.

ghost use Rattle.std.specs.Prelude.{◌≡◌, ◌++◌, [], IfOk, OnOk};
ghost use Rattle.ddl_tree.specs.View as tree;
ghost use Rattle.ddl_typed.specs.PartView.{class_view};
ghost use Rattle.ddl_typed.specs.Tree.{class_parameter, declared, not_, or_, range};
ghost use Rattle.ddl_rules.specs.Asks.{after_use, bound_next, local_at};
ghost use Rattle.ddl_rules.specs.ClassForms.{IsClass, byte_asks, byte_of, class_made, named_class, number_of};
ghost use Rattle.ddl_rules.specs.Steps.{Asks, GoesOn};
ghost use Rattle.ddl_rules.specs.Views.{env_of, state_of};

use crate::{Elaboration, types};
use ddl_base::{NoMemory, Span};
use ddl_kinds::Bound;
use ddl_tree::{ByteLit, Cls};
use ddl_typed::TClass;
use ddl_types::Cond;
use std::alloc::Global;

// The byte that is written, or 0 where it is none.
fn byte_of(byte: &ByteLit) -> u8
    ensures { result ≡ byte_of byte.now }
{
    match byte {
        ByteLit::Code(number) => match u8::try_from(number.value) {
            Ok(value) => value,
            Err(_wide) => 0,
        },
        ByteLit::Quoted { value, .. } => *value,
    }
}

#[tactic(auto, using(ddl_typed::proofs::Layers::class_layers))]
fn bytes_between(first: u8, last: u8) -> TClass
    ensures { class_view result ≡ range first last }
{
    TClass::Range(first, last)
}

#[tactic(auto, using(ddl_typed::proofs::Layers::class_layers))]
fn class_declared(number: u32) -> TClass
    ensures { class_view result ≡ declared number }
{
    TClass::Declared(number)
}

#[tactic(auto, using(ddl_typed::proofs::Layers::class_layers))]
fn class_parameter(number: u32) -> TClass
    ensures { class_view result ≡ class_parameter number }
{
    TClass::Parameter(number)
}

impl<'a> Elaboration<'a> {
    // A byte that is written as a number has to be one.
    fn ask_byte(&mut self, byte: &ByteLit) -> Result<(), NoMemory>
        ensures { OnOk result (Asks (byte_asks byte.now) self.old self.new) }
    {
        match byte {
            ByteLit::Code(number) => self.require(
                Cond::Lit {
                    number: number.value,
                    of: types::word(8),
                },
                number.span,
            ),
            ByteLit::Quoted { .. } => Ok(()),
        }
    }

    // The bytes from the first to the last.
    fn range(&mut self, first: &ByteLit, last: &ByteLit) -> Result<TClass, NoMemory>
        ensures made { IfOk result (λ c. class_view c ≡ range (byte_of first.now) (byte_of last.now)) }
        ensures goes_on { OnOk result (Asks (byte_asks first.now ++ byte_asks last.now) self.old self.new) }
    {
        self.ask_byte(first)?;
        self.ask_byte(last)?;
        Ok(bytes_between(byte_of(first), byte_of(last)))
    }

    // The number of the local name whose binder stands there.
    fn number_at(&self, at: Span) -> u32
        ensures { result ≡ number_of (local_at at (env_of self.now).locals) }
    {
        match self.local(at) {
            Some(local) => local.number,
            None => 0,
        }
    }

    // The class that a name is bound to.
    fn class_bound(&self, bound: Option<Bound>) -> TClass
        ensures { class_view result ≡ named_class (env_of self.now) bound }
    {
        match bound {
            Some(Bound::Decl(number)) => class_declared(number),
            Some(Bound::Local(at)) => class_parameter(self.number_at(at)),
            _ => class_parameter(0),
        }
    }

    /// The class that the next name stands for.
    pub fn class_named(&mut self) -> TClass
        ensures made { class_view result ≡ named_class (env_of self.old) (bound_next (state_of self.old).uses) }
        ensures goes_on { GoesOn [] (after_use (state_of self.old)) (env_of self.old) self.old self.new }
    {
        let bound = self.take_use();
        self.class_bound(bound)
    }

    /// A class as it is written.
    #[cycle(class)]
    #[tactic(auto, using(ddl_tree::proofs::Layers::layers, ddl_typed::proofs::Layers::class_layers))]
    pub fn class(&mut self, class: &Cls) -> Result<TClass, NoMemory>
        ensures { IfOk result (λ c. IsClass c (class_made (tree.class_view class.now) (env_of self.old)
            (state_of self.old)) (env_of self.old) self.old self.new) }
    {
        match class {
            Cls::Union { left, right, .. } => {
                let left = self.class(left)?;
                let right = self.class(right)?;
                let either = either_class(self.alloc, left, right)?;
                Ok(either)
            }
            Cls::One(byte) => {
                self.ask_byte(byte)?;
                let value = byte_of(byte);
                Ok(bytes_between(value, value))
            }
            Cls::Range { first, last, .. } => self.range(first, last),
            Cls::Known(_) => Ok(self.class_named()),
            Cls::Other { inner, .. } => {
                let inner = self.class(inner)?;
                other_class(self.alloc, inner)
            }
            Cls::Grouped { inner, .. } | Cls::Set { inner, .. } => self.class(inner),
        }
    }
}

#[tactic(auto, using(ddl_typed::proofs::Layers::class_layers))]
fn either_class(alloc: Global, left: TClass, right: TClass) -> Result<TClass, NoMemory>
    ensures { IfOk result (λ c. class_view c ≡ or_ (class_view left) (class_view right)) }
{
    Ok(TClass::Either(Box::new(alloc, left)?, Box::new(alloc, right)?))
}

#[tactic(auto, using(ddl_typed::proofs::Layers::class_layers))]
fn other_class(alloc: Global, inner: TClass) -> Result<TClass, NoMemory>
    ensures { IfOk result (λ c. class_view c ≡ not_ (class_view inner)) }
{
    Ok(TClass::Except(Box::new(alloc, inner)?))
}
