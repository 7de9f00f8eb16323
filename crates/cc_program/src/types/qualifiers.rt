//! Whether objects of a type are const or volatile.

ghost use Rattle.std.specs.Prelude.{◌≡◌};
ghost use Rattle.cc_program.specs.Qualifiers.{is_const, is_volatile};

use crate::{CType, Shape};

impl CType {
    /// Whether an object of the type is const: for an array, where its innermost elements are.
    #[tactic(auto, unfolding(crate::specs::Qualifiers::is_const))]
    pub fn is_const(&self) -> bool
        ensures { result ≡ is_const self.now }
    {
        match &self.shape {
            Shape::Array(element, _) => self.constant || element.get().is_const(),
            _ => self.constant,
        }
    }

    /// Whether an object of the type is volatile: for an array, where its innermost elements are.
    #[tactic(auto, unfolding(crate::specs::Qualifiers::is_volatile))]
    pub fn is_volatile(&self) -> bool
        ensures { result ≡ is_volatile self.now }
    {
        match &self.shape {
            Shape::Array(element, _) => self.volatile || element.get().is_volatile(),
            _ => self.volatile,
        }
    }
}
