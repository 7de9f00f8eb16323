//! The function in whose body expressions stand.

ghost use Rattle.std.specs.Prelude.{◌≡◌, option_map, option_and_then};
ghost use Rattle.cc_registers.specs.Kept.{AreKept};
ghost use Rattle.cc_syntax.specs.Programs.{type_of as type_of_of, place_type as place_type_of};
ghost use Rattle.cc_syntax.specs.Registers.{is_register as is_register_of};
ghost use Rattle.cc_syntax.specs.Sizes.{AreSized};
ghost use Rattle.cc_syntax.specs.Values.{read_from};
ghost use Rattle.cc_eval.specs.CcTyped.View.{value_view};

use cc_eval::typed::{Scope, ValueType};
use cc_program::num::{Target, at};
use cc_program::{Expr, Func, Place, Program};
use std::alloc::Global;

/// A function of a program.
#[derive(Clone, Copy)]
pub struct Body<'p> {
    pub alloc: Global,
    pub program: &'p Program,
    pub func: &'p Func,
    /// Of each local, whether it is a register.
    pub registers: &'p [bool],
}

impl<'p> Body<'p> {
    pub(crate) fn target(self) -> &'p Target
        ensures { result.now ≡ self.entry.program.now.target }
    {
        &self.program.target
    }

    /// Whether a local of the function is a register.
    pub(crate) fn is_register(self, local: u32) -> bool
        requires { AreKept self.func.now self.registers.now }
        ensures { result ≡ is_register_of self.entry.func.now local }
    {
        match at(self.registers, local as usize) {
            Some(is) => *is,
            None => false,
        }
    }

    fn scope(self) -> Scope<'p>
        ensures program { result.program.now ≡ self.entry.program.now }
        ensures locals { result.locals.now ≡ self.entry.func.now.locals }
    {
        Scope {
            program: self.program,
            locals: self.func.locals.all(),
        }
    }

    /// The type of an expression.
    pub fn type_of(self, e: &'p Expr) -> Option<ValueType<'p>>
        requires { AreSized self.program.now.structures self.program.now.target }
        ensures { option_map value_view result ≡ type_of_of self.entry.program.now self.entry.func.now.locals e.now }
    {
        self.scope().type_of(e)
    }

    /// The type of what is read from a place.
    pub fn value_of(self, a: &'p Place) -> Option<ValueType<'p>>
        requires { AreSized self.program.now.structures self.program.now.target }
        ensures { option_map value_view result ≡ option_and_then read_from (place_type_of self.entry.program.now self.entry.func.now.locals a.now) }
    {
        match self.scope().place_type(a) {
            None => None,
            Some(t) => t.read(),
        }
    }
}
