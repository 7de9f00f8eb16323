ghost use Rattle.std.specs.Prelude.{◌≡◌, ℕ, Option};
ghost use Rattle.std.specs.Option.{option_copied};
ghost use Rattle.cc_program.specs.declared.types.CType.{CType as TypeOf};

use cc_operands::syntax::CType;

/// The static objects, devices and functions that are known, by their numbers.
pub trait Statics {
    /// The types of the objects among them.
    ghost types: { Self → ℕ → Option TypeOf };

    /// The type of one, where it is an object.
    fn object_type(&self, id: u32) -> Option<&CType>
        ensures { option_copied result ≡ types self.now id };
}
