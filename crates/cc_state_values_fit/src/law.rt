ghost use Rattle.std.specs.Prelude.{◌≡◌, ℕ, true, Option, Some, slice_get};
ghost use Rattle.cc_state_reads.specs.CcPlaces.declared.abs.Abs.{Abs};
ghost use Rattle.cc_state_reads.specs.CcPlaces.declared.addrs.Addrs.{Addrs};
ghost use Rattle.cc_program.specs.declared.expr.Expr.{Expr};
ghost use Rattle.cc_program.specs.declared.expr.Place.{Place};
ghost use Rattle.cc_program.specs.declared.func.Func.{Func};
ghost use Rattle.cc_program.specs.declared.program.Program.{Program};
ghost use Rattle.cc_state.specs.Shape.{IsSetIn};
ghost use Rattle.cc_state_reads.specs.CcStateKeys.Addressed.{in_place, taken_in};
ghost use Rattle.cc_state_reads.specs.CcStateKeys.Lists.{only};
ghost use Rattle.cc_state_reads.specs.CcStateOperators.Domains.{domain};
ghost use Rattle.cc_state_reads.specs.CcStateValues.Values.{IsVal, Designates};
ghost use Rattle.cc_state_values_fit.specs.Fit.{HasWholes, AreAddressed, RegistersFit, AllMayPoint};
ghost use Rattle.cc_state_reads.specs.CcSyntax.Programs.{type_of, place_type};
ghost use Rattle.cc_state_reads.specs.CcSyntax.Values.{ValueType, PlaceType, is_scalar, address_of};

use cc_program::num::{IntType, Target};
use cc_state_reads::lattice::IntDomain;
use std::alloc::Global;

/// What holds over each domain of expressions where the sets of registers fit their types. The call does nothing.
pub fn laws<I: IntDomain>()
    // What an expression with a value may give is of its type, where the text takes each address that the expression takes.
    ensures values { (p : Program) (id : ℕ) (f : Func) (register : ℕ → Option (Abs I)) →
        HasWholes (domain I.Has I.IsBelow I.OpGives I.OpOneGives I.ToGives I.KeepGives I.members_of) p.target → slice_get p.funcs id ≡ Some f →
        RegistersFit (domain I.Has I.IsBelow I.OpGives I.OpOneGives I.ToGives I.KeepGives I.members_of) p f register → (e : Expr) (t : ValueType) (y : Abs I) →
        type_of p f.locals e ≡ Some t → is_scalar t ≡ true → AreAddressed p (taken_in p id f e) →
        IsVal (domain I.Has I.IsBelow I.OpGives I.OpOneGives I.ToGives I.KeepGives I.members_of) p id f register e y →
        IsSetIn p (domain I.Has I.IsBelow I.OpGives I.OpOneGives I.ToGives I.KeepGives I.members_of) t y }

    // A pointer to a place may have each address of the place, where the text takes the place's.
    ensures places { (p : Program) (id : ℕ) (f : Func) (register : ℕ → Option (Abs I)) →
        HasWholes (domain I.Has I.IsBelow I.OpGives I.OpOneGives I.ToGives I.KeepGives I.members_of) p.target → slice_get p.funcs id ≡ Some f →
        RegistersFit (domain I.Has I.IsBelow I.OpGives I.OpOneGives I.ToGives I.KeepGives I.members_of) p f register → (a : Place) (u : PlaceType) (t : ValueType) (s : Addrs) →
        place_type p f.locals a ≡ Some u → address_of u ≡ Some t → AreAddressed p (in_place p id f a).taken → AreAddressed p (only (in_place p id f a).own) →
        Designates (domain I.Has I.IsBelow I.OpGives I.OpOneGives I.ToGives I.KeepGives I.members_of) p id f register a s → AllMayPoint p t s }
{}

/// That the domain has the set of all values of each type.
pub fn wholes<I: IntDomain>(alloc: Global, target: &Target)
    ensures { HasWholes (domain I.Has I.IsBelow I.OpGives I.OpOneGives I.ToGives I.KeepGives I.members_of) target.now }
{
    let _bools = I::whole(alloc, IntType::Bool, target);
    let _chars = I::whole(alloc, IntType::Char, target);
    let _signed_chars = I::whole(alloc, IntType::SChar, target);
    let _unsigned_chars = I::whole(alloc, IntType::UChar, target);
    let _shorts = I::whole(alloc, IntType::Short, target);
    let _unsigned_shorts = I::whole(alloc, IntType::UShort, target);
    let _ints = I::whole(alloc, IntType::Int, target);
    let _unsigned_ints = I::whole(alloc, IntType::UInt, target);
    let _longs = I::whole(alloc, IntType::Long, target);
    let _unsigned_longs = I::whole(alloc, IntType::ULong, target);
    let _long_longs = I::whole(alloc, IntType::LongLong, target);
    let _unsigned_long_longs = I::whole(alloc, IntType::ULongLong, target);
}
