//! Basic types, attributes, storage classes, bounds and linkage, for example.

ghost use Rattle.std.specs.Prelude.{◌≡◌, pos, negsuc, true, false, [], ◌∷◌, Some, None, Ok, Err, codes};
ghost use Rattle.cc_linkage.specs.Linkage.{agrees};
ghost use Rattle.cc_linkage.specs.declared.linkage.DeclaredAs.TheVariants.{AsObject, AsExtern};
ghost use Rattle.cc_num.specs.declared.int_type.IntType.TheVariants as int;
ghost use Rattle.cc_typed_terms.specs.CcOperands.declared.rule.Rule.TheVariants as rule;
ghost use Rattle.cc_program.specs.declared.types.Shape.{Int};
ghost use Rattle.cc_rule_examples.specs.Examples.{narrow, type_of_words};
ghost use Rattle.cc_typed_terms.specs.CcScopes.Structures.{enumeration_constant};
ghost use Rattle.cc_typed_terms.specs.CcUnit.declared.unit.Linkage.TheVariants as linked;
ghost use Rattle.cc_typed_terms.specs.CcSpecifiers.Attributes.{attribute_of, has_meaning};
ghost use Rattle.cc_typed_terms.specs.CcSpecifiers.Bounds.{bound_in};
ghost use Rattle.cc_typed_terms.specs.CcSpecifiers.Storage.{storage_fits};
ghost use Rattle.cc_typed_terms.specs.CcSpecifiers.declared.attribute.Attribute.TheVariants as attribute;
ghost use Rattle.cc_typed_terms.specs.CcSpecifiers.declared.attribute.Entity.TheVariants as entity;
ghost use Rattle.cc_typed_terms.specs.CcSpecifiers.declared.storage.Where.TheVariants as stands;
ghost use Rattle.cc_syntax.specs.Folding.{Value};
ghost use Rattle.cc_program.specs.CcWords.declared.word.Word.TheVariants as word;

/// The words of a type stand in any order, and not every list of them names one (C99 6.7.2, 2).
pub fn basic_types()
    ensures long_unsigned_int_long { type_of_words (word.Long ∷ word.Unsigned ∷ word.Int ∷ word.Long ∷ []) ≡ Some (Int int.ULongLong) }
    ensures three_longs { type_of_words (word.Long ∷ word.Long ∷ word.Long ∷ []) ≡ None }
    ensures int_char { type_of_words (word.Int ∷ word.Char ∷ []) ≡ None }
    ensures no_words { type_of_words [] ≡ None }
{}

/// Attributes, and where they have a meaning.
pub fn attributes()
    ensures with_underscores { attribute_of (codes "__signal__") None ≡ Some attribute.Signal }
    ensures mode { attribute_of (codes "mode") (Some (codes "__SI__")) ≡ Some (attribute.Mode 4) }
    ensures unknown { attribute_of (codes "packed") None ≡ None }
    ensures handler_object { has_meaning entity.Static attribute.Signal ≡ false }
{}

/// Where a storage class has a meaning (C99 6.7.1, 6.9, 2).
pub fn storage()
    ensures auto_at_file { storage_fits stands.AtFile false false word.Auto ≡ false }
    ensures static_function_in_block { storage_fits stands.InBlock true false word.Static ≡ false }
    ensures initialised_extern_in_block { storage_fits stands.InBlock false true word.Extern ≡ false }
{}

/// Bounds of arrays, and enumeration constants (C99 6.7.5.2, 6.7.2.2).
pub fn bounds()
    ensures no_elements { bound_in (Value (pos 0)) ≡ Err rule.ArrayBound }
    ensures most_elements { bound_in (Value (pos 65535)) ≡ Ok 65535 }
    ensures too_many_elements { bound_in (Value (pos 65536)) ≡ Err rule.ArrayBound }
    ensures least_constant { enumeration_constant narrow (Value (negsuc 32767)) ≡ Ok (negsuc 32767) }
    ensures too_great_constant { enumeration_constant narrow (Value (pos 32768)) ≡ Err rule.EnumerationConstant }
{}

/// `static int x; extern int x;` agree, `static int x; int x;` don't, nor does an `extern` that doesn't see the static
/// object (C99 6.2.2, 4 to 7).
pub fn linkage()
    ensures static_then_extern { agrees AsExtern true linked.Internal ≡ true }
    ensures static_then_none { agrees AsObject true linked.Internal ≡ false }
    ensures hidden { agrees AsExtern false linked.Internal ≡ false }
{}
