//! Attributes that give an integer type another size.

ghost use Rattle.std.specs.Prelude.{◌≡◌, find, nat_eq};
ghost use Rattle.cc_program.specs.CcNum.Integers.{bytes_of};
ghost use Rattle.cc_operands.specs.Verdicts.{Judges};
ghost use Rattle.cc_specifiers.specs.Modes.{with_bytes as with_bytes_of, mode_type as mode_type_of, moded as moded_of, all_moded as all_moded_of, modes_judged as modes_judged_of};

use crate::attribute::Attribute;
use cc_operands::{Breach, Rule};
use cc_program::num::{IntType, List, Target};
use cc_syntax::{CType, Shape};
use cc_tree::At;

/// The first of the types that has so many bytes.
fn with_bytes(target: &Target, n: u8, types: &[IntType]) -> Option<IntType>
    ensures { result ≡ with_bytes_of target.now n types.now }
{
    types.iter().copied().find(|t| t.bytes(target) == n)
}

/// The integer type of so many bytes with the sign of `int` or `unsigned int`; another type has none.
fn mode_type(target: &Target, n: u8, t: IntType) -> Option<IntType>
    ensures { result ≡ mode_type_of target.now n t }
{
    match t {
        IntType::Int => {
            let types = [
                IntType::Int,
                IntType::SChar,
                IntType::Short,
                IntType::Long,
                IntType::LongLong,
            ];
            with_bytes(target, n, &types)
        }
        IntType::UInt => {
            let types = [
                IntType::UInt,
                IntType::UChar,
                IntType::UShort,
                IntType::ULong,
                IntType::ULongLong,
            ];
            with_bytes(target, n, &types)
        }
        _ => None,
    }
}

/// What a typedef with such an attribute names.
fn moded(target: &Target, attribute: Attribute, t: CType) -> Result<CType, Breach>
    ensures { Judges (λ u. u) result (moded_of target.now attribute t) }
{
    let Attribute::Mode(n) = attribute else {
        return Ok(t);
    };
    let Shape::Int(i) = &t.shape else {
        return Err(Breach::Breaks(Rule::Attribute));
    };
    match mode_type(target, n, *i) {
        None => Err(Breach::Breaks(Rule::Attribute)),
        Some(i) => Ok(CType {
            constant: t.constant,
            volatile: t.volatile,
            shape: Shape::Int(i),
        }),
    }
}

/// What a typedef with such attributes names.
#[tactic(auto, using(crate::proofs::Lists::of_lists))]
fn all_moded(target: &Target, attributes: &[Attribute], t: CType) -> Result<CType, Breach>
    ensures { Judges (λ u. u) result (all_moded_of target.now attributes.now t) }
{
    let mut u = t;
    for m in attributes {
        u = moded(target, *m, u)?;
    }
    Ok(u)
}

/// What a typedef with all of these attributes names.
#[tactic(auto, using(crate::proofs::Lists::of_lists))]
pub fn modes_judged(
    target: &Target,
    marks: &[At<List<Attribute>>],
    t: CType,
) -> Result<CType, Breach>
    ensures { Judges (λ u. u) result (modes_judged_of target.now marks.now t) }
{
    let mut u = t;
    for ms in marks {
        u = all_moded(target, ms.node.all(), u)?;
    }
    Ok(u)
}
