//! The type that a declarator derives, or the part of it that may not stand there (C99 6.7.5).

ghost use Rattle.std.specs.Prelude.{◌≡◌, IfOk, map};
ghost use Rattle.cc_operands.specs.Qualified.{plain as plain_of, unqualified as unqualified_of};
ghost use Rattle.cc_program.specs.declared.types.Shape.{out-Shape};
ghost use Rattle.cc_specifiers.specs.Declarators.{bound_or_none as bound_or_none_of, function_to as function_to_of, derive_one as derive_one_of, derive, result_breach as result_breach_of, breach as breach_of, with_fault, fault_or, derived_further, derived as derived_of, type_found as type_found_of};
ghost use Rattle.cc_specifiers.specs.Places.{JudgesAt};

use crate::derivation::{Allowed, Derivation, Parameter};
use crate::fault::BreachAt;
use crate::object::is_object;
use cc_operands::Rule;
use cc_operands::typed_crate::{is_unqualified, is_void};
use cc_program::num::{Boxed, List, NoMemory, Target};
use cc_syntax::{CType, Layout, Shape, Sig, Structure};
use cc_tree::At;
use std::alloc::Global;

/// A type without qualifiers.
pub fn plain(shape: Shape) -> CType
    ensures { result ≡ plain_of shape }
{
    CType {
        constant: false,
        volatile: false,
        shape,
    }
}

/// A copy of a type, without its qualifiers.
fn unqualified(alloc: Global, t: &CType) -> Result<CType, NoMemory>
    ensures { IfOk result (λ r. r ≡ unqualified_of t.now) }
{
    Ok(plain(t.shape.copy(alloc)?))
}

/// The bound of an array, which is 0 where it has none.
fn bound_or_none(bound: Option<u32>) -> u32
    ensures { result ≡ bound_or_none_of bound }
{
    match bound {
        None => 0,
        Some(n) => n,
    }
}

/// What parameters take, without qualifiers of their own (C99 6.7.5.3, 15).
fn taken(alloc: Global, params: &[Parameter]) -> Result<List<CType>, NoMemory>
    ensures { IfOk result (λ r. r ≡ map (λ p. unqualified_of p.ctype) params.now) }
{
    let mut out = Vec::new(alloc);
    for param in params {
        out.push(unqualified(alloc, &param.ctype)?)?;
    }
    Ok(List::of(out))
}

fn function_to(alloc: Global, returned: CType, params: &[Parameter]) -> Result<CType, NoMemory>
    ensures { IfOk result (λ r. r ≡ function_to_of returned params.now) }
{
    let params = taken(alloc, params)?;
    let sig = Boxed::new(
        alloc,
        Sig {
            result: returned,
            params,
        },
    )?;
    Ok(plain(Shape::Func(sig)))
}

/// What a derivation makes of a type.
fn derive_one<S>(alloc: Global, d: &Derivation<S>, t: CType) -> Result<CType, NoMemory>
    ensures { IfOk result (λ r. r ≡ derive_one_of d.now t) }
{
    match d {
        Derivation::Pointer(constant, volatile) => {
            let to = Boxed::new(alloc, t)?;
            Ok(CType {
                constant: *constant,
                volatile: *volatile,
                shape: Shape::Pointer(to),
            })
        }
        Derivation::Array(n) => {
            let of = Boxed::new(alloc, t)?;
            Ok(plain(Shape::Array(of, bound_or_none(*n))))
        }
        Derivation::Function(params, _) => function_to(alloc, t, params.all()),
    }
}

/// What it breaks that a function gives the type (C99 6.7.5.3, 1).
fn result_breach(t: &CType) -> Option<Rule>
    ensures { result ≡ result_breach_of (out-Shape t.now.shape) }
{
    match &t.shape {
        Shape::Void => None,
        Shape::Int(_) => None,
        Shape::Pointer(_) => None,
        Shape::Array(_, _) => Some(Rule::FunctionResult),
        Shape::Struct(_) => Some(Rule::StructureValue),
        Shape::Func(_) => Some(Rule::FunctionResult),
    }
}

/// What a derivation of the type breaks. The flag says that a pointer to void may stand there.
fn breach<S>(
    target: &Target,
    structures: &[Structure],
    layouts: &[Layout],
    void: bool,
    t: &CType,
    d: &Derivation<S>,
) -> Option<Rule>
    ensures { result ≡ breach_of target.now structures.now layouts.now void t.now d.now }
{
    match d {
        Derivation::Pointer(_, _) => {
            if !is_void(t) || (void && is_unqualified(t)) {
                None
            } else {
                Some(Rule::PointerToVoid)
            }
        }
        Derivation::Array(_) => {
            if is_object(t, structures, layouts, target) {
                None
            } else {
                Some(Rule::NoObjectType)
            }
        }
        Derivation::Function(_, _) => result_breach(t),
    }
}

/// A type, and the derivation of it that breaks a rule next to the name, where one does.
#[derive(Drop)]
struct Outcome {
    ctype: CType,
    fault: Option<At<Rule>>,
}

/// One derivation more.
fn further<S>(
    alloc: Global,
    target: &Target,
    structures: &[Structure],
    layouts: &[Layout],
    void: bool,
    d: &At<Derivation<S>>,
    inner: Outcome,
) -> Result<Outcome, NoMemory>
    ensures ctype { IfOk result (λ r. r.ctype ≡ derive_one_of d.now.node inner.ctype) }
    ensures fault { IfOk result (λ r. with_fault r.fault r.ctype ≡ fault_or d.now.at (breach_of target.now structures.now layouts.now void inner.ctype d.now.node) (derived_further d.now.node (with_fault inner.fault inner.ctype))) }
{
    let fault = match breach(target, structures, layouts, void, &inner.ctype, &d.node) {
        None => inner.fault,
        Some(node) => Some(At { at: d.at, node }),
    };
    let ctype = derive_one(alloc, &d.node, inner.ctype)?;
    Ok(Outcome { ctype, fault })
}

/// The type that derivations make of another, the one next to the name last.
fn derived<S>(
    alloc: Global,
    target: &Target,
    structures: &[Structure],
    layouts: &[Layout],
    void: bool,
    base: CType,
    ds: &[At<Derivation<S>>],
) -> Result<Outcome, NoMemory>
    ensures ctype { IfOk result (λ r. r.ctype ≡ derive base ds.now) }
    ensures fault { IfOk result (λ r. with_fault r.fault r.ctype ≡ derived_of target.now structures.now layouts.now void base ds.now) }
{
    match ds {
        [] => Ok(Outcome {
            ctype: base,
            fault: None,
        }),
        [d, rest @ ..] => {
            let inner = derived(alloc, target, structures, layouts, false, base, rest)?;
            further(alloc, target, structures, layouts, void, d, inner)
        }
    }
}

/// The type that a declarator derives from that of the specifiers, over structures whose layouts are known. A
/// derivation that breaks a rule is at fault where none does that is nearer to the name.
pub fn type_found<S>(
    alloc: Global,
    target: &Target,
    structures: &[Structure],
    layouts: &[Layout],
    allowed: Allowed,
    base: CType,
    ds: &[At<Derivation<S>>],
) -> Result<CType, BreachAt>
    ensures { JudgesAt (λ t. t) result (type_found_of target.now structures.now layouts.now allowed base ds.now) }
{
    let Outcome { ctype, fault } = derived(
        alloc,
        target,
        structures,
        layouts,
        allowed.void,
        base,
        ds,
    )?;
    match fault {
        None => Ok(ctype),
        Some(fault) => Err(BreachAt::Breaks(fault.at, fault.node)),
    }
}
