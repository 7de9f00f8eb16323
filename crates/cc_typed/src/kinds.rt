//! What kind of type each type is, where it may stand in a program.

ghost use Rattle.std.specs.Prelude.{◌≡◌, ◌≤◌, ◌<◌, ◌^◌, ◌*◌, option_map, length};
ghost use Rattle.std.specs.List.{list_all};
ghost use Rattle.cc_syntax.specs.Kinds.{bytes_in, pointer_kind, array_of as array_of_kind, array_kind as array_kind_of, with_qualifiers as with_qualifiers_of, is_result as is_result_of, is_plain_scalar as is_plain_scalar_of, kind_of as kind_of_of, struct_kind as struct_kind_of, is_object_type as is_object_type_of, is_object_kind, is_sig as is_sig_of, is_small as is_small_of, extent_with};
ghost use Rattle.cc_syntax.specs.Programs.{kind_in as kind_in_of};
ghost use Rattle.cc_program.specs.declared.types.Shape.{Struct as StructOf};
ghost use Rattle.cc_syntax.specs.Sizes.{AreSized};
ghost use Rattle.cc_typed.specs.View.{kind_view};

use crate::operators::has_members;
use cc_program::num::{Target, at};
use cc_syntax::{CType, Program, Shape, Sig, Structure, layout_of};

/// The kind of a type, with the bytes of a complete object type.
#[derive(Clone, Copy)]
pub enum Kind {
    Void,
    /// A scalar, and whether it has qualifiers.
    Scalar(bool, u64),
    Structure(u64),
    Array(u64),
    Incomplete,
    Function,
}

/// Whether an object may have so many bytes.
fn is_small(n: u64) -> bool
    ensures { result ≡ is_small_of n }
{
    n <= 4294967295
}

impl Kind {
    /// The bytes of a complete object type.
    fn bytes(self) -> Option<u64>
        ensures { result ≡ bytes_in (kind_view self) }
    {
        match self {
            Kind::Scalar(_, n) => Some(n),
            Kind::Structure(n) => Some(n),
            Kind::Array(n) => Some(n),
            Kind::Void => None,
            Kind::Incomplete => None,
            Kind::Function => None,
        }
    }

    fn pointer(self, bytes: u8) -> Option<Kind>
        ensures { option_map kind_view result ≡ pointer_kind bytes (kind_view self) }
    {
        match self {
            Kind::Void => None,
            _ => Some(Kind::Scalar(false, u64::from(bytes))),
        }
    }

    fn with_qualifiers(self, qualified: bool) -> Option<Kind>
        ensures { option_map kind_view result ≡ with_qualifiers_of qualified (kind_view self) }
    {
        match self {
            Kind::Scalar(_, n) => Some(Kind::Scalar(qualified, n)),
            Kind::Array(n) => {
                if qualified {
                    None
                } else {
                    Some(Kind::Array(n))
                }
            }
            Kind::Function => {
                if qualified {
                    None
                } else {
                    Some(Kind::Function)
                }
            }
            Kind::Void => Some(Kind::Void),
            Kind::Structure(n) => Some(Kind::Structure(n)),
            Kind::Incomplete => Some(Kind::Incomplete),
        }
    }
}

fn array_of(n: u32, size: u64) -> Option<Kind>
    ensures { option_map kind_view result ≡ array_of_kind n size }
{
    if 1 <= n && n <= 65535 && is_small(size) {
        Some(Kind::Array(u64::from(n) * size))
    } else {
        None
    }
}

fn array_kind(n: u32, size: Option<u64>) -> Option<Kind>
    ensures { option_map kind_view result ≡ array_kind_of n size }
{
    match size {
        None => None,
        Some(size) => array_of(n, size),
    }
}

/// Whether a function may return it.
pub fn is_result(kind: Option<Kind>) -> bool
    ensures { result ≡ is_result_of (option_map kind_view kind) }
{
    matches!(kind, Some(Kind::Void) | Some(Kind::Scalar(_, _)))
}

/// Whether a function may take it: a scalar without qualifiers.
pub fn is_plain_scalar(kind: Option<Kind>) -> bool
    ensures { result ≡ is_plain_scalar_of (option_map kind_view kind) }
{
    match kind {
        Some(Kind::Scalar(qualified, _)) => !qualified,
        _ => false,
    }
}

/// The kind of a type over the structures that are complete by then, of `count` structures in all.
#[cycle(kinds)]
#[tactic(auto, unfolding(cc_syntax::specs::Kinds::kind_of, cc_syntax::specs::Kinds::is_sig))]
pub fn kind_of(t: &CType, structures: &[Structure], count: usize, target: &Target) -> Option<Kind>
    requires { AreSized structures.now target.now }
    ensures { option_map kind_view result ≡ kind_of_of target.now (extent_with structures.now count target.now) t.now }
{
    let kind = match &t.shape {
        Shape::Void => Kind::Void,
        Shape::Int(i) => Kind::Scalar(false, u64::from(i.bytes(target))),
        Shape::Pointer(to) => {
            kind_of(to.get(), structures, count, target)?.pointer(target.pointer_bytes)?
        }
        Shape::Array(of, n) => {
            array_kind(*n, kind_of(of.get(), structures, count, target)?.bytes())?
        }
        Shape::Struct(id) => struct_kind(t, *id, structures, count, target)?,
        Shape::Func(sig) => {
            if is_sig(sig.get(), structures, count, target) {
                Kind::Function
            } else {
                return None;
            }
        }
    };
    kind.with_qualifiers(t.constant || t.volatile)
}

/// Whether it is the type of a function: of scalars that are not qualified, to void or a scalar.
#[cycle(kinds)]
#[tactic(auto, using(crate::proofs::ListLemmas::of_mapped), unfolding(cc_syntax::specs::Kinds::is_sig, cc_syntax::specs::Kinds::kind_of))]
fn is_sig(sig: &Sig, structures: &[Structure], count: usize, target: &Target) -> bool
    requires { AreSized structures.now target.now }
    ensures { result ≡ is_sig_of target.now (extent_with structures.now count target.now) sig.now }
{
    if !is_result(kind_of(&sig.result, structures, count, target)) {
        return false;
    }
    for param in sig.params.all() {
        if !is_plain_scalar(kind_of(param, structures, count, target)) {
            return false;
        }
    }
    true
}

/// The kind of a structure type `t`.
#[tactic(auto, using(cc_syntax::proofs::SizeLemmas::of_structures))]
fn struct_kind(
    t: &CType,
    id: u32,
    structures: &[Structure],
    count: usize,
    target: &Target,
) -> Option<Kind>
    requires sized { AreSized structures.now target.now }
    requires is { t.now.shape ≡ StructOf id }
    ensures { option_map kind_view result ≡ struct_kind_of structures.now count target.now id }
{
    if has_members(at(structures, id as usize)) {
        Some(Kind::Structure(layout_of(t, structures, target).size))
    } else if (id as usize) < count {
        Some(Kind::Incomplete)
    } else {
        None
    }
}

/// The kind of a type over all structures of a program.
pub fn kind_in(p: &Program, t: &CType) -> Option<Kind>
    requires { AreSized p.now.structures p.now.target }
    ensures { option_map kind_view result ≡ kind_in_of p.now t.now }
{
    let structures = p.structures.all();
    kind_of(t, structures, structures.len(), &p.target)
}

/// Whether it is the type of an object, a member or an element.
pub fn is_object_type(kind: Option<Kind>) -> bool
    ensures { result ≡ is_object_type_of (option_map kind_view kind) }
{
    match kind {
        None => false,
        Some(kind) => match kind.bytes() {
            None => false,
            Some(n) => is_small(n),
        },
    }
}
