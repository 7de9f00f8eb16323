//! What an object of a type consists of (C99 6.2.5, 20 and 21), one level of it at a time.

ghost use Rattle.std.specs.Prelude.{◌≡◌, false};
ghost use Rattle.std.specs.Option.{option_copied};
ghost use Rattle.cc_initialisers.specs.Contents.{NoMember, members_at as members_at_of, structure_inside, contents as contents_of};
ghost use Rattle.cc_initialisers.specs.Initialisers.{is_char as is_char_of, is_char_type as is_char_type_of, is_scalar_object, takes_text as takes_text_of, is_character as is_character_of};
ghost use Rattle.cc_initialisers.specs.View.{part_view, member_view, members_view, content_view};
ghost use Rattle.cc_operands.specs.CcTyped.View.{value_view};

use cc_operands::syntax::{CType, Shape, Structure};
use cc_operands::typed_crate::{ValueType, pointer_to};
use cc_program::num::{IntType, Name, at};

/// A part of an object: its type, whether it is part of something const, and how deep structures may nest in it.
#[derive(Clone, Copy)]
pub struct Part<'p> {
    pub structures: &'p [Structure],
    pub depth: usize,
    pub constant: bool,
    pub ctype: &'p CType,
}

/// What such a part consists of.
#[derive(Clone, Copy)]
pub enum Content<'p> {
    /// A scalar, and whether it is const.
    Scalar(bool, ValueType<'p>),
    /// So many elements.
    Elements(u32, Part<'p>),
    Members(Members<'p>),
}

/// Members of a structure, or of none: how deep structures may nest in them, and whether the whole is const.
#[derive(Clone, Copy)]
pub struct Members<'p> {
    pub structures: &'p [Structure],
    pub depth: usize,
    pub constant: bool,
    pub all: &'p [(Name, CType)],
}

impl<'p> Members<'p> {
    /// A member.
    pub fn part(self, member: &'p (Name, CType)) -> Part<'p>
        ensures { part_view result ≡ member_view self.entry member.now }
    {
        Part {
            structures: self.structures,
            depth: self.depth,
            constant: self.constant,
            ctype: &member.1,
        }
    }
}

fn members_at(structure: Option<&Structure>) -> &[(Name, CType)]
    ensures { result.now ≡ members_at_of (option_copied structure.entry) }
{
    match structure {
        None => &[],
        Some(s) => s.members.all(),
    }
}

impl<'p> Part<'p> {
    /// An object of the type.
    pub fn whole(structures: &'p [Structure], ctype: &'p CType) -> Part<'p>
        ensures { part_view result ≡ contents_of structures.now ctype.now false }
    {
        Part {
            structures,
            depth: structures.len(),
            constant: false,
            ctype,
        }
    }

    /// The members of a structure.
    #[tactic(auto, using(crate::proofs::Objects::of_objects))]
    fn members(self, constant: bool, id: u32) -> Members<'p>
        ensures { members_view result ≡ structure_inside self.entry.structures.now self.entry.depth id constant }
    {
        if 0 < self.depth {
            Members {
                structures: self.structures,
                depth: self.depth - 1,
                constant,
                all: members_at(at(self.structures, id as usize)),
            }
        } else {
            self.no_members()
        }
    }

    /// It has no members.
    fn no_members(self) -> Members<'p>
        ensures { members_view result ≡ NoMember }
    {
        Members {
            structures: self.structures,
            depth: 0,
            constant: false,
            all: &[],
        }
    }

    /// What it consists of.
    #[tactic(auto, unfolding(crate::specs::Contents::contents_over))]
    pub fn content(self) -> Content<'p>
        ensures { content_view result ≡ part_view self.entry }
    {
        let constant = self.constant || self.ctype.constant;
        match &self.ctype.shape {
            Shape::Int(t) => Content::Scalar(constant, ValueType::Integer(*t)),
            Shape::Pointer(to) => Content::Scalar(constant, pointer_to(to.get())),
            Shape::Array(of, n) => Content::Elements(
                *n,
                Part {
                    structures: self.structures,
                    depth: self.depth,
                    constant,
                    ctype: of.get(),
                },
            ),
            Shape::Struct(id) => Content::Members(self.members(constant, *id)),
            Shape::Void => Content::Members(self.no_members()),
            Shape::Func(_) => Content::Members(self.no_members()),
        }
    }
}

fn is_char(t: IntType) -> bool
    ensures { result ≡ is_char_of t }
{
    matches!(t, IntType::Char | IntType::SChar | IntType::UChar)
}

fn is_char_type(t: ValueType) -> bool
    ensures { result ≡ is_char_type_of (value_view t.entry) }
{
    match t {
        ValueType::Integer(t) => is_char(t),
        _ => false,
    }
}

impl<'p> Content<'p> {
    /// Whether it is a scalar.
    pub fn is_scalar(self) -> bool
        ensures { result ≡ is_scalar_object (content_view self.entry) }
    {
        match self {
            Content::Scalar(_, _) => true,
            Content::Elements(_, _) => false,
            Content::Members(_) => false,
        }
    }

    /// Whether it is a character.
    pub fn is_character(self) -> bool
        ensures { result ≡ is_character_of (content_view self.entry) }
    {
        match self {
            Content::Scalar(_, t) => is_char_type(t),
            Content::Elements(_, _) => false,
            Content::Members(_) => false,
        }
    }

    /// Whether a string may initialise it (C99 6.7.8, 14).
    pub fn takes_text(self) -> bool
        ensures { result ≡ takes_text_of (content_view self.entry) }
    {
        match self {
            Content::Elements(_, of) => of.content().is_character(),
            Content::Scalar(_, _) => false,
            Content::Members(_) => false,
        }
    }
}
