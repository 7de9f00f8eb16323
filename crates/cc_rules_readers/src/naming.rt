//! Which keys a place may name, by its form.

ghost use Rattle.std.specs.Prelude.{◌≡◌};
ghost use Rattle.cc_rules_again.specs.Named.{concerns as concerns_of, is_member as is_member_of, is_local as is_local_of, has_member as has_member_of, has_local as has_local_of, is_named as is_named_of, is_each as is_each_of, named as named_of};
ghost use Rattle.cc_rules_readers.specs.View.{named_view, key_object, key_function, key_member, object_of, function_of, member_of};

use cc_program::Place;
use cc_rules_asked::state_facts::Key;
use cc_rules_asked::state_keys::is_key;

/// The keys that a place may name.
#[derive(Clone, Copy)]
pub enum Named {
    /// A device has none.
    NoKey,
    OneKey(Key),
    /// The members of a position, of each structure.
    MembersAt(u32),
    /// The locals of a function.
    LocalsOf(u32),
    /// Through a pointer.
    EachKey,
}

/// The keys that a place of a function may name.
#[tactic(auto, unfolding(cc_rules_again::specs::Named::named))]
pub(crate) fn keys_named(id: u32, a: &Place) -> Named
    ensures { named_view result ≡ named_of id a.now }
{
    match a {
        Place::Local(r) => Named::OneKey(Key::Local(id, *r)),
        Place::Static(i) => Named::OneKey(Key::Object(*i)),
        Place::Device(_) => Named::NoKey,
        Place::Element(b, _) => keys_named(id, b.get()),
        Place::Member(_, m) => Named::MembersAt(*m),
        Place::Deref(_) => Named::EachKey,
    }
}

fn is_member(m: u32, key: Key) -> bool
    ensures { result ≡ is_member_of m key }
{
    match key {
        Key::Member(_, n) => n == m,
        Key::Object(_) | Key::Local(_, _) => false,
    }
}

fn is_local(g: u32, key: Key) -> bool
    ensures { result ≡ is_local_of g key }
{
    match key {
        Key::Local(h, _) => h == g,
        Key::Object(_) | Key::Member(_, _) => false,
    }
}

/// The object of a key.
fn object_in(key: Key) -> Option<u32>
    ensures { result ≡ key_object key }
{
    match key {
        Key::Object(i) => Some(i),
        Key::Local(_, _) | Key::Member(_, _) => None,
    }
}

/// The function of the local of a key.
fn function_in(key: Key) -> Option<u32>
    ensures { result ≡ key_function key }
{
    match key {
        Key::Local(g, _) => Some(g),
        Key::Object(_) | Key::Member(_, _) => None,
    }
}

/// The position of the member of a key.
fn member_in(key: Key) -> Option<u32>
    ensures { result ≡ key_member key }
{
    match key {
        Key::Member(_, m) => Some(m),
        Key::Object(_) | Key::Local(_, _) => None,
    }
}

impl Named {
    /// Whether a key is among these.
    pub(crate) fn concerns(self, key: Key) -> bool
        ensures { result ≡ concerns_of (named_view self) key }
    {
        match self {
            Named::NoKey => false,
            Named::OneKey(one) => is_key(one, key),
            Named::MembersAt(m) => is_member(m, key),
            Named::LocalsOf(g) => is_local(g, key),
            Named::EachKey => true,
        }
    }

    fn has_member(self, m: u32) -> bool
        ensures { result ≡ has_member_of (named_view self) m }
    {
        match self {
            Named::NoKey | Named::LocalsOf(_) => false,
            Named::OneKey(key) => is_member(m, key),
            Named::MembersAt(n) => n == m,
            Named::EachKey => true,
        }
    }

    fn has_local(self, g: u32) -> bool
        ensures { result ≡ has_local_of (named_view self) g }
    {
        match self {
            Named::NoKey | Named::MembersAt(_) => false,
            Named::OneKey(key) => is_local(g, key),
            Named::LocalsOf(h) => h == g,
            Named::EachKey => true,
        }
    }

    /// Whether one of these may be named by others without a pointer.
    pub(crate) fn is_named(self, others: Named) -> bool
        ensures { result ≡ is_named_of (named_view self) (named_view others) }
    {
        match others {
            Named::NoKey | Named::EachKey => false,
            Named::OneKey(key) => self.concerns(key),
            Named::MembersAt(m) => self.has_member(m),
            Named::LocalsOf(g) => self.has_local(g),
        }
    }

    /// Whether these are all keys.
    pub(crate) fn is_each(self) -> bool
        ensures { result ≡ is_each_of (named_view self) }
    {
        match self {
            Named::EachKey => true,
            Named::NoKey | Named::OneKey(_) | Named::MembersAt(_) | Named::LocalsOf(_) => false,
        }
    }

    /// The static object whose key this is.
    pub(crate) fn object(self) -> Option<u32>
        ensures { result ≡ object_of (named_view self) }
    {
        match self {
            Named::OneKey(key) => object_in(key),
            Named::NoKey | Named::MembersAt(_) | Named::LocalsOf(_) | Named::EachKey => None,
        }
    }

    /// The function whose locals' keys these are.
    pub(crate) fn function(self) -> Option<u32>
        ensures { result ≡ function_of (named_view self) }
    {
        match self {
            Named::OneKey(key) => function_in(key),
            Named::LocalsOf(g) => Some(g),
            Named::NoKey | Named::MembersAt(_) | Named::EachKey => None,
        }
    }

    /// The position whose members' keys these are.
    pub(crate) fn member(self) -> Option<u32>
        ensures { result ≡ member_of (named_view self) }
    {
        match self {
            Named::OneKey(key) => member_in(key),
            Named::MembersAt(m) => Some(m),
            Named::NoKey | Named::LocalsOf(_) | Named::EachKey => None,
        }
    }
}
