//! Whether addresses are the same.

ghost use Rattle.std.specs.Prelude.{◌≡◌, ◌↔◌, IsTrue};

use crate::{Address, Part, Root};
use cc_num::List;

/// Whether two objects are the same one.
fn same_root(a: Root, b: Root) -> bool
    ensures { IsTrue result ↔ (a ≡ b) }
{
    a == b
}

fn same_path(path: &List<Part>, other: &List<Part>) -> bool
    ensures { IsTrue result ↔ (path.now ≡ other.now) }
{
    let others = other.all();
    if path.all().len() != others.len() {
        return false;
    }
    for (i, part) in path.all().iter().enumerate() {
        if !same_part(*part, others[i]) {
            return false;
        }
    }
    true
}

fn same_part(a: Part, b: Part) -> bool
    ensures { IsTrue result ↔ (a ≡ b) }
{
    a == b
}

impl Address {
    /// Whether the addresses are the same.
    pub fn same(&self, other: &Address) -> bool
        ensures { IsTrue result ↔ (self.now ≡ other.now) }
    {
        match self {
            Address::Null => matches!(other, Address::Null),
            Address::Func(f) => match other {
                Address::Func(g) => f == g,
                _ => false,
            },
            Address::At {
                object: root,
                path: way,
                index: i,
                count: n,
            } => match other {
                Address::At {
                    object,
                    path,
                    index,
                    count,
                } => same_root(*root, *object) && same_path(way, path) && i == index && n == count,
                _ => false,
            },
        }
    }
}
