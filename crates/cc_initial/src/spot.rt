//! Where address constants point to (C99 6.6, 9).

ghost use Rattle.std.specs.Prelude.{◌≡◌, IfOk};
ghost use Rattle.std.specs.Option.{option_copied};
ghost use Rattle.cc_initial.specs.Addresses.{path_into as path_into_of, element_found, element_by as element_by_of, element_at as element_at_of, member_spot as member_spot_of, member_at as member_at_of, moved_index as moved_index_of, moved_to as moved_to_of, moved_address as moved_address_of, whole_object as whole_object_of};
ghost use Rattle.cc_initial.specs.View.{spot_view, located_view};
ghost use Rattle.cc_operands.specs.CcSyntax.Values.{member_of};
ghost use Rattle.cc_operands.specs.CcTyped.View.{place_view};

use cc_operands::syntax::{CType, Part, Structure};
use cc_operands::typed_crate::{PlaceType, bound_of, object_place};
use cc_program::num::{List, NoMemory};
use std::alloc::Global;

/// An object that the path leads to, or an element of the array that it leads to, or the end of that.
#[derive(Drop)]
pub struct Spot<'p> {
    /// The static object, by its number.
    pub object: u32,
    pub path: List<Part>,
    /// Whether it is an element, or the end, of an array.
    pub element: bool,
    pub index: u32,
    pub count: u32,
    pub ctype: PlaceType<'p>,
}

/// What an address constant points to, and where a place lies that one designates.
#[derive(Drop)]
pub enum Located<'p> {
    NotConstant,
    /// A constant that has no value.
    Trapping,
    Null,
    /// A function, by its number.
    Function(u32),
    Spot(Spot<'p>),
}

/// The index of an element from which a pointer is moved, in an array of so many.
fn moved_index(back: bool, index: u32, count: u32, n: i128) -> Option<u32>
    ensures { result ≡ moved_index_of back index count n }
{
    if n < -4294967296 || 4294967296 < n {
        return None;
    }
    let from = i128::from(index);
    let to = if back { from - n } else { from + n };
    if 0 <= to && to <= i128::from(count) {
        Some(to as u32)
    } else {
        None
    }
}

impl<'p> Spot<'p> {
    /// The path to what lies in it.
    fn path_into(self) -> Result<List<Part>, NoMemory>
        ensures { IfOk result (λ path. path ≡ path_into_of (spot_view self.entry)) }
    {
        if self.element {
            let mut path = self.path.into_vec();
            path.push(Part::Index(self.index))?;
            Ok(List::of(path))
        } else {
            Ok(self.path)
        }
    }

    /// An element, or the end, of an array of so many that it is.
    fn element_of(self, i: u32, n: u32, ctype: PlaceType<'p>) -> Result<Spot<'p>, NoMemory>
        ensures { IfOk result (λ s. element_found (spot_view self.entry) i n (place_view ctype.entry) ≡ spot_view s) }
    {
        let object = self.object;
        let path = self.path_into()?;
        Ok(Spot {
            object,
            path,
            element: true,
            index: i,
            count: n,
            ctype,
        })
    }

    /// An element of it, by its number.
    fn element_by(self, i: i128) -> Result<Located<'p>, NoMemory>
        ensures { IfOk result (λ l. located_view l ≡ element_by_of i (spot_view self.entry)) }
    {
        if i < 0 {
            return Ok(Located::Trapping);
        }
        let Some(n) = bound_of(self.ctype) else {
            return Ok(Located::NotConstant);
        };
        let Some(t) = self.ctype.element() else {
            return Ok(Located::NotConstant);
        };
        if i <= i128::from(n) {
            Ok(Located::Spot(self.element_of(i as u32, n, t)?))
        } else {
            Ok(Located::Trapping)
        }
    }

    /// A member of it.
    fn member_by(self, structures: &'p [Structure], m: u32) -> Result<Located<'p>, NoMemory>
        ensures { IfOk result (λ l. located_view l ≡ member_spot_of (spot_view self.entry) m (member_of structures.now m (spot_view self.entry).type)) }
    {
        let Some(ctype) = self.ctype.member(structures, m) else {
            return Ok(Located::NotConstant);
        };
        let object = self.object;
        let mut path = self.path_into()?.into_vec();
        path.push(Part::Member(m))?;
        Ok(Located::Spot(Spot {
            object,
            path: List::of(path),
            element: false,
            index: 0,
            count: 1,
            ctype,
        }))
    }
}

impl<'p> Located<'p> {
    /// An element of what lies there, by its number where that is constant.
    pub fn element_at(self, i: Option<i128>) -> Result<Located<'p>, NoMemory>
        ensures { IfOk result (λ l. located_view l ≡ element_at_of i (located_view self.entry)) }
    {
        let Some(i) = i else {
            return Ok(Located::NotConstant);
        };
        match self {
            Located::Spot(spot) => {
                if spot.index < spot.count {
                    spot.element_by(i)
                } else {
                    Ok(Located::Trapping)
                }
            }
            Located::Null => Ok(Located::Trapping),
            Located::Trapping => Ok(Located::Trapping),
            Located::Function(_) => Ok(Located::NotConstant),
            Located::NotConstant => Ok(Located::NotConstant),
        }
    }

    /// A member of what lies there.
    pub fn member_at(self, structures: &'p [Structure], m: u32) -> Result<Located<'p>, NoMemory>
        ensures { IfOk result (λ l. located_view l ≡ member_at_of structures.now m (located_view self.entry)) }
    {
        match self {
            Located::Spot(spot) => {
                if spot.index < spot.count {
                    spot.member_by(structures, m)
                } else {
                    Ok(Located::Trapping)
                }
            }
            Located::Null => Ok(Located::Trapping),
            Located::Trapping => Ok(Located::Trapping),
            Located::Function(_) => Ok(Located::NotConstant),
            Located::NotConstant => Ok(Located::NotConstant),
        }
    }

    /// What a pointer points to that is moved by so many elements (C99 6.5.6, 8).
    pub fn moved(self, back: bool, n: Option<i128>) -> Located<'p>
        ensures { located_view result ≡ moved_address_of back n (located_view self.entry) }
    {
        let Some(n) = n else {
            return Located::NotConstant;
        };
        match self {
            Located::Spot(spot) => match moved_index(back, spot.index, spot.count, n) {
                None => Located::Trapping,
                Some(index) => Located::Spot(Spot {
                    object: spot.object,
                    path: spot.path,
                    element: spot.element,
                    index,
                    count: spot.count,
                    ctype: spot.ctype,
                }),
            },
            Located::Null => Located::Trapping,
            Located::Trapping => Located::Trapping,
            Located::Function(_) => Located::NotConstant,
            Located::NotConstant => Located::NotConstant,
        }
    }
}

/// A static object as a whole, which is known by its number and its type.
pub fn whole_object(alloc: Global, i: u32, t: Option<&CType>) -> Located<'_>
    ensures { located_view result ≡ whole_object_of i (option_copied t.entry) }
{
    match t {
        None => Located::NotConstant,
        Some(t) => Located::Spot(Spot {
            object: i,
            path: List::of(Vec::new(alloc)),
            element: false,
            index: 0,
            count: 1,
            ctype: object_place(t),
        }),
    }
}
