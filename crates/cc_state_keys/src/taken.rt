//! The keys whose addresses an expression takes.

ghost use Rattle.std.specs.Prelude.{◌≡◌, ◌++◌, map, option_map, OnOk};
ghost use Rattle.cc_state_keys.specs.Addressed.{in_place, all_taken, taken_in, taken_in_optional};
ghost use Rattle.cc_eval.specs.CcSyntax.Sizes.{AreSized};
ghost use Rattle.cc_eval.specs.CcTyped.View.{place_view};

use crate::cells::member_key;
use crate::lists::put_some;
use cc_eval::typed::{PlaceType, Scope};
use cc_program::num::{Boxed, NoMemory};
use cc_program::{Expr, Func, Place, Program};
use cc_state_facts::Key;

/// A function whose text is read, with its id.
#[derive(Clone, Copy)]
pub struct Text<'p> {
    pub program: &'p Program,
    pub id: u32,
    pub func: &'p Func,
}

impl<'p> Text<'p> {
    /// The type of a place.
    fn place_type(self, a: &'p Place) -> Option<PlaceType<'p>>
        requires { AreSized self.program.now.structures self.program.now.target }
        ensures { option_map place_view result ≡ (in_place self.entry.program.now self.entry.id self.entry.func.now a.now).ctype }
    {
        Scope {
            program: self.program,
            locals: self.func.locals.all(),
        }
        .place_type(a)
    }

    /// The key that a place names by itself, not through a pointer.
    #[tactic(auto, unfolding(crate::specs::Addressed::in_place))]
    fn own_key(self, a: &'p Place) -> Option<Key>
        requires { AreSized self.program.now.structures self.program.now.target }
        ensures { result ≡ (in_place self.entry.program.now self.entry.id self.entry.func.now a.now).own }
    {
        match a {
            Place::Local(r) => Some(Key::Local(self.id, *r)),
            Place::Static(i) => Some(Key::Object(*i)),
            Place::Element(a, _) => self.own_key(a.get()),
            Place::Member(a, m) => member_key(self.place_type(a.get()), *m),
            Place::Device(_) | Place::Deref(_) => None,
        }
    }

    /// Puts the keys whose addresses are taken in an expression behind others.
    #[cycle(takes)]
    #[tactic(auto, using(std::proofs::lemmas::Grind::common_steps), unfolding(crate::specs::Addressed::in_expr, crate::specs::Addressed::in_place))]
    pub fn put_taken(self, keys: &mut Vec<Key>, e: &'p Expr) -> Result<(), NoMemory>
        requires { AreSized self.program.now.structures self.program.now.target }
        ensures { OnOk result (keys.new.items ≡ keys.old.items ++ taken_in self.entry.program.now self.entry.id self.entry.func.now e.now) }
    {
        match e {
            Expr::Const(_, _) | Expr::Null(_) | Expr::FuncAddr(_) => Ok(()),
            Expr::Load(a) | Expr::After(a, _) => self.put_taken_in_place(keys, a.get()),
            Expr::AddrOf(a) => {
                put_some(keys, self.own_key(a.get()))?;
                self.put_taken_in_place(keys, a.get())
            }
            Expr::Un(_, _, a) | Expr::Conv(_, a) | Expr::Qualify(_, a) => {
                self.put_taken(keys, a.get())
            }
            Expr::Bin(_, _, a, b)
            | Expr::Move(a, b, _)
            | Expr::Gap(a, b)
            | Expr::Compare(_, a, b)
            | Expr::Both(a, b)
            | Expr::Either(a, b)
            | Expr::Seq(a, b) => {
                self.put_taken(keys, a.get())?;
                self.put_taken(keys, b.get())
            }
            Expr::Choose(c, a, b) => {
                self.put_taken(keys, c.get())?;
                self.put_taken(keys, a.get())?;
                self.put_taken(keys, b.get())
            }
            Expr::Assign(a, e) | Expr::Change(a, _, _, e) => {
                self.put_taken_in_place(keys, a.get())?;
                self.put_taken(keys, e.get())
            }
            Expr::Call(g, args) => {
                self.put_taken(keys, g.get())?;
                self.put_all_taken(keys, args.all())
            }
            Expr::Intr(_, None) => Ok(()),
            Expr::Intr(_, Some(a)) => self.put_taken(keys, a.get()),
        }
    }

    /// Puts the keys whose addresses are taken in the operands of a place behind others.
    #[cycle(takes)]
    #[tactic(auto, using(std::proofs::lemmas::Grind::common_steps), unfolding(crate::specs::Addressed::in_expr, crate::specs::Addressed::in_place))]
    fn put_taken_in_place(self, keys: &mut Vec<Key>, a: &'p Place) -> Result<(), NoMemory>
        requires { AreSized self.program.now.structures self.program.now.target }
        ensures { OnOk result (keys.new.items ≡ keys.old.items ++ (in_place self.entry.program.now self.entry.id self.entry.func.now a.now).taken) }
    {
        match a {
            Place::Local(_) | Place::Static(_) | Place::Device(_) => Ok(()),
            Place::Element(a, i) => {
                self.put_taken_in_place(keys, a.get())?;
                self.put_taken(keys, i.get())
            }
            Place::Member(a, _) => self.put_taken_in_place(keys, a.get()),
            Place::Deref(e) => self.put_taken(keys, e.get()),
        }
    }

    /// Puts the keys whose addresses are taken in expressions behind others.
    #[cycle(takes)]
    fn put_all_taken(self, keys: &mut Vec<Key>, es: &'p [Expr]) -> Result<(), NoMemory>
        requires { AreSized self.program.now.structures self.program.now.target }
        ensures { OnOk result (keys.new.items ≡ keys.old.items ++ all_taken (map (taken_in self.entry.program.now self.entry.id self.entry.func.now) es.now)) }
    {
        for e in es {
            self.put_taken(keys, e)?;
        }
        Ok(())
    }

    /// Puts those that are taken in an expression that may be left out behind others.
    pub fn put_taken_in_optional(
        self,
        keys: &mut Vec<Key>,
        e: &'p Option<Boxed<Expr>>,
    ) -> Result<(), NoMemory>
        requires { AreSized self.program.now.structures self.program.now.target }
        ensures { OnOk result (keys.new.items ≡ keys.old.items ++ taken_in_optional self.entry.program.now self.entry.id self.entry.func.now e.now) }
    {
        match e {
            None => Ok(()),
            Some(e) => self.put_taken(keys, e.get()),
        }
    }
}
