//! The keys whose addresses a program takes.

ghost use Rattle.std.specs.Prelude.{◌≡◌, ◌<◌, ◌^◌, ◌++◌, length, map, IfOk, OnOk};
ghost use Rattle.std.specs.List.{flat_map};
ghost use Rattle.cc_program.specs.declared.stmt.Case.{out-Case};
ghost use Rattle.cc_state_keys.specs.Addressed.{all_taken, taken_in_stmt, taken_in_func, taken_in_address, taken_in_leaf, taken_in_object, taken_keys as taken_keys_of};
ghost use Rattle.cc_state_keys.specs.Lists.{all_from};
ghost use Rattle.cc_eval.specs.CcSyntax.Sizes.{AreSized};
ghost use Rattle.cc_eval.specs.CcSyntax.Sound.{IsTypedProgram};

use crate::cells::cell_key;
use crate::taken::Text;
use cc_program::num::NoMemory;
use cc_program::{Address, Case, Leaf, Object, Program, Stmt};
use cc_state_facts::Key;
use std::alloc::Global;

impl<'p> Text<'p> {
    /// Puts the keys whose addresses are taken in a statement behind others.
    #[cycle(taken)]
    #[tactic(auto, using(std::proofs::lemmas::Grind::common_steps), unfolding(crate::specs::Addressed::taken_in_stmt))]
    fn put_taken_in_stmt(self, keys: &mut Vec<Key>, s: &'p Stmt) -> Result<(), NoMemory>
        requires { AreSized self.program.now.structures self.program.now.target }
        ensures { OnOk result (keys.new.items ≡ keys.old.items ++ taken_in_stmt self.entry.program.now self.entry.id self.entry.func.now s.now) }
    {
        match s {
            Stmt::Do(e) => self.put_taken(keys, e.get()),
            Stmt::If(e, a, b) => {
                self.put_taken(keys, e.get())?;
                self.put_taken_in_list(keys, a.all())?;
                self.put_taken_in_list(keys, b.all())
            }
            Stmt::While(e, a) => {
                self.put_taken(keys, e.get())?;
                self.put_taken_in_list(keys, a.all())
            }
            Stmt::DoWhile(a, e) => {
                self.put_taken_in_list(keys, a.all())?;
                self.put_taken(keys, e.get())
            }
            Stmt::For(first, test, again, a) => {
                self.put_taken_in_optional(keys, first)?;
                self.put_taken_in_optional(keys, test)?;
                self.put_taken_in_optional(keys, again)?;
                self.put_taken_in_list(keys, a.all())
            }
            Stmt::Switch(e, cases) => {
                self.put_taken(keys, e.get())?;
                self.put_taken_in_cases(keys, cases.all())
            }
            Stmt::Return(e) => self.put_taken_in_optional(keys, e),
            Stmt::Block(a) => self.put_taken_in_list(keys, a.all()),
            Stmt::Break | Stmt::Continue | Stmt::Empty => Ok(()),
        }
    }

    /// Puts the keys whose addresses are taken in statements behind others.
    #[cycle(taken)]
    fn put_taken_in_list(self, keys: &mut Vec<Key>, list: &'p [Stmt]) -> Result<(), NoMemory>
        requires { AreSized self.program.now.structures self.program.now.target }
        ensures { OnOk result (keys.new.items ≡ keys.old.items ++ all_taken (map (taken_in_stmt self.entry.program.now self.entry.id self.entry.func.now) list.now)) }
    {
        for s in list {
            self.put_taken_in_stmt(keys, s)?;
        }
        Ok(())
    }

    /// Puts the keys whose addresses are taken in the cases of a `switch` behind others.
    #[cycle(taken)]
    fn put_taken_in_cases(self, keys: &mut Vec<Key>, cases: &'p [Case]) -> Result<(), NoMemory>
        requires { AreSized self.program.now.structures self.program.now.target }
        ensures { OnOk result (keys.new.items ≡ keys.old.items ++ flat_map (λ c. all_taken (map (taken_in_stmt self.entry.program.now self.entry.id self.entry.func.now) (out-Case c).body)) cases.now) }
    {
        for case in cases {
            let body = case.body.all();
            self.put_taken_in_list(keys, body)?;
        }
        Ok(())
    }
}

/// Puts the keys whose addresses are taken in functions behind others.
fn put_taken_in_funcs(p: &Program, keys: &mut Vec<Key>) -> Result<(), NoMemory>
    requires sized { AreSized p.now.structures p.now.target }
    requires few { length p.now.funcs < 2 ^ 32 }
    ensures { OnOk result (keys.new.items ≡ keys.old.items ++ all_from (taken_in_func p.now) 0 p.now.funcs) }
{
    for (id, func) in p.funcs.all().iter().enumerate() {
        let text = Text {
            program: p,
            id: id as u32,
            func,
        };
        let body = func.body.all();
        text.put_taken_in_list(keys, body)?;
    }
    Ok(())
}

/// Puts the key of what an address points to behind others, where it is an object.
fn put_address(p: &Program, keys: &mut Vec<Key>, a: &Address) -> Result<(), NoMemory>
    ensures { OnOk result (keys.new.items ≡ keys.old.items ++ taken_in_address p.now a.now) }
{
    match a {
        Address::At {
            object,
            path,
            index: _,
            count: _,
        } => Ok(keys.push(cell_key(p, *object, path.all()))?),
        Address::Null | Address::Func(_) => Ok(()),
    }
}

fn put_taken_in_leaf(p: &Program, keys: &mut Vec<Key>, leaf: &Leaf) -> Result<(), NoMemory>
    ensures { OnOk result (keys.new.items ≡ keys.old.items ++ taken_in_leaf p.now leaf.now) }
{
    match leaf {
        Leaf::Int(_) => Ok(()),
        Leaf::Place(a) => put_address(p, keys, a),
    }
}

fn put_taken_in_object(p: &Program, keys: &mut Vec<Key>, o: &Object) -> Result<(), NoMemory>
    ensures { OnOk result (keys.new.items ≡ keys.old.items ++ taken_in_object p.now o.now) }
{
    for leaf in o.init.all() {
        put_taken_in_leaf(p, keys, leaf)?;
    }
    Ok(())
}

/// Puts the keys whose addresses are taken in first values behind others.
fn put_taken_in_objects(p: &Program, keys: &mut Vec<Key>) -> Result<(), NoMemory>
    ensures { OnOk result (keys.new.items ≡ keys.old.items ++ flat_map (taken_in_object p.now) p.now.objects) }
{
    for object in p.objects.all() {
        put_taken_in_object(p, keys, object)?;
    }
    Ok(())
}

/// The keys whose cells have their addresses taken in a program, reached or not: those of its functions, then those of its
/// first values, in the order of the text. The only error is want of memory.
pub fn taken_keys(alloc: Global, p: &Program) -> Result<Vec<Key>, NoMemory>
    requires { IsTypedProgram p.now }
    ensures { IfOk result (λ keys. keys.items ≡ taken_keys_of p.now) }
{
    let mut keys = Vec::new(alloc);
    put_taken_in_funcs(p, &mut keys)?;
    put_taken_in_objects(p, &mut keys)?;
    Ok(keys)
}
