//! What is known of expressions before they run: the registers that they assign, and whether they are pure.

ghost use Rattle.std.specs.Prelude.{◌≡◌, ◌++◌, map, IfOk, OnOk};
ghost use Rattle.std.specs.List.{flat_map};
ghost use Rattle.cc_lower_accesses.specs.Assigned.{among, listed, registers_in, place_registers_in};
ghost use Rattle.cc_registers.specs.Kept.{AreKept};
ghost use Rattle.cc_syntax.specs.Effects.{also, is_soft as is_soft_of, effects_of, place_effects_of, all_assigned};

use crate::body::Body;
use cc_program::num::NoMemory;
use cc_program::{Expr, Place};

fn is_among(list: &[u32], register: u32) -> bool
    ensures { result ≡ among list.now register }
{
    list.iter().any(|r| *r == register)
}

impl<'p> Body<'p> {
    /// The register that a place is, if it is one.
    #[tactic(auto, unfolding(cc_syntax::specs::Effects::place_effects_of))]
    pub fn register_of(self, a: &Place) -> Option<u32>
        requires { AreKept self.func.now self.registers.now }
        ensures { result ≡ (place_effects_of self.entry.func.now a.now).register }
    {
        match a {
            Place::Local(r) => { if self.is_register(*r) { Some(*r) } else { None } }
            _ => None,
        }
    }

    /// Whether a place is a register that no later operand assigns.
    pub(crate) fn is_soft(self, a: &Place, later: &[u32]) -> bool
        requires { AreKept self.func.now self.registers.now }
        ensures { result ≡ is_soft_of (place_effects_of self.entry.func.now a.now).register (among later.now) }
    {
        match self.register_of(a) {
            None => false,
            Some(r) => !is_among(later, r),
        }
    }

    /// Whether an expression is pure: it has no call, intrinsic, assignment, `++`, `--` or comma, and reads nothing
    /// but registers, none of which a later operand assigns.
    #[cycle(pure)]
    #[tactic(auto, unfolding(cc_syntax::specs::Effects::effects_of, cc_syntax::specs::Effects::place_effects_of))]
    pub fn is_pure(self, e: &Expr, later: &[u32]) -> bool
        requires { AreKept self.func.now self.registers.now }
        ensures { result ≡ (effects_of self.entry.func.now e.now).pure (among later.now) }
    {
        match e {
            Expr::Const(_, _) | Expr::Null(_) | Expr::FuncAddr(_) => true,
            Expr::Load(a) => self.is_soft(a.get(), later),
            Expr::AddrOf(a) => self.is_pure_place(a.get(), later),
            Expr::Un(_, _, a) | Expr::Conv(_, a) | Expr::Qualify(_, a) => self.is_pure(
                a.get(),
                later,
            ),
            Expr::Bin(_, _, a, b)
            | Expr::Move(a, b, _)
            | Expr::Gap(a, b)
            | Expr::Compare(_, a, b)
            | Expr::Both(a, b)
            | Expr::Either(a, b) => self.is_pure(a.get(), later) && self.is_pure(b.get(), later),
            Expr::Choose(c, a, b) => self.is_pure(c.get(), later)
                && self.is_pure(a.get(), later)
                && self.is_pure(b.get(), later),
            Expr::Assign(_, _) | Expr::Change(_, _, _, _) | Expr::After(_, _) => false,
            Expr::Call(_, _) | Expr::Intr(_, _) | Expr::Seq(_, _) => false,
        }
    }

    /// Whether the operands of a place are pure.
    #[cycle(pure)]
    #[tactic(auto, unfolding(cc_syntax::specs::Effects::effects_of, cc_syntax::specs::Effects::place_effects_of))]
    fn is_pure_place(self, a: &Place, later: &[u32]) -> bool
        requires { AreKept self.func.now self.registers.now }
        ensures { result ≡ (place_effects_of self.entry.func.now a.now).pure (among later.now) }
    {
        match a {
            Place::Local(_) | Place::Static(_) | Place::Device(_) => true,
            Place::Element(a, i) => {
                self.is_pure_place(a.get(), later) && self.is_pure(i.get(), later)
            }
            Place::Member(a, _) => self.is_pure_place(a.get(), later),
            Place::Deref(e) => self.is_pure(e.get(), later),
        }
    }

    /// Puts the register that a place is, if it is one, behind others.
    fn put_register(self, a: &Place, out: &mut Vec<u32>) -> Result<(), NoMemory>
        requires { AreKept self.func.now self.registers.now }
        ensures { OnOk result (out.new.items ≡ out.old.items ++ listed (place_effects_of self.entry.func.now a.now).register) }
    {
        match self.register_of(a) {
            None => Ok(()),
            Some(r) => Ok(out.push(r)?),
        }
    }

    /// Puts the registers that an expression assigns behind others.
    #[cycle(assigns)]
    #[tactic(auto, using(std::proofs::lemmas::Grind::common_steps), unfolding(crate::specs::Assigned::registers_in, crate::specs::Assigned::place_registers_in))]
    fn put_registers(self, e: &Expr, out: &mut Vec<u32>) -> Result<(), NoMemory>
        requires { AreKept self.func.now self.registers.now }
        ensures { OnOk result (out.new.items ≡ out.old.items ++ registers_in self.entry.func.now e.now) }
    {
        match e {
            Expr::Const(_, _) | Expr::Null(_) | Expr::FuncAddr(_) => Ok(()),
            Expr::Load(a) | Expr::AddrOf(a) => self.put_place(a.get(), out),
            Expr::Un(_, _, a) | Expr::Conv(_, a) | Expr::Qualify(_, a) => {
                self.put_registers(a.get(), out)
            }
            Expr::Bin(_, _, a, b)
            | Expr::Move(a, b, _)
            | Expr::Gap(a, b)
            | Expr::Compare(_, a, b)
            | Expr::Both(a, b)
            | Expr::Either(a, b)
            | Expr::Seq(a, b) => {
                self.put_registers(a.get(), out)?;
                self.put_registers(b.get(), out)
            }
            Expr::Choose(c, a, b) => {
                self.put_registers(c.get(), out)?;
                self.put_registers(a.get(), out)?;
                self.put_registers(b.get(), out)
            }
            Expr::Assign(a, e) | Expr::Change(a, _, _, e) => {
                self.put_register(a.get(), out)?;
                self.put_place(a.get(), out)?;
                self.put_registers(e.get(), out)
            }
            Expr::After(a, _) => {
                self.put_register(a.get(), out)?;
                self.put_place(a.get(), out)
            }
            Expr::Call(g, args) => {
                self.put_registers(g.get(), out)?;
                self.put_all_registers(args.all(), out)
            }
            Expr::Intr(_, None) => Ok(()),
            Expr::Intr(_, Some(a)) => self.put_registers(a.get(), out),
        }
    }

    /// Puts the registers that the operands of a place assign behind others.
    #[cycle(assigns)]
    #[tactic(auto, using(std::proofs::lemmas::Grind::common_steps), unfolding(crate::specs::Assigned::registers_in, crate::specs::Assigned::place_registers_in))]
    fn put_place(self, a: &Place, out: &mut Vec<u32>) -> Result<(), NoMemory>
        requires { AreKept self.func.now self.registers.now }
        ensures { OnOk result (out.new.items ≡ out.old.items ++ (place_registers_in self.entry.func.now a.now).inside) }
    {
        match a {
            Place::Local(_) | Place::Static(_) | Place::Device(_) => Ok(()),
            Place::Element(a, i) => {
                self.put_place(a.get(), out)?;
                self.put_registers(i.get(), out)
            }
            Place::Member(a, _) => self.put_place(a.get(), out),
            Place::Deref(e) => self.put_registers(e.get(), out),
        }
    }

    /// Puts the registers that expressions assign behind others.
    #[cycle(assigns)]
    #[tactic(auto, using(crate::proofs::AssignedLemmas::flat_rules))]
    fn put_all_registers(self, es: &[Expr], out: &mut Vec<u32>) -> Result<(), NoMemory>
        requires { AreKept self.func.now self.registers.now }
        ensures { OnOk result (out.new.items ≡ out.old.items ++ flat_map (registers_in self.entry.func.now) es.now) }
    {
        for e in es {
            self.put_registers(e, out)?;
        }
        Ok(())
    }

    /// The registers that an operand or later ones assign.
    #[tactic(auto, using(crate::proofs::AssignedLemmas::assigned_rules))]
    pub fn with(self, e: &Expr, later: &[u32]) -> Result<Vec<u32>, NoMemory>
        requires { AreKept self.func.now self.registers.now }
        ensures { IfOk result (λ v. among v.items ≡ also (effects_of self.entry.func.now e.now).assigned (among later.now)) }
    {
        let mut all = Vec::from_slice(self.alloc, later)?;
        self.put_registers(e, &mut all)?;
        Ok(all)
    }

    /// The registers that operands or later ones assign.
    #[tactic(auto, using(crate::proofs::AssignedLemmas::assigned_rules))]
    pub fn with_all(self, es: &[Expr], later: &[u32]) -> Result<Vec<u32>, NoMemory>
        requires { AreKept self.func.now self.registers.now }
        ensures { IfOk result (λ v. among v.items ≡ also (all_assigned (map (effects_of self.entry.func.now) es.now)) (among later.now)) }
    {
        let mut all = Vec::from_slice(self.alloc, later)?;
        self.put_all_registers(es, &mut all)?;
        Ok(all)
    }
}
