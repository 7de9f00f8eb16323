//! The locals whose addresses are taken in expressions.

ghost use Rattle.std.specs.Prelude.{◌≡◌, ◌++◌, OnOk};
ghost use Rattle.std.specs.List.{flat_map};
ghost use Rattle.cc_registers.specs.Taken.{listed, taken_in, taken_if, place_taken_in};

use cc_program::num::{Boxed, NoMemory};
use cc_program::{Expr, Place};

/// Puts the local that a place is, if it is one, behind others.
#[tactic(auto, unfolding(crate::specs::Taken::place_taken_in))]
fn put_local(a: &Place, out: &mut Vec<u32>) -> Result<(), NoMemory>
    ensures { OnOk result (out.new.items ≡ out.old.items ++ listed (place_taken_in a.now).local) }
{
    match a {
        Place::Local(r) => Ok(out.push(*r)?),
        _ => Ok(()),
    }
}

/// Puts the locals whose addresses are taken in an expression behind others.
#[cycle(taken)]
#[tactic(auto, using(std::proofs::lemmas::Grind::common_steps), unfolding(crate::specs::Taken::taken_in, crate::specs::Taken::place_taken_in))]
pub fn put_taken(e: &Expr, out: &mut Vec<u32>) -> Result<(), NoMemory>
    ensures { OnOk result (out.new.items ≡ out.old.items ++ taken_in e.now) }
{
    match e {
        Expr::Const(_, _) | Expr::Null(_) | Expr::FuncAddr(_) => Ok(()),
        Expr::Load(a) | Expr::After(a, _) => put_place(a.get(), out),
        Expr::AddrOf(a) => {
            put_local(a.get(), out)?;
            put_place(a.get(), out)
        }
        Expr::Un(_, _, a) | Expr::Conv(_, a) | Expr::Qualify(_, a) => put_taken(a.get(), out),
        Expr::Bin(_, _, a, b)
        | Expr::Move(a, b, _)
        | Expr::Gap(a, b)
        | Expr::Compare(_, a, b)
        | Expr::Both(a, b)
        | Expr::Either(a, b)
        | Expr::Seq(a, b) => {
            put_taken(a.get(), out)?;
            put_taken(b.get(), out)
        }
        Expr::Choose(c, a, b) => {
            put_taken(c.get(), out)?;
            put_taken(a.get(), out)?;
            put_taken(b.get(), out)
        }
        Expr::Assign(a, e) | Expr::Change(a, _, _, e) => {
            put_place(a.get(), out)?;
            put_taken(e.get(), out)
        }
        Expr::Call(g, args) => {
            put_taken(g.get(), out)?;
            put_all_taken(args.all(), out)
        }
        Expr::Intr(_, None) => Ok(()),
        Expr::Intr(_, Some(a)) => put_taken(a.get(), out),
    }
}

/// Puts the locals whose addresses are taken in the operands of a place behind others.
#[cycle(taken)]
#[tactic(auto, using(std::proofs::lemmas::Grind::common_steps), unfolding(crate::specs::Taken::taken_in, crate::specs::Taken::place_taken_in))]
fn put_place(a: &Place, out: &mut Vec<u32>) -> Result<(), NoMemory>
    ensures { OnOk result (out.new.items ≡ out.old.items ++ (place_taken_in a.now).inside) }
{
    match a {
        Place::Local(_) | Place::Static(_) | Place::Device(_) => Ok(()),
        Place::Element(a, i) => {
            put_place(a.get(), out)?;
            put_taken(i.get(), out)
        }
        Place::Member(a, _) => put_place(a.get(), out),
        Place::Deref(e) => put_taken(e.get(), out),
    }
}

/// Puts the locals whose addresses are taken in expressions behind others.
#[cycle(taken)]
#[tactic(auto, using(crate::proofs::Lists::flat_rules))]
fn put_all_taken(es: &[Expr], out: &mut Vec<u32>) -> Result<(), NoMemory>
    ensures { OnOk result (out.new.items ≡ out.old.items ++ flat_map taken_in es.now) }
{
    for e in es {
        put_taken(e, out)?;
    }
    Ok(())
}

/// Puts the locals whose addresses are taken in an expression that may be missing behind others.
#[tactic(auto, using(std::proofs::lemmas::Grind::common_steps))]
pub fn put_taken_if(e: &Option<Boxed<Expr>>, out: &mut Vec<u32>) -> Result<(), NoMemory>
    ensures { OnOk result (out.new.items ≡ out.old.items ++ taken_if e.now) }
{
    match e {
        None => Ok(()),
        Some(e) => put_taken(e.get(), out),
    }
}
