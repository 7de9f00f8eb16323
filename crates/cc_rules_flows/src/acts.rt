//! What a statement in normal form does at its point.

ghost use Rattle.std.specs.Prelude.{◌≡◌, option_copied};
ghost use Rattle.cc_program.specs.declared.expr.Expr.{out-Expr};
ghost use Rattle.cc_state_reads.specs.CcRegisters.Kept.{AreKept};
ghost use Rattle.cc_rules_flows.specs.Acts.{act_of as act_of_stmt, does, gets, assigns as assigned, intrinsic as intrinsic_of};
ghost use Rattle.cc_rules_flows.specs.View.{act_view};
ghost use Rattle.cc_syntax.specs.Effects.{place_effects_of};
ghost use Rattle.cc_syntax.specs.Registers.{is_register as is_register_of};

use cc_program::num::{Boxed, at};
use cc_program::{Case, Expr, Func, Intr, Place, Stmt};

/// What a statement in normal form does.
#[derive(Clone, Copy)]
pub enum Act<'p> {
    /// A register gets an operand.
    Sets(u32, &'p Expr),
    /// A register gets what a place holds.
    Reads(u32, &'p Place),
    /// A place gets an operand.
    Writes(&'p Place, &'p Expr),
    /// A function is called, and a register may get the result.
    Calls(Option<u32>, &'p Expr, &'p [Expr]),
    /// The flag is cleared, and a register may get what it was.
    Saves(Option<u32>),
    /// The flag is set, or cleared.
    Turns(bool),
    /// The flag is set where the operand is not 0, else it is cleared.
    Restores(&'p Expr),
    /// An `if`.
    Tests(&'p Expr, &'p [Stmt], &'p [Stmt]),
    /// A `switch`.
    Chooses(&'p Expr, &'p [Case]),
    /// A return.
    Returns(Option<&'p Expr>),
    /// Control goes on: a loop, `break` or `continue`.
    Passes,
}

/// The operand of a statement, where it has one.
fn operand_of(operand: &Option<Boxed<Expr>>) -> Option<&Expr>
    ensures { option_copied result ≡ operand.now }
{
    match operand {
        None => None,
        Some(e) => Some(e.get()),
    }
}

/// What a call of an intrinsic does, where this register gets its result.
fn intrinsic<'p>(register: Option<u32>, i: Intr, operand: &'p Option<Boxed<Expr>>) -> Act<'p>
    ensures { act_view result ≡ intrinsic_of register i operand.now }
{
    match i {
        Intr::Off => Act::Turns(false),
        Intr::On => Act::Turns(true),
        Intr::Save => Act::Saves(register),
        Intr::Restore => match operand {
            None => Act::Passes,
            Some(e) => Act::Restores(e.get()),
        },
    }
}

/// A function and its registers.
#[derive(Clone, Copy)]
pub struct Body<'p> {
    pub func: &'p Func,
    /// Of each local, whether it is a register.
    pub kept: &'p [bool],
}

impl<'p> Body<'p> {
    /// Whether a local is a register.
    fn is_register(self, local: u32) -> bool
        requires { AreKept self.func.now self.kept.now }
        ensures { result ≡ is_register_of self.entry.func.now local }
    {
        match at(self.kept, local as usize) {
            None => false,
            Some(is) => *is,
        }
    }

    /// The register that a place is, if it is one.
    #[tactic(auto, unfolding(cc_syntax::specs::Effects::place_effects_of))]
    fn register_in(self, a: &Place) -> Option<u32>
        requires { AreKept self.func.now self.kept.now }
        ensures { result ≡ (place_effects_of self.entry.func.now a.now).register }
    {
        match a {
            Place::Local(r) => { if self.is_register(*r) { Some(*r) } else { None } }
            _ => None,
        }
    }

    /// What an assignment to a register does.
    fn gets(self, r: u32, e: &'p Expr) -> Act<'p>
        requires { AreKept self.func.now self.kept.now }
        ensures { act_view result ≡ gets self.entry.func.now r e.now (out-Expr e.now) }
    {
        match e {
            Expr::Load(a) => match self.register_in(a.get()) {
                None => Act::Reads(r, a.get()),
                Some(_) => Act::Sets(r, e),
            },
            Expr::Call(g, args) => Act::Calls(Some(r), g.get(), args.all()),
            Expr::Intr(i, operand) => intrinsic(Some(r), *i, operand),
            _ => Act::Sets(r, e),
        }
    }

    /// What an expression statement does.
    fn does(self, e: &'p Expr) -> Act<'p>
        requires { AreKept self.func.now self.kept.now }
        ensures { act_view result ≡ does self.entry.func.now (out-Expr e.now) }
    {
        match e {
            Expr::Assign(a, e) => match self.register_in(a.get()) {
                None => Act::Writes(a.get(), e.get()),
                Some(r) => self.gets(r, e.get()),
            },
            Expr::Call(g, args) => Act::Calls(None, g.get(), args.all()),
            Expr::Intr(i, operand) => intrinsic(None, *i, operand),
            _ => Act::Passes,
        }
    }

    /// What a statement does.
    pub fn act_of(self, s: &'p Stmt) -> Act<'p>
        requires { AreKept self.func.now self.kept.now }
        ensures { act_view result ≡ act_of_stmt self.entry.func.now s.now }
    {
        match s {
            Stmt::Do(e) => self.does(e.get()),
            Stmt::If(e, these, those) => Act::Tests(e.get(), these.all(), those.all()),
            Stmt::Switch(e, cases) => Act::Chooses(e.get(), cases.all()),
            Stmt::Return(e) => Act::Returns(operand_of(e)),
            _ => Act::Passes,
        }
    }
}
