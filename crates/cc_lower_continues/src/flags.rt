//! The statements that a `do` with a flag becomes.

ghost use Rattle.std.specs.Prelude.{◌≡◌, ◌∷◌, [], IfOk};
ghost use Rattle.cc_lower_continues.specs.Continues.{assign_flag as assign_flag_of, read_flag as read_flag_of, leave_unless as leave_unless_of, test_but_first as test_but_first_of, flagged_do as flagged_do_of};

use cc_program::num::{Boxed, IntType, List, NoMemory};
use cc_program::{Expr, Place, Stmt};
use std::alloc::Global;

#[tactic(auto, using(crate::proofs::CodeEquations::made_statements))]
fn assign_flag(alloc: Global, flag: u32, value: u8) -> Result<Stmt, NoMemory>
    ensures { IfOk result (λ s. s ≡ assign_flag_of flag value) }
{
    let place = Boxed::new(alloc, Place::Local(flag))?;
    let value = Boxed::new(alloc, Expr::Const(i128::from(value), IntType::UChar))?;
    Ok(Stmt::Do(Boxed::new(alloc, Expr::Assign(place, value))?))
}

#[tactic(auto, using(crate::proofs::CodeEquations::made_statements))]
fn read_flag(alloc: Global, flag: u32) -> Result<Expr, NoMemory>
    ensures { IfOk result (λ e. e ≡ read_flag_of flag) }
{
    Ok(Expr::Load(Boxed::new(alloc, Place::Local(flag))?))
}

/// One statement in a list of its own.
fn alone(alloc: Global, s: Stmt) -> Result<Vec<Stmt>, NoMemory>
    ensures { IfOk result (λ v. v.items ≡ s ∷ []) }
{
    let mut list = Vec::new(alloc);
    list.push(s)?;
    Ok(list)
}

/// Out of the loop where the test fails.
#[tactic(auto, using(crate::proofs::CodeEquations::made_statements))]
fn leave_unless(alloc: Global, e: &Expr) -> Result<Stmt, NoMemory>
    ensures { IfOk result (λ s. s ≡ leave_unless_of e.now) }
{
    let leaving = alone(alloc, Stmt::Break)?;
    Ok(Stmt::If(
        Boxed::new(alloc, e.copy(alloc)?)?,
        List::of(Vec::new(alloc)),
        List::of(leaving),
    ))
}

/// The test, but in the first turn.
#[tactic(auto, using(crate::proofs::CodeEquations::made_statements))]
fn test_but_first(alloc: Global, flag: u32, e: &Expr) -> Result<Stmt, NoMemory>
    ensures { IfOk result (λ s. s ≡ test_but_first_of flag e.now) }
{
    let cleared = alone(alloc, assign_flag(alloc, flag, 0)?)?;
    let tested = alone(alloc, leave_unless(alloc, e)?)?;
    Ok(Stmt::If(
        Boxed::new(alloc, read_flag(alloc, flag)?)?,
        List::of(cleared),
        List::of(tested),
    ))
}

/// A `do` with a flag; its body stands behind `turn`.
#[tactic(auto, using(crate::proofs::CodeEquations::made_statements))]
pub fn flagged_do(alloc: Global, flag: u32, e: &Expr, body: Vec<Stmt>) -> Result<Stmt, NoMemory>
    ensures { IfOk result (λ s. s ≡ flagged_do_of flag e.now body.items) }
{
    let mut turn = alone(alloc, test_but_first(alloc, flag, e)?)?;
    for s in body {
        turn.push(s)?;
    }
    let mut list = alone(alloc, assign_flag(alloc, flag, 1)?)?;
    list.push(Stmt::While(
        Boxed::new(alloc, Expr::Const(1, IntType::Int))?,
        List::of(turn),
    ))?;
    Ok(Stmt::Block(List::of(list)))
}
