//! The locals whose addresses are taken in statements.

ghost use Rattle.std.specs.Prelude.{◌≡◌, ◌++◌, OnOk};
ghost use Rattle.std.specs.List.{flat_map};
ghost use Rattle.cc_program.specs.declared.stmt.Case.{out-Case};
ghost use Rattle.cc_registers.specs.Taken.{taken_by, taken_by_all};

use crate::expressions::{put_taken, put_taken_if};
use cc_program::num::{List, NoMemory};
use cc_program::{Case, Stmt};

/// Puts the locals whose addresses are taken in a statement behind others.
#[cycle(statements)]
#[tactic(auto, using(crate::proofs::Lists::stmt_rules, std::proofs::lemmas::Grind::common_steps))]
fn put_stmt(s: &Stmt, out: &mut Vec<u32>) -> Result<(), NoMemory>
    ensures { OnOk result (out.new.items ≡ out.old.items ++ taken_by s.now) }
{
    match s {
        Stmt::Do(e) => put_taken(e.get(), out),
        Stmt::If(e, a, b) => {
            put_taken(e.get(), out)?;
            put_list(a, out)?;
            put_list(b, out)
        }
        Stmt::While(e, a) => {
            put_taken(e.get(), out)?;
            put_list(a, out)
        }
        Stmt::DoWhile(a, e) => {
            put_list(a, out)?;
            put_taken(e.get(), out)
        }
        Stmt::For(first, test, step, a) => {
            put_taken_if(first, out)?;
            put_taken_if(test, out)?;
            put_taken_if(step, out)?;
            put_list(a, out)
        }
        Stmt::Switch(e, cases) => {
            put_taken(e.get(), out)?;
            put_cases(cases, out)
        }
        Stmt::Return(e) => put_taken_if(e, out),
        Stmt::Block(a) => put_list(a, out),
        Stmt::Break | Stmt::Continue | Stmt::Empty => Ok(()),
    }
}

/// Puts the locals whose addresses are taken in statements behind others.
#[cycle(statements)]
#[tactic(auto, using(crate::proofs::Lists::list_rules))]
pub fn put_list(list: &List<Stmt>, out: &mut Vec<u32>) -> Result<(), NoMemory>
    ensures { OnOk result (out.new.items ≡ out.old.items ++ taken_by_all list.now) }
{
    for s in list.all() {
        put_stmt(s, out)?;
    }
    Ok(())
}

#[cycle(statements)]
#[tactic(auto, using(crate::proofs::Lists::list_rules))]
fn put_cases(cases: &List<Case>, out: &mut Vec<u32>) -> Result<(), NoMemory>
    ensures { OnOk result (out.new.items ≡ out.old.items ++ flat_map (λ c. taken_by_all (out-Case c).body) cases.now) }
{
    for case in cases.all() {
        put_list(&case.body, out)?;
    }
    Ok(())
}
