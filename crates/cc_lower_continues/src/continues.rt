//! Which statements have a `continue` of the loop around them.

ghost use Rattle.std.specs.Prelude.{◌≡◌, map};
ghost use Rattle.cc_lower_continues.specs.Continues.{any_continues, any_case_continues, flagging, case_flagging};

use cc_program::num::List;
use cc_program::{Case, Stmt};

#[cycle(continues)]
#[tactic(auto, using(crate::proofs::CodeEquations::continues_rules))]
fn continues(s: &Stmt) -> bool
    ensures { result ≡ (flagging s.now).continues }
{
    match s {
        Stmt::If(_, these, those) => list_continues(these) || list_continues(those),
        Stmt::Switch(_, cases) => cases_continue(cases),
        Stmt::Continue => true,
        Stmt::Block(body) => list_continues(body),
        Stmt::Do(_)
        | Stmt::While(_, _)
        | Stmt::DoWhile(_, _)
        | Stmt::For(_, _, _, _)
        | Stmt::Break
        | Stmt::Return(_)
        | Stmt::Empty => false,
    }
}

/// Whether one of the statements has a `continue` of the loop around them.
#[cycle(continues)]
#[tactic(auto, using(crate::proofs::CodeEquations::list_rules))]
pub fn list_continues(list: &List<Stmt>) -> bool
    ensures { result ≡ any_continues (map flagging list.now) }
{
    let mut found = false;
    for s in list.all() {
        found = found || continues(s);
    }
    found
}

#[cycle(continues)]
#[tactic(auto, using(crate::proofs::CodeEquations::list_rules))]
fn cases_continue(cases: &List<Case>) -> bool
    ensures { result ≡ any_case_continues (map case_flagging cases.now) }
{
    let mut found = false;
    for case in cases.all() {
        found = found || case_continues(case);
    }
    found
}

#[cycle(continues)]
#[tactic(auto, using(crate::proofs::CodeEquations::case_rules))]
fn case_continues(case: &Case) -> bool
    ensures { result ≡ (case_flagging case.now).continues }
{
    list_continues(&case.body)
}
