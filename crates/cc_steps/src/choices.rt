//! Where an activation goes on once the value of a full expression is known.

ghost use Rattle.std.specs.Prelude.{◌≡◌, ◌∷◌, IfOk, option_map};
ghost use Rattle.std.specs.List.{list_any};
ghost use Rattle.std.specs.Option.{option_copied, option_or};
ghost use Rattle.cc_program.specs.declared.stmt.Stmt.{out-Stmt};
ghost use Rattle.cc_control.specs.Control.{around_list as around_list_of, from_label, is_label, is_default};
ghost use Rattle.cc_control.specs.View.{level_of, levels_of, control_of, counted_at, found_of};
ghost use Rattle.cc_steps.specs.Step.{number_in as number_in_of, looped as looped_of, switched as switched_of, is_passed as is_passed_of, next_place as next_place_of, is_return as is_return_of, worked as worked_of};
ghost use Rattle.cc_steps.specs.View.{active_of};

use crate::activation::Activation;
use cc_control::{
    Control, Left, Level, Phase, arm, around_list, behind, broken, by_default, by_label, close,
    continued,
};
use cc_eval::values::is_true;
use cc_program::num::{Boxed, List, NoMemory};
use cc_program::{Case, Expr, Stmt, Value};
use std::alloc::Global;

/// The expression in a box, where there is one.
pub fn expression_in(e: &Option<Boxed<Expr>>) -> Option<&Expr>
    ensures { option_copied result ≡ e.now }
{
    match e {
        None => None,
        Some(e) => Some(e.get()),
    }
}

/// The full expression that is worked in a statement.
pub fn worked(s: &Stmt, phase: Phase) -> Option<&Expr>
    ensures { option_copied result ≡ worked_of (out-Stmt s.now) phase }
{
    match s {
        Stmt::Do(e) => Some(e.get()),
        Stmt::If(e, _, _) => Some(e.get()),
        Stmt::While(e, _) => Some(e.get()),
        Stmt::DoWhile(_, e) => Some(e.get()),
        Stmt::For(first, test, again, _) => match phase {
            Phase::First => expression_in(first),
            Phase::Test => expression_in(test),
            Phase::Again => expression_in(again),
        },
        Stmt::Switch(e, _) => Some(e.get()),
        Stmt::Return(e) => expression_in(e),
        _ => None,
    }
}

pub fn is_return(s: &Stmt) -> bool
    ensures { result ≡ is_return_of (out-Stmt s.now) }
{
    matches!(s, Stmt::Return(_))
}

/// The number that a value is; 0 for an address.
pub fn number_in(v: &Value) -> i128
    ensures { result ≡ number_in_of v.now }
{
    match v {
        Value::Int(n) => *n,
        Value::Place(_) => 0,
    }
}

/// Whether the test of a `for` goes on: one that is missing does (C99 6.8.5.3, 2).
fn is_passed(test: Option<&Expr>, v: &Value) -> bool
    ensures { result ≡ is_passed_of (option_copied test.entry) v.now }
{
    match test {
        None => true,
        Some(_) => is_true(v),
    }
}

/// The cases from which a `switch` goes on, and how many statements stand before them: those with the value's label, else
/// those with `default` (C99 6.8.4.2).
#[tactic(auto, using(crate::proofs::SwitchLemmas::of_labels))]
fn found<'p>(v: &Value, cases: &'p [Case]) -> Option<(u32, &'p [Case])>
    ensures { option_map found_of result ≡ option_map counted_at (option_or (from_label (list_any (is_label (number_in_of v.now))) 0 cases.now) (from_label (list_any is_default) 0 cases.now)) }
{
    match by_label(number_in(v), cases) {
        Some(found) => Some(found),
        None => by_default(cases),
    }
}

impl<'p> Activation<'p> {
    /// The levels around a list inside the present statement.
    #[tactic(auto, using(cc_control::proofs::LevelLemmas::of_levels))]
    fn inside(&self, alloc: Global) -> Result<Vec<Level<'p>>, NoMemory>
        ensures { IfOk result (λ v. levels_of v.items ≡ around_list_of (level_of self.now.here) ∷ levels_of self.now.around.items) }
    {
        let mut levels = Vec::from_slice(alloc, &self.around)?;
        levels.push(around_list(self.here))?;
        Ok(levels)
    }

    /// A turn of a loop, or what stands behind it.
    fn looped(
        &self,
        alloc: Global,
        goes_on: bool,
        body: &'p List<Stmt>,
    ) -> Result<Control<'p>, NoMemory>
        ensures { IfOk result (λ c. control_of c ≡ looped_of goes_on body.now (active_of self.now)) }
    {
        if goes_on {
            let list = body.all();
            close(alloc, Left { list, cases: &[] }, 0, &self.inside(alloc)?)
        } else {
            behind(alloc, self.here, &self.around)
        }
    }

    /// From a case of a `switch` on.
    #[tactic(auto, using(crate::proofs::SwitchLemmas::of_cases))]
    fn switched(
        &self,
        alloc: Global,
        v: &Value,
        cases: &'p List<Case>,
    ) -> Result<Control<'p>, NoMemory>
        ensures { IfOk result (λ c. control_of c ≡ switched_of (active_of self.now) (number_in_of v.now) cases.now) }
    {
        match found(v, cases.all()) {
            None => behind(alloc, self.here, &self.around),
            Some((position, cases)) => {
                let left = Left { list: &[], cases };
                close(alloc, left, position, &self.inside(alloc)?)
            }
        }
    }

    /// Where the present statement goes on once the value of its full expression is known.
    pub(crate) fn next_place(
        &self,
        alloc: Global,
        s: &'p Stmt,
        v: &Value,
    ) -> Result<Control<'p>, NoMemory>
        ensures { IfOk result (λ c. control_of c ≡ next_place_of (out-Stmt s.now) (active_of self.now) v.now) }
    {
        match s {
            Stmt::If(_, these, those) => {
                arm(alloc, is_true(v), these, those, &self.inside(alloc)?)
            }
            Stmt::While(_, body) => self.looped(alloc, is_true(v), body),
            Stmt::DoWhile(body, _) => self.looped(alloc, is_true(v), body),
            Stmt::For(_, test, _, body) => {
                self.looped(alloc, is_passed(expression_in(test), v), body)
            }
            Stmt::Switch(_, cases) => self.switched(alloc, v, cases),
            Stmt::Break => broken(alloc, &self.around),
            Stmt::Continue => continued(alloc, &self.around),
            _ => behind(alloc, self.here, &self.around),
        }
    }
}
