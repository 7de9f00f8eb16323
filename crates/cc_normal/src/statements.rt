//! Statements in normal form.

ghost use Rattle.std.specs.Prelude.{◌≡◌, map};
ghost use Rattle.std.specs.List.{list_all};
ghost use Rattle.cc_program.specs.declared.stmt.Case.{out-Case};
ghost use Rattle.cc_normal.specs.Kept.{AreKept};
ghost use Rattle.cc_syntax.specs.Forms.{form_of};
ghost use Rattle.cc_syntax.specs.Normal.{is_operand as is_operand_of, is_callee as is_callee_of, is_call as is_call_of, is_place_read as is_place_read_of, is_assignment as is_assignment_of, is_expression_statement as is_expression_statement_of, is_one as is_one_of, is_normal_stmt as is_normal_stmt_of};

use crate::pure::Body;
use cc_program::num::{IntType, List};
use cc_syntax::{Case, Expr, Place, Stmt};
use cc_typed::same_int;

/// Whether an expression is the constant 1 of type int.
fn is_one(e: &Expr) -> bool
    ensures { result ≡ is_one_of (form_of e.now) }
{
    match e {
        Expr::Const(n, t) => *n == 1 && same_int(*t, IntType::Int),
        _ => false,
    }
}

impl<'p> Body<'p> {
    fn are_operands(self, args: &[Expr]) -> bool
        requires { AreKept self.func.now self.kept.now }
        ensures { result ≡ list_all (is_operand_of self.entry.target.now self.entry.func.now) args.now }
    {
        args.iter().all(|arg| self.is_operand(arg))
    }

    /// Whether what is called is a function or a register.
    fn is_callee(self, f: &Expr) -> bool
        requires { AreKept self.func.now self.kept.now }
        ensures { result ≡ is_callee_of self.entry.target.now self.entry.func.now (form_of f.now) }
    {
        match f {
            Expr::FuncAddr(_) => true,
            Expr::Load(a) => self.is_register_place(a.get()),
            _ => false,
        }
    }

    /// Whether it is a call whose arguments are operands, or an intrinsic.
    fn is_call(self, e: &Expr) -> bool
        requires { AreKept self.func.now self.kept.now }
        ensures { result ≡ is_call_of self.entry.target.now self.entry.func.now (form_of e.now) }
    {
        match e {
            Expr::Call(f, args) => self.is_callee(f.get()) && self.are_operands(args.all()),
            Expr::Intr(_, None) => true,
            Expr::Intr(_, Some(a)) => self.is_operand(a.get()),
            _ => false,
        }
    }

    /// Whether it reads a place that is no register.
    fn is_place_read(self, e: &Expr) -> bool
        requires { AreKept self.func.now self.kept.now }
        ensures { result ≡ is_place_read_of self.entry.target.now self.entry.func.now (form_of e.now) }
    {
        match e {
            Expr::Load(a) => self.is_other_place(a.get()),
            _ => false,
        }
    }

    /// Whether `a = e` is `register = operand`, `register = place`, `register = call` or `place = operand`.
    fn is_assignment(self, a: &Place, e: &Expr) -> bool
        requires { AreKept self.func.now self.kept.now }
        ensures { result ≡ is_assignment_of self.entry.target.now self.entry.func.now a.now e.now }
    {
        if self.is_register_place(a) {
            self.is_operand(e) || self.is_place_read(e) || self.is_call(e)
        } else {
            self.is_other_place(a) && self.is_operand(e)
        }
    }

    /// Whether it is such an assignment, or a call.
    fn is_expression_statement(self, e: &Expr) -> bool
        requires { AreKept self.func.now self.kept.now }
        ensures { result ≡ is_expression_statement_of self.entry.target.now self.entry.func.now (form_of e.now) }
    {
        match e {
            Expr::Assign(a, value) => self.is_assignment(a.get(), value.get()),
            _ => self.is_call(e),
        }
    }

    /// Whether a statement is in normal form.
    #[cycle(normal)]
    fn is_normal(self, s: &Stmt) -> bool
        requires { AreKept self.func.now self.kept.now }
        ensures { result ≡ is_normal_stmt_of self.entry.target.now self.entry.func.now s.now }
    {
        match s {
            Stmt::Do(e) => self.is_expression_statement(e.get()),
            Stmt::If(e, a, b) => self.is_operand(e.get())
                && self.are_normal(a)
                && self.are_normal(b),
            Stmt::While(e, a) => is_one(e.get()) && self.are_normal(a),
            Stmt::Switch(e, cases) => self.is_operand(e.get()) && self.are_normal_cases(cases),
            Stmt::Return(e) => self.is_optional_operand(e),
            Stmt::Break | Stmt::Continue => true,
            Stmt::DoWhile(_, _) => false,
            Stmt::For(_, _, _, _) => false,
            Stmt::Empty => false,
            Stmt::Block(_) => false,
        }
    }

    /// Whether each statement of the list is in normal form.
    #[cycle(normal)]
    #[tactic(auto, using(cc_typed::proofs::ListLemmas::of_all))]
    pub fn are_normal(self, list: &List<Stmt>) -> bool
        requires { AreKept self.func.now self.kept.now }
        ensures { result ≡ list_all (λ b. b) (map (is_normal_stmt_of self.entry.target.now self.entry.func.now) list.now) }
    {
        for s in list.all() {
            if !self.is_normal(s) {
                return false;
            }
        }
        true
    }

    #[cycle(normal)]
    fn are_normal_cases(self, cases: &List<Case>) -> bool
        requires { AreKept self.func.now self.kept.now }
        ensures { result ≡ list_all (λ c. list_all (λ b. b) (map (is_normal_stmt_of self.entry.target.now self.entry.func.now) (out-Case c).body)) cases.now }
    {
        for case in cases.all() {
            if !self.are_normal(&case.body) {
                return false;
            }
        }
        true
    }
}
