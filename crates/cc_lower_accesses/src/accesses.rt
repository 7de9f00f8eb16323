//! Reads, writes and changes of places whose operands are lowered, and what is left of one operand or two.

ghost use Rattle.std.specs.Prelude.{◌≡◌, ◌++◌, ◌∷◌, [], length, IfOk, OnOk, option_map};
ghost use Rattle.cc_lower_accesses.specs.Assigned.{among};
ghost use Rattle.cc_registers.specs.Kept.{AreKept};
ghost use Rattle.cc_lower_accesses.specs.Modes.{as_locals, one_of, two_of, read_of, right_of, whole_read_of, new_of, changed_of, change_of, stepped_of, step_value_of, step_of, callee_of};
ghost use Rattle.cc_syntax.specs.Sizes.{AreSized};
ghost use Rattle.cc_eval.specs.CcTyped.View.{value_view};
ghost use Rattle.cc_lower_expressions.specs.Expressions.{set as set_of, unused as unused_of, is_callee as is_callee_of, is_idle as is_idle_of};
ghost use Rattle.cc_program.specs.declared.expr.Expr.{out-Expr};
ghost use Rattle.cc_syntax.specs.Forms.{form_of};
ghost use Rattle.cc_syntax.specs.Programs.{type_of as type_of_of};

use crate::body::Body;
use crate::folded::sum_or_difference;
use crate::temporaries::{assign, fresh, into, is_same_type, load, set};
use cc_eval::typed::ValueType;
use cc_program::num::{BinOp, Boxed, IntType, List, Name, NoMemory};
use cc_program::{CType, Expr, Place, Stmt};

/// Whether nothing is left of a value that nobody uses.
fn is_idle(e: &Expr) -> bool
    ensures { result ≡ is_idle_of (out-Expr e.now) }
{
    match e {
        Expr::Const(_, _) => true,
        Expr::Null(_) => true,
        _ => false,
    }
}

impl<'p> Body<'p> {
    /// An operator over what its operand became.
    #[tactic(auto, unfolding(crate::specs::Modes::one_of))]
    pub fn with_one(self, e: &Expr, x: Expr) -> Result<Expr, NoMemory>
        ensures { IfOk result (λ r. r ≡ one_of self.entry.program.now self.entry.func.now e.now x) }
    {
        match e {
            Expr::Un(op, t, _) => self.folded_un(*op, *t, x),
            Expr::Conv(t, _) => self.folded_conv(*t, x),
            Expr::Qualify(t, _) => {
                let t = Boxed::new(self.alloc, t.get().copy(self.alloc)?)?;
                Ok(Expr::Qualify(t, Boxed::new(self.alloc, x)?))
            }
            _ => Ok(x),
        }
    }

    fn moved(self, x: Expr, y: Expr, back: bool) -> Result<Expr, NoMemory>
        ensures { IfOk result (λ r. r ≡ Expr.Move x y back) }
    {
        let x = Boxed::new(self.alloc, x)?;
        Ok(Expr::Move(x, Boxed::new(self.alloc, y)?, back))
    }

    fn gap(self, x: Expr, y: Expr) -> Result<Expr, NoMemory>
        ensures { IfOk result (λ r. r ≡ Expr.Gap x y) }
    {
        let x = Boxed::new(self.alloc, x)?;
        Ok(Expr::Gap(x, Boxed::new(self.alloc, y)?))
    }

    fn compared(self, op: BinOp, x: Expr, y: Expr) -> Result<Expr, NoMemory>
        ensures { IfOk result (λ r. r ≡ Expr.Compare op x y) }
    {
        let x = Boxed::new(self.alloc, x)?;
        Ok(Expr::Compare(op, x, Boxed::new(self.alloc, y)?))
    }

    /// An operator over what its operands became.
    #[tactic(auto, unfolding(crate::specs::Modes::two_of))]
    pub fn with_two(self, e: &Expr, x: Expr, y: Expr) -> Result<Expr, NoMemory>
        ensures { IfOk result (λ r. r ≡ two_of self.entry.program.now self.entry.func.now e.now x y) }
    {
        match e {
            Expr::Bin(op, t, _, _) => self.folded_bin(*op, *t, x, y),
            Expr::Move(_, _, back) => self.moved(x, y, *back),
            Expr::Gap(_, _) => self.gap(x, y),
            Expr::Compare(op, _, _) => self.compared(*op, x, y),
            _ => Ok(x),
        }
    }

    /// The value of a place: a register that no later operand assigns is read where it stands.
    #[tactic(auto, using(crate::proofs::AccessRules::access_rules, crate::proofs::AccessRules::locals_rules))]
    pub fn read_at(
        self,
        a: &'p Place,
        b: Place,
        later: &[u32],
        locals: &mut Vec<(Name, CType)>,
        out: &mut Vec<Stmt>,
    ) -> Result<Expr, NoMemory>
        requires sized { AreSized self.program.now.structures self.program.now.target }
        requires kept { AreKept self.func.now self.registers.now }
        ensures value { IfOk result (λ v. v ≡ (read_of self.entry.program.now self.entry.func.now a.now (among later.now) b (length locals.old.items)).value) }
        ensures locals { OnOk result (locals.new.items ≡ locals.old.items ++ as_locals (read_of self.entry.program.now self.entry.func.now a.now (among later.now) b (length locals.old.items)).temps) }
        ensures statements { OnOk result (out.new.items ≡ out.old.items ++ (read_of self.entry.program.now self.entry.func.now a.now (among later.now) b (length locals.old.items)).stmts) }
    {
        let read = Expr::Load(Boxed::new(self.alloc, b)?);
        if self.is_soft(a, later) {
            return Ok(read);
        }
        into(self.alloc, self.value_of(a), read, locals, out)
    }

    /// A right side in a statement of its own, which a register of its type takes.
    #[tactic(auto, using(crate::proofs::AccessRules::access_rules, crate::proofs::AccessRules::locals_rules))]
    pub fn whole_right(
        self,
        own: Option<ValueType>,
        e: Expr,
        t: Option<ValueType>,
        register: u32,
        locals: &mut Vec<(Name, CType)>,
        out: &mut Vec<Stmt>,
    ) -> Result<(), NoMemory>
        ensures locals { OnOk result (locals.new.items ≡ locals.old.items ++ as_locals (right_of self.entry.program.now self.entry.func.now (option_map value_view own.entry) e (option_map value_view t.entry) register (length locals.old.items)).temps) }
        ensures statements { OnOk result (out.new.items ≡ out.old.items ++ (right_of self.entry.program.now self.entry.func.now (option_map value_view own.entry) e (option_map value_view t.entry) register (length locals.old.items)).stmts) }
    {
        if is_same_type(own, t) {
            return set(self.alloc, register, e, out);
        }
        let v = into(self.alloc, own, e, locals, out)?;
        set(self.alloc, register, v, out)
    }

    /// A read of a place, as a whole right side.
    #[tactic(auto, using(crate::proofs::AccessRules::access_rules, crate::proofs::AccessRules::locals_rules))]
    pub fn whole_read(
        self,
        a: &'p Place,
        b: Place,
        t: Option<ValueType>,
        register: u32,
        later: &[u32],
        locals: &mut Vec<(Name, CType)>,
        out: &mut Vec<Stmt>,
    ) -> Result<(), NoMemory>
        requires sized { AreSized self.program.now.structures self.program.now.target }
        requires kept { AreKept self.func.now self.registers.now }
        ensures locals { OnOk result (locals.new.items ≡ locals.old.items ++ as_locals (whole_read_of self.entry.program.now self.entry.func.now a.now b (option_map value_view t.entry) register (among later.now) (length locals.old.items)).temps) }
        ensures statements { OnOk result (out.new.items ≡ out.old.items ++ (whole_read_of self.entry.program.now self.entry.func.now a.now b (option_map value_view t.entry) register (among later.now) (length locals.old.items)).stmts) }
    {
        if self.register_of(a).is_some() {
            let v = self.read_at(a, b, later, locals, out)?;
            return set(self.alloc, register, v, out);
        }
        let read = Expr::Load(Boxed::new(self.alloc, b)?);
        self.whole_right(self.value_of(a), read, t, register, locals, out)
    }

    /// A value that nobody uses: nothing where it is a constant or a null.
    #[tactic(auto, using(crate::proofs::AccessRules::access_rules, crate::proofs::AccessRules::locals_rules))]
    pub fn unused(
        self,
        t: Option<ValueType>,
        x: Expr,
        locals: &mut Vec<(Name, CType)>,
        out: &mut Vec<Stmt>,
    ) -> Result<(), NoMemory>
        ensures locals { OnOk result (locals.new.items ≡ locals.old.items ++ as_locals (unused_of (option_map value_view t.entry) x (length locals.old.items)).temps) }
        ensures statements { OnOk result (out.new.items ≡ out.old.items ++ (unused_of (option_map value_view t.entry) x (length locals.old.items)).stmts) }
    {
        if is_idle(&x) {
            return Ok(());
        }
        let n = fresh(self.alloc, t, locals)?;
        set(self.alloc, n, x, out)
    }

    /// Whether what is called may stand in a call: a function or a register, and every temporary is one.
    fn is_callee(self, e: &Expr) -> bool
        requires { AreKept self.func.now self.registers.now }
        ensures { result ≡ is_callee_of self.entry.func.now (form_of e.now) }
    {
        match e {
            Expr::FuncAddr(_) => true,
            Expr::Load(a) => match a.get() {
                Place::Local(r) => self.is_register(*r)
                    || self.func.locals.all().len() <= *r as usize,
                _ => false,
            },
            _ => false,
        }
    }

    /// What is called, if it is neither a function nor a register, goes to a temporary.
    #[tactic(auto, using(crate::proofs::AccessRules::access_rules, crate::proofs::AccessRules::locals_rules))]
    pub fn named_callee(
        self,
        g: &'p Expr,
        callee: Expr,
        locals: &mut Vec<(Name, CType)>,
        out: &mut Vec<Stmt>,
    ) -> Result<Expr, NoMemory>
        requires sized { AreSized self.program.now.structures self.program.now.target }
        requires kept { AreKept self.func.now self.registers.now }
        ensures value { IfOk result (λ v. v ≡ (callee_of self.entry.program.now self.entry.func.now (type_of_of self.entry.program.now self.entry.func.now.locals g.now) callee (length locals.old.items)).value) }
        ensures locals { OnOk result (locals.new.items ≡ locals.old.items ++ as_locals (callee_of self.entry.program.now self.entry.func.now (type_of_of self.entry.program.now self.entry.func.now.locals g.now) callee (length locals.old.items)).temps) }
        ensures statements { OnOk result (out.new.items ≡ out.old.items ++ (callee_of self.entry.program.now self.entry.func.now (type_of_of self.entry.program.now self.entry.func.now.locals g.now) callee (length locals.old.items)).stmts) }
    {
        if self.is_callee(&callee) {
            return Ok(callee);
        }
        into(self.alloc, self.type_of(g), callee, locals, out)
    }

    /// An arm that sets a temporary to a constant.
    pub fn settled(self, value: i128, register: u32) -> Result<List<Stmt>, NoMemory>
        ensures { IfOk result (λ s. s ≡ set_of register (Expr.Const value IntType.Int) ∷ []) }
    {
        let mut out = Vec::new(self.alloc);
        set(
            self.alloc,
            register,
            Expr::Const(value, IntType::Int),
            &mut out,
        )?;
        Ok(List::of(out))
    }

    /// The new value of a place that is changed by an operator.
    #[tactic(auto, using(crate::proofs::AccessRules::access_rules, crate::proofs::AccessRules::locals_rules))]
    fn change(
        self,
        a: &'p Place,
        op: BinOp,
        t: IntType,
        b: Place,
        x: Expr,
        later: &[u32],
        locals: &mut Vec<(Name, CType)>,
        out: &mut Vec<Stmt>,
    ) -> Result<Expr, NoMemory>
        requires sized { AreSized self.program.now.structures self.program.now.target }
        requires kept { AreKept self.func.now self.registers.now }
        ensures value { IfOk result (λ v. v ≡ (new_of self.entry.program.now self.entry.func.now a.now op t b x (among later.now) (length locals.old.items)).value) }
        ensures locals { OnOk result (locals.new.items ≡ locals.old.items ++ as_locals (new_of self.entry.program.now self.entry.func.now a.now op t b x (among later.now) (length locals.old.items)).temps) }
        ensures statements { OnOk result (out.new.items ≡ out.old.items ++ (new_of self.entry.program.now self.entry.func.now a.now op t b x (among later.now) (length locals.old.items)).stmts) }
    {
        let old = self.read_at(a, b, later, locals, out)?;
        self.changed(op, t, self.value_of(a), old, x)
    }

    /// The value of a place that an operator changes: a temporary that is written in front of the place.
    #[tactic(auto, using(crate::proofs::AccessRules::access_rules, crate::proofs::AccessRules::locals_rules))]
    pub fn changed_value(
        self,
        a: &'p Place,
        op: BinOp,
        t: IntType,
        b: Place,
        x: Expr,
        later: &[u32],
        locals: &mut Vec<(Name, CType)>,
        out: &mut Vec<Stmt>,
    ) -> Result<Expr, NoMemory>
        requires sized { AreSized self.program.now.structures self.program.now.target }
        requires kept { AreKept self.func.now self.registers.now }
        ensures value { IfOk result (λ v. v ≡ (changed_of self.entry.program.now self.entry.func.now a.now op t b x (among later.now) (length locals.old.items)).value) }
        ensures locals { OnOk result (locals.new.items ≡ locals.old.items ++ as_locals (changed_of self.entry.program.now self.entry.func.now a.now op t b x (among later.now) (length locals.old.items)).temps) }
        ensures statements { OnOk result (out.new.items ≡ out.old.items ++ (changed_of self.entry.program.now self.entry.func.now a.now op t b x (among later.now) (length locals.old.items)).stmts) }
    {
        let new = self.change(a, op, t, b.copy(self.alloc)?, x, later, locals, out)?;
        let n = fresh(self.alloc, self.value_of(a), locals)?;
        set(self.alloc, n, new, out)?;
        assign(self.alloc, b, load(self.alloc, n)?, out)?;
        load(self.alloc, n)
    }

    /// A place that an operator changes, where nobody uses the value.
    #[tactic(auto, using(crate::proofs::AccessRules::access_rules, crate::proofs::AccessRules::locals_rules))]
    pub fn change_alone(
        self,
        a: &'p Place,
        op: BinOp,
        t: IntType,
        b: Place,
        x: Expr,
        later: &[u32],
        locals: &mut Vec<(Name, CType)>,
        out: &mut Vec<Stmt>,
    ) -> Result<(), NoMemory>
        requires sized { AreSized self.program.now.structures self.program.now.target }
        requires kept { AreKept self.func.now self.registers.now }
        ensures locals { OnOk result (locals.new.items ≡ locals.old.items ++ as_locals (change_of self.entry.program.now self.entry.func.now a.now op t b x (among later.now) (length locals.old.items)).temps) }
        ensures statements { OnOk result (out.new.items ≡ out.old.items ++ (change_of self.entry.program.now self.entry.func.now a.now op t b x (among later.now) (length locals.old.items)).stmts) }
    {
        let new = self.change(a, op, t, b.copy(self.alloc)?, x, later, locals, out)?;
        assign(self.alloc, b, new, out)
    }

    /// `old + 1` or `old - 1`, in the type of the place.
    #[tactic(auto, unfolding(crate::specs::Modes::stepped_of))]
    fn stepped(self, a: &'p Place, down: bool, old: Expr) -> Result<Expr, NoMemory>
        requires { AreSized self.program.now.structures self.program.now.target }
        ensures { IfOk result (λ r. r ≡ stepped_of self.entry.program.now self.entry.func.now a.now down old) }
    {
        let place = self.value_of(a);
        let t = self.one_more_type(place);
        self.changed(sum_or_difference(down), t, place, old, Expr::Const(1, t))
    }

    /// The value of a postfix form.
    #[tactic(auto, using(crate::proofs::AccessRules::access_rules, crate::proofs::AccessRules::locals_rules))]
    pub fn stepped_value(
        self,
        a: &'p Place,
        down: bool,
        b: Place,
        locals: &mut Vec<(Name, CType)>,
        out: &mut Vec<Stmt>,
    ) -> Result<Expr, NoMemory>
        requires { AreSized self.program.now.structures self.program.now.target }
        ensures value { IfOk result (λ v. v ≡ (step_value_of self.entry.program.now self.entry.func.now a.now down b (length locals.old.items)).value) }
        ensures locals { OnOk result (locals.new.items ≡ locals.old.items ++ as_locals (step_value_of self.entry.program.now self.entry.func.now a.now down b (length locals.old.items)).temps) }
        ensures statements { OnOk result (out.new.items ≡ out.old.items ++ (step_value_of self.entry.program.now self.entry.func.now a.now down b (length locals.old.items)).stmts) }
    {
        let read = Expr::Load(Boxed::new(self.alloc, b.copy(self.alloc)?)?);
        let n = fresh(self.alloc, self.value_of(a), locals)?;
        set(self.alloc, n, read, out)?;
        let new = self.stepped(a, down, load(self.alloc, n)?)?;
        assign(self.alloc, b, new, out)?;
        load(self.alloc, n)
    }

    /// A place that goes one up or down, where nobody uses the value.
    #[tactic(auto, using(crate::proofs::AccessRules::access_rules, crate::proofs::AccessRules::locals_rules))]
    pub fn step_alone(
        self,
        a: &'p Place,
        down: bool,
        b: Place,
        later: &[u32],
        locals: &mut Vec<(Name, CType)>,
        out: &mut Vec<Stmt>,
    ) -> Result<(), NoMemory>
        requires sized { AreSized self.program.now.structures self.program.now.target }
        requires kept { AreKept self.func.now self.registers.now }
        ensures locals { OnOk result (locals.new.items ≡ locals.old.items ++ as_locals (step_of self.entry.program.now self.entry.func.now a.now down b (among later.now) (length locals.old.items)).temps) }
        ensures statements { OnOk result (out.new.items ≡ out.old.items ++ (step_of self.entry.program.now self.entry.func.now a.now down b (among later.now) (length locals.old.items)).stmts) }
    {
        let old = self.read_at(a, b.copy(self.alloc)?, later, locals, out)?;
        let new = self.stepped(a, down, old)?;
        assign(self.alloc, b, new, out)
    }
}
