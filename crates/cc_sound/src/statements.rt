//! Statements of a sound program (C99 6.8).

ghost use Rattle.std.specs.Prelude.{◌≡◌, option_map, map, length};
ghost use Rattle.std.specs.List.{list_all, list_any, flat_map};
ghost use Rattle.cc_program.specs.declared.types.Sig.{out-Sig};
ghost use Rattle.cc_program.specs.declared.stmt.Case.{out-Case};
ghost use Rattle.cc_typed.specs.CcSyntax.Statements.{same_label as same_label_of, are_apart, label_fits as label_fits_of, labels_fit as labels_fit_of, is_condition as is_condition_of, has_label as has_label_of};
ghost use Rattle.cc_typed.specs.CcSyntax.Programs.{is_typed as is_typed_of, is_optional_condition as is_optional_condition_of, returns as returns_of, is_sound_stmt as is_sound_stmt_of, typed as typed_of};
ghost use Rattle.cc_typed.specs.CcSyntax.Statements.{labels_of};
ghost use Rattle.cc_sound.specs.Cases.{apart_from, switches as switches_of, is_sound_case as is_sound_case_of};
ghost use Rattle.cc_typed.specs.CcSyntax.Sizes.{AreSized};
ghost use Rattle.cc_typed.specs.View.{value_view};

use cc_program::num::{Boxed, IntType, List, Target};
use cc_typed::syntax::{Case, Expr, Func, Program, Stmt};
use cc_typed::{Scope, ValueType, is_assignable_some, is_promoted, is_void, scalar_value};

fn same_label(label: Option<i128>, other: Option<i128>) -> bool
    ensures { result ≡ same_label_of label other }
{
    match (label, other) {
        (None, None) => true,
        (Some(m), Some(n)) => m == n,
        _ => false,
    }
}

fn is_among(label: Option<i128>, labels: &[Option<i128>]) -> bool
    ensures { result ≡ list_any (same_label_of label) labels.now }
{
    labels.iter().any(|other| same_label(label, *other))
}

fn is_among_cases(label: Option<i128>, cases: &[Case]) -> bool
    ensures { result ≡ list_any (same_label_of label) (labels_of cases.now) }
{
    cases.iter().any(|case| is_among(label, case.labels.all()))
}

/// Whether each of the labels differs from those behind it, and from those of the cases.
fn differ_from(labels: &[Option<i128>], cases: &[Case]) -> bool
    ensures { result ≡ apart_from labels.now (labels_of cases.now) }
{
    let mut left = labels;
    while let [label, rest @ ..] = left {
        if is_among(*label, rest) || is_among_cases(*label, cases) {
            return false;
        }
        left = rest;
    }
    true
}

/// Whether no label stands twice.
fn labels_differ(cases: &[Case]) -> bool
    ensures { result ≡ are_apart (labels_of cases.now) }
{
    for (i, case) in cases.iter().enumerate() {
        if !differ_from(case.labels.all(), &cases[i + 1..]) {
            return false;
        }
    }
    true
}

fn label_fits(label: Option<i128>, t: IntType, target: &Target) -> bool
    ensures { result ≡ label_fits_of target.now t label }
{
    match label {
        None => true,
        Some(n) => t.contains(n, target),
    }
}

fn all_fit(labels: &[Option<i128>], t: IntType, target: &Target) -> bool
    ensures { result ≡ list_all (label_fits_of target.now t) labels.now }
{
    labels.iter().all(|label| label_fits(*label, t, target))
}

fn all_labels_fit(cases: &[Case], t: IntType, target: &Target) -> bool
    ensures { result ≡ list_all (label_fits_of target.now t) (labels_of cases.now) }
{
    cases
        .iter()
        .all(|case| all_fit(case.labels.all(), t, target))
}

/// Whether the labels are values of the operand's promoted type (C99 6.8.4.2, 5).
fn labels_fit(cases: &[Case], operand: Option<ValueType>, target: &Target) -> bool
    ensures { result ≡ labels_fit_of target.now (labels_of cases.now) (option_map value_view operand.entry) }
{
    match operand {
        Some(ValueType::Integer(t)) => {
            is_promoted(t, target) && all_labels_fit(cases, t, target)
        }
        _ => false,
    }
}

fn has_label(labels: &[Option<i128>]) -> bool
    ensures { result ≡ has_label_of labels.now }
{
    match labels {
        [] => false,
        [_, ..] => true,
    }
}

fn all_have_labels(cases: &[Case]) -> bool
    ensures { result ≡ list_all (λ c. has_label_of (out-Case c).labels) cases.now }
{
    cases.iter().all(|case| has_label(case.labels.all()))
}

/// Whether what is there is a scalar.
fn is_condition(v: Option<ValueType>) -> bool
    ensures { result ≡ is_condition_of (option_map value_view v.entry) }
{
    match v {
        None => false,
        Some(v) => v.is_scalar(),
    }
}

/// A function of a program.
#[derive(Clone, Copy)]
pub struct Function<'p> {
    pub program: &'p Program,
    pub func: &'p Func,
}

impl<'p> Function<'p> {
    /// The type of an expression in it.
    fn typed(self, e: &'p Expr) -> Option<ValueType<'p>>
        requires { AreSized self.program.now.structures self.program.now.target }
        ensures { option_map value_view result ≡ typed_of self.entry.program.now self.entry.func.now e.now }
    {
        Scope {
            program: self.program,
            locals: self.func.locals.all(),
        }
        .type_of(e)
    }

    fn is_typed(self, e: &'p Option<Boxed<Expr>>) -> bool
        requires { AreSized self.program.now.structures self.program.now.target }
        ensures { result ≡ is_typed_of self.entry.program.now self.entry.func.now e.now }
    {
        match e {
            None => true,
            Some(e) => self.typed(e.get()).is_some(),
        }
    }

    fn is_optional_condition(self, e: &'p Option<Boxed<Expr>>) -> bool
        requires { AreSized self.program.now.structures self.program.now.target }
        ensures { result ≡ is_optional_condition_of self.entry.program.now self.entry.func.now e.now }
    {
        match e {
            None => true,
            Some(e) => is_condition(self.typed(e.get())),
        }
    }

    /// A value exactly where the function has a result, and of its type (C99 6.8.6.4, 1 and 3).
    fn returns(self, e: &'p Option<Boxed<Expr>>) -> bool
        requires { AreSized self.program.now.structures self.program.now.target }
        ensures { result ≡ returns_of self.entry.program.now self.entry.func.now e.now }
    {
        let to = &self.func.sig.result;
        match e {
            None => is_void(to),
            Some(e) => is_assignable_some(scalar_value(to), self.typed(e.get())),
        }
    }

    /// A `switch` but for the statements in it.
    fn switches(self, e: &'p Expr, cases: &[Case]) -> bool
        requires { AreSized self.program.now.structures self.program.now.target }
        ensures { result ≡ switches_of self.entry.program.now self.entry.func.now e.now cases.now }
    {
        labels_fit(cases, self.typed(e), &self.program.target)
            && labels_differ(cases)
            && all_have_labels(cases)
    }

    /// Whether a statement is sound where `break` and `continue` may stand as the flags say.
    #[cycle(sound)]
    fn is_sound(self, s: &'p Stmt, breaks: bool, continues: bool) -> bool
        requires { AreSized self.program.now.structures self.program.now.target }
        ensures { result ≡ is_sound_stmt_of self.entry.program.now self.entry.func.now s.now breaks continues }
    {
        match s {
            Stmt::Do(e) => self.typed(e.get()).is_some(),
            Stmt::If(e, a, b) => {
                is_condition(self.typed(e.get()))
                    && self.are_sound(a, breaks, continues)
                    && self.are_sound(b, breaks, continues)
            }
            Stmt::While(e, a) => is_condition(self.typed(e.get())) && self.are_sound(a, true, true),
            Stmt::DoWhile(a, e) => is_condition(self.typed(e.get()))
                && self.are_sound(a, true, true),
            Stmt::For(first, test, step, a) => {
                self.is_typed(first)
                    && self.is_optional_condition(test)
                    && self.is_typed(step)
                    && self.are_sound(a, true, true)
            }
            Stmt::Switch(e, cases) => {
                self.switches(e.get(), cases.all()) && self.are_sound_cases(cases, continues)
            }
            Stmt::Break => breaks,
            Stmt::Continue => continues,
            Stmt::Return(e) => self.returns(e),
            Stmt::Empty => true,
            Stmt::Block(a) => self.are_sound(a, breaks, continues),
        }
    }

    /// Whether each statement of the list is sound.
    #[cycle(sound)]
    #[tactic(auto, using(cc_typed::proofs::ListLemmas::of_tests))]
    pub fn are_sound(self, list: &'p List<Stmt>, breaks: bool, continues: bool) -> bool
        requires { AreSized self.program.now.structures self.program.now.target }
        ensures { result ≡ list_all (λ g. g breaks continues) (map (is_sound_stmt_of self.entry.program.now self.entry.func.now) list.now) }
    {
        for s in list.all() {
            if !self.is_sound(s, breaks, continues) {
                return false;
            }
        }
        true
    }

    /// Whether each statement of the cases is sound.
    #[cycle(sound)]
    #[tactic(auto, using(cc_typed::proofs::ListLemmas::of_tests))]
    fn are_sound_cases(self, cases: &'p List<Case>, continues: bool) -> bool
        requires { AreSized self.program.now.structures self.program.now.target }
        ensures { result ≡ list_all (is_sound_case_of self.entry.program.now self.entry.func.now continues) cases.now }
    {
        for case in cases.all() {
            if !self.are_sound(&case.body, true, continues) {
                return false;
            }
        }
        true
    }
}
