//! The cases of a `switch` up to a place of its body (C99 6.8.4.2).

ghost use Rattle.std.specs.Prelude.{◌≡◌, IfOk};
ghost use Rattle.cc_typed_statements.specs.Labels.{no_case, at_last, with_label as with_label_of, new_case as new_case_of, cases_with as cases_with_of, labelled as labelled_of, with_statements as with_statements_of, behind as behind_of, behind_empty as behind_empty_of};

use cc_operands::syntax::{Case, Stmt};
use cc_program::num::{List, NoMemory};
use std::alloc::Global;

/// The cases of a `switch`, up to a place of its body.
#[derive(Drop)]
pub struct Cases {
    pub cases: List<Case>,
    /// Whether nothing but labels stands in the last of them.
    pub only_labels: bool,
    /// Whether a statement stands in front of the first, other than a declaration that gives no value.
    pub statement_first: bool,
}

/// With one label more.
fn with_label(label: Option<i128>, case: Case) -> Result<Case, NoMemory>
    ensures { IfOk result (λ r. r ≡ with_label_of label case) }
{
    let Case { labels, body } = case;
    let mut labels = labels.into_vec();
    labels.push(label)?;
    Ok(Case {
        labels: List::of(labels),
        body,
    })
}

/// With these statements behind the others.
fn with_statements(statements: List<Stmt>, case: Case) -> Result<Case, NoMemory>
    ensures { IfOk result (λ r. r ≡ with_statements_of statements case) }
{
    let Case { labels, body } = case;
    let mut body = body.into_vec();
    let mut statements = statements.into_vec();
    body.append(&mut statements)?;
    Ok(Case {
        labels,
        body: List::of(body),
    })
}

/// A case that has a label alone.
fn new_case(alloc: Global, label: Option<i128>) -> Result<Case, NoMemory>
    ensures { IfOk result (λ r. r ≡ new_case_of label) }
{
    let mut labels = Vec::new(alloc);
    labels.push(label)?;
    Ok(Case {
        labels: List::of(labels),
        body: List::of(Vec::new(alloc)),
    })
}

/// The last case has one label more.
#[tactic(auto, using(crate::proofs::Last::of_last))]
fn labelled_last(label: Option<i128>, cases: List<Case>) -> Result<List<Case>, NoMemory>
    ensures { IfOk result (λ r. r ≡ at_last (with_label_of label) cases) }
{
    let mut cases = cases.into_vec();
    match cases.pop() {
        None => Ok(List::of(cases)),
        Some(last) => {
            let changed = with_label(label, last)?;
            cases.push(changed)?;
            Ok(List::of(cases))
        }
    }
}

/// The last case has these statements behind its others.
#[tactic(auto, using(crate::proofs::Last::of_last))]
fn extended_last(statements: List<Stmt>, cases: List<Case>) -> Result<List<Case>, NoMemory>
    ensures { IfOk result (λ r. r ≡ at_last (with_statements_of statements) cases) }
{
    let mut cases = cases.into_vec();
    match cases.pop() {
        None => Ok(List::of(cases)),
        Some(last) => {
            let changed = with_statements(statements, last)?;
            cases.push(changed)?;
            Ok(List::of(cases))
        }
    }
}

fn with_case(alloc: Global, label: Option<i128>, cases: Cases) -> Result<List<Case>, NoMemory>
    ensures { IfOk result (λ r. r ≡ cases_with_of label cases) }
{
    if cases.only_labels {
        return labelled_last(label, cases.cases);
    }
    let case = new_case(alloc, label)?;
    let mut list = cases.cases.into_vec();
    list.push(case)?;
    Ok(List::of(list))
}

impl Cases {
    /// In front of a body.
    pub fn none(alloc: Global) -> Cases
        ensures { result ≡ no_case }
    {
        Cases {
            cases: List::of(Vec::new(alloc)),
            only_labels: false,
            statement_first: false,
        }
    }

    /// Behind a label more.
    pub fn labelled(self, alloc: Global, label: Option<i128>) -> Result<Cases, NoMemory>
        ensures { IfOk result (λ r. r ≡ labelled_of label self) }
    {
        let statement_first = self.statement_first;
        let cases = with_case(alloc, label, self)?;
        Ok(Cases {
            cases,
            only_labels: true,
            statement_first,
        })
    }

    /// Behind further statements, which may not stand in front of the first label where the flag is set.
    pub fn behind(self, counts: bool, statements: List<Stmt>) -> Result<Cases, NoMemory>
        ensures { IfOk result (λ r. r ≡ behind_of counts statements self) }
    {
        let statement_first = self.statement_first || (self.cases.all().is_empty() && counts);
        let cases = extended_last(statements, self.cases)?;
        Ok(Cases {
            cases,
            only_labels: false,
            statement_first,
        })
    }

    /// Behind an empty statement, which is none right behind labels.
    pub fn behind_empty(self, alloc: Global, statements: List<Stmt>) -> Result<Cases, NoMemory>
        ensures { IfOk result (λ r. r ≡ behind_empty_of statements self) }
    {
        if self.only_labels {
            self.behind(true, List::of(Vec::new(alloc)))
        } else {
            self.behind(true, statements)
        }
    }
}
