//! The cases of a `switch` up to a place of its body, beside a set of their labels, so that each label is found at once
//! (C99 6.8.4.2, 3).

ghost use Rattle.std.specs.Prelude.{◌≡◌, IfOk};
ghost use Rattle.std.specs.List.{list_any};
ghost use Rattle.cc_typed_statements.specs.Labels.{no_case, has_label, labelled as labelled_of, behind as behind_of, behind_empty as behind_empty_of, cases_behind};

use crate::cases::Cases;
use cc_operands::Rule;
use cc_operands::syntax::Stmt;
use cc_program::num::{List, NoMemory};
use indexmap::IndexSet;
use std::alloc::Global;
use std::marker::Model;

/// The cases of a `switch`, up to a place of its body. Contracts see them without the set of their labels.
#[derive(Drop)]
pub struct SwitchCases {
    cases: Cases,
    labels: IndexSet<Option<i128>>,
}

impl Model for SwitchCases {
    ghost use Rattle.cc_program.specs.contracts.stmt.Case as case;
    ghost use Rattle.std.specs.Coded.{codes};
    ghost use Rattle.cc_typed_statements.specs.declared.cases.Cases.{Cases as CasesOf};

    ghost Value = { CasesOf };

    ghost coded = { Prim.hlevel (codes, case.the_row.coded) };

    ghost view = { λ s. s.cases };

    ghost use Rattle.cc_typed_statements.specs.LabelSets.{GoesWith};

    ghost invariant = { λ s. GoesWith s.labels.keys s.cases };
}

impl SwitchCases {
    /// In front of a body.
    #[tactic(auto, using(crate::proofs::LabelSets::of_sets))]
    pub fn none(alloc: Global) -> SwitchCases
        ensures { result ≡ no_case }
    {
        SwitchCases {
            cases: Cases::none(alloc),
            labels: IndexSet::new(alloc),
        }
    }

    /// The cases alone.
    pub fn into_cases(self) -> Cases
        ensures { result ≡ self }
    {
        self.cases
    }

    /// Whether a label stands in one of them.
    #[tactic(auto, using(crate::proofs::LabelSets::of_sets))]
    pub fn has(&self, label: Option<i128>) -> bool
        ensures { result ≡ list_any (has_label label) self.now.cases }
    {
        self.labels.contains(&label)
    }

    /// Behind a label more.
    #[tactic(auto, using(crate::proofs::LabelSets::of_sets))]
    fn labelled(self, alloc: Global, label: Option<i128>) -> Result<SwitchCases, NoMemory>
        ensures { IfOk result (λ r. r ≡ labelled_of label self) }
    {
        let SwitchCases { cases, labels } = self;
        let mut labels = labels;
        labels.insert(label)?;
        Ok(SwitchCases {
            cases: cases.labelled(alloc, label)?,
            labels,
        })
    }

    /// Behind a label that was judged: one that is at fault stands nowhere.
    pub fn behind_label(
        self,
        alloc: Global,
        label: &Result<Option<i128>, Rule>,
    ) -> Result<SwitchCases, NoMemory>
        ensures { IfOk result (λ r. r ≡ cases_behind label.now self) }
    {
        match label {
            Ok(label) => self.labelled(alloc, *label),
            Err(_) => Ok(self),
        }
    }

    /// Behind further statements, which may not stand in front of the first label where the flag is set.
    #[tactic(auto, using(crate::proofs::LabelSets::of_sets))]
    pub fn behind(self, counts: bool, statements: List<Stmt>) -> Result<SwitchCases, NoMemory>
        ensures { IfOk result (λ r. r ≡ behind_of counts statements self) }
    {
        let SwitchCases { cases, labels } = self;
        Ok(SwitchCases {
            cases: cases.behind(counts, statements)?,
            labels,
        })
    }

    /// Behind an empty statement, which is none right behind labels.
    #[tactic(auto, using(crate::proofs::LabelSets::of_sets))]
    pub fn behind_empty(
        self,
        alloc: Global,
        statements: List<Stmt>,
    ) -> Result<SwitchCases, NoMemory>
        ensures { IfOk result (λ r. r ≡ behind_empty_of statements self) }
    {
        let SwitchCases { cases, labels } = self;
        Ok(SwitchCases {
            cases: cases.behind_empty(alloc, statements)?,
            labels,
        })
    }
}
