//! A section of the script: what its cases are about.

use crate::normal::{write_form, write_text};
use crate::runs::{Script, write_run, write_states};
use crate::{profiles, rows};
use cases_program::program_of;
use cases_script::Page;
use std::alloc::{AllocError, Global};

/// What is asked of a program.
#[derive(Clone, Copy)]
enum Question {
    /// Its trace alone.
    Trace,
    /// Its trace and the number of its turns.
    Run,
    /// The states that it goes through.
    States,
    /// Whether it is in normal form.
    Form,
    Text,
}

/// What cases are about.
#[derive(Clone, Copy)]
enum Subject {
    Program(Question),
    Profile,
    Default,
    Inputs,
    Arrivals,
}

/// What the cases of a section have in common.
#[derive(Drop)]
pub struct Section {
    subject: Subject,
    /// The words in front of each program.
    front: String,
}

/// What a setting says that the cases behind it are about.
fn subject_of(setting: &str) -> Option<Subject> {
    match setting {
        "trace" => Some(Subject::Program(Question::Trace)),
        "states" => Some(Subject::Program(Question::States)),
        "normal" => Some(Subject::Program(Question::Form)),
        "printed" => Some(Subject::Program(Question::Text)),
        "profile" => Some(Subject::Profile),
        "default" => Some(Subject::Default),
        "inputs" => Some(Subject::Inputs),
        "arrivals" => Some(Subject::Arrivals),
        _ => None,
    }
}

impl Section {
    /// A section before its first setting.
    pub fn new(alloc: Global) -> Section {
        Section {
            subject: Subject::Program(Question::Run),
            front: String::new(alloc),
        }
    }

    /// Takes a setting in.
    pub fn set(&mut self, setting: &str) -> Result<(), AllocError> {
        match subject_of(setting) {
            Some(subject) => {
                self.subject = subject;
                Ok(())
            }
            None => {
                self.front.push_str(" ")?;
                self.front.push_str(setting)
            }
        }
    }

    /// Writes what a case gives.
    pub fn write_outcome(&self, alloc: Global, page: &mut Page, case: &str) {
        match self.subject {
            Subject::Program(question) => {
                if write_program(alloc, page, question, self.front.as_str(), case).is_none() {
                    page.put("unclear");
                }
            }
            Subject::Profile => profiles::write_read(alloc, page, case),
            Subject::Default => profiles::write_default(alloc, page),
            Subject::Inputs => rows::write_inputs(alloc, page, case),
            Subject::Arrivals => rows::write_arrivals(alloc, page, case),
        }
    }
}

/// Writes what a program gives; `None` where its words have no meaning, or memory runs out.
fn write_program(
    alloc: Global,
    page: &mut Page,
    question: Question,
    front: &str,
    case: &str,
) -> Option<()> {
    let script = Script::of(case)?;
    let p = program_of(alloc, front, script.words)?;
    match question {
        Question::Trace => write_run(alloc, page, &p, script, false),
        Question::Run => write_run(alloc, page, &p, script, true),
        Question::States => write_states(alloc, page, &p, script),
        Question::Text => write_text(alloc, page, &p),
        Question::Form => {
            write_form(page, &p);
            Some(())
        }
    }
}
