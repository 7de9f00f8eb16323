//! Programs that are put together statement by statement.

use crate::flow::roles::roles;
use cc_program::num::{Boxed, IntType, List, Target};
use cc_program::{CType, Case, Expr, Func, Intr, Place, Program, Shape, Sig, Stmt};
use std::alloc::Global;

/// A statement that is open.
#[derive(Clone, Copy)]
enum Mark {
    Then,
    Else,
    Loop,
    /// A `switch` before its first case.
    Switch,
    /// A case of a `switch`, by its label.
    Case(Option<i128>),
}

/// A program so far. Its calls answer None where a word cannot stand, or where memory runs out.
#[derive(Drop)]
pub struct Builder {
    alloc: Global,
    /// The statements that are open, the innermost last.
    marks: Vec<Mark>,
    /// The list that takes what comes next, and those around it.
    list: Vec<Stmt>,
    around: Vec<Vec<Stmt>>,
    /// The cases that are done of each `switch` that is open.
    cases: Vec<Vec<Case>>,
    funcs: Vec<Func>,
}

fn condition(alloc: Global) -> Option<Boxed<Expr>> {
    let register = Boxed::new(alloc, Place::Local(0)).ok()?;
    Boxed::new(alloc, Expr::Load(register)).ok()
}

impl Builder {
    pub fn new(alloc: Global) -> Builder {
        Builder {
            alloc,
            marks: Vec::new(alloc),
            list: Vec::new(alloc),
            around: Vec::new(alloc),
            cases: Vec::new(alloc),
            funcs: Vec::new(alloc),
        }
    }

    /// Puts a statement into the innermost list.
    pub fn put(&mut self, s: Stmt) -> Option<()> {
        self.list.push(s).ok()
    }

    /// A write to the first device.
    pub fn put_write(&mut self) -> Option<()> {
        let zero = Boxed::new(self.alloc, Expr::Const(0, IntType::UChar)).ok()?;
        let device = Boxed::new(self.alloc, Place::Device(0)).ok()?;
        let write = Boxed::new(self.alloc, Expr::Assign(device, zero)).ok()?;
        self.put(Stmt::Do(write))
    }

    /// `irq_on()`.
    pub fn put_on(&mut self) -> Option<()> {
        let on = Boxed::new(self.alloc, Expr::Intr(Intr::On, None)).ok()?;
        self.put(Stmt::Do(on))
    }

    /// Opens a list of a statement.
    fn open(&mut self, mark: Mark) -> Option<()> {
        let alloc = self.alloc;
        let outer = std::mem::replace(&mut self.list, Vec::new(alloc));
        self.around.push(outer).ok()?;
        self.marks.push(mark).ok()
    }

    /// Closes the innermost list.
    fn close_list(&mut self) -> Option<List<Stmt>> {
        let outer = self.around.pop()?;
        Some(List::of(std::mem::replace(&mut self.list, outer)))
    }

    pub fn open_if(&mut self) -> Option<()> {
        self.open(Mark::Then)
    }

    pub fn open_loop(&mut self) -> Option<()> {
        self.open(Mark::Loop)
    }

    pub fn open_switch(&mut self) -> Option<()> {
        let alloc = self.alloc;
        self.cases.push(Vec::new(alloc)).ok()?;
        self.marks.push(Mark::Switch).ok()
    }

    /// Goes on with the second arm of an `if`.
    pub fn turn(&mut self) -> Option<()> {
        match self.marks.pop()? {
            Mark::Then => self.open(Mark::Else),
            _ => None,
        }
    }

    /// Goes on with the next case of a `switch`, behind this label.
    pub fn next_case(&mut self, label: Option<i128>) -> Option<()> {
        match self.marks.pop()? {
            Mark::Switch => {}
            Mark::Case(before) => self.close_case(before)?,
            _ => return None,
        }
        self.open(Mark::Case(label))
    }

    fn close_case(&mut self, label: Option<i128>) -> Option<()> {
        let body = self.close_list()?;
        let labels = List::of(Vec::from_slice(self.alloc, &[label]).ok()?);
        let mut cases = self.cases.pop()?;
        cases.push(Case { labels, body }).ok()?;
        self.cases.push(cases).ok()
    }

    fn close_switch(&mut self) -> Option<()> {
        let cases = self.cases.pop()?;
        let condition = condition(self.alloc)?;
        self.put(Stmt::Switch(condition, List::of(cases)))
    }

    fn close_loop(&mut self) -> Option<()> {
        let body = self.close_list()?;
        let one = Boxed::new(self.alloc, Expr::Const(1, IntType::Int)).ok()?;
        self.put(Stmt::While(one, body))
    }

    fn close_then(&mut self) -> Option<()> {
        let these = self.close_list()?;
        let those = List::of(Vec::new(self.alloc));
        let condition = condition(self.alloc)?;
        self.put(Stmt::If(condition, these, those))
    }

    fn close_else(&mut self) -> Option<()> {
        let those = self.close_list()?;
        let these = self.close_list()?;
        let condition = condition(self.alloc)?;
        self.put(Stmt::If(condition, these, those))
    }

    /// Closes the innermost statement.
    pub fn close(&mut self) -> Option<()> {
        match self.marks.pop()? {
            Mark::Then => self.close_then(),
            Mark::Else => self.close_else(),
            Mark::Loop => self.close_loop(),
            Mark::Switch => self.close_switch(),
            Mark::Case(label) => {
                self.close_case(label)?;
                self.close_switch()
            }
        }
    }

    /// Ends a function.
    pub fn end_function(&mut self) -> Option<()> {
        if !self.marks.is_empty() {
            return None;
        }
        let alloc = self.alloc;
        let body = std::mem::replace(&mut self.list, Vec::new(alloc));
        self.funcs.push(func_of(alloc, body)).ok()
    }

    /// The whole program.
    pub fn finish(self) -> Option<Program> {
        let Builder { alloc, funcs, .. } = self;
        let roles = roles(alloc)?;
        Some(Program {
            target: target(),
            roles,
            structures: List::of(Vec::new(alloc)),
            devices: List::of(Vec::new(alloc)),
            objects: List::of(Vec::new(alloc)),
            funcs: List::of(funcs),
            main: 0,
        })
    }
}

/// A function without parameters and result.
fn func_of(alloc: Global, body: Vec<Stmt>) -> Func {
    Func {
        name: List::of(Vec::new(alloc)),
        sig: Sig {
            result: CType {
                constant: false,
                volatile: false,
                shape: Shape::Void,
            },
            params: List::of(Vec::new(alloc)),
        },
        entry: None,
        params: 0,
        locals: List::of(Vec::new(alloc)),
        body: List::of(body),
    }
}

fn target() -> Target {
    Target {
        int_bytes: 2,
        pointer_bytes: 2,
        char_signed: true,
        align_max: 1,
        atomic_bytes: 1,
    }
}
