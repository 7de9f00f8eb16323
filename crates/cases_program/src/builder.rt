//! A program that is being built.

use cc_cost::{Profile, read_profile};
use cc_program::num::{Boxed, List, Name, Target};
use cc_syntax::{
    CType, Case, Device, Entry, Expr, Func, Leaf, Object, Place, Program, Stmt, Structure,
};
use std::alloc::Global;
use std::mem;

/// Types, places, expressions and names that wait to be taken.
#[derive(Drop)]
pub struct Terms {
    pub alloc: Global,
    pub types: Vec<CType>,
    pub places: Vec<Place>,
    pub exprs: Vec<Expr>,
    pub names: Vec<(Name, CType)>,
}

/// The statements of the innermost list, of the lists round it, and of lists that are ended, and the cases of a `switch`.
#[derive(Drop)]
pub struct Bodies {
    pub list: Vec<Stmt>,
    pub open: Vec<Vec<Stmt>>,
    pub ended: Vec<List<Stmt>>,
    pub cases: Vec<Case>,
}

/// The declarations so far, with the first values and the kind of handler of the next one.
#[derive(Drop)]
pub struct Parts {
    pub leaves: Vec<Leaf>,
    pub entry: Option<Entry>,
    pub structures: Vec<Structure>,
    pub devices: Vec<Device>,
    pub objects: Vec<Object>,
    pub funcs: Vec<Func>,
}

/// What is said of the whole program.
#[derive(Clone, Copy)]
pub struct Choices {
    /// The function that runs first, where it is not the last.
    pub main: Option<u32>,
    /// Whether the roles name the handler `tick`.
    pub ticks: bool,
    /// Whether the roles give levels.
    pub levels: bool,
    /// Whether `int` and pointers have 2 bytes, and not 4.
    pub is_small: bool,
}

/// What was built so far, and what waits to be taken.
#[derive(Drop)]
pub struct Builder {
    pub terms: Terms,
    pub bodies: Bodies,
    pub parts: Parts,
    pub choices: Choices,
}

/// Puts what a word made behind others.
pub fn put<T: Drop>(stack: &mut Vec<T>, made: Option<T>) -> Option<()> {
    stack.push(made?).ok()
}

/// The last element of a list, in a box.
pub fn boxed<T: Drop>(alloc: Global, stack: &mut Vec<T>) -> Option<Boxed<T>> {
    Boxed::new(alloc, stack.pop()?).ok()
}

/// The last elements of a list, which lets them go.
pub fn last_few<T>(stack: &mut Vec<T>, count: usize) -> Option<List<T>> {
    if stack.len() < count {
        return None;
    }
    let at = stack.len() - count;
    Some(List::of(stack.split_off(at).ok()?))
}

/// All elements of a list, which lets them go.
pub fn taken<T: Drop>(alloc: Global, stack: &mut Vec<T>) -> List<T> {
    List::of(mem::replace(stack, Vec::new(alloc)))
}

impl Terms {
    fn new(alloc: Global) -> Terms {
        Terms {
            alloc,
            types: Vec::new(alloc),
            places: Vec::new(alloc),
            exprs: Vec::new(alloc),
            names: Vec::new(alloc),
        }
    }

    /// The last expression, boxed.
    pub fn expr(&mut self) -> Option<Boxed<Expr>> {
        boxed(self.alloc, &mut self.exprs)
    }

    /// The last place, boxed.
    pub fn place(&mut self) -> Option<Boxed<Place>> {
        boxed(self.alloc, &mut self.places)
    }

    fn is_empty(&self) -> bool {
        self.types.is_empty()
            && self.places.is_empty()
            && self.exprs.is_empty()
            && self.names.is_empty()
    }
}

impl Bodies {
    fn new(alloc: Global) -> Bodies {
        Bodies {
            list: Vec::new(alloc),
            open: Vec::new(alloc),
            ended: Vec::new(alloc),
            cases: Vec::new(alloc),
        }
    }

    fn is_empty(&self) -> bool {
        self.list.is_empty()
            && self.open.is_empty()
            && self.ended.is_empty()
            && self.cases.is_empty()
    }
}

impl Parts {
    fn new(alloc: Global) -> Parts {
        Parts {
            leaves: Vec::new(alloc),
            entry: None,
            structures: Vec::new(alloc),
            devices: Vec::new(alloc),
            objects: Vec::new(alloc),
            funcs: Vec::new(alloc),
        }
    }
}

impl Choices {
    fn target(self) -> Target {
        if self.is_small {
            Target {
                int_bytes: 2,
                pointer_bytes: 2,
                char_signed: true,
                align_max: 1,
                atomic_bytes: 1,
            }
        } else {
            Target {
                int_bytes: 4,
                pointer_bytes: 4,
                char_signed: true,
                align_max: 4,
                atomic_bytes: 4,
            }
        }
    }

    /// The rows of a profile with these roles.
    fn rows(self) -> &'static str {
        if self.levels {
            "level,tick,1\nlevel,tock,2\n"
        } else if self.ticks {
            "handler,tick,\n"
        } else {
            ""
        }
    }

    /// The id of the function that runs first, of so many.
    fn main_of(self, funcs: usize) -> Option<u32> {
        match self.main {
            Some(main) => Some(main),
            None => u32::try_from(funcs.saturating_sub(1)).ok(),
        }
    }
}

impl Builder {
    pub fn new(alloc: Global) -> Builder {
        Builder {
            terms: Terms::new(alloc),
            bodies: Bodies::new(alloc),
            parts: Parts::new(alloc),
            choices: Choices {
                main: None,
                ticks: false,
                levels: false,
                is_small: false,
            },
        }
    }

    /// Whether nothing waits to be taken.
    fn is_done(&self) -> bool {
        self.terms.is_empty() && self.bodies.is_empty() && self.parts.leaves.is_empty()
    }

    /// The program.
    pub fn finish(&mut self) -> Option<Program> {
        if !self.is_done() {
            return None;
        }
        program(self.terms.alloc, &mut self.parts, self.choices)
    }
}

/// The program of these declarations.
fn program(alloc: Global, parts: &mut Parts, choices: Choices) -> Option<Program> {
    let main = choices.main_of(parts.funcs.len())?;
    let rows = choices.rows().as_bytes();
    if rows.len() >= 1 << 32 {
        return None;
    }
    let Profile { roles, .. } = read_profile(alloc, rows).ok()?;
    Some(Program {
        target: choices.target(),
        roles,
        structures: taken(alloc, &mut parts.structures),
        devices: taken(alloc, &mut parts.devices),
        objects: taken(alloc, &mut parts.objects),
        funcs: taken(alloc, &mut parts.funcs),
        main,
    })
}
