//! Activations that are opened, by calls and by entries of handlers.

ghost use Rattle.std.specs.Prelude.{◌≡◌, ◌<◌, ◌-◌, ◌^◌, [], None, IfOk, OnOk, OnErr, length, replicate};
ghost use Rattle.std.specs.Option.{option_copied};
ghost use Rattle.cc_cells.specs.Cells.{cells_of};
ghost use Rattle.cc_cells.specs.Scalars.{zeros};
ghost use Rattle.cc_control.specs.Control.{close as close_of};
ghost use Rattle.cc_control.specs.View.{control_of};
ghost use Rattle.cc_eval.specs.CcSyntax.Sizes.{AreSized};
ghost use Rattle.cc_steps.specs.State.{local_with as local_with_of, locals_with as locals_with_of};
ghost use Rattle.cc_steps.specs.Step.{activation as activation_of, opened as opened_of};
ghost use Rattle.cc_steps.specs.View.{active_of, state_of};

use crate::activation::Activation;
use crate::progress::begun_at;
use crate::run::Run;
use cc_cells::count;
use cc_control::{Control, Left, close};
use cc_program::num::{Name, NoMemory, at};
use cc_program::{CType, Func, Program, Structure, Value};
use std::alloc::Global;

/// So many scalars that were never written.
#[tactic(auto, using(crate::proofs::LocalLemmas::of_repeats))]
fn none_written(alloc: Global, n: usize) -> Result<Vec<Option<Value>>, NoMemory>
    ensures { IfOk result (λ v. v.items ≡ replicate n None) }
{
    let mut scalars = Vec::new(alloc);
    for _scalar in 0..n {
        scalars.push(None)?;
    }
    Ok(scalars)
}

/// The scalars of a local of which none was written.
#[tactic(auto, using(crate::proofs::LocalLemmas::of_counts))]
fn unwritten(
    alloc: Global,
    structures: &[Structure],
    local: &CType,
) -> Result<Vec<Option<Value>>, NoMemory>
    ensures { IfOk result (λ v. v.items ≡ replicate (length (zeros structures.now local.now)) None) }
{
    let n = count(structures, local);
    if n == usize::MAX {
        return Err(NoMemory);
    }
    none_written(alloc, n)
}

fn local_with(
    alloc: Global,
    structures: &[Structure],
    arg: Option<&Value>,
    local: &CType,
) -> Result<Vec<Option<Value>>, NoMemory>
    ensures { IfOk result (λ v. v.items ≡ local_with_of structures.now (option_copied arg.entry) local.now) }
{
    match arg {
        None => unwritten(alloc, structures, local),
        Some(v) => {
            let mut scalars = Vec::new(alloc);
            scalars.push(Some(v.copy(alloc)?))?;
            Ok(scalars)
        }
    }
}

/// The locals of an activation before its first step: arguments in the first, and nothing written in the others.
#[tactic(auto, using(crate::proofs::LocalLemmas::of_locals))]
fn locals_with(
    alloc: Global,
    p: &Program,
    args: &[Value],
    locals: &[(Name, CType)],
) -> Result<Vec<Vec<Option<Value>>>, NoMemory>
    ensures { IfOk result (λ v. cells_of v.items ≡ locals_with_of p.now args.now locals.now) }
{
    let mut all = Vec::new(alloc);
    for (i, local) in locals.iter().enumerate() {
        all.push(local_with(alloc, p.structures.all(), at(args, i), &local.1)?)?;
    }
    Ok(all)
}

/// Where the body of a function begins.
#[tactic(auto, using(cc_control::proofs::LevelLemmas::of_levels))]
fn body_of<'p>(alloc: Global, f: &'p Func) -> Result<Control<'p>, NoMemory>
    ensures { IfOk result (λ c. control_of c ≡ close_of f.now.body 0 []) }
{
    let list = f.body.all();
    close(alloc, Left { list, cases: &[] }, 0, &[])
}

/// An activation of a function, before its first step.
pub fn activation<'p>(
    alloc: Global,
    p: &'p Program,
    number: u64,
    id: u32,
    handler: bool,
    args: &[Value],
    f: &'p Func,
) -> Result<Activation<'p>, NoMemory>
    requires { AreSized p.now.structures p.now.target }
    ensures { IfOk result (λ a. active_of a ≡ activation_of p.now number id handler args.now f.now) }
{
    let body = body_of(alloc, f)?;
    let to = begun_at(alloc, p, number, id, body)?;
    let locals = locals_with(alloc, p, args, f.locals.all())?;
    Ok(Activation {
        number,
        func: id,
        handler,
        locals,
        here: to.here,
        around: to.around,
        marks: Vec::new(alloc),
    })
}

impl<'p> Run<'p> {
    /// One more activation, which runs from now on.
    #[tactic(auto, using(crate::proofs::StackLemmas::of_push))]
    pub(crate) fn open(
        &mut self,
        alloc: Global,
        id: u32,
        handler: bool,
        args: &[Value],
        f: &'p Func,
    ) -> Result<(), NoMemory>
        requires sized { AreSized self.old.program.now.structures self.old.program.now.target }
        requires few { self.old.opened < 2 ^ 64 - 1 }
        ensures program { self.new.program ≡ self.old.program }
        ensures ok { OnOk result (state_of self.new ≡ opened_of self.old.program.now (state_of self.old) id handler args.now f.now) }
        ensures err { OnErr result (state_of self.new ≡ state_of self.old) }
    {
        let a = activation(alloc, self.program, self.opened, id, handler, args, f)?;
        self.stack.push(a)?;
        self.opened += 1;
        Ok(())
    }
}
