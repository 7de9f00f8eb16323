//! The printed text of a program.

ghost use Rattle.std.specs.Prelude.{◌≡◌, IfOk, OnOk};
ghost use Rattle.cc_pieces.specs.View.{pieces_of};
ghost use Rattle.cc_print.specs.Printed.{intrinsics, types, objects, printed, text};
ghost use Rattle.cc_typed.specs.CcSyntax.Normal.{IsNormal};
ghost use Rattle.cc_typed.specs.CcSyntax.Sizes.{AreSized};

use crate::declarations::{put_device_lines, put_functions, put_object_lines, put_prototypes};
use crate::structures::{put_announcements, put_structures};
use crate::uses::put_intrinsic_prototype;
use crate::values::put_definitions;
use cc_pieces::{Symbol, spell};
use cc_program::num::NoMemory;
use cc_program::{Intr, Program};
use std::alloc::Global;

fn put_intrinsics<'p>(out: &mut Vec<Symbol>, p: &'p Program) -> Result<(), NoMemory>
    ensures { OnOk result (pieces_of out.new.items ≡ intrinsics p.now (pieces_of out.old.items)) }
{
    put_intrinsic_prototype(out, p, Intr::Restore)?;
    put_intrinsic_prototype(out, p, Intr::Save)?;
    put_intrinsic_prototype(out, p, Intr::On)?;
    put_intrinsic_prototype(out, p, Intr::Off)
}

fn put_types<'p>(out: &mut Vec<Symbol>, p: &'p Program) -> Result<(), NoMemory>
    ensures { OnOk result (pieces_of out.new.items ≡ types p.now (pieces_of out.old.items)) }
{
    put_structures(out, p.structures.all())?;
    put_announcements(out, p.structures.all())
}

fn put_objects<'p>(out: &mut Vec<Symbol>, p: &'p Program) -> Result<(), NoMemory>
    ensures { OnOk result (pieces_of out.new.items ≡ objects p.now (pieces_of out.old.items)) }
{
    put_definitions(out, p)?;
    put_object_lines(out, p.structures.all(), p.objects.all())
}

/// The pieces of a program's text, the last one first.
#[tactic(auto, unfolding(crate::specs::Printed::printed), using(cc_pieces::proofs::PieceLemmas::of_pieces))]
fn pieces<'p>(alloc: Global, p: &'p Program) -> Result<Vec<Symbol>, NoMemory>
    requires { AreSized p.now.structures p.now.target }
    ensures { IfOk result (λ out. pieces_of out.items ≡ printed p.now) }
{
    let mut out = Vec::new(alloc);
    put_functions(&mut out, p)?;
    put_objects(&mut out, p)?;
    put_prototypes(&mut out, p.structures.all(), p.funcs.all())?;
    put_device_lines(&mut out, p.devices.all())?;
    put_types(&mut out, p)?;
    put_intrinsics(&mut out, p)?;
    Ok(out)
}

fn text_of(alloc: Global, p: &Program) -> Result<Vec<u8>, NoMemory>
    requires { AreSized p.now.structures p.now.target }
    ensures { IfOk result (λ out. out.items ≡ text p.now) }
{
    let last_first = pieces(alloc, p)?;
    spell(alloc, &last_first)
}

/// The printed text of a program in normal form. The only error is want of memory.
pub fn print(alloc: Global, p: &Program) -> Result<Vec<u8>, NoMemory>
    requires { IsNormal p.now }
    ensures canonical { IfOk result (λ out. out.items ≡ text p.now) }
{
    text_of(alloc, p)
}
