//! Reads and writes of cells, by the running activation.

ghost use Rattle.std.specs.Prelude.{◌≡◌, ℕ, IfOk, OnOk, OnErr, Some, true};
ghost use Rattle.std.specs.Option.{option_copied};
ghost use Rattle.cc_cells.specs.Counts.{counted};
ghost use Rattle.cc_eval.specs.declared.mark.Mark.TheVariants as mark;
ghost use Rattle.cc_program.specs.declared.value.Cell.TheVariants as cell;
ghost use Rattle.cc_program.specs.declared.value.Root.TheVariants as root;
ghost use Rattle.cc_eval.specs.CcSyntax.Sizes.{AreSized};
ghost use Rattle.cc_steps.specs.declared.event.Event.TheVariants as event;
ghost use Rattle.cc_steps.specs.Step.{stopped, with_event, static_content as static_content_of, content_at as content_at_of, cell_position, did, has_read as has_read_of, read as read_of, has_written, written, write as write_of};
ghost use Rattle.cc_steps.specs.View.{state_of};

use crate::content::Content;
use crate::event::{End, Event};
use crate::run::Run;
use crate::stack::{is_open, local_content, mark_top, write_local};
use cc_cells::{position, read_scalar, write_scalar};
use cc_eval::{Manner, Mark, object_type};
use cc_program::num::{List, NoMemory, at, convert};
use cc_program::{Cell, Part, Root, Value};
use std::alloc::Global;

fn static_content(alloc: Global, v: Option<&Value>) -> Result<Content, NoMemory>
    ensures { IfOk result (λ c. c ≡ static_content_of (option_copied v.entry)) }
{
    match v {
        None => Ok(Content::Gone),
        Some(v) => Ok(Content::Holds(v.copy(alloc)?)),
    }
}

/// A local of an activation.
#[derive(Clone, Copy)]
struct Auto {
    activation: u64,
    func: u32,
    local: u32,
}

impl<'p> Run<'p> {
    /// Where a scalar of an object stands, up to `usize::MAX`.
    fn position_of(&self, object: Root, path: &[Part]) -> usize
        ensures { result ≡ counted (cell_position self.now.program.now object path.now) }
    {
        position(
            self.program.structures.all(),
            path,
            object_type(self.program, object),
        )
    }

    /// What the scalar at a position of an object holds.
    fn content_at(&self, alloc: Global, object: Root, position: usize) -> Result<Content, NoMemory>
        ensures { IfOk result (λ c. (n : ℕ) → counted n ≡ position → c ≡ content_at_of (state_of self.now) object n) }
    {
        match object {
            Root::Static(i) => static_content(alloc, read_scalar(&self.statics, i, position)),
            Root::Auto {
                activation,
                func: _,
                local,
            } => local_content(alloc, &self.stack, activation, local, position),
        }
    }

    /// A step is done that can be seen.
    fn mark_event(&mut self, alloc: Global, mark: Mark, event: Event) -> Result<(), NoMemory>
        requires { AreSized self.old.program.now.structures self.old.program.now.target }
        ensures program { self.new.program ≡ self.old.program }
        ensures ok { OnOk result (state_of self.new ≡ did self.old.program.now (with_event true (state_of self.old) event) mark) }
        ensures err { OnErr result (state_of self.new ≡ state_of self.old) }
    {
        self.trace.reserve(1)?;
        mark_top(alloc, self.program, &mut self.stack, mark)?;
        self.trace.push(event)?;
        Ok(())
    }

    /// A read gave a value.
    fn give(
        &mut self,
        alloc: Global,
        from: Cell,
        is_event: bool,
        value: Value,
    ) -> Result<(), NoMemory>
        requires { AreSized self.old.program.now.structures self.old.program.now.target }
        ensures program { self.new.program ≡ self.old.program }
        ensures ok { OnOk result (state_of self.new ≡ did self.old.program.now (with_event is_event (state_of self.old) (event.Read from value)) (mark.Gave (Some value))) }
        ensures err { OnErr result (state_of self.new ≡ state_of self.old) }
    {
        if !is_event {
            return mark_top(
                alloc,
                self.program,
                &mut self.stack,
                Mark::Gave(Some(value)),
            );
        }
        let seen = value.copy(alloc)?;
        self.mark_event(alloc, Mark::Gave(Some(value)), Event::Read(from, seen))
    }

    /// A read of what holds this.
    fn has_read(
        &mut self,
        alloc: Global,
        from: Cell,
        manner: Manner,
        content: Content,
    ) -> Result<(), NoMemory>
        requires { AreSized self.old.program.now.structures self.old.program.now.target }
        ensures program { self.new.program ≡ self.old.program }
        ensures ok { OnOk result (state_of self.new ≡ has_read_of self.old.program.now (state_of self.old) from manner content) }
        ensures err { OnErr result (state_of self.new ≡ state_of self.old) }
    {
        match content {
            Content::Gone => {
                self.end = End::Trap;
                Ok(())
            }
            Content::Unwritten => {
                if manner.may_be_bad {
                    mark_top(alloc, self.program, &mut self.stack, Mark::Gave(None))
                } else {
                    self.end = End::Trap;
                    Ok(())
                }
            }
            Content::Holds(value) => self.give(alloc, from, manner.is_event, value),
        }
    }

    fn read_object(
        &mut self,
        alloc: Global,
        object: Root,
        path: List<Part>,
        manner: Manner,
    ) -> Result<(), NoMemory>
        requires { AreSized self.old.program.now.structures self.old.program.now.target }
        ensures program { self.new.program ≡ self.old.program }
        ensures ok { OnOk result (state_of self.new ≡ read_of self.old.program.now (state_of self.old) (cell.At object path) manner) }
        ensures err { OnErr result (state_of self.new ≡ state_of self.old) }
    {
        let position = self.position_of(object, path.all());
        let content = self.content_at(alloc, object, position)?;
        self.has_read(alloc, Cell::At { object, path }, manner, content)
    }

    /// A device gives the next input in its type.
    #[tactic(auto, using(crate::proofs::InputLemmas::of_inputs))]
    fn read_device(&mut self, alloc: Global, d: u32, manner: Manner) -> Result<(), NoMemory>
        requires { AreSized self.old.program.now.structures self.old.program.now.target }
        ensures program { self.new.program ≡ self.old.program }
        ensures ok { OnOk result (state_of self.new ≡ read_of self.old.program.now (state_of self.old) (cell.Device d) manner) }
        ensures err { OnErr result (state_of self.new ≡ state_of self.old) }
    {
        let Some(device) = at(self.program.devices.all(), d as usize) else {
            self.end = End::Trap;
            return Ok(());
        };
        let Some(input) = self.inputs.last() else {
            self.end = End::Starved;
            return Ok(());
        };
        let n = convert(*input, device.int, &self.program.target);
        self.trace.reserve(1)?;
        mark_top(
            alloc,
            self.program,
            &mut self.stack,
            Mark::Gave(Some(Value::Int(n))),
        )?;
        self.inputs.pop();
        self.trace
            .push(Event::Read(Cell::Device(d), Value::Int(n)))?;
        Ok(())
    }

    /// Reads a cell.
    pub(crate) fn read(&mut self, alloc: Global, from: Cell, manner: Manner) -> Result<(), NoMemory>
        requires { AreSized self.old.program.now.structures self.old.program.now.target }
        ensures program { self.new.program ≡ self.old.program }
        ensures ok { OnOk result (state_of self.new ≡ read_of self.old.program.now (state_of self.old) from manner) }
        ensures err { OnErr result (state_of self.new ≡ state_of self.old) }
    {
        match from {
            Cell::Device(d) => self.read_device(alloc, d, manner),
            Cell::At { object, path } => self.read_object(alloc, object, path, manner),
        }
    }

    fn write_device(&mut self, alloc: Global, d: u32, value: Value) -> Result<(), NoMemory>
        requires { AreSized self.old.program.now.structures self.old.program.now.target }
        ensures program { self.new.program ≡ self.old.program }
        ensures ok { OnOk result (state_of self.new ≡ did self.old.program.now (with_event true (state_of self.old) (event.Write (cell.Device d) value)) mark.Did) }
        ensures err { OnErr result (state_of self.new ≡ state_of self.old) }
    {
        self.mark_event(alloc, Mark::Did, Event::Write(Cell::Device(d), value))
    }

    /// A write is done, but for the cell.
    fn mark_write(
        &mut self,
        alloc: Global,
        to: Cell,
        is_event: bool,
        value: &Value,
    ) -> Result<(), NoMemory>
        requires { AreSized self.old.program.now.structures self.old.program.now.target }
        ensures program { self.new.program ≡ self.old.program }
        ensures ok { OnOk result (state_of self.new ≡ did self.old.program.now (with_event is_event (state_of self.old) (event.Write to value.now)) mark.Did) }
        ensures err { OnErr result (state_of self.new ≡ state_of self.old) }
    {
        if !is_event {
            return mark_top(alloc, self.program, &mut self.stack, Mark::Did);
        }
        let seen = value.copy(alloc)?;
        self.mark_event(alloc, Mark::Did, Event::Write(to, seen))
    }

    #[tactic(auto, using(crate::proofs::WriteLemmas::of_static_writes))]
    fn write_static(
        &mut self,
        alloc: Global,
        to: Cell,
        i: u32,
        position: usize,
        is_event: bool,
        value: Value,
    ) -> Result<(), NoMemory>
        requires { AreSized self.old.program.now.structures self.old.program.now.target }
        ensures program { self.new.program ≡ self.old.program }
        ensures ok { OnOk result ((n : ℕ) → counted n ≡ position → state_of self.new ≡ has_written self.old.program.now to is_event value (state_of self.old) (written (state_of self.old) (root.Static i) n value)) }
        ensures err { OnErr result (state_of self.new ≡ state_of self.old) }
    {
        self.mark_write(alloc, to, is_event, &value)?;
        write_scalar(&mut self.statics, i, position, value);
        Ok(())
    }

    #[tactic(auto, using(crate::proofs::WriteLemmas::of_writes))]
    fn write_auto(
        &mut self,
        alloc: Global,
        to: Cell,
        object: Auto,
        position: usize,
        is_event: bool,
        value: Value,
    ) -> Result<(), NoMemory>
        requires { AreSized self.old.program.now.structures self.old.program.now.target }
        ensures program { self.new.program ≡ self.old.program }
        ensures ok { OnOk result ((n : ℕ) → counted n ≡ position → state_of self.new ≡ has_written self.old.program.now to is_event value (state_of self.old) (written (state_of self.old) (root.Auto object.activation object.func object.local) n value)) }
        ensures err { OnErr result (state_of self.new ≡ state_of self.old) }
    {
        if !is_open(&self.stack, object.activation) {
            self.end = End::Trap;
            return Ok(());
        }
        self.mark_write(alloc, to, is_event, &value)?;
        write_local(
            &mut self.stack,
            object.activation,
            object.local,
            position,
            value,
        );
        Ok(())
    }

    fn write_object(
        &mut self,
        alloc: Global,
        object: Root,
        path: List<Part>,
        is_event: bool,
        value: Value,
    ) -> Result<(), NoMemory>
        requires { AreSized self.old.program.now.structures self.old.program.now.target }
        ensures program { self.new.program ≡ self.old.program }
        ensures ok { OnOk result (state_of self.new ≡ write_of self.old.program.now (state_of self.old) (cell.At object path) is_event value) }
        ensures err { OnErr result (state_of self.new ≡ state_of self.old) }
    {
        let position = self.position_of(object, path.all());
        let to = Cell::At { object, path };
        match object {
            Root::Static(i) => self.write_static(alloc, to, i, position, is_event, value),
            Root::Auto {
                activation,
                func,
                local,
            } => {
                let object = Auto {
                    activation,
                    func,
                    local,
                };
                self.write_auto(alloc, to, object, position, is_event, value)
            }
        }
    }

    /// Writes a cell.
    pub(crate) fn write(
        &mut self,
        alloc: Global,
        to: Cell,
        is_event: bool,
        value: Value,
    ) -> Result<(), NoMemory>
        requires { AreSized self.old.program.now.structures self.old.program.now.target }
        ensures program { self.new.program ≡ self.old.program }
        ensures ok { OnOk result (state_of self.new ≡ write_of self.old.program.now (state_of self.old) to is_event value) }
        ensures err { OnErr result (state_of self.new ≡ state_of self.old) }
    {
        match to {
            Cell::Device(d) => self.write_device(alloc, d, value),
            Cell::At { object, path } => self.write_object(alloc, object, path, is_event, value),
        }
    }
}
