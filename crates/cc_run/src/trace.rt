//! The text of a trace.

ghost use Rattle.std.specs.Prelude.{◌≡◌, ◌++◌, ◌∷◌, [], IfOk, OnOk, codes, map, option_map, slice_get};
ghost use Rattle.std.specs.Fmt.{decimal, signed_decimal};
ghost use Rattle.std.specs.Option.{option_copied};
ghost use Rattle.csv.specs.Writing.{row_text, default_writer};
ghost use Rattle.cc_states.specs.CcTyped.View.{place_view};
ghost use Rattle.cc_program.specs.declared.value.Part.TheVariants.{Member};
ghost use Rattle.cc_states.specs.CcSteps.Rows.{member_name as name_of_member, step_in, steps, func_name as name_of_func, local_in, object_spelled, device_spelled, cell_spelled, value_spelled, row_of, rows_of, address_spelled, ToMember};
ghost use Rattle.cc_states.specs.CcSteps.Runs.{run};
ghost use Rattle.cc_run.specs.Trace.{name_text, into_text, steps_text, spelled_text, index_text, value_text, row_fields, end_fields, rows_text};

use cc_meaning::{End, Event};
use cc_program::num::{NoMemory, at};
use cc_program::{Address, Cell, Part, Program, Root, Shape, Value};
use cc_states::eval::object_type;
use cc_states::typed_crate::{PlaceType, step_into};
use csv::WriterBuilder;
use std::alloc::Global;

/// Appends bytes.
fn put(text: &mut Vec<u8>, bytes: &[u8]) -> Result<(), NoMemory>
    ensures { OnOk result (text.new.items ≡ text.old.items ++ bytes.now) }
{
    text.extend_from_slice(bytes)?;
    Ok(())
}

fn put_number(alloc: Global, text: &mut Vec<u8>, number: u64) -> Result<(), NoMemory>
    ensures { OnOk result (text.new.items ≡ text.old.items ++ decimal number) }
{
    let digits = format!(in alloc; "{number}")?;
    put(text, digits.as_bytes())
}

fn put_integer(alloc: Global, text: &mut Vec<u8>, number: i128) -> Result<(), NoMemory>
    ensures { OnOk result (text.new.items ≡ text.old.items ++ signed_decimal number) }
{
    let digits = format!(in alloc; "{number}")?;
    put(text, digits.as_bytes())
}

/// Appends a name, where there is one.
fn put_name(text: &mut Vec<u8>, name: Option<&[u8]>) -> Result<(), NoMemory>
    ensures { OnOk result (text.new.items ≡ text.old.items ++ name_text (option_map (λ n. n.now) name.entry)) }
{
    match name {
        Some(name) => put(text, name),
        None => Ok(()),
    }
}

fn member_name<'p>(p: &'p Program, m: u32, place: PlaceType<'p>) -> Option<&'p [u8]>
    ensures { step_in p.now (Member m) (place_view place.entry) ≡ ToMember (option_map (λ n. n.now) result) }
{
    match place {
        PlaceType::Object(_, _, t) => match &t.shape {
            Shape::Struct(s) => {
                let structure = at(p.structures.all(), *s as usize)?;
                Some(at(structure.members.all(), m as usize)?.0.all())
            }
            _ => None,
        },
        _ => None,
    }
}

fn put_step(
    alloc: Global,
    text: &mut Vec<u8>,
    p: &Program,
    step: Part,
    place: PlaceType,
) -> Result<(), NoMemory>
    ensures { OnOk result (text.new.items ≡ text.old.items ++ into_text (step_in p.now step (place_view place.entry))) }
{
    match step {
        Part::Member(m) => {
            put(text, b".")?;
            put_name(text, member_name(p, m, place))
        }
        Part::Index(i) => {
            put(text, b"[")?;
            put_number(alloc, text, u64::from(i))?;
            put(text, b"]")
        }
    }
}

/// Appends the steps of a path, from a place on.
fn put_steps(
    alloc: Global,
    text: &mut Vec<u8>,
    p: &Program,
    path: &[Part],
    start: Option<PlaceType>,
) -> Result<(), NoMemory>
    ensures { OnOk result (text.new.items ≡ text.old.items ++ steps_text (steps p.now path.now (option_map place_view start.entry))) }
{
    let mut left = path;
    let mut place = start;
    while let [step, behind @ ..] = left {
        let Some(here) = place else {
            return Ok(());
        };
        put_step(alloc, text, p, *step, here)?;
        place = step_into(p.structures.all(), *step, here);
        left = behind;
    }
    Ok(())
}

fn func_name(p: &Program, func: u32) -> Option<&[u8]>
    ensures { option_map (λ n. n.now) result ≡ name_of_func p.now func }
{
    Some(at(p.funcs.all(), func as usize)?.name.all())
}

fn local_name(p: &Program, func: u32, local: u32) -> Option<&[u8]>
    ensures { option_map (λ n. n.now) result ≡ local_in p.now local (slice_get p.now.funcs func) }
{
    let f = at(p.funcs.all(), func as usize)?;
    Some(at(f.locals.all(), local as usize)?.0.all())
}

fn object_name(p: &Program, object: u32) -> Option<&[u8]>
    ensures { option_map (λ n. n.now) result ≡ option_map (λ o. o.name) (slice_get p.now.objects object) }
{
    Some(at(p.objects.all(), object as usize)?.name.all())
}

/// Appends an object with the steps into it.
fn put_object(
    alloc: Global,
    text: &mut Vec<u8>,
    p: &Program,
    object: Root,
    path: &[Part],
) -> Result<(), NoMemory>
    ensures { OnOk result (text.new.items ≡ text.old.items ++ spelled_text (object_spelled p.now object path.now)) }
{
    match object {
        Root::Static(o) => put_name(text, object_name(p, o))?,
        Root::Auto { func, local, .. } => {
            put_name(text, local_name(p, func, local))?;
            put(text, b"@")?;
            put_name(text, func_name(p, func))?;
        }
    }
    put_steps(alloc, text, p, path, object_type(p, object))
}

fn put_device(alloc: Global, text: &mut Vec<u8>, p: &Program, device: u32) -> Result<(), NoMemory>
    ensures { OnOk result (text.new.items ≡ text.old.items ++ spelled_text (device_spelled p.now (slice_get p.now.devices device))) }
{
    match at(p.devices.all(), device as usize) {
        None => {
            put(text, b"@")?;
            put_number(alloc, text, 0)
        }
        Some(device) => match &device.name {
            Some(name) => put(text, name.all()),
            None => {
                put(text, b"@")?;
                put_number(alloc, text, device.number)
            }
        },
    }
}

fn put_cell(alloc: Global, text: &mut Vec<u8>, p: &Program, cell: &Cell) -> Result<(), NoMemory>
    ensures { OnOk result (text.new.items ≡ text.old.items ++ spelled_text (cell_spelled p.now cell.now)) }
{
    match cell {
        Cell::Device(d) => put_device(alloc, text, p, *d),
        Cell::At { object, path } => put_object(alloc, text, p, *object, path.all()),
    }
}

/// Appends the last index of an address; it is left off where it is 0 of an array of one.
fn put_index(alloc: Global, text: &mut Vec<u8>, index: u32, count: u32) -> Result<(), NoMemory>
    ensures { OnOk result (text.new.items ≡ text.old.items ++ index_text index count) }
{
    if index == 0 && count == 1 {
        return Ok(());
    }
    put(text, b"[")?;
    put_number(alloc, text, u64::from(index))?;
    put(text, b"]")
}

fn put_address(alloc: Global, text: &mut Vec<u8>, p: &Program, a: &Address) -> Result<(), NoMemory>
    ensures { OnOk result (text.new.items ≡ text.old.items ++ value_text (address_spelled p.now a.now)) }
{
    match a {
        Address::Null => put(text, b"0"),
        Address::Func(f) => put_name(text, func_name(p, *f)),
        Address::At {
            object,
            path,
            index,
            count,
        } => {
            put(text, b"&")?;
            put_object(alloc, text, p, *object, path.all())?;
            put_index(alloc, text, *index, *count)
        }
    }
}

fn put_value(alloc: Global, text: &mut Vec<u8>, p: &Program, value: &Value) -> Result<(), NoMemory>
    ensures { OnOk result (text.new.items ≡ text.old.items ++ value_text (value_spelled p.now value.now)) }
{
    match value {
        Value::Int(n) => put_integer(alloc, text, *n),
        Value::Place(a) => put_address(alloc, text, p, a),
    }
}

/// Appends a row of three fields. The only error of a writer into memory is want of memory.
fn put_row(
    alloc: Global,
    text: &mut Vec<u8>,
    kind: &[u8],
    second: &[u8],
    third: &[u8],
) -> Result<(), NoMemory>
    ensures { OnOk result (text.new.items ≡ text.old.items ++ row_text default_writer (kind.now ∷ second.now ∷ third.now ∷ [])) }
{
    let mut writer = WriterBuilder::new().from_writer(Vec::new(alloc));
    if writer.write_fields(&[kind, second, third]).is_err() {
        return Err(NoMemory);
    }
    match writer.into_inner() {
        Err(_) => Err(NoMemory),
        Ok(row) => put(text, row.as_slice()),
    }
}

/// Appends the row of an access.
fn put_access(
    alloc: Global,
    text: &mut Vec<u8>,
    p: &Program,
    kind: &[u8],
    cell: &Cell,
    value: &Value,
) -> Result<(), NoMemory>
    ensures { OnOk result (text.new.items ≡ text.old.items ++ row_text default_writer (kind.now ∷ spelled_text (cell_spelled p.now cell.now) ∷ value_text (value_spelled p.now value.now) ∷ [])) }
{
    let mut second = Vec::new(alloc);
    put_cell(alloc, &mut second, p, cell)?;
    let mut third = Vec::new(alloc);
    put_value(alloc, &mut third, p, value)?;
    put_row(alloc, text, kind, second.as_slice(), third.as_slice())
}

fn put_entry(alloc: Global, text: &mut Vec<u8>, p: &Program, handler: u32) -> Result<(), NoMemory>
    ensures { OnOk result (text.new.items ≡ text.old.items ++ row_text default_writer (codes "enter" ∷ name_text (name_of_func p.now handler) ∷ [] ∷ [])) }
{
    let mut second = Vec::new(alloc);
    put_name(&mut second, func_name(p, handler))?;
    put_row(alloc, text, b"enter", second.as_slice(), b"")
}

fn put_event(alloc: Global, text: &mut Vec<u8>, p: &Program, event: &Event) -> Result<(), NoMemory>
    ensures { OnOk result (text.new.items ≡ text.old.items ++ row_text default_writer (row_fields (row_of p.now event.now))) }
{
    match event {
        Event::Read(cell, value) => put_access(alloc, text, p, b"read", cell, value),
        Event::Write(cell, value) => put_access(alloc, text, p, b"write", cell, value),
        Event::Enter(handler) => put_entry(alloc, text, p, *handler),
    }
}

fn put_end(alloc: Global, text: &mut Vec<u8>, end: End) -> Result<(), NoMemory>
    ensures { OnOk result (text.new.items ≡ text.old.items ++ row_text default_writer (end_fields end)) }
{
    match end {
        End::Going => put_row(alloc, text, b"end", b"going", b""),
        End::Trap => put_row(alloc, text, b"end", b"trap", b""),
        End::Starved => put_row(alloc, text, b"end", b"starved", b""),
        End::Exit(v) => {
            let mut third = Vec::new(alloc);
            put_integer(alloc, &mut third, v)?;
            put_row(alloc, text, b"end", b"exit", third.as_slice())
        }
    }
}

/// The text of a trace, with how the run stands.
#[tactic(auto, using(crate::proofs::TraceLemmas::of_rows))]
pub(crate) fn trace_text(
    alloc: Global,
    p: &Program,
    trace: &[Event],
    end: End,
) -> Result<Vec<u8>, NoMemory>
    ensures { IfOk result (λ text. text.items ≡ rows_text (rows_of p.now trace.now) ++ row_text default_writer (end_fields end)) }
{
    let mut text = Vec::new(alloc);
    for event in trace {
        put_event(alloc, &mut text, p, event)?;
    }
    put_end(alloc, &mut text, end)?;
    Ok(text)
}
