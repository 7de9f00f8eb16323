//! Types.

use cases_script::Page;
use cc_program::num::{IntType, List, Name};
use cc_program::{CType, Shape, Sig};

/// Writes a number behind a letter.
pub fn put_number(page: &mut Page, front: &str, number: u32) {
    page.put(front);
    page.show(number);
}

/// How an integer type is written.
pub fn int_word(t: IntType) -> &'static str {
    match t {
        IntType::Bool => "bool",
        IntType::Char => "char",
        IntType::SChar => "schar",
        IntType::UChar => "uchar",
        IntType::Short => "short",
        IntType::UShort => "ushort",
        IntType::Int => "int",
        IntType::UInt => "uint",
        IntType::Long => "long",
        IntType::ULong => "ulong",
        IntType::LongLong => "llong",
        IntType::ULongLong => "ullong",
    }
}

#[cycle(types)]
fn write_shape(page: &mut Page, shape: &Shape) {
    match shape {
        Shape::Void => page.put("void"),
        Shape::Int(t) => page.put(int_word(*t)),
        Shape::Pointer(to) => {
            page.put("(ptr ");
            write_type(page, to.get());
            page.put(")");
        }
        Shape::Array(of, count) => {
            page.put("(array ");
            write_type(page, of.get());
            put_number(page, " ", *count);
            page.put(")");
        }
        Shape::Struct(id) => put_number(page, "s", *id),
        Shape::Func(sig) => write_sig(page, sig.get()),
    }
}

#[cycle(types)]
fn write_sig(page: &mut Page, sig: &Sig) {
    page.put("(func ");
    write_type(page, &sig.result);
    for param in sig.params.all() {
        page.put(" ");
        write_type(page, param);
    }
    page.put(")");
}

/// Writes a type with its qualifiers.
#[cycle(types)]
pub fn write_type(page: &mut Page, t: &CType) {
    if t.constant {
        page.put("const ");
    }
    if t.volatile {
        page.put("volatile ");
    }
    write_shape(page, &t.shape);
}

/// Writes members or locals, with a comma between two.
pub fn write_named(page: &mut Page, named: &List<(Name, CType)>) {
    let mut front = "";
    for (name, ctype) in named.all() {
        page.put(front);
        page.bytes(name.all());
        page.put(" ");
        write_type(page, ctype);
        front = ", ";
    }
}
