//! Declarations, statements and translation units.

use crate::form::Form;
use crate::terms::{write_attrs, write_declr, write_spec, write_tree};
use cc_gram::{At, Decl, First, Given, Init, Item, Line, Spec, Tree, Unit};
use cc_num::{Boxed, List};

fn write_given(form: &mut Form, given: &At<Given>) {
    form.begin(" ", given.at);
    match &given.node {
        Given::One(e) => write_tree(form, "", e),
        Given::Many(list) => {
            form.put("(list");
            for value in list.all() {
                write_given(form, value);
            }
            form.put(")");
        }
    }
}

fn write_init(form: &mut Form, front: &str, init: &At<Init>) {
    form.begin(front, init.at);
    write_declr(form, "", &init.node.declr);
    write_attrs(form, &init.node.attrs);
    if let Some(value) = &init.node.value {
        form.put(" =");
        write_given(form, value);
    }
}

fn write_specs(form: &mut Form, specs: &List<At<Spec>>) {
    for spec in specs.all() {
        write_spec(form, spec);
    }
}

fn write_decl(form: &mut Form, decl: &Decl) {
    form.put("{decl ");
    write_specs(form, &decl.specs);
    form.put(":");
    let mut is_first = true;
    for init in decl.inits.all() {
        write_init(form, if is_first { " " } else { ", " }, init);
        is_first = false;
    }
    form.put("}");
}

fn write_maybe(form: &mut Form, tree: &Option<Boxed<At<Tree>>>) {
    match tree {
        None => form.put(" -"),
        Some(e) => write_tree(form, " ", e.get()),
    }
}

fn write_first(form: &mut Form, first: &First) {
    match first {
        First::Decl(decl) => {
            form.put(" ");
            write_decl(form, decl);
        }
        First::Expr(e) => write_maybe(form, e),
    }
}

/// Writes the parenthesis that opens a statement, and its word.
fn write_word(form: &mut Form, line: &Line) {
    match line {
        Line::Block(_) => form.open("block"),
        Line::Decl(_) => {}
        Line::Expr(_) => form.open(";"),
        Line::If(_, _, _) => form.open("if"),
        Line::While(_, _) => form.open("while"),
        Line::DoWhile(_, _) => form.open("do"),
        Line::For(_, _, _, _) => form.open("for"),
        Line::Switch(_, _) => form.open("switch"),
        Line::Case(_, _) => form.open("case"),
        Line::Default(_) => form.open("default"),
        Line::Break => form.open("break"),
        Line::Continue => form.open("continue"),
        Line::Return(_) => form.open("return"),
    }
}

fn write_line(form: &mut Form, line: &At<Line>) {
    form.begin(" ", line.at);
    write_word(form, &line.node);
    match &line.node {
        Line::Decl(decl) => return write_decl(form, decl),
        Line::Break | Line::Continue => {}
        Line::Expr(e) | Line::Return(e) => {
            if let Some(e) = e {
                write_tree(form, " ", e.get());
            }
        }
        Line::Block(lines) => {
            for inner in lines.all() {
                write_line(form, inner);
            }
        }
        Line::While(c, body) | Line::Switch(c, body) | Line::Case(c, body) => {
            write_tree(form, " ", c.get());
            write_line(form, body.get());
        }
        Line::Default(body) => write_line(form, body.get()),
        Line::DoWhile(body, c) => {
            write_line(form, body.get());
            write_tree(form, " ", c.get());
        }
        Line::If(c, a, b) => {
            write_tree(form, " ", c.get());
            write_line(form, a.get());
            if let Some(b) = b {
                write_line(form, b.get());
            }
        }
        Line::For(first, test, step, body) => {
            write_first(form, first.get());
            write_maybe(form, test);
            write_maybe(form, step);
            write_line(form, body.get());
        }
    }
    form.put(")");
}

fn write_item(form: &mut Form, item: &At<Item>) {
    form.begin("", item.at);
    match &item.node {
        Item::Decl(decl) => write_decl(form, decl),
        Item::Func(specs, declr, attrs, body) => {
            form.put("{fn ");
            write_specs(form, specs);
            write_declr(form, ": ", declr);
            write_attrs(form, attrs);
            form.put(" |");
            for line in body.all() {
                write_line(form, line);
            }
            form.put("}");
        }
    }
}

/// Writes the items of a translation unit, with a blank between two.
pub fn write_unit(form: &mut Form, unit: &Unit) {
    let mut is_first = true;
    for item in unit.items.all() {
        form.put(if is_first { "" } else { " " });
        write_item(form, item);
        is_first = false;
    }
}
