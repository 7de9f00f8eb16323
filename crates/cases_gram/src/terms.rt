//! Expressions, type names, specifiers and declarators.

use crate::form::Form;
use crate::words::{assignment, operator, spelled};
use cc_gram::{At, Attr, Declr, Enumr, MemberDecl, Param, Params, Spec, Tree, TypeName};
use cc_lex::Suffix;
use cc_num::{List, Name};

fn write_number(form: &mut Form, value: u64, suffix: Suffix) {
    form.put(if suffix.decimal { "" } else { "#" });
    form.number(value);
    form.put(if suffix.unsigned { "u" } else { "" });
    form.put(match suffix.longs {
        0 => "",
        1 => "l",
        _ => "ll",
    });
}

fn write_tag(form: &mut Form, tag: &Option<Name>) {
    form.put(" ");
    match tag {
        None => form.put("-"),
        Some(name) => form.bytes(name.all()),
    }
}

fn write_attr(form: &mut Form, attr: &Attr) {
    form.put("@{");
    let mut is_first = true;
    for (name, argument) in attr.words.all() {
        form.put(if is_first { "" } else { " " });
        form.bytes(name.all());
        if let Some(argument) = argument {
            form.put(":");
            form.bytes(argument.all());
        }
        is_first = false;
    }
    form.put("}");
}

pub fn write_attrs(form: &mut Form, attrs: &List<At<Attr>>) {
    for attr in attrs.all() {
        form.begin(" ", attr.at);
        write_attr(form, &attr.node);
    }
}

/// Writes a name or a constant; of an operator with operands the parenthesis that opens and how it is spelled.
fn write_head(form: &mut Form, tree: &Tree) {
    match tree {
        Tree::Named(name) => form.bytes(name.all()),
        Tree::Number(value, suffix) => write_number(form, *value, *suffix),
        Tree::Character(byte) => {
            form.put("'");
            form.number(u64::from(*byte));
        }
        Tree::Text(bytes) => {
            form.put("\"");
            form.bytes(bytes.all());
            form.put("\"");
        }
        Tree::Assign(mark, _, _) => form.open(assignment(*mark)),
        Tree::Binary(mark, _, _) | Tree::Prefix(mark, _) => form.open(operator(*mark)),
        Tree::Comma(_, _) => form.open(","),
        Tree::Choose(_, _, _) => form.open("?"),
        Tree::SizeOf(_) | Tree::SizeOfType(_) => form.open("sizeof"),
        Tree::Extension(_) => form.open("__extension__"),
        Tree::Subscript(_, _) => form.open("index"),
        Tree::Call(_, _) => form.open("call"),
        Tree::Member(_, _) => form.open("."),
        Tree::Arrow(_, _) => form.open("->"),
        Tree::Paren(_) => form.put("["),
        Tree::Postfix(_, _) | Tree::Cast(_, _) => form.put("("),
    }
}

/// Writes what stands behind the operands.
fn write_end(form: &mut Form, tree: &Tree) {
    match tree {
        Tree::Named(_) | Tree::Number(_, _) | Tree::Character(_) | Tree::Text(_) => {}
        Tree::Paren(_) => form.put("]"),
        Tree::Postfix(_, mark) => {
            form.put(" ");
            form.put(operator(*mark));
            form.put(")");
        }
        Tree::Member(_, name) | Tree::Arrow(_, name) => {
            form.name(" ", name);
            form.put(")");
        }
        _ => form.put(")"),
    }
}

#[cycle(written)]
pub fn write_tree(form: &mut Form, front: &str, tree: &At<Tree>) {
    form.begin(front, tree.at);
    write_head(form, &tree.node);
    match &tree.node {
        Tree::Named(_) | Tree::Number(_, _) | Tree::Character(_) | Tree::Text(_) => {}
        Tree::Paren(e) | Tree::Postfix(e, _) => write_tree(form, "", e.get()),
        Tree::Prefix(_, e)
        | Tree::SizeOf(e)
        | Tree::Extension(e)
        | Tree::Member(e, _)
        | Tree::Arrow(e, _) => write_tree(form, " ", e.get()),
        Tree::Comma(a, b) | Tree::Assign(_, a, b) | Tree::Binary(_, a, b) | Tree::Subscript(a, b) =>
            {
                write_tree(form, " ", a.get());
                write_tree(form, " ", b.get());
            }
        Tree::Choose(c, a, b) => {
            write_tree(form, " ", c.get());
            write_tree(form, " ", a.get());
            write_tree(form, " ", b.get());
        }
        Tree::SizeOfType(t) => write_type_name(form, " ", t.get()),
        Tree::Cast(t, e) => {
            write_type_name(form, "", t.get());
            write_tree(form, " ", e.get());
        }
        Tree::Call(f, arguments) => {
            write_tree(form, " ", f.get());
            for e in arguments.all() {
                write_tree(form, " ", e);
            }
        }
    }
    write_end(form, &tree.node);
}

#[cycle(written)]
fn write_type_name(form: &mut Form, front: &str, name: &TypeName) {
    form.put(front);
    form.put("{");
    for spec in name.specs.all() {
        write_spec(form, spec);
    }
    write_declr(form, "", &name.declr);
    form.put("}");
}

/// A specifier and a blank.
#[cycle(written)]
pub fn write_spec(form: &mut Form, spec: &At<Spec>) {
    form.begin("", spec.at);
    match &spec.node {
        Spec::Word(word) => form.put(spelled(*word)),
        Spec::Named(name) => form.bytes(name.all()),
        Spec::Struct(tag, members, before, behind) => {
            form.put("{struct");
            write_attrs(form, before);
            write_tag(form, tag);
            if let Some(members) = members {
                form.put(" =");
                for member in members.all() {
                    write_member(form, member);
                }
            }
            write_attrs(form, behind);
            form.put("}");
        }
        Spec::Enum(tag, constants) => {
            form.put("{enum");
            write_tag(form, tag);
            if let Some(constants) = constants {
                form.put(" =");
                for constant in constants.all() {
                    write_constant(form, constant);
                }
            }
            form.put("}");
        }
        Spec::Attr(attr) => write_attr(form, attr),
    }
    form.put(" ");
}

#[cycle(written)]
fn write_member(form: &mut Form, member: &At<MemberDecl>) {
    form.begin(" ", member.at);
    form.put("{");
    for spec in member.node.specs.all() {
        write_spec(form, spec);
    }
    form.put(":");
    let mut is_first = true;
    for declr in member.node.declrs.all() {
        write_declr(form, if is_first { " " } else { ", " }, declr);
        is_first = false;
    }
    form.put("}");
}

#[cycle(written)]
fn write_constant(form: &mut Form, constant: &At<Enumr>) {
    form.begin(" ", constant.at);
    match &constant.node.value {
        None => form.bytes(constant.node.name.all()),
        Some(value) => {
            form.put("{");
            form.bytes(constant.node.name.all());
            write_tree(form, " ", value);
            form.put("}");
        }
    }
}

#[cycle(written)]
pub fn write_declr(form: &mut Form, front: &str, declr: &At<Declr>) {
    form.begin(front, declr.at);
    match &declr.node {
        Declr::Nothing => form.put("-"),
        Declr::Named(name) => form.bytes(name.all()),
        Declr::Paren(inner) => {
            write_declr(form, "[", inner.get());
            form.put("]");
        }
        Declr::Pointer(qualifiers, inner) => {
            form.put("(ptr");
            for qualifier in qualifiers.all() {
                form.put(" ");
                form.put(spelled(*qualifier));
            }
            write_declr(form, " ", inner.get());
            form.put(")");
        }
        Declr::Array(inner, bound) => {
            write_declr(form, "(array ", inner.get());
            if let Some(bound) = bound {
                write_tree(form, " ", bound.get());
            }
            form.put(")");
        }
        Declr::Func(inner, params) => {
            write_declr(form, "(func ", inner.get());
            write_params(form, params);
            form.put(")");
        }
    }
}

#[cycle(written)]
fn write_params(form: &mut Form, params: &Params) {
    match params {
        Params::Empty => form.put(" -"),
        Params::Void => form.put(" void"),
        Params::Many(list) => {
            for param in list.all() {
                write_param(form, param);
            }
        }
    }
}

#[cycle(written)]
fn write_param(form: &mut Form, param: &At<Param>) {
    form.begin(" ", param.at);
    form.put("{");
    for spec in param.node.specs.all() {
        write_spec(form, spec);
    }
    write_declr(form, "", &param.node.declr);
    form.put("}");
}
