//! Statements in normal form (C99 6.8), a line each.

ghost use Rattle.std.specs.Prelude.{◌≡◌, ◌∷◌, ◌+◌, OnOk, IfOk, map, option_map, slice_get};
ghost use Rattle.cc_pieces.specs.Pieces.{indent, keyword};
ghost use Rattle.cc_pieces.specs.View.{pieces_of};
ghost use Rattle.cc_program.specs.declared.types.Sig.{out-Sig};
ghost use Rattle.cc_bodies.specs.Stmts.{ended, opened, closed, head, all_lines, else_lines, case_body, case_lines, case_text, label_line, label_lines, label_type as label_type_of, returned, done, stmt, stmts};
ghost use Rattle.cc_typed.specs.CcSyntax.Programs.{type_of};
ghost use Rattle.cc_typed.specs.CcSyntax.Sizes.{AreSized};
ghost use Rattle.cc_typed.specs.View.{value_view};

use crate::effects::put_done;
use crate::exprs::{Context, put_expr};
use crate::spots::Spot;
use cc_lex::Mark;
use cc_pieces::{Piece, Symbol, mark, put, put_constant, word};
use cc_program::num::{Boxed, IntType, NoMemory, Target};
use cc_program::words::Word;
use cc_program::{Case, Expr, Stmt};
use cc_typed::{Scope, ValueType};

/// One level deeper. A tree as deep as `usize` counts fits in no memory.
fn deeper(level: usize) -> Result<usize, NoMemory>
    ensures { IfOk result (λ d. d ≡ level + 1) }
{
    level.checked_add(1).ok_or(NoMemory)
}

/// Puts the end of a statement's line in front.
pub fn put_ended(out: &mut Vec<Symbol>) -> Result<(), NoMemory>
    ensures { OnOk result (pieces_of out.new.items ≡ ended (pieces_of out.old.items)) }
{
    put(out, Piece::LineEnd)?;
    mark(out, Mark::Semi)
}

/// Puts `{` at the end of a line in front.
pub fn put_opened(out: &mut Vec<Symbol>) -> Result<(), NoMemory>
    ensures { OnOk result (pieces_of out.new.items ≡ opened (pieces_of out.old.items)) }
{
    put(out, Piece::LineEnd)?;
    mark(out, Mark::LBrace)?;
    put(out, Piece::Space)
}

/// Puts the line `}` in front.
pub fn put_closed(out: &mut Vec<Symbol>, level: usize) -> Result<(), NoMemory>
    ensures { OnOk result (pieces_of out.new.items ≡ closed level (pieces_of out.old.items)) }
{
    put(out, Piece::LineEnd)?;
    mark(out, Mark::RBrace)?;
    put(out, Piece::Indent(level))
}

fn put_word_line(out: &mut Vec<Symbol>, w: Word, level: usize) -> Result<(), NoMemory>
    ensures { OnOk result (pieces_of out.new.items ≡ indent level ∷ keyword w ∷ ended (pieces_of out.old.items)) }
{
    put_ended(out)?;
    word(out, w)?;
    put(out, Piece::Indent(level))
}

fn put_head<'p>(
    out: &mut Vec<Symbol>,
    c: Context<'p>,
    w: Word,
    e: &'p Expr,
    level: usize,
) -> Result<(), NoMemory>
    requires { AreSized c.program.now.structures c.program.now.target }
    ensures { OnOk result (pieces_of out.new.items ≡ head c.entry.program.now c.entry.func.now w e.now level (pieces_of out.old.items)) }
{
    put_opened(out)?;
    mark(out, Mark::RParen)?;
    put_expr(out, c, e, Spot::Operand)?;
    mark(out, Mark::LParen)?;
    put(out, Piece::Space)?;
    word(out, w)?;
    put(out, Piece::Indent(level))
}

fn put_returned<'p>(
    out: &mut Vec<Symbol>,
    c: Context<'p>,
    e: &'p Option<Boxed<Expr>>,
) -> Result<(), NoMemory>
    requires { AreSized c.program.now.structures c.program.now.target }
    ensures { OnOk result (pieces_of out.new.items ≡ returned c.entry.program.now c.entry.func.now e.now (pieces_of out.old.items)) }
{
    match e {
        None => Ok(()),
        Some(e) => {
            put_expr(out, c, e.get(), Spot::Whole(Some(&c.func.sig.result)))?;
            put(out, Piece::Space)
        }
    }
}

/// The type of the labels of a `switch` with an operand of this type.
fn label_type(operand: Option<ValueType>) -> IntType
    ensures { result ≡ label_type_of (option_map value_view operand.entry) }
{
    match operand {
        Some(ValueType::Integer(t)) => t,
        None => IntType::Int,
        Some(ValueType::NoValue) => IntType::Int,
        Some(ValueType::ToObject(_, _, _)) => IntType::Int,
        Some(ValueType::ToFunction(_)) => IntType::Int,
    }
}

fn label_type_in<'p>(c: Context<'p>, e: &'p Expr) -> IntType
    requires { AreSized c.program.now.structures c.program.now.target }
    ensures { result ≡ label_type_of (type_of c.entry.program.now c.entry.func.now.locals e.now) }
{
    let scope = Scope {
        program: c.program,
        locals: c.func.locals.all(),
    };
    label_type(scope.type_of(e))
}

fn put_label(
    out: &mut Vec<Symbol>,
    target: &Target,
    t: IntType,
    label: Option<i128>,
    level: usize,
) -> Result<(), NoMemory>
    ensures { OnOk result (pieces_of out.new.items ≡ label_line target.now t level label (pieces_of out.old.items)) }
{
    put(out, Piece::LineEnd)?;
    mark(out, Mark::Colon)?;
    match label {
        None => word(out, Word::Default)?,
        Some(n) => {
            put_constant(out, target, n, t)?;
            put(out, Piece::Space)?;
            word(out, Word::Case)?;
        }
    }
    put(out, Piece::Indent(level))
}

fn put_labels(
    out: &mut Vec<Symbol>,
    target: &Target,
    t: IntType,
    labels: &[Option<i128>],
    level: usize,
) -> Result<(), NoMemory>
    ensures { OnOk result (pieces_of out.new.items ≡ label_lines target.now t level labels.now (pieces_of out.old.items)) }
{
    let mut left = labels.len();
    while left > 0 {
        left -= 1;
        put_label(out, target, t, labels[left], level)?;
    }
    Ok(())
}

/// Puts a statement in front.
#[cycle(statements)]
fn put_stmt<'p>(
    out: &mut Vec<Symbol>,
    c: Context<'p>,
    s: &'p Stmt,
    level: usize,
) -> Result<(), NoMemory>
    requires { AreSized c.program.now.structures c.program.now.target }
    ensures { OnOk result (pieces_of out.new.items ≡ stmt c.entry.program.now c.entry.func.now s.now level (pieces_of out.old.items)) }
{
    match s {
        Stmt::Do(e) => {
            put_ended(out)?;
            put_done(out, c, e.get())?;
            put(out, Piece::Indent(level))
        }
        Stmt::If(e, a, b) => {
            put_closed(out, level)?;
            put_else(out, c, b.all(), level)?;
            put_list(out, c, a.all(), deeper(level)?)?;
            put_head(out, c, Word::If, e.get(), level)?;
            Ok(())
        }
        Stmt::While(e, a) => {
            put_closed(out, level)?;
            put_list(out, c, a.all(), deeper(level)?)?;
            put_head(out, c, Word::While, e.get(), level)?;
            Ok(())
        }
        Stmt::Switch(e, cases) => {
            put_closed(out, level)?;
            put_cases(out, c, label_type_in(c, e.get()), cases.all(), level)?;
            put_head(out, c, Word::Switch, e.get(), level)?;
            Ok(())
        }
        Stmt::Break => put_word_line(out, Word::Break, level),
        Stmt::Continue => put_word_line(out, Word::Continue, level),
        Stmt::Return(e) => {
            put_ended(out)?;
            put_returned(out, c, e)?;
            word(out, Word::Return)?;
            put(out, Piece::Indent(level))
        }
        Stmt::DoWhile(_, _) => Ok(()),
        Stmt::For(_, _, _, _) => Ok(()),
        Stmt::Empty => Ok(()),
        Stmt::Block(_) => Ok(()),
    }
}

/// Puts statements at a level in front.
#[cycle(statements)]
fn put_list<'p>(
    out: &mut Vec<Symbol>,
    c: Context<'p>,
    list: &'p [Stmt],
    level: usize,
) -> Result<(), NoMemory>
    requires { AreSized c.program.now.structures c.program.now.target }
    ensures { OnOk result (pieces_of out.new.items ≡ all_lines (map (stmt c.entry.program.now c.entry.func.now) list.now) level (pieces_of out.old.items)) }
{
    let mut left = list.len();
    while left > 0 {
        left -= 1;
        put_stmt(out, c, &list[left], level)?;
    }
    Ok(())
}

#[cycle(statements)]
fn put_else<'p>(
    out: &mut Vec<Symbol>,
    c: Context<'p>,
    list: &'p [Stmt],
    level: usize,
) -> Result<(), NoMemory>
    requires { AreSized c.program.now.structures c.program.now.target }
    ensures { OnOk result (pieces_of out.new.items ≡ else_lines (map (stmt c.entry.program.now c.entry.func.now) list.now) level (pieces_of out.old.items)) }
{
    if list.is_empty() {
        return Ok(());
    }
    put_list(out, c, list, deeper(level)?)?;
    put_opened(out)?;
    word(out, Word::Else)?;
    put(out, Piece::Space)?;
    mark(out, Mark::RBrace)?;
    put(out, Piece::Indent(level))?;
    Ok(())
}

#[cycle(statements)]
fn put_case_body<'p>(
    out: &mut Vec<Symbol>,
    c: Context<'p>,
    list: &'p [Stmt],
    level: usize,
) -> Result<(), NoMemory>
    requires { AreSized c.program.now.structures c.program.now.target }
    ensures { OnOk result (pieces_of out.new.items ≡ case_body (map (stmt c.entry.program.now c.entry.func.now) list.now) level (pieces_of out.old.items)) }
{
    if !list.is_empty() {
        put_list(out, c, list, level)?;
        return Ok(());
    }
    put_ended(out)?;
    put(out, Piece::Indent(level))?;
    Ok(())
}

#[cycle(statements)]
fn put_case<'p>(
    out: &mut Vec<Symbol>,
    c: Context<'p>,
    t: IntType,
    case: &'p Case,
    level: usize,
) -> Result<(), NoMemory>
    requires { AreSized c.program.now.structures c.program.now.target }
    ensures { OnOk result (pieces_of out.new.items ≡ case_text c.entry.program.now c.entry.func.now case.now t level (pieces_of out.old.items)) }
{
    put_case_body(out, c, case.body.all(), deeper(level)?)?;
    put_labels(out, &c.program.target, t, case.labels.all(), level)
}

/// Puts the cases of a `switch` in front.
#[cycle(statements)]
fn put_cases<'p>(
    out: &mut Vec<Symbol>,
    c: Context<'p>,
    t: IntType,
    cases: &'p [Case],
    level: usize,
) -> Result<(), NoMemory>
    requires { AreSized c.program.now.structures c.program.now.target }
    ensures { OnOk result (pieces_of out.new.items ≡ case_lines t (map (case_text c.entry.program.now c.entry.func.now) cases.now) level (pieces_of out.old.items)) }
{
    let mut left = cases.len();
    while left > 0 {
        left -= 1;
        put_case(out, c, t, &cases[left], level)?;
    }
    Ok(())
}

/// Puts statements at a level in front.
pub fn put_stmts<'p>(
    out: &mut Vec<Symbol>,
    c: Context<'p>,
    list: &'p [Stmt],
    level: usize,
) -> Result<(), NoMemory>
    requires { AreSized c.program.now.structures c.program.now.target }
    ensures { OnOk result (pieces_of out.new.items ≡ stmts c.entry.program.now c.entry.func.now list.now level (pieces_of out.old.items)) }
{
    put_list(out, c, list, level)
}
