//! Statements, as far as control tells them apart.

ghost use Rattle.std.specs.Prelude.{◌≡◌};
ghost use Rattle.cc_program.specs.declared.stmt.Stmt.{out-Stmt};
ghost use Rattle.cc_control.specs.Control.{is_loop as is_loop_of, is_left_by_break as is_left_by_break_of, behind_body as behind_body_of, opening as opening_of, first_phase as first_phase_of, counted as counted_of};

use crate::phase::Phase;
use cc_program::Stmt;

/// A position in a list as it is counted: `u32::MAX` stands for all beyond.
pub fn counted(position: usize) -> u32
    ensures { result ≡ counted_of position }
{
    match u32::try_from(position) {
        Ok(position) => position,
        Err(_) => u32::MAX,
    }
}

/// What `continue` goes on with (C99 6.8.6.2).
pub fn is_loop(s: &Stmt) -> bool
    ensures { result ≡ is_loop_of (out-Stmt s.now) }
{
    match s {
        Stmt::While(_, _) | Stmt::DoWhile(_, _) | Stmt::For(_, _, _, _) => true,
        _ => false,
    }
}

/// What `break` leaves (C99 6.8.6.3).
pub fn is_left_by_break(s: &Stmt) -> bool
    ensures { result ≡ is_left_by_break_of (out-Stmt s.now) }
{
    match s {
        Stmt::While(_, _) | Stmt::DoWhile(_, _) | Stmt::For(_, _, _, _) | Stmt::Switch(_, _) =>
            true,
        _ => false,
    }
}

/// The full expression of a statement that comes once the list inside it is done.
pub fn behind_body(s: &Stmt) -> Phase
    ensures { result ≡ behind_body_of (out-Stmt s.now) }
{
    match s {
        Stmt::While(_, _) | Stmt::DoWhile(_, _) => Phase::Test,
        Stmt::For(_, _, None, _) => Phase::Test,
        Stmt::For(_, _, Some(_), _) => Phase::Again,
        _ => Phase::First,
    }
}

/// The statements that a statement begins with, without a step (C99 6.8.2, 6.8.5.2).
pub fn opening(s: &Stmt) -> &[Stmt]
    ensures { result.now ≡ opening_of (out-Stmt s.now) }
{
    match s {
        Stmt::DoWhile(a, _) => a.all(),
        Stmt::Block(a) => a.all(),
        _ => &[],
    }
}

/// What a statement begins with where it begins with none: its first expression, or its test.
pub fn first_phase(s: &Stmt) -> Phase
    ensures { result ≡ first_phase_of (out-Stmt s.now) }
{
    match s {
        Stmt::While(_, _) | Stmt::DoWhile(_, _) => Phase::Test,
        Stmt::For(None, _, _, _) => Phase::Test,
        _ => Phase::First,
    }
}
