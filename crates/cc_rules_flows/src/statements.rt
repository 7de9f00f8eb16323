//! The statement at a point.

ghost use Rattle.std.specs.Prelude.{◌≡◌, ◌++◌, option_copied, slice_get};
ghost use Rattle.cc_flow_sound.specs.CcControl.Control.{bodies};
ghost use Rattle.cc_flow_sound.specs.Statements.{inside as inside_of, statement_at as statement_of};
ghost use Rattle.cc_program.specs.declared.stmt.Stmt.{out-Stmt};
ghost use Rattle.cc_rules_flows.specs.Descents.{descended};

use cc_program::num::at;
use cc_program::{Case, Stmt};

/// The statement at a position of the bodies of some cases, one after the other.
fn in_cases(cases: &[Case], position: usize) -> Option<&Stmt>
    ensures { option_copied result ≡ slice_get (bodies cases.now) position }
{
    let mut left = position;
    for case in cases {
        let body = case.body.all();
        if left < body.len() {
            return at(body, left);
        }
        left -= body.len();
    }
    None
}

/// The statement at a position of two lists, one after the other.
fn in_both<'p>(these: &'p [Stmt], those: &'p [Stmt], position: usize) -> Option<&'p Stmt>
    ensures { option_copied result ≡ slice_get (these.now ++ those.now) position }
{
    if position < these.len() {
        return at(these, position);
    }
    at(those, position - these.len())
}

/// The statement at a position inside another one. The two lists of an `if` count as one, and so do the bodies of a `switch`.
fn inside(s: &Stmt, position: usize) -> Option<&Stmt>
    ensures { option_copied result ≡ slice_get (inside_of (out-Stmt s.now)) position }
{
    match s {
        Stmt::If(_, these, those) => in_both(these.all(), those.all(), position),
        Stmt::Switch(_, cases) => in_cases(cases.all(), position),
        Stmt::While(_, body)
        | Stmt::DoWhile(body, _)
        | Stmt::For(_, _, _, body)
        | Stmt::Block(body) => at(body.all(), position),
        _ => None,
    }
}

/// The statement to which the rest of a path leads from another one inwards.
fn descended<'p>(s: &'p Stmt, path: &[u32]) -> Option<&'p Stmt>
    ensures { option_copied result ≡ descended s.now path.now }
{
    match path {
        [] => Some(s),
        [position, path @ ..] => descended(inside(s, *position as usize)?, path),
    }
}

/// The statement to which a path leads from a function's body inwards, by the position in each list. None at its exit.
pub fn statement_at<'p>(body: &'p [Stmt], path: &[u32]) -> Option<&'p Stmt>
    ensures { option_copied result ≡ statement_of body.now path.now }
{
    match path {
        [] => None,
        [position, path @ ..] => descended(at(body, *position as usize)?, path),
    }
}
