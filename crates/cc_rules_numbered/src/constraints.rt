//! The constraints of a program, by their numbers.

ghost use Rattle.std.specs.Prelude.{◌≡◌, ◌<◌, ◌≤◌, length, slice_get, Some};
ghost use Rattle.cc_rules.specs.CcFlow.Points.{count_of};
ghost use Rattle.cc_program.specs.declared.program.Program.{Program};
ghost use Rattle.cc_rules.specs.Constraints.{constraints, rules_at};
ghost use Rattle.cc_rules_numbered.specs.Numbered.{rule_view, constraint_view};

/// What a constraint asks for.
#[derive(Clone, Copy, Debug, PartialEq, Eq)]
pub enum Rule {
    /// The set of each key has the first values of its cells.
    Initial,
    /// Main is entered at its entry.
    Start,
    /// Next points have what flows there.
    Flow,
    /// A set of the whole run has what is written.
    Write,
    /// An access of the code of a handler marks its keys.
    Touch,
    /// Functions that may be called are entered.
    Call,
    /// Points behind a call have what comes from the exits of these.
    Back,
    /// The set of a function's results has what is returned.
    Return,
    /// Handlers that may enter are entered.
    Handler,
    /// Cells that these may write have what they may have in the whole run.
    Stability,
}

/// A constraint: a rule at a point. That of first values is at none, and has the point 0.
#[derive(Clone, Copy, Debug, PartialEq, Eq)]
pub struct Constraint {
    pub rule: Rule,
    pub point: u32,
}

/// The rule of a point with a number, from 0 to 8.
fn rule_at(number: u32) -> Rule
    requires { number < 9 }
    ensures { slice_get rules_at number ≡ Some (rule_view result) }
{
    match number {
        0 => Rule::Start,
        1 => Rule::Flow,
        2 => Rule::Write,
        3 => Rule::Touch,
        4 => Rule::Call,
        5 => Rule::Back,
        6 => Rule::Return,
        7 => Rule::Handler,
        _ => Rule::Stability,
    }
}

/// The constraint with a number.
pub fn constraint_at(number: u32) -> Constraint
    ensures { (p : Program) → number < length (constraints p) → slice_get (constraints p) number ≡ Some (constraint_view result) }
{
    if number == 0 {
        return Constraint {
            rule: Rule::Initial,
            point: 0,
        };
    }
    let behind = number - 1;
    let rule = rule_at(behind % 9);
    Constraint {
        rule,
        point: behind / 9,
    }
}

/// How many constraints a program with so many points has.
pub fn constraint_count(points: u32) -> u32
    requires { points ≤ 65536 }
    ensures { (p : Program) → count_of p ≡ points → length (constraints p) ≡ result }
{
    1 + 9 * points
}
