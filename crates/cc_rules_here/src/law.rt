ghost use Rattle.std.specs.Prelude.{◌≡◌, ◌<◌, ◌≤◌, ◌+◌, ℕ, Some, length, slice_get};
ghost use Rattle.cc_state_points.specs.CcFlow.declared.types.Point.{Point};
ghost use Rattle.cc_state_points.specs.CcFlow.Points.{count_of, flow_of, size_of};
ghost use Rattle.cc_program.specs.declared.func.Func.{Func};
ghost use Rattle.cc_program.specs.declared.program.Program.{Program};
ghost use Rattle.cc_program.specs.declared.stmt.Stmt.{Stmt};
ghost use Rattle.cc_state_points.specs.CcRulesFlows.Nexts.{statement_of};

/// What holds of the points of all programs. The call does nothing.
pub fn laws()
    // Each is one of a function of the program.
    ensures owned { (p : Program) (n : ℕ) (point : Point) → slice_get (flow_of p).points n ≡ Some point → point.func < length p.funcs }

    // From each on there are as many points as its statement has.
    ensures room { (p : Program) (n : ℕ) (point : Point) (f : Func) (s : Stmt) → slice_get (flow_of p).points n ≡ Some point → slice_get p.funcs point.func ≡ Some f → statement_of f point ≡ Some s → n + size_of s ≤ count_of p }
{}
