ghost use Rattle.std.specs.Prelude.{◌≡◌, ◌+◌, ◌⊎◌, ◌↔◌, ℕ, Bool, false, All, List, Contains, length};
ghost use Rattle.cc_flow.specs.Laws.{IsIn, AreApart, starts};
ghost use Rattle.cc_flow.specs.Next.{branches, may_pass};
ghost use Rattle.cc_flow.specs.declared.next.Site.{Site};
ghost use Rattle.cc_flow.specs.Points.{body_count, body_points, count_of, flow_of};
ghost use Rattle.cc_program.specs.declared.program.Program.{Program};
ghost use Rattle.cc_program.specs.declared.stmt.Stmt.{Stmt};

/// What the definition of points keeps, for all functions and programs. The call does nothing.
pub fn laws()
    // A function whose first point has the number `first` has as many points as are counted, so they have the numbers
    // from there on, and so has a program.
    ensures counted { (func first : ℕ) (body : List Stmt) → length (body_points func first body) ≡ body_count body }
    ensures all_counted { (p : Program) → length (flow_of p).points ≡ count_of p }

    // Each next point is a point of the same function, and they ascend without repeats.
    ensures inside { (func first : ℕ) (body : List Stmt) → All (IsIn func first (first + body_count body)) (body_points func first body) }

    // The point of a path is the only one of the function.
    ensures apart { (func first : ℕ) (body : List Stmt) → AreApart (body_points func first body) }

    // A `switch` goes to the start of each case, and behind itself where it has no default.
    ensures switches { (has_default : Bool) (site : Site) (counts : List ℕ) (n : ℕ) →
        Contains (branches (may_pass has_default counts) site counts) n ↔ (Contains (starts (site.number + 1) site.behind counts) n ⊎ ((has_default ≡ false) × (n ≡ site.behind))) }
{}
