ghost use Rattle.std.specs.Prelude.{◌≡◌, ℕ, Bool, false, List, slice_get};
ghost use Rattle.cc_steps.specs.CcEval.declared.action.Action.{Action};
ghost use Rattle.cc_program.specs.declared.program.Program.{Program};
ghost use Rattle.cc_program.specs.declared.value.Value.{Value};
ghost use Rattle.cc_rewrite_actions.specs.Actions.{IsActionKnown, IsResumed, MarkBoth, StaysUnguarded};
ghost use Rattle.cc_rewrite_actions.specs.Kept.{Kept};
ghost use Rattle.cc_rewrite_residues.specs.Residues.{Agree};
ghost use Rattle.cc_rewrite_residues.specs.Standing.{Frame, Locals, Rest, Spot, running, standing};
ghost use Rattle.cc_rewrite_simulation.specs.Comparison.{Comparison};
ghost use Rattle.cc_rewrite_simulation.specs.Relation.{Related, Shared};
ghost use Rattle.cc_steps.specs.Step.{gives_nothing, perform, returned};

/// Pairs of programs, by what each pair is compared, and what stands in both alike.
pub trait KeptActions {
    ghost pairs: { Program → Program → Type 0 };

    ghost compared: { (q p : Program) → pairs q p → Comparison q p };

    ghost kept: { (q p : Program) (h : pairs q p) → Kept (compared q p h) };

    ghost unguarded: { (q p : Program) (h : pairs q p) → StaysUnguarded (compared q p h) };
}

/// Where two activations stand in front of the same statements, and a mark leads both to where they do so again, an action at what stands in
/// both alike leads to related states.
pub fn actions_alike<S: KeptActions>()
    ensures { (q p : Program) (h : S.pairs q p) (frame : Frame) (sq sp : Spot) → (S.compared q p h).Joined frame sq sp → MarkBoth (S.compared q p h) (S.kept q p h).IsKeptValue frame sq sp →
        (rq rp : Rest) (flag : Bool) (qs ps : List (List Value)) (ql pl : Locals) → Shared (S.compared q p h) (Unit {0}) frame.handler rq rp qs ps → Agree ((S.compared q p h).base frame.func) ql pl →
        (action : Action) → IsActionKnown (S.compared q p h) (S.kept q p h) rp ps frame pl sp action →
        Related (S.compared q p h) (Unit {0}) (perform q (running rq flag qs (standing frame ql sq)) action) (perform p (running rp flag ps (standing frame pl sp)) action) }
{}

/// And so does the return of a value that names what stands in both.
pub fn returns_alike<S: KeptActions>()
    ensures { (q p : Program) (h : S.pairs q p) → ((f : ℕ) → gives_nothing (slice_get q.funcs f) ≡ gives_nothing (slice_get p.funcs f)) → (frame : Frame) (sq sp : Spot) → (S.compared q p h).Joined frame sq sp →
        (rq rp : Rest) (flag : Bool) (qs ps : List (List Value)) (ql pl : Locals) → Shared (S.compared q p h) (Unit {0}) frame.handler rq rp qs ps → Agree ((S.compared q p h).base frame.func) ql pl →
        (v : Value) → (S.kept q p h).IsKeptValue v → (frame.handler ≡ false → IsResumed (S.compared q p h) (S.kept q p h).IsKeptValue rp.below) →
        Related (S.compared q p h) (Unit {0}) (returned q (running rq flag qs (standing frame ql sq)) (standing frame ql sq) rq.below v) (returned p (running rp flag ps (standing frame pl sp)) (standing frame pl sp) rp.below v) }
{}
