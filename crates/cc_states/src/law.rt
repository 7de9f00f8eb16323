ghost use Rattle.std.specs.Prelude.{◌≡◌, ℕ, ℤ, Bool, All, true, List, [], ◌∷◌, Option, Some, slice_get, slice_set};
ghost use Rattle.cc_program.specs.CcNum.declared.int_type.IntType.{IntType};
ghost use Rattle.cc_program.specs.CcNum.declared.op.BinOp.{BinOp};
ghost use Rattle.cc_program.specs.CcNum.declared.op.UnOp.{UnOp};
ghost use Rattle.cc_program.specs.CcNum.Integers.{converted};
ghost use Rattle.cc_program.specs.declared.expr.Expr.{Expr};
ghost use Rattle.cc_program.specs.declared.expr.Expr.TheOpen as one;
ghost use Rattle.cc_program.specs.declared.expr.Place.{Place};
ghost use Rattle.cc_program.specs.declared.func.Func.{Func};
ghost use Rattle.cc_program.specs.declared.program.Program.{Program};
ghost use Rattle.cc_program.specs.declared.stmt.Case.{Case};
ghost use Rattle.cc_program.specs.declared.stmt.Stmt.{Stmt, out-Stmt};
ghost use Rattle.cc_program.specs.declared.stmt.Stmt.TheOpen as is;
ghost use Rattle.cc_program.specs.declared.types.CType.{CType};
ghost use Rattle.cc_program.specs.declared.value.Address.TheVariants as address;
ghost use Rattle.cc_program.specs.declared.value.Part.{Part};
ghost use Rattle.cc_program.specs.declared.value.Root.{Root};
ghost use Rattle.cc_program.specs.declared.value.Value.{Value};
ghost use Rattle.cc_program.specs.declared.value.Value.TheVariants as value;
ghost use Rattle.cc_program.specs.declared.value.Value.TheVariants.{Int};
ghost use Rattle.cc_program.proofs.ExprInduction.{Parts, PlaceParts};
ghost use Rattle.cc_steps.specs.CcCells.Scalars.{zeros, position};
ghost use Rattle.cc_steps.specs.CcControl.Control.{close};
ghost use Rattle.cc_steps.specs.CcEval.declared.action.Action.{Action};
ghost use Rattle.cc_steps.specs.CcEval.declared.mark.Mark.{Mark};
ghost use Rattle.cc_steps.specs.CcEval.declared.spots.Spot.{Spot};
ghost use Rattle.cc_steps.specs.CcEval.Context.{Context};
ghost use Rattle.cc_steps.specs.CcEval.Eval.{meaning, designation, opened, place_opened};
ghost use Rattle.cc_steps.specs.CcEval.Progress.{Known, Waits};
ghost use Rattle.cc_steps.specs.Runs.{Arrivals, run};
ghost use Rattle.cc_steps.specs.State.{Active, State};
ghost use Rattle.cc_steps.specs.Step.{progress_of, next_place};
ghost use Rattle.cc_steps.specs.Turn.{start, turn};
ghost use Rattle.cc_steps.specs.CcSyntax.Effects.{Registers};
ghost use Rattle.cc_steps.specs.CcSyntax.Expressions.{of_one};
ghost use Rattle.cc_steps.specs.CcSyntax.Programs.{type_of, place_type, is_sound_body};
ghost use Rattle.cc_steps.specs.CcSyntax.Initial.{place_at};
ghost use Rattle.cc_steps.specs.CcSyntax.Operators.{is_handler, unary_type, binary_type, changes_by};
ghost use Rattle.cc_steps.specs.CcSyntax.Sound.{IsTypedProgram};
ghost use Rattle.cc_steps.specs.CcSyntax.Values.{ValueType, ToObject, PlaceType, object_place, read_from};
ghost use Rattle.cc_steps.specs.CcValues.Values.{takes, takes_both};
ghost use Rattle.cc_states.specs.Answers.{IsActivation, AreAnswers, IsAction, AreReached, IsTyped, IsTypedPlace, TakesAddressesOf, PlaceTakesAddressesOf, WorksIn};
ghost use Rattle.cc_states.specs.Inside.{AreInside};
ghost use Rattle.cc_states.specs.States.{AreScalars, AreWritten, may_break, may_continue, AreSound, expression_of, IsState, IsPossible, KeepsRegisters};
ghost use Rattle.cc_states.specs.Typed.{IsInMemory, HasType, IsSpot, MayHave, MayLead};

/// What holds of expressions and places that have types, in an activation of their function, which takes the addresses of
/// locals that they take, where each mark answers what was asked for. The call does nothing.
pub fn expression_laws()
    // What an expression gives has its type, and a place leads to an object of its type.
    ensures values { (c : Context) (openings : List ℕ) → IsActivation c openings → (e : Expr) → TakesAddressesOf c.func e → (t : ValueType) → type_of c.program c.func.locals e ≡ Some t →
        (later : Registers) (ms rest : List Mark) (v : Value) → AreAnswers c.program openings ((meaning c e).next later) ms → (meaning c e).next later ms ≡ Known (Some v) rest → HasType c.program openings t v }
    ensures places { (c : Context) (openings : List ℕ) → IsActivation c openings → (a : Place) → PlaceTakesAddressesOf c.func a → (t : PlaceType) → place_type c.program c.func.locals a ≡ Some t →
        (later : Registers) (ms rest : List Mark) (s : Spot) → AreAnswers c.program openings ((designation c a).leads later) ms → (designation c a).leads later ms ≡ Known (Some s) rest → IsSpot c.program openings t s }

    // A step that one asks for can be done: its cell is there, what is called is a function that takes the arguments, and values have the types that they are taken in.
    ensures steps { (c : Context) (openings : List ℕ) → IsActivation c openings → (e : Expr) → TakesAddressesOf c.func e → (t : ValueType) → type_of c.program c.func.locals e ≡ Some t →
        (later : Registers) (ms : List Mark) (action : Action) → AreAnswers c.program openings ((meaning c e).next later) ms → (meaning c e).next later ms ≡ Waits action → IsAction c.program openings action }

    // An activation reaches its own locals by name, and else what is in memory alone.
    ensures reaches { (c : Context) (openings : List ℕ) → IsActivation c openings → (e : Expr) → TakesAddressesOf c.func e → (t : ValueType) → type_of c.program c.func.locals e ≡ Some t →
        (later : Registers) (ms : List Mark) (action : Action) → AreAnswers c.program openings ((meaning c e).next later) ms → (meaning c e).next later ms ≡ Waits action → AreReached c.program c.number action }

    // No pointer leads to a register.
    ensures pointers { (p : Program) (openings : List ℕ) (constant volatile : Bool) (t : CType) (object : Root) (path : List Part) (index count : ℕ) → HasType p openings (ToObject constant volatile t) (value.Place (address.At object path index count)) → IsInMemory p object }

    // Both work by marks that answer what was asked.
    ensures works { (c : Context) (openings : List ℕ) → IsActivation c openings → (e : Expr) → TakesAddressesOf c.func e → (t : ValueType) → type_of c.program c.func.locals e ≡ Some t →
        (later : Registers) → WorksIn c.program openings c.number (MayHave c.program openings t) ((meaning c e).next later) }
    ensures place_works { (c : Context) (openings : List ℕ) → IsActivation c openings → (a : Place) → PlaceTakesAddressesOf c.func a → (t : PlaceType) → place_type c.program c.func.locals a ≡ Some t →
        (later : Registers) → WorksIn c.program openings c.number (λ s. MayLead c.program openings t s) ((designation c a).leads later) }

    // The parts of what has a type have types.
    ensures parts { (c : Context) (x : one.Expr-F Expr Place) (t : ValueType) → (opened c x).ctype ≡ Some t → Parts (IsTyped c) (IsTypedPlace c) x }
    ensures place_parts { (c : Context) (x : one.Place-F Expr Place) (t : PlaceType) → (place_opened c x).ctype ≡ Some t → PlaceParts (IsTyped c) (IsTypedPlace c) x }

    // Operators are worked on values that they take.
    ensures unary { (p : Program) (openings : List ℕ) (o : UnOp) (t : IntType) (a r : ValueType) → unary_type p.target o t a ≡ Some r → (x : Value) → HasType p openings a x → (n : ℤ) × (x ≡ Int n) × (takes t p.target n ≡ true) }
    ensures binary { (p : Program) (openings : List ℕ) (o : BinOp) (t : IntType) (a b r : ValueType) → binary_type p.target o t a b ≡ Some r → (x y : Value) → HasType p openings a x → HasType p openings b y →
        (m : ℤ) × (n : ℤ) × (x ≡ Int m) × (y ≡ Int n) × (takes_both o t p.target m n ≡ true) }
    ensures changes { (p : Program) (openings : List ℕ) (s t : IntType) (o : BinOp) (e : ValueType) → changes_by p.target s o t e ≡ true → (m : ℤ) (y : Value) → HasType p openings e y →
        (n : ℤ) × (y ≡ Int n) × (takes_both o t p.target (converted m t p.target) n ≡ true) }
{}

/// What holds in a state of a typed program, whatever its names are: what its next step needs is there. The call does nothing.
pub fn state_laws()
    // The full expression that is worked has a type.
    ensures expressions { (p : Program) → IsTypedProgram p → (s : State) → IsState p s → (a : Active) (below : List Active) → s.stack ≡ a ∷ below →
        (e : Expr) → expression_of a ≡ Some e → (f : Func) × (t : ValueType) × (slice_get p.funcs a.func ≡ Some f) × (type_of p f.locals e ≡ Some t) }

    // The function of each activation is there.
    ensures functions { (p : Program) → IsTypedProgram p → (s : State) → IsState p s → All (λ a. (f : Func) × (slice_get p.funcs a.func ≡ Some f)) s.stack }

    // An activation that the entry of a handler opened is of one, and the parameters of each are written.
    ensures entries { (p : Program) → IsTypedProgram p → (s : State) → IsState p s → All (λ a. a.handler ≡ true → (f : Func) × (slice_get p.funcs a.func ≡ Some f) × (is_handler f ≡ true)) s.stack }
    ensures parameters { (p : Program) → IsTypedProgram p → (s : State) → IsState p s → All (λ a. (f : Func) × (slice_get p.funcs a.func ≡ Some f) × AreWritten f.params a.locals) s.stack }

    // A turn changes no register of an activation below the running one.
    ensures registers { (p : Program) → IsTypedProgram p → (s : State) → IsState p s → (a : Active) (below : List Active) → s.stack ≡ a ∷ below → (b : Active) (i : ℕ) → slice_get below i ≡ Some b → (arrival : Option ℕ) → KeepsRegisters p (turn p s arrival).stack b }

    // What is read or written is there, or is of an activation that has ended; a function that is called is there, and takes as many arguments.
    ensures steps { (p : Program) → IsTypedProgram p → (s : State) → IsState p s → (a : Active) (below : List Active) → s.stack ≡ a ∷ below →
        (action : Action) → progress_of p a (expression_of a) ≡ Waits action → IsPossible p s action }

    // What a `switch` chooses by is an integer, and so is what main gives at the end.
    ensures switches { (p : Program) → IsTypedProgram p → (s : State) → IsState p s → (a : Active) (below : List Active) → s.stack ≡ a ∷ below → (b : Stmt) (rest : List Stmt) → a.here.rest ≡ b ∷ rest →
        (e : Expr) (cases : List Case) (v : Value) (ms : List Mark) → out-Stmt b ≡ is.Switch e cases → progress_of p a (Some e) ≡ Known (Some v) ms → (n : ℤ) × (v ≡ Int n) }
    ensures exits { (p : Program) → IsTypedProgram p → (s : State) → IsState p s → (a : Active) (below : List Active) → s.stack ≡ a ∷ below → (b : Stmt) (rest : List Stmt) → a.here.rest ≡ b ∷ rest →
        (e : Expr) (v : Value) (ms : List Mark) → below ≡ [] → out-Stmt b ≡ is.Return (Some e) → progress_of p a (Some e) ≡ Known (Some v) ms → (n : ℤ) × (v ≡ Int n) }

    // An activation stands inside the body of its function: what is left of each list, and its position.
    ensures lists { (p : Program) (f : Func) (a : Active) (s : Stmt) (rest : List Stmt) → a.here.rest ≡ s ∷ rest → AreSound p f (a.here ∷ a.around) → AreInside f.body (a.here ∷ a.around) →
        (v : Value) → AreInside f.body ((next_place (out-Stmt s) a v).0 ∷ (next_place (out-Stmt s) a v).1) }
    ensures begins { (f : Func) → AreInside f.body ((close f.body 0 []).0 ∷ (close f.body 0 []).1) }

    // From there it goes on to where what is left of each list is sound, and it begins there.
    ensures places { (p : Program) (f : Func) (a : Active) (s : Stmt) (rest : List Stmt) → a.here.rest ≡ s ∷ rest → AreSound p f (a.here ∷ a.around) →
        (v : Value) → AreSound p f ((next_place (out-Stmt s) a v).0 ∷ (next_place (out-Stmt s) a v).1) }
    ensures bodies { (p : Program) (f : Func) → is_sound_body p f f.body ≡ true → AreSound p f ((close f.body 0 []).0 ∷ (close f.body 0 []).1) }
    ensures breaks { (p : Program) (f : Func) (a : Active) (s : Stmt) (rest : List Stmt) → a.here.rest ≡ s ∷ rest → AreSound p f (a.here ∷ a.around) → out-Stmt s ≡ is.Break → may_break a.around ≡ true }
    ensures continues { (p : Program) (f : Func) (a : Active) (s : Stmt) (rest : List Stmt) → a.here.rest ≡ s ∷ rest → AreSound p f (a.here ∷ a.around) → out-Stmt s ≡ is.Continue → may_continue a.around ≡ true }

    // What no value is given for starts as a value of its type, at the position of each path to a scalar.
    ensures firsts { (p : Program) → IsTypedProgram p → (openings : List ℕ) (t : CType) → AreScalars p (HasType p openings) t (zeros p.structures t) }

    // A write of a value of its type keeps the types of all scalars of an object.
    ensures writes { (p : Program) → IsTypedProgram p → (openings : List ℕ) (t : CType) (values : List Value) → AreScalars p (HasType p openings) t values →
        (path : List Part) (w : ValueType) → of_one (place_at p.structures path (object_place t)) read_from ≡ Some w → (v : Value) → HasType p openings w v →
        AreScalars p (HasType p openings) t (slice_set values (position p.structures path (Some (object_place t))) v) }

    // One path leads to each scalar of an object: two that lead to one position are the same.
    ensures one_path { (p : Program) → IsTypedProgram p → (t : CType) (path other : List Part) (w u : ValueType) →
        of_one (place_at p.structures path (object_place t)) read_from ≡ Some w → of_one (place_at p.structures other (object_place t)) read_from ≡ Some u →
        position p.structures path (Some (object_place t)) ≡ position p.structures other (Some (object_place t)) → path ≡ other }

    // Before the first turn, whatever the inputs are, there is a state of the program.
    ensures starts { (p : Program) → IsTypedProgram p → (inputs : List ℤ) → IsState p (start p inputs) }

    // Each turn leads from a state of the program to one.
    ensures turns { (p : Program) → IsTypedProgram p → (s : State) → IsState p s → (arrival : Option ℕ) → IsState p (turn p s arrival) }
    ensures runs { (p : Program) → IsTypedProgram p → (inputs : List ℤ) (arrivals : Arrivals) → IsState p (run p (start p inputs) arrivals) }
{}
