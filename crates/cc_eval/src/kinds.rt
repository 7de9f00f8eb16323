ghost use Rattle.std.specs.Prelude.{◌≡◌, ℕ, ℤ, pos, Bool, List, [], Option, Some, map, option_map};
ghost use Rattle.cc_program.specs.CcNum.declared.int_type.IntType.{IntType};
ghost use Rattle.cc_program.specs.CcNum.declared.op.BinOp.{BinOp};
ghost use Rattle.cc_program.specs.CcNum.declared.op.UnOp.{UnOp};
ghost use Rattle.cc_program.specs.declared.expr.Expr.{Expr, out-Expr, Const, Null, FuncAddr, Load, AddrOf, Un, Bin, Conv, Qualify, Move, Gap, Compare, Both, Either, Choose, Assign, Change, After, Call, Intr, Seq};
ghost use Rattle.cc_program.specs.declared.expr.Expr.TheOpen as one;
ghost use Rattle.cc_program.specs.declared.expr.Intr.{Intr as IntrKind};
ghost use Rattle.cc_program.specs.declared.expr.Place.{Place, out-Place, Local, Static, Device, Element, Member, Deref};
ghost use Rattle.cc_program.specs.declared.types.CType.{CType};
ghost use Rattle.cc_program.specs.declared.value.Address.TheVariants as address;
ghost use Rattle.cc_program.specs.declared.value.Root.TheVariants as root;
ghost use Rattle.cc_program.specs.declared.value.Value.TheVariants as value;
ghost use Rattle.cc_syntax.specs.Effects.{Registers};
ghost use Rattle.cc_syntax.specs.Expressions.{of_two};
ghost use Rattle.cc_values.specs.Values.{unary, binary, conversion, movement, gap, comparison, address_in};
ghost use Rattle.cc_eval.specs.Context.{Context, member};
ghost use Rattle.cc_eval.specs.Eval.{meaning, designation, opened, place_opened, from_one, from_two, place_and_value, both, either, chosen_arm, called, intrinsic, sequence, fetched, assigned, changed_by, stepped_by_one, address_of, element_at};
ghost use Rattle.cc_eval.specs.Progress.{known, bind};
ghost use Rattle.cc_eval.specs.declared.spots.Spot.TheVariants as spot;

/// What expressions and places mean, opened at their tops: what each kind of them does next, by what its parts do. The call
/// does nothing.
pub fn equations()
    ensures expressions { (c : Context) (e : Expr) (x : one.Expr-F Expr Place) → out-Expr e ≡ x → meaning c e ≡ opened c x }
    ensures places { (c : Context) (a : Place) (x : one.Place-F Expr Place) → out-Place a ≡ x → designation c a ≡ place_opened c x }

    // What takes no step.
    ensures constants { (c : Context) (n : ℤ) (t : IntType) (later : Registers) → (meaning c (Const n t)).next later ≡ known (Some (value.Int n)) }
    ensures nulls { (c : Context) (t : CType) (later : Registers) → (meaning c (Null t)).next later ≡ known (Some (value.Place address.Null)) }
    ensures functions { (c : Context) (f : ℕ) (later : Registers) → (meaning c (FuncAddr f)).next later ≡ known (Some (value.Place (address.Func f))) }

    // Operators over values (C99 6.5.3 to 6.5.9).
    ensures unary_operators { (c : Context) (o : UnOp) (t : IntType) (a : Expr) (later : Registers) → (meaning c (Un o t a)).next later ≡ from_one (unary o t c.program.target) (meaning c a) later }
    ensures binary_operators { (c : Context) (o : BinOp) (t : IntType) (a b : Expr) (later : Registers) → (meaning c (Bin o t a b)).next later ≡ from_two (binary o t c.program.target) (meaning c a) (meaning c b) later }
    ensures conversions { (c : Context) (t : IntType) (a : Expr) (later : Registers) → (meaning c (Conv t a)).next later ≡ from_one (conversion t c.program.target) (meaning c a) later }
    ensures qualifications { (c : Context) (t : CType) (a : Expr) (later : Registers) → (meaning c (Qualify t a)).next later ≡ from_one (λ v. v) (meaning c a) later }
    ensures movements { (c : Context) (a b : Expr) (back : Bool) (later : Registers) → (meaning c (Move a b back)).next later ≡ from_two (movement back) (meaning c a) (meaning c b) later }
    ensures differences { (c : Context) (a b : Expr) (later : Registers) → (meaning c (Gap a b)).next later ≡ from_two (gap c.program.target) (meaning c a) (meaning c b) later }
    ensures comparisons { (c : Context) (o : BinOp) (a b : Expr) (later : Registers) → (meaning c (Compare o a b)).next later ≡ from_two (comparison o) (meaning c a) (meaning c b) later }

    // Choices, and what comes one after the other (C99 6.5.13 to 6.5.15, 6.5.17).
    ensures conjunctions { (c : Context) (a b : Expr) (later : Registers) → (meaning c (Both a b)).next later ≡ both ((meaning c (Both a b)).effects.pure later) (meaning c a) (meaning c b) later }
    ensures disjunctions { (c : Context) (a b : Expr) (later : Registers) → (meaning c (Either a b)).next later ≡ either ((meaning c (Either a b)).effects.pure later) (meaning c a) (meaning c b) later }
    ensures choices { (c : Context) (d a b : Expr) (later : Registers) →
        (meaning c (Choose d a b)).next later ≡ chosen_arm ((meaning c (Choose d a b)).effects.pure later) (meaning c d) (meaning c a) (meaning c b) later }
    ensures sequences { (c : Context) (a b : Expr) (later : Registers) → (meaning c (Seq a b)).next later ≡ sequence (meaning c a) (meaning c b) later }

    // Accesses, calls and intrinsics (C99 6.5.2, 6.5.3.2, 6.5.16).
    ensures loads { (c : Context) (a : Place) (later : Registers) → (meaning c (Load a)).next later ≡ bind ((designation c a).leads later) (fetched c (designation c a) later) }
    ensures addresses { (c : Context) (a : Place) (later : Registers) → (meaning c (AddrOf a)).next later ≡ bind ((designation c a).leads later) (λ s. known (address_of s)) }
    ensures assignments { (c : Context) (a : Place) (e : Expr) (later : Registers) → (meaning c (Assign a e)).next later ≡ assigned c (designation c a) (meaning c e) later }
    ensures changes { (c : Context) (a : Place) (o : BinOp) (t : IntType) (e : Expr) (later : Registers) → (meaning c (Change a o t e)).next later ≡ changed_by c (designation c a) o t (meaning c e) later }
    ensures steps { (c : Context) (a : Place) (down : Bool) (later : Registers) → (meaning c (After a down)).next later ≡ stepped_by_one c (designation c a) down later }
    ensures calls { (c : Context) (f : Expr) (args : List Expr) (later : Registers) → (meaning c (Call f args)).next later ≡ called (meaning c f) (map (meaning c) args) later }
    ensures intrinsics { (c : Context) (i : IntrKind) (a : Option Expr) (later : Registers) → (meaning c (Intr i a)).next later ≡ intrinsic i (option_map (meaning c) a) later }

    // Places.
    ensures locals { (c : Context) (r : ℕ) (later : Registers) → (designation c (Local r)).leads later ≡ known (Some (spot.Object (root.Auto c.number c.id r) [])) }
    ensures statics { (c : Context) (i : ℕ) (later : Registers) → (designation c (Static i)).leads later ≡ known (Some (spot.Object (root.Static i) [])) }
    ensures devices { (c : Context) (d : ℕ) (later : Registers) → (designation c (Device d)).leads later ≡ known (Some (spot.Device d)) }
    ensures elements { (c : Context) (a : Place) (i : Expr) (later : Registers) →
        (designation c (Element a i)).leads later ≡ bind (place_and_value (designation c a) (meaning c i) later) (λ p. known (element_at c (designation c a).ctype p.0 p.1)) }
    ensures members { (c : Context) (a : Place) (m : ℕ) (later : Registers) → (designation c (Member a m)).leads later ≡ bind ((designation c a).leads later) (λ s. known (of_two (designation c a).ctype s (member c.program m))) }
    ensures pointers { (c : Context) (e : Expr) (later : Registers) → (designation c (Deref e)).leads later ≡ from_one (λ v. option_map spot.Address (address_in v)) (meaning c e) later }
{}
