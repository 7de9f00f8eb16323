ghost use Rattle.std.specs.Prelude.{ℕ, List, ◌∷◌, ◌++◌, [], Option, Some};
ghost use Rattle.cc_program.specs.declared.expr.Expr.{Expr};
ghost use Rattle.cc_program.specs.declared.program.Program.{Program};
ghost use Rattle.cc_program.specs.declared.stmt.Stmt.{Stmt, Do};
ghost use Rattle.cc_program.specs.declared.value.Value.{Value};
ghost use Rattle.cc_rewrite_accesses_follows.specs.Accesses.{Anything, ApartFrom, BadSource, Functions, IsAsking, IsGuard, IsStep, JoinedBefore, JoinedInside, JoinedOn, JoinedOut, Put, PutAlone, PutAloneBad, PutBad, ReadOfConstant, ReadOfWord, Slot, Source, StepBehind, WorkedOut, WriteAlone, WriteOfConstant, WritesOfBad, behind_one, in_list, in_p, in_q, next_position, restoring, saving};
ghost use Rattle.cc_rewrite_accesses_follows.specs.Asked.{Asked, mark_of};
ghost use Rattle.cc_rewrite_homes.specs.Homes.{Field};
ghost use Rattle.cc_rewrite_residues.specs.Residues.{Agree, There};
ghost use Rattle.cc_rewrite_residues.specs.Standing.{Frame, Locals, standing};
ghost use Rattle.cc_rewrite_simulation.specs.Comparison.{Comparison};
ghost use Rattle.cc_rewrite_simulation.specs.Relation.{AreApart};
ghost use Rattle.cc_steps.specs.CcCells.Cells.{with_scalar};
ghost use Rattle.cc_steps.specs.CcControl.Control.{Level};
ghost use Rattle.cc_steps.specs.CcEval.declared.mark.Mark.{Mark};

/// Pairs of programs, by what each pair is compared.
pub trait ComparedPrograms {
    ghost pairs: { Program → Program → Type 0 };

    ghost compared: { (q p : Program) → pairs q p → Comparison q p };
}

/// Accesses of a scalar that never changes, and stands nowhere in the program that is compared. The call does nothing.
pub fn constants<S: ComparedPrograms>()
    // `r = x;` is `r = e;`, of an operand that asks for nothing.
    ensures reads { (q p : Program) (x : S.pairs q p) (frame : Frame) (f : Functions q p frame) (ps : List (List Value)) (those : List Mark) (take source : Expr) → ReadOfConstant (S.compared q p x) frame f ps those take source →
        (back rest : List Stmt) (n m : ℕ) (qa pa : List Level) → (S.compared q p x).Joined frame (behind_one q frame back n qa) (behind_one p frame rest m pa) →
        (qs : List (List Value)) (ql pl : Locals) → Agree ((S.compared q p x).base frame.func) ql pl →
        IsStep (S.compared q p x) frame f (Anything (S.compared q p x) frame f) qs ps ql pl (in_list (Do take ∷ back) n qa []) (in_list (Do source ∷ rest) m pa those) }

    // `x = e;` is `t = e;`: both work out the value, and then one writes it and the other keeps it.
    ensures writes { (q p : Program) (x : S.pairs q p) (frame : Frame) (f : Functions q p frame) (these those : List Mark) (asked others : List Asked) (keep source : Expr)
        (back rest : List Stmt) (n m : ℕ) (qa pa : List Level) (qs ps : List (List Value)) (ql pl : Locals) → Agree ((S.compared q p x).base frame.func) ql pl →
        JoinedOn (S.compared q p x) frame f (λ ms. in_list (Do keep ∷ back) n qa ms) (λ ms. in_list (Do source ∷ rest) m pa ms) these those asked others →
        WriteOfConstant (S.compared q p x) frame f ql pl these those asked others keep source → (S.compared q p x).Joined frame (behind_one q frame back n qa) (behind_one p frame rest m pa) →
        IsStep (S.compared q p x) frame f (Anything (S.compared q p x) frame f) qs ps ql pl (in_list (Do keep ∷ back) n qa these) (in_list (Do source ∷ rest) m pa those) }

    // Or both trap, since the value is bad.
    ensures bad { (q p : Program) (x : S.pairs q p) (frame : Frame) (f : Functions q p frame) (these those : List Mark) (asked others : List Asked) (store source : Expr)
        (back rest : List Stmt) (n m : ℕ) (qa pa : List Level) (qs ps : List (List Value)) (ql pl : Locals) → Agree ((S.compared q p x).base frame.func) ql pl →
        JoinedOn (S.compared q p x) frame f (λ ms. in_list (Do store ∷ back) n qa ms) (λ ms. in_list (Do source ∷ rest) m pa ms) these those asked others →
        WritesOfBad (S.compared q p x) frame f ql pl these those asked others store source →
        IsStep (S.compared q p x) frame f (Anything (S.compared q p x) frame f) qs ps ql pl (in_list (Do store ∷ back) n qa these) (in_list (Do source ∷ rest) m pa those) }
{}

/// Reads of a scalar that stands in a word. What the places ask for, as registers that are subscripts, both have asked for together. The call
/// does nothing.
pub fn plain_reads<S: ComparedPrograms>()
    // `r = x;` is `t = w; r = e;`, where e makes of the word what its field stands for.
    ensures reads { (q p : Program) (x : S.pairs q p) (frame : Frame) (f : Functions q p frame) (ps : List (List Value)) (slot : Slot (S.compared q p x) ps) (qs : List (List Value)) (ql pl : Locals) → Agree ((S.compared q p x).base frame.func) ql pl →
        (these those : List Mark) (load take source : Expr) → ReadOfWord (S.compared q p x) frame f slot qs ql these those load take source → (back rest : List Stmt) (n m : ℕ) (qa pa : List Level) →
        (S.compared q p x).Joined frame (behind_one q frame back (next_position n) qa) (behind_one p frame rest m pa) →
        IsStep (S.compared q p x) frame f (Anything (S.compared q p x) frame f) qs ps ql pl (in_list (Do load ∷ Do take ∷ back) n qa these) (in_list (Do source ∷ rest) m pa those) }
{}

/// The same between a save and a restore of the interrupt flag.
pub fn guarded_reads<S: ComparedPrograms>()
    // `r = x;` is `g = irq_save(); t = w; irq_restore(g); r = e;`.
    ensures reads { (q p : Program) (x : S.pairs q p) (frame : Frame) (f : Functions q p frame) (ps : List (List Value)) (slot : Slot (S.compared q p x) ps) (qs : List (List Value)) (ql pl : Locals) → Agree ((S.compared q p x).base frame.func) ql pl →
        (load take source : Expr) (h : ReadOfWord (S.compared q p x) frame f slot qs ql [] [] load take source) (g : ℕ) → IsGuard (S.compared q p x) frame f ql (There h.temporary ∷ h.needs) g → (back rest : List Stmt) (n m : ℕ) (qa pa : List Level) →
        (S.compared q p x).Joined frame (behind_one q frame back (next_position (next_position (next_position n))) qa) (behind_one p frame rest m pa) →
        IsStep (S.compared q p x) frame f (Anything (S.compared q p x) frame f) qs ps ql pl (in_list (Do (saving g) ∷ Do load ∷ Do (restoring g) ∷ Do take ∷ back) n qa []) (in_list (Do source ∷ rest) m pa []) }
{}

/// Writes of a scalar whose code is the only one in its word. Each of the two works out its value, of which the other sees nothing, and then
/// writes. That a value is bad is told by the law of constants.
pub fn alone_writes<S: ComparedPrograms>()
    // `x = e;` is `w = e;`.
    ensures writes { (q p : Program) (x : S.pairs q p) (frame : Frame) (f : Functions q p frame) (ps : List (List Value)) (slot : Slot (S.compared q p x) ps) (qs : List (List Value)) (ql pl : Locals) → Agree ((S.compared q p x).base frame.func) ql pl →
        (these those : List Mark) (asked others : List Asked) (store source : Expr) → WriteAlone (S.compared q p x) frame f slot ql pl these those asked others store source → (back rest : List Stmt) (n m : ℕ) (qa pa : List Level) →
        (S.compared q p x).Joined frame (behind_one q frame back n qa) (behind_one p frame rest m pa) →
        JoinedOn (S.compared q p x) frame f (λ ms. in_list (Do store ∷ back) n qa ms) (λ ms. in_list (Do source ∷ rest) m pa ms) these those asked others →
        IsStep (S.compared q p x) frame f (AreApart (S.compared q p x) slot.field) qs ps ql pl (in_list (Do store ∷ back) n qa these) (in_list (Do source ∷ rest) m pa those) }
{}

/// Writes of a scalar that stands in a word, which nothing else writes meanwhile.
pub fn plain_writes<S: ComparedPrograms>()
    // `x = e;` is `t = w; w = e;`, of the word with the code in its field.
    ensures writes { (q p : Program) (x : S.pairs q p) (frame : Frame) (f : Functions q p frame) (ps : List (List Value)) (slot : Slot (S.compared q p x) ps) (qs : List (List Value)) (ql pl : Locals) → Agree ((S.compared q p x).base frame.func) ql pl →
        (these : List Mark) (load store source : Expr) (those : List Mark) (s : Source (S.compared q p x) frame f slot pl those source) → Put (S.compared q p x) frame f slot ql s.code these load store → (back rest : List Stmt) (n m : ℕ) (qa pa : List Level) →
        (S.compared q p x).Joined frame (behind_one q frame back (next_position n) qa) (behind_one p frame rest m pa) →
        (S.compared q p x).Unguarded (standing frame pl (in_list (Do source ∷ rest) m pa those)) slot.field →
        IsStep (S.compared q p x) frame f (Anything (S.compared q p x) frame f) qs ps ql pl (in_list (Do load ∷ Do store ∷ back) n qa these) (in_list (Do source ∷ rest) m pa those) }

    // Or both trap, since the value is bad.
    ensures bad { (q p : Program) (x : S.pairs q p) (frame : Frame) (f : Functions q p frame) (ps : List (List Value)) (slot : Slot (S.compared q p x) ps) (qs : List (List Value)) (ql pl : Locals) → Agree ((S.compared q p x).base frame.func) ql pl →
        (these : List Mark) (load store source : Expr) (those : List Mark) (s : BadSource (S.compared q p x) frame f slot pl those source) → PutBad (S.compared q p x) frame f slot ql these load store → (back rest : List Stmt) (n m : ℕ) (qa pa : List Level) →
        JoinedBefore (S.compared q p x) frame f (in_list (Do load ∷ Do store ∷ back) n qa these) (λ ms. in_list (Do source ∷ rest) m pa ms) those s.asked →
        IsStep (S.compared q p x) frame f (Anything (S.compared q p x) frame f) qs ps ql pl (in_list (Do load ∷ Do store ∷ back) n qa these) (in_list (Do source ∷ rest) m pa those) }
{}

/// The same between a save and a restore of the interrupt flag, whoever writes the word at other times.
pub fn guarded_writes<S: ComparedPrograms>()
    // `x = e;` is `g = irq_save(); t = w; w = e; irq_restore(g);`.
    ensures writes { (q p : Program) (x : S.pairs q p) (frame : Frame) (f : Functions q p frame) (ps : List (List Value)) (slot : Slot (S.compared q p x) ps) (qs : List (List Value)) (ql pl : Locals) → Agree ((S.compared q p x).base frame.func) ql pl →
        (load store source : Expr) (g : ℕ) (those : List Mark) (s : Source (S.compared q p x) frame f slot pl those source) (h : Put (S.compared q p x) frame f slot ql s.code [] load store) → IsGuard (S.compared q p x) frame f ql (There h.temporary ∷ h.needs) g → (back rest : List Stmt) (n m : ℕ) (qa pa : List Level) →
        (S.compared q p x).Joined frame (behind_one q frame back (next_position (next_position (next_position n))) qa) (behind_one p frame rest m pa) →
        IsStep (S.compared q p x) frame f (AreApart (S.compared q p x) slot.field) qs ps ql pl (in_list (Do (saving g) ∷ Do load ∷ Do store ∷ Do (restoring g) ∷ back) n qa []) (in_list (Do source ∷ rest) m pa those) }

    // Or both trap.
    ensures bad { (q p : Program) (x : S.pairs q p) (frame : Frame) (f : Functions q p frame) (ps : List (List Value)) (slot : Slot (S.compared q p x) ps) (qs : List (List Value)) (ql pl : Locals) → Agree ((S.compared q p x).base frame.func) ql pl →
        (load store source : Expr) (g : ℕ) (those : List Mark) (s : BadSource (S.compared q p x) frame f slot pl those source) (h : PutBad (S.compared q p x) frame f slot ql [] load store) → IsGuard (S.compared q p x) frame f ql (There h.temporary ∷ h.needs) g → (back rest : List Stmt) (n m : ℕ) (qa pa : List Level) →
        JoinedBefore (S.compared q p x) frame f (in_list (Do (saving g) ∷ Do load ∷ Do store ∷ Do (restoring g) ∷ back) n qa []) (λ ms. in_list (Do source ∷ rest) m pa ms) those s.asked →
        IsStep (S.compared q p x) frame f (AreApart (S.compared q p x) slot.field) qs ps ql pl (in_list (Do (saving g) ∷ Do load ∷ Do store ∷ Do (restoring g) ∷ back) n qa []) (in_list (Do source ∷ rest) m pa those) }
{}

/// Writes of the only code in its word, where an access of the word is made of several.
pub fn guarded_alone_writes<S: ComparedPrograms>()
    // `x = e;` is `g = irq_save(); w = e; irq_restore(g);`.
    ensures writes { (q p : Program) (x : S.pairs q p) (frame : Frame) (f : Functions q p frame) (ps : List (List Value)) (slot : Slot (S.compared q p x) ps) (qs : List (List Value)) (ql pl : Locals) → Agree ((S.compared q p x).base frame.func) ql pl →
        (store source : Expr) (g : ℕ) (those : List Mark) (s : Source (S.compared q p x) frame f slot pl those source) (h : PutAlone (S.compared q p x) frame f slot ql s.code store) → IsGuard (S.compared q p x) frame f ql h.needs g → (back rest : List Stmt) (n m : ℕ) (qa pa : List Level) →
        (S.compared q p x).Joined frame (behind_one q frame back (next_position (next_position n)) qa) (behind_one p frame rest m pa) →
        JoinedInside (S.compared q p x) frame f (in_list (Do (saving g) ∷ Do store ∷ Do (restoring g) ∷ back) n qa []) (λ ms. in_list (Do source ∷ rest) m pa ms) those s.asked →
        IsStep (S.compared q p x) frame f (AreApart (S.compared q p x) slot.field) qs ps ql pl (in_list (Do (saving g) ∷ Do store ∷ Do (restoring g) ∷ back) n qa []) (in_list (Do source ∷ rest) m pa those) }

    // Or both trap.
    ensures bad { (q p : Program) (x : S.pairs q p) (frame : Frame) (f : Functions q p frame) (ps : List (List Value)) (slot : Slot (S.compared q p x) ps) (qs : List (List Value)) (ql pl : Locals) → Agree ((S.compared q p x).base frame.func) ql pl →
        (store source : Expr) (g : ℕ) (those : List Mark) (s : BadSource (S.compared q p x) frame f slot pl those source) (h : PutAloneBad (S.compared q p x) frame f slot ql store) → IsGuard (S.compared q p x) frame f ql h.needs g → (back rest : List Stmt) (n m : ℕ) (qa pa : List Level) →
        JoinedBefore (S.compared q p x) frame f (in_list (Do (saving g) ∷ Do store ∷ Do (restoring g) ∷ back) n qa []) (λ ms. in_list (Do source ∷ rest) m pa ms) those s.asked →
        IsStep (S.compared q p x) frame f (AreApart (S.compared q p x) slot.field) qs ps ql pl (in_list (Do (saving g) ∷ Do store ∷ Do (restoring g) ∷ back) n qa []) (in_list (Do source ∷ rest) m pa those) }
{}

/// Writes of a value that is worked out into a temporary first, in front of what stands for the write.
pub fn worked_out<S: ComparedPrograms>()
    // `x = e;` is `t = e;` and what stands for `x = t;`: the other stands in front of its write, all asked for, until then.
    ensures writes { (q p : Program) (x : S.pairs q p) (frame : Frame) (f : Functions q p frame) (qs ps : List (List Value)) (ql pl : Locals) → Agree ((S.compared q p x).base frame.func) ql pl →
        (these those : List Mark) (keep source : Expr) (back rest : List Stmt) (n m : ℕ) (qa pa : List Level) (field : Option Field) (asked : List Asked) (h : WorkedOut (S.compared q p x) frame f ql pl these those asked keep source) →
        JoinedOut (S.compared q p x) frame f (λ ms. in_list (Do keep ∷ back) n qa ms) (λ ms. in_list (Do source ∷ rest) m pa ms) (behind_one q frame back n qa) these those asked →
        StepBehind (S.compared q p x) frame f (ApartFrom (S.compared q p x) frame f field) qs ps (with_scalar ql h.temporary 0 (Some h.value)) pl (behind_one q frame back n qa) (in_list (Do source ∷ rest) m pa those) asked →
        IsStep (S.compared q p x) frame f (ApartFrom (S.compared q p x) frame f field) qs ps ql pl (in_list (Do keep ∷ back) n qa these) (in_list (Do source ∷ rest) m pa those) }
{}

/// Two statements that both have something to ask for, of which nothing else sees anything. The call does nothing.
pub fn asked_alike<S: ComparedPrograms>()
    ensures { (q p : Program) (x : S.pairs q p) (frame : Frame) (f : Functions q p frame) (qs ps : List (List Value)) (ql pl : Locals) → Agree ((S.compared q p x).base frame.func) ql pl →
        (these those : List Mark) (a b : Asked) (first source : Expr) → IsAsking (in_q (S.compared q p x) frame f) ql these a first → IsAsking (in_p (S.compared q p x) frame f) pl those b source →
        (back rest : List Stmt) (n m : ℕ) (qa pa : List Level) →
        (S.compared q p x).Joined frame (in_list (Do first ∷ back) n qa (these ++ mark_of a ∷ [])) (in_list (Do source ∷ rest) m pa (those ++ mark_of b ∷ [])) →
        IsStep (S.compared q p x) frame f (Anything (S.compared q p x) frame f) qs ps ql pl (in_list (Do first ∷ back) n qa these) (in_list (Do source ∷ rest) m pa those) }
{}
