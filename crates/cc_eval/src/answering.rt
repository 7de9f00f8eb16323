ghost use Rattle.std.specs.Prelude.{◌≡◌, Bool, List, [], ◌∷◌, Option, Some, None};
ghost use Rattle.cc_program.specs.declared.value.Value.{Value};
ghost use Rattle.cc_eval.specs.declared.action.Action.{Action};
ghost use Rattle.cc_eval.specs.declared.action.Action.TheVariants.{Choose};
ghost use Rattle.cc_eval.specs.declared.mark.Mark.{Mark};
ghost use Rattle.cc_eval.specs.Eval.{choice};
ghost use Rattle.cc_eval.specs.Marks.{after, Works};
ghost use Rattle.cc_eval.specs.Progress.{Get, known, ask, bind, needs, Waits};

/// Which marks answer a step, which steps may be asked for, and what is to hold of what is given first, and of what the whole
/// gives then.
pub trait Answers {
    ghost is_mark: { Action → Mark → Type 0 };

    ghost is_step: { Action → Type 0 };

    ghost first: { Option Value → Type 0 };

    ghost whole: { Option Value → Type 0 };
}

/// What is made of parts that work by such answers works by them. The call does nothing.
pub fn works_by<T: Answers>()
    ensures known { (v : Option Value) → T.whole v → Works T.is_mark T.is_step T.whole (known v) }
    ensures asked { (action : Action) (f : Mark → Option Value) → T.is_step action → ((m : Mark) → T.is_mark action m → T.whole (f m)) → Works T.is_mark T.is_step T.whole (ask action f) }
    ensures needed { (v : Option Value) (f : Value → Get (Option Value)) → ((a : Value) → v ≡ Some a → Works T.is_mark T.is_step T.whole (f a)) → Works T.is_mark T.is_step T.whole (needs v f) }
    ensures in_order { (g : Get (Option Value)) (f : Option Value → Get (Option Value)) → Works T.is_mark T.is_step T.first g → ((v : Option Value) → T.first v → Works T.is_mark T.is_step T.whole (f v)) →
        Works T.is_mark T.is_step T.whole (bind g f) }

    // A branch step may be asked for, and a bad value may be given: then so may a choice, with its arms.
    ensures chosen { (pure : Bool) (condition these those : Get (Option Value)) → ((b : Option Bool) → T.is_step (Choose b)) → T.whole None → Works T.is_mark T.is_step T.first condition →
        Works T.is_mark T.is_step T.whole these → Works T.is_mark T.is_step T.whole those → Works T.is_mark T.is_step T.whole (choice pure condition these those) }

    // So does what is left once its first step is answered.
    ensures left { (g : Get (Option Value)) (action : Action) (m : Mark) → g [] ≡ Waits action → T.is_mark action m → Works T.is_mark T.is_step T.whole g → Works T.is_mark T.is_step T.whole (after g m) }
{}
