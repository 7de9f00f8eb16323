ghost use Rattle.std.specs.Prelude.{◌≡◌, List, All, if◌then◌else◌, []};
ghost use Rattle.cc_rules_asked.specs.CcRules.Constraints.{Write, Touch, Return, Stability};
ghost use Rattle.cc_rules_asked.specs.declared.asked.Asked.{Asked};
ghost use Rattle.cc_rules_asked.specs.declared.handlers.Handler.{Handler};
ghost use Rattle.cc_rules_asked.specs.Asks.{AsksHere};
ghost use Rattle.cc_rules_asked.specs.Handlers.{AreHandlersOf, asked_of_all};
ghost use Rattle.cc_rules_calls.specs.Backs.{IsBehind};
ghost use Rattle.cc_rules_calls.specs.Here.{AreEntries};
ghost use Rattle.cc_rules_asked.specs.CcRulesFlows.declared.after.Here.{Here as HereOf};
ghost use Rattle.cc_rules_asked.specs.CcRulesFlows.Acts.{Act as ActOf};
ghost use Rattle.cc_rules_asked.specs.CcRulesFlows.Here.{IsHere};
ghost use Rattle.cc_rules_asked.specs.CcRulesFlows.Nexts.{IsPoint};
ghost use Rattle.cc_rules_functions.specs.declared.functions.Function.{Function};
ghost use Rattle.cc_rules_functions.specs.Functions.{AreFunctionsOf};
ghost use Rattle.cc_rules_layout.specs.Raisable.{AreRaisable};
ghost use Rattle.cc_rules_nexts.specs.Told.{IsOnward};
ghost use Rattle.cc_rules_grow.specs.CcState.Shape.{HaveShape};
ghost use Rattle.cc_rules_asked.specs.CcStateOperators.Domains.{domain};

use cc_rules_asked::lattice::IntDomain;

/// What is asked at a point that is reached can be raised, where facts are of the program's shape. The call does nothing.
pub fn laws<I: IntDomain>()
    // What writes ask,
    ensures write { (here : HereOf I) → HaveShape (domain I.Has I.IsBelow I.OpGives I.OpOneGives I.ToGives I.KeepGives I.members_of) here.context.program.now here.facts.now →
        IsPoint here.context.program.now here.number here.context.id here.context.func.now here.point.now → IsHere (domain I.Has I.IsBelow I.OpGives I.OpOneGives I.ToGives I.KeepGives I.members_of) here →
        (act : ActOf) (list : List (Asked I)) → AsksHere (domain I.Has I.IsBelow I.OpGives I.OpOneGives I.ToGives I.KeepGives I.members_of) here Write act list →
        AreRaisable (domain I.Has I.IsBelow I.OpGives I.OpOneGives I.ToGives I.KeepGives I.members_of) here.context.program.now here.facts.now list }

    // accesses,
    ensures touch { (here : HereOf I) → HaveShape (domain I.Has I.IsBelow I.OpGives I.OpOneGives I.ToGives I.KeepGives I.members_of) here.context.program.now here.facts.now →
        IsPoint here.context.program.now here.number here.context.id here.context.func.now here.point.now → IsHere (domain I.Has I.IsBelow I.OpGives I.OpOneGives I.ToGives I.KeepGives I.members_of) here →
        (act : ActOf) (list : List (Asked I)) → AsksHere (domain I.Has I.IsBelow I.OpGives I.OpOneGives I.ToGives I.KeepGives I.members_of) here Touch act list →
        AreRaisable (domain I.Has I.IsBelow I.OpGives I.OpOneGives I.ToGives I.KeepGives I.members_of) here.context.program.now here.facts.now list }

    // returns,
    ensures return_value { (here : HereOf I) → HaveShape (domain I.Has I.IsBelow I.OpGives I.OpOneGives I.ToGives I.KeepGives I.members_of) here.context.program.now here.facts.now →
        IsPoint here.context.program.now here.number here.context.id here.context.func.now here.point.now → IsHere (domain I.Has I.IsBelow I.OpGives I.OpOneGives I.ToGives I.KeepGives I.members_of) here →
        (act : ActOf) (list : List (Asked I)) → AsksHere (domain I.Has I.IsBelow I.OpGives I.OpOneGives I.ToGives I.KeepGives I.members_of) here Return act list →
        AreRaisable (domain I.Has I.IsBelow I.OpGives I.OpOneGives I.ToGives I.KeepGives I.members_of) here.context.program.now here.facts.now list }

    // and handlers of the cells that they may write.
    ensures stability { (here : HereOf I) → HaveShape (domain I.Has I.IsBelow I.OpGives I.OpOneGives I.ToGives I.KeepGives I.members_of) here.context.program.now here.facts.now →
        IsPoint here.context.program.now here.number here.context.id here.context.func.now here.point.now → IsHere (domain I.Has I.IsBelow I.OpGives I.OpOneGives I.ToGives I.KeepGives I.members_of) here →
        (act : ActOf) (list : List (Asked I)) → AsksHere (domain I.Has I.IsBelow I.OpGives I.OpOneGives I.ToGives I.KeepGives I.members_of) here Stability act list →
        AreRaisable (domain I.Has I.IsBelow I.OpGives I.OpOneGives I.ToGives I.KeepGives I.members_of) here.context.program.now here.facts.now list }

    // What is asked of handlers that may enter,
    ensures handlers { (here : HereOf I) → HaveShape (domain I.Has I.IsBelow I.OpGives I.OpOneGives I.ToGives I.KeepGives I.members_of) here.context.program.now here.facts.now →
        IsPoint here.context.program.now here.number here.context.id here.context.func.now here.point.now → IsHere (domain I.Has I.IsBelow I.OpGives I.OpOneGives I.ToGives I.KeepGives I.members_of) here →
        (all : List Handler) (list : List (Asked I)) → AreHandlersOf here.context.program.now all → list ≡ (if here.fact.now.on then asked_of_all here all else []) →
        AreRaisable (domain I.Has I.IsBelow I.OpGives I.OpOneGives I.ToGives I.KeepGives I.members_of) here.context.program.now here.facts.now list }

    // of functions that a call calls,
    ensures entries { (here : HereOf I) → HaveShape (domain I.Has I.IsBelow I.OpGives I.OpOneGives I.ToGives I.KeepGives I.members_of) here.context.program.now here.facts.now →
        IsPoint here.context.program.now here.number here.context.id here.context.func.now here.point.now → IsHere (domain I.Has I.IsBelow I.OpGives I.OpOneGives I.ToGives I.KeepGives I.members_of) here →
        (functions : List Function) (list : List (Asked I)) → AreFunctionsOf here.context.program.now functions → AreEntries here functions list →
        AreRaisable (domain I.Has I.IsBelow I.OpGives I.OpOneGives I.ToGives I.KeepGives I.members_of) here.context.program.now here.facts.now list }

    // of the points behind a call,
    ensures behind { (here : HereOf I) → HaveShape (domain I.Has I.IsBelow I.OpGives I.OpOneGives I.ToGives I.KeepGives I.members_of) here.context.program.now here.facts.now →
        IsPoint here.context.program.now here.number here.context.id here.context.func.now here.point.now → IsHere (domain I.Has I.IsBelow I.OpGives I.OpOneGives I.ToGives I.KeepGives I.members_of) here →
        (list : List (Asked I)) → All (IsBehind (domain I.Has I.IsBelow I.OpGives I.OpOneGives I.ToGives I.KeepGives I.members_of) here) list →
        AreRaisable (domain I.Has I.IsBelow I.OpGives I.OpOneGives I.ToGives I.KeepGives I.members_of) here.context.program.now here.facts.now list }

    // and of next points.
    ensures onward { (here : HereOf I) → HaveShape (domain I.Has I.IsBelow I.OpGives I.OpOneGives I.ToGives I.KeepGives I.members_of) here.context.program.now here.facts.now →
        IsPoint here.context.program.now here.number here.context.id here.context.func.now here.point.now → IsHere (domain I.Has I.IsBelow I.OpGives I.OpOneGives I.ToGives I.KeepGives I.members_of) here →
        (list : List (Asked I)) → All (IsOnward (domain I.Has I.IsBelow I.OpGives I.OpOneGives I.ToGives I.KeepGives I.members_of) here) list →
        AreRaisable (domain I.Has I.IsBelow I.OpGives I.OpOneGives I.ToGives I.KeepGives I.members_of) here.context.program.now here.facts.now list }
{}
