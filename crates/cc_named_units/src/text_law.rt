ghost use Rattle.std.specs.Prelude.{◌≡◌, ◌<◌, ◌≤◌, ◌^◌, ℕ, true, false, nat_lt, List, length};
ghost use Rattle.std.specs.List.{All, list_all, list_any};
ghost use Rattle.std.specs.Str.{bytes_eq};
ghost use Rattle.cc_type.specs.CcLex.Tokens.{Tokens};
ghost use Rattle.cc_type.specs.CcLex.declared.token.Token.{Token};
ghost use Rattle.cc_named_units.specs.Named.{is_own};
ghost use Rattle.cc_program.specs.CcNum.declared.target.Target.{Target};
ghost use Rattle.cc_program.specs.declared.program.Roles.{Roles};
ghost use Rattle.cc_relocated_units.specs.Units.{IsOfText, is_main_name};
ghost use Rattle.cc_type.specs.CcSyntax.Names.{intrinsic_names};
ghost use Rattle.cc_type.specs.CcSyntax.Sound.{main_name};
ghost use Rattle.cc_tree.specs.Sentences.{IsSentence};
ghost use Rattle.cc_tree.specs.declared.unit.Unit.{Unit as UnitTree};
ghost use Rattle.cc_type.specs.Typed.{IsTyped};
ghost use Rattle.cc_type.specs.CcUnit.declared.unit.TypedUnit.{TypedUnit};
ghost use Rattle.cc_type.specs.CcUnit.declared.unit.UnitName.{UnitName};

/// What the typed unit of a text has: of a text with fewer than 2 ^ 32 bytes, tags, members, names and locals may name something, and a structure has fewer than 2 ^ 32 members and a function fewer locals; and there are
/// no more names and no more structures than tokens (C99 6.4.2.1, 6.7, 6.9). The call does nothing.
pub fn text_laws()
    ensures texts { (text : List ℕ) (ts : List Token) (u : UnitTree) (target : Target) (roles : Roles) (t : TypedUnit) → length text < 2 ^ 32 → Tokens text ts → IsSentence ts u → IsTyped u target roles t → IsOfText t }
    ensures few { (text : List ℕ) (ts : List Token) (u : UnitTree) (target : Target) (roles : Roles) (t : TypedUnit) → Tokens text ts → IsSentence ts u → IsTyped u target roles t →
        (length t.names ≤ length ts) × (length t.structures ≤ length ts) }

    // Nothing else has an intrinsic's name.
    ensures own { (text : List ℕ) (ts : List Token) (u : UnitTree) (target : Target) (roles : Roles) (t : TypedUnit) → Tokens text ts → IsSentence ts u → IsTyped u target roles t →
        list_all (λ (n : UnitName). is_own roles n.name) t.names ≡ true }

    // Where the unit defines `main`, no intrinsic has that name.
    ensures main { (text : List ℕ) (ts : List Token) (u : UnitTree) (target : Target) (roles : Roles) (t : TypedUnit) → Tokens text ts → IsSentence ts u → IsTyped u target roles t →
        All (λ (n : UnitName). is_main_name n.name ≡ true → nat_lt 0 n.count ≡ true → list_any (bytes_eq main_name) (intrinsic_names roles) ≡ false) t.names }
{}
