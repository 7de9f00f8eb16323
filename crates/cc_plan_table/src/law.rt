ghost use Rattle.std.specs.Prelude.{◌≡◌, ◌+◌, ℕ, pos, negsuc, List, [], ◌∷◌, Some, codes, false, length, slice_get, true};
ghost use Rattle.cc_cost_ranking.specs.declared.costs.Cost.{Cost};
ghost use Rattle.cc_places.specs.declared.addrs.Addrs.{Addrs as Set};
ghost use Rattle.cc_plan_legal.specs.declared.kinds.Plan.{Plan};
ghost use Rattle.cc_program.specs.declared.func.Func.{Func};
ghost use Rattle.cc_program.specs.declared.program.Program.{Program};
ghost use Rattle.cc_program.specs.declared.value.Address.TheVariants as address;
ghost use Rattle.cc_sets.specs.declared.range.Range.{Range};
ghost use Rattle.cc_sets.specs.declared.vals.Vals.{Vals};
ghost use Rattle.cc_slots_types.specs.declared.slot.Slot.{Slot};
ghost use Rattle.cc_plan_table.specs.declared.row.Ram.{Ram as RamOf};
ghost use Rattle.cc_plan_table.specs.Examples.{array_and_const, in_one_word, one_cost, one_pointer, pointer_in_word, ram, six_costs, six_slots, three_costs, three_scalars, zero_to_nine, AreInts};
ghost use Rattle.cc_plan_table.specs.Table.{table_rows, table_text};

/// What tables keep. The call does nothing.
pub fn laws()
    // There is a row for each slot, behind the header and before the totals.
    ensures { (p : Program) (words : List (List ℕ)) (slots : List Slot) (plan : Plan) (costs : List Cost) (ram : RamOf) → length (table_rows p words slots plan costs ram) ≡ length slots + 2 }
{}

/// The tables of some plans. The call does nothing.
pub fn known_tables()
    // Three scalars share a word.
    ensures shared_word { (p : Program) (a b c : Vals) → AreInts a (pos 0 ∷ pos 1 ∷ []) → AreInts b (pos 0 ∷ pos 1 ∷ pos 2 ∷ []) → AreInts c zero_to_nine →
        table_text p (codes "w__1" ∷ []) (three_scalars a b c) in_one_word three_costs (ram 3 1)
        ≡ codes "slot,class,values,bits,coding,word,reason\na,lone,0 1,1,direct,w__1:6,\nb,lone,0 1 2,2,direct,w__1:4,\nc,lone,0 1 2 3 4 5 6 7 8 9,4,direct,w__1:0,\ntotal,3,1,0,64,48,3\n" }

    // An array is packed, a slot has one value, one is beyond the budgets, one is dissolved, one is volatile, and the code of one is too long.
    ensures of_all_sorts { (p : Program) (a k b d v : Vals) (r : Range) → AreInts a (pos 0 ∷ pos 1 ∷ pos 2 ∷ []) → AreInts k (negsuc 6 ∷ []) → AreInts b zero_to_nine → AreInts d (pos 0 ∷ pos 1 ∷ []) → r.signed ≡ false → r.bits ≡ 8 →
        table_text p [] (six_slots a k b d v r) array_and_const six_costs (ram 17 8)
        ≡ codes "slot,class,values,bits,coding,word,reason\na,lone,0 1 2,2,direct,a/2,\nk,lone,-7,0,const,,\nb,lone,0 1 2 3 4 5 6 7 8 9,4,,,budget\nd,written,0 1,1,,,dissolved\nv,written,,,,,volatile\ns.m,lone,0..255,8,,,wide\ntotal,17,8,0,14,10,2\n" }

    // Null and the addresses of two functions are told by a table of 2 bytes for each.
    ensures by_table { (p : Program) (s : Set) (f g : Func) → s.is_exact ≡ true → s.members ≡ address.Null ∷ address.Func 0 ∷ address.Func 1 ∷ [] →
        slice_get p.funcs 0 ≡ Some f → slice_get p.funcs 1 ≡ Some g → f.name ≡ codes "f" → g.name ≡ codes "g" →
        table_text p (codes "w__1" ∷ []) (one_pointer s) pointer_in_word one_cost (ram 2 1)
        ≡ codes "slot,class,values,bits,coding,word,reason\ntask,lone,0 f g,2,table,w__1:0,\ntotal,2,1,6,58,37,1\n" }
{}
