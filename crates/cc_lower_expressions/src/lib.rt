//! Full expressions in normal form: reads of places, calls and intrinsics in statements of their own, and pure operands.
#![tactic(auto)]
