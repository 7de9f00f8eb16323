//! Objects and members without those that are coded, in the order of their alignments.
#![tactic(auto)]
