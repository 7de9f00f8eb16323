//! Accesses of variables that are told by codes of few bits.
#![tactic(auto)]
