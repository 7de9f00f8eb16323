//! How what is asked of facts has to be laid out, so that facts can be raised by it.
#![tactic(auto)]
