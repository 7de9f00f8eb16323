//! The constraints that read what keys have in the whole run.

ghost use Rattle.std.specs.Prelude.{◌≡◌, ◌++◌, map, OnOk};
ghost use Rattle.cc_rules_asked.specs.CcRules.Constraints.{Flow};
ghost use Rattle.cc_rules_again.specs.Again.{number_at, whole_readers};
ghost use Rattle.cc_rules_made.specs.Rules.{AreOf};
ghost use Rattle.cc_rules_readers.specs.Index.{IsIndexed, IsIndexOf, key_candidates, candidates as candidates_of};
ghost use Rattle.cc_rules_readers.specs.Points.{points_that, reads_in};
ghost use Rattle.cc_rules_readers.specs.View.{named_view};

use crate::index::Index;
use crate::lists::{put_reads, put_rule};
use crate::naming::Named;
use crate::stability::put_stability_readers;
use cc_program::num::NoMemory;
use cc_rules_asked::state_facts::{Facts, Key};
use cc_rules_made::Rules;
use cc_rules_numbered::Rule;
use std::alloc::Global;

/// Points among which are those that read a key without a pointer.
fn candidates_of_key(index: &Index, key: Key) -> &[u32]
    ensures { result.now ≡ key_candidates index.now key }
{
    match key {
        Key::Object(i) => index.objects.points(i),
        Key::Local(g, _) => index.locals.points(g),
        Key::Member(_, m) => index.members.points(m),
    }
}

/// Points among which are those that read one of some keys without a pointer.
fn candidates(index: &Index, keys: Named) -> &[u32]
    ensures { result.now ≡ candidates_of index.now (named_view keys) }
{
    match keys {
        Named::NoKey => &[],
        Named::OneKey(key) => candidates_of_key(index, key),
        Named::MembersAt(m) => index.members.points(m),
        Named::LocalsOf(g) => index.locals.points(g),
        Named::EachKey => index.named_reads.all(),
    }
}

/// Puts those that read one of some keys without a pointer.
fn put_named_reads(list: &mut Vec<u32>, index: &Index, keys: Named) -> Result<(), NoMemory>
    requires { IsIndexed index.now }
    ensures { OnOk result (list.new.items ≡ list.old.items ++ map (number_at Flow) (points_that index.now.deeds (reads_in keys))) }
{
    let deeds = index.deeds.all();
    let points = candidates(index, keys);
    put_reads(list, deeds, points, keys)
}

/// Puts those that read what some keys have in the whole run.
pub(crate) fn put_whole_readers<I>(
    alloc: Global,
    list: &mut Vec<u32>,
    rules: &Rules<'_>,
    index: &Index,
    facts: &Facts<I>,
    keys: Named,
) -> Result<(), NoMemory>
    requires rules { AreOf rules.now.program.now rules.now }
    requires index { IsIndexOf rules.now.program.now index.now }
    ensures { OnOk result (list.new.items ≡ list.old.items ++ whole_readers rules.now.program.now facts.now (named_view keys)) }
{
    let pointed = index.pointer_reads.all();
    put_named_reads(list, index, keys)?;
    put_rule(list, Rule::Flow, pointed)?;
    put_stability_readers(alloc, list, rules, index, facts, keys)
}
