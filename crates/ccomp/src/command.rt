//! The words of a command.

ghost use Rattle.std.specs.Prelude.{◌≡◌, option_map, nat_eq};
ghost use Rattle.std.specs.Cmp.Lexicographic.{pointwise};
ghost use Rattle.ccomp.specs.Command.{command_of, asked_of, texts, is_dash as is_dash_of, is_pack as is_pack_of, is_make as is_make_of, is_run as is_run_of, named as named_of, may_be_sources as may_be_sources_of, pack_asked, run_asked, pack_of, make_of, run_of, IsMeant};

use crate::make;
use cc_packing::Packing;
use cc_simulation::Simulation;

/// The most sources of a program.
const SOURCE_LIMIT: usize = 64;

/// What words ask for.
#[derive(Clone, Copy)]
pub enum Asked<'w> {
    /// To rewrite sources.
    Pack(Packing<'w>),
    /// To say the source of so many counters, drawn from a seed.
    Make { seed: u64, count: u32 },
    /// To say the trace of a run.
    Run(Simulation<'w>),
    /// Nothing: they are no command, for this word.
    Wrong(&'w str),
}

fn is_dash(word: &str) -> bool
    ensures { result ≡ is_dash_of word.now }
{
    word.as_bytes() == b"-".as_slice()
}

fn is_pack(word: &str) -> bool
    ensures { result ≡ is_pack_of word.now }
{
    word.as_bytes() == b"pack".as_slice()
}

fn is_make(word: &str) -> bool
    ensures { result ≡ is_make_of word.now }
{
    word.as_bytes() == b"make".as_slice()
}

fn is_run(word: &str) -> bool
    ensures { result ≡ is_run_of word.now }
{
    word.as_bytes() == b"run".as_slice()
}

fn is_same(word: &str, other: &str) -> bool
    ensures { result ≡ pointwise nat_eq word.now other.now }
{
    word.as_bytes() == other.as_bytes()
}

/// No name where the word is `-`.
fn named(word: &str) -> Option<&str>
    ensures { option_map (λ w. w.now) result ≡ named_of word.now }
{
    if is_dash(word) { None } else { Some(word) }
}

fn may_be_sources(names: &[String]) -> bool
    ensures { result ≡ may_be_sources_of (texts names.now) }
{
    1 <= names.len() && names.len() <= SOURCE_LIMIT
}

/// What `pack` asks for with these words, or a certificate that is not `-`, or a name of the output that is `-` or the table's too.
fn pack<'w>(
    profile: &'w str,
    out: &'w str,
    table: &'w str,
    certificate: &'w str,
    sources: &'w [String],
) -> Asked<'w>
    ensures { asked_of result ≡ pack_asked profile.now out.now table.now certificate.now (texts sources.now) }
{
    if !is_dash(certificate) {
        Asked::Wrong(certificate)
    } else if is_dash(out) || is_same(table, out) {
        Asked::Wrong(out)
    } else {
        let profile = named(profile);
        let table = named(table);
        Asked::Pack(Packing {
            profile,
            out,
            table,
            sources,
        })
    }
}

/// What `pack` asks for with the words behind it.
fn pack_words<'w>(command: &'w str, rest: &'w [String]) -> Asked<'w>
    ensures { asked_of result ≡ pack_of command.now (texts rest.now) }
{
    match rest {
        [profile, out, table, certificate, sources @ ..] => {
            if may_be_sources(sources) {
                pack(profile, out, table, certificate, sources)
            } else {
                Asked::Wrong(command)
            }
        }
        _ => Asked::Wrong(command),
    }
}

/// What `run` asks for with these words, or the one that writes no number of steps.
fn run<'w>(
    profile: &'w str,
    inputs: &'w str,
    arrivals: &'w str,
    steps: &'w str,
    sources: &'w [String],
) -> Asked<'w>
    ensures { asked_of result ≡ run_asked profile.now inputs.now arrivals.now steps.now (texts sources.now) }
{
    let profile = named(profile);
    match make::steps_in(steps) {
        None => Asked::Wrong(steps),
        Some(steps) => Asked::Run(Simulation {
            profile,
            inputs,
            arrivals,
            steps,
            sources,
        }),
    }
}

/// What `run` asks for with the words behind it.
fn run_words<'w>(command: &'w str, rest: &'w [String]) -> Asked<'w>
    ensures { asked_of result ≡ run_of command.now (texts rest.now) }
{
    match rest {
        [profile, inputs, arrivals, steps, sources @ ..] => {
            if may_be_sources(sources) {
                run(profile, inputs, arrivals, steps, sources)
            } else {
                Asked::Wrong(command)
            }
        }
        _ => Asked::Wrong(command),
    }
}

/// What `make` asks for with the words behind it.
fn make_words<'w>(command: &'w str, rest: &'w [String]) -> Asked<'w>
    ensures { asked_of result ≡ make_of command.now (texts rest.now) }
{
    match rest {
        [seed, count] => make::asked(seed, count),
        _ => Asked::Wrong(command),
    }
}

/// What the words ask for: the commands are `pack PROFILE OUT TABLE - SOURCE..`, where PROFILE and TABLE may be `-`,
/// `run PROFILE INPUTS ARRIVALS STEPS SOURCE..`, where PROFILE may be `-`, and `make SEED COUNT`.
#[tactic(auto, using(crate::proofs::CommandLaws::of_commands))]
pub fn command(words: &[String]) -> Asked<'_>
    ensures asked { asked_of result ≡ command_of (texts words.now) }
    ensures meant { IsMeant (asked_of result) }
{
    match words {
        [] => Asked::Wrong(""),
        [command, rest @ ..] => {
            if is_pack(command) {
                pack_words(command, rest)
            } else if is_run(command) {
                run_words(command, rest)
            } else if is_make(command) {
                make_words(command, rest)
            } else {
                Asked::Wrong(command)
            }
        }
    }
}
