//! The top call.

ghost use Rattle.std.specs.Prelude.{⊤, ◌≡◌, ◌≢◌, ◌≤◌, ◌<◌, ◌⊎◌, ◌++◌, ℕ, take, codes, IsTrue, List as ListOf, true, false};
ghost use Rattle.cc_cost.specs.declared.fault.ProfileFault.{ProfileFault as ProfileFaultOf};
ghost use Rattle.cc_cost.specs.declared.fault.ProfileFault.TheVariants.{NoMemory as NoRoomForRows};
ghost use Rattle.cc_edge.specs.Faults.{HasNoFault, Rose};
ghost use Rattle.cc_edge.specs.Files.{KeepsFiles};
ghost use Rattle.cc_make.specs.Source.{made};
ghost use Rattle.cc_packing.specs.Asked.{Asked as Packed, IsUntold};
ghost use Rattle.cc_packing.specs.Ends.{PackEnds};
ghost use Rattle.cc_packing.specs.Headline.{CanBePacked, Packs, IsAtFault};
ghost use Rattle.cc_read.specs.declared.refusal.ReadRefusal.{ReadRefusal as ReadRefusalOf};
ghost use Rattle.cc_read.specs.declared.refusal.ReadRefusal.TheVariants.{NoMemory as NoRoom};
ghost use Rattle.cc_simulation.specs.Asked.{Asked as Simulated, IsUntold as IsUntoldRun};
ghost use Rattle.cc_simulation.specs.Ends.{RunEnds};
ghost use Rattle.cc_simulation.specs.Traces.{Says, SaysFront};
ghost use Rattle.cc_status.specs.Statuses.{may_write, is_of_files, is_over};
ghost use Rattle.cc_status.specs.declared.status.What.{What as WhatOf};
ghost use Rattle.ccomp.specs.Command.{Command, Pack, Run, Make, Wrong, ForEach, ForFiles, IsRunLimit, says, command_of, texts};

use crate::command::{Asked, command};
use crate::make::make;
use cc_edge::{Sink, Store};
use cc_files::copy_name;
use cc_packing::pack;
use cc_program::num::NoMemory;
use cc_simulation::simulate;
use cc_status::{Status, What};
use std::alloc::Global;

/// Does what the words say. Where the store tells its files, the clauses speak of them; where it does
/// not, of answers and their causes alone.
#[tactic(auto, using(crate::proofs::Answers::of_answers))]
pub fn ccomp<F: Store, O: Sink>(
    alloc: Global,
    words: &[String],
    store: &mut F,
    sink: &mut O,
) -> Status
    ensures told { F.told store.new ≡ F.told store.old }
    ensures later_faults { F.faults store.old ≤ F.faults store.new }

    // Usage comes exactly where the words are no command, and with the word that is wrong.
    ensures usage_word { (word : ListOf ℕ) → result ≡ Status.Usage word → command_of (texts words.now) ≡ Wrong word }
    ensures usage { (word : ListOf ℕ) → command_of (texts words.now) ≡ Wrong word → (result ≡ Status.Usage word) ⊎ (result ≡ Status.NoMemory) }

    // The output does what the sources do, in no more RAM, the table, where it is named, tells the RAM of both, and
    // nothing else has changed. Of `run` and `make`, nothing has.
    ensures headline { result ≡ Status.Done → IsTrue (F.told store.old) →
        ForEach (command_of (texts words.now)) (λ a. Packs a (F.files store.old) (F.files store.new)) (λ a. KeepsFiles (F.files store.old) (F.files store.new)) (λ seed count. KeepsFiles (F.files store.old) (F.files store.new)) }
    // Where all that packing needs is there, and no call of the store has a fault, it is done, or memory ran out.
    ensures complete { (a : Packed) → command_of (texts words.now) ≡ Pack a → IsTrue (F.told store.old) → HasNoFault (F.faults store.old) (F.faults store.new) →
        CanBePacked (F.files store.old) a → (result ≡ Status.Done) ⊎ (result ≡ Status.NoMemory) }
    // `run` says exactly the trace of the program that the sources are, and `make` the made source.
    ensures said { result ≡ Status.Done → IsTrue (O.told sink.old) →
        ForEach (command_of (texts words.now)) (λ a. O.said sink.new ≡ O.said sink.old)
        (λ a. IsTrue (F.told store.old) → Says a (F.files store.old) (O.said sink.old) (O.said sink.new)) (λ seed count. O.said sink.new ≡ O.said sink.old ++ made seed count) }
    // Limit of `run` comes where there are more than 1,000,000 steps, and of `make` where the count is above 1,000. The number
    // that it tells is above the limit.
    ensures steps { (a : Simulated) → command_of (texts words.now) ≡ Run a → 1000000 < a.steps → result ≡ Status.Limit What.Steps a.steps }
    ensures limit { (seed count : ℕ) → command_of (texts words.now) ≡ Make seed count → 1000 < count → result ≡ Status.Limit What.Count count }
    ensures above { (what : WhatOf) (number : ℕ) → result ≡ Status.Limit what number →
        ForEach (command_of (texts words.now)) (λ a. is_over what number ≡ true) (λ a. IsRunLimit a what number) (λ seed count. (what ≡ What.Count) × (number ≡ count) × (1000 < count)) }

    // Any other answer of `pack` before it writes, and of `run` before it says anything, has its cause in the files, the first
    // in the order in which they are looked for. Inputs and Arrivals are answers of `run` alone.
    ensures ends { is_of_files result ≡ true → IsTrue (F.told store.old) →
        ForFiles (command_of (texts words.now)) (λ a. PackEnds (F.files store.old) (Rose (F.faults store.old) (F.faults store.new)) a result) (λ a. RunEnds (F.files store.old) (Rose (F.faults store.old) (F.faults store.new)) a result) }
    ensures inputs { (row : ℕ) → result ≡ Status.Inputs row → ForFiles (command_of (texts words.now)) (λ a. ⊥) (λ a. ⊤) }
    ensures arrivals { (row : ℕ) → result ≡ Status.Arrivals row → ForFiles (command_of (texts words.now)) (λ a. ⊥) (λ a. ⊤) }
    // Over a store that does not tell its files, a fault names one that is read, and it comes where the store's faults rose, or
    // where more bytes were taken than a file of its kind may have.
    ensures untold { is_of_files result ≡ true → F.told store.old ≡ false →
        ForFiles (command_of (texts words.now)) (λ a. IsUntold a (Rose (F.faults store.old) (F.faults store.new)) (F.taken store.old) (F.taken store.new) result)
        (λ a. IsUntoldRun a (Rose (F.faults store.old) (F.faults store.new)) (F.taken store.old) (F.taken store.new) result) }
    // Neither Refused nor Profile is ever for want of memory.
    ensures memory { (name : ListOf ℕ) (why : ReadRefusalOf) → result ≡ Status.Refused name why → why ≢ NoRoom }
    ensures memory_of_profile { (fault : ProfileFaultOf) → result ≡ Status.Profile fault → fault ≢ NoRoomForRows }

    // WriteFault names the file that was not written whole. Where it is the output, the table is as it was; where it is
    // the table, the output is whole. `-` is the sink, to which the first bytes of a trace or of a made source were said.
    ensures write_fault { (name : ListOf ℕ) → result ≡ Status.WriteFault name →
        ForEach (command_of (texts words.now)) (λ a. Rose (F.faults store.old) (F.faults store.new) × IsAtFault name a (F.told store.old) (F.files store.old) (F.files store.new))
        (λ a. (name ≡ codes "-") × Rose (O.faults sink.old) (O.faults sink.new)
        × (IsTrue (F.told store.old) → KeepsFiles (F.files store.old) (F.files store.new))
        × (IsTrue (F.told store.old) → IsTrue (O.told sink.old) → SaysFront a (F.files store.old) (O.said sink.old) (O.said sink.new)))
        (λ seed count. (name ≡ codes "-") × Rose (O.faults sink.old) (O.faults sink.new)
        × (IsTrue (F.told store.old) → KeepsFiles (F.files store.old) (F.files store.new))
        × (IsTrue (O.told sink.old) → (n : ℕ) × (O.said sink.new ≡ O.said sink.old ++ take n (made seed count)))) }

    // After any other answer than Done and WriteFault the files are as they were.
    ensures unchanged { may_write result ≡ false → IsTrue (F.told store.old) → KeepsFiles (F.files store.old) (F.files store.new) }

    // Nothing is said but by `run` and `make`, and by them only once what they say is whole.
    ensures silent { says (command_of (texts words.now)) ≡ false → O.said sink.new ≡ O.said sink.old }
    ensures no_fault { says (command_of (texts words.now)) ≡ false → O.faults sink.new ≡ O.faults sink.old }
    ensures not_begun { may_write result ≡ false → O.said sink.new ≡ O.said sink.old }
    ensures told_sink { O.told sink.new ≡ O.told sink.old }
    ensures later_sink { O.faults sink.old ≤ O.faults sink.new }
{
    match command(words) {
        Asked::Wrong(word) => match copy_name(alloc, word) {
            Ok(word) => Status::Usage(word),
            Err(NoMemory) => Status::NoMemory,
        },
        Asked::Make { seed, count } => make(alloc, seed, count, sink),
        Asked::Pack(packing) => pack(alloc, &packing, store),
        Asked::Run(simulation) => simulate(alloc, &simulation, store, sink),
    }
}
