//! Programs, and what linking takes of sources, are let go here: what that takes is proved once.
#![tactic(auto)]

ghost use Rattle.std.specs.Prelude.{◌≡◌, ◌++◌, ◌∷◌, [], OnOk};

use cc_program::Program;
use cc_program::num::NoMemory;
use cc_things::Text;

/// Lets a program go.
pub fn discard_program(_program: Program) {}

/// Lets what linking takes of sources go.
pub fn discard_texts(_texts: Vec<Text>) {}

/// Puts what linking takes of a source behind what it takes of others.
pub fn put_text(texts: &mut Vec<Text>, text: Text) -> Result<(), NoMemory>
    ensures { OnOk result (texts.new.items ≡ texts.old.items ++ text ∷ []) }
{
    texts.push(text)?;
    Ok(())
}
