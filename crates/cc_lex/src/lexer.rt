ghost use Rattle.std.specs.Prelude.{◌≡◌, ◌≢◌, ◌<◌, ◌^◌, length, true, List, IfOk, IfErr, MatchResult};
ghost use Rattle.cc_lex.specs.Scan.{Gives, tokens_of};
ghost use Rattle.cc_lex.specs.Tokens.{Tokens, AreSpans};
ghost use Rattle.cc_lex.specs.Faults.{HasFault};
ghost use Rattle.cc_lex.specs.declared.fault.LexFault.{LexFault};
ghost use Rattle.cc_lex.specs.declared.fault.LexFault.TheVariants.{NoMemory};
ghost use Rattle.cc_lex.specs.declared.token.Token.{Token};

use crate::fault::LexFault;
use crate::scan::{Piece, piece_at};
use crate::token::Token;
use std::alloc::Global;

/// The tokens, by a scan from the front.
#[tactic(auto, using(crate::proofs::Scanned::of_tokens))]
fn scanned(alloc: Global, text: &[u8]) -> Result<Vec<Token>, LexFault>
    requires { length text.now < 2 ^ 32 }
    ensures { Gives (λ v. v.items) result (tokens_of 0 true 0 text.now) }
{
    let mut tokens = Vec::new(alloc);
    let mut rest = text;
    let mut at: u32 = 0;
    let mut fresh = true;
    while !rest.is_empty() {
        let len = match piece_at(alloc, fresh, at, rest)? {
            Piece::Gap(len, after) => {
                fresh = after;
                len
            }
            Piece::Spelled(len, kind) => {
                tokens.push(Token {
                    at,
                    len: len as u32,
                    kind,
                })?;
                fresh = false;
                len
            }
        };
        rest = rest.split_at(len).1;
        at += len as u32;
    }
    Ok(tokens)
}

/// The tokens of a preprocessed text, in order; or the first place where there is none, and the cause
/// there.
pub fn lex(alloc: Global, text: &[u8]) -> Result<Vec<Token>, LexFault>
    requires { length text.now < 2 ^ 32 }

    // What is answered are tokens of the text, and where there are some they are answered.
    ensures found { IfOk result (λ v. Tokens text.now v.items) }
    ensures only { (ts : List Token) → Tokens text.now ts → MatchResult result (λ v. v.items ≡ ts) (λ e. e ≡ NoMemory) }

    // A fault is the first one of the text, and where there is one it is answered.
    ensures fault { IfErr result (λ e. e ≢ NoMemory → HasFault text.now e) }
    ensures only_fault { (e : LexFault) → HasFault text.now e → MatchResult result (λ _. ⊥) (λ f. f ≢ NoMemory → f ≡ e) }

    // The spans are in order, and each token's bytes are its spelling.
    ensures spans { IfOk result (λ v. AreSpans text.now 0 v.items) }
{
    scanned(alloc, text)
}
