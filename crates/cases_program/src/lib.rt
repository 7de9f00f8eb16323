//! Reads programs that are written word by word.
//!
//! A word takes what it needs from behind what was made so far, as in postfix notation.
//!
//! Types:
//!
//!     void bool char schar uchar short ushort int uint long ulong llong ullong
//!     TYPE ptr, TYPE array:3, struct:0, TYPE const, TYPE volatile
//!     RESULT TYPE TYPE fn:2     the type of a function with two parameters
//!     TYPE name:x               a parameter, a local or a member that is not taken yet
//!
//! Expressions and places:
//!
//!     5:int, TYPE null, func:0, PLACE load, PLACE addr
//!     E neg:int (not, lnot), A B add:int (sub mul div rem and or xor shl shr lt le gt ge eq ne)
//!     E conv:long, TYPE E qualify, A B move (back, gap), A B cmp:lt, A B both (either), C A B choose
//!     PLACE E assign, PLACE E change:add:int, PLACE after:up (down), A B seq
//!     F A B call:2, off on save restore (an intrinsic without an operand), E off:1 (with one)
//!     local:0 static:0 device:0, PLACE E element, PLACE member:0, E deref
//!
//! Statements stand in the innermost list; `{` and `}` begin and end one.
//!
//!     E do, E { } { } if, E { } while, { } E dowhile, A C B { } for, { } for (with no expression)
//!     A B { } for:101           a `for` without its second expression
//!     { } case:1,default E switch:1     takes so many cases
//!     break continue return:0 E return:1 empty { } block
//!
//! Declarations:
//!
//!     structure:s               with all names
//!     dev:PORT:uchar (PORT@5, @5)  and `:const`
//!     TYPE object:a             with all first values
//!     leaf:5 leaf:null leaf:func:0 leaf:at:0:2:3:m0,i2     object 0, index 2 of 3, the path a member and an index
//!     RESULT TYPE fun:f:1       a function with one parameter, all names and the statements; fun:f:1:2 with a count of 2
//!     main                      `void fun:main:0`
//!     signal interrupt listed   the next function is a handler
//!     ticks                     the roles name the handler `tick`
//!     levels                    the roles give level 1 to `tick` and level 2 to `tock`
//!     small                     a target whose `int` and pointers have 2 bytes
//!     start:0                   the function that runs first, where it is not the last
#![tactic(auto)]

mod builder;
mod declarations;
mod expressions;
mod operators;
mod statements;
mod types;
mod words;

use builder::Builder;
use cc_syntax::Program;
use std::alloc::Global;

/// Reads a word; `None` where it has no meaning there, or memory runs out.
fn read(b: &mut Builder, word: &str) -> Option<()> {
    let (head, rest) = words::split(word);
    if types::is_word(head) {
        types::read(&mut b.terms, head, rest)
    } else if expressions::is_word(head) {
        expressions::read(&mut b.terms, head, rest)
    } else if operators::is_word(head) {
        operators::read(&mut b.terms, head, rest)
    } else if statements::is_word(head) {
        statements::read(&mut b.terms, &mut b.bodies, head, rest)
    } else {
        declarations::read(b, head, rest)
    }
}

fn read_all(b: &mut Builder, text: &str) -> Option<()> {
    for word in text.split_whitespace() {
        read(b, word)?;
    }
    Some(())
}

fn program(b: &mut Builder, front: &str, words: &str) -> Option<Program> {
    read_all(b, front)?;
    read_all(b, words)?;
    b.finish()
}

/// The program that words write, those of `front` before those of `words`; `None` where one has no meaning, or memory
/// runs out.
pub fn program_of(alloc: Global, front: &str, words: &str) -> Option<Program> {
    let mut b = Builder::new(alloc);
    program(&mut b, front, words)
}
