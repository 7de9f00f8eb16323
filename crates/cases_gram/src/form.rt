//! The written form of a tree, in which trees that differ are written differently.
//!
//! Parentheses and brackets stand round each part that counts for the height of a sentence, and round
//! nothing else: so the height of a tree is how deep they nest. Braces stand round the other groups.
//! `-` stands for what is left out.
//!
//! Expressions:
//!
//!     x                     a name
//!     7 7u 7ul 7ull #16     a number with its suffix, behind `#` where its first digit is 0
//!     '97 "ab"              a character and its value; a text and its bytes
//!     [e]                   an expression in parentheses
//!     (, a b) (? c a b)     a comma, a choice
//!     (= a b) (+ a b)       an assignment, a binary operator
//!     (- e) (e ++)          a prefix and a postfix operator
//!     (sizeof e) (sizeof {int -}) (__extension__ e) ({int -} e)
//!     (index a i) (call f a b) (. e x) (-> e x)
//!
//! A type name and a parameter are `{`, the specifiers, a declarator, `}`. Specifiers:
//!
//!     int T                                 a word; a typedef name
//!     {struct s} {struct - = {int : a, b}}  a structure with its tag, and its members where it has them
//!     {struct @{a} s = {int : a} @{b}}      its attributes, in front of the tag and behind the members
//!     {enum e} {enum - = A {B 1}}           an enumeration, and its constants with their values
//!     @{a b:c}                              an attribute with the words a and b(c)
//!
//! Declarators, with the outermost part first:
//!
//!     - x [d]                          a name that is left out, a name, a declarator in parentheses
//!     (ptr const d) (array d) (array d 3)
//!     (func d -) (func d void) (func d {int a} {T -})
//!
//! Statements, declarations and functions:
//!
//!     (; e) (;) (block s s) (if c s) (if c s s) (while c s) (do s c) (for a b c s)
//!     (switch c s) (case c s) (default s) (break) (continue) (return) (return e)
//!     {decl int : a @{b} = 1, (ptr c)}   specifiers and, one by one, declarators, attributes, values
//!     (list 1 (list 2))                  a list of values
//!     {fn int : d @{a} | s s}            specifiers, a declarator, attributes, a body
//!
//! With places, each part that keeps its offset has it in front: `4~x`.

use cases_script::Page;
use cc_num::Name;
use std::alloc::{AllocError, Global};

/// What is written of a tree, with places or without.
#[derive(Drop)]
pub struct Form {
    page: Page,
    places: bool,
}

impl Form {
    /// A form in which nothing is written.
    pub fn new(alloc: Global, places: bool) -> Form {
        Form {
            page: Page::new(alloc),
            places,
        }
    }

    /// Writes a text.
    pub fn put(&mut self, text: &str) {
        self.page.put(text);
    }

    /// Writes a number.
    pub fn number(&mut self, n: u64) {
        self.page.show(n);
    }

    /// Writes the bytes of a name or of a text.
    pub fn bytes(&mut self, bytes: &[u8]) {
        self.page.bytes(bytes);
    }

    /// Writes what stands in front of a construct, and its place.
    pub fn begin(&mut self, front: &str, at: u32) {
        self.put(front);
        if self.places {
            self.number(u64::from(at));
            self.put("~");
        }
    }

    /// Writes a parenthesis, and how an operator or a statement is spelled.
    pub fn open(&mut self, spelling: &str) {
        self.put("(");
        self.put(spelling);
    }

    /// Writes a text, and a name.
    pub fn name(&mut self, front: &str, name: &Name) {
        self.put(front);
        self.bytes(name.all());
    }

    /// What was written.
    pub fn finish(self) -> Result<String, AllocError> {
        let Form { page, .. } = self;
        page.finish()
    }
}
