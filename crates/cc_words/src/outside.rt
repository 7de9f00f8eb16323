//! Words of C and GNU C that are outside the subset.

ghost use Rattle.std.specs.Prelude.{◌≡◌};
ghost use Rattle.std.specs.List.{list_any};
ghost use Rattle.std.specs.Str.{bytes_eq};
ghost use Rattle.cc_words.specs.Words.{is_outside as is_outside_word};

const OUTSIDE_WORDS: [&[u8]; 18] = [
    b"asm",
    b"__asm",
    b"__asm__",
    b"goto",
    b"float",
    b"double",
    b"_Complex",
    b"__complex__",
    b"_Imaginary",
    b"union",
    b"typeof",
    b"__typeof__",
    b"__builtin_va_list",
    b"__int128",
    b"_Atomic",
    b"_Generic",
    b"_Static_assert",
    b"_Alignas",
];

/// Whether the name is one of the words.
fn is_one_of(words: &[&[u8]], name: &[u8]) -> bool
    ensures { result ≡ list_any (λ word. bytes_eq name.now word.now) words.now }
{
    words.iter().any(|word| name == *word)
}

/// Whether the word is outside the subset.
pub fn is_outside(name: &[u8]) -> bool
    ensures { result ≡ is_outside_word name.now }
{
    is_one_of(&OUTSIDE_WORDS, name)
}
