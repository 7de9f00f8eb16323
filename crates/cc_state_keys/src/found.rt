//! Where a key stands among those of a program.

ghost use Rattle.std.specs.Prelude.{◌≡◌, ◌≤◌, true, false, length};
ghost use Rattle.std.specs.List.Sorted.{IsPartitionPoint};
ghost use Rattle.cc_program.specs.declared.program.Program.{Program};
ghost use Rattle.cc_state_keys.specs.Keys.{is_key as is_key_of, keys_of, key_number as key_number_of};
ghost use Rattle.cc_state_keys.specs.Order.{is_pair_before as is_pair_before_of, is_before as is_before_of, Ascend};

use cc_program::num::at;
use cc_state_facts::Key;

/// Whether two keys are the same.
pub fn is_key(a: Key, b: Key) -> bool
    ensures { result ≡ is_key_of a b }
{
    match a {
        Key::Object(i) => match b {
            Key::Object(j) => i == j,
            _ => false,
        },
        Key::Local(f, r) => match b {
            Key::Local(g, q) => f == g && r == q,
            _ => false,
        },
        Key::Member(s, m) => match b {
            Key::Member(t, n) => s == t && m == n,
            _ => false,
        },
    }
}

/// Whether two numbers stand before two others: the first decides where they differ.
fn is_pair_before(a: u32, b: u32, c: u32, d: u32) -> bool
    ensures { result ≡ is_pair_before_of a b c d }
{
    a < c || (a == c && b < d)
}

/// Whether a key stands before another one: objects, locals, members, each kind by its numbers.
fn is_before(a: Key, b: Key) -> bool
    ensures { result ≡ is_before_of a b }
{
    match a {
        Key::Object(i) => match b {
            Key::Object(j) => i < j,
            Key::Local(_, _) | Key::Member(_, _) => true,
        },
        Key::Local(f, r) => match b {
            Key::Object(_) => false,
            Key::Local(g, q) => is_pair_before(f, r, g, q),
            Key::Member(_, _) => true,
        },
        Key::Member(s, m) => match b {
            Key::Object(_) | Key::Local(_, _) => false,
            Key::Member(t, n) => is_pair_before(s, m, t, n),
        },
    }
}

/// How many keys stand before a key.
fn count_before(keys: &[Key], key: Key) -> usize
    ensures within { result ≤ length keys.now }
    ensures point { Ascend keys.now → IsPartitionPoint (λ k. is_before_of k key ≡ true) (λ k. is_before_of k key ≡ false) keys.now result }
{
    keys.partition_point(|other| is_before(*other, key))
}

/// The position of a key in a program's list of keys.
pub fn key_number(keys: &[Key], key: Key) -> Option<usize>
    ensures { (p : Program) → keys.now ≡ keys_of p → result ≡ key_number_of p key }
{
    let number = count_before(keys, key);
    match at(keys, number) {
        None => None,
        Some(found) => {
            if is_key(key, *found) {
                Some(number)
            } else {
                None
            }
        }
    }
}
