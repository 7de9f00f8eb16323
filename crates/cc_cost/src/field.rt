//! What the fields of a row may be.

ghost use Rattle.std.specs.Prelude.{◌≡◌, ◌∷◌, [], codes};
ghost use Rattle.std.specs.Option.{option_map};
ghost use Rattle.std.specs.Str.{bytes_eq};
ghost use Rattle.cc_cost.specs.Keys.{spelling};
ghost use Rattle.cc_cost.specs.Settings.{thing_of, same_thing, is_allowed as is_allowed_setting, is_one_of, has_second as has_second_field, ends_early as ends_early_key, role_of as role_of_setting, has_names as has_names_in};

use crate::key::Key;
use crate::setting::Setting;
use cc_program::words::is_name;
use cc_rows::number_in;

/// Whether a field is this word.
pub fn is(field: &[u8], word: &str) -> bool
    ensures { result ≡ bytes_eq field.now word.now }
{
    field == word.as_bytes()
}

/// Whether the values of a row are allowed.
pub fn is_allowed(setting: &Setting) -> bool
    ensures { result ≡ is_allowed_setting setting.now }
{
    let second = setting.second.all();
    let third = setting.third.all();
    match setting.key {
        Key::Int | Key::Pointer => is(second, "2") || is(second, "4"),
        Key::Char => is(second, "signed") || is(second, "unsigned"),
        Key::Align | Key::Atomic => is(second, "1") || is(second, "2") || is(second, "4"),
        Key::Handler => true,
        Key::Intrinsic => is(second, "off")
            || is(second, "on")
            || is(second, "save")
            || is(second, "restore"),
        Key::Count => number_in(0, 1_000_000_000, third).is_some(),
        Key::Weight => is_measure(second) && number_in(0, 1000, third).is_some(),
        Key::Budget => is_measure(second) && number_in(0, 0xffff_ffff, third).is_some(),
        Key::Level => number_in(1, 7, third).is_some(),
    }
}

/// Whether a field names what is weighed or budgeted.
fn is_measure(field: &[u8]) -> bool
    ensures { result ≡ is_one_of (codes "code" ∷ codes "time" ∷ []) field.now }
{
    is(field, "code") || is(field, "time")
}

/// Whether the key is given once for each second field.
fn has_second(key: Key) -> bool
    ensures { result ≡ has_second_field key }
{
    match key {
        Key::Int | Key::Pointer | Key::Char | Key::Align | Key::Atomic => false,
        Key::Handler | Key::Intrinsic | Key::Count | Key::Weight | Key::Budget | Key::Level => true,
    }
}

/// The second field of a row, where the key is given once for each.
pub fn second_of(setting: &Setting) -> &[u8]
    ensures { result.now ≡ (thing_of setting.now).second }
{
    if has_second(setting.key) {
        setting.second.all()
    } else {
        b""
    }
}

/// Whether a row is for this: its key, and where that is given once for each second field, that field.
pub fn is_for(setting: &Setting, key: Key, second: &str) -> bool
    ensures { result ≡ same_thing (record { key = spelling key; second = second.now }) (thing_of setting.now) }
{
    key.spelling().as_bytes() == setting.key.spelling().as_bytes()
        && second.as_bytes() == second_of(setting)
}

/// Whether the third field has to be empty.
pub fn ends_early(key: Key) -> bool
    ensures { result ≡ ends_early_key key }
{
    match key {
        Key::Int | Key::Pointer | Key::Char | Key::Align | Key::Atomic | Key::Handler => true,
        Key::Intrinsic | Key::Count | Key::Weight | Key::Budget | Key::Level => false,
    }
}

/// The name that a row gives to a handler or to an intrinsic.
pub fn role_of(setting: &Setting) -> Option<&[u8]>
    ensures { option_map (λ name. name.now) result ≡ role_of_setting setting.now }
{
    match setting.key {
        Key::Handler => Some(setting.second.all()),
        Key::Intrinsic => Some(setting.third.all()),
        Key::Int
        | Key::Pointer
        | Key::Char
        | Key::Align
        | Key::Atomic
        | Key::Count
        | Key::Weight
        | Key::Budget
        | Key::Level => None,
    }
}

/// Whether the names of a row may name something in a program.
pub fn has_names(setting: &Setting) -> bool
    ensures { result ≡ has_names_in setting.now }
{
    match setting.key {
        Key::Handler | Key::Count | Key::Level => is_name(setting.second.all()),
        Key::Intrinsic => is_name(setting.third.all()),
        Key::Int
        | Key::Pointer
        | Key::Char
        | Key::Align
        | Key::Atomic
        | Key::Weight
        | Key::Budget => true,
    }
}
