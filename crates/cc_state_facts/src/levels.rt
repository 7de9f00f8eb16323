//! Sets of interrupt levels.

ghost use Rattle.std.specs.Prelude.{◌≡◌, ◌≤◌, ◌^◌, ◌&&◌, nat_lt};
ghost use Rattle.cc_state_facts.specs.Levels.{has_level, may_enter, one_may_enter, is_above_least};

/// Whether a set has a level, from 0 to 7.
pub fn has_level(set: u8, level: u8) -> bool
    requires { level ≤ 7 }
    ensures { result ≡ has_level set level }
{
    (set / power(level)) % 2 == 1
}

/// 2 to the power of a level.
fn power(level: u8) -> u8
    requires { level ≤ 7 }
    ensures { result ≡ 2 ^ level }
{
    match level {
        0 => 1,
        1 => 2,
        2 => 4,
        3 => 8,
        4 => 16,
        5 => 32,
        6 => 64,
        _ => 128,
    }
}

fn is_below_in(set: u8, l: u8, level: u8) -> bool
    requires { l ≤ 7 }
    ensures { result ≡ (has_level set l && nat_lt l level) }
{
    has_level(set, l) && l < level
}

/// Whether a level is above the least one of a set.
fn is_above_least(set: u8, level: u8) -> bool
    ensures { result ≡ is_above_least set level }
{
    is_below_in(set, 0, level)
        || is_below_in(set, 1, level)
        || is_below_in(set, 2, level)
        || is_below_in(set, 3, level)
        || is_below_in(set, 4, level)
        || is_below_in(set, 5, level)
        || is_below_in(set, 6, level)
        || is_below_in(set, 7, level)
}

/// Whether a handler of a level may enter, where the flag is on, over a function that may run at these levels.
pub fn may_enter(running: u8, level: u8) -> bool
    ensures { result ≡ may_enter running level }
{
    level == 0 || is_above_least(running, level)
}

fn enters_in(running: u8, levels: u8, l: u8) -> bool
    requires { l ≤ 7 }
    ensures { result ≡ (has_level levels l && may_enter running l) }
{
    has_level(levels, l) && may_enter(running, l)
}

/// Whether a handler of one of some levels may.
pub fn one_may_enter(running: u8, levels: u8) -> bool
    ensures { result ≡ one_may_enter running levels }
{
    enters_in(running, levels, 0)
        || enters_in(running, levels, 1)
        || enters_in(running, levels, 2)
        || enters_in(running, levels, 3)
        || enters_in(running, levels, 4)
        || enters_in(running, levels, 5)
        || enters_in(running, levels, 6)
        || enters_in(running, levels, 7)
}
