//! What it costs to tell a slot by codes.

ghost use Rattle.std.specs.Prelude.{◌≡◌, ◌≤◌, ◌*◌, ◌^◌};
ghost use Rattle.cc_cost_ranking.specs.Estimates.{accesses_cost as accesses_cost_of, estimate_of, for_array as for_array_of, for_reading as for_reading_of, for_writing as for_writing_of, read_cost as read_cost_of, write_cost as write_cost_of};

use cc_code::kinds::Coding;

/// How many accesses a slot has, or how often they are made.
#[derive(Clone, Copy)]
pub struct Sites {
    pub reads: u64,
    pub writes: u64,
    /// How many of them are guarded.
    pub guarded: u64,
    /// Whether the slot is an array.
    pub array: bool,
}

/// Units of code and of time.
#[derive(Clone, Copy)]
pub struct Cost {
    pub code: u64,
    pub time: u64,
}

fn for_array(array: bool) -> Cost
    ensures { result ≡ for_array_of array }
{
    if array {
        Cost { code: 6, time: 4 }
    } else {
        Cost { code: 0, time: 0 }
    }
}

fn for_reading(coding: &Coding) -> Cost
    ensures { result ≡ for_reading_of coding.now }
{
    match coding {
        Coding::Const | Coding::Direct => Cost { code: 0, time: 0 },
        Coding::Biased(_) => Cost { code: 2, time: 1 },
        Coding::Table => Cost { code: 6, time: 4 },
    }
}

fn for_writing(coding: &Coding, members: u32) -> Cost
    requires { coding.now ≡ Coding.Table → members ≤ 64 }
    ensures value { result ≡ for_writing_of coding.now members }
    ensures code { result.code ≤ 252 }
    ensures time { result.time ≤ 126 }
{
    match coding {
        Coding::Const | Coding::Direct => Cost { code: 0, time: 0 },
        Coding::Biased(_) => Cost { code: 2, time: 1 },
        Coding::Table => {
            let others = u64::from(members.saturating_sub(1));
            Cost {
                code: others * 4,
                time: others * 2,
            }
        }
    }
}

/// What a read costs.
fn read_cost(array: bool, coding: &Coding) -> Cost
    ensures value { result ≡ read_cost_of array coding.now }
    ensures code { result.code ≤ 512 }
    ensures time { result.time ≤ 512 }
{
    let subscript = for_array(array);
    let decoding = for_reading(coding);
    Cost {
        code: 4 + (subscript.code + decoding.code),
        time: 3 + (subscript.time + decoding.time),
    }
}

/// What a write costs.
fn write_cost(array: bool, coding: &Coding, members: u32) -> Cost
    requires { coding.now ≡ Coding.Table → members ≤ 64 }
    ensures value { result ≡ write_cost_of array coding.now members }
    ensures code { result.code ≤ 512 }
    ensures time { result.time ≤ 512 }
{
    let subscript = for_array(array);
    let encoding = for_writing(coding, members);
    Cost {
        code: 8 + (subscript.code + encoding.code),
        time: 6 + (subscript.time + encoding.time),
    }
}

fn times(count: u64, each: u64) -> u64
    requires count { count ≤ 2 ^ 48 }
    requires each { each ≤ 512 }
    ensures value { result ≡ count * each }
    ensures most { result ≤ 2 ^ 57 }
{
    count * each
}

/// What all accesses cost.
fn accesses_cost(sites: &Sites, coding: &Coding, members: u32) -> Cost
    requires reads { sites.now.reads ≤ 2 ^ 48 }
    requires writes { sites.now.writes ≤ 2 ^ 48 }
    requires guarded { sites.now.guarded ≤ 2 ^ 48 }
    requires members { coding.now ≡ Coding.Table → members ≤ 64 }
    ensures { result ≡ accesses_cost_of sites.now coding.now members }
{
    let read = read_cost(sites.array, coding);
    let write = write_cost(sites.array, coding, members);
    Cost {
        code: times(sites.reads, read.code)
            + (times(sites.writes, write.code) + times(sites.guarded, 6)),
        time: times(sites.reads, read.time)
            + (times(sites.writes, write.time) + times(sites.guarded, 4)),
    }
}

/// What it costs to tell a slot by codes of this coding, where a table has so many members. A constant costs nothing.
pub fn estimate(sites: &Sites, coding: &Coding, members: u32) -> Cost
    requires reads { sites.now.reads ≤ 2 ^ 48 }
    requires writes { sites.now.writes ≤ 2 ^ 48 }
    requires guarded { sites.now.guarded ≤ 2 ^ 48 }
    requires members { coding.now ≡ Coding.Table → members ≤ 64 }
    ensures { result ≡ estimate_of sites.now coding.now members }
{
    match coding {
        Coding::Const => Cost { code: 0, time: 0 },
        Coding::Direct | Coding::Biased(_) | Coding::Table => {
            accesses_cost(sites, coding, members)
        }
    }
}
