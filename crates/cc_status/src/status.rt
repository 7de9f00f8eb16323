//! How a command ends.

ghost use Rattle.std.specs.Prelude.{◌≡◌};
ghost use Rattle.cc_status.specs.Statuses.{number_of};

use cc_cost::ProfileFault;
use cc_program::num::Name;
use cc_read::ReadRefusal;

/// Which limit a number passes.
#[derive(Clone, Copy, Debug)]
pub enum What {
    /// That of the counters of a made source.
    Count,
    /// That of the steps of a run.
    Steps,
    /// That of the functions of a program.
    Functions,
    /// That of the bytes of RAM of a program.
    Ram,
    /// That of the bytes of a printed text.
    Out,
}

/// How a command ended.
#[derive(Debug, Drop)]
pub enum Status {
    /// Its work is done.
    Done,
    /// The words are no command. It has the first word that is wrong, or nothing where there is none.
    Usage(Name),
    /// The file of this name was not read: a fault, or it is not there.
    ReadFault(Name),
    /// The file of this name has more bytes than its limit, or than is left for all sources.
    TooLong(Name),
    /// The source of this name is refused, for this cause. Where the sources do not link, it is the first.
    Refused(Name, ReadRefusal),
    /// A row of the profile breaks a rule.
    Profile(ProfileFault),
    /// The row of this number, from 1, gives no input.
    Inputs(u32),
    /// The row of this number, from 1, gives no arrival.
    Arrivals(u32),
    /// A number is above the limit of this: the number.
    Limit(What, u64),
    /// The file of this name was not written whole; `-` is the standard output.
    WriteFault(Name),
    /// Memory ran out.
    NoMemory,
}

/// The number of a status, with which the program ends.
pub fn number(status: &Status) -> u8
    ensures { result ≡ number_of status.now }
{
    match status {
        Status::Done => 0,
        Status::Usage(_) => 2,
        Status::ReadFault(_) => 3,
        Status::TooLong(_) => 4,
        Status::Refused(_, _) => 5,
        Status::Profile(_) => 6,
        Status::Inputs(_) => 8,
        Status::Arrivals(_) => 9,
        Status::Limit(_, _) => 10,
        Status::WriteFault(_) => 11,
        Status::NoMemory => 12,
    }
}
