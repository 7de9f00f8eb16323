//! The line that tells a status.

ghost use Rattle.std.specs.Prelude.{◌≡◌, ◌++◌, IfOk, codes};
ghost use Rattle.std.specs.Fmt.{decimal};
ghost use Rattle.cc_status.specs.Statuses.{line_of, limit_text};
ghost use Rattle.cc_status.specs.declared.status.Status.TheVariants.{Refused, Profile, Limit};

use crate::cause::cause;
use crate::status::{Status, What};
use cc_cost::ProfileFault;
use cc_program::num::NoMemory;
use cc_read::ReadRefusal;
use std::alloc::Global;

/// `ccomp: `, what stands around a text, and a line feed.
fn line(alloc: Global, front: &[u8], text: &[u8], back: &[u8]) -> Result<Vec<u8>, NoMemory>
    ensures { IfOk result (λ v. v.items ≡ codes "ccomp: " ++ ((front.now ++ (text.now ++ back.now)) ++ codes "\n")) }
{
    let mut line = Vec::new(alloc);
    line.extend_from_slice(b"ccomp: ")?;
    line.extend_from_slice(front)?;
    line.extend_from_slice(text)?;
    line.extend_from_slice(back)?;
    line.extend_from_slice(b"\n")?;
    Ok(line)
}

/// The line of a number behind a text.
fn number_line(alloc: Global, front: &[u8], number: u64) -> Result<Vec<u8>, NoMemory>
    ensures { IfOk result (λ v. v.items ≡ codes "ccomp: " ++ ((front.now ++ decimal number) ++ codes "\n")) }
{
    let number = format!(in alloc; "{number}")?;
    line(alloc, front, number.as_bytes(), b"")
}

/// What stands in front of the number that is above a limit.
fn limit_front(what: What) -> &'static [u8]
    ensures { result.now ≡ limit_text what }
{
    match what {
        What::Count => b"limit count ",
        What::Steps => b"limit steps ",
        What::Functions => b"limit functions ",
        What::Ram => b"limit ram ",
        What::Out => b"limit out ",
    }
}

/// The line of a row that breaks a rule.
fn profile_line(alloc: Global, fault: ProfileFault) -> Result<Vec<u8>, NoMemory>
    ensures { IfOk result (λ v. v.items ≡ line_of (Profile fault)) }
{
    match fault {
        ProfileFault::Row { row, rule } => {
            let row = format!(in alloc; "{row}")?;
            let rule = format!(in alloc; "{rule}")?;
            let mut text = Vec::new(alloc);
            text.extend_from_slice(row.as_bytes())?;
            text.extend_from_slice(b" rule ")?;
            text.extend_from_slice(rule.as_bytes())?;
            line(alloc, b"profile row ", &text, b"")
        }
        ProfileFault::NoMemory => line(alloc, b"out of memory", b"", b""),
    }
}

/// The line of a source that is refused.
fn refused_line(alloc: Global, name: &[u8], why: &ReadRefusal) -> Result<Vec<u8>, NoMemory>
    ensures { IfOk result (λ v. v.items ≡ line_of (Refused name.now why.now)) }
{
    let cause = cause(alloc, why)?;
    let mut text = Vec::new(alloc);
    text.extend_from_slice(b": ")?;
    text.extend_from_slice(&cause)?;
    line(alloc, b"", name, &text)
}

/// The line that tells a status, with its line feed; nothing where the work is done.
pub fn explain(alloc: Global, status: &Status) -> Result<Vec<u8>, NoMemory>
    ensures { IfOk result (λ v. v.items ≡ line_of status.now) }
{
    match status {
        Status::Done => Ok(Vec::new(alloc)),
        Status::Usage(word) => line(alloc, b"usage: ", word.all(), b""),
        Status::ReadFault(name) => line(alloc, b"cannot read ", name.all(), b""),
        Status::TooLong(name) => line(alloc, b"", name.all(), b" is too long"),
        Status::Refused(name, why) => refused_line(alloc, name.all(), why),
        Status::Profile(fault) => profile_line(alloc, *fault),
        Status::Inputs(row) => number_line(alloc, b"inputs row ", u64::from(*row)),
        Status::Arrivals(row) => number_line(alloc, b"arrivals row ", u64::from(*row)),
        Status::Limit(what, number) => number_line(alloc, limit_front(*what), *number),
        Status::WriteFault(name) => line(alloc, b"cannot write ", name.all(), b""),
        Status::NoMemory => line(alloc, b"out of memory", b"", b""),
    }
}
