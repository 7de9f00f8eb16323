//! The status for each fault of the parts. Want of memory is always a status of its own.

ghost use Rattle.std.specs.Prelude.{◌≡◌};
ghost use Rattle.cc_status.specs.Statuses.{for_unread, for_profile, for_refusal as for_refusal_of};
ghost use Rattle.cc_status.specs.declared.status.Status.TheVariants.{NoMemory as NoRoom};

use crate::status::Status;
use cc_cost::ProfileFault;
use cc_files::Unread;
use cc_program::num::{Name, NoMemory};
use cc_read::ReadRefusal;

impl From<NoMemory> for Status {
    ghost from_gives = { λ _ status. status ≡ NoRoom };

    fn from(_error: NoMemory) -> Status {
        Status::NoMemory
    }
}

impl From<Unread> for Status {
    ghost from_gives = { λ u status. status ≡ for_unread u };

    fn from(unread: Unread) -> Status {
        match unread {
            Unread::ReadFault(name) => Status::ReadFault(name),
            Unread::TooLong(name) => Status::TooLong(name),
            Unread::NoMemory => Status::NoMemory,
        }
    }
}

impl From<ProfileFault> for Status {
    ghost from_gives = { λ fault status. status ≡ for_profile fault };

    fn from(fault: ProfileFault) -> Status {
        match fault {
            ProfileFault::Row { row, rule } => Status::Profile(ProfileFault::Row { row, rule }),
            ProfileFault::NoMemory => Status::NoMemory,
        }
    }
}

/// The source of this name is refused.
pub fn for_refusal(name: Name, why: ReadRefusal) -> Status
    ensures { result ≡ for_refusal_of name why }
{
    match why {
        ReadRefusal::NoMemory => Status::NoMemory,
        why => Status::Refused(name, why),
    }
}
