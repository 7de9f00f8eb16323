ghost use Rattle.std.specs.Prelude.{◌≡◌};
ghost use Rattle.cc_link.specs.declared.fault.LinkEnd.TheVariants.{NoMemory as NoRoom};

use cc_causes::LinkFault;
use cc_program::num::NoMemory;

/// Why linking gives no program.
#[derive(Debug, Drop)]
pub enum LinkEnd {
    Fault(LinkFault),
    NoMemory,
}

impl From<NoMemory> for LinkEnd {
    ghost from_gives = { λ _ e. e ≡ NoRoom };

    fn from(_error: NoMemory) -> LinkEnd {
        LinkEnd::NoMemory
    }
}
