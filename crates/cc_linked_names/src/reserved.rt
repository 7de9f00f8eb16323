//! What no new name is.

ghost use Rattle.std.specs.Prelude.{◌≡◌, ◌++◌, ℕ, List, [], OnOk, flat_map};
ghost use Rattle.cc_linked_names.specs.Given.{reserved_names};
ghost use Rattle.cc_names.specs.Holds.{Holds};
ghost use Rattle.cc_typed.specs.CcSyntax.Names.{intrinsic_names};

use cc_names::Taken;
use cc_program::Roles;
use cc_program::num::{List as ListOf, Name, NoMemory};
use cc_things::Text;
use std::alloc::Global;

fn reserve_names(alloc: Global, taken: &mut Taken, names: &[Name]) -> Result<(), NoMemory>
    ensures { OnOk result ((reserved : List (List ℕ)) → Holds taken.old reserved [] → Holds taken.new (reserved ++ names.now) []) }
{
    for name in names {
        taken.reserve(alloc, name.all())?;
    }
    Ok(())
}

fn reserve_identifiers(alloc: Global, taken: &mut Taken, texts: &[Text]) -> Result<(), NoMemory>
    ensures { OnOk result ((reserved : List (List ℕ)) → Holds taken.old reserved [] → Holds taken.new (reserved ++ flat_map (λ x. x.identifiers) texts.now) []) }
{
    for x in texts {
        reserve_names(alloc, taken, x.identifiers.all())?;
    }
    Ok(())
}

fn reserve_intrinsics(alloc: Global, taken: &mut Taken, roles: &Roles) -> Result<(), NoMemory>
    ensures { OnOk result ((reserved : List (List ℕ)) → Holds taken.old reserved [] → Holds taken.new (reserved ++ intrinsic_names roles.now) []) }
{
    taken.reserve(alloc, roles.off.all())?;
    taken.reserve(alloc, roles.on.all())?;
    taken.reserve(alloc, roles.save.all())?;
    taken.reserve(alloc, roles.restore.all())?;
    Ok(())
}

/// From now on no new name is an identifier of a source or the name of an intrinsic. None is reserved before.
pub fn reserve(
    alloc: Global,
    taken: &mut Taken,
    texts: &[Text],
    roles: &Roles,
) -> Result<(), NoMemory>
    requires { Holds taken.old [] [] }
    ensures { OnOk result (Holds taken.new (reserved_names texts.now roles.now) []) }
{
    reserve_identifiers(alloc, taken, texts)?;
    reserve_intrinsics(alloc, taken, roles)?;
    Ok(())
}
