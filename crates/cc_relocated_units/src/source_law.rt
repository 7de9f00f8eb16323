ghost use Rattle.std.specs.Prelude.{◌≡◌, length};
ghost use Rattle.cc_relocated_units.specs.Linked.{structures_of};
ghost use Rattle.cc_program.specs.CcNum.declared.target.Target.{Target};
ghost use Rattle.cc_operands.specs.CcSyntax.Views.{kind_in};
ghost use Rattle.cc_program.specs.declared.types.CType.{CType};
ghost use Rattle.cc_operands.specs.CcSyntax.Kinds.{kind_of, extent_with};
ghost use Rattle.cc_unit.specs.declared.unit.TypedUnit.{TypedUnit};
ghost use Rattle.cc_relocated_units.specs.Units.{unit_view};

/// Over the view that a unit is, types have the kinds that they have by its structures (C99 6.2.5). The call does nothing.
pub fn view_laws()
    ensures kinds { (target : Target) (u : TypedUnit) (t : CType) → kind_in (unit_view target u) t ≡ kind_of target (extent_with (structures_of u) (length u.structures) target) t }
{}
