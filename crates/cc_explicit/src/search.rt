ghost use Rattle.std.specs.Prelude.{◌≡◌, ℤ};
ghost use Rattle.std.specs.List.{Contains};
ghost use Rattle.std.specs.Result.{MatchResult};
ghost use Rattle.cc_lattice.specs.Domains.{Ascends};
ghost use Rattle.cc_explicit.specs.Sets.{IsPlace};

/// Where a number stands among ascending ones, or where it would stand.
pub(crate) fn search(members: &[i128], v: i128) -> Result<usize, usize>
    requires { Ascends members.now }
    ensures { MatchResult result (λ _. Contains members.now v) (λ at. IsPlace members.now at v) }
{
    members.binary_search(&v)
}
