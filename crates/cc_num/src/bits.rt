ghost use Rattle.std.specs.Prelude.{ℕ, ◌≤◌, ◌^◌};

/// How many bits tell n things apart: the least b with 2^b ≥ n.
pub fn bits_for(n: u128) -> u32
    requires { 1 ≤ n }
    ensures enough { n ≤ 2 ^ result }
    ensures least { (b : ℕ) → n ≤ 2 ^ b → result ≤ b }
{
    128 - (n - 1).leading_zeros()
}
