ghost use Rattle.std.specs.Prelude.{◌≡◌, ◌<◌, ◌≤◌, ℕ, List, ◌++◌, codes, All, length};
ghost use Rattle.cc_make.specs.Draws.{next, counters};
ghost use Rattle.cc_make.specs.Source.{made};

/// What the definition of made sources keeps, and a source that is known. The call does nothing.
pub fn laws()
    // As many counters as were asked for, each with a limit from 1 to 30.
    ensures count { (seed count : ℕ) → length (counters seed count) ≡ count }
    ensures limits { (seed count : ℕ) → All (λ counter. (1 ≤ counter.limit) × (counter.limit ≤ 30)) (counters seed count) }

    // The first two states behind 1.
    ensures first_state { next 1 ≡ 1103527590 }
    ensures second_state { next 1103527590 ≡ 377401575 }

    // The source of one counter from the seed 1.
    ensures one_counter { made 1 1 ≡ codes "extern volatile unsigned char out;\nunsigned char v0;\nvoid f0(void) {\n  unsigned char x;\n  x = v0;\n  if (x < 9) v0 = x + 1; else v0 = 0;\n}\n__attribute__((signal)) void tick(void) {\n}\nint main(void) {\n  irq_on();\n  while (1) {\n    f0();\n    out = v0;\n  }\n}\n" }
{}
