// The square root for programs in other languages, on the bits of f32 (FORMAT 9.2). It is there to be held against a machine's own root and
// to be timed (compare/README.md, docs/BENCHMARKS.md); a host has no use for it.
#![tactic(auto)]

ghost use Rattle.std.specs.Prelude.{◌≡◌};
ghost use Rattle.std.specs.Float.{binary32};
ghost use Rattle.std.specs.Float.Ieee.{of_bits, to_bits};
ghost use Rattle.math.specs.SquareRoot.{root_of};

use math::{bits_of, of_bits, root};

#[unsafe(no_mangle)]
pub extern "C" fn sitemesh_root(bits: u32) -> u32
    ensures { result ≡ to_bits binary32 (root_of (of_bits binary32 bits)) }
{
    bits_of(root(of_bits(bits)))
}
