// Runs document 01's root examples, each as the patterns of a number and its root, and the published roots, and says how many of these agree.
#![tactic(auto)]

ghost use Rattle.std.specs.Prelude.{◌≡◌};
ghost use Rattle.std.specs.Float.{binary64};
ghost use Rattle.std.specs.Float.Ieee.{of_bits, to_bits};
ghost use Rattle.definitions.specs.Numbers.{rootᶠ};

mod published;

use published::ROOTS;
use std::io;

fn root_of(b: u64) -> u64
    ensures { result ≡ to_bits binary64 (rootᶠ (of_bits binary64 b)) }
{
    float_bits::bits_of(root::root(float_bits::of_bits(b)))
}

fn agreeing() -> usize {
    ROOTS
        .iter()
        .filter(|&&(b, root)| root_of(b) == root)
        .count()
}

fn show(rt: &impl Print, b: u64) -> io::Result<()> {
    let root = root_of(b);
    println!(rt; "{b:016x} {root:016x}")
}

fn main(rt: HostRuntime) -> io::Result<()> {
    // 2, 2^-1074, the largest finite number
    for b in [0x4000_0000_0000_0000, 1, 0x7fef_ffff_ffff_ffff] {
        show(&rt, b)?;
    }
    println!(rt; "{} of {} published roots agree", agreeing(), ROOTS.len())
}
