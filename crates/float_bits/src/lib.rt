// A float's pattern of 64 bits, and the float of a pattern. All NaNs are one. Two functions of std under shorter names, which are public here.
#![tactic(auto)]

ghost use Rattle.std.specs.Prelude.{◌≡◌};
ghost use Rattle.std.specs.Float.{binary64};
ghost use Rattle.std.specs.Float.Ieee.{of_bits, to_bits};

use std::num::{f64_from_bits_with_nan, f64_to_bits_with_nan};

// The float of a pattern; every NaN pattern is NaN.
pub fn of_bits(b: u64) -> f64
    ensures { result ≡ of_bits binary64 b }
{
    f64_from_bits_with_nan(b)
}

// The pattern of a float; NaN's is 7FF8000000000000.
pub fn bits_of(x: f64) -> u64
    ensures { result ≡ to_bits binary64 x }
{
    f64_to_bits_with_nan(x)
}
