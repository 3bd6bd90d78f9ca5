// The square root of an f64, correctly rounded: to the nearest value, ties to even.
#![tactic(auto)]

ghost use Rattle.std.specs.Prelude.{◌≡◌, ◌<◌};
ghost use Rattle.std.specs.Float.{binary64};
ghost use Rattle.std.specs.Float.Ieee.{of_bits};
ghost use Rattle.definitions.specs.Numbers.{rootᶠ};
ghost use Rattle.root.specs.Starts.{whole_roots};

mod digits;
mod fields;
mod starts;

use digits::with_rest;
use fields::{Scaled, rebuilt};
use starts::STARTS;

// Its type has a name, so that callers do not say how long it is.
pub type StartTable = [u16; 192];

const INFINITY: u64 = 0x7ff0_0000_0000_0000;

const MINUS_ZERO: u64 = 0x8000_0000_0000_0000;

// The root's pattern, for a positive finite value's.
fn root_bits(table: &StartTable, b: u64) -> u64
    requires { (0 < b) × (b < INFINITY) }
    ensures { (result < INFINITY) × (of_bits binary64 result ≡ rootᶠ (of_bits binary64 b)) }
{
    let s = Scaled::of(b);
    let r = with_rest(table, s.evened());
    rebuilt(s.halved(), r.nearest())
}

// The table that the search starts from: for k from 64 to 255 the largest t with t * t <= 65,536 k. The toolchain builds a constant array anew wherever it
// is named, so a caller of many roots builds it once.
#[tactic(auto, unfolding(crate::specs::Starts::whole_roots, definitions::specs::Root::isqrt))]
pub fn table() -> StartTable
    ensures { result ≡ whole_roots 192 64 }
{
    STARTS
}

// The root, by a table that the caller has; the root is the same whatever it holds.
pub fn root_by(table: &StartTable, x: f64) -> f64
    ensures { result ≡ rootᶠ x }
{
    if x.is_nan() {
        return x;
    }
    let b = x.to_bits();
    if b == 0 || b == MINUS_ZERO || b == INFINITY {
        return x;
    }
    // any other above infinity's is the pattern of a negative number
    if b > INFINITY {
        return f64::NAN;
    }
    f64::from_bits(root_bits(table, b))
}

pub fn root(x: f64) -> f64
    ensures { result ≡ rootᶠ x }
{
    root_by(&table(), x)
}
