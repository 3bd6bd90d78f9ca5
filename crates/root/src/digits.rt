// The root's digits by whole numbers: a start value, Newton's steps, a certified whole root, 26 more digits by one division, and what is left over.

ghost use Rattle.std.specs.Prelude.{◌+◌, ◌*◌, ◌≤◌, ◌<◌, ◌^◌, ◌≡◌};
ghost use Rattle.laws.specs.WholeRoot.{IsRoot, Rest, closer};

use crate::StartTable;
use crate::starts::start;

// A whole root, and what the number is above its square.
#[derive(Clone, Copy)]
pub struct Rooted {
    pub root: u64,
    pub rest: u64,
}

impl Rooted {
    // The nearest whole number: one more where more than half is left over.
    pub(crate) fn nearest(self) -> u64
        requires { self.root < 2 ^ 63 }
        ensures { result ≡ closer self.root self.rest }
    {
        if self.rest > self.root {
            self.root + 1
        } else {
            self.root
        }
    }
}

// Near the root of a: two of Newton's steps from t * 2^15, the first in 32 bits. How near t is makes no difference but to the time.
fn newton(a: u64, t: u32) -> u64
    requires { (a < 2 ^ 54) × (2 ^ 11 ≤ t) × (t < 2 ^ 14) }
    ensures { result < 2 ^ 30 }
{
    let q = (a >> 23) as u32 / t;
    let s = (((t << 7) + q) as u64) << 7;
    (s + a / s) / 2
}

// The whole root of a, from any start. By the right table one correction is enough, one step down: `newton` comes to the root or to one more. That is the
// law `one_correction` (proofs/Correction.antt): the table starts less than 2^20 below the root, so the first of the two steps ends at most 2^13 + 1 from
// it, and a step from there ends at the root or one above. A search has no list to walk, so it is a `while`.
fn whole_root(a: u64, near: u64) -> u64
    requires { (2 ^ 52 ≤ a) × (a < 2 ^ 54) × (near < 2 ^ 30) }
    ensures { IsRoot a result }
{
    let mut s = near;
    while (s + 1) * (s + 1) <= a {
        s += 1;
    }
    while s * s > a {
        s -= 1;
    }
    s
}

// The whole root of a * 2^52: that of a, then 26 digits from what is left over, which may be one too many.
pub(crate) fn with_rest(table: &StartTable, a: u64) -> Rooted
    requires { (2 ^ 52 ≤ a) × (a < 2 ^ 54) }
    ensures { Rest (a * 2 ^ 52) result.root result.rest }
{
    let t = start(table, (a >> 46) as usize) as u32;
    let s = whole_root(a, newton(a, t));
    let n = (a - s * s) << 25;
    let q = n / s;
    let left = (n % s) << 27;
    let c = (s << 26) + q;
    let square = q * q;
    if left < square {
        return Rooted {
            root: c - 1,
            rest: left + (2 * c - 1) - square,
        };
    }
    Rooted {
        root: c,
        rest: left - square,
    }
}
