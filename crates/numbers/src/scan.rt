// Passes over a whole list. No loop leaves early: so the compiler takes several numbers at once.
ghost use Rattle.std.specs.Prelude.{◌≡◌, leb};
ghost use Rattle.definitions.specs.Lists.{any, falls as falls_of};
ghost use Rattle.definitions.specs.Numbers.{largest as largest_of};

use super::{larger, magnitude};

// Whether some number is above the one after it.
pub fn falls(list: &[u32]) -> bool
    ensures { result ≡ falls_of list.now }
{
    let mut found = false;
    for i in 1..list.len() {
        if list[i] < list[i - 1] {
            found = true;
        }
    }
    found
}

// Whether some number is not below a bound that has 32 bits too.
fn reaches_narrow(list: &[u32], top: u32) -> bool
    ensures { result ≡ any (λ x. leb top x) list.now }
{
    let mut found = false;
    for x in list {
        if top <= *x {
            found = true;
        }
    }
    found
}

// Whether some number is not below top. None reaches a bound beyond 32 bits.
pub fn reaches(list: &[u32], top: usize) -> bool
    ensures { result ≡ any (λ x. leb top x) list.now }
{
    match u32::try_from(top) {
        Ok(top) => reaches_narrow(list, top),
        Err(_) => false,
    }
}

// The largest magnitude, at least +0. A NaN is passed over.
pub fn largest(list: &[f64]) -> f64
    ensures { result ≡ largest_of list.now }
{
    let mut top = 0.0;
    for x in list {
        top = larger(top, magnitude(*x));
    }
    top
}
