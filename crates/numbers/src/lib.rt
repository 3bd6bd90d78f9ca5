// Small tests on floats, a quotient, and lists filled, copied and scanned: what every stage uses.
#![tactic(auto)]

ghost use Rattle.std.specs.Prelude.{◌≡◌, ◌/◌, length, replicate};
ghost use Rattle.std.specs.Float.Ieee.Scale.{finite as is_finite};
ghost use Rattle.definitions.specs.Numbers.{magnitude as magnitude_of, larger as larger_of, usable as usable_of, above as above_of};
ghost use Rattle.numbers.specs.Copied.{copied};

mod scan;

pub use scan::{falls, largest, reaches};

// Neither a NaN nor an infinity. The library's test subtracts: for an infinity that is an invalid operation, which a caller may have trapped.
pub fn finite(x: f64) -> bool
    ensures { result ≡ is_finite x }
{
    x < f64::INFINITY && -x < f64::INFINITY
}

// The magnitude. A -0 may stay: no comparison tells it from +0.
pub fn magnitude(x: f64) -> f64
    ensures { result ≡ magnitude_of x }
{
    if x < 0.0 { -x } else { x }
}

// The larger of two numbers; a NaN in the second place is passed over.
pub fn larger(x: f64, y: f64) -> f64
    ensures { result ≡ larger_of x y }
{
    if x < y { y } else { x }
}

// Finite and not zero.
#[tactic(auto, unfolding(definitions::specs::Numbers::usable))]
pub fn usable(x: f64) -> bool
    ensures { result ≡ usable_of x }
{
    finite(x) && !(x == 0.0)
}

// Finite and above a bound.
#[tactic(auto, unfolding(definitions::specs::Numbers::above))]
pub fn above(bound: f64, x: f64) -> bool
    ensures { result ≡ above_of bound x }
{
    finite(x) && !(x <= bound)
}

// x / d; a small divisor is a constant here, by which the compiler multiplies instead. 0 where d is 0.
pub fn quotient(x: usize, d: usize) -> usize
    ensures { result ≡ x / d }
{
    match d {
        0 => 0,
        1 => x,
        2 => x / 2,
        3 => x / 3,
        4 => x / 4,
        5 => x / 5,
        6 => x / 6,
        7 => x / 7,
        8 => x / 8,
        _ => x / d,
    }
}

// One number in every place; the library's `fill` asks of a type parameter that it can be cloned without failing.
pub fn fill<T: Copy>(list: &mut [T], x: T)
    ensures { list.new ≡ replicate (length list.old) x }
{
    for place in list.iter_mut() {
        *place = x;
    }
}

// Copies one list over the front of another, as far as both go.
pub fn copy_front<T: Copy>(from: &[T], to: &mut [T])
    ensures { to.new ≡ copied from.now to.old }
{
    // By a loop, which is compiled to memcpy: the library's `copy_from_slice` asks C for memmove.
    let n = from.len().min(to.len());
    for i in 0..n {
        to[i] = from[i];
    }
}
