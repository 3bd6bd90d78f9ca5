// Sums over whole vectors, and vectors filled in place.
ghost use Rattle.std.specs.Prelude.{◌≡◌, ◌+◌, ◌*◌, ◌%◌, ◌≤◌, length, get_or};
ghost use Rattle.std.specs.Float.{nan};
ghost use Rattle.definitions.specs.Lists.{tab};
ghost use Rattle.definitions.specs.Numbers.{summed, oneᶠ, ofℕ, ◌+ᶠ◌, ◌*ᶠ◌};
ghost use Rattle.definitions.specs.Matrix.{max_rows};
ghost use Rattle.definitions.specs.Estimate.{start_of, norm as norm_of, normalised};
ghost use Rattle.spectral_radius.specs.Power.{outcome_of};

use definitions::Refusal;

// The products of x and y, summed from -0 as the source's `sum` does.
pub(crate) fn dot(x: &[f64], y: &[f64]) -> f64
    requires { length x.now ≡ length y.now }
    ensures { result ≡ summed (tab (λ k. get_or x.now k nan *ᶠ get_or y.now k nan) (length x.now)) }
{
    let mut sum = -0.0;
    for (p, q) in x.iter().zip(y) {
        sum += *p * *q;
    }
    sum
}

// 1 + ((17 i + 11) mod 101)
fn start_at(i: usize) -> f64
    requires { i ≤ max_rows }
    ensures { result ≡ oneᶠ +ᶠ ofℕ ((17 * i + 11) % 101) }
{
    let k = ((17 * i + 11) % 101) as u32;
    1.0 + k as f64
}

fn start(x: &mut [f64])
    requires { length x.old ≤ max_rows }
    ensures { x.new ≡ start_of (length x.old) }
{
    for (k, v) in x.iter_mut().enumerate() {
        *v = start_at(k);
    }
}

fn norm(x: &[f64]) -> f64
    ensures { result ≡ norm_of x.now }
{
    root::root(dot(x, x))
}

// y over its norm becomes x. Where the norm is zero or not finite the estimate fails at this stage.
pub(crate) fn normalise(stage: u64, y: &[f64], norm: f64, x: &mut [f64]) -> Result<(), Refusal>
    requires { (norm ≡ norm_of y.now) × (length x.old ≡ length y.now) }
    ensures { outcome_of result x.new ≡ normalised stage y.now }
{
    if !numbers::usable(norm) {
        return Err(Refusal::EstimateFailed(stage));
    }
    for (k, v) in x.iter_mut().enumerate() {
        *v = y[k] / norm;
    }
    Ok(())
}

// The starting vector over its norm becomes x; y holds it before. Stage 1.
pub(crate) fn begin(x: &mut [f64], y: &mut [f64]) -> Result<(), Refusal>
    requires { (length x.old ≡ length y.old) × (length y.old ≤ max_rows) }
    ensures { outcome_of result x.new ≡ normalised 1 (start_of (length y.old)) }
{
    start(y);
    normalise(1, y, norm(y), x)
}
