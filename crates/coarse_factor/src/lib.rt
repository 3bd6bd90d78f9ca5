// The packed Cholesky factor of the coarse matrix.
#![tactic(auto)]

ghost use Rattle.std.specs.Prelude.{◌≡◌, ◌*◌, length, take};
ghost use Rattle.definitions.specs.Numbers.{zeroᶠ, largest};
ghost use Rattle.definitions.specs.Refusal.{result_left};
ghost use Rattle.definitions.specs.Answers.{factor_answer};
ghost use Rattle.coarse_factor.specs.Calls.{coarse_factor_call};

use definitions::{MAX_COARSE, Refusal};
use factor::Square;
use numbers::{larger, largest, usable};

mod factor;

// Cholesky's factor of the coarse matrix in the first c · c elements of m, packed, with zeros after it.
pub fn coarse_factor(c: usize, m: &[f64], lower: &mut [f64]) -> Result<f64, Refusal>
    ensures { let o = coarse_factor_call c m.now (length lower.old) in
        (result ≡ factor_answer (largest (take (c * c) m.now)) o) × (lower.new ≡ result_left zeroᶠ o lower.old) }
{
    lower.fill(0.0);
    if MAX_COARSE < c {
        return Err(Refusal::CoarseTooLarge(c as u64));
    }
    let square = c * c;
    let packed = c * (c + 1) / 2;
    if m.len() < square || lower.len() < packed {
        return Err(Refusal::CoarseListTooShort(c as u64));
    }
    let m = &m[..square];
    let top = largest(m);
    if !usable(top) {
        return Err(Refusal::CoarseScale);
    }
    let tol = 1e-14 * larger(top, 1.0);
    if let Err(cause) = (Square { m, c }).factor_rows(&mut lower[..packed], tol) {
        lower.fill(0.0);
        return Err(cause);
    }
    Ok(top)
}
