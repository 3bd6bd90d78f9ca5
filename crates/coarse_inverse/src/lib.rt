// The inverse of the coarse matrix from its packed factor.
#![tactic(auto)]

ghost use Rattle.std.specs.Prelude.{◌≡◌, length};
ghost use Rattle.definitions.specs.Numbers.{zeroᶠ};
ghost use Rattle.definitions.specs.Refusal.{result_left};
ghost use Rattle.definitions.specs.Answers.{answer_of};
ghost use Rattle.coarse_inverse.specs.Calls.{coarse_inverse_call};

use definitions::{MAX_COARSE, Refusal};

mod inverse;
mod lanes;

// The inverse from the packed factor in the first elements of lower, averaged with its transpose, with zeros after it.
pub fn coarse_inverse(c: usize, lower: &[f64], inverse: &mut [f64]) -> Result<(), Refusal>
    ensures { let o = coarse_inverse_call c lower.now (length inverse.old) in
        (result ≡ answer_of o) × (inverse.new ≡ result_left zeroᶠ o inverse.old) }
{
    if MAX_COARSE < c {
        inverse.fill(0.0);
        return Err(Refusal::CoarseTooLarge(c as u64));
    }
    let packed = c * (c + 1) / 2;
    let square = c * c;
    if lower.len() < packed || inverse.len() < square {
        inverse.fill(0.0);
        return Err(Refusal::CoarseListTooShort(c as u64));
    }
    inverse::invert(c, &lower[..packed], inverse);
    Ok(())
}
