// The coarse solve, with the packed factor or with the inverse.
#![tactic(auto)]

ghost use Rattle.std.specs.Prelude.{◌≡◌};
ghost use Rattle.definitions.specs.Numbers.{zeroᶠ};
ghost use Rattle.definitions.specs.Refusal.{result_left};
ghost use Rattle.definitions.specs.Answers.{answer_of};
ghost use Rattle.coarse_solve.specs.Calls.{coarse_solve_call};

use definitions::{MAX_COARSE, Refusal, TwoLevelCoarseApplyPolicy};
use layout::part_length;

mod rows;
mod solve;
mod stored;

// The solve of the right-hand side in the first c elements of work, in place, with zeros after it.
pub fn coarse_solve(
    policy: TwoLevelCoarseApplyPolicy,
    c: usize,
    part: &[f64],
    work: &mut [f64],
) -> Result<(), Refusal>
    ensures { let o = coarse_solve_call policy c part.now work.old in
        (result ≡ answer_of o) × (work.new ≡ result_left zeroᶠ o work.old) }
{
    if MAX_COARSE < c {
        work.fill(0.0);
        return Err(Refusal::CoarseTooLarge(c as u64));
    }
    let count = part_length(policy, c);
    let room = 2 * c;
    if part.len() < count || work.len() < room {
        work.fill(0.0);
        return Err(Refusal::CoarseListTooShort(c as u64));
    }
    stored::solve_stored(policy, c, &part[..count], work);
    Ok(())
}
