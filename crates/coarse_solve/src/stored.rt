// The solve with what is stored of the coarse factor: the packed factor itself, or its inverse.
ghost use Rattle.std.specs.Prelude.{◌≡◌, ◌+◌, ◌*◌, ◌≤◌, length, take};
ghost use Rattle.definitions.specs.Lists.{tab, padded};
ghost use Rattle.definitions.specs.Numbers.{zeroᶠ};
ghost use Rattle.definitions.specs.Coarse.{coarse_length, coarse_solve};
ghost use Rattle.definitions.specs.Setup.{max_coarse};
ghost use Rattle.coarse_solve.specs.RowSums.{inverse_solve};

use crate::rows::{dot, row_sums};
use crate::solve::solve;
use definitions::TwoLevelCoarseApplyPolicy;
use packed::Packed;

// Where the eight rows of c numbers from row i on begin.
#[tactic(auto, using(laws::proofs::Growing::tab_none, laws::proofs::Growing::tab_more))]
fn starts(c: usize, i: usize) -> [usize; 8]
    requires { (i + 8 ≤ c) × (c ≤ max_coarse) }
    ensures { result ≡ tab (λ r. (i + r) * c) 8 }
{
    let mut starts = [0; 8];
    for (r, start) in starts.iter_mut().enumerate() {
        *start = (i + r) * c;
    }
    starts
}

// The rows of the inverse by b: eight at a time, and the last ones alone.
fn by_inverse(part: &[f64], b: &[f64], x: &mut [f64])
    requires { (length part.now ≡ length b.now * length b.now) × (length x.old ≡ length b.now) × (length b.now ≤ max_coarse) }
    ensures { x.new ≡ inverse_solve (length b.now) part.now b.now }
{
    let c = b.len();
    let eights = c / 8;
    for g in 0..eights {
        let i = 8 * g;
        x[i..i + 8].copy_from_slice(&row_sums(part, &starts(c, i), b));
    }
    for i in 8 * eights..c {
        x[i] = dot(&part[i * c..i * c + c], b);
    }
}

pub(crate) fn solve_stored(
    policy: TwoLevelCoarseApplyPolicy,
    c: usize,
    part: &[f64],
    work: &mut [f64],
)
    requires { (length part.now ≡ coarse_length policy c) × (2 * c ≤ length work.old) × (c ≤ max_coarse) }
    ensures { work.new ≡ padded zeroᶠ (length work.old) (coarse_solve policy c part.now (take c work.old)) }
{
    let (b, rest) = work.split_at_mut(c);
    match policy {
        TwoLevelCoarseApplyPolicy::Auto | TwoLevelCoarseApplyPolicy::FactorSolve => {
            solve(&Packed { l: part, n: c }, b, rest);
        }
        TwoLevelCoarseApplyPolicy::ExplicitInverse => {
            by_inverse(part, b, &mut rest[..c]);
            numbers::copy_front(&rest[..c], b);
        }
    }
    rest.fill(0.0);
}
