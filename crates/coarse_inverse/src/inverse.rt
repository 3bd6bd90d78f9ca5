// The inverse of the coarse matrix from its packed factor: row i is the solve of the i-th unit vector; then averaged.
ghost use Rattle.std.specs.Prelude.{◌≡◌, true, List, ◌++◌, ◌+◌, ◌*◌, ◌<◌, ◌≤◌, length, drop, Float};
ghost use Rattle.definitions.specs.Lists.{padded};
ghost use Rattle.definitions.specs.Numbers.{zeroᶠ};
ghost use Rattle.definitions.specs.Coarse.{packed_length, inverse_of};
ghost use Rattle.definitions.specs.Setup.{max_coarse};
ghost use Rattle.coarse_inverse.specs.Lanes.{lane, Regular};
ghost use Rattle.coarse_inverse.specs.Rows.{solved_rows};

use crate::lanes::solve_units;
use averaging::average;
use definitions::MAX_COARSE;
use packed::Packed;

// Lane r, as a row.
#[tactic(auto, using(crate::proofs::Sides::copied_more))]
fn copy_lane(w: &[[f64; 16]], r: usize, row: &mut [f64])
    requires { (r < 16) × (length row.old ≡ length w.now) }
    ensures { row.new ≡ lane w.now r }
{
    for (k, x) in row.iter_mut().enumerate() {
        *x = w[k][r];
    }
}

// Whether all numbers are finite and the diagonal is above zero.
fn is_regular(factor: &Packed<'_>) -> bool
    ensures { result ≡ true → Regular factor.now.n factor.now.l.now }
{
    for x in factor.l {
        if !numbers::finite(*x) {
            return false;
        }
    }
    for i in 0..factor.n {
        if !(0.0 < factor.row(i)[i]) {
            return false;
        }
    }
    true
}

// The n rows from i on, where those before them are there; w is what the lanes are solved in.
fn solve_rows(
    factor: &Packed<'_>,
    w: &mut [[f64; 16]],
    inverse: &mut [f64],
    i: usize,
    n: usize,
    first: usize,
)
    requires n_bound { (n ≤ 16) × (i + n ≤ factor.now.n) × (length w.old ≡ factor.now.n) × (factor.now.n * factor.now.n ≤ length inverse.old) }
    requires first_le_i { (first ≤ i) × (0 < first → Regular factor.now.n factor.now.l.now) }
    ensures { let c = factor.now.n in
        let rows = solved_rows c factor.now.l.now in
        (u : List Float) → inverse.old ≡ rows i ++ drop (i * c) u → inverse.new ≡ rows (i + n) ++ drop ((i + n) * c) u }
{
    solve_units(factor, w, i, n, first);
    for r in 0..n {
        let from = (i + r) * factor.n;
        copy_lane(w, r, &mut inverse[from..from + factor.n]);
    }
}

// The whole inverse, with zeros after it.
pub(crate) fn invert(c: usize, lower: &[f64], inverse: &mut [f64])
    requires { (length lower.now ≡ packed_length c) × (c * c ≤ length inverse.old) × (c ≤ max_coarse) }
    ensures { inverse.new ≡ padded zeroᶠ (length inverse.old) (inverse_of c lower.now) }
{
    let factor = Packed { l: lower, n: c };
    let regular = is_regular(&factor);
    let mut w = [[0.0; 16]; MAX_COARSE];
    for i in (0..c).step_by(16) {
        // The numbers before i stay +0 in a regular factor's forward solve.
        let first = if regular { i } else { 0 };
        solve_rows(&factor, &mut w[..c], inverse, i, (c - i).min(16), first);
    }
    let _ = average(c, inverse);
}
