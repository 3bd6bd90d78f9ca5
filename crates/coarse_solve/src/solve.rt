// The solves with a packed factor, in place.
ghost use Rattle.std.specs.Prelude.{◌≡◌, suc, ◌+◌, ◌-◌, ◌<◌, ◌≤◌, length};
ghost use Rattle.definitions.specs.Lists.{tab};
ghost use Rattle.definitions.specs.Coarse.{packed_length, packed_forward, packed_backward, packed_solve};
ghost use Rattle.definitions.specs.Setup.{max_coarse};
ghost use Rattle.laws.specs.Packed.{Column, ahead};
ghost use Rattle.coarse_solve.specs.RowSums.{col_sum};

use crate::rows::{add_products, dot, row_sums};
use packed::Packed;

// Where the eight rows from i on begin.
#[tactic(auto, using(laws::proofs::Growing::tab_none, laws::proofs::Growing::tab_more))]
fn starts(i: usize) -> [usize; 8]
    requires { i + 8 ≤ max_coarse }
    ensures { result ≡ tab (λ r. packed_length (i + r)) 8 }
{
    let mut starts = [0; 8];
    for (r, start) in starts.iter_mut().enumerate() {
        *start = (i + r) * (i + r + 1) / 2;
    }
    starts
}

// The eight rows from i on, where those before them are solved.
fn forward_eight(factor: &Packed<'_>, y: &mut [f64], i: usize)
    requires { (length y.old ≡ factor.now.n) × (i + 8 ≤ factor.now.n) }
    ensures { (b : _) → y.old ≡ ahead factor.now.l.now b i → y.new ≡ ahead factor.now.l.now b (i + 8) }
{
    let sums = row_sums(factor.l, &starts(i), &y[..i]);
    for r in 0..8 {
        let k = i + r;
        let row = factor.row(k);
        let sum = add_products(sums[r], &row[i..k], &y[i..k]);
        y[k] = (y[k] - sum) / row[k];
    }
}

// L y = b, in place: eight rows at a time, and the last ones alone.
fn forward(factor: &Packed<'_>, y: &mut [f64])
    requires { length y.old ≡ factor.now.n }
    ensures { y.new ≡ packed_forward factor.now.l.now y.old factor.now.n }
{
    let eights = factor.n / 8;
    for g in 0..eights {
        forward_eight(factor, y, 8 * g);
    }
    for k in 8 * eights..factor.n {
        let row = factor.row(k);
        let sum = dot(&row[..k], &y[..k]);
        y[k] = (y[k] - sum) / row[k];
    }
}

// The column i below the diagonal, by y. The column i - 1, which stands before it, is kept on the way, each number at its row:
// the rows are far apart in memory, and so each is fetched once for two columns.
fn column_dot(factor: &Packed<'_>, y: &[f64], i: usize, kept: &mut [f64]) -> f64
    requires { (i < factor.now.n) × (length y.now ≡ factor.now.n) × (factor.now.n ≤ length kept.old) }
    ensures value { result ≡ col_sum factor.now.l.now y.now i (factor.now.n - suc i) }
    ensures kept_column { 0 < i → Column factor.now.l.now (i - 1) factor.now.n kept.new }
{
    // Past row i.
    let end = (i + 1) * (i + 2) / 2;
    let mut sum = -0.0;
    let mut at = end + i;
    for j in i + 1..factor.n {
        kept[j] = factor.l[at - 1];
        sum += factor.l[at] * y[j];
        at += j + 1;
    }
    if 0 < i {
        kept[i] = factor.l[end - 2];
    }
    sum
}

// Lᵀ x = y, in place, two columns at a time.
fn backward(factor: &Packed<'_>, y: &mut [f64], kept: &mut [f64])
    requires { (length y.old ≡ factor.now.n) × (factor.now.n ≤ length kept.old) }
    ensures { y.new ≡ packed_backward factor.now.l.now factor.now.n y.old factor.now.n }
{
    for i in (0..factor.n).rev() {
        // Every second column was kept.
        let sum = if (factor.n - i) % 2 == 0 {
            dot(&kept[i + 1..factor.n], &y[i + 1..])
        } else {
            column_dot(factor, y, i, kept)
        };
        y[i] = (y[i] - sum) / factor.row(i)[i];
    }
}

// Both, with room for a column.
#[tactic(auto, using(crate::proofs::Solving::solve_law))]
pub(crate) fn solve(factor: &Packed<'_>, y: &mut [f64], kept: &mut [f64])
    requires { (length y.old ≡ factor.now.n) × (factor.now.n ≤ length kept.old) }
    ensures { y.new ≡ packed_solve factor.now.n factor.now.l.now y.old }
{
    forward(factor, y);
    backward(factor, y, kept);
}
