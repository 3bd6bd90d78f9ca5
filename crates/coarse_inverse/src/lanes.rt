// Sixteen solves with the packed factor side by side: row k of w holds number k of each lane. The sums of the lanes do not wait for one another,
// the compiler makes them by vector instructions, and each number of the factor is read once for all lanes.
ghost use Rattle.std.specs.Prelude.{◌≡◌, suc, ◌+◌, ◌-◌, ◌<◌, ◌≤◌, length, get_or};
ghost use Rattle.std.specs.Float.{nan};
ghost use Rattle.definitions.specs.Lists.{tab};
ghost use Rattle.definitions.specs.Numbers.{◌+ᶠ◌, ◌*ᶠ◌};
ghost use Rattle.definitions.specs.Coarse.{packed_entry, packed_forward, packed_backward};
ghost use Rattle.laws.specs.Packed.{Column};
ghost use Rattle.coarse_inverse.specs.Lanes.{EachLane, LanesStart, Regular, Units, Solved, lane_sums, lanes_less};

use definitions::MAX_COARSE;
use packed::Packed;

// x by the lanes' numbers of a row, each to its sum.
#[tactic(auto, using(laws::proofs::Growing::tab_none, laws::proofs::Growing::tab_more, laws::proofs::Growing::tab_unread))]
fn add_lanes(sums: &mut [f64; 16], x: f64, row: &[f64; 16])
    ensures { sums.new ≡ tab (λ r. get_or sums.old r nan +ᶠ x *ᶠ get_or row.now r nan) 16 }
{
    for (r, sum) in sums.iter_mut().enumerate() {
        *sum += x * row[r];
    }
}

// Each lane by a list.
fn lane_dots(l: &[f64], w: &[[f64; 16]]) -> [f64; 16]
    requires { length l.now ≡ length w.now }
    ensures { result ≡ lane_sums 16 (λ k. get_or l.now k nan) 0 w.now (length l.now) }
{
    let mut sums = [-0.0; 16];
    for (k, x) in l.iter().enumerate() {
        add_lanes(&mut sums, *x, &w[k]);
    }
    sums
}

// The lanes' numbers of a row, each less its sum, over the pivot.
#[tactic(auto, using(laws::proofs::Growing::tab_none, laws::proofs::Growing::tab_more, laws::proofs::Growing::tab_unread))]
fn put_lanes(row: &mut [f64; 16], sums: &[f64; 16], pivot: f64)
    ensures { row.new ≡ lanes_less 16 row.old sums.now pivot }
{
    for (r, x) in row.iter_mut().enumerate() {
        *x = (*x - sums[r]) / pivot;
    }
}

// The unit vectors from i on in the first n lanes.
fn set_units(w: &mut [[f64; 16]], i: usize, n: usize)
    requires { (n ≤ 16) × (i + n ≤ length w.old) }
    ensures { Units 16 (length w.old) i n w.new }
{
    w.fill([0.0; 16]);
    for r in 0..n {
        w[i + r][r] = 1.0;
    }
}

// L y = b in each lane, from row `first` on.
fn forward_lanes(factor: &Packed<'_>, w: &mut [[f64; 16]], first: usize)
    requires { (first ≤ factor.now.n) × (length w.old ≡ factor.now.n) × LanesStart 16 factor.now.n factor.now.l.now first w.old }
    ensures { EachLane 16 (λ b. packed_forward factor.now.l.now b factor.now.n) w.old w.new }
{
    for i in first..factor.n {
        let row = factor.row(i);
        let sums = lane_dots(&row[first..i], &w[first..i]);
        put_lanes(&mut w[i], &sums, row[i]);
    }
}

// The column i below the diagonal, by each lane. The column before it is kept on the way, each number at its row.
fn column_lanes(factor: &Packed<'_>, w: &[[f64; 16]], i: usize, kept: &mut [f64]) -> [f64; 16]
    requires { (i < factor.now.n) × (length w.now ≡ factor.now.n) × (factor.now.n ≤ length kept.old) }
    ensures value { result ≡ lane_sums 16 (λ k. packed_entry factor.now.l.now (suc i + k) i) (suc i) w.now (factor.now.n - suc i) }
    ensures kept_column { 0 < i → Column factor.now.l.now (i - 1) factor.now.n kept.new }
{
    // Past row i.
    let end = (i + 1) * (i + 2) / 2;
    let mut sums = [-0.0; 16];
    let mut at = end + i;
    for j in i + 1..factor.n {
        kept[j] = factor.l[at - 1];
        add_lanes(&mut sums, factor.l[at], &w[j]);
        at += j + 1;
    }
    if 0 < i {
        kept[i] = factor.l[end - 2];
    }
    sums
}

// Lᵀ x = y in each lane, two columns at a time.
fn backward_lanes(factor: &Packed<'_>, w: &mut [[f64; 16]])
    requires { length w.old ≡ factor.now.n }
    ensures { EachLane 16 (λ b. packed_backward factor.now.l.now factor.now.n b factor.now.n) w.old w.new }
{
    let mut kept = [0.0; MAX_COARSE];
    for i in (0..factor.n).rev() {
        // Every second column was kept.
        let sums = if (factor.n - i) % 2 == 0 {
            lane_dots(&kept[i + 1..factor.n], &w[i + 1..])
        } else {
            column_lanes(factor, w, i, &mut kept)
        };
        put_lanes(&mut w[i], &sums, factor.row(i)[i]);
    }
}

// The solves of the n unit vectors from i on. The forward solve begins at row `first`: after row 0 only where the factor is regular.
pub(crate) fn solve_units(
    factor: &Packed<'_>,
    w: &mut [[f64; 16]],
    i: usize,
    n: usize,
    first: usize,
)
    requires { (n ≤ 16) × (i + n ≤ factor.now.n) × (length w.old ≡ factor.now.n) × (first ≤ i) × (0 < first → Regular factor.now.n factor.now.l.now) }
    ensures { Solved 16 factor.now.n factor.now.l.now i n w.new }
{
    set_units(w, i, n);
    forward_lanes(factor, w, first);
    backward_lanes(factor, w);
}
