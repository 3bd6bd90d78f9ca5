// The solves with the factor of one block: W · W numbers, row after row, and as many as the block is wide in r and in z. The loops go by
// places, and not over slices of rows: so the compiler takes two blocks at once, and blocks of 6 take 0.62 of the time.
ghost use Rattle.std.specs.Prelude.{◌≡◌, suc, ◌+◌, ◌-◌, ◌<◌, length, get_or};
ghost use Rattle.std.specs.Float.{nan};
ghost use Rattle.definitions.specs.Lists.{tab};
ghost use Rattle.definitions.specs.Numbers.{reduced, ◌*ᶠ◌};
ghost use Rattle.definitions.specs.Block.{lower, forward as forward_of, backward as backward_of, block_solve};
ghost use Rattle.block_apply.specs.Solved.{Fit};

// r[i] less the products of row i of l by the numbers of z before place i.
fn row_rest<const W: usize>(l: &[f64], r: &[f64], z: &[f64], i: usize) -> f64
    requires { (i < W) × Fit W l.now r.now z.now }
    ensures { result ≡ reduced (get_or r.now i nan) (tab (λ k. lower l.now W i k *ᶠ get_or z.now k nan) i) }
{
    let mut rest = r[i];
    for k in 0..i {
        rest -= l[i * W + k] * z[k];
    }
    rest
}

// L y = r: y into z.
fn forward<const W: usize>(l: &[f64], r: &[f64], z: &mut [f64])
    requires { Fit W l.now r.now z.old }
    ensures { z.new ≡ forward_of l.now W r.now W }
{
    for i in 0..W {
        z[i] = row_rest::<W>(l, r, z, i) / l[i * W + i];
    }
}

// z[i] less the products of the numbers of z after it by column i of l.
fn column_rest<const W: usize>(l: &[f64], z: &[f64], i: usize) -> f64
    requires { (i < W) × Fit W l.now z.now z.now }
    ensures { result ≡ reduced (get_or z.now i nan) (tab (λ m. lower l.now W (suc i + m) i *ᶠ get_or z.now (suc i + m) nan) (W - suc i)) }
{
    let mut rest = z[i];
    for m in i + 1..W {
        rest -= l[m * W + i] * z[m];
    }
    rest
}

// Lᵀ z = y, in place.
fn backward<const W: usize>(l: &[f64], z: &mut [f64])
    requires { Fit W l.now z.old z.old }
    ensures { z.new ≡ backward_of l.now W z.old W }
{
    for i in (0..W).rev() {
        z[i] = column_rest::<W>(l, z, i) / l[i * W + i];
    }
}

// Both.
pub(crate) fn solve<const W: usize>(l: &[f64], r: &[f64], z: &mut [f64])
    requires { Fit W l.now r.now z.old }
    ensures { z.new ≡ block_solve l.now W r.now }
{
    forward::<W>(l, r, z);
    backward::<W>(l, z);
}
