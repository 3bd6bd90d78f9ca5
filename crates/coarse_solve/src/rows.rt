// Sums over rows, one alone and eight side by side.
ghost use Rattle.std.specs.Prelude.{◌≡◌, ◌+◌, length};
ghost use Rattle.definitions.specs.Lists.{tab};
ghost use Rattle.definitions.specs.Numbers.{summed};
ghost use Rattle.coarse_solve.specs.RowSums.{product, added, row_sums, with_terms, RowsWithin};

// The products of the numbers of two lists, added to a sum.
pub(crate) fn add_products(sum: f64, a: &[f64], b: &[f64]) -> f64
    requires { length a.now ≡ length b.now }
    ensures { result ≡ added sum (tab (product a.now b.now) (length b.now)) }
{
    let mut sum = sum;
    for (p, q) in a.iter().zip(b) {
        sum += *p * *q;
    }
    sum
}

// Their sum, from -0.
#[tactic(auto, using(crate::proofs::Sums::from_minus_zero))]
pub(crate) fn dot(a: &[f64], b: &[f64]) -> f64
    requires { length a.now ≡ length b.now }
    ensures { result ≡ summed (tab (product a.now b.now) (length b.now)) }
{
    add_products(-0.0, a, b)
}

// The product at k of each of eight rows, to its sum: the compiler unrolls the loop.
#[tactic(auto, using(laws::proofs::Growing::tab_none, crate::proofs::Sums::terms_more))]
fn add_terms(sums: &mut [f64; 8], l: &[f64], starts: &[usize; 8], k: usize, x: f64)
    requires { RowsWithin l.now (k + 1) starts.now 8 }
    ensures { sums.new ≡ with_terms sums.old l.now starts.now k x 8 }
{
    for (r, sum) in sums.iter_mut().enumerate() {
        *sum += l[starts[r] + k] * x;
    }
}

// The rows of l that begin at eight starts, by y: sums that do not wait for one another.
#[tactic(auto, using(crate::proofs::Sums::sums_none, crate::proofs::Sums::sums_more))]
pub(crate) fn row_sums(l: &[f64], starts: &[usize; 8], y: &[f64]) -> [f64; 8]
    requires { RowsWithin l.now (length y.now) starts.now 8 }
    ensures { result ≡ row_sums l.now y.now (length y.now) starts.now 8 }
{
    let mut sums = [-0.0; 8];
    for (k, x) in y.iter().enumerate() {
        add_terms(&mut sums, l, starts, k, *x);
    }
    sums
}
