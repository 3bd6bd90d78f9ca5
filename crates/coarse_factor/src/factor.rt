// Cholesky's factor of the coarse matrix, packed, row after row. A list w has the columns of eight rows side by side: their sums do not wait for one another.
ghost use Rattle.std.specs.Prelude.{◌≡◌, ℕ, ◌+◌, ◌<◌, ◌≤◌, length, get_or, Float};
ghost use Rattle.std.specs.Float.{nan};
ghost use Rattle.definitions.specs.Lists.{tab};
ghost use Rattle.definitions.specs.Numbers.{◌-ᶠ◌, ◌*ᶠ◌, ◌/ᶠ◌};
ghost use Rattle.definitions.specs.Factor.{below_diagonal, factor_rows};
ghost use Rattle.definitions.specs.declared.Refusal.TheVariants.{CoarsePivot};
ghost use Rattle.definitions.specs.Coarse.{packed, packed_length, entry_in};
ghost use Rattle.definitions.specs.Setup.{max_coarse};
ghost use Rattle.coarse_factor.specs.Fronts.{less_row, Fronts};
ghost use Rattle.coarse_factor.specs.Calls.{outcome_of};

use definitions::{MAX_COARSE, Refusal};
use numbers::above;
use packed::Packed;
use root::root;

// Eight numbers, less eight others by y.
#[tactic(auto, using(laws::proofs::Growing::tab_none, laws::proofs::Growing::tab_more, laws::proofs::Growing::tab_unread))]
fn take_eight(x: &mut [f64; 8], w: &[f64; 8], y: f64)
    ensures { x.new ≡ tab (λ r. get_or x.old r nan -ᶠ get_or w.now r nan *ᶠ y) 8 }
{
    for r in 0..8 {
        x[r] -= w[r] * y;
    }
}

// Eight numbers over the pivot.
#[tactic(auto, using(laws::proofs::Growing::tab_none, laws::proofs::Growing::tab_more))]
fn over(x: &[f64; 8], pivot: f64) -> [f64; 8]
    ensures { result ≡ tab (λ r. get_or x.now r nan /ᶠ pivot) 8 }
{
    let mut y = [0.0; 8];
    for r in 0..8 {
        y[r] = x[r] / pivot;
    }
    y
}

// Row i left of the diagonal, from its lane of w; it begins at `start`. It takes the whole list, as what it promises speaks of the rows before too.
fn put_row(l: &mut [f64], w: &[[f64; 8]; MAX_COARSE], i: usize, start: usize, lane: usize)
    requires { (lane < 8) × (i < max_coarse) × (start ≡ packed_length i) × (start + i ≤ length l.old) }
    ensures { (a : ℕ → ℕ → Float) (n : ℕ) → i ≡ n + lane → Fronts a l.old w.now n i → l.new ≡ below_diagonal packed a i i l.old }
{
    for k in 0..i {
        l[start + k] = w[k][lane];
    }
}

// The coarse matrix, row after row.
#[derive(Clone, Copy)]
pub(crate) struct Square<'a> {
    pub m: &'a [f64],
    pub c: usize,
    ghost few: { c ≤ max_coarse },
}

impl Square<'_> {
    // The entry (i, j), NaN where the list has none: eight rows may reach past the last.
    fn entry(&self, i: usize, j: usize) -> f64
        requires { (i < max_coarse + 8) × (j ≤ max_coarse) }
        ensures { result ≡ entry_in self.now.m.now self.now.c i j }
    {
        self.m.get(i * self.c + j).copied().unwrap_or(f64::NAN)
    }

    // Column j of the eight rows from n on.
    #[tactic(auto, using(laws::proofs::Growing::tab_none, laws::proofs::Growing::tab_more))]
    fn eight(&self, n: usize, j: usize) -> [f64; 8]
        requires { (n ≤ max_coarse) × (j ≤ max_coarse) }
        ensures { result ≡ tab (λ r. entry_in self.now.m.now self.now.c (n + r) j) 8 }
    {
        let mut x = [0.0; 8];
        for r in 0..8 {
            x[r] = self.entry(n + r, j);
        }
        x
    }

    // The columns j and j + 1 of the eight rows from n on, less their products in the first j columns, with the rows `row` and `next`.
    fn pair_rest(
        &self,
        w: &[[f64; 8]; MAX_COARSE],
        n: usize,
        j: usize,
        row: &[f64],
        next: &[f64],
    ) -> ([f64; 8], [f64; 8])
        requires { (n ≤ max_coarse) × (j < max_coarse) × (j ≤ length row.now) × (j ≤ length next.now) }
        ensures { let a = entry_in self.now.m.now self.now.c in
            (result.0 ≡ tab (less_row a (λ t. get_or row.now t nan) w.now n j j) 8) × (result.1 ≡ tab (less_row a (λ t. get_or next.now t nan) w.now n (j + 1) j) 8) }
    {
        let mut x = self.eight(n, j);
        let mut y = self.eight(n, j + 1);
        for k in 0..j {
            take_eight(&mut x, &w[k], row[k]);
            take_eight(&mut y, &w[k], next[k]);
        }
        (x, y)
    }

    // The columns j and j + 1 of the eight rows from n on: the second waits for the first in its last product.
    fn put_columns(&self, factor: &Packed<'_>, w: &mut [[f64; 8]; MAX_COARSE], n: usize, j: usize)
        requires { (n ≤ max_coarse) × (j + 1 < factor.now.n) × (length w.old ≡ max_coarse) }
        ensures { let a = entry_in self.now.m.now self.now.c in (length w.new ≡ max_coarse)
            × (Fronts a factor.now.l.now w.old n j → Fronts a factor.now.l.now w.new n (j + 2)) }
    {
        let row = factor.row(j);
        let next = factor.row(j + 1);
        let (x, mut y) = self.pair_rest(w, n, j, row, next);
        let first = over(&x, row[j]);
        take_eight(&mut y, &first, next[j]);
        w[j] = first;
        w[j + 1] = over(&y, next[j + 1]);
    }

    // The first of the eight rows that w has, up to column i, row i among them: those there were, or those from i on.
    fn renew(
        &self,
        factor: &Packed<'_>,
        w: &mut [[f64; 8]; MAX_COARSE],
        i: usize,
        n: usize,
    ) -> usize
        requires { (i < factor.now.n) × (n ≤ i) × (length w.old ≡ max_coarse) × Fronts (entry_in self.now.m.now self.now.c) factor.now.l.now w.old n i }
        ensures { (result ≤ i) × (i < result + 8) × (length w.new ≡ max_coarse) × Fronts (entry_in self.now.m.now self.now.c) factor.now.l.now w.new result i }
    {
        if i < n + 8 {
            return n;
        }
        for pair in 0..i.div_ceil(2) {
            self.put_columns(factor, w, i, pair * 2);
        }
        i
    }

    // The rows one after the other; a pivot that is not finite or at most tol is refused.
    pub(crate) fn factor_rows(&self, l: &mut [f64], tol: f64) -> Result<(), Refusal>
        requires { length l.old ≡ packed_length self.now.c }
        ensures { (length l.new ≡ length l.old)
            × (outcome_of result l.new ≡ factor_rows packed (λ i. CoarsePivot i) (entry_in self.now.m.now self.now.c) tol self.now.c 0 l.old) }
    {
        let mut w = [[0.0; 8]; MAX_COARSE];
        let mut n = 0;
        let mut start = 0;
        for i in 0..self.c {
            n = self.renew(&Packed { l, n: self.c }, &mut w, i, n);
            let lane = i - n;
            put_row(l, &w, i, start, lane);
            // Of the two columns the first is used: what is left of row i in it is the pivot.
            let row = &l[start..start + i];
            let (x, _) = self.pair_rest(&w, n, i, row, row);
            let pivot = x[lane];
            if !above(tol, pivot) {
                return Err(Refusal::CoarsePivot(i as u64));
            }
            let p = root(pivot);
            l[start + i] = p;
            w[i] = over(&x, p);
            start += i + 1;
        }
        Ok(())
    }
}
