// The coarse solution, added to the rows: z + P sol.
ghost use Rattle.std.specs.Prelude.{◌≡◌, length, get_or};
ghost use Rattle.std.specs.Float.{nan};
ghost use Rattle.definitions.specs.Lists.{tab};
ghost use Rattle.definitions.specs.Numbers.{summed, ◌+ᶠ◌};
ghost use Rattle.definitions.specs.Matrix.{row_of};
ghost use Rattle.definitions.specs.Transfer.{coarse_column};
ghost use Rattle.definitions.specs.Apply.{prolongation_terms};
ghost use Rattle.laws.specs.Bounds.{Below};
ghost use Rattle.csr32.specs.Parts.{entries};
ghost use Rattle.two_level_apply.specs.Scatter.{Grouped, prolonged};

use super::adding::add_list;
use super::preconditioner::Preconditioner;
use csr32::CompressedRows;
use definitions::TwoLevelBasis;

// z[i] += sol[coarse column of i], node after node.
fn prolong_constant(sol: &[f64], ids: &[u32], size: usize, z: &mut [f64])
    requires { Grouped size ids.now (length z.old) (length sol.now) }
    ensures { z.new ≡ tab (λ i. get_or z.old i nan +ᶠ get_or sol.now (coarse_column size ids.now i) nan) (length z.old) }
{
    for (node, id) in ids.iter().enumerate() {
        let first = node * size;
        let base = *id as usize * size;
        add_list(&sol[base..base + size], &mut z[first..first + size]);
    }
}

// The weights by the solution at their columns: a sum from -0.
fn weight_sum(columns: &[u32], weights: &[f64], sol: &[f64]) -> f64
    requires same { length columns.now ≡ length weights.now }
    requires below { Below (length sol.now) columns.now }
    ensures { result ≡ summed (prolongation_terms (entries columns.now weights.now) sol.now) }
{
    let mut sum = -0.0;
    for (column, weight) in columns.iter().zip(weights) {
        sum += *weight * sol[*column as usize];
    }
    sum
}

// z[i] += the weights of row i by the solution.
#[tactic(auto, using(laws::proofs::Growing::tab_none, laws::proofs::Growing::tab_more, laws::proofs::Growing::tab_unread))]
fn prolong_smoothed(transfer: &CompressedRows<'_>, sol: &[f64], z: &mut [f64])
    requires { length sol.now ≡ transfer.now.cols }
    ensures { let z₀ = z.old in
        let row = row_of transfer.now.row_ptr.now transfer.now.col_idx.now transfer.now.values.now in
        z.new ≡ tab (λ i. get_or z₀ i nan +ᶠ summed (prolongation_terms (row i) sol.now)) (length z₀) }
{
    for (i, x) in z.iter_mut().enumerate() {
        let (columns, weights) = transfer.row(i);
        *x += weight_sum(columns, weights, sol);
    }
}

// By the basis of the setup.
#[tactic(auto, using(crate::proofs::Bases::prolonged_groups, crate::proofs::Bases::prolonged_weights))]
pub(crate) fn prolong(p: &Preconditioner<'_>, sol: &[f64], z: &mut [f64])
    requires coarse { length sol.now ≡ p.now.setup.coarse }
    requires rows { length z.old ≡ p.now.setup.rows }
    ensures { z.new ≡ prolonged p.now.setup p.now.ints.now p.now.floats.now sol.now z.old }
{
    match p.setup.basis {
        TwoLevelBasis::PiecewiseConstant => {
            prolong_constant(sol, p.ids(), p.setup.block as usize, z);
        }
        TwoLevelBasis::JacobiSmoothed => prolong_smoothed(&p.transfer(), sol, z),
    }
}
