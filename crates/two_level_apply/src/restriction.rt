// The residual, restricted to the coarse columns: Pᵀ r.
ghost use Rattle.std.specs.Prelude.{◌≡◌, length};
ghost use Rattle.definitions.specs.Lists.{tab};
ghost use Rattle.definitions.specs.Numbers.{total};
ghost use Rattle.definitions.specs.Matrix.{row_of};
ghost use Rattle.definitions.specs.Transfer.{coarse_column};
ghost use Rattle.definitions.specs.Apply.{constant_restriction_terms, smoothed_restriction_terms, restricted};
ghost use Rattle.laws.specs.Bounds.{Below};
ghost use Rattle.laws.specs.Scatter.{scatter};
ghost use Rattle.csr32.specs.Parts.{entries};
ghost use Rattle.two_level_apply.specs.Scatter.{scaled, Grouped};

use super::adding::add_list;
use super::preconditioner::Preconditioner;
use csr32::CompressedRows;
use definitions::TwoLevelBasis;

// rhs[coarse column of i] = the sum of those r[i], node after node.
fn restrict_constant(r: &[f64], ids: &[u32], size: usize, rhs: &mut [f64])
    requires { Grouped size ids.now (length r.now) (length rhs.old) }
    ensures { rhs.new ≡ tab (λ j. total (constant_restriction_terms (coarse_column size ids.now) r.now j)) (length rhs.old) }
{
    rhs.fill(0.0);
    for (node, id) in ids.iter().enumerate() {
        let first = node * size;
        let base = *id as usize * size;
        add_list(&r[first..first + size], &mut rhs[base..base + size]);
    }
}

// The weights, each times x, added at their columns.
fn add_weights(columns: &[u32], weights: &[f64], x: f64, rhs: &mut [f64])
    requires same { length columns.now ≡ length weights.now }
    requires below { Below (length rhs.old) columns.now }
    ensures { rhs.new ≡ scatter (scaled x (entries columns.now weights.now)) rhs.old }
{
    for (column, weight) in columns.iter().zip(weights) {
        rhs[*column as usize] += *weight * x;
    }
}

// The same for every row, into a list that is cleared first.
#[tactic(auto, using(laws::proofs::Scattering::none_step, laws::proofs::Scattering::rows_step))]
fn restrict_smoothed(transfer: &CompressedRows<'_>, r: &[f64], rhs: &mut [f64])
    requires { length rhs.old ≡ transfer.now.cols }
    ensures { let row = row_of transfer.now.row_ptr.now transfer.now.col_idx.now transfer.now.values.now in
        rhs.new ≡ tab (λ j. total (smoothed_restriction_terms row r.now j)) (length rhs.old) }
{
    rhs.fill(0.0);
    for (i, x) in r.iter().enumerate() {
        let (columns, weights) = transfer.row(i);
        add_weights(columns, weights, *x, rhs);
    }
}

// By the basis of the setup.
#[tactic(auto, using(crate::proofs::Bases::restricted_groups, crate::proofs::Bases::restricted_weights))]
pub(crate) fn restrict(p: &Preconditioner<'_>, r: &[f64], rhs: &mut [f64])
    requires rows { length r.now ≡ p.now.setup.rows }
    requires coarse { length rhs.old ≡ p.now.setup.coarse }
    ensures { rhs.new ≡ restricted p.now.setup p.now.ints.now p.now.floats.now r.now }
{
    match p.setup.basis {
        TwoLevelBasis::PiecewiseConstant => {
            restrict_constant(r, p.ids(), p.setup.block as usize, rhs);
        }
        TwoLevelBasis::JacobiSmoothed => restrict_smoothed(&p.transfer(), r, rhs),
    }
}
