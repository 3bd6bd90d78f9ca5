// Cholesky's factor of a dense block, of which only the lower half is read.
ghost use Rattle.std.specs.Prelude.{◌≡◌, ◌<◌, ◌^◌, MatchResult};
ghost use Rattle.definitions.specs.Block.{in_block};
ghost use Rattle.definitions.specs.Factor.{rest as rest_of, below_diagonal, factor_rows};
ghost use Rattle.definitions.specs.Refusal.{refused, done};
ghost use Rattle.block_factor.specs.Dense.{blank, dense, dense_entry};
ghost use Rattle.block_factor.specs.Factored.{pivot_row, factor_of};

use super::dense::Block;
use super::symmetry::{skewed, top};
use definitions::Refusal;

// What is left of the entry (i, j) once the columns of l before j are taken off. Both are as wide as a: so the compiler reads one width.
#[tactic(auto, unfolding(definitions::specs::Factor::rest, definitions::specs::Factor::products), using(laws::proofs::Growing::reduced_none, laws::proofs::Growing::reduced_more, crate::proofs::Shape::entry_is))]
pub(crate) fn rest(a: &Block, l: &Block, i: usize, j: usize) -> f64
    requires { (i < a.now.size) × (j < a.now.size) × (l.now.size ≡ a.now.size) }
    ensures { result ≡ rest_of (in_block a.now.size) (dense_entry a.now.size a.now.a) l.now.a i j }
{
    let w = a.size;
    let mut sum = a.at(i, j);
    for k in 0..j {
        sum -= l.a[i * w + k] * l.a[j * w + k];
    }
    sum
}

// The entries of row i left of the diagonal.
#[tactic(auto, using(crate::proofs::Steps::left_none, crate::proofs::Steps::left_more))]
pub(crate) fn fill_row(a: &Block, l: &mut Block, i: usize)
    requires { (i < a.now.size) × (l.old.size ≡ a.now.size) }
    ensures { (l.new.a ≡ below_diagonal (in_block a.now.size) (dense_entry a.now.size a.now.a) i i l.old.a) × (l.new.size ≡ l.old.size) }
{
    for j in 0..i {
        let x = rest(a, l, i, j) / l.at(j, j);
        l.put(i, j, x);
    }
}

// The rows one by one; first is the block's first row in the matrix, table the one that roots start from.
fn factor_rows(
    a: &Block,
    first: usize,
    tol: f64,
    table: &root::StartTable,
) -> Result<Block, Refusal>
    requires { first < 2 ^ 32 }
    ensures { let rows = factor_rows (in_block a.now.size) (pivot_row first) (dense_entry a.now.size a.now.a) tol a.now.size 0 blank in
        MatchResult result (λ l. rows ≡ done l.a) (λ cause. rows ≡ refused cause) }
{
    let mut l = Block::blank(a.size);
    for i in 0..a.size {
        fill_row(a, &mut l, i);
        let pivot = rest(a, &l, i, i);
        if !numbers::above(tol, pivot) {
            return Err(Refusal::BlockPivot((first + i) as u64));
        }
        l.put(i, i, root::root_by(table, pivot));
    }
    Ok(l)
}

// The factor of a block, or 14 with its first row, or 15 with the row of the pivot.
pub(crate) fn factor(b: Block, first: usize, table: &root::StartTable) -> Result<Block, Refusal>
    requires { first < 2 ^ 32 }
    ensures { let factor = factor_of first b.size (dense b.size b.a) in
        MatchResult result (λ l. factor ≡ done l.a) (λ cause. factor ≡ refused cause) }
{
    let scale = top(&b);
    if skewed(&b, 1e-11 * scale) {
        return Err(Refusal::BlockNotSymmetric(first as u64));
    }
    factor_rows(&b, first, 1e-14 * scale, table)
}
