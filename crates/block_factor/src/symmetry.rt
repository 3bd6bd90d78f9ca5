// A block's scale, and whether it is symmetric within a tolerance.
ghost use Rattle.std.specs.Prelude.{◌≡◌, ◌<◌};
ghost use Rattle.definitions.specs.Block.{top_of, skewed as skewed_of};
ghost use Rattle.block_factor.specs.Dense.{dense, apart_at, row_apart};

use super::dense::Block;

// The largest magnitude of a block, taken as 1 where it is smaller.
#[tactic(auto, unfolding(definitions::specs::Block::top_of))]
pub(crate) fn top(b: &Block) -> f64
    ensures { result ≡ top_of (dense b.now.size b.now.a) }
{
    let n = b.size * b.size;
    numbers::larger(numbers::largest(&b.a[..n]), 1.0)
}

// Whether (i, j) and (j, i) are further apart than tol.
fn apart(b: &Block, i: usize, j: usize, tol: f64) -> bool
    requires { (i < b.now.size) × (j < b.now.size) }
    ensures { result ≡ apart_at (dense b.now.size b.now.a) b.now.size tol i j }
{
    let d = numbers::magnitude(b.at(i, j) - b.at(j, i));
    d > tol
}

#[tactic(auto, using(crate::proofs::Tabs::up_to_found, crate::proofs::Tabs::up_to_passed, crate::proofs::Tabs::up_to_end))]
fn row_skewed(b: &Block, i: usize, tol: f64) -> bool
    requires { i < b.now.size }
    ensures { result ≡ row_apart (dense b.now.size b.now.a) b.now.size tol i }
{
    for j in 0..i {
        if apart(b, i, j, tol) {
            return true;
        }
    }
    false
}

#[tactic(auto, unfolding(definitions::specs::Block::skewed), using(crate::proofs::Tabs::up_to_found, crate::proofs::Tabs::up_to_passed, crate::proofs::Tabs::up_to_end))]
pub(crate) fn skewed(b: &Block, tol: f64) -> bool
    ensures { result ≡ skewed_of (dense b.now.size b.now.a) b.now.size tol }
{
    for i in 0..b.size {
        if row_skewed(b, i, tol) {
            return true;
        }
    }
    false
}
