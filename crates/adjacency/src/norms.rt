// The diagonal norms of all nodes.
ghost use Rattle.std.specs.Prelude.{◌≡◌, true, length};
ghost use Rattle.adjacency.specs.Blocks.{matrix};
ghost use Rattle.adjacency.specs.Norms.{Normed};

use super::blocks::Blocks;
use super::sums::own;
use root::{StartTable, root_by};

// A matrix in blocks, and what strengths are measured by: the diagonal norms, if they are wanted, and a table that roots start from.
#[derive(Clone, Copy)]
pub(crate) struct NormedBlocks<'a> {
    pub blocks: Blocks<'a>,
    pub norms: &'a [f64],
    pub table: &'a StartTable,
    pub ghost long: { length norms.now ≡ blocks.nodes },
    pub ghost normed: { blocks.strong ≡ true → Normed (matrix blocks) blocks.size blocks.nodes norms.now },
}

// The norm of each node's own block.
pub(crate) fn fill_norms(a: &Blocks<'_>, norms: &mut [f64], table: &StartTable)
    requires { length norms.old ≡ a.now.nodes }
    ensures { Normed (matrix a.now) a.now.size a.now.nodes norms.new }
{
    for (v, norm) in norms.iter_mut().enumerate() {
        *norm = root_by(table, own(&a.entries(v), v));
    }
}
