// A matrix in blocks whose checks passed: `nodes` times `size` rows and columns, compressed.
ghost use Rattle.std.specs.Prelude.{◌≡◌, ◌<◌};
ghost use Rattle.adjacency.specs.Collect.{reciprocal_of};
ghost use Rattle.adjacency.specs.WellFormed.{WellFormed, part_of};

use super::entries::Entries;

#[derive(Clone, Copy)]
pub(crate) struct Blocks<'a> {
    pub strong: bool, // whether strengths are compared, which asks for finite values
    pub size: u32,
    pub reciprocal: usize, // the size's, by which a column's node is told
    pub nodes: usize,
    pub row_ptr: &'a [u32],
    pub col_idx: &'a [u32],
    pub values: &'a [f64],
    pub ghost fit: { WellFormed strong nodes size row_ptr.now col_idx.now values.now },
    pub ghost inverse: { reciprocal ≡ reciprocal_of size },
}

impl<'a> Blocks<'a> {
    // The entries of node v stand together.
    pub(crate) fn entries(&self, v: usize) -> Entries<'a>
        requires { v < self.now.nodes }
        ensures sizes { (result.size ≡ self.now.size) × (result.nodes ≡ self.now.nodes) }
        ensures columns { result.col_idx.now ≡ part_of self.now.size v self.now.row_ptr.now self.now.col_idx.now }
        ensures values { result.values.now ≡ part_of self.now.size v self.now.row_ptr.now self.now.values.now }
    {
        let size = self.size as usize;
        let from = self.row_ptr[v * size] as usize;
        let to = self.row_ptr[(v + 1) * size] as usize;
        Entries {
            size: self.size,
            reciprocal: self.reciprocal,
            nodes: self.nodes,
            col_idx: &self.col_idx[from..to],
            values: &self.values[from..to],
        }
    }
}
