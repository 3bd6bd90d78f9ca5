// The entries of one node's rows.
ghost use Rattle.std.specs.Prelude.{◌≡◌, ◌*◌, ◌/◌, ◌^◌, ◌<◌};
ghost use Rattle.adjacency.specs.Collect.{reciprocal_of};
ghost use Rattle.adjacency.specs.WellFormed.{Named};

#[derive(Clone, Copy)]
pub(crate) struct Entries<'a> {
    pub size: u32,
    pub reciprocal: usize,
    pub nodes: usize,
    pub col_idx: &'a [u32],
    pub values: &'a [f64],
    pub ghost fit: { Named nodes size col_idx.now values.now },
    pub ghost inverse: { reciprocal ≡ reciprocal_of size },
}

impl Entries<'_> {
    // The node of a column, without a division.
    pub(crate) fn node_of(&self, column: u32) -> usize
        requires { column * self.now.size < 2 ^ 32 }
        ensures { result ≡ column / self.now.size }
    {
        (column as usize * self.reciprocal) >> 32
    }
}
