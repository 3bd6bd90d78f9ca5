// The neighbour lists of the nodes, one behind another: where each starts, and behind the last where that ends.
ghost use Rattle.std.specs.Prelude.{◌≡◌, ◌<◌, ◌≤◌, length};
ghost use Rattle.definitions.specs.Matrix.{max_rows, max_entries};
ghost use Rattle.definitions.specs.Groups.{listed};
ghost use Rattle.aggregates.specs.Lists.{Lists as Fit};

#[derive(Clone, Copy)]
pub(crate) struct Lists<'a> {
    pub(crate) nodes: usize,
    pub(crate) offsets: &'a [u32],
    pub(crate) neighbours: &'a [u32],
    ghost fit: { Fit nodes offsets.now neighbours.now },
    ghost some: { 0 < nodes },
    ghost few: { (nodes ≤ max_rows) × (length neighbours.now ≤ max_entries) },
}

impl Lists<'_> {
    // What the node v lists.
    pub(crate) fn of(&self, v: usize) -> &[u32]
        requires { v < self.now.nodes }
        ensures { result.now ≡ listed self.now.offsets.now self.now.neighbours.now v }
    {
        let from = self.offsets[v] as usize;
        let to = self.offsets[v + 1] as usize;
        &self.neighbours[from..to]
    }
}
