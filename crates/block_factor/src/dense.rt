// A dense block of at most 8 by 8 numbers, row after row: the entry (i, j) of a block w wide at i * w + j.
ghost use Rattle.std.specs.Prelude.{◌≡◌, ◌<◌, ◌≤◌, get_or, set};
ghost use Rattle.std.specs.Float.{nan};
ghost use Rattle.definitions.specs.Block.{in_block, max_block};
ghost use Rattle.block_factor.specs.Dense.{blank};

// The numbers and the width, together.
#[derive(Clone, Copy)]
pub struct Block {
    pub a: [f64; 64],
    pub size: usize,
    pub ghost small: { size ≤ max_block },
}

impl Block {
    // Zeros alone.
    #[tactic(auto, unfolding(crate::specs::Dense::blank))]
    pub(crate) fn blank(size: usize) -> Self
        requires { size ≤ max_block }
        ensures { (result.a ≡ blank) × (result.size ≡ size) }
    {
        Block { a: [0.0; 64], size }
    }

    pub(crate) fn at(&self, i: usize, j: usize) -> f64
        requires { (i < self.now.size) × (j < self.now.size) }
        ensures { result ≡ get_or self.now.a (in_block self.now.size i j) nan }
    {
        self.a[i * self.size + j]
    }

    pub(crate) fn put(&mut self, i: usize, j: usize, x: f64)
        requires { (i < self.old.size) × (j < self.old.size) }
        ensures { (self.new.a ≡ set self.old.a (in_block self.old.size i j) x) × (self.new.size ≡ self.old.size) }
    {
        self.a[i * self.size + j] = x;
    }
}
