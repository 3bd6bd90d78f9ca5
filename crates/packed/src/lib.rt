// A packed factor: row i, up to its diagonal, holds i + 1 numbers and begins at i(i+1)/2.
#![tactic(auto)]

ghost use Rattle.std.specs.Prelude.{◌≡◌, ℕ, ◌+◌, ◌<◌, ◌≤◌, [], length, get_or};
ghost use Rattle.std.specs.Float.{nan};
ghost use Rattle.definitions.specs.Coarse.{packed_entry, packed_length};
ghost use Rattle.definitions.specs.Setup.{max_coarse};

#[derive(Clone, Copy)]
pub struct Packed<'a> {
    pub l: &'a [f64],
    pub n: usize,
    pub ghost whole: { length l.now ≡ packed_length n },
    pub ghost few: { n ≤ max_coarse },
}

impl Packed<'_> {
    // Row i, up to its diagonal; empty where there is no row i.
    pub fn row(&self, i: usize) -> &[f64]
        ensures long { i < self.now.n → length result.now ≡ i + 1 }
        ensures entries { i < self.now.n → (k : ℕ) → k ≤ i → get_or result.now k nan ≡ packed_entry self.now.l.now i k }
        ensures none { self.now.n ≤ i → result.now ≡ [] }
    {
        if self.n <= i {
            return &[];
        }
        let start = i * (i + 1) / 2;
        &self.l[start..start + i + 1]
    }
}
