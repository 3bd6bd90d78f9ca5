// What the weights are made of.
ghost use Rattle.std.specs.Prelude.{◌≡◌, ◌<◌, length, get_or};
ghost use Rattle.std.specs.Float.{nan};
ghost use Rattle.definitions.specs.Numbers.{◌*ᶠ◌};
ghost use Rattle.definitions.specs.Transfer.{coarse_column};

use csr32::{Groups, SquareCsr};

// A matrix, the groups of its rows, its diagonal and the damping factor.
#[derive(Clone, Copy)]
pub(crate) struct Smoothing<'a> {
    pub a: SquareCsr<'a>,
    pub groups: Groups<'a>,
    pub diagonal: &'a [f64],
    pub damping: f64,
    pub ghost same_rows: { groups.rows ≡ a.rows },
    pub ghost each_row: { length diagonal.now ≡ a.rows },
}

impl Smoothing<'_> {
    // The coarse column of a row: group times block size plus component. It stands here and in coarse_matrix: a public one, which has to
    // ask whether the row is there, made the whole call take 7 to 26 % longer.
    pub(crate) fn column_of(&self, row: usize) -> usize
        requires { row < self.now.a.rows }
        ensures value { result ≡ coarse_column self.now.groups.size self.now.groups.ids.now row }
        ensures below { result < self.now.groups.coarse }
    {
        let groups = self.groups;
        let node = numbers::quotient(row, groups.size);
        groups.ids[node] as usize * groups.size + (row - node * groups.size)
    }

    // What entry k takes off at its coarse column.
    pub(crate) fn share(&self, k: usize, inv: f64) -> f64
        requires { k < length self.now.a.values.now }
        ensures { result ≡ self.now.damping *ᶠ get_or self.now.a.values.now k nan *ᶠ inv }
    {
        let value = self.a.values[k];
        self.damping * value * inv
    }
}
