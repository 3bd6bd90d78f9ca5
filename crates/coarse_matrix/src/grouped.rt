// What an accepted call on groups is about.
ghost use Rattle.std.specs.Prelude.{◌≡◌, ◌<◌};
ghost use Rattle.definitions.specs.Transfer.{coarse_column};

use csr32::{Groups, SquareCsr};

// A matrix and the groups of its rows.
#[derive(Clone, Copy)]
pub(crate) struct GroupedMatrix<'a> {
    pub a: SquareCsr<'a>,
    pub groups: Groups<'a>,
    pub ghost same_rows: { groups.rows ≡ a.rows },
}

impl GroupedMatrix<'_> {
    // The coarse column of a row: group times block size plus component. It stands here and in transfer: a public one, which has to ask
    // whether the row is there, made the whole call take 2 to 21 % longer.
    pub(crate) fn column_of(&self, row: usize) -> usize
        requires { row < self.now.a.rows }
        ensures value { result ≡ coarse_column self.now.groups.size self.now.groups.ids.now row }
        ensures below { result < self.now.groups.coarse }
    {
        let Groups { size, ids, .. } = self.groups;
        let node = numbers::quotient(row, size);
        ids[node] as usize * size + (row - node * size)
    }
}
