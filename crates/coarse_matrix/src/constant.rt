// The coarse matrix of the basis that is constant over a group.
ghost use Rattle.std.specs.Prelude.{◌≡◌, ◌+◌, ◌*◌, ◌≤◌, length};
ghost use Rattle.definitions.specs.Lists.{square as square_of, padded};
ghost use Rattle.definitions.specs.Numbers.{zeroᶠ};
ghost use Rattle.definitions.specs.Transfer.{coarse_column};
ghost use Rattle.definitions.specs.Matrix.{entries_of};
ghost use Rattle.definitions.specs.Coarse.{constant_entry, averaged_square};
ghost use Rattle.csr32.specs.Seen.{square};
ghost use Rattle.laws.specs.Scatter.{scattered, scatter};
ghost use Rattle.coarse_matrix.specs.Scatter.{moved, row_puts};

use crate::grouped::GroupedMatrix;
use averaging::average;

// The entries of row r, added into the row of a matrix that begins at base: each at base + the coarse column of its column.
fn add_entries(m: &GroupedMatrix<'_>, r: usize, base: usize, coarse: &mut [f64])
    requires { base + m.now.groups.coarse ≤ length coarse.old }
    ensures { coarse.new ≡ scatter (moved (λ k. base + coarse_column m.now.groups.size m.now.groups.ids.now k) (entries_of (square m.now.a) r)) coarse.old }
{
    // A copy: behind the reference its numbers would be read anew after every store.
    let m = *m;
    let (columns, values) = m.a.row(r);
    for (column, value) in columns.iter().zip(values) {
        let at = base + m.column_of(*column as usize);
        coarse[at] += *value;
    }
}

// The same for each row.
fn add_matrix(m: &GroupedMatrix<'_>, coarse: &mut [f64])
    requires { m.now.groups.coarse * m.now.groups.coarse ≤ length coarse.old }
    ensures { coarse.new ≡ scattered (row_puts (coarse_column m.now.groups.size m.now.groups.ids.now) m.now.groups.coarse (entries_of (square m.now.a))) m.now.a.rows coarse.old }
{
    for r in 0..m.a.rows {
        let at = m.column_of(r);
        add_entries(m, r, at * m.groups.coarse, coarse);
    }
}

// The coarse matrix, averaged, with zeros after it.
pub(crate) fn constant_into(m: &GroupedMatrix<'_>, coarse: &mut [f64])
    requires { m.now.groups.coarse * m.now.groups.coarse ≤ length coarse.old }
    ensures { let c = m.now.groups.coarse in
        coarse.new ≡ padded zeroᶠ (length coarse.old) (averaged_square c (square_of c (constant_entry (square m.now.a) (coarse_column m.now.groups.size m.now.groups.ids.now)))) }
{
    let c = m.groups.coarse;
    coarse.fill(0.0);
    add_matrix(m, &mut coarse[..c * c]);
    let _ = average(c, coarse);
}
