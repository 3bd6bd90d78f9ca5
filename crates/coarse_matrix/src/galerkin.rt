// The coarse matrix of the smoothed basis: for each row of A P, weight times sum at the touched columns.
ghost use Rattle.std.specs.Prelude.{◌≡◌, suc, ◌+◌, ◌*◌, ◌<◌, ◌≤◌, length, get_or, replicate};
ghost use Rattle.definitions.specs.Lists.{square as square_of, padded};
ghost use Rattle.definitions.specs.Numbers.{zeroᶠ};
ghost use Rattle.definitions.specs.Coarse.{averaged_square, galerkin_entry};
ghost use Rattle.definitions.specs.Matrix.{entries_of};
ghost use Rattle.csr32.specs.Seen.{square};
ghost use Rattle.laws.specs.Bounds.{Below};
ghost use Rattle.laws.specs.Scatter.{scatter};
ghost use Rattle.coarse_matrix.specs.Galerkin.{weights_of, Room, Put, scaled, product_puts, weight_puts, weighed_puts, RowAdded, RowsAdded};

use crate::smoothed::SmoothedMatrix;
use averaging::average;
use csr32::CompressedRows;

// A value times the weights of transfer row `row`, into the sums. A column without the token gets it, a place in the list of touched
// columns and a zero first. Returns how many are touched.
fn add_products(
    m: &SmoothedMatrix<'_>,
    row: usize,
    value: f64,
    token: u32,
    count: usize,
    stamps: &mut [u32],
    touched: &mut [u32],
    sums: &mut [f64],
) -> usize
    requires row { row < m.now.a.rows }
    requires long { (length stamps.old ≡ m.now.transfer.cols) × (length touched.old ≡ m.now.transfer.cols) × (length sums.old ≡ m.now.transfer.cols) }
    requires room { Room token stamps.old count }
    ensures { Put m.now.transfer.cols token stamps.old touched.old sums.old count stamps.new touched.new sums.new result (scaled value (weights_of m.now.transfer row)) }
{
    let (columns, weights) = m.weights(row);
    let mut n = count;
    for (column, weight) in columns.iter().zip(weights) {
        let k = *column as usize;
        if stamps[k] != token {
            stamps[k] = token;
            touched[n] = k as u32;
            sums[k] = 0.0;
            n += 1;
        }
        sums[k] += value * *weight;
    }
    n
}

// Row r of A P, into the sums.
fn add_row(
    m: &SmoothedMatrix<'_>,
    r: usize,
    token: u32,
    stamps: &mut [u32],
    touched: &mut [u32],
    sums: &mut [f64],
) -> usize
    requires long { (length stamps.old ≡ m.now.transfer.cols) × (length touched.old ≡ m.now.transfer.cols) × (length sums.old ≡ m.now.transfer.cols) }
    requires room { Room token stamps.old 0 }
    ensures { let t = m.now.transfer in
        Put t.cols token stamps.old touched.old sums.old 0 stamps.new touched.new sums.new result (product_puts (weights_of t) (entries_of (square m.now.a) r)) }
{
    let (columns, values) = m.a.row(r);
    let mut count = 0;
    for (column, value) in columns.iter().zip(values) {
        let row = *column as usize;
        count = add_products(m, row, *value, token, count, stamps, touched, sums);
    }
    count
}

// A weight times the sums of the touched columns, added into the row of the coarse matrix that begins at dst.
fn weigh(touched: &[u32], sums: &[f64], weight: f64, dst: usize, coarse: &mut [f64])
    requires below { Below (length sums.now) touched.now }
    requires room { dst + length sums.now ≤ length coarse.old }
    ensures { coarse.new ≡ scatter (weight_puts sums.now dst weight touched.now) coarse.old }
{
    for k in touched {
        let k = *k as usize;
        coarse[dst + k] += weight * sums[k];
    }
}

// The same for each weight of transfer row r.
fn weigh_row(
    transfer: &CompressedRows<'_>,
    r: usize,
    touched: &[u32],
    sums: &[f64],
    coarse: &mut [f64],
)
    requires long { (length sums.now ≡ transfer.now.cols) × (length coarse.old ≡ transfer.now.cols * transfer.now.cols) }
    requires below { Below (length sums.now) touched.now }
    ensures { coarse.new ≡ scatter (weighed_puts transfer.now.cols sums.now touched.now (weights_of transfer.now r)) coarse.old }
{
    let (rows, weights) = transfer.row(r);
    for (row, weight) in rows.iter().zip(weights) {
        let base = *row as usize * transfer.cols;
        weigh(touched, sums, *weight, base, coarse);
    }
}

// Row r of the matrix, into the coarse matrix. The row's token is r + 1, and no stamp is above r.
fn add_to_coarse(
    m: &SmoothedMatrix<'_>,
    r: usize,
    stamps: &mut [u32],
    touched: &mut [u32],
    sums: &mut [f64],
    coarse: &mut [f64],
)
    requires row { r < m.now.a.rows }
    requires long { (length stamps.old ≡ m.now.transfer.cols) × (length touched.old ≡ m.now.transfer.cols) × (length sums.old ≡ m.now.transfer.cols)
        × (length coarse.old ≡ m.now.transfer.cols * m.now.transfer.cols) }
    requires by_index { Below (suc r) stamps.old }
    ensures { let t = m.now.transfer in
        RowAdded (square m.now.a) (weights_of t) t.cols r stamps.new coarse.old coarse.new }
{
    let token = r + 1;
    let count = add_row(m, r, token as u32, stamps, touched, sums);
    weigh_row(&m.transfer, r, &touched[..count], sums, coarse);
}

// All rows, one after the other, into lists of zeros.
fn add_all(
    m: &SmoothedMatrix<'_>,
    stamps: &mut [u32],
    touched: &mut [u32],
    sums: &mut [f64],
    coarse: &mut [f64],
)
    requires long { (length stamps.old ≡ m.now.transfer.cols) × (length touched.old ≡ m.now.transfer.cols) × (length sums.old ≡ m.now.transfer.cols) }
    requires cleared { (stamps.old ≡ replicate (length stamps.old) 0) × (coarse.old ≡ replicate (m.now.transfer.cols * m.now.transfer.cols) zeroᶠ) }
    ensures { let t = m.now.transfer in
        RowsAdded (square m.now.a) (weights_of t) t.cols m.now.a.rows stamps.new coarse.new }
{
    for r in 0..m.a.rows {
        add_to_coarse(m, r, stamps, touched, sums, coarse);
    }
}

// The coarse matrix, averaged, with zeros after it; the integers are left zero.
pub(crate) fn galerkin_into(m: &SmoothedMatrix<'_>, ints: &mut [u32], floats: &mut [f64])
    requires { (2 * m.now.transfer.cols ≤ length ints.old) × (m.now.transfer.cols * m.now.transfer.cols + m.now.transfer.cols ≤ length floats.old) }
    ensures { let t = m.now.transfer in
        (ints.new ≡ replicate (length ints.old) 0)
        × (floats.new ≡ padded zeroᶠ (length floats.old) (averaged_square t.cols (square_of t.cols (galerkin_entry (square m.now.a) (weights_of t))))) }
{
    let c = m.transfer.cols;
    ints.fill(0);
    floats.fill(0.0);
    let (stamps, behind) = ints.split_at_mut(c);
    let (coarse, sums) = floats.split_at_mut(c * c);
    add_all(m, stamps, &mut behind[..c], &mut sums[..c], coarse);
    let _ = average(c, floats);
    ints.fill(0);
}
