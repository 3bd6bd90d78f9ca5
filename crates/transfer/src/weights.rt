// A row's weights, one place for each coarse column. The entries are walked by places: with `zip` over the columns and the values of a
// row the call took 4 % longer at 27 entries a row, and 23 % at 125.
ghost use Rattle.std.specs.Prelude.{◌≡◌, ◌+◌, ◌<◌, length};
ghost use Rattle.csr32.specs.Seen.{square};
ghost use Rattle.transfer.specs.Weights.{Weighed};

use crate::smoothing::Smoothing;
use crate::touched::{find, insert};

// The columns that row i touches at the front of t, and its weights at their places in w, in one pass: each entry's column joins
// the columns, and the entry is taken off there. Returns how many columns there are.
fn weigh_touched(s: &Smoothing<'_>, i: usize, t: &mut [u32], w: &mut [f64]) -> usize
    requires i_lt_rows { i < s.now.a.rows }
    requires long { (length t.old ≡ s.now.groups.coarse) × (length w.old ≡ s.now.groups.coarse) }
    ensures { Weighed (square s.now.a) s.now.diagonal.now s.now.damping s.now.groups.size s.now.groups.ids.now s.now.groups.coarse i t.new w.new result }
{
    // A copy: behind the reference its numbers would be read anew after every store.
    let s = *s;
    let own = s.column_of(i);
    let inv = 1.0 / s.diagonal[i];
    t[0] = own as u32;
    w[own] = 1.0;
    let mut n: usize = 1;
    let mut near: usize = 0;
    let from = s.a.row_ptr[i] as usize;
    let to = s.a.row_ptr[i + 1] as usize;
    for k in from..to {
        let j = s.column_of(s.a.col_idx[k] as usize);
        let x = j as u32;
        let place = match find(&t[..n], near, x) {
            Ok(place) => place,
            Err(place) => {
                insert(t, n, place, x);
                w[j] = 0.0;
                n += 1;
                place
            }
        };
        w[j] -= s.share(k, inv);
        near = place + 1;
    }
    n
}

// The same with every column.
fn weigh_all(s: &Smoothing<'_>, i: usize, t: &mut [u32], w: &mut [f64]) -> usize
    requires i_lt_rows { i < s.now.a.rows }
    requires long { (length t.old ≡ s.now.groups.coarse) × (length w.old ≡ s.now.groups.coarse) }
    ensures { Weighed (square s.now.a) s.now.diagonal.now s.now.damping s.now.groups.size s.now.groups.ids.now s.now.groups.coarse i t.new w.new result }
{
    // A copy: behind the reference its numbers would be read anew after every store.
    let s = *s;
    let own = s.column_of(i);
    let inv = 1.0 / s.diagonal[i];
    for (column, place) in t.iter_mut().enumerate() {
        *place = column as u32;
    }
    w.fill(0.0);
    w[own] = 1.0;
    let from = s.a.row_ptr[i] as usize;
    let to = s.a.row_ptr[i + 1] as usize;
    for k in from..to {
        let j = s.column_of(s.a.col_idx[k] as usize);
        w[j] -= s.share(k, inv);
    }
    t.len()
}

// Inserting costs the square of a row's columns, a pass over all costs their number, at most 2,048: long rows take the pass.
pub(crate) fn weigh(s: &Smoothing<'_>, i: usize, t: &mut [u32], w: &mut [f64]) -> usize
    requires i_lt_rows { i < s.now.a.rows }
    requires long { (length t.old ≡ s.now.groups.coarse) × (length w.old ≡ s.now.groups.coarse) }
    ensures { Weighed (square s.now.a) s.now.diagonal.now s.now.damping s.now.groups.size s.now.groups.ids.now s.now.groups.coarse i t.new w.new result }
{
    if s.a.row_ptr[i + 1] - s.a.row_ptr[i] < 128 {
        weigh_touched(s, i, t, w)
    } else {
        weigh_all(s, i, t, w)
    }
}
