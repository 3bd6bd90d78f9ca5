// The transfer row by row.
ghost use Rattle.std.specs.Prelude.{◌≡◌, ◌+◌, ◌≤◌, length};
ghost use Rattle.definitions.specs.Lists.{keep};
ghost use Rattle.definitions.specs.Transfer.{transfer_of};
ghost use Rattle.csr32.specs.Seen.{square};
ghost use Rattle.laws.specs.Bounds.{Below};
ghost use Rattle.transfer.specs.Weights.{counts, Stored, Built};

use crate::smoothing::Smoothing;
use crate::weights::weigh;

// Those of the columns t whose weight is not zero, and these weights, behind the first `at` of two lists; returns how many there are then.
fn store(t: &[u32], w: &[f64], at: usize, columns: &mut [u32], weights: &mut [f64]) -> usize
    requires below { Below (length w.now) t.now }
    requires room { (at + length (keep (counts w.now) t.now) ≤ length columns.old) × (at + length (keep (counts w.now) t.now) ≤ length weights.old) }
    ensures { Stored t.now w.now at columns.old columns.new weights.old weights.new result }
{
    let mut end = at;
    for j in t {
        let weight = w[*j as usize];
        if weight != 0.0 {
            columns[end] = *j;
            weights[end] = weight;
            end += 1;
        }
    }
    end
}

// All rows: where each begins, their columns and their weights; t and w are room for one row. Returns how many weights there are.
pub(crate) fn build(
    s: &Smoothing<'_>,
    pointers: &mut [u32],
    columns: &mut [u32],
    weights: &mut [f64],
    t: &mut [u32],
    w: &mut [f64],
) -> usize
    requires long { (length t.old ≡ s.now.groups.coarse) × (length w.old ≡ s.now.groups.coarse) }
    requires room { (length pointers.old ≡ s.now.a.rows + 1)
        × (length columns.old ≡ s.now.a.rows + length s.now.a.values.now)
        × (length weights.old ≡ s.now.a.rows + length s.now.a.values.now) }
    ensures { Built (transfer_of (square s.now.a) s.now.diagonal.now s.now.damping s.now.groups.size s.now.groups.ids.now s.now.groups.coarse) pointers.new columns.new weights.new result }
{
    pointers[0] = 0;
    let mut at: usize = 0;
    for i in 0..s.a.rows {
        let n = weigh(s, i, t, w);
        at = store(&t[..n], w, at, columns, weights);
        pointers[i + 1] = at as u32;
    }
    at
}
