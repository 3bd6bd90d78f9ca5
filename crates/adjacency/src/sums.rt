// Sums of squares towards nodes. The list of sums holds the sum towards node w at w.
ghost use Rattle.std.specs.Prelude.{◌≡◌, length};
ghost use Rattle.definitions.specs.Numbers.{total};
ghost use Rattle.laws.specs.Bounds.{Below};
ghost use Rattle.adjacency.specs.Collect.{paired};
ghost use Rattle.adjacency.specs.Strengths.{cleared, weighed, squares_in};

use super::entries::Entries;

// Sets the sums of the listed nodes to zero.
pub(crate) fn clear(list: &[u32], sums: &mut [f64])
    requires { Below (length sums.old) list.now }
    ensures { sums.new ≡ cleared list.now sums.old }
{
    for w in list {
        sums[*w as usize] = 0.0;
    }
}

// Adds the squares of the values to the sums of the nodes that they stand towards.
pub(crate) fn weigh(e: &Entries<'_>, sums: &mut [f64])
    requires { length sums.old ≡ e.now.nodes }
    ensures { sums.new ≡ weighed e.now.size (paired e.now.col_idx.now e.now.values.now) sums.old }
{
    for (column, x) in e.col_idx.iter().zip(e.values) {
        sums[e.node_of(*column)] += *x * *x;
    }
}

// The sum of the squares of those values that stand towards node v.
pub(crate) fn own(e: &Entries<'_>, v: usize) -> f64
    ensures { result ≡ total (squares_in e.now.size v (paired e.now.col_idx.now e.now.values.now)) }
{
    let mut sum = 0.0;
    for (column, x) in e.col_idx.iter().zip(e.values) {
        if e.node_of(*column) == v {
            sum += *x * *x;
        }
    }
    sum
}
