// Two blocks of one width, factored side by side: the steps of one root wait for one another, those of two roots do not.
ghost use Rattle.std.specs.Prelude.{◌≡◌, IfSome};
ghost use Rattle.block_factor.specs.Dense.{dense};
ghost use Rattle.block_factor.specs.Factored.{FactorOf, FactorRows};

use super::cholesky::{fill_row, rest};
use super::dense::Block;
use super::symmetry::{skewed, top};

// Row after row of both, until one has a bad pivot.
fn pair_rows(
    a: &Block,
    b: &Block,
    s: f64,
    t: f64,
    table: &root::StartTable,
) -> Option<(Block, Block)>
    requires { b.now.size ≡ a.now.size }
    ensures { IfSome result (λ both. FactorRows a.now.size a.now.a s both.0.a × FactorRows b.now.size b.now.a t both.1.a) }
{
    let mut l = Block::blank(a.size);
    let mut m = Block::blank(a.size);
    for i in 0..a.size {
        fill_row(a, &mut l, i);
        fill_row(b, &mut m, i);
        let p = rest(a, &l, i, i);
        let q = rest(b, &m, i, i);
        if !numbers::above(s, p) {
            return None;
        }
        if !numbers::above(t, q) {
            return None;
        }
        let x = root::root_by(table, p);
        let y = root::root_by(table, q);
        l.put(i, i, x);
        m.put(i, i, y);
    }
    Some((l, m))
}

// The factors of two blocks of one width, if both have one; otherwise each is to be tried alone.
pub(crate) fn factor_pair(b: Block, c: Block, table: &root::StartTable) -> Option<(Block, Block)>
    requires { c.size ≡ b.size }
    ensures { IfSome result (λ both. FactorOf b.size (dense b.size b.a) both.0.a × FactorOf c.size (dense c.size c.a) both.1.a) }
{
    let s = top(&b);
    let t = top(&c);
    if skewed(&b, 1e-11 * s) {
        return None;
    }
    if skewed(&c, 1e-11 * t) {
        return None;
    }
    pair_rows(&b, &c, 1e-14 * s, 1e-14 * t, table)
}
