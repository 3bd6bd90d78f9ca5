// The groups of a matrix's rows, as coarse columns.
ghost use Rattle.laws.specs.Bounds.{Grouped};

// The group of each node of `size` rows, and how many coarse columns the groups have.
#[derive(Clone, Copy)]
pub struct Groups<'a> {
    pub rows: usize,
    pub size: usize,
    pub ids: &'a [u32],
    pub coarse: usize,
    pub ghost grouped: { Grouped size ids.now rows coarse },
}
