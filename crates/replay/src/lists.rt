// Lists to lend, full of numbers that must not matter.
pub(crate) const INTS: [u32; 512] = [7; 512];

pub(crate) const WORK_INTS: [u32; 2048] = [7; 2048];

pub(crate) const FLOATS: [f64; 512] = [1.5; 512];

pub(crate) const WORK_FLOATS: [f64; 1024] = [1.5; 1024];
