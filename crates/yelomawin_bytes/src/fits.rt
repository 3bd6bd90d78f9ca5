// Whether the byte lists of a call are of whole numbers and each has room, before any list is written.
ghost use Rattle.std.specs.Prelude.{◌≡◌};
ghost use Rattle.yelomawin_bytes.specs.Calls.{reads, writes, matrix_fits};

use byte_lists::{Element, readable, writable};

// Whether an input's bytes fit its room.
pub(crate) fn input<T: Element>(bytes: &[u8], room: &[T]) -> bool
    ensures { result ≡ reads T.BYTES bytes.now room.now }
{
    readable::<T>(bytes.len(), room.len())
}

// Whether a result's room fits its bytes.
pub(crate) fn output<T: Element>(room: &[T], bytes: &[u8]) -> bool
    ensures { result ≡ writes T.BYTES room.now bytes.now }
{
    writable::<T>(room.len(), bytes.len())
}

pub(crate) fn matrix(
    row_ptr: &[u8],
    col_idx: &[u8],
    values: &[u8],
    row_room: &[u32],
    col_room: &[u32],
    value_room: &[f64],
) -> bool
    ensures { result ≡ matrix_fits row_ptr.now col_idx.now values.now row_room.now col_room.now value_room.now }
{
    input(row_ptr, row_room) && input(col_idx, col_room) && input(values, value_room)
}
