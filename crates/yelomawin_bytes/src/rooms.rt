// Rooms stand for byte lists while a call is made: inputs are read into theirs, results handed out of theirs, and what was used is cleared.
ghost use Rattle.std.specs.Prelude.{◌≡◌, ◌≤◌, ◌/◌, true, length, take};
ghost use Rattle.byte_lists.specs.Bytes.{ints_of, floats_of};
ghost use Rattle.definitions.specs.Numbers.{zeroᶠ};
ghost use Rattle.yelomawin_bytes.specs.Calls.{reads, emptied};
ghost use Rattle.yelomawin_bytes.specs.Handed.{Read, leaves_all, Handed};

use byte_lists::{Element, zero};

#[tactic(auto, using(crate::proofs::Reading::read_in))]
pub(crate) fn read<T: Element>(bytes: &[u8], room: &mut [T])
    requires { reads T.BYTES bytes.now room.old ≡ true }
    ensures { Read T.BYTES T.list_of bytes.now room.old room.new }
{
    byte_lists::read(bytes, room);
}

// The part of a room that an input's bytes fill.
pub(crate) fn filled<'a, T: Element>(bytes: &[u8], room: &'a [T]) -> &'a [T]
    requires { length bytes.now / T.BYTES ≤ length room.now }
    ensures { result.now ≡ take (length bytes.now / T.BYTES) room.now }
{
    &room[..bytes.len() / T::BYTES]
}

pub(crate) fn read_matrix(
    row_ptr: &[u8],
    col_idx: &[u8],
    values: &[u8],
    row_room: &mut [u32],
    col_room: &mut [u32],
    value_room: &mut [f64],
)
    requires row_room_fits { reads 4 row_ptr.now row_room.old ≡ true }
    requires col_room_fits { reads 4 col_idx.now col_room.old ≡ true }
    requires value_room_fits { reads 8 values.now value_room.old ≡ true }
    ensures row_room_read { Read 4 ints_of row_ptr.now row_room.old row_room.new }
    ensures col_room_read { Read 4 ints_of col_idx.now col_room.old col_room.new }
    ensures value_room_read { Read 8 floats_of values.now value_room.old value_room.new }
{
    read(row_ptr, row_room);
    read(col_idx, col_room);
    read(values, value_room);
}

pub(crate) fn clear_matrix(row_room: &mut [u32], col_room: &mut [u32], value_room: &mut [f64])
    ensures row_room_after { row_room.new ≡ emptied 0 row_room.old }
    ensures col_room_after { col_room.new ≡ emptied 0 col_room.old }
    ensures value_room_after { value_room.new ≡ emptied zeroᶠ value_room.old }
{
    zero(row_room);
    zero(col_room);
    zero(value_room);
}

// Whether the call with this number leaves every list as it was.
#[tactic(auto, unfolding(crate::specs::Handed::leaves_all))]
pub(crate) fn leaves_all(number: u64) -> bool
    ensures { result ≡ leaves_all number }
{
    1 <= number && (number <= 13 || 25 <= number)
}

// Hands a result out of its room into its bytes; where `kept`, the call has left both as they were. An answer is never kept.
pub(crate) fn hand<T: Element>(kept: bool, room: &mut [T], bytes: &mut [u8])
    ensures { Handed T.BYTES T.ZERO T.bytes_of kept room.old bytes.old room.new bytes.new }
{
    if kept {
        return;
    }
    byte_lists::write(room, bytes);
    zero(room);
}
