// Lists of elements read from lists of bytes and written into them, little end first.
// A NaN is written as 7FF8000000000000, and any NaN's pattern is read as the NaN.
#![tactic(auto)]

ghost use Rattle.std.specs.Prelude.{◌≡◌, cond, ◌*◌, ◌<◌, ◌≤◌, length, replicate};
ghost use Rattle.definitions.specs.Lists.{tab, padded};
ghost use Rattle.byte_lists.specs.Bytes.{spelled, byte_of, readable, writable, over};

mod element;

pub use element::Element;

// The number that at most eight bytes spell.
#[tactic(auto, using(crate::proofs::Filling::spelled_of))]
fn word(bytes: &[u8]) -> u64
    requires { length bytes.now ≤ 8 }
    ensures { result ≡ spelled bytes.now }
{
    let mut whole = [0; 8];
    whole[..bytes.len()].copy_from_slice(bytes);
    u64::from_le_bytes(whole)
}

// Writes the bytes of one element.
#[tactic(auto, using(crate::proofs::Filling::low_bytes))]
fn put<T: Element>(x: T, bytes: &mut [u8])
    requires { length bytes.old ≡ T.BYTES }
    ensures { bytes.new ≡ tab (byte_of (T.code x)) T.BYTES }
{
    let code = x.code().to_le_bytes();
    bytes.copy_from_slice(&code[..T::BYTES]);
}

// Whether so many bytes are whole elements that a list has room for.
#[tactic(auto, unfolding(crate::specs::Bytes::readable))]
pub fn readable<T: Element>(bytes: usize, room: usize) -> bool
    ensures { result ≡ readable T.BYTES bytes room }
{
    let width = T::BYTES;
    bytes % width == 0 && bytes / width <= room
}

// Whether so many bytes are whole elements and have room for a list of them.
#[tactic(auto, unfolding(crate::specs::Bytes::writable))]
pub fn writable<T: Element>(list: usize, bytes: usize) -> bool
    ensures { result ≡ writable T.BYTES list bytes }
{
    let width = T::BYTES;
    bytes % width == 0 && list <= bytes / width
}

// Reads elements into the front of a list; answers whether they fit, and leaves the list as it was where they do not. There is nothing else to hand out.
pub fn read<T: Element>(bytes: &[u8], room: &mut [T]) -> bool
    ensures { let fits = readable T.BYTES (length bytes.now) (length room.old) in
        (result ≡ fits) × (room.new ≡ cond fits (over (T.list_of bytes.now) room.old) room.old) }
{
    if !readable::<T>(bytes.len(), room.len()) {
        return false;
    }
    for (k, chunk) in bytes.chunks_exact(T::BYTES).enumerate() {
        room[k] = T::from_code(word(chunk));
    }
    true
}

// Writes a list of elements into a byte list, zeros after them; answers whether it fits, and leaves the bytes as they were where it does not.
#[tactic(auto, using(crate::proofs::Filling::end_in_bytes, crate::proofs::Filling::over_none))]
pub fn write<T: Element>(list: &[T], bytes: &mut [u8]) -> bool
    ensures { let fits = writable T.BYTES (length list.now) (length bytes.old) in
        (result ≡ fits) × (bytes.new ≡ cond fits (padded 0 (length bytes.old) (T.bytes_of list.now)) bytes.old) }
{
    if !writable::<T>(list.len(), bytes.len()) {
        return false;
    }
    let width = T::BYTES;
    bytes.fill(0);
    // By ranges, since nothing is known of elements that `chunks_exact_mut` lent.
    for (k, x) in list.iter().enumerate() {
        put(*x, &mut bytes[k * width..(k + 1) * width]);
    }
    true
}

pub fn zero<T: Element>(list: &mut [T])
    ensures { list.new ≡ replicate (length list.old) T.ZERO }
{
    list.fill(T::ZERO);
}
