// Printing: bytes into the caller's list, as far as it goes. There is no heap, so the place to go on at stands beside the list.
ghost use Rattle.std.specs.Prelude.{[], ◌∷◌, ◌≤◌, length};
ghost use Rattle.definitions.specs.Text.{decimal_in, decimal, line};
ghost use Rattle.grouping_text.specs.Puts.{Puts, lines_from};

// Kept as a list and a place: the library's `Write` says what a list holds only where the whole text fits, and `finish` says it of every list.
fn put(out: &mut [u8], at: usize, b: u8) -> usize
    requires { at ≤ length out.old }
    ensures { Puts out.old at (b ∷ []) out.new result }
{
    if at < out.len() {
        out[at] = b;
        return at + 1;
    }
    at
}

// The decimal digits of n, at most `places` of them.
fn put_decimal(out: &mut [u8], at: usize, n: u64, places: u32) -> usize
    requires { at ≤ length out.old }
    ensures { Puts out.old at (decimal_in places n) out.new result }
{
    if places == 0 {
        return at;
    }
    let rest = n / 10;
    if rest == 0 {
        return put(out, at, b'0' + n as u8);
    }
    let next = put_decimal(out, at, rest, places - 1);
    put(out, next, b'0' + (n % 10) as u8)
}

fn put_all(out: &mut [u8], at: usize, bytes: &[u8]) -> usize
    requires { at ≤ length out.old }
    ensures { Puts out.old at bytes.now out.new result }
{
    let mut end = at;
    for &b in bytes {
        end = put(out, end, b);
    }
    end
}

// A word and a number.
pub(crate) fn put_head(out: &mut [u8], word: &[u8], n: u64) -> usize
    ensures { Puts out.old 0 (line word.now (decimal n)) out.new result }
{
    let first = put_all(out, 0, word);
    let second = put(out, first, b' ');
    let third = put_decimal(out, second, n, 20);
    put(out, third, b'\n')
}

// Two numbers.
fn put_line(out: &mut [u8], at: usize, v: u64, id: u64) -> usize
    requires { at ≤ length out.old }
    ensures { Puts out.old at (line (decimal v) (decimal id)) out.new result }
{
    let first = put_decimal(out, at, v, 20);
    let second = put(out, first, b' ');
    let third = put_decimal(out, second, id, 20);
    put(out, third, b'\n')
}

// Node and id, one a line.
pub(crate) fn put_ids(out: &mut [u8], at: usize, ids: &[u32]) -> usize
    requires { at ≤ length out.old }
    ensures { Puts out.old at (lines_from 0 ids.now) out.new result }
{
    let mut end = at;
    for (v, &id) in ids.iter().enumerate() {
        end = put_line(out, end, v as u64, u64::from(id));
    }
    end
}
