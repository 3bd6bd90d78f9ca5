// Reading the recorded text. A line is a word, then numbers with a blank before each.
ghost use Rattle.std.specs.Prelude.{◌<◌, length, IfSome};

use crate::agreement::Recorded;
use arrayvec::{ArrayVec, CapacityError};
use csr32::Csr;

// A case is not answered as recorded. A text that is not what a case asks for differs too.
#[derive(Clone, Copy)]
pub struct Differs;

// A line has more numbers than its list holds.
impl<T: Drop> From<CapacityError<T>> for Differs {
    fn from(_: CapacityError<T>) -> Differs {
        Differs
    }
}

// What a line holds. The lists stand on the stack, since the program allocates nothing.
pub type Numbers<T> = ArrayVec<T, 512>;

// Numbers are decimal, and the patterns of floats hexadecimal, in capitals.
#[derive(Clone, Copy)]
pub enum Base {
    Decimal,
    Hexadecimal,
}

impl Base {
    fn radix(self) -> u64 {
        match self {
            Base::Decimal => 10,
            Base::Hexadecimal => 16,
        }
    }
}

// The first line, with the line feed that ends it, and what stands behind it.
pub(crate) fn split_line(text: &[u8]) -> Option<(&[u8], &[u8])>
    ensures { IfSome result (λ parts. length parts.1.now < length text.now) }
{
    if text.is_empty() {
        return None;
    }
    match text.iter().position(|&b| b == b'\n') {
        Some(end) => Some(text.split_at(end + 1)),
        None => Some((text, &[])),
    }
}

// What a digit counts, below 16. Capitals alone: the library's `to_digit` takes small letters too.
fn digit(b: u8) -> Option<u64>
    ensures { IfSome result (λ d. d < 16) }
{
    match b {
        b'0'..=b'9' => Some(u64::from(b - b'0')),
        b'A'..=b'F' => Some(u64::from(b - b'A') + 10),
        _ => None,
    }
}

// The number that these digits write. A value from 2^60 on takes no more of them, which the library's `from_str_radix` would.
fn number(digits: &[u8], base: Base) -> Option<u64> {
    let radix = base.radix();
    if digits.is_empty() {
        return None;
    }
    let mut value: u64 = 0;
    for &b in digits {
        let d = digit(b)?;
        if d >= radix || value >= 0x1000_0000_0000_0000 {
            return None;
        }
        value = value.checked_mul(radix)?.checked_add(d)?;
    }
    Some(value)
}

// The lines of a case that are left.
#[derive(Clone, Copy)]
pub struct Lines<'a> {
    pub rest: &'a [u8],
}

impl<'a> Lines<'a> {
    // The next line.
    pub(crate) fn line(&mut self) -> Result<&'a [u8], Differs> {
        let (line, rest) = split_line(self.rest).ok_or(Differs)?;
        self.rest = rest;
        line.strip_suffix(b"\n").ok_or(Differs)
    }

    // What the next line holds, which begins with this word: N elements at most. Room for more than a line can hold would have to be made anew for each line.
    pub(crate) fn list<T: Recorded, const N: usize>(
        &mut self,
        word: &[u8],
        base: Base,
    ) -> Result<ArrayVec<T, N>, Differs> {
        let mut fields = self.line()?.split(|&b| b == b' ');
        agree(fields.next() == Some(word))?;
        let mut list = ArrayVec::new();
        for field in fields {
            let n = number(field, base).ok_or(Differs)?;
            list.try_push(T::read(n).ok_or(Differs)?)?;
        }
        Ok(list)
    }

    // The numbers of the next line.
    pub(crate) fn numbers(&mut self, word: &[u8], base: Base) -> Result<Numbers<u64>, Differs> {
        self.list(word, base)
    }

    // The one number of the next line.
    pub(crate) fn one(&mut self, word: &[u8], base: Base) -> Result<u64, Differs> {
        match self.list::<u64, 1>(word, base)?.as_slice() {
            [n] => Ok(*n),
            _ => Err(Differs),
        }
    }

    // The next line's numbers as indices.
    pub(crate) fn ints(&mut self, word: &[u8]) -> Result<Numbers<u32>, Differs> {
        self.list(word, Base::Decimal)
    }

    // The next line's numbers as floats, by their patterns.
    pub(crate) fn floats(&mut self, word: &[u8]) -> Result<Numbers<f64>, Differs> {
        self.list(word, Base::Hexadecimal)
    }

    // The case ends here.
    pub(crate) fn end(&mut self) -> Result<(), Differs> {
        agree(self.line()? == b"end".as_slice())
    }
}

pub(crate) fn agree(alike: bool) -> Result<(), Differs> {
    if alike { Ok(()) } else { Err(Differs) }
}

// What the lists of a matrix are.
#[derive(Drop)]
pub struct Matrix {
    pub rows: usize,
    pub cols: usize,
    pub row_ptr: Numbers<u32>,
    pub col_idx: Numbers<u32>,
    pub values: Numbers<f64>,
}

impl Matrix {
    pub(crate) fn csr(&self) -> Csr<'_> {
        Csr {
            rows: self.rows,
            cols: self.cols,
            row_ptr: &self.row_ptr,
            col_idx: &self.col_idx,
            values: &self.values,
        }
    }

    pub(crate) fn read(lines: &mut Lines<'_>) -> Result<Matrix, Differs> {
        let sizes = lines.list::<u64, 2>(b"matrix", Base::Decimal)?;
        let [rows, cols] = sizes.as_slice() else {
            return Err(Differs);
        };
        Ok(Matrix {
            rows: *rows as usize,
            cols: *cols as usize,
            row_ptr: lines.ints(b"row_ptr")?,
            col_idx: lines.ints(b"col_idx")?,
            values: lines.floats(b"values")?,
        })
    }
}
