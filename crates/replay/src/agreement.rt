// Whether an answer is the recorded one.
use crate::reading::{Base, Differs, Lines, agree};
use definitions::Refusal;

// Whether these are the values that the Rust tells with a refusal: it tells no row with 14, 15, 21 and 24, and does not know 1, 13, 17, 18 and
// 26 to 29.
fn told_with(cause: Refusal, values: &[u64]) -> bool {
    match cause {
        Refusal::MissingDiagonal(value)
        | Refusal::ZeroDiagonal(value)
        | Refusal::EstimateFailed(value) => values == [value].as_slice(),
        Refusal::WrongLength { expected, actual } => values == [expected, actual].as_slice(),
        _ => values.is_empty(),
    }
}

// The recorded answer, and the case with it, is this refusal.
pub(crate) fn refused(mut lines: Lines<'_>, cause: Refusal) -> Result<(), Differs> {
    let recorded = lines.list::<u64, 3>(b"refused", Base::Decimal)?;
    let Some((number, values)) = recorded.as_slice().split_first() else {
        return Err(Differs);
    };
    agree(*number == causes::number_of(cause) && told_with(cause, values))?;
    lines.end()
}

// What the text records of a number, and the number of what it records: an index as it stands, a float by its pattern.
pub trait Recorded: Copy + Default {
    fn recorded(self) -> u64;

    fn read(n: u64) -> Option<Self>;
}

impl Recorded for u64 {
    fn recorded(self) -> u64 {
        self
    }

    fn read(n: u64) -> Option<u64> {
        Some(n)
    }
}

impl Recorded for u32 {
    fn recorded(self) -> u64 {
        u64::from(self)
    }

    fn read(n: u64) -> Option<u32> {
        u32::try_from(n).ok()
    }
}

impl Recorded for f64 {
    fn recorded(self) -> u64 {
        float_bits::bits_of(self)
    }

    fn read(n: u64) -> Option<f64> {
        Some(float_bits::of_bits(n))
    }
}

// Our list is the recorded one, bit for bit, NaNs alike, with zeros behind.
pub(crate) fn same<T: Recorded>(recorded: &[u64], ours: &[T]) -> Result<(), Differs> {
    let Some((front, behind)) = ours.split_at_checked(recorded.len()) else {
        return Err(Differs);
    };
    for (expected, x) in recorded.iter().zip(front) {
        agree(x.recorded() == *expected)?;
    }
    for x in behind {
        agree(x.recorded() == 0)?;
    }
    Ok(())
}

// How long a list is without the zeros at its end. A factor and an inverse end in a positive number.
pub(crate) fn filled(ours: &[f64]) -> usize {
    let last = ours.iter().rposition(|&x| float_bits::bits_of(x) != 0);
    last.map_or(0, |i| i + 1)
}

// The next line has these floats, `count` of them and zeros behind.
pub(crate) fn floats_alike(
    lines: &mut Lines<'_>,
    word: &[u8],
    count: usize,
    ours: &[f64],
) -> Result<(), Differs> {
    let recorded = lines.numbers(word, Base::Hexadecimal)?;
    agree(recorded.len() == count)?;
    same(&recorded, ours)
}

// The recorded answer, and the case with it, is this list of so many floats, with zeros behind.
pub(crate) fn result(
    mut lines: Lines<'_>,
    word: &[u8],
    count: usize,
    ours: &[f64],
) -> Result<(), Differs> {
    floats_alike(&mut lines, word, count, ours)?;
    lines.end()
}

// The next line has this one number.
pub(crate) fn one(
    lines: &mut Lines<'_>,
    word: &[u8],
    base: Base,
    ours: u64,
) -> Result<(), Differs> {
    agree(lines.one(word, base)? == ours)
}
