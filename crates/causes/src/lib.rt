// What the table of causes (docs/SPECIFICATION.md, section 2) tells of a cause of refusal: its number, what is returned with it, and what it leaves in the lists lent for writing.
#![tactic(auto)]

ghost use Rattle.std.specs.Prelude.{◌≡◌};
ghost use Rattle.definitions.specs.Numbers.{zeroᶠ};
ghost use Rattle.definitions.specs.Refusal.{number_of, refused, keeps_all, result_left};
ghost use Rattle.definitions.specs.Answers.{answer_number};
ghost use Rattle.causes.specs.Told.{told_of};

use definitions::Refusal;

// A cause's number, and the first and second value returned with it, 0 where there is none.
#[derive(Clone, Copy)]
pub struct Row {
    pub number: u64,
    pub first: u64,
    pub second: u64,
}

impl Row {
    fn new(number: u64, first: u64, second: u64) -> Row
        ensures { result ≡ record { number = number; first = first; second = second } }
    {
        Row {
            number,
            first,
            second,
        }
    }
}

#[tactic(auto, unfolding(crate::specs::Told::told_of, definitions::specs::Refusal::number_of, definitions::specs::Refusal::values_of, definitions::specs::Refusal::cause_of))]
pub fn told(cause: Refusal) -> Row
    ensures { result ≡ told_of cause }
{
    match cause {
        Refusal::TooLarge => Row::new(1, 0, 0),
        Refusal::RowListLength => Row::new(2, 0, 0),
        Refusal::ColumnListLength => Row::new(3, 0, 0),
        Refusal::FirstPointer => Row::new(4, 0, 0),
        Refusal::LastPointer => Row::new(5, 0, 0),
        Refusal::PointerFalls => Row::new(6, 0, 0),
        Refusal::ColumnOutside => Row::new(7, 0, 0),
        Refusal::ValueNotFinite => Row::new(8, 0, 0),
        Refusal::NotSquare => Row::new(9, 0, 0),
        Refusal::BlockSize => Row::new(10, 0, 0),
        Refusal::GroupSize => Row::new(11, 0, 0),
        Refusal::NotMultiple => Row::new(12, 0, 0),
        Refusal::ListTooShort => Row::new(13, 0, 0),
        Refusal::BlockNotSymmetric(x) => Row::new(14, x, 0),
        Refusal::BlockPivot(x) => Row::new(15, x, 0),
        Refusal::NoNode => Row::new(16, 0, 0),
        Refusal::CoarseTooLarge(x) => Row::new(17, x, 0),
        Refusal::CoarseListTooShort(x) => Row::new(18, x, 0),
        Refusal::MissingDiagonal(x) => Row::new(19, x, 0),
        Refusal::ZeroDiagonal(x) => Row::new(20, x, 0),
        Refusal::NegativeDiagonal(x) => Row::new(21, x, 0),
        Refusal::EstimateFailed(x) => Row::new(22, x, 0),
        Refusal::CoarseScale => Row::new(23, 0, 0),
        Refusal::CoarsePivot(x) => Row::new(24, x, 0),
        Refusal::WrongLength { expected, actual } => Row::new(25, expected, actual),
        Refusal::SetupMisfit => Row::new(26, 0, 0),
        Refusal::NeighbourOffsets => Row::new(27, 0, 0),
        Refusal::NeighbourOutside => Row::new(28, 0, 0),
        Refusal::LogTooShort => Row::new(29, 0, 0),
    }
}

#[tactic(auto, unfolding(crate::specs::Told::told_of))]
pub fn number_of(cause: Refusal) -> u64
    ensures { result ≡ number_of cause }
{
    told(cause).number
}

// The number of an answer: 0, or that of the cause.
#[tactic(auto, unfolding(definitions::specs::Answers::answer_number))]
pub fn answer_number<T: Drop>(answer: Result<T, Refusal>) -> u64
    ensures { result ≡ answer_number answer }
{
    match answer {
        Ok(_) => 0,
        Err(cause) => number_of(cause),
    }
}

// Whether a call that this cause refuses leaves every list as it was: all causes but 14 to 24.
#[tactic(auto, using(std::proofs::lemmas::Bool::Decides::nat_tests, crate::proofs::Left::keeps_by_number))]
pub fn keeps_all(cause: Refusal) -> bool
    ensures { result ≡ keeps_all cause }
{
    !(14..=24).contains(&number_of(cause))
}

// What a refused call leaves in a list lent for writing: what it held, or zeros.
#[tactic(auto, unfolding(definitions::specs::Refusal::result_left))]
pub fn leave<T: Copy>(cause: Refusal, zero: T, list: &mut [T])
    ensures { list.new ≡ result_left zero (refused cause) list.old }
{
    if !keeps_all(cause) {
        numbers::fill(list, zero);
    }
}
