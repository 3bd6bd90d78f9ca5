// The grouping program, from the bytes of its input to those of its output.
#![tactic(auto)]

ghost use Rattle.std.specs.Prelude.{◌≡◌, min, length};
ghost use Rattle.definitions.specs.Text.{program, printed};
ghost use Rattle.numbers.specs.Copied.{copied};
ghost use Rattle.grouping_text.specs.Numbers.{asked_in, answered};
ghost use Rattle.grouping_text.specs.Feeding.{fresh, held, closed, fed, said};
ghost use Rattle.grouping_text.specs.Puts.{Puts};

mod answers;
mod lists;
mod printing;
mod reading;
mod whole;

use definitions::{MAX_TEXT_NEIGHBOURS, MAX_TEXT_NODES};

// How far a text was read: no byte met yet that is neither digit nor blank; the number that is being read, so far; how many numbers.
#[derive(Clone, Copy)]
pub struct Reader {
    pub good: bool,
    pub value: Option<u32>,
    pub count: usize,
}

// Lists that were read: how many neighbours, and the numbers behind them.
#[derive(Clone, Copy)]
pub struct Got<'a> {
    pub count: usize,
    pub rest: &'a [u32],
}

// A text that was read whole: nodes, size and how many neighbours.
#[derive(Clone, Copy)]
pub struct Asking {
    pub nodes: usize,
    pub size: usize,
    pub count: usize,
}

// Room for every number that reading looks at: nodes and size, a count for each of 256 nodes, 2,048 neighbours, and one too many.
pub const ROOM: usize = 2307;

// A text is read piece by piece: `start`, `feed` for each piece, `finish`, all with the same list. With ROOM numbers in it every text is
// answered as `program` says, however long and wherever it is cut (`pieces_program`, proofs/Pieces.antt).
pub fn start() -> Reader
    ensures { result ≡ fresh }
{
    Reader {
        good: true,
        value: None,
        count: 0,
    }
}

// The next piece of the text.
#[tactic(auto, unfolding(crate::specs::Feeding::fed))]
pub fn feed(reader: Reader, piece: &[u8], numbers: &mut [u32]) -> Reader
    ensures { held result numbers.new ≡ fed piece.now (held reader numbers.old) }
{
    let mut last = reader;
    for &b in piece {
        last = reading::byte_in(last, b, numbers);
    }
    last
}

// Prints what the numbers of a text ask.
fn say(numbers: &[u32], whole: bool, out: &mut [u8]) -> usize
    ensures { Puts out.old 0 (printed (answered (asked_in numbers.now whole))) out.new result }
{
    let mut offsets = [0u32; MAX_TEXT_NODES + 1];
    let mut neighbours = [0u32; MAX_TEXT_NEIGHBOURS];
    match whole::ask(numbers, whole, &mut offsets, &mut neighbours) {
        Ok(asked) => answers::answer(
            asked.nodes,
            asked.size,
            &offsets[..asked.nodes + 1],
            &neighbours[..asked.count],
            out,
        ),
        Err(cause) => printing::put_head(out, b"refused", causes::number_of(cause)),
    }
}

// The text has ended: prints into `out`, as far as it goes, and returns how many bytes. 2,059 bytes hold every answer.
pub fn finish(reader: Reader, numbers: &mut [u32], out: &mut [u8]) -> usize
    ensures value { result ≡ min (length (said (held reader numbers.old))) (length out.old) }
    ensures out_after { out.new ≡ copied (said (held reader numbers.old)) out.old }
    ensures numbers_after { numbers.new ≡ (closed (held reader numbers.old)).numbers }
{
    let last = reading::close(reader, numbers);
    let end = last.count.min(numbers.len());
    say(&numbers[..end], last.good, out)
}

// The grouping program's text in one piece.
pub fn grouping_text(text: &[u8], out: &mut [u8]) -> usize
    ensures value { result ≡ min (length (program text.now)) (length out.old) }
    ensures out_after { out.new ≡ copied (program text.now) out.old }
{
    let mut numbers = [0u32; ROOM];
    let all = feed(start(), text, &mut numbers);
    finish(all, &mut numbers, out)
}
