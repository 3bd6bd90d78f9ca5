// Replays the recorded answers of the Rust, document 01's examples among them, and says for each kind how many cases there are and how many differ.
#![tactic(auto)]

mod agreement; // agreement.rt: whether an answer is the recorded one
mod alone; // alone.rt: the calls that stand alone
mod lists; // lists.rt: lists to lend
mod reading; // reading.rt: words and numbers of the text
mod two_level; // two_level.rt: setup and the two-level apply

ghost use Rattle.std.specs.Prelude.{◌<◌, ◌≤◌, length, take, IfOk};
ghost use Rattle.std.specs.Io.KnownBytes.{Consumes, IsAtEnd};

use reading::{Differs, Lines, split_line};
use std::io;
use std::io::Read;

// What a case asks. `Other` stands for any word that is none of these.
#[derive(Clone, Copy)]
enum Kind {
    Root,
    Group,
    Validate,
    Diagonal,
    Blocks,
    Estimate,
    TwoLevel,
    Other,
}

const KINDS: [Kind; 8] = [
    Kind::Root,
    Kind::Group,
    Kind::Validate,
    Kind::Diagonal,
    Kind::Blocks,
    Kind::Estimate,
    Kind::TwoLevel,
    Kind::Other,
];

impl Kind {
    fn word(self) -> &'static str {
        match self {
            Kind::Root => "root",
            Kind::Group => "group",
            Kind::Validate => "validate",
            Kind::Diagonal => "diagonal",
            Kind::Blocks => "blocks",
            Kind::Estimate => "estimate",
            Kind::TwoLevel => "two_level",
            Kind::Other => "other",
        }
    }

    // The kind whose word begins the name, with a blank and at least one byte more behind it.
    fn of(name: &[u8]) -> Kind {
        for kind in KINDS {
            if let Some([b' ', _, ..]) = name.strip_prefix(kind.word().as_bytes()) {
                return kind;
            }
        }
        Kind::Other
    }
}

// A case, from its second line on, is answered as recorded.
fn answered(kind: Kind, lines: Lines<'_>) -> Result<(), Differs> {
    match kind {
        Kind::Root => alone::root(lines),
        Kind::Group => alone::group(lines),
        Kind::Validate => alone::validate(lines),
        Kind::Diagonal => alone::diagonal(lines),
        Kind::Blocks => alone::blocks(lines),
        Kind::Estimate => alone::estimate(lines),
        Kind::TwoLevel => two_level::two_level(lines),
        Kind::Other => Err(Differs),
    }
}

#[derive(Clone, Copy)]
struct Tally {
    cases: u64,
    differences: u64,
}

// Counts and compares the cases of every kind, and names those that differ.
fn replay(rt: &impl Print, text: &[u8]) -> io::Result<()> {
    let mut tallies = [Tally {
        cases: 0,
        differences: 0,
    }; 8];
    let mut left = text;
    // A case reads on behind its first line, so the loop keeps what is left of the text in place of its lines.
    while let Some((line, rest)) = split_line(left) {
        left = rest;
        // a text that ends right behind the word names no case
        let Some(name @ [_, ..]) = line.strip_prefix(b"case ") else {
            continue;
        };
        let kind = Kind::of(name);
        let tally = &mut tallies[kind as usize];
        tally.cases = tally.cases.saturating_add(1);
        if answered(kind, Lines { rest }).is_err() {
            tally.differences = tally.differences.saturating_add(1);
            rt.write_all(b"differs: ")?;
            rt.write_all(name)?;
        }
    }
    for kind in KINDS {
        let tally = tallies[kind as usize];
        println!(rt;
            "{}: {} cases, {} differences",
            kind.word(),
            tally.cases,
            tally.differences
        )?;
    }
    Ok(())
}

// Reads until the list is full or the input ends, and says how many bytes.
fn read_full<R: Read>(input: &mut R, text: &mut [u8]) -> io::Result<usize>
    ensures within { IfOk result (λ n. n ≤ length text.old) }
    ensures bytes { IfOk result (λ n. Consumes (R.remaining input.old) (R.remaining input.new) (take n text.new)) }
    ensures end { IfOk result (λ n. n < length text.old → IsAtEnd (R.remaining input.new)) }
{
    let mut done: usize = 0;
    // A read gives as many bytes as it likes, and none is asked for once the list is full: no range and no list tells the turns.
    while done < text.len() {
        let n = input.read(&mut text[done..])?;
        if n == 0 {
            return Ok(done);
        }
        done += n;
    }
    Ok(done)
}

fn main(rt: HostRuntime) -> io::Result<()> {
    let mut text = [0u8; 65536];
    let n = read_full(&mut rt.reader(), &mut text)?;
    if 65536 <= n {
        return println!(rt; "the text is too long");
    }
    replay(&rt, &text[..n])
}
