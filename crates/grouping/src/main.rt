// Reads nodes, size and what each node lists from standard input, piece by piece, and prints the groups.
#![tactic(auto)]

ghost use Rattle.std.specs.Prelude.{◌≡◌, ℕ, List, IfOk};
ghost use Rattle.std.specs.Io.KnownBytes.{Consumes};
ghost use Rattle.grouping_text.specs.Feeding.{fresh, held, fed};

use grouping_text::Reader;
use std::io;
use std::io::Read;

// Reads the input to its end. A proved loop has to end, and nothing says that the input does: so it counts its turns, up to a number that no
// input uses up.
fn read_all<R: Read>(input: &mut R, numbers: &mut [u32]) -> io::Result<Reader>
    ensures { IfOk result (λ reader. (text : List ℕ)
        × Consumes (R.remaining input.old) (R.remaining input.new) text
        × (held reader numbers.new ≡ fed text (held fresh numbers.old))) }
{
    let mut piece = [0u8; 65536];
    let mut reader = grouping_text::start();
    for _ in 0..u64::MAX {
        let n = input.read(&mut piece)?;
        if n == 0 {
            return Ok(reader);
        }
        reader = grouping_text::feed(reader, &piece[..n], numbers);
    }
    Ok(reader)
}

fn main(rt: HostRuntime) -> io::Result<()> {
    let mut numbers = [0u32; grouping_text::ROOM];
    let reader = read_all(&mut rt.reader(), &mut numbers)?;
    let mut out = [0u8; 2059];
    let m = grouping_text::finish(reader, &mut numbers, &mut out);
    rt.write_all(&out[..m])
}
