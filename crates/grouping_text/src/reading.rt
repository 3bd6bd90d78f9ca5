// Reading decimal numbers with white space between them, byte by byte. Numbers stop growing at the largest u32.
ghost use Rattle.std.specs.Prelude.{◌≡◌};
ghost use Rattle.definitions.specs.Text.{is_blank};
ghost use Rattle.grouping_text.specs.Feeding.{held, closed, byte_in};

use crate::Reader;

#[tactic(auto, unfolding(definitions::specs::Text::is_blank))]
fn blank(b: u8) -> bool
    ensures { result ≡ is_blank b }
{
    matches!(b, b' ' | b'\t' | b'\n' | b'\r')
}

// Puts the number that is being read, if there is one, into the list, as far as there is room.
#[tactic(auto, unfolding(crate::specs::Feeding::closed))]
pub(crate) fn close(reader: Reader, numbers: &mut [u32]) -> Reader
    ensures { held result numbers.new ≡ closed (held reader numbers.old) }
{
    let Some(value) = reader.value else {
        return reader;
    };
    let room = numbers.len();
    if reader.count < room {
        numbers[reader.count] = value;
    }
    Reader {
        value: None,
        count: reader.count.saturating_add(1).min(room),
        ..reader
    }
}

// One byte of the text.
#[tactic(auto, unfolding(crate::specs::Feeding::byte_in, crate::specs::Feeding::grown, crate::specs::Feeding::spoilt, crate::specs::Numbers::cap, definitions::specs::Text::is_digit))]
pub(crate) fn byte_in(reader: Reader, b: u8, numbers: &mut [u32]) -> Reader
    ensures { held result numbers.new ≡ byte_in b (held reader numbers.old) }
{
    if !reader.good {
        return reader;
    }
    if b.is_ascii_digit() {
        let so_far = reader.value.unwrap_or(0);
        let value = so_far
            .saturating_mul(10)
            .saturating_add(u32::from(b - b'0'));
        return Reader {
            value: Some(value),
            ..reader
        };
    }
    if blank(b) {
        return close(reader, numbers);
    }
    Reader {
        good: false,
        value: None,
        ..reader
    }
}
