// A line of text as it grows.
ghost use Rattle.std.specs.Prelude.{◌≡◌, []};
ghost use Rattle.replay_text.specs.Text.{decimal};
ghost use Rattle.replay_text.specs.Line.{line_of, added};

// The most bytes of a line.
pub const ROOM: usize = 256;

// A line: its bytes, zero after its text, and how many of them are text. A rule of the project: fixed memory, no heap, so a line owns its bytes.
#[derive(Clone, Copy)]
pub struct Line {
    pub bytes: [u8; ROOM],
    pub used: usize,
}

// The empty line.
pub fn start() -> Line
    ensures { result ≡ line_of [] }
{
    Line {
        bytes: [0u8; ROOM],
        used: 0,
    }
}

// The line with a word after its text; as it was where the word does not fit.
pub fn word(line: Line, text: &[u8]) -> Line
    ensures { result ≡ added line text.now }
{
    let mut bytes = line.bytes;
    let used = line.used;
    if used > ROOM {
        return line;
    }
    if text.len() > ROOM - used {
        return line;
    }
    let end = used + text.len();
    bytes[used..end].copy_from_slice(text);
    Line {
        bytes: bytes,
        used: end,
    }
}

// The line with a number after its text, in decimal digits.
pub fn number(line: Line, x: u64) -> Line
    ensures { result ≡ added line (decimal x) }
{
    let mut text = [0u8; 20];
    let k = io::decimal(x, &mut text);
    word(line, &text[..k])
}

// The line with a word and a number after its text.
pub fn field(line: Line, name: &[u8], x: u64) -> Line
    ensures { result ≡ added (added line name.now) (decimal x) }
{
    number(word(line, name), x)
}
