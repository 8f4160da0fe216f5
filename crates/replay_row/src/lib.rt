// The line that the program `replay` prints of a device.
#![tactic(auto)]

ghost use Rattle.std.specs.Prelude.{◌≡◌, ◌+◌};
ghost use Rattle.replay_text.specs.Line.{line_of, added};
ghost use Rattle.replay_row.specs.Rows.{status_text, sign_text, row_text};

use replay_text::line::{Line, field, number, start, word};

// The line with the word of a status, as the memory numbers it, since the clause `status_text` tells numbers of no status too.
fn status_word(line: Line, status: u8) -> Line
    ensures { result ≡ added line (status_text status) }
{
    match status {
        0 => word(line, b"suspended"),
        1 => word(line, b"resuming"),
        2 => word(line, b"active"),
        3 => word(line, b"suspending"),
        _ => word(line, b"unknown"),
    }
}

// The line with the sign of a runtime error of that magnitude.
fn sign(line: Line, magnitude: u32) -> Line
    ensures { result ≡ added line (sign_text magnitude) }
{
    if magnitude == 0 {
        return word(line, b"");
    }
    word(line, b"-")
}

// The usage count: user holds, and runtime links from powered consumers.
fn usage(holds: u32, linked: u32) -> u64
    ensures { result ≡ holds + linked }
{
    u64::from(holds) + u64::from(linked)
}

// What is told of a device: its status, user holds, runtime links from powered consumers, powered children, disable depth, and the
// magnitude of its runtime error.
#[derive(Clone, Copy)]
pub struct Row {
    pub status: u8,
    pub holds: u32,
    pub linked: u32,
    pub children: u8,
    pub depth: u8,
    pub error: u32,
}

// device P status S usage U children C holds H depth D error E
pub fn device(p: u8, row: Row) -> Line
    ensures { result ≡ line_of (row_text p row) }
{
    let named = field(start(), b"device ", u64::from(p));
    let placed = status_word(word(named, b" status "), row.status);
    let used = field(placed, b" usage ", usage(row.holds, row.linked));
    let counted = field(used, b" children ", u64::from(row.children));
    let held = field(counted, b" holds ", u64::from(row.holds));
    let disabled = field(held, b" depth ", u64::from(row.depth));
    let signed = sign(word(disabled, b" error "), row.error);
    word(number(signed, u64::from(row.error)), b"\n")
}
