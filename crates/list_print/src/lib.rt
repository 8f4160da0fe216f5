// The lines of a list of parts and links.
#![tactic(auto)]

ghost use Rattle.std.specs.Prelude.{◌≡◌};
ghost use Rattle.replay_text.specs.Line.{line_of, added};
ghost use Rattle.list_print.specs.Lines.{parent_text, part_text, link_text};

use model::NONE;
use replay_text::line::{Line, field, number, start, word};

// The line with the word of a parent.
fn parent_word(line: Line, parent: u8) -> Line
    ensures { result ≡ added line (parent_text parent) }
{
    if parent == NONE {
        return word(line, b"none");
    }
    number(line, u64::from(parent))
}

// part PARENT FLAGS
pub fn part_line(parent: u8, flags: u8) -> Line
    ensures { result ≡ line_of (part_text parent flags) }
{
    let placed = parent_word(word(start(), b"part "), parent);
    word(field(placed, b" ", u64::from(flags)), b"\n")
}

// link CONSUMER SUPPLIER FLAGS
pub fn link_line(consumer: u8, supplier: u8, flags: u8) -> Line
    ensures { result ≡ line_of (link_text consumer supplier flags) }
{
    let from = field(start(), b"link ", u64::from(consumer));
    let to = field(from, b" ", u64::from(supplier));
    word(field(to, b" ", u64::from(flags)), b"\n")
}
