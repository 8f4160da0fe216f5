// What the program `write` prints of a list that it turns away.
#![tactic(auto)]

ghost use Rattle.std.specs.Prelude.{◌≡◌};
ghost use Rattle.replay_text.specs.Line.{line_of};
ghost use Rattle.list_report.specs.Lines.{refused_text, nowhere_text, large_text, wrong_text, long_text};

use replay_text::line::{Line, field, start, word};

// refused NUMBER INDEX line N
pub fn refused(number: u64, index: u64, line: u64) -> Line
    ensures { result ≡ line_of (refused_text number index line) }
{
    let numbered = field(start(), b"refused ", number);
    let indexed = field(numbered, b" ", index);
    word(field(indexed, b" line ", line), b"\n")
}

// refused NUMBER INDEX, for a fault that stands in no line
pub fn nowhere(number: u64, index: u64) -> Line
    ensures { result ≡ line_of (nowhere_text number index) }
{
    let numbered = field(start(), b"refused ", number);
    word(field(numbered, b" ", index), b"\n")
}

// line N: a number is over 255
pub fn large(line: u64) -> Line
    ensures { result ≡ line_of (large_text line) }
{
    word(field(start(), b"line ", line), b": a number is over 255\n")
}

// line N: neither a part nor a link
pub fn wrong(line: u64) -> Line
    ensures { result ≡ line_of (wrong_text line) }
{
    word(
        field(start(), b"line ", line),
        b": neither a part nor a link\n",
    )
}

// list too long
pub fn long() -> Line
    ensures { result ≡ line_of long_text }
{
    word(start(), b"list too long\n")
}
