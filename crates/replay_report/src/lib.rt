// What the programs `replay` and `resume` print.
#![tactic(auto)]

ghost use Rattle.std.specs.Prelude.{◌≡◌};
ghost use Rattle.table.specs.Answers.{answer_of};
ghost use Rattle.replay_text.specs.Line.{line_of};
ghost use Rattle.replay_report.specs.Lines.{refused_text, replies_text, carried_text, callback_text};

use replay_text::line::{Line, field, start, word};
use table::Refusal;

// table refused NUMBER INDEX
pub fn refused(answer: Result<(), Refusal>) -> Line
    ensures { result ≡ line_of (refused_text (answer_of answer)) }
{
    let numbered = field(start(), b"table refused ", u64::from(table::number(answer)));
    let indexed = field(numbered, b" ", u64::from(table::index(answer)));
    word(indexed, b"\n")
}

// replies N
pub fn replies(count: u64) -> Line
    ensures { result ≡ line_of (replies_text count) }
{
    word(field(start(), b"replies ", count), b"\n")
}

// carried B
pub fn carried(used: u8) -> Line
    ensures { result ≡ line_of (carried_text used) }
{
    word(field(start(), b"carried ", u64::from(used)), b"\n")
}

// callback none, callback suspend P, callback idle P or callback resume P for T; the kind as the memory numbers it, since the clause tells
// numbers of no kind too.
pub fn callback(kind: u8, asked: u8, target: u8) -> Line
    ensures { result ≡ line_of (callback_text kind asked target) }
{
    match kind {
        0 => word(start(), b"callback none\n"),
        1 => word(
            field(start(), b"callback suspend ", u64::from(asked)),
            b"\n",
        ),
        2 => {
            let asking = field(start(), b"callback resume ", u64::from(asked));
            word(field(asking, b" for ", u64::from(target)), b"\n")
        }
        3 => word(field(start(), b"callback idle ", u64::from(asked)), b"\n"),
        _ => word(start(), b"callback unknown\n"),
    }
}
