// What the programs `replay` and `resume` say of a piece that is refused and of a state that cannot be saved or restored.
#![tactic(auto)]

ghost use Rattle.std.specs.Prelude.{◌≡◌};
ghost use Rattle.replay_text.specs.Line.{line_of};
ghost use Rattle.replay_refusals.specs.Lines.{speaker_text, stopped_text, unsaved_text, unrestored_text};

use replay_text::line::{Line, field, start, word};

// The program that speaks.
fn speaker(resumes: bool) -> Line
    ensures { result ≡ line_of (speaker_text resumes) }
{
    if resumes {
        return word(start(), b"resume: ");
    }
    word(start(), b"replay: ")
}

// PROGRAM: piece refused NUMBER
pub fn stopped(resumes: bool, number: u8) -> Line
    ensures { result ≡ line_of (stopped_text resumes number) }
{
    word(
        field(speaker(resumes), b"piece refused ", u64::from(number)),
        b"\n",
    )
}

// PROGRAM: state refused NUMBER. A function for both texts would be no plainer: each is one expression, and would stay one that calls it.
pub fn unsaved(resumes: bool, number: u8) -> Line
    ensures { result ≡ line_of (unsaved_text resumes number) }
{
    word(
        field(speaker(resumes), b"state refused ", u64::from(number)),
        b"\n",
    )
}

// state refused NUMBER
pub fn unrestored(number: u8) -> Line
    ensures { result ≡ line_of (unrestored_text number) }
{
    word(field(start(), b"state refused ", u64::from(number)), b"\n")
}
