// From the text of a list to the bytes of a table, or to what is told of a list that is turned away.
#![tactic(auto)]

ghost use Rattle.std.specs.Prelude.{◌≡◌};
ghost use Rattle.writer_answer.specs.Outcomes.{outcome_of, refusal_of};
ghost use Rattle.list_make.specs.Making.{over_line, refused_line, made_from, Makes, MakesOf};

use list_text::Faulty;
use model::{DEVICES, LINKS};

// The most bytes of the devices and of the links of a table.
const DEVICE_BYTES: usize = 2 * (DEVICES as usize);

const LINK_BYTES: usize = 3 * LINKS;

// A refusal of the writer, and the line it stands in, 0 where there is none, as `line_number` of the definitions gives it.
#[derive(Clone, Copy, Debug, PartialEq, Eq)]
pub struct Refusal {
    pub number: u8,
    pub index: u16,
    pub line: usize,
}

// Why no table is made of a list: a line that is none of a list's, or a refusal.
#[derive(Clone, Copy, Debug, PartialEq, Eq)]
pub enum Failure {
    Line(Faulty),
    Refused(Refusal),
}

// The line of the first device past the limit, else that of the first link past it, 0 where there is none.
fn over_line(text: &[u8]) -> usize
    ensures { result ≡ over_line text.now }
{
    let line = list_text::line_of(text, false, usize::from(DEVICES));
    if line == 0 {
        return list_text::line_of(text, true, LINKS);
    }
    line
}

// The line that a refusal stands in.
fn refused_line(text: &[u8], refusal: writer_answer::Refusal) -> usize
    ensures { result ≡ refused_line text.now (refusal_of refusal).number (refusal_of refusal).index }
{
    match refusal {
        writer_answer::Refusal::Device(p) => list_text::line_of(text, false, usize::from(p)),
        writer_answer::Refusal::Link(i) => list_text::line_of(text, true, usize::from(i)),
        writer_answer::Refusal::Limits => over_line(text),
        writer_answer::Refusal::Room => over_line(text),
    }
}

// An outcome of the writer as it is told, with the size that the table has where it is written.
fn told(
    text: &[u8],
    outcome: Result<(), writer_answer::Refusal>,
    size: usize,
) -> Result<usize, Failure>
    ensures { result ≡ made_from text.now (outcome_of outcome) size }
{
    match outcome {
        Ok(()) => Ok(size),
        Err(refusal) => Err(Failure::Refused(Refusal {
            number: refusal.number(),
            index: refusal.index(),
            line: refused_line(text, refusal),
        })),
    }
}

// The table of a text whose lines are all of a list's.
fn compile(text: &[u8], table: &mut [u8]) -> Result<usize, Failure>
    ensures { Makes text.now table.old result table.new }
{
    let mut devices = [0u8; DEVICE_BYTES];
    let n = list_text::gather(text, false, &mut devices);
    let mut links = [0u8; LINK_BYTES];
    let m = list_text::gather(text, true, &mut links);
    if DEVICE_BYTES < n {
        return told(text, Err(writer_answer::Refusal::Limits), 0);
    }
    if LINK_BYTES < m {
        return told(text, Err(writer_answer::Refusal::Limits), 0);
    }
    let outcome = writer::write(&devices[..n], &links[..m], table);
    told(text, outcome, 7 + n + m)
}

// The size of the table of a list, or why there is none; then the buffer stays as it is.
pub fn make(text: &[u8], table: &mut [u8]) -> Result<usize, Failure>
    ensures { MakesOf text.now table.old result table.new }
{
    match list_text::fault_in(text) {
        Ok(()) => compile(text, table),
        Err(faulty) => Err(Failure::Line(faulty)),
    }
}
