// The memory that a saved state gives: its header and its length tested, its cells copied to their places. Whether that is a sound bench is
// not asked here.
#![tactic(auto)]

ghost use Rattle.std.specs.Prelude.{◌≡◌, ◌^◌, ◌<◌, ◌≤◌, length};
ghost use Rattle.saved_form.specs.Form.{HEADER, FORM};
ghost use Rattle.saved_form.specs.Restoring.{marked, version_in, width};
ghost use Rattle.saved_read.specs.Reads.{Fits, AllFit, Placed, Filled, CellsOf, ReadIs};

use memory::{BYTES, WORDS};
use saved_answer::RestoreRefusal;
use saved_form::{Array, FORM, HEADER, SPANS, Span, VERSION1};

// The two arrays of a memory.
#[derive(Clone, Copy)]
pub struct Cells {
    pub bytes: [u8; BYTES],
    pub words: [u32; WORDS],
}

// The mark "TWS".
fn is_marked(f: &[u8]) -> bool
    requires { HEADER ≤ length f.now }
    ensures { result ≡ marked f.now }
{
    f.starts_with(b"TWS")
}

// The version.
fn version_in(f: &[u8]) -> u16
    requires { HEADER ≤ length f.now }
    ensures { result ≡ version_in f.now }
{
    u16::from_le_bytes([f[3], f[4]])
}

// How many bytes a span has in a form.
fn width(span: Span) -> usize
    requires { width span < 2 ^ 64 }
    ensures { result ≡ width span }
{
    match span.array {
        Array::Bytes => span.cells,
        Array::Words => 4 * span.cells,
    }
}

// One span of a form, laid at its place in the array that it belongs to.
fn place(f: &[u8], span: Span, bytes: &mut [u8], words: &mut [u32])
    requires { Fits f.now span bytes.old words.old }
    ensures { Placed f.now span bytes.old words.old bytes.new words.new }
{
    let from = &f[span.at..span.at + width(span)];
    match span.array {
        Array::Bytes => bytes[span.to..span.to + span.cells].copy_from_slice(from),
        Array::Words => {
            saved_copy::read_words(from, &mut words[span.to..span.to + span.cells]);
        }
    }
}

// All spans of a form, one after another.
fn fill(f: &[u8], spans: [Span; SPANS], bytes: &mut [u8], words: &mut [u32])
    requires { AllFit f.now spans bytes.old words.old }
    ensures { Filled f.now spans bytes.old words.old bytes.new words.new }
{
    for span in spans {
        place(f, span, bytes, words);
    }
}

// The cells of a form of version 1 that has its length; what no span has is 0.
fn cells_of(f: &[u8]) -> Cells
    requires { length f.now ≡ FORM }
    ensures { CellsOf f.now result }
{
    let mut bytes = [0; BYTES];
    let mut words = [0; WORDS];
    fill(f, VERSION1, &mut bytes, &mut words);
    Cells { bytes, words }
}

// Read a saved state: 1, 2, 3 and 5 are tested in this order.
pub fn read(f: &[u8]) -> Result<Cells, RestoreRefusal>
    ensures { ReadIs f.now result }
{
    if f.len() < HEADER {
        return Err(RestoreRefusal::Short);
    }
    if !is_marked(f) {
        return Err(RestoreRefusal::Mark);
    }
    if version_in(f) != 1 {
        return Err(RestoreRefusal::Version);
    }
    if f.len() != FORM {
        return Err(RestoreRefusal::Length);
    }
    Ok(cells_of(f))
}
