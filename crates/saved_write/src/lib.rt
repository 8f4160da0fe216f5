// The saved state of a memory, written to a buffer. Whether the memory is that of a sound bench is not asked here.
#![tactic(auto)]

ghost use Rattle.std.specs.Prelude.{◌≡◌, ◌+◌, ◌*◌, ◌≤◌, length};
ghost use Rattle.saved_form.specs.Words.{word_bytes};
ghost use Rattle.saved_form.specs.Restoring.{laid};
ghost use Rattle.saved_write.specs.Writes.{WriteIs};

use memory::{BYTES, WORDS};
use saved_answer::SaveRefusal;
use saved_form::{FORM, HEADER};

// "TWS", and the version that is saved.
const HEAD: [u8; HEADER] = [84, 87, 83, 1, 0];

const WORDSAT: usize = HEADER + BYTES;

// Bytes, laid at their place.
fn put_bytes(from: &[u8], at: usize, out: &mut [u8])
    requires { at + length from.now ≤ length out.old }
    ensures { out.new ≡ laid out.old at from.now }
{
    let end = at + from.len();
    out[at..end].copy_from_slice(from);
}

// Words, four bytes each. A function for both would be no plainer: it would take the size of a cell and how cells are written.
fn put_words(from: &[u32], at: usize, out: &mut [u8])
    requires { at + 4 * length from.now ≤ length out.old }
    ensures { out.new ≡ laid out.old at (word_bytes from.now) }
{
    let end = at + 4 * from.len();
    saved_copy::write_words(from, &mut out[at..end]);
}

// Write a memory; without room nothing is written. The form stands at the front of the buffer, the rest of which stays.
pub fn write(bytes: [u8; BYTES], words: [u32; WORDS], out: &mut [u8]) -> Result<(), SaveRefusal>
    ensures { WriteIs bytes words out.old result out.new }
{
    if out.len() < FORM {
        return Err(SaveRefusal::Room);
    }
    put_bytes(&HEAD, 0, out);
    put_bytes(&bytes, HEADER, out);
    put_words(&words, WORDSAT, out);
    Ok(())
}
