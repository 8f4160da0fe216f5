// Cells copied between a form and the arrays of a memory: as many as there are, and as there is room for.
#![tactic(auto)]

ghost use Rattle.std.specs.Prelude.{◌≡◌, ◌+◌, ◌≤◌, ◌/◌, [], ◌∷◌, length, take};
ghost use Rattle.model.specs.Feed.{over};
ghost use Rattle.saved_form.specs.Words.{word_bytes, words_from};
ghost use Rattle.saved_form.specs.Restoring.{laid};
ghost use Rattle.saved_copy.specs.Places.{word_at};

// Bytes to the front of others.
pub fn copy_bytes(from: &[u8], into: &mut [u8])
    ensures { into.new ≡ over (take (length into.old) from.now) into.old }
{
    let count = from.len().min(into.len());
    into[..count].copy_from_slice(&from[..count]);
}

// The word of four bytes, low byte first.
fn read_word(from: &[u8], at: usize) -> u32
    requires { at + 4 ≤ length from.now }
    ensures { result ≡ word_at from.now at }
{
    u32::from_le_bytes([from[at], from[at + 1], from[at + 2], from[at + 3]])
}

// Bytes, four a word, to the front of words.
pub fn read_words(from: &[u8], into: &mut [u32])
    ensures { into.new ≡ over (take (length into.old) (words_from from.now)) into.old }
{
    let count = (from.len() / 4).min(into.len());
    for j in 0..count {
        into[j] = read_word(from, 4 * j);
    }
}

// The four bytes of a word, low byte first.
fn write_word(into: &mut [u8], at: usize, w: u32)
    requires { at + 4 ≤ length into.old }
    ensures { into.new ≡ laid into.old at (word_bytes (w ∷ [])) }
{
    let end = at + 4;
    into[at..end].copy_from_slice(&w.to_le_bytes());
}

// Words, four bytes each, to the front of bytes. A function for both ways would be no plainer: they share their count alone.
pub fn write_words(from: &[u32], into: &mut [u8])
    ensures { into.new ≡ over (word_bytes (take (length into.old / 4) from.now)) into.old }
{
    let count = from.len().min(into.len() / 4);
    for j in 0..count {
        write_word(into, 4 * j, from[j]);
    }
}
