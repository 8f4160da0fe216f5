// Parts of the soundness test on a column and on the values of one device or link: a column in range, a column the same as another, the
// order of two links, what a device or a link adds to a count.
#![tactic(auto)]

ghost use Rattle.std.specs.Prelude.{◌≡◌, Bool, ℕ, ◌<◌};
ghost use Rattle.model.specs.Limits.{LINKS, ROWS};
ghost use Rattle.model.specs.Logic.{all};
ghost use Rattle.model.specs.Table.{before};
ghost use Rattle.model.specs.SoundTest.{column_test, same_test};
ghost use Rattle.memory.specs.Layout.{byte_col, link_col, word_col};
ghost use Rattle.sound_rows.specs.Parts.{child_bit, live_bit};

use memory::{BYTES, WORDS, byte_at, byte_page, link_page, word_at, word_page};
use model::{ACTIVE, LINKS, NONE, ROWS};

// ---- columns

// Every number below n passes. It goes through all of them and joins the tests without a branch, so that a compiler can take several at
// once: `all` of the library would stop at the first that fails.
pub fn every<F: Fn(usize) -> bool>(n: usize, passes: F) -> bool
    requires { (k : ℕ) → k < n → F.pre passes k }
    ensures { (test : ℕ → Bool) → ((k : ℕ) → (r : Bool) → k < n → F.post passes k r → r ≡ test k) → result ≡ all test n }
{
    let mut good = true;
    for k in 0..n {
        good = passes(k) & good;
    }
    good
}

// The n rows in use of a page are at most `most`, and the others are 0. Three functions, for the pages of bytes, of links and of words: a generic
// one would take an order of cells as a bound, and its laws in every clause.
pub fn byte_column<'a>(bytes: &'a [u8; BYTES], page: usize, n: usize, most: u8) -> bool
    ensures { result ≡ column_test ROWS n most (byte_col page bytes.now) }
{
    let page = byte_page(bytes, page);
    let (used, rest) = page.split_at(n.min(page.len()));
    every(used.len(), |p| used[p] <= most) & every(rest.len(), |p| rest[p] == 0)
}

pub fn link_column<'a>(bytes: &'a [u8; BYTES], page: usize, m: usize, most: u8) -> bool
    ensures { result ≡ column_test LINKS m most (link_col page bytes.now) }
{
    let page = link_page(bytes, page);
    let (used, rest) = page.split_at(m.min(page.len()));
    every(used.len(), |i| used[i] <= most) & every(rest.len(), |i| rest[i] == 0)
}

pub fn word_column<'a>(words: &'a [u32; WORDS], page: usize, n: usize, most: u32) -> bool
    ensures { result ≡ column_test ROWS n most (word_col page words.now) }
{
    let page = word_page(words, page);
    let (used, others) = page.split_at(n.min(page.len()));
    every(used.len(), |p| used[p] <= most) & every(others.len(), |p| others[p] == 0)
}

// A page holds the column given. Not `==` of slices, which may stop at the first row that differs.
pub fn same_bytes<'a>(bytes: &'a [u8; BYTES], page: usize, col: &'a [u8; ROWS]) -> bool
    ensures { result ≡ same_test (byte_col page bytes.now) col.now }
{
    every(ROWS, |p| byte_at(bytes, page, p) == col[p])
}

pub fn same_words<'a>(words: &'a [u32; WORDS], page: usize, col: &'a [u32; ROWS]) -> bool
    ensures { result ≡ same_test (word_col page words.now) col.now }
{
    every(ROWS, |p| word_at(words, page, p) == col[p])
}

// ---- one device, one link

// The link from c to s comes before the one from c2 to s2: the order of the pairs.
#[tactic(auto, unfolding(model::specs::Table::before))]
pub fn comes_before(c: u8, s: u8, c2: u8, s2: u8) -> bool
    ensures { result ≡ before c s c2 s2 }
{
    (c, s) < (c2, s2)
}

// What a device adds to the child count of its parent.
pub fn child_bit(parent: u8, status: u8) -> u8
    ensures { result ≡ child_bit parent status }
{
    u8::from((ACTIVE <= status) & (parent != NONE))
}

// What a link adds to the link count of its supplier, by its consumer's status.
pub fn live_bit(status: u8, flags: u8) -> u32
    ensures { result ≡ live_bit status flags }
{
    u32::from((ACTIVE <= status) & (flags % 2 == 1))
}
