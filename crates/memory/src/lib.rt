// The memory of the bench: two arrays of cells. What stands where is known here and in specs/Layout.antt alone; every other crate reads
// and changes the state through these functions, and through those of `memory_rows`, `memory_links` and `memory_stores`, which know the
// numbers of the pages. Outside the pages and the rows a reader answers 0 and a setter changes nothing.
#![tactic(auto)]

ghost use Rattle.std.specs.Prelude.{◌≡◌, ◌⊎◌, List, ℕ, ◌+◌, ◌*◌, ◌<◌, ◌≤◌, get_or, set, length, slice_range, MatchOption};
ghost use Rattle.model.specs.State.{with_callback, with_carry};
ghost use Rattle.memory.specs.Layout.{BYTES, byte_col, link_col, word_col, state_in, WholeBytesBecome, WholeWordsBecome};
ghost use Rattle.memory.specs.Cells.{with_count, with_links};
ghost use Rattle.memory.specs.Stored.{Stored, StoredLink, StoredWord};

use model::{LINKS, ROWS};

// Pages of bytes with a row for each device. A page is a number: `byte_at` and its like answer for every number (`byte_col`), also for no page.
pub const PARENT: usize = 0;

pub const IGNORE: usize = 1;

pub const STATUS: usize = 2;

pub const DEPTH: usize = 3;

pub const CHILDREN: usize = 4;

const BYTEPAGES: usize = 5;

// Pages of bytes with a row for each link.
pub const CONSUMER: usize = 0;

pub const SUPPLIER: usize = 1;

pub const FLAGS: usize = 2;

const LINKPAGES: usize = 3;

// Pages of words with a row for each device.
pub const HOLDS: usize = 0;

pub const ERROR: usize = 1;

pub const LINKED: usize = 2;

const WORDPAGES: usize = 3;

// After the device pages of the bytes stand the link pages, then the numbers of the whole bench: the device count, the open callback, how
// many bytes are carried, and those.
const LINKSAT: usize = ROWS * BYTEPAGES;

const COUNT: usize = LINKSAT + LINKS * LINKPAGES;

const KIND: usize = COUNT + 1;

const ASKED: usize = COUNT + 2;

const TARGET: usize = COUNT + 3;

const USED: usize = COUNT + 4;

const CARRIED: usize = COUNT + 5;

const CARRIED2: usize = COUNT + 6;

const CARRIED3: usize = COUNT + 7;

pub const BYTES: usize = COUNT + 8;

// After the device pages of the words stands the link count.
const LINKCOUNT: usize = ROWS * WORDPAGES;

pub const WORDS: usize = LINKCOUNT + 1;

// Pages that stand one after another: the cell where they begin, how many rows each has, and how many they are.
#[derive(Clone, Copy)]
struct Block {
    at: usize,
    rows: usize,
    many: usize,
}

const DEVICE_BYTES: Block = Block {
    at: 0,
    rows: ROWS,
    many: BYTEPAGES,
};

const LINK_BYTES: Block = Block {
    at: LINKSAT,
    rows: LINKS,
    many: LINKPAGES,
};

const DEVICE_WORDS: Block = Block {
    at: 0,
    rows: ROWS,
    many: WORDPAGES,
};

// ---- a row of a page

// The cell of row p of a page; none where there is no such page or no such row.
fn cell(of: Block, page: usize, p: usize) -> Option<usize>
    requires { of.at + of.rows * of.many ≤ usize.MAX }
    ensures { MatchOption result ((of.many ≤ page) ⊎ (of.rows ≤ p)) (λ c. (page < of.many) × (p < of.rows) × (c ≡ of.at + (of.rows * page + p))) }
{
    if of.many <= page {
        return None;
    }
    if of.rows <= p {
        return None;
    }
    Some(of.at + (of.rows * page + p))
}

// What row p of a page holds; `none` where there is no such page or no such row.
fn get<C: Copy>(cells: &[C], of: Block, page: usize, p: usize, none: C) -> C
    requires { of.at + of.rows * of.many ≤ length cells.now }
    ensures inside { page < of.many → p < of.rows → result ≡ get_or cells.now (of.at + (of.rows * page + p)) none }
    ensures outside { (of.many ≤ page) ⊎ (of.rows ≤ p) → result ≡ none }
{
    match cell(of, page, p) {
        Some(at) => cells[at],
        None => none,
    }
}

// Row p of a page becomes v; nothing changes where there is no such page or no such row.
fn put<C: Copy>(cells: &mut [C], of: Block, page: usize, p: usize, v: C)
    requires { of.at + of.rows * of.many ≤ length cells.old }
    ensures inside { page < of.many → p < of.rows → cells.new ≡ set cells.old (of.at + (of.rows * page + p)) v }
    ensures outside { (of.many ≤ page) ⊎ (of.rows ≤ p) → cells.new ≡ cells.old }
{
    if let Some(at) = cell(of, page, p) {
        cells[at] = v;
    }
}

// A page; empty where there is no such page.
fn page_of<C>(cells: &[C], of: Block, page: usize) -> &[C]
    requires { of.at + of.rows * of.many ≤ length cells.now }
    ensures inside { page < of.many → result.now ≡ slice_range cells.now (of.at + of.rows * page) (of.at + of.rows * page + of.rows) }
    ensures outside { of.many ≤ page → length result.now ≡ 0 }
{
    if of.many <= page {
        return &[];
    }
    let from = of.at + of.rows * page;
    &cells[from..from + of.rows]
}

pub fn byte_at<'a>(bytes: &'a [u8; BYTES], page: usize, p: usize) -> u8
    ensures { result ≡ get_or (byte_col page bytes.now) p 0 }
{
    get(bytes, DEVICE_BYTES, page, p, 0)
}

pub fn link_at<'a>(bytes: &'a [u8; BYTES], page: usize, i: usize) -> u8
    ensures { result ≡ get_or (link_col page bytes.now) i 0 }
{
    get(bytes, LINK_BYTES, page, i, 0)
}

pub fn word_at<'a>(words: &'a [u32; WORDS], page: usize, p: usize) -> u32
    ensures { result ≡ get_or (word_col page words.now) p 0 }
{
    get(words, DEVICE_WORDS, page, p, 0)
}

pub fn set_byte_at(bytes: &mut [u8; BYTES], page: usize, p: usize, v: u8)
    ensures { Stored page p v bytes.old bytes.new }
{
    put(bytes, DEVICE_BYTES, page, p, v);
}

pub fn set_link_at(bytes: &mut [u8; BYTES], page: usize, i: usize, v: u8)
    ensures { StoredLink page i v bytes.old bytes.new }
{
    put(bytes, LINK_BYTES, page, i, v);
}

pub fn set_word_at(words: &mut [u32; WORDS], page: usize, p: usize, v: u32)
    ensures { StoredWord page p v words.old words.new }
{
    put(words, DEVICE_WORDS, page, p, v);
}

// ---- a page

pub fn byte_page<'a>(bytes: &'a [u8; BYTES], page: usize) -> &'a [u8]
    ensures { result.now ≡ byte_col page bytes.now }
{
    page_of(bytes, DEVICE_BYTES, page)
}

pub fn link_page<'a>(bytes: &'a [u8; BYTES], page: usize) -> &'a [u8]
    ensures { result.now ≡ link_col page bytes.now }
{
    page_of(bytes, LINK_BYTES, page)
}

pub fn word_page<'a>(words: &'a [u32; WORDS], page: usize) -> &'a [u32]
    ensures { result.now ≡ word_col page words.now }
{
    page_of(words, DEVICE_WORDS, page)
}

// ---- numbers

pub fn devices<'a>(bytes: &'a [u8; BYTES]) -> u8
    ensures { (words : List ℕ) → result ≡ (state_in bytes.now words).wiring.n }
{
    bytes[COUNT]
}

pub fn callback<'a>(bytes: &'a [u8; BYTES]) -> u8
    ensures { (words : List ℕ) → result ≡ (state_in bytes.now words).callback.kind }
{
    bytes[KIND]
}

pub fn asked<'a>(bytes: &'a [u8; BYTES]) -> u8
    ensures { (words : List ℕ) → result ≡ (state_in bytes.now words).callback.asked }
{
    bytes[ASKED]
}

pub fn target<'a>(bytes: &'a [u8; BYTES]) -> u8
    ensures { (words : List ℕ) → result ≡ (state_in bytes.now words).callback.target }
{
    bytes[TARGET]
}

pub fn used<'a>(bytes: &'a [u8; BYTES]) -> u8
    ensures { (words : List ℕ) → result ≡ (state_in bytes.now words).carry.used }
{
    bytes[USED]
}

pub fn carried<'a>(bytes: &'a [u8; BYTES], i: usize) -> u8
    ensures { (words : List ℕ) → result ≡ get_or (state_in bytes.now words).carry.bytes i 0 }
{
    if 3 <= i {
        return 0;
    }
    bytes[CARRIED + i]
}

// The three carried bytes, cell by cell: a slice would have to be made an array again.
pub fn carry<'a>(bytes: &'a [u8; BYTES]) -> [u8; 3]
    ensures { (words : List ℕ) → BYTES ≤ length bytes.now → result ≡ (state_in bytes.now words).carry.bytes }
{
    [bytes[CARRIED], bytes[CARRIED2], bytes[CARRIED3]]
}

pub fn links<'a>(words: &'a [u32; WORDS]) -> u32
    ensures { (bytes : List ℕ) → result ≡ (state_in bytes words.now).wiring.m }
{
    words[LINKCOUNT]
}

pub fn set_devices(bytes: &mut [u8; BYTES], n: u8)
    ensures { WholeBytesBecome (λ s. with_count s n) bytes.old bytes.new }
{
    bytes[COUNT] = n;
}

pub fn set_callback(bytes: &mut [u8; BYTES], kind: u8, asked: u8, target: u8)
    ensures { WholeBytesBecome (λ s. with_callback s kind asked target) bytes.old bytes.new }
{
    bytes[KIND] = kind;
    bytes[ASKED] = asked;
    bytes[TARGET] = target;
}

pub fn set_carried(bytes: &mut [u8; BYTES], carried: [u8; 3], used: u8)
    ensures { WholeBytesBecome (λ s. with_carry s carried used) bytes.old bytes.new }
{
    bytes[USED] = used;
    bytes[CARRIED] = carried[0];
    bytes[CARRIED2] = carried[1];
    bytes[CARRIED3] = carried[2];
}

pub fn set_links(words: &mut [u32; WORDS], m: u32)
    ensures { WholeWordsBecome (λ s. with_links s m) words.old words.new }
{
    words[LINKCOUNT] = m;
}
