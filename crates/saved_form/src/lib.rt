// The saved state of a bench (request Four of document 02): how long it is, and where its cells stand. What it says is in specs/, its laws
// are in proofs/.
#![tactic(auto)]

use memory::{BYTES, WORDS};

// The mark "TWS" and the version, two bytes.
pub const HEADER: usize = 5;

// After the header stand the bytes of the memory, then its words, four bytes each.
const WORDSAT: usize = HEADER + BYTES;

// How long a saved state of the newest version is.
pub const FORM: usize = WORDSAT + 4 * WORDS;

// The two arrays of a memory.
#[derive(Clone, Copy, Debug, PartialEq, Eq)]
pub enum Array {
    Bytes,
    Words,
}

// A span of cells: of which of the two arrays, where in the form, how many, and where in the array.
#[derive(Clone, Copy)]
pub struct Span {
    pub array: Array,
    pub at: usize,
    pub cells: usize,
    pub to: usize,
}

// The most spans that a version has.
pub const SPANS: usize = 2;

// Version 1: all bytes, then all words.
pub const VERSION1: [Span; SPANS] = [
    Span {
        array: Array::Bytes,
        at: HEADER,
        cells: BYTES,
        to: 0,
    },
    Span {
        array: Array::Words,
        at: WORDSAT,
        cells: WORDS,
        to: 0,
    },
];
