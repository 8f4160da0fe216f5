// The text of a list, in any number of lines: its parts, its links, and the lines in which they stand.
#![tactic(auto)]

ghost use Rattle.std.specs.Prelude.{◌≡◌, ◌+◌, ◌≤◌, ◌<◌, not, eqb, length, set};
ghost use Rattle.std.specs.List.{prefix_len};
ghost use Rattle.std.proofs.lemmas.List.Edits.{sets};
ghost use Rattle.list_text.specs.Texts.{is_of, fault_in, Gathered, line_number};
ghost use Rattle.list_text.specs.Places.{Read, Stored};

use list_lines::entries::{Entry, Fault};

// The byte between two lines.
const LINE_FEED: u8 = 10;

// The number of the first line.
const FIRST: usize = 1;

// A line that is none of a list's: what is wrong with it, and its number.
#[derive(Clone, Copy, Debug, PartialEq, Eq)]
pub struct Faulty {
    pub fault: Fault,
    pub line: usize,
}

// What a line says, and where the line after it starts. The three walks go on by `next`: over `text.split(..)` what the loop needs of the
// closure (that it may be called at each turn, and which test it is) did not prove.
#[derive(Clone, Copy)]
struct Line {
    entry: Result<Entry, Fault>,
    next: usize,
}

// How many bytes stand before the first line feed of a text; all of them where it has none.
fn line_length(text: &[u8]) -> usize
    ensures count { result ≡ prefix_len (λ b. not (eqb b 10)) text.now }
    ensures inside { result ≤ length text.now }
{
    text.iter().take_while(|b| **b != LINE_FEED).count()
}

// The line that starts at a place.
fn line_at(text: &[u8], start: usize) -> Line
    requires { start ≤ length text.now }
    ensures { Read text.now start result.entry result.next }
{
    let stop = start + line_length(&text[start..]);
    Line {
        entry: list_lines::entry(&text[start..stop]),
        next: stop + 1,
    }
}

// Whether each line is one of a list's; the first that is none.
pub fn fault_in(text: &[u8]) -> Result<(), Faulty>
    ensures { result ≡ fault_in text.now }
{
    let mut start: usize = 0;
    let mut number = FIRST;
    while start <= text.len() {
        let line = line_at(text, start);
        if let Err(fault) = line.entry {
            return Err(Faulty {
                fault: fault,
                line: number,
            });
        }
        start = line.next;
        number += 1;
    }
    Ok(())
}

// A byte stored at a place of a buffer, if there is room. Not by `get_mut`: what the buffer holds after its `None` did not prove.
fn put(out: &mut [u8], at: usize, byte: u8)
    ensures { out.new ≡ set out.old at byte }
{
    if at < out.len() {
        out[at] = byte;
    }
}

// Bytes stored from a place on, as far as there is room; the place after them.
fn put_bytes(out: &mut [u8], at: usize, bytes: &[u8]) -> usize
    requires { at + length bytes.now < 18446744073709551616 }
    ensures place { result ≡ at + length bytes.now }
    ensures buffer { out.new ≡ sets out.old at bytes.now }
{
    for (i, byte) in bytes.iter().enumerate() {
        put(out, at + i, *byte);
    }
    at + bytes.len()
}

// The bytes of a line of a sort stored from a place on, as far as there is room; the place after them.
fn put_entry(out: &mut [u8], at: usize, link: bool, entry: Result<Entry, Fault>) -> usize
    requires { at + 3 < 18446744073709551616 }
    ensures { Stored link entry at out.old result out.new }
{
    let Ok(entry) = entry else {
        return at;
    };
    match entry {
        Entry::Nothing => at,
        Entry::Part(a, b) => {
            if link {
                at
            } else {
                put_bytes(out, at, &[a, b])
            }
        }
        Entry::Link(a, b, c) => {
            if link {
                put_bytes(out, at, &[a, b, c])
            } else {
                at
            }
        }
    }
}

// The sort is a `bool`, as in the definitions that the law RoundTrip speaks of; a closure would need a `requires`, which `gather` has not.
// The bytes of all parts, or of all links, at the front of a buffer, as far as it has room; how many bytes they are.
pub fn gather(text: &[u8], link: bool, out: &mut [u8]) -> usize
    ensures { Gathered link text.now out.old result out.new }
{
    let mut at: usize = 0;
    let mut start: usize = 0;
    while start <= text.len() {
        let line = line_at(text, start);
        at = put_entry(out, at, link, line.entry);
        start = line.next;
    }
    at
}

// A line is of a sort.
fn is_of(link: bool, entry: Result<Entry, Fault>) -> bool
    ensures { result ≡ is_of link entry }
{
    let Ok(entry) = entry else {
        return false;
    };
    match entry {
        Entry::Nothing => false,
        Entry::Part(_, _) => !link,
        Entry::Link(_, _, _) => link,
    }
}

// The line of entry k of a sort, 0 where there is none.
pub fn line_of(text: &[u8], link: bool, k: usize) -> usize
    ensures { result ≡ line_number link text.now k }
{
    let mut ahead = k;
    let mut start: usize = 0;
    let mut number = FIRST;
    while start <= text.len() {
        let line = line_at(text, start);
        if is_of(link, line.entry) {
            if ahead == 0 {
                return number;
            }
            ahead -= 1;
        }
        start = line.next;
        number += 1;
    }
    0
}
