// The stored counts of powered children and of powered consumers' runtime links, brought into line as one device's status changes.
#![tactic(auto)]

ghost use Rattle.std.specs.Prelude.{◌≡◌, List, ℕ};
ghost use Rattle.model.specs.State.{powered};
ghost use Rattle.memory.specs.Layout.{Becomes};
ghost use Rattle.counts.specs.Shifts.{next_up_to, shift_child, shift_link, shift_links_by, Turned};

use basics::choose;
use links::FIRSTS;
use memory::{BYTES, WORDS};
use memory_links::{flags, supplier};
use memory_rows::{children, linked, parent, status};
use memory_stores::{set_children, set_linked, set_status_cell};
use model::{ACTIVE, LINKS, NONE};

// Active or suspending.
fn powered(v: u8) -> bool
    ensures { result ≡ powered v }
{
    ACTIVE <= v
}

// A child count one more or one less; it stays where that would wrap. `up` is the flag of the definitions (`next_up_to`).
fn next_children(children: u8, up: bool) -> u8
    ensures { result ≡ next_up_to 255 up children }
{
    if up {
        children.saturating_add(1)
    } else {
        children.saturating_sub(1)
    }
}

// A link count one more or one less; it stays where that would pass 65535, or wrap. Its limit is not that of its type, so the library's sum
// for children does not serve here.
fn next_links(links: u32, up: bool) -> u32
    ensures { result ≡ next_up_to 65535 up links }
{
    if up {
        links + u32::from(links < 65535)
    } else {
        links.saturating_sub(1)
    }
}

// Device p's parent, if it has one, counts p or counts it no more.
fn shift_child(bytes: &mut [u8; BYTES], p: u8, up: bool)
    ensures { (words : List ℕ) → Becomes (λ s. shift_child s p up) bytes.old words bytes.new words }
{
    let q = parent(bytes, p);
    if q == NONE {
        return;
    }
    let old = children(bytes, q);
    set_children(bytes, q, next_children(old, up));
}

// The supplier of link i counts it or counts it no more, where it is a runtime link.
fn shift_link<'a>(bytes: &'a [u8; BYTES], words: &mut [u32; WORDS], up: bool, i: usize)
    ensures { Becomes (λ s. shift_link s up i) bytes.now words.old bytes.now words.new }
{
    let q = supplier(bytes, i);
    let old = linked(words, q);
    let next = choose(flags(bytes, i) % 2 == 1, next_links(old, up), old);
    set_linked(words, q, next);
}

// The suppliers of p's runtime links count them or count them no more.
fn shift_links<'a>(
    bytes: &'a [u8; BYTES],
    words: &mut [u32; WORDS],
    first: &'a [u16; FIRSTS],
    p: u8,
    up: bool,
)
    ensures { Becomes (λ s. shift_links_by first.now s p up) bytes.now words.old
        bytes.now words.new }
{
    let at = usize::from(p);
    let begin = usize::from(first[at]);
    let end = usize::from(first[at + 1]);
    if LINKS < end {
        return;
    }
    for i in begin..end {
        shift_link(bytes, words, up, i);
    }
}

// The status of device p becomes v, and the counts follow.
pub fn set_status<'a>(
    bytes: &mut [u8; BYTES],
    words: &mut [u32; WORDS],
    first: &'a [u16; FIRSTS],
    p: u8,
    v: u8,
)
    ensures { Turned p v first.now bytes.old words.old bytes.new words.new }
{
    let old = powered(status(bytes, p));
    let up = powered(v);
    set_status_cell(bytes, p, v);
    if old == up {
        return;
    }
    shift_child(bytes, p, up);
    shift_links(bytes, words, first, p, up);
}
