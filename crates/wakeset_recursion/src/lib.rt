// The wake set of a device by the recursion that document 01 names for it: marking a device and marking its suppliers call each other.
// Requests, results and the soundness test find wake sets by `wakeset`; this one stands beside it, for the test programs and the harness.
#![tactic(auto)]

ghost use Rattle.std.specs.Prelude.{◌≡◌, List, ℕ, ◌<◌};
ghost use Rattle.model.specs.State.{ACTIVE, status_at};
ghost use Rattle.memory.specs.Layout.{state_in};
ghost use Rattle.wakeset.specs.Marks.{IsWakeSet};
ghost use Rattle.wakeset_recursion.specs.Recursion.{falls_from, links_from, Marks};

use links::FIRSTS;
use memory::BYTES;
use memory_links::supplier;
use memory_rows::{parent, status};
use model::{ACTIVE, LINKS, ROWS};
use wake_rules::{on_parent, on_supplier};

// Marks the sleeping device p, and in turn the sleeping devices that it rests on. A device is marked after what it rests on, so a marked
// device has all of its set marked.
#[cycle(mark_mark_suppliers)]
fn mark<'a>(bytes: &'a [u8; BYTES], first: &'a [u16; FIRSTS], p: u8, marks: &mut [bool; ROWS])
    requires { (words : List ℕ) → status_at (state_in bytes.now words) p < ACTIVE }
    ensures { Marks (falls_from p) bytes.now first.now p marks.old marks.new }
{
    let at = usize::from(p);
    if marks[at] {
        return;
    }
    if on_parent(bytes, p) {
        mark(bytes, first, parent(bytes, p), marks);
    }
    mark_suppliers(bytes, first, p, usize::from(first[at]), marks);
    marks[at] = true;
}

// Marks the suppliers of p by its links from k on, and what they rest on. The links of p end where those of the next device begin.
#[cycle(mark_mark_suppliers)]
fn mark_suppliers<'a>(
    bytes: &'a [u8; BYTES],
    first: &'a [u16; FIRSTS],
    p: u8,
    k: usize,
    marks: &mut [bool; ROWS],
)
    ensures { Marks (links_from first.now p k) bytes.now first.now p marks.old marks.new }
{
    if LINKS <= k {
        return;
    }
    let next = usize::from(p) + 1;
    if usize::from(first[next]) <= k {
        return;
    }
    if on_supplier(bytes, p, k) {
        mark(bytes, first, supplier(bytes, k), marks);
    }
    mark_suppliers(bytes, first, p, k + 1, marks);
}

// The marks of the wake set of device t. A powered device's wake set is empty.
pub fn wake_set<'a>(bytes: &'a [u8; BYTES], first: &'a [u16; FIRSTS], t: u8) -> [bool; ROWS]
    ensures { IsWakeSet bytes.now first.now t result }
{
    let mut marks = [false; ROWS];
    if ACTIVE <= status(bytes, t) {
        return marks;
    }
    mark(bytes, first, t, &mut marks);
    marks
}
