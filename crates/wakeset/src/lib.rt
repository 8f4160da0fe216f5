// The wake set of a device in one sweep down the device numbers, its lowest member, and whether another member is barred.
#![tactic(auto)]

ghost use Rattle.std.specs.Prelude.{◌≡◌, length};
ghost use Rattle.model.specs.Limits.{ROWS};
ghost use Rattle.wakeset.specs.Marks.{IsWakeSet, HeardFrom, FindsLowest, Reaches};
ghost use Rattle.wakeset.specs.Sweep.{Chosen, Adds, Passes, Steps, Sweeps};

use links::FIRSTS;
use memory::{BYTES, WORDS, devices};
use memory_links::supplier;
use memory_rows::{parent, status};
use model::{ACTIVE, ROWS};
use wake_rules::{bars, on_parent, on_supplier};

// The lowest member of a wake set, n where it has none, and whether a member other than the target is barred. The number stays, in place of
// an Option: it is the model's `lowest` for a powered target too, which the contract of `request_wake::wake` needs in every ready state.
#[derive(Clone, Copy)]
pub struct Reach {
    pub low: u8,
    pub barred: bool,
}

// ---- the sweep

// Marks device q where the test holds. The answer is the lowest mark, where low was.
fn mark(marks: &mut [bool; ROWS], low: u8, on: bool, q: u8) -> u8
    ensures { length marks.old ≡ ROWS → Adds (Chosen on q) marks.old low marks.new result }
{
    let at = usize::from(q);
    marks[at] = on | marks[at];
    if on & (q < low) { q } else { low }
}

// Passes the marked device p: marks the sleeping devices that it rests on, its parent and the suppliers of its own links. Each of these
// links is looked at once. They end where those of the next device begin.
fn pass<'a>(
    bytes: &'a [u8; BYTES],
    first: &'a [u16; FIRSTS],
    p: u8,
    marks: &mut [bool; ROWS],
    low: u8,
) -> u8
    ensures { Passes bytes.now first.now p marks.old low marks.new result }
{
    let mut least = mark(marks, low, on_parent(bytes, p), parent(bytes, p));
    let at = usize::from(p);
    let begin = usize::from(first[at]);
    let end = usize::from(first[at + 1]);
    for i in begin..end {
        least = mark(marks, least, on_supplier(bytes, p, i), supplier(bytes, i));
    }
    least
}

// One step of the sweep: device q is passed where it is marked. The sweep ends at the lowest mark, before this step and after it.
fn step<'a>(
    bytes: &'a [u8; BYTES],
    first: &'a [u16; FIRSTS],
    q: u8,
    marks: &mut [bool; ROWS],
    end: u8,
) -> u8
    ensures { Steps bytes.now first.now q marks.old end marks.new result }
{
    if !marks[usize::from(q)] {
        return end;
    }
    pass(bytes, first, q, marks, end)
}

// From no mark to those of the wake set of device t, which sleeps. After each step the marked devices among those passed, from q up, are
// exactly the wake set's (`each_step` in its proof): what a device rests on has a lower number, so all that lead to q are passed before it.
// Below the lowest mark there is none, so there the sweep ends. The answer is that mark.
fn sweep<'a>(
    bytes: &'a [u8; BYTES],
    first: &'a [u16; FIRSTS],
    t: u8,
    marks: &mut [bool; ROWS],
) -> u8
    ensures { Sweeps bytes.now first.now t marks.old marks.new result }
{
    marks[usize::from(t)] = true;
    let mut low = pass(bytes, first, t, marks, t);
    for q in (0..t).rev() {
        if q < low {
            break;
        }
        low = step(bytes, first, q, marks, low);
    }
    low
}

// The marks of the wake set of device t. A powered device's wake set is empty.
pub fn wake_set<'a>(bytes: &'a [u8; BYTES], first: &'a [u16; FIRSTS], t: u8) -> [bool; ROWS]
    ensures { IsWakeSet bytes.now first.now t result }
{
    let mut marks = [false; ROWS];
    if ACTIVE <= status(bytes, t) {
        return marks;
    }
    sweep(bytes, first, t, &mut marks);
    marks
}

// ---- what requests ask of a wake set

// A marked device below t is barred. No device below low is marked.
fn any_barred<'a>(
    bytes: &'a [u8; BYTES],
    words: &'a [u32; WORDS],
    marks: &'a [bool; ROWS],
    low: u8,
    t: u8,
) -> bool
    ensures { HeardFrom bytes.now words.now marks.now low t result }
{
    let mut found = false;
    for q in low..t {
        found = (marks[usize::from(q)] & bars(bytes, words, q)) | found;
    }
    found
}

// The lowest member of the wake set of device t. A powered device's wake set is empty.
pub fn lowest_member<'a>(bytes: &'a [u8; BYTES], first: &'a [u16; FIRSTS], t: u8) -> Option<u8>
    ensures { FindsLowest bytes.now first.now t result }
{
    if ACTIVE <= status(bytes, t) {
        return None;
    }
    let mut marks = [false; ROWS];
    Some(sweep(bytes, first, t, &mut marks))
}

// The lowest member of the wake set of device t, and whether another member is barred.
pub fn reached<'a>(
    bytes: &'a [u8; BYTES],
    words: &'a [u32; WORDS],
    first: &'a [u16; FIRSTS],
    t: u8,
) -> Reach
    ensures { Reaches bytes.now words.now first.now t result }
{
    if ACTIVE <= status(bytes, t) {
        return Reach {
            low: devices(bytes),
            barred: false,
        };
    }
    let mut marks = [false; ROWS];
    let low = sweep(bytes, first, t, &mut marks);
    let barred = any_barred(bytes, words, &marks, low, t);
    Reach { low, barred }
}
