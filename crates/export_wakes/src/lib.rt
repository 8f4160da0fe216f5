// Wake sets and parents over the memory of a bench, as functions that Rust links.
#![tactic(auto)]

ghost use Rattle.parents.specs.Parents.{Above};
ghost use Rattle.export_wakes.specs.Exported.{WakeSetIs, LowestIs};

use memory::{BYTES, WORDS};
use model::ROWS;

// The marks of the wake set of device t, by the sweep.
#[unsafe(no_mangle)]
pub extern "C" fn tests_wake_set<'a>(
    bytes: &'a [u8; BYTES],
    words: &'a [u32; WORDS],
    t: u8,
    out: &mut [bool; ROWS],
)
    ensures { WakeSetIs bytes.now words.now t out.new }
{
    let first = links::index(bytes, words);
    *out = wakeset::wake_set(bytes, &first, t);
}

// The same by the recursion.
#[unsafe(no_mangle)]
pub extern "C" fn tests_wake_recursion<'a>(
    bytes: &'a [u8; BYTES],
    words: &'a [u32; WORDS],
    t: u8,
    out: &mut [bool; ROWS],
)
    ensures { WakeSetIs bytes.now words.now t out.new }
{
    let first = links::index(bytes, words);
    *out = wakeset_recursion::wake_set(bytes, &first, t);
}

// The lowest member of the wake set of device t; n where it has none.
#[unsafe(no_mangle)]
pub extern "C" fn tests_lowest<'a>(bytes: &'a [u8; BYTES], words: &'a [u32; WORDS], t: u8) -> u8
    ensures { LowestIs bytes.now words.now t result }
{
    let first = links::index(bytes, words);
    wakeset::lowest_member(bytes, &first, t).unwrap_or(memory::devices(bytes))
}

// How many parents stand above device p.
#[unsafe(no_mangle)]
pub extern "C" fn tests_parents_above<'a>(bytes: &'a [u8; BYTES], p: u8) -> u8
    ensures { Above bytes.now p result }
{
    parents::parents_above(bytes, p)
}
