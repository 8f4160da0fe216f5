// A cell of the memory by its field and its row, as functions that Rust links. Fields 0 to 10 are the columns: parent, ignore, status,
// depth, children; consumer, supplier, flags; holds, error, linked. Field 11 has the numbers of the whole bench: n, m, the callback's kind,
// the device asked, the target, how many bytes are carried, and those.
#![tactic(auto)]

ghost use Rattle.std.specs.Prelude.{◌≡◌, ◌%◌, get_or, set};
ghost use Rattle.model.specs.State.{with_carry};
ghost use Rattle.memory.specs.Layout.{state_in, WholeBytesBecome};
ghost use Rattle.export_cells.specs.Cells.{numbers_of, cell_of, CellSet, NumberSet};

use memory::{BYTES, WORDS};

// The low byte of a word: `as` may lose nothing, so the rest is cut first.
fn low(x: u32) -> u8
    ensures { result ≡ x % 256 }
{
    (x % 256) as u8
}

// A number of the whole bench.
fn number_at<'a>(bytes: &'a [u8; BYTES], words: &'a [u32; WORDS], i: usize) -> u32
    ensures { result ≡ get_or (numbers_of (state_in bytes.now words.now)) i 0 }
{
    if 6 <= i {
        return u32::from(memory::carried(bytes, i - 6));
    }
    match i {
        0 => u32::from(memory::devices(bytes)),
        1 => memory::links(words),
        2 => u32::from(memory::callback(bytes)),
        3 => u32::from(memory::asked(bytes)),
        4 => u32::from(memory::target(bytes)),
        _ => u32::from(memory::used(bytes)),
    }
}

// A cell; 0 where there is none.
#[unsafe(no_mangle)]
pub extern "C" fn tests_cell<'a>(
    bytes: &'a [u8; BYTES],
    words: &'a [u32; WORDS],
    field: u8,
    row: u16,
) -> u32
    ensures { result ≡ cell_of (state_in bytes.now words.now) field row }
{
    let i = usize::from(row);
    match field {
        0..=4 => u32::from(memory::byte_at(bytes, usize::from(field), i)),
        5..=7 => u32::from(memory::link_at(bytes, usize::from(field - 5), i)),
        8..=10 => memory::word_at(words, usize::from(field - 8), i),
        11 => number_at(bytes, words, i),
        _ => 0,
    }
}

// How many bytes are carried becomes v.
fn set_used(bytes: &mut [u8; BYTES], v: u8)
    ensures { WholeBytesBecome (λ s. with_carry s s.carry.bytes v) bytes.old bytes.new }
{
    let carried = memory::carry(bytes);
    memory::set_carried(bytes, carried, v);
}

// Carried byte i becomes v.
fn set_carried_byte(bytes: &mut [u8; BYTES], i: usize, v: u8)
    ensures { WholeBytesBecome (λ s. with_carry s (set s.carry.bytes i v) s.carry.used) bytes.old bytes.new }
{
    if 3 <= i {
        return;
    }
    let used = memory::used(bytes);
    let mut carried = memory::carry(bytes);
    carried[i] = v;
    memory::set_carried(bytes, carried, used);
}

// A number of the whole bench set.
fn set_number(bytes: &mut [u8; BYTES], words: &mut [u32; WORDS], i: usize, value: u32)
    ensures { NumberSet i value bytes.old words.old bytes.new words.new }
{
    let v = low(value);
    let kind = memory::callback(bytes);
    let asked = memory::asked(bytes);
    let target = memory::target(bytes);
    if 6 <= i {
        set_carried_byte(bytes, i - 6, v);
        return;
    }
    match i {
        0 => memory::set_devices(bytes, v),
        1 => memory::set_links(words, value),
        2 => memory::set_callback(bytes, v, asked, target),
        3 => memory::set_callback(bytes, kind, v, target),
        4 => memory::set_callback(bytes, kind, asked, v),
        _ => set_used(bytes, v),
    }
}

// Sets a cell, of a byte to the low byte of the value; nothing changes where there is none.
#[unsafe(no_mangle)]
pub extern "C" fn tests_set_cell(
    bytes: &mut [u8; BYTES],
    words: &mut [u32; WORDS],
    field: u8,
    row: u16,
    value: u32,
)
    ensures { CellSet field row value bytes.old words.old bytes.new words.new }
{
    let i = usize::from(row);
    let v = low(value);
    match field {
        0..=4 => memory::set_byte_at(bytes, usize::from(field), i, v),
        5..=7 => memory::set_link_at(bytes, usize::from(field - 5), i, v),
        8..=10 => memory::set_word_at(words, usize::from(field - 8), i, value),
        11 => set_number(bytes, words, i, value),
        _ => {}
    }
}
