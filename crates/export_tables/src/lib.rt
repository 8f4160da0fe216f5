// The loader and the writer as functions that Rust links: a table into the memory of a bench, two lists into a table.
#![tactic(auto)]

ghost use Rattle.std.specs.Prelude.{◌≡◌, ◌+◌, ◌*◌};
ghost use Rattle.export_tables.specs.Loads.{LoadIs};
ghost use Rattle.export_tables.specs.Writes.{WriteIs};

use memory::{BYTES, WORDS};

// A number and an index as one number.
fn code(number: u8, index: u16) -> u32
    ensures { result ≡ number + 256 * index }
{
    u32::from(number) + 256 * u32::from(index)
}

// Load a table: the refusal's number and 256 times its index, 0 where it is taken. The bench that is left takes the place of the old.
#[unsafe(no_mangle)]
pub extern "C" fn tests_load(t: &[u8], bytes: &mut [u8; BYTES], words: &mut [u32; WORDS]) -> u32
    ensures { LoadIs t.now bytes.new words.new result }
{
    let loaded = keeper::load(t);
    let answer = loaded.answer;
    let bench = loaded.bench;
    let bytes_left = bench.bytes;
    *bytes = bytes_left;
    let words_left = bench.words;
    *words = words_left;
    code(table::number(answer), table::index(answer))
}

// Write the table of two lists: the refusal's number and 256 times its index, 0 where it is written. A refusal leaves the buffer as it was.
#[unsafe(no_mangle)]
pub extern "C" fn tests_write(devices: &[u8], links: &[u8], out: &mut [u8]) -> u32
    ensures { WriteIs devices.now links.now out.old out.new result }
{
    let outcome = writer::write(devices, links, out);
    code(
        writer_answer::number(outcome),
        writer_answer::index(outcome),
    )
}
