// Saving and restoring as functions that Rust links: the memory of a bench into bytes, and bytes into a memory.
#![tactic(auto)]

ghost use Rattle.export_saved.specs.Saves.{SaveIs, RestoreIs};

use keeper_bench::Bench;
use memory::{BYTES, WORDS};
use saved_answer::{restore_number, save_number};

// Save the memory of a bench: the refusal's number, 0 where the form is written. A refusal leaves the buffer as it was.
#[unsafe(no_mangle)]
pub extern "C" fn tests_save<'a>(
    bytes: &'a [u8; BYTES],
    words: &'a [u32; WORDS],
    out: &mut [u8],
) -> u32
    ensures { SaveIs bytes.now words.now out.old out.new result }
{
    let answer = saved::save(
        Bench {
            bytes: *bytes,
            words: *words,
        },
        out,
    );
    u32::from(save_number(answer))
}

// Restore a bench from its form: the refusal's number, 0 where it is taken. The bench that is left takes the place of the old.
#[unsafe(no_mangle)]
pub extern "C" fn tests_restore(
    form: &[u8],
    bytes: &mut [u8; BYTES],
    words: &mut [u32; WORDS],
) -> u32
    ensures { RestoreIs form.now bytes.new words.new result }
{
    let restored = saved::restore(form);
    let answer = restored.answer;
    let bench = restored.bench;
    let bytes_left = bench.bytes;
    *bytes = bytes_left;
    let words_left = bench.words;
    *words = words_left;
    u32::from(restore_number(answer))
}
