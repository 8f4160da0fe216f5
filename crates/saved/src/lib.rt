// A bench saved to a buffer, and restored from bytes of any contents (request Four of document 02, "Keep the bench through a battery change").
#![tactic(auto)]

ghost use Rattle.std.specs.Prelude.{◌≡◌};
ghost use Rattle.keeper_bench.specs.Translate.{state_of};
ghost use Rattle.saved_form.specs.Saving.{save_of};
ghost use Rattle.saved_form.specs.Restoring.{restore_of};
ghost use Rattle.saved.specs.Translate.{saved_of, bench_restored, restored_of};

use keeper_bench::Bench;
use saved_answer::{RestoreRefusal, SaveRefusal};
use saved_read::Cells;

// Save a bench: 21 and 8 are tested in this order. The form stands at the front of the buffer, the rest of which stays.
pub fn save(bench: Bench, buffer: &mut [u8]) -> Result<(), SaveRefusal>
    ensures { saved_of result buffer.new ≡ save_of (state_of bench) buffer.old }
{
    if !bench.sound() {
        return Err(SaveRefusal::Unsound);
    }
    let bytes = bench.bytes;
    let words = bench.words;
    saved_write::write(bytes, words, buffer)
}

// What restoring gives: the answer, and the bench, empty where the bytes are refused.
#[derive(Clone, Copy)]
pub struct Restored {
    pub answer: Result<(), RestoreRefusal>,
    pub bench: Bench,
}

// The bench whose form the bytes are; what was read is refused with 21 where it is not sound.
fn taken(f: &[u8]) -> Result<Bench, RestoreRefusal>
    ensures { bench_restored result ≡ restore_of f.now }
{
    let Cells { bytes, words } = saved_read::read(f)?;
    let bench = Bench { bytes, words };
    if !bench.sound() {
        return Err(RestoreRefusal::Unsound);
    }
    Ok(bench)
}

// Restore a bench: 1, 2, 3, 5 and 21 are tested in this order. Any bytes get an answer; a refusal leaves the empty bench.
pub fn restore(f: &[u8]) -> Restored
    ensures { restored_of result ≡ restore_of f.now }
{
    match taken(f) {
        Ok(bench) => Restored {
            answer: Ok(()),
            bench,
        },
        Err(refusal) => Restored {
            answer: Err(refusal),
            bench: keeper::empty(),
        },
    }
}
