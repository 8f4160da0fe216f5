// A status, the soundness test and one record over the memory of a bench, as functions that Rust links.
#![tactic(auto)]

ghost use Rattle.std.specs.Prelude.{◌≡◌};
ghost use Rattle.memory.specs.Layout.{state_in};
ghost use Rattle.request_answer.specs.Promises.{reply_of};
ghost use Rattle.model.specs.SoundTest.{sound_test};
ghost use Rattle.export_states.specs.Exported.{packed, StatusSet, StepIs};

use memory::{BYTES, WORDS};
use record_kinds::Record;
use request_answer::Reply;

// The status of device p becomes v, and the counts follow.
#[unsafe(no_mangle)]
pub extern "C" fn tests_set_status(bytes: &mut [u8; BYTES], words: &mut [u32; WORDS], p: u8, v: u8)
    ensures { StatusSet p v bytes.old words.old bytes.new words.new }
{
    let first = links::index(bytes, words);
    counts::set_status(bytes, words, &first, p, v);
}

// The bench is sound.
#[unsafe(no_mangle)]
pub extern "C" fn tests_sound<'a>(bytes: &'a [u8; BYTES], words: &'a [u32; WORDS]) -> bool
    ensures { result ≡ sound_test (state_in bytes.now words.now) }
{
    sound_callback::sound(bytes, words)
}

// A reply as one number, from the low byte on: its kind, its device and its code.
fn pack(reply: Reply) -> u32
    ensures { result ≡ packed (reply_of reply) }
{
    u32::from(reply.kind) + 256 * u32::from(reply.device) + 65536 * u32::from(reply.code)
}

// One record: the reply to it as one number.
#[unsafe(no_mangle)]
pub extern "C" fn tests_step(
    bytes: &mut [u8; BYTES],
    words: &mut [u32; WORDS],
    kind: u8,
    device: u8,
    value: u16,
) -> u32
    ensures { StepIs bytes.old words.old (record { kind = kind; device = device; value = value })
        bytes.new words.new result }
{
    let first = links::index(bytes, words);
    let record = Record {
        kind,
        device,
        value,
    };
    let reply = record_step::step(bytes, words, &first, record);
    pack(reply)
}
