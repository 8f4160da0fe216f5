// The calls of a C host (request Five of document 02, "A C host"): the bench is kept by the host as bytes, which begin with its saved state.
// A slice is a pointer and a length in C; a null pointer with length 0 is an empty slice. `include/keeper.h` declares the functions.
#![tactic(auto)]

ghost use Rattle.std.specs.Prelude.{◌≡◌};
ghost use Rattle.saved_write.specs.Writes.{WriteIs};
ghost use Rattle.c_calls.specs.Calls.{load_bytes, feed_bytes, ask_bytes};

use c_bench::{asked, bench_in};
use c_calls::{device, given, refused, signed};
use keeper_bench::Bench;
use saved_answer::SaveRefusal;

// The saved form of a bench, written to state bytes; refused where there is no room.
fn keep(bench: Bench, state: &mut [u8]) -> Result<(), SaveRefusal>
    ensures { WriteIs bench.bytes bench.words state.old result state.new }
{
    let bytes = bench.bytes;
    let words = bench.words;
    saved_write::write(bytes, words, state)
}

// Load a table into state bytes: the table's own number is tested first, then 8, too little room.
#[unsafe(no_mangle)]
pub extern "C" fn keeper_load(table: &[u8], state: &mut [u8]) -> i32
    ensures { record { result = result; state = state.new } ≡ load_bytes table.now state.old }
{
    let loaded = keeper::load(table);
    let answer = loaded.answer;
    let fault = table::number(answer);
    if fault != 0 {
        return refused(fault);
    }
    let bench = loaded.bench;
    if let Err(refusal) = keep(bench, state) {
        return refused(refusal.number());
    }
    0
}

// Feed a piece of log against state bytes: 21, 22 and 23 are tested in this order. What is answered is the count of replies.
#[unsafe(no_mangle)]
pub extern "C" fn keeper_feed(state: &mut [u8], piece: &[u8], replies: &mut [u8]) -> i32
    ensures { record { result = result; state = state.new; replies = replies.new }
        ≡ feed_bytes state.old (record { bytes = piece.now; buffer = replies.old }) }
{
    let fed = keeper::feed(bench_in(state), piece, replies);
    let answer = fed.answer;
    let number = record_answer::number(answer);
    if number != 0 {
        return refused(number);
    }
    let bench = fed.bench;
    let _kept = keep(bench, state);
    given(u64::from(record_answer::count(answer)))
}

// Ask about a part: 21, then 24. A part number of any size is answered.
#[unsafe(no_mangle)]
pub extern "C" fn keeper_ask(state: &[u8], question: u32, part: u32, second: u32) -> i32
    ensures { result ≡ ask_bytes state.now question part second }
{
    signed(asked(bench_in(state), question, device(part), device(second)))
}
