// The bench that a C host keeps as bytes, and the questions by their numbers.
#![tactic(auto)]

ghost use Rattle.std.specs.Prelude.{◌≡◌, Err, false};
ghost use Rattle.model.specs.Questions.{told};
ghost use Rattle.keeper_bench.specs.Translate.{state_of};
ghost use Rattle.keeper_answers.specs.Told.{number_told, status_told, member_told, told_code};
ghost use Rattle.c_bench.specs.Benches.{BenchIs};
ghost use Rattle.c_calls.specs.Questions.{ask};

use keeper_answers::{Refusal, Status, code};
use keeper_bench::Bench;
use saved_form::FORM;

// The bench that state bytes begin with. Whether it is sound is not asked here: whoever takes it asks.
pub fn bench_in(state: &[u8]) -> Bench
    ensures { BenchIs state.now result }
{
    if state.len() < FORM {
        return keeper::empty();
    }
    match saved_read::read(&state[0..FORM]) {
        Ok(cells) => {
            let bytes = cells.bytes;
            let words = cells.words;
            Bench { bytes, words }
        }
        Err(_) => keeper::empty(),
    }
}

// An unknown question: 21, then 24.
fn unknown(b: Bench) -> Refusal
    ensures { number_told (Err result) ≡ told (state_of b) false 0 }
{
    if !b.sound() {
        return Refusal::Unsound;
    }
    Refusal::Unknown
}

// A status as one number: the refusal's number and 256 times what is told, as `code` makes it of a number.
fn status_code(answer: Result<Status, Refusal>) -> u64
    ensures { result ≡ told_code (status_told answer) }
{
    match answer {
        Ok(status) => 256 * u64::from(status.number()),
        Err(refusal) => u64::from(refusal.number()),
    }
}

// Whether a device is a member, as one number.
fn member_code(answer: Result<bool, Refusal>) -> u64
    ensures { result ≡ told_code (member_told answer) }
{
    match answer {
        Ok(member) => 256 * u64::from(member),
        Err(untold) => u64::from(untold.number()),
    }
}

// A question about device p, in the wake set's question about p and q: the refusal's number and 256 times what is told.
pub fn asked(b: Bench, question: u32, p: u8, q: u8) -> u64
    ensures { result ≡ told_code (ask question (state_of b) p q) }
{
    match question {
        0 => status_code(keeper_questions::status_of(b, p)),
        1 => code(keeper_questions::usage_count(b, p)),
        2 => code(keeper_questions::child_count(b, p)),
        3 => code(keeper_questions::user_holds(b, p)),
        4 => member_code(keeper_questions::in_wake_set(b, p, q)),
        5 => code(keeper_questions::parents_above(b, p)),
        _ => u64::from(unknown(b).number()),
    }
}
