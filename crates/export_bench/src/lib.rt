// The public questions and the methods of a bench as functions that Rust links.
#![tactic(auto)]

ghost use Rattle.std.specs.Prelude.{◌≡◌, ◌+◌};
ghost use Rattle.memory.specs.Layout.{state_in};
ghost use Rattle.request_answer.specs.Promises.{reply_of};
ghost use Rattle.model.specs.Methods.{requested};
ghost use Rattle.keeper_bench.specs.Translate.{state_of};
ghost use Rattle.keeper_bench.specs.Methods.{number_in, reply_in, Gives};
ghost use Rattle.keeper_answers.specs.Told.{number_told, told_code};
ghost use Rattle.export_bench.specs.Asked.{asked_of};
ghost use Rattle.export_bench.specs.Called.{packed, method_of, CalledIs};

use keeper_answers::{Refusal, code};
use keeper_bench::Bench;
use keeper_bench::methods::{Requested, Unsound};
use memory::{BYTES, WORDS};
use request_answer::Reply;

// A question on a bench: status, user holds, usage count, child count and parents above from 0 on, else the membership of device q in the
// wake set of device p.
fn answer(b: Bench, question: u8, p: u8, q: u8) -> Result<u32, Refusal>
    ensures { number_told result ≡ asked_of (state_of b) question p q }
{
    match question {
        0 => Ok(u32::from(keeper_questions::status_of(b, p)?.number())),
        1 => keeper_questions::user_holds(b, p),
        2 => keeper_questions::usage_count(b, p),
        3 => keeper_questions::child_count(b, p),
        4 => keeper_questions::parents_above(b, p),
        _ => Ok(u32::from(keeper_questions::in_wake_set(b, p, q)?)),
    }
}

// The same on the memory of a bench, the answer as one number.
#[unsafe(no_mangle)]
pub extern "C" fn tests_ask<'a>(
    bytes: &'a [u8; BYTES],
    words: &'a [u32; WORDS],
    question: u8,
    p: u8,
    q: u8,
) -> u64
    ensures { result ≡ told_code (asked_of (state_in bytes.now words.now) question p q) }
{
    let b = Bench {
        bytes: *bytes,
        words: *words,
    };
    code(answer(b, question, p, q))
}

// The method of a kind, that of results for any kind above 12.
fn called(b: Bench, kind: u8, p: u8, v: u16) -> Requested
    ensures { Gives b (method_of kind p v) result }
{
    match kind {
        1 => b.enable(p),
        2 => b.disable(p),
        3 => b.get(p),
        4 => b.get_wake(p),
        5 => b.put(p),
        6 => b.put_idle(p),
        7 => b.idle(p),
        8 => b.suspend(p),
        9 => b.wake(p),
        10 => b.set_active(p),
        11 => b.set_suspended(p),
        12 => b.ignore_children(p, v),
        _ => b.result(p, v),
    }
}

// A reply as one number, from the low byte on: its kind, its device and its code.
fn pack(reply: Reply) -> u32
    ensures { result ≡ packed (reply_of reply) }
{
    u32::from(reply.kind) + 256 * u32::from(reply.device) + 65536 * u32::from(reply.code)
}

// The reply of an outcome; 21, which is no kind of reply, for a bench that is not sound.
fn outcome_code(outcome: Result<Reply, Unsound>) -> u32
    ensures { result ≡ number_in outcome + packed (reply_in outcome) }
{
    match outcome {
        Ok(reply) => pack(reply),
        Err(Unsound) => 21,
    }
}

// The method of a kind on the memory of a bench, in place.
#[unsafe(no_mangle)]
pub extern "C" fn tests_request(
    bytes: &mut [u8; BYTES],
    words: &mut [u32; WORDS],
    kind: u8,
    p: u8,
    v: u16,
) -> u32
    ensures { CalledIs (requested (state_in bytes.old words.old) (method_of kind p v))
        bytes.new words.new result }
{
    let b = Bench {
        bytes: *bytes,
        words: *words,
    };
    let done = called(b, kind, p, v);
    let outcome = done.outcome;
    let bench = done.bench;
    let bytes_left = bench.bytes;
    *bytes = bytes_left;
    let words_left = bench.words;
    *words = words_left;
    outcome_code(outcome)
}
