// One record and its one reply: refusals 11 to 15, -115, and the request or the result itself.
#![tactic(auto)]

ghost use Rattle.std.specs.Prelude.{◌≡◌, List, ℕ};
ghost use Rattle.model.specs.Steps.{result_step};
ghost use Rattle.memory.specs.Layout.{state_in};
ghost use Rattle.request_answer.specs.Promises.{LeadsBy};
ghost use Rattle.record_kinds.specs.Kinds.{rec_of};
ghost use Rattle.record_step.specs.Records.{open_in, Stepped};

use links::FIRSTS;
use memory::{BYTES, WORDS};
use model::EINPROGRESS;
use record_kinds::{RESULT, Record};
use request_answer::{CallbackKind, Reply, finished};

// Refused with a number.
fn refused(device: u8, number: u16) -> Reply
    ensures { result ≡ record { kind = 4; device = device; code = number } }
{
    Reply {
        kind: 4,
        device: device,
        code: number,
    }
}

// ---- kind 13

// An open callback: its kind, the device asked, and the device that was requested ("target").
#[derive(Clone, Copy)]
struct Open {
    kind: CallbackKind,
    asked: u8,
    target: u8,
}

// The open callback of the memory.
fn open_callback<'a>(bytes: &'a [u8; BYTES]) -> Option<Open>
    ensures { (words : List ℕ) → result ≡ open_in (state_in bytes.now words) }
{
    let kind = match memory::callback(bytes) {
        0 => return None,
        1 => CallbackKind::Suspend,
        2 => CallbackKind::Resume,
        _ => CallbackKind::Idle,
    };
    Some(Open {
        kind,
        asked: memory::asked(bytes),
        target: memory::target(bytes),
    })
}

// A callback result counts only when a callback is open (else 14), and only for the device asked (else 15).
fn result<'a>(
    bytes: &mut [u8; BYTES],
    words: &mut [u32; WORDS],
    first: &'a [u16; FIRSTS],
    p: u8,
    v: u16,
) -> Reply
    ensures { LeadsBy (λ s p. result_step s p v) first.now bytes.old words.old p
        bytes.new words.new result }
{
    let Some(
        Open {
            kind,
            asked,
            target,
        },
    ) = open_callback(bytes)
    else {
        return refused(p, 14);
    };
    if p != asked {
        return refused(p, 15);
    }
    match kind {
        CallbackKind::Suspend => request_suspend::suspend_result(bytes, words, first, asked, v),
        CallbackKind::Resume => {
            request_wake::resume_result(bytes, words, first, asked, target, v)
        }
        CallbackKind::Idle => request_suspend::idle_result(bytes, words, first, asked, v),
    }
}

// ---- every kind

// One record: the reply to it. A refused record changes nothing.
pub fn step<'a>(
    bytes: &mut [u8; BYTES],
    words: &mut [u32; WORDS],
    first: &'a [u16; FIRSTS],
    r: Record,
) -> Reply
    ensures { Stepped first.now bytes.old words.old (rec_of r) bytes.new words.new result }
{
    let kind = r.kind;
    let p = r.device;
    let v = r.value;
    if let Err(refusal) = record_kinds::fault(memory::devices(bytes), r) {
        return refused(p, refusal.number());
    }
    if kind == RESULT {
        return result(bytes, words, first, p, v);
    }
    if record_kinds::busy(bytes, kind) {
        return finished(p, EINPROGRESS);
    }
    record_request::request(bytes, words, first, kind, p, v)
}
