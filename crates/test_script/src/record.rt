// One record: by the bench's method and by the dispatch.
use crate::{Play, hand, mixed, show};
use keeper_bench::Bench;
use keeper_bench::methods::{Requested, Unsound};
use record_kinds::Record;
use request_answer::Reply;
use std::io;
use test_words::number_in;

// By the method of its kind. A kind that has no method, or a value that its method does not take, goes to the dispatch.
fn requested(b: Bench, r: Record) -> Requested {
    let kind = r.kind;
    let p = r.device;
    let v = r.value;
    if (v != 0) & (kind < 12) {
        return hand::dispatched(b, r);
    }
    match kind {
        1 => b.enable(p),
        2 => b.disable(p),
        3 => b.get(p),
        4 => b.get_wake(p),
        5 => b.put(p),
        6 => b.put_idle(p),
        7 => b.idle(p),
        8 => b.suspend(p),
        9 => b.wake(p),
        10 => b.set_active(p),
        11 => b.set_suspended(p),
        12 => b.ignore_children(p, v),
        13 => b.result(p, v),
        _ => hand::dispatched(b, r),
    }
}

// The four bytes of a kind, a device and a 16-bit number.
fn packed(kind: u8, device: u8, x: u16) -> [u8; 4] {
    let [low, high] = x.to_le_bytes();
    [kind, device, low, high]
}

// The bytes of a reply; 21, which is no kind of reply, for a bench that is not sound.
fn reply(outcome: Result<Reply, Unsound>) -> [u8; 4] {
    match outcome {
        Ok(r) => packed(r.kind, r.device, r.code),
        Err(_) => [21, 0, 0, 0],
    }
}

// The state of device p that a record leaves.
fn left(rt: &impl Print, b: Bench, p: u8) -> io::Result<()> {
    if p < memory::devices(&b.bytes) {
        print!(rt; "; device {p}")?;
        show::state(rt, b, p)?;
    }
    Ok(())
}

// A reply, and whether the dispatch gives the same and leaves the same bench.
fn replied(rt: &impl Print, q: Requested, p: u8, other: Requested) -> io::Result<()> {
    let x = reply(q.outcome);
    let b = q.bench;
    show::bytes(rt, &x)?;
    left(rt, b, p)?;
    if (x != reply(other.outcome)) | !test_same::same(b, other.bench) {
        print!(rt; "; METHOD AND DISPATCH DIFFER")?;
    }
    Ok(())
}

// What a record is answered.
fn told(rt: &impl Print, b: Bench, r: Record, q: Requested) -> io::Result<()> {
    print!(rt; ":")?;
    show::bytes(rt, &packed(r.kind, r.device, r.value))?;
    print!(rt; " ->")?;
    if q.outcome.is_ok() {
        replied(rt, q, r.device, hand::dispatched(b, r))?;
    } else {
        print!(rt; " 21")?;
    }
    if test_same::same(b, q.bench) {
        print!(rt; "; bench as before")?;
    }
    Ok(())
}

// One record.
fn one(rt: &impl Print, play: Play, r: Record) -> io::Result<Play> {
    let before = play.bench;
    let q = requested(before, r);
    told(rt, before, r, q)?;
    Ok(Play {
        bench: q.bench,
        replies: mixed(play.replies, reply(q.outcome)),
    })
}

// A record by its kind, its device and its value, if these are numbers.
pub fn named(rt: &impl Print, play: Play, kind: u8, line: &[u8]) -> io::Result<Play> {
    let device = number_in(line, 1);
    let value = number_in(line, 2);
    if (255 < device) | (65535 < value) {
        print!(rt; ": NO NUMBER")?;
        return Ok(play);
    }
    let r = Record {
        kind,
        device: device as u8,
        value: value as u16,
    };
    one(rt, play, r)
}

// A record by its bytes, if they are four.
pub fn raw(rt: &impl Print, play: Play, s: &[u8]) -> io::Result<Play> {
    match s {
        [kind, device, low, high] => {
            let r = Record {
                kind: *kind,
                device: *device,
                value: u16::from_le_bytes([*low, *high]),
            };
            one(rt, play, r)
        }
        _ => {
            print!(rt; ": NO BYTES")?;
            Ok(play)
        }
    }
}
