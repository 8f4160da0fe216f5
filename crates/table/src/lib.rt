// The device table ("part table" of document 01): the answer to any bytes.
#![tactic(auto)]

ghost use Rattle.std.specs.Prelude.{◌≡◌};
ghost use Rattle.model.specs.Table.{mark_good, version_good, limits_good, length_good, device_good, link_fits, ascends, entries_answer, table_answer};
ghost use Rattle.table.specs.Answers.{answer_of, refusal_of};

use model::{DEVICES, LINKS};
use table_entries::{byte_at, device_byte, ends_good, link_byte, parent_good};

// Why a table is refused, in document 01's order. An entry's refusal has its index.
#[derive(Clone, Copy, Debug, PartialEq, Eq)]
pub enum Refusal {
    Short,
    Mark,
    Version,
    Limits,
    Length,
    Device(u8),
    Link(u16),
}

impl Refusal {
    // Document 01's number.
    pub fn number(self) -> u8
        ensures { result ≡ (refusal_of self).number }
    {
        match self {
            Refusal::Short => 1,
            Refusal::Mark => 2,
            Refusal::Version => 3,
            Refusal::Limits => 4,
            Refusal::Length => 5,
            Refusal::Device(_) => 6,
            Refusal::Link(_) => 7,
        }
    }

    // The index of a faulty entry, 0 for any other refusal.
    pub fn index(self) -> u16
        ensures { result ≡ (refusal_of self).index }
    {
        match self {
            Refusal::Device(p) => u16::from(p),
            Refusal::Link(i) => i,
            _ => 0,
        }
    }
}

// Document 01's number of an answer, 0 where the table is taken.
pub fn number(answer: Result<(), Refusal>) -> u8
    ensures { result ≡ (answer_of answer).number }
{
    match answer {
        Ok(()) => 0,
        Err(refusal) => refusal.number(),
    }
}

// The index of a faulty entry, 0 for any other answer.
pub fn index(answer: Result<(), Refusal>) -> u16
    ensures { result ≡ (answer_of answer).index }
{
    match answer {
        Ok(()) => 0,
        Err(refusal) => refusal.index(),
    }
}

// The entry of device p keeps the rules.
fn device_good(t: &[u8], p: u8) -> bool
    ensures { result ≡ device_good t.now p }
{
    parent_good(p, device_byte(t, 0, p)) & (device_byte(t, 1, p) <= 1)
}

// The entry of link i keeps the rules, but for the order of links.
fn link_fits(t: &[u8], i: u16) -> bool
    ensures { result ≡ link_fits t.now i }
{
    ends_good(byte_at(t, 5), link_byte(t, 0, i), link_byte(t, 1, i)) & (link_byte(t, 2, i) <= 3)
}

// Link i comes strictly after the one before it, if there is one: by consumer, then by supplier.
fn link_ascends(t: &[u8], i: u16) -> bool
    ensures { result ≡ ascends t.now i }
{
    if i == 0 {
        return true;
    }
    let before = (link_byte(t, 0, i - 1), link_byte(t, 1, i - 1));
    before < (link_byte(t, 0, i), link_byte(t, 1, i))
}

// The first faulty entry in reading order: devices, then links.
// One loop, left by `break` with the refusal and its index: a form that the project keeps.
fn scan(t: &[u8]) -> Result<(), Refusal>
    ensures { answer_of result ≡ entries_answer t.now }
{
    let devices = byte_at(t, 5);
    let links = u16::from(byte_at(t, 6));
    let mut p: u8 = 0;
    let mut i: u16 = 0;
    let answer = 'entries: loop {
        if p < devices {
            if !device_good(t, p) {
                break 'entries Err(Refusal::Device(p));
            }
            p += 1;
        } else {
            if links <= i {
                break 'entries Ok(());
            }
            if !link_fits(t, i) {
                break 'entries Err(Refusal::Link(i));
            }
            if !link_ascends(t, i) {
                break 'entries Err(Refusal::Link(i));
            }
            i += 1;
        }
    };
    answer
}

// The mark: the letters TWB.
fn mark_good(t: &[u8]) -> bool
    ensures { result ≡ mark_good t.now }
{
    [byte_at(t, 0), byte_at(t, 1), byte_at(t, 2)] == *b"TWB"
}

// Version 1.
fn version_good(t: &[u8]) -> bool
    ensures { result ≡ version_good t.now }
{
    u16::from_le_bytes([byte_at(t, 3), byte_at(t, 4)]) == 1
}

// The device count and the link count lie within the limits.
fn limits_good(t: &[u8]) -> bool
    ensures { result ≡ limits_good t.now }
{
    let n = byte_at(t, 5);
    (1 <= n) & (n <= DEVICES) & (usize::from(byte_at(t, 6)) <= LINKS)
}

// The length is exact.
fn length_good(t: &[u8]) -> bool
    ensures { result ≡ length_good t.now }
{
    t.len() == 7 + 2 * usize::from(byte_at(t, 5)) + 3 * usize::from(byte_at(t, 6))
}

// The answer to any bytes: the first fault in reading order.
pub fn judge(t: &[u8]) -> Result<(), Refusal>
    ensures { answer_of result ≡ table_answer t.now }
{
    if t.len() < 7 {
        return Err(Refusal::Short);
    }
    if !mark_good(t) {
        return Err(Refusal::Mark);
    }
    if !version_good(t) {
        return Err(Refusal::Version);
    }
    if !limits_good(t) {
        return Err(Refusal::Limits);
    }
    if !length_good(t) {
        return Err(Refusal::Length);
    }
    scan(t)
}
