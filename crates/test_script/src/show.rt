// What is written to standard output.
use keeper_answers::{Refusal, Status};
use keeper_bench::Bench;
use memory::{BYTES, WORDS};
use std::fmt::Display;
use std::io;

// Bytes in hexadecimal, a blank before each.
pub fn bytes(rt: &impl Print, s: &[u8]) -> io::Result<()> {
    for b in s {
        print!(rt; " {b:02X}")?;
    }
    Ok(())
}

// An answer: the number of the refusal, or what was asked for.
pub fn answer<T: Display + Drop>(rt: &impl Print, told: Result<T, Refusal>) -> io::Result<()> {
    match told {
        Ok(x) => print!(rt; " {x}"),
        Err(refusal) => print!(rt; " refused {}", refusal.number()),
    }
}

// A status by its name.
pub fn status(s: Status) -> &'static str {
    match s {
        Status::Suspended => "suspended",
        Status::Resuming => "resuming",
        Status::Active => "active",
        Status::Suspending => "suspending",
    }
}

// The open callback, if there is one.
fn callback(rt: &impl Print, kind: u8, asked: u8, target: u8) -> io::Result<()> {
    let name = match kind % 4 {
        0 => "none",
        1 => "suspend",
        2 => "resume",
        _ => "idle",
    };
    if kind == 0 {
        return Ok(());
    }
    print!(rt; ", open {name} of {asked} for {target}")
}

// The cells of device p that no question tells, and the open callback.
fn cells(rt: &impl Print, bytes: &[u8; BYTES], words: &[u32; WORDS], p: u8) -> io::Result<()> {
    let error = memory_rows::error(words, p);
    let sign = if error == 0 { "" } else { "-" };
    let ignores = if memory_rows::ignore(bytes, p) == 0 {
        ""
    } else {
        " ignores children"
    };
    print!(rt;
        " depth {} error {sign}{error}{ignores}",
        memory_rows::depth(bytes, p)
    )?;
    callback(
        rt,
        memory::callback(bytes),
        memory::asked(bytes),
        memory::target(bytes),
    )
}

// The state of device p, and the open callback.
pub fn state(rt: &impl Print, b: Bench, p: u8) -> io::Result<()> {
    answer(rt, keeper_questions::status_of(b, p).map(status))?;
    print!(rt; " usage")?;
    answer(rt, keeper_questions::usage_count(b, p))?;
    print!(rt; " children")?;
    answer(rt, keeper_questions::child_count(b, p))?;
    print!(rt; " holds")?;
    answer(rt, keeper_questions::user_holds(b, p))?;
    cells(rt, &b.bytes, &b.words, p)
}
