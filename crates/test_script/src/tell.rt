// Tables and questions.
use crate::hand::byte_in;
use crate::show;
use keeper_answers::Refusal;
use keeper_bench::Bench;
use std::io;
use test_words::name_in;

// A table loaded: what the bench holds, or why the table is refused.
pub fn table(rt: &impl Print, t: &[u8]) -> io::Result<Bench> {
    let loaded = keeper::load(t);
    let bench = loaded.bench;
    match loaded.answer {
        Ok(()) => {
            let devices = memory::devices(&bench.bytes);
            let links = memory::links(&bench.words);
            print!(rt; ": taken, devices {devices}, links {links}")?;
        }
        Err(refusal) => {
            let left = if test_same::same(bench, keeper::empty()) {
                "empty bench"
            } else {
                "NOT EMPTY"
            };
            print!(rt;
                ": refused {}, index {}, {left}",
                refusal.number(),
                refusal.index()
            )?;
        }
    }
    Ok(bench)
}

// The state of a device.
pub fn state(rt: &impl Print, b: Bench, p: u8) -> io::Result<()> {
    print!(rt; ": device {p}")?;
    show::state(rt, b, p)
}

// Whether the recursion has another word on q than the answer; a refused question has none.
fn recursion_differs(b: Bench, p: u8, q: u8, told: Result<bool, Refusal>) -> bool {
    let first = links::index(&b.bytes, &b.words);
    let marks = wakeset_recursion::wake_set(&b.bytes, &first, p);
    match told {
        Ok(member) => member != marks[usize::from(q)],
        Err(_) => false,
    }
}

// Whether q is in the wake set of p, by the question; the recursion is asked beside it.
fn wakes_with(rt: &impl Print, b: Bench, p: u8, q: u8) -> io::Result<Result<bool, Refusal>> {
    let told = keeper_questions::in_wake_set(b, p, q);
    if recursion_differs(b, p, q, told) {
        print!(rt; " RECURSION DIFFERS")?;
    }
    Ok(told)
}

// A question.
pub fn ask(rt: &impl Print, b: Bench, line: &[u8]) -> io::Result<()> {
    let k = name_in(b"status holds usage children above wake", line, 1);
    let p = byte_in(line, 2);
    print!(rt; ":")?;
    match k {
        Some(0) => show::answer(rt, keeper_questions::status_of(b, p).map(show::status)),
        Some(1) => show::answer(rt, keeper_questions::user_holds(b, p)),
        Some(2) => show::answer(rt, keeper_questions::usage_count(b, p)),
        Some(3) => show::answer(rt, keeper_questions::child_count(b, p)),
        Some(4) => show::answer(rt, keeper_questions::parents_above(b, p)),
        Some(5) => {
            let told = wakes_with(rt, b, p, byte_in(line, 3))?;
            show::answer(rt, told.map(|member| if member { "yes" } else { "no" }))
        }
        _ => print!(rt; " NO QUESTION"),
    }
}

// The wake set of device p.
pub fn wakes(rt: &impl Print, b: Bench, p: u8) -> io::Result<()> {
    print!(rt; ":")?;
    for q in 0..memory::devices(&b.bytes) {
        if let Ok(true) = wakes_with(rt, b, p, q)? {
            print!(rt; " {q}")?;
        }
    }
    Ok(())
}
