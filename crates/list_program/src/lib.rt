// The program `list`: a table file as a text list of devices and links.
#![tactic(auto)]

ghost use Rattle.std.specs.Prelude.{◌≡◌, ◌⊎◌};
ghost use Rattle.model.specs.Table.{table_answer};
ghost use Rattle.list_program.specs.Ends.{Listed};
ghost use Rattle.list_program.specs.Lines.{device_line, link_line};

use list_print::{link_line, part_line};
use program_end::End;
use program_files::{arg_count, print, say};
use replay_text::line::Line;
use std::rt::Runtime;
use table::Refusal;
use table_entries::{byte_at, device_byte, link_byte};

// The line of device p.
fn device(t: &[u8], p: u8) -> Line
    ensures { result ≡ device_line t.now p }
{
    part_line(device_byte(t, 0, p), device_byte(t, 1, p))
}

// The line of link i.
fn link(t: &[u8], i: u16) -> Line
    ensures { result ≡ link_line t.now i }
{
    let consumer = link_byte(t, 0, i);
    let supplier = link_byte(t, 1, i);
    link_line(consumer, supplier, link_byte(t, 2, i))
}

// Prints the lines of all devices.
fn devices(rt: &impl Runtime, t: &[u8]) -> bool {
    (0..byte_at(t, 5)).all(|p| print(rt, b"list: ", device(t, p)))
}

// Prints the lines of all links.
fn links(rt: &impl Runtime, t: &[u8]) -> bool {
    (0..u16::from(byte_at(t, 6))).all(|i| print(rt, b"list: ", link(t, i)))
}

// Tells that the table is refused.
fn refuse(rt: &impl Runtime, refusal: Refusal) -> End
    ensures { (result ≡ End.Refused) ⊎ (result ≡ End.Failed) }
{
    if print(rt, b"list: ", replay_report::refused(Err(refusal))) {
        return End::Refused;
    }
    End::Failed
}

// The devices, and then the links.
fn entries(rt: &impl Runtime, t: &[u8]) -> End
    ensures { (result ≡ End.Done) ⊎ (result ≡ End.Failed) }
{
    if !devices(rt, t) {
        return End::Failed;
    }
    if !links(rt, t) {
        return End::Failed;
    }
    End::Done
}

// Lists a table, or tells that it is refused.
fn list(rt: &impl Runtime, t: &[u8]) -> End
    ensures { Listed (table_answer t.now).number result }
{
    match table::judge(t) {
        Ok(()) => entries(rt, t),
        Err(refusal) => refuse(rt, refusal),
    }
}

// Reads the table whose name is argument 1, and lists it. One that is longer than 4,096 bytes is refused with the number of its first
// 4,096, as in `replay`.
fn begin(rt: &impl Runtime) -> End {
    let mut bytes = io::buffer();
    let Ok(count) = program_files::first_bytes(rt, b"list: ", b"TABLE", &mut bytes) else {
        return End::Failed;
    };
    list(rt, &bytes[..count])
}

// The program, and its exit status.
pub fn run(rt: &impl Runtime) -> u8 {
    if arg_count(rt, 3) != 2 {
        say(rt, b"usage: list TABLE\n");
        return u8::from(End::Wrong);
    }
    u8::from(begin(rt))
}
