// The program `write`: a text list of devices and links into a table file.
#![tactic(auto)]

ghost use Rattle.std.specs.Prelude.{◌≡◌, ◌⊎◌};
ghost use Rattle.write_program.specs.Ends.{TableFor, refusal_line, MadeFor, EndsBy, ListEnds};

use list_lines::entries::Fault;
use list_make::{Failure, Refusal};
use program_end::End;
use program_files::{arg_count, close, say};
use replay_text::line::Line;
use std::fs::OpenFile;
use std::io::Write;
use std::rt::Runtime;

// Tells why a list is turned away.
fn tell(rt: &impl Runtime, line: Line) -> End
    ensures { (result ≡ End.Refused) ⊎ (result ≡ End.Failed) }
{
    if program_files::print(rt, b"write: ", line) {
        return End::Refused;
    }
    End::Failed
}

// The line of a refusal.
fn refusal(r: Refusal) -> Line
    ensures { result ≡ refusal_line r }
{
    let number = u64::from(r.number);
    let index = u64::from(r.index);
    let line = r.line;
    if line == 0 {
        return list_report::nowhere(number, index);
    }
    list_report::refused(number, index, line as u64)
}

// The line that tells why a list is turned away.
fn reason(failure: Failure) -> Line {
    match failure {
        Failure::Line(faulty) => match faulty.fault {
            Fault::Large => list_report::large(faulty.line as u64),
            Fault::Wrong => list_report::wrong(faulty.line as u64),
        },
        Failure::Refused(r) => refusal(r),
    }
}

// Writes the bytes to an open file and closes it.
fn stored(mut file: impl Write + OpenFile + Drop, table: &[u8]) -> std::io::Result<()> {
    file.write_all(table)?;
    close(file)
}

// Writes the table of a text to the file whose name is argument 2.
fn store(rt: &impl Runtime, text: &[u8], table: &[u8]) -> End
    requires { TableFor text.now table.now }
    ensures { (result ≡ End.Done) ⊎ (result ≡ End.Failed) }
{
    let mut path = io::buffer();
    let opened = program_files::opened(rt, b"write: ", 2, b"TABLE", &mut path, true);
    let Ok((file, length)) = opened else {
        return End::Failed;
    };
    let Err(error) = stored(file, table) else {
        return End::Done;
    };
    program_files::complain(rt, b"write: ", &path[..length], error);
    End::Failed
}

// What is done with a list that has become this.
fn finish(rt: &impl Runtime, text: &[u8], made: Result<usize, Failure>, table: &[u8]) -> End
    requires { MadeFor text.now made table.now }
    ensures { EndsBy made result }
{
    match made {
        Ok(size) => store(rt, text, &table[..size]),
        Err(failure) => tell(rt, reason(failure)),
    }
}

// Writes the table of a text, or tells why there is none.
fn write(rt: &impl Runtime, text: &[u8]) -> End
    ensures { ListEnds text.now result }
{
    let mut table = io::buffer();
    let made = list_make::make(text, &mut table);
    finish(rt, text, made, &table)
}

// Reads the list whose name is argument 1, and writes its table. A list that fills the buffer is longer than is taken.
fn begin(rt: &impl Runtime) -> End {
    let mut text = io::large_buffer();
    let Ok(count) = program_files::first_bytes(rt, b"write: ", b"LIST", &mut text) else {
        return End::Failed;
    };
    if 65536 <= count {
        return tell(rt, list_report::long());
    }
    write(rt, &text[..count])
}

// The program, and its exit status.
pub fn run(rt: &impl Runtime) -> u8 {
    if arg_count(rt, 4) != 3 {
        say(rt, b"usage: write LIST TABLE\n");
        return u8::from(End::Wrong);
    }
    if program_files::same_name(rt, 1, 2) {
        say(rt, b"write: TABLE has the name of LIST\n");
        return u8::from(End::Wrong);
    }
    u8::from(begin(rt))
}
