// The writer of tables tried by a script: a command a line, answered by a line. The script is read from standard input.
//
//   # TEXT                   a title, written as it stands; `; TEXT` is for the reader of the script alone
//   write ROOM COUNT BYTES   a table written to a buffer of ROOM bytes: the first COUNT of BYTES are the list of parts, the others the
//                            list of links
//
// Numbers are decimal. BYTES are written as in the other scripts (crates/test_script/src/lib.rt).
#![tactic(auto)]

mod attempt;

use std::io;
use test_words::{WRONG, number_in};

// So many of the bytes are parts, if there are so many bytes.
fn counted(rt: &impl Print, bytes: &[u8], count: usize, room: usize) -> io::Result<()> {
    if bytes.len() < count {
        return print!(rt; ": NO BYTES");
    }
    attempt::attempt(rt, bytes, count, room)
}

// The bytes of a line, with its two numbers, if they are numbers.
fn numbered(rt: &impl Print, line: &[u8], bytes: &[u8]) -> io::Result<()> {
    let room = number_in(line, 1);
    let count = number_in(line, 2);
    if (WRONG <= room) | (WRONG <= count) {
        return print!(rt; ": NO NUMBER");
    }
    counted(rt, bytes, count as usize, room as usize)
}

// A line of `write`: its bytes stand after the numbers. Bytes that fill their buffer may not be all.
fn write(rt: &impl Print, line: &[u8]) -> io::Result<()> {
    let mut bytes = [0u8; 65536];
    match test_words::bytes_in(line, 3, &mut bytes) {
        Some(n) if n < 65536 => numbered(rt, line, &bytes[..n]),
        _ => print!(rt; ": NO BYTES"),
    }
}

// A line that is a command.
fn command(rt: &impl Print, line: &[u8]) -> io::Result<()> {
    match test_words::name_in(b"write", line, 0) {
        Some(0) => write(rt, line),
        _ => print!(rt; ": NO COMMAND"),
    }
}

// A line: a note, a title, or a command and its answer.
fn line(rt: &impl Print, s: &[u8]) -> io::Result<()> {
    let first = test_words::byte_at(s, 0);
    if (first == 0) | (first == b';') {
        return Ok(());
    }
    rt.write_all(s)?;
    if first != b'#' {
        command(rt, s)?;
    }
    rt.write_all(b"\n")
}

// The script is read whole, so it has to be shorter than the buffer.
fn main(rt: HostRuntime) -> io::Result<()> {
    let mut script = [0u8; 65536];
    let n = test_words::read_input(&rt, &mut script)?;
    if 65535 < n {
        println!(&rt; "SCRIPT TOO LONG")?;
    }
    for s in script[..n].split(|b| *b == b'\n') {
        line(&rt, s)?;
    }
    Ok(())
}
