// What every program does with files: what is read, what is written, and what is said where a file fails.
#![tactic(auto)]

ghost use Rattle.std.specs.Prelude.{◌≡◌, IfOk, IfErr};
ghost use Rattle.std.specs.Io.{WritesAtMost};
ghost use Rattle.io.specs.Counts.{IsPrefixLen};

use replay_text::line::Line;
use std::env::{Env, FillError};
use std::fs;
use std::fs::{Files, OpenFile};
use std::io::{Error, Read, Result, Write};
use std::rt::Runtime;

// The C library's numbers of what is wrong with an argument: there is none, it is too long, or it is no text.
const EINVAL: i32 = 22;

const ENAMETOOLONG: i32 = 36;

const EILSEQ: i32 = 84;

// A count of a buffer's bytes: no more than there are.
pub fn within(count: usize, buf: &[u8]) -> usize
    ensures { IsPrefixLen result buf.now }
{
    count.min(buf.len())
}

// Says something on standard error: text as it is, and bytes that are no text as Rust writes them.
pub fn say(rt: &impl Eprint, text: &[u8]) {
    let _ = match str::from_utf8(text) {
        Ok(text) => rt.eprint(text),
        Err(_) => rt.eprint(text.escape_ascii()),
    };
}

// What went wrong, without the number that the library puts after it.
fn reason(text: &str) -> &str {
    text.split_once(" (os error ")
        .map_or(text, |(reason, _)| reason)
}

// Names the program, a file or an argument that failed, and the reason.
pub fn complain(rt: &(impl Eprint + Alloc), program: &[u8], what: &[u8], error: Error) {
    say(rt, program);
    say(rt, what);
    say(rt, b": ");
    match error.to_string(rt.alloc()) {
        Ok(text) => say(rt, reason(&text).as_bytes()),
        // Without memory for the text the reason is printed as the library has it.
        Err(_) => {
            let _ = rt.eprint(error);
        }
    }
    say(rt, b"\n");
}

// Writes a line.
pub fn put(out: &mut impl Write, line: Line) -> Result<()> {
    let bytes = line.bytes;
    out.write_all(&bytes[..within(line.used, &bytes)])
}

// Writes a line to standard output and answers whether it could, and says so where not: an error handed on would be told twice.
pub fn print(rt: &impl Runtime, program: &[u8], line: Line) -> bool {
    match put(&mut std::io::writer(rt), line) {
        Ok(()) => true,
        Err(error) => {
            complain(rt, program, b"standard output", error);
            false
        }
    }
}

// Whether there is an argument i.
fn is_given(rt: &impl Env, i: usize) -> bool {
    !matches!(rt.arg(i, &mut []), Err(FillError::NotPresent))
}

// How many arguments there are, the program's name among them; `most` where there are more.
pub fn arg_count(rt: &impl Env, most: usize) -> usize {
    (0..most).find(|i| !is_given(rt, *i)).unwrap_or(most)
}

// Puts argument i at the front of buf, and answers its length.
pub fn argument(rt: &impl Env, i: usize, buf: &mut [u8]) -> Result<usize>
    ensures { WritesAtMost result buf.new }
{
    rt.arg(i, buf).map_err(|error| {
        Error::from_raw_os_error(match error {
            FillError::NotPresent => EINVAL,
            FillError::TooLong => ENAMETOOLONG,
        })
    })
}

// Whether arguments i and j are the same name. Names that cannot be read differ: what is wrong with them is said where the file is opened.
pub fn same_name(rt: &impl Env, i: usize, j: usize) -> bool {
    let mut one = io::buffer();
    let mut other = io::buffer();
    match (argument(rt, i, &mut one), argument(rt, j, &mut other)) {
        (Ok(length), Ok(end)) => one[..length] == other[..end],
        _ => false,
    }
}

// A read that failed: how many bytes were read before it, and why.
#[derive(Clone, Copy)]
pub struct FailedRead {
    pub count: usize,
    pub error: Error,
}

// Reads until buf has that many bytes or is full, the input ends or a read fails, and answers how many bytes were read. They stand at the
// front of buf, also where a read failed; which they are no contract of the library says.
pub fn fill(
    from: &mut impl Read,
    buf: &mut [u8],
    size: usize,
) -> std::result::Result<usize, FailedRead>
    ensures ok { IfOk result (λ count. IsPrefixLen count buf.new) }
    ensures err { IfErr result (λ failed. IsPrefixLen failed.count buf.new) }
{
    let most = within(size, buf);
    let mut done: usize = 0;
    while done < most {
        let more = match from.read(&mut buf[done..most]) {
            Ok(more) => more,
            Err(error) => return Err(FailedRead { count: done, error }),
        };
        if more == 0 {
            break;
        }
        done += more;
    }
    Ok(done)
}

// The name of a file, which has to be text.
pub fn name(path: &[u8]) -> Result<&str> {
    str::from_utf8(path).map_err(|_| Error::from_raw_os_error(EILSEQ))
}

// Opens a file by its name, to read it or to write it anew. A switch, since a closure would need a `requires` on `opened`, which has none.
fn open<R: Files>(rt: &R, path: &[u8], write: bool) -> Result<R::File> {
    let path = name(path)?;
    if write {
        return fs::create(rt, path);
    }
    fs::open(rt, path)
}

// Closes a file that was written, and waits until a regular one has reached the device: what fails late is told here.
pub fn close(file: impl OpenFile + Drop) -> Result<()> {
    if file.metadata()?.is_file() {
        return file.sync_all();
    }
    Ok(())
}

// A file that did not open: the length of its name, 0 where that could not be read, and why.
#[derive(Clone, Copy)]
pub struct FailedOpen {
    pub length: usize,
    pub error: Error,
}

// Nothing is read of a file that did not open.
impl From<FailedOpen> for FailedRead {
    ghost from_gives = { λ failed read. (read.count ≡ 0) × (read.error ≡ failed.error) };

    fn from(failed: FailedOpen) -> FailedRead {
        FailedRead {
            count: 0,
            error: failed.error,
        }
    }
}

// Opens the file whose name is argument i, which the usage calls so. The name is put at the front of path, and its length is answered with
// the open file, or with why there is none. Says what fails.
pub fn opened<R: Runtime>(
    rt: &R,
    program: &[u8],
    i: usize,
    called: &[u8],
    path: &mut [u8],
    write: bool,
) -> std::result::Result<(R::File, usize), FailedOpen>
    ensures ok { IfOk result (λ opened. IsPrefixLen opened.1 path.new) }
    ensures err { IfErr result (λ failed. IsPrefixLen failed.length path.new) }
{
    let length = match argument(rt, i, path) {
        Ok(length) => length,
        Err(error) => {
            complain(rt, program, called, error);
            return Err(FailedOpen { length: 0, error });
        }
    };
    match open(rt, &path[..length], write) {
        Ok(file) => Ok((file, length)),
        Err(error) => {
            complain(rt, program, &path[..length], error);
            Err(FailedOpen { length, error })
        }
    }
}

// The number of the first bytes of the file whose name is argument 1, as many as buf has room for; they stand at its front, as those do that
// were read before a read failed.
pub fn first_bytes(
    rt: &impl Runtime,
    program: &[u8],
    called: &[u8],
    buf: &mut [u8],
) -> std::result::Result<usize, FailedRead>
    ensures ok { IfOk result (λ count. IsPrefixLen count buf.new) }
    ensures err { IfErr result (λ failed. IsPrefixLen failed.count buf.new) }
{
    let mut path = io::buffer();
    let (mut file, length) = opened(rt, program, 1, called, &mut path, false)?;
    let read = fill(&mut file, buf, buf.len());
    if let Err(failed) = &read {
        complain(rt, program, &path[..length], failed.error);
    }
    read
}
