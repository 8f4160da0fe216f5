// A table written, and what became of it and of the buffer.
ghost use Rattle.std.specs.Prelude.{◌≤◌, length};

use std::io;
use writer_answer::Refusal;

// What a buffer holds before.
const MARK: u8 = 165;

// So many bytes of a table are shown.
const SHOWN: usize = 40;

// Every byte of a buffer is a mark, from a place on.
fn marked(s: &[u8], from: usize) -> bool {
    s.iter().skip(from).all(|b| *b == MARK)
}

// Whether byte k of a table is the first of the header, of a part or of a link. The links start at a place.
fn starts(k: usize, links: usize) -> bool {
    if k < 7 {
        k == 0
    } else if k < links {
        (k - 7) % 2 == 0
    } else {
        (k - links) % 3 == 0
    }
}

// A table, whose links start at a place, with a blank before its header, each part and each link; a long one up to the bytes that are
// shown.
pub fn table(rt: &impl Print, t: &[u8], links: usize) -> io::Result<()> {
    for (k, b) in t[..t.len().min(SHOWN)].iter().enumerate() {
        let blank = if starts(k, links) { " " } else { "" };
        print!(rt; "{blank}{b:02X}")?;
    }
    if SHOWN < t.len() {
        print!(rt; " ..")?;
    }
    Ok(())
}

// A table of so many bytes, whose links start at a place; whether the loader's test takes it.
fn written(rt: &impl Print, out: &[u8], size: usize, links: usize) -> io::Result<()> {
    let n = size.min(out.len());
    print!(rt; ": written {n},")?;
    table(rt, &out[..n], links)?;
    let rest = if marked(out, n) {
        "rest as before"
    } else {
        "REST CHANGED"
    };
    let answer = if table::judge(&out[..n]).is_ok() {
        "taken"
    } else {
        "REFUSED"
    };
    print!(rt; "; {rest}; {answer}")
}

fn refused(rt: &impl Print, out: &[u8], refusal: Refusal) -> io::Result<()> {
    let rest = if marked(out, 0) {
        "buffer as before"
    } else {
        "BUFFER CHANGED"
    };
    print!(rt;
        ": refused {}, index {}; {rest}",
        refusal.number(),
        refusal.index()
    )
}

// Bytes tried on a buffer, which is marked before: so many are the list of parts, the others the list of links. The table has a header of 7
// bytes more.
fn tried(rt: &impl Print, bytes: &[u8], count: usize, out: &mut [u8]) -> io::Result<()>
    requires { count ≤ length bytes.now }
{
    out.fill(MARK);
    match writer::write(&bytes[..count], &bytes[count..], out) {
        Ok(()) => written(rt, out, 7 + bytes.len(), 7 + count),
        Err(refusal) => refused(rt, out, refusal),
    }
}

// The same on a buffer of so many bytes.
pub fn attempt(rt: &impl Print, bytes: &[u8], count: usize, room: usize) -> io::Result<()>
    requires { count ≤ length bytes.now }
{
    let mut buffer = [0u8; 65536];
    let n = room.min(65536);
    tried(rt, bytes, count, &mut buffer[..n])
}
