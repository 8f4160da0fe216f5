// Pieces of log.
ghost use Rattle.std.specs.Prelude.{◌≤◌};

use crate::{Play, mixed, show};
use keeper_bench::Bench;
use memory::BYTES;
use std::io;
use test_words::byte_at;

// What a buffer for replies holds before.
const MARK: u8 = 165;

// The reply at a place.
fn reply_at(s: &[u8], at: usize) -> [u8; 4]
    requires { at ≤ 262144 }
{
    [
        byte_at(s, at),
        byte_at(s, at + 1),
        byte_at(s, at + 2),
        byte_at(s, at + 3),
    ]
}

// A reply that stood so often.
fn stood(rt: &impl Print, reply: [u8; 4], times: u64) -> io::Result<()> {
    print!(rt; ",")?;
    show::bytes(rt, &reply)?;
    if 1 < times {
        print!(rt; " *{times}")?;
    }
    Ok(())
}

// Reply k. Where the same follows it is counted, otherwise written with how often it stood.
fn counted(rt: &impl Print, s: &[u8], k: u16, times: u64) -> io::Result<u64> {
    let at = 4 * usize::from(k);
    let one = reply_at(s, at);
    if one == reply_at(s, at + 4) {
        return Ok(times.saturating_add(1));
    }
    stood(rt, one, times)?;
    Ok(1)
}

// So many replies, mixed with those before them. After the last of them stand marks.
fn replies(rt: &impl Print, s: &[u8], n: u16, before: u64) -> io::Result<u64> {
    let mut all = before;
    let mut times: u64 = 1;
    for k in 0..n {
        times = counted(rt, s, k, times)?;
        all = mixed(all, reply_at(s, 4 * usize::from(k)));
    }
    Ok(all)
}

// How many bytes are carried, and the three places for them.
fn carried(rt: &impl Print, bytes: &[u8; BYTES]) -> io::Result<()> {
    let used = memory::used(bytes);
    print!(rt; "; carried {used}")?;
    if used != 0 {
        let places = [
            memory::carried(bytes, 0),
            memory::carried(bytes, 1),
            memory::carried(bytes, 2),
        ];
        show::bytes(rt, &places)?;
    }
    Ok(())
}

// What a piece leaves: the bytes carried, whether the bench stayed, and whether the buffer after so many replies did.
fn left(rt: &impl Print, before: Bench, after: Bench, buffer: &[u8], n: u16) -> io::Result<()> {
    carried(rt, &after.bytes)?;
    if test_same::same(before, after) {
        print!(rt; "; bench as before")?;
    }
    if buffer.iter().skip(4 * usize::from(n)).all(|b| *b == MARK) {
        print!(rt; "; rest as before")
    } else {
        print!(rt; "; BUFFER CHANGED")
    }
}

// A piece, with so many bytes of a buffer that is marked before.
pub fn feed(rt: &impl Print, play: Play, room: u32, piece: &[u8]) -> io::Result<Play> {
    let mut buffer = [MARK; 65536];
    let n = (room as usize).min(65536);
    print!(rt; ": piece {}", piece.len())?;
    let fed = keeper::feed(play.bench, piece, &mut buffer[..n]);
    match fed.answer {
        Ok(count) => print!(rt; ", taken {count}")?,
        Err(refusal) => print!(rt; ", refused {}", refusal.number())?,
    }
    let count = fed.answer.unwrap_or(0);
    let all = replies(rt, &buffer, count, play.replies)?;
    left(rt, play.bench, fed.bench, &buffer, count)?;
    Ok(Play {
        bench: fed.bench,
        replies: all,
    })
}
