// Test scripts: a command a line, each done on one bench and answered by a line. A script is read from standard input.
//
//   # TEXT                 a title, written as it stands; `; TEXT` is for the reader of the script alone
//   table BYTES            load a table
//   empty                  the empty bench
//   enable DEVICE          one record, by the bench's method and by the dispatch; so are disable, get, getwake, put, putidle, idle,
//                          suspend, wake, setactive and setsuspended
//   ignore DEVICE VALUE    kind 12; VALUE is 0 where there is none
//   result DEVICE VALUE    kind 13
//   record BYTES           one record of four bytes, the same way
//   feed ROOM BYTES        a piece, with so many bytes of buffer for its replies
//   state DEVICE           the state of a device
//   ask QUESTION DEVICE    status, holds, usage, children or above
//   ask wake DEVICE OTHER  whether the other device is in the device's wake set
//   wakes DEVICE           the wake set
//   set FIELD ROW VALUE    a cell changed by hand; `set callback` has a kind, the device asked and the target, `set carried` how many
//                          bytes are carried and those
//   save NAME, back NAME   keep the bench and the replies since the table, and return to them
//   same NAME              whether the bench, and the replies since the table, are those that were kept
//
// BYTES are words of hexadecimal pairs: GROUP, GROUP*COPIES, or GROUP*COPIES+STEP, where each copy is the one before it plus STEP, byte
// by byte.
#![tactic(auto)]

mod hand;
mod piece;
mod record;
mod show;
mod tell;

use keeper_bench::Bench;
use std::io;
use test_words::name_in;

// The bench, and a number that is made of every reply since the table.
#[derive(Clone, Copy)]
struct Play {
    bench: Bench,
    replies: u64,
}

// What a line asks for; a record by its kind.
#[derive(Clone, Copy)]
enum Command {
    Record(u8),
    Raw,
    Feed,
    Table,
    Empty,
    Set,
    State,
    Ask,
    Wakes,
    Save,
    Back,
    Same,
}

// How many can be kept.
const SLOTS: usize = 12;

// A prime below 2^47.
const PRIME: u64 = 140737488355213;

// The number made of the replies before and one more.
fn mixed(before: u64, reply: [u8; 4]) -> u64 {
    (before % PRIME * 65537 + u64::from(u32::from_le_bytes(reply)) + 1) % PRIME
}

// The place of the name under which a bench is kept.
fn slot(line: &[u8]) -> Option<usize> {
    name_in(
        b"loaded enabled awake failed0 failed2 open first second last day one two",
        line,
        1,
    )
}

// What is kept under the name; what is at hand where there is none.
fn kept(rt: &impl Print, play: Play, slots: &[Play; SLOTS], line: &[u8]) -> io::Result<Play> {
    if let Some(s) = slot(line) {
        if s < SLOTS {
            return Ok(slots[s]);
        }
    }
    print!(rt; ": NO NAME")?;
    Ok(play)
}

// What is at hand kept under the name, if it is one of those that there are.
fn save(rt: &impl Print, play: Play, slots: &mut [Play; SLOTS], line: &[u8]) -> io::Result<()> {
    if let Some(s) = slot(line) {
        if s < SLOTS {
            slots[s] = play;
            return Ok(());
        }
    }
    print!(rt; ": NO NAME")
}

fn compare(rt: &impl Print, play: Play, other: Play) -> io::Result<()> {
    let bench = if test_same::same(play.bench, other.bench) {
        "same"
    } else {
        "DIFFERENT"
    };
    let replies = if play.replies == other.replies {
        "same"
    } else {
        "different"
    };
    print!(rt; ": {bench}, replies {replies}")
}

fn fresh(bench: Bench) -> Play {
    Play { bench, replies: 0 }
}

// Which command a line is. The kinds of records are numbered by their names, from 1.
fn command_of(line: &[u8]) -> Option<Command> {
    let names =
        b"enable disable get getwake put putidle idle suspend wake setactive setsuspended ignore result record feed table empty set state ask wakes save back same";
    match name_in(names, line, 0)? {
        k @ 0..=12 => Some(Command::Record(k as u8 + 1)),
        13 => Some(Command::Raw),
        14 => Some(Command::Feed),
        15 => Some(Command::Table),
        16 => Some(Command::Empty),
        17 => Some(Command::Set),
        18 => Some(Command::State),
        19 => Some(Command::Ask),
        20 => Some(Command::Wakes),
        21 => Some(Command::Save),
        22 => Some(Command::Back),
        23 => Some(Command::Same),
        _ => None,
    }
}

// The commands that take bytes, which stand after the first word, in a line of `feed` after the second. They are not done where the
// bytes cannot be read.
fn fed(rt: &impl Print, play: Play, command: Command, line: &[u8]) -> io::Result<Play> {
    let mut s = [0u8; 65536];
    let from = if let Command::Feed = command { 2 } else { 1 };
    let n = match test_words::bytes_in(line, from, &mut s) {
        Some(n) if n <= 65536 => n,
        _ => {
            print!(rt; ": NO BYTES")?;
            return Ok(play);
        }
    };
    match command {
        Command::Raw => record::raw(rt, play, &s[..n]),
        Command::Feed => piece::feed(rt, play, test_words::number_in(line, 1), &s[..n]),
        _ => Ok(fresh(tell::table(rt, &s[..n])?)),
    }
}

// The commands that only tell.
fn told(
    rt: &impl Print,
    play: Play,
    slots: &[Play; SLOTS],
    command: Command,
    line: &[u8],
) -> io::Result<()> {
    match command {
        Command::State => tell::state(rt, play.bench, hand::byte_in(line, 1)),
        Command::Ask => tell::ask(rt, play.bench, line),
        Command::Wakes => tell::wakes(rt, play.bench, hand::byte_in(line, 1)),
        _ => compare(rt, play, kept(rt, play, slots, line)?),
    }
}

// A line that is a command.
fn act(rt: &impl Print, play: Play, slots: &mut [Play; SLOTS], line: &[u8]) -> io::Result<Play> {
    let Some(command) = command_of(line) else {
        print!(rt; ": NO COMMAND")?;
        return Ok(play);
    };
    match command {
        Command::Record(kind) => record::named(rt, play, kind, line),
        Command::Raw | Command::Feed | Command::Table => fed(rt, play, command, line),
        Command::Empty => Ok(fresh(keeper::empty())),
        Command::Set => Ok(Play {
            bench: hand::set(rt, play.bench, line)?,
            replies: play.replies,
        }),
        Command::Save => {
            save(rt, play, slots, line)?;
            Ok(play)
        }
        Command::Back => kept(rt, play, slots, line),
        _ => {
            told(rt, play, slots, command, line)?;
            Ok(play)
        }
    }
}

// A line: a note, a title, or a command and its answer.
fn line(rt: &impl Print, play: Play, slots: &mut [Play; SLOTS], s: &[u8]) -> io::Result<Play> {
    let first = test_words::byte_at(s, 0);
    if (first == 0) | (first == b';') {
        return Ok(play);
    }
    rt.write_all(s)?;
    if first == b'#' {
        rt.write_all(b"\n")?;
        return Ok(play);
    }
    let next = act(rt, play, slots, s)?;
    rt.write_all(b"\n")?;
    Ok(next)
}

// The script of standard input. It is read whole, so it has to be shorter than the buffer.
pub fn run(rt: &(impl Input + Print)) -> io::Result<()> {
    let mut text = [0u8; 65536];
    let n = test_words::read_input(rt, &mut text)?;
    if n == 65536 {
        print!(rt; "SCRIPT TOO LONG")?;
    }
    let mut play = fresh(keeper::empty());
    let mut slots = [play; SLOTS];
    for s in text[..n].split(|b| *b == b'\n') {
        play = line(rt, play, &mut slots, s)?;
    }
    Ok(())
}
