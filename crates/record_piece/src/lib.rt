// The records of a piece of log and of the bytes carried before it, and the bytes left over.
#![tactic(auto)]

ghost use Rattle.std.specs.Prelude.{◌≡◌, ◌≤◌, length, get_or};
ghost use Rattle.record_loop.specs.Runs.{joined, four_in, rest_in, Room, Ran};
ghost use Rattle.record_piece.specs.Parts.{At, RoomFrom, RanFrom, PieceAnswered};

use links::FIRSTS;
use memory::{BYTES, WORDS};
use model::PIECE;

// The bytes carried from the piece before, and how many they are.
#[derive(Clone, Copy, Debug, PartialEq, Eq)]
pub struct Carried {
    pub bytes: [u8; 3],
    pub used: usize,
}

// Byte i of the carried bytes and the piece after them; 0 past their end.
fn byte(carried: Carried, piece: &[u8], i: usize) -> u8
    requires { carried.used ≤ 3 }
    ensures { result ≡ get_or (joined carried.bytes carried.used piece.now) i 0 }
{
    if i < carried.used {
        return carried.bytes[i];
    }
    table_entries::byte_at(piece, i - carried.used)
}

// The four bytes that the carried bytes begin and the piece goes on with.
fn head(carried: Carried, piece: &[u8]) -> [u8; 4]
    requires { carried.used ≤ 3 }
    ensures { result ≡ four_in (joined carried.bytes carried.used piece.now) }
{
    let a = byte(carried, piece, 0);
    let b = byte(carried, piece, 1);
    let c = byte(carried, piece, 2);
    let d = byte(carried, piece, 3);
    [a, b, c, d]
}

// The bytes from byte i on, of which at most three are left; zeros after them.
fn rest(carried: Carried, piece: &[u8], i: usize) -> [u8; 3]
    requires { At carried.used i }
    ensures { result ≡ rest_in (joined carried.bytes carried.used piece.now) i }
{
    let a = byte(carried, piece, i);
    let b = byte(carried, piece, i + 1);
    let c = byte(carried, piece, i + 2);
    [a, b, c]
}

// Answers the record that carried bytes begin.
fn answer_first<'a>(
    bytes: &mut [u8; BYTES],
    words: &mut [u32; WORDS],
    first: &'a [u16; FIRSTS],
    carried: Carried,
    piece: &'a [u8],
    replies: &mut [u8],
)
    requires { (carried.used ≤ 3) × (4 ≤ length replies.old) }
    ensures { Ran first.now bytes.old words.old replies.old
        (four_in (joined carried.bytes carried.used piece.now))
        bytes.new words.new replies.new }
{
    let front = head(carried, piece);
    record_loop::answer_records(bytes, words, first, &front, replies);
}

// Answers the records of a piece from byte `from` on, after the first reply.
fn answer_rest<'a>(
    bytes: &mut [u8; BYTES],
    words: &mut [u32; WORDS],
    first: &'a [u16; FIRSTS],
    piece: &'a [u8],
    from: usize,
    replies: &mut [u8],
)
    requires { RoomFrom from piece.now replies.old }
    ensures { RanFrom from first.now bytes.old words.old replies.old piece.now
        bytes.new words.new replies.new }
{
    record_loop::answer_records(bytes, words, first, &piece[from..], &mut replies[4..]);
}

// The whole records of the carried bytes and the piece. The one that carried bytes begin is answered by itself, then those of the rest of
// the piece.
fn answer_all<'a>(
    bytes: &mut [u8; BYTES],
    words: &mut [u32; WORDS],
    first: &'a [u16; FIRSTS],
    carried: Carried,
    piece: &'a [u8],
    replies: &mut [u8],
)
    requires { Room carried.used piece.now replies.old }
    ensures { Ran first.now bytes.old words.old replies.old
        (joined carried.bytes carried.used piece.now)
        bytes.new words.new replies.new }
{
    let used = carried.used;
    if used < 1 {
        record_loop::answer_records(bytes, words, first, piece, replies);
        return;
    }
    if used + piece.len() < 4 {
        return;
    }
    answer_first(bytes, words, first, carried, piece, replies);
    answer_rest(bytes, words, first, piece, 4 - used, replies);
}

// Answers the whole records of the carried bytes and the piece, and gives the bytes left over, zeros after them. Where more than three bytes
// are carried, the piece is too long or the buffer has no room for the replies, nothing is done.
pub fn answer_piece<'a>(
    bytes: &mut [u8; BYTES],
    words: &mut [u32; WORDS],
    first: &'a [u16; FIRSTS],
    carried: Carried,
    piece: &'a [u8],
    replies: &mut [u8],
) -> [u8; 3]
    ensures { PieceAnswered first.now bytes.old words.old replies.old
        carried.bytes carried.used piece.now bytes.new words.new replies.new result }
{
    let used = carried.used;
    if 3 < used {
        return [0, 0, 0];
    }
    if PIECE < piece.len() {
        return [0, 0, 0];
    }
    let whole = 4 * ((used + piece.len()) / 4);
    if replies.len() < whole {
        return [0, 0, 0];
    }
    answer_all(bytes, words, first, carried, piece, replies);
    rest(carried, piece, whole)
}
