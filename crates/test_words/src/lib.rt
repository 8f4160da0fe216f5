// The words of a line of a test script, and what they stand for: numbers, bytes, names.
#![tactic(auto)]

ghost use Rattle.std.specs.Prelude.{◌≡◌, true, ◌+◌, ◌*◌, ◌%◌, ◌<◌, ◌≤◌, IfOk, IfSome, Some, length, get_or};
ghost use Rattle.test_words.specs.Words.{NAMES, WORDS, stops, Scanned, Word, word_in, Placed, place_of};
ghost use Rattle.test_words.specs.Numbers.{digit_of, joined, value_after, minus, number_of, hex_byte, all_hex};

use std::io;
use std::io::Read;

// What stands for a number that cannot be read: one more than the greatest. Callers take it as a row, a value or a room past all others,
// so an Option would be unwrapped to it at each of them.
pub const WRONG: u32 = 65536;

// The most names that are looked through.
pub const NAMES: usize = 32;

// The most words of a line.
const WORDS: usize = 64;

// Where a word starts and stops.
#[derive(Clone, Copy)]
pub struct Part {
    pub start: usize,
    pub stop: usize,
}

// Byte k, 0 past the end.
pub fn byte_at(s: &[u8], k: usize) -> u8
    ensures { result ≡ get_or s.now k 0 }
{
    s.get(k).copied().unwrap_or(0)
}

// A byte is one that a scan looks for: the byte named, or any other.
fn stops(x: u8, byte: u8, same: bool) -> bool
    ensures { result ≡ stops byte same x }
{
    (x == byte) == same
}

// The first place from `from` on where the byte stands, or where another stands; the end where there is none.
// The flag stays: `Scanned` and the callers name a byte and a flag.
pub fn scan(s: &[u8], from: usize, byte: u8, same: bool) -> usize
    ensures { Scanned byte same s.now from result }
{
    for i in from..s.len() {
        if stops(s[i], byte, same) {
            return i;
        }
    }
    from.max(s.len())
}

// Where word k of a text stands, from 0: between words stands a byte, once or more often. Past the last word it is empty.
pub fn word_at(s: &[u8], k: usize, between: u8) -> Part
    ensures { Word between s.now k result.start result.stop }
{
    let mut start = scan(s, 0, between, false);
    let mut stop = scan(s, start, between, true);
    for i in 0..k {
        start = scan(s, stop, between, false);
        stop = scan(s, start, between, true);
    }
    Part { start, stop }
}

// The bytes of word k.
pub fn word(s: &[u8], k: usize, between: u8) -> &[u8]
    ensures { result.now ≡ word_in between s.now k }
{
    let part = word_at(s, k, between);
    &s[part.start..part.stop]
}

// The value of a hexadecimal digit, 16 for any other byte.
fn digit(b: u8) -> u8
    ensures { result ≡ digit_of b }
{
    match b {
        b'0'..=b'9' => b - 48,
        b'A'..=b'F' => b - 55,
        _ => 16,
    }
}

// A number with a decimal digit after it; WRONG where that is no digit, or the number too large.
fn joined(v: u32, d: u8) -> u32
    requires { v ≤ 65536 }
    ensures { result ≡ joined v d }
{
    let x = 10 * v + u32::from(d);
    if (d <= 9) & (x <= WRONG) { x } else { WRONG }
}

// The number of decimal digits; 0 where there are none.
fn digits(s: &[u8]) -> u32
    ensures { result ≡ value_after 0 s.now }
{
    let mut v: u32 = 0;
    for b in s {
        v = joined(v, digit(*b));
    }
    v
}

// A negative number as it stands in a record.
fn minus(v: u32) -> u32
    ensures { result ≡ minus v }
{
    WRONG.checked_sub(v).unwrap_or(WRONG)
}

// The number that a text stands for, a negative one as 65,536 less its magnitude; 0 for no text.
fn number(s: &[u8]) -> u32
    ensures { result ≡ number_of s.now }
{
    match s.strip_prefix(b"-") {
        Some(rest) => minus(digits(rest)),
        None => digits(s),
    }
}

// The number of word k of a line.
pub fn number_in(line: &[u8], k: usize) -> u32
    ensures { result ≡ number_of (word_in 32 line.now k) }
{
    number(word(line, k, b' '))
}

// Which of the names a text is: its place among them.
fn place(names: &[u8], text: &[u8]) -> Option<usize>
    ensures is { Placed names.now text.now (place_of result) }
    ensures below { IfSome result (λ j. j < NAMES) }
{
    for j in 0..NAMES {
        if word(names, j, b' ') == text {
            return Some(j);
        }
    }
    None
}

// Which of the names word k of a line is.
pub fn name_in(names: &[u8], line: &[u8], k: usize) -> Option<usize>
    ensures is { Placed names.now (word_in 32 line.now k) (place_of result) }
    ensures below { IfSome result (λ j. j < NAMES) }
{
    place(names, word(line, k, b' '))
}

// Byte k of pairs of hexadecimal digits.
fn hex_byte(s: &[u8], k: usize) -> u8
    requires { k < 9223372036854775807 }
    ensures { result ≡ hex_byte s.now k }
{
    let high = digit(byte_at(s, 2 * k)) % 16;
    let low = digit(byte_at(s, 2 * k + 1)) % 16;
    16 * high + low
}

// Every byte is a hexadecimal digit.
fn is_hex(s: &[u8]) -> bool
    ensures { result ≡ all_hex s.now }
{
    s.iter().all(|b| digit(*b) <= 15)
}

// Byte k of copy c of a group of bytes: each copy is the one before it plus a step, byte by byte.
fn member(group: &[u8], step: &[u8], k: usize, c: u32) -> u8
    requires { k < 9223372036854775807 }
    ensures { result ≡ (hex_byte group.now k + (c % 256) * hex_byte step.now k) % 256 }
{
    let first = u32::from(hex_byte(group, k));
    let more = u32::from(hex_byte(step, k));
    ((first + (c % 256) * more) % 256) as u8
}

// A byte stored at a place of a buffer, if there is room: the place after it.
fn put(out: &mut [u8], at: usize, b: u8) -> usize {
    if at < out.len() {
        out[at] = b;
        return at + 1;
    }
    at
}

// So many copies of a group, stored from a place on.
fn copies(group: &[u8], step: &[u8], many: u32, out: &mut [u8], at: usize) -> usize {
    let mut to = at;
    for c in 0..many {
        for k in 0..group.len() / 2 {
            to = put(out, to, member(group, step, k, c));
        }
    }
    to
}

// How often a group stands: the number after its star, once where it has none.
fn times(s: &[u8], star: usize, plus: usize) -> u32 {
    if (plus <= star) | (s.len() < plus) {
        return 1;
    }
    number(&s[star + 1..plus])
}

// A group of bytes can be read: pairs of hexadecimal digits, and a number of copies.
fn readable(group: &[u8], step: &[u8], many: u32) -> bool {
    is_hex(group) & is_hex(step) & (group.len() % 2 == 0) & (many < WRONG)
}

// The bytes of a text, stored from a place on: GROUP, GROUP*COPIES or GROUP*COPIES+STEP. None where it is none of these.
fn group(s: &[u8], out: &mut [u8], at: usize) -> Option<usize> {
    let star = scan(s, 0, b'*', true);
    let plus = scan(s, star, b'+', true);
    let many = times(s, star, plus);
    let step = if plus < s.len() {
        &s[plus + 1..]
    } else {
        &s[plus..]
    };
    if !readable(&s[..star], step, many) {
        return None;
    }
    Some(copies(&s[..star], step, many, out, at))
}

// The bytes of a line from word k on, stored from the start of a buffer: how many they are; none where a word cannot be read.
pub fn bytes_in(line: &[u8], k: usize, out: &mut [u8]) -> Option<usize>
    ensures { WORDS ≤ k → result ≡ Some 0 }
{
    let mut at: usize = 0;
    for j in k..WORDS {
        at = group(word(line, j, b' '), out, at)?;
    }
    Some(at)
}

// Standard input, read from the start of a buffer until it ends or the buffer is full: how many bytes there are.
pub fn read_input(rt: &impl Input, out: &mut [u8]) -> io::Result<usize>
    ensures { IfOk result (λ n. n ≤ length out.new) }
{
    let mut reader = rt.reader();
    let mut done: usize = 0;
    while done < out.len() {
        let n = reader.read(&mut out[done..])?;
        if n == 0 {
            break;
        }
        done += n;
    }
    Ok(done)
}
