// What a line of a list of parts and links says.
#![tactic(auto)]

ghost use Rattle.std.specs.Prelude.{◌≡◌};
ghost use Rattle.list_lines.specs.Numbers.{number_in, parent_in, both};
ghost use Rattle.list_lines.specs.Lines.{part_in, link_in, entry_in};

use entries::{Entry, Fault};
use list_words::word;
use model::NONE;

pub mod entries;

// The number of a word.
fn number(word: &[u8]) -> Result<u8, Fault>
    ensures { result ≡ number_in word.now }
{
    if word.is_empty() {
        return Err(Fault::Wrong);
    }
    let Some(value) = replay_text::size::number(word, 256) else {
        return Err(Fault::Wrong);
    };
    let Ok(value) = u8::try_from(value) else {
        return Err(Fault::Large);
    };
    Ok(value)
}

// The number of a word that names a parent.
fn parent(word: &[u8]) -> Result<u8, Fault>
    ensures { result ≡ parent_in word.now }
{
    if word == b"none".as_slice() {
        return Ok(NONE);
    }
    number(word)
}

// Both of two, or the worse of their faults.
fn both<A: Copy, B: Copy>(a: Result<A, Fault>, b: Result<B, Fault>) -> Result<(A, B), Fault>
    ensures { result ≡ both a b }
{
    match (a, b) {
        (Ok(a), Ok(b)) => Ok((a, b)),
        (Err(Fault::Large), Err(fault)) => Err(fault),
        (Err(fault), _) => Err(fault),
        (Ok(_), Err(fault)) => Err(fault),
    }
}

// What a line says that starts with the word of a part.
fn part(line: &[u8]) -> Result<Entry, Fault>
    ensures { result ≡ part_in line.now }
{
    if !word(line, 3).is_empty() {
        return Err(Fault::Wrong);
    }
    let (parent, flags) = both(parent(word(line, 1)), number(word(line, 2)))?;
    Ok(Entry::Part(parent, flags))
}

// What a line says that starts with the word of a link.
fn link(line: &[u8]) -> Result<Entry, Fault>
    ensures { result ≡ link_in line.now }
{
    if !word(line, 4).is_empty() {
        return Err(Fault::Wrong);
    }
    let consumer = number(word(line, 1));
    let rest = both(number(word(line, 2)), number(word(line, 3)));
    let (consumer, (supplier, flags)) = both(consumer, rest)?;
    Ok(Entry::Link(consumer, supplier, flags))
}

// What a line says.
pub fn entry(line: &[u8]) -> Result<Entry, Fault>
    ensures { result ≡ entry_in line.now }
{
    let first = word(line, 0);
    if first.is_empty() {
        return Ok(Entry::Nothing);
    }
    if first == b"part".as_slice() {
        return part(line);
    }
    if first == b"link".as_slice() {
        return link(line);
    }
    Err(Fault::Wrong)
}
