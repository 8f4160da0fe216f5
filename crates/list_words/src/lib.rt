// The words of a line of a list.
#![tactic(auto)]

ghost use Rattle.std.specs.Prelude.{◌≡◌, ◌≤◌, length};
ghost use Rattle.std.specs.List.{prefix_len};
ghost use Rattle.list_words.specs.Words.{is_code, is_blank, is_letter, before, from, word_in};

// A byte that stands between words: space, tab, carriage return.
fn is_blank(b: u8) -> bool
    ensures { result ≡ is_blank b }
{
    (b == b' ') | ((b == b'\t') | (b == b'\r'))
}

// How many bytes of a line stand before its comment.
fn code(line: &[u8]) -> usize
    ensures count { result ≡ prefix_len is_code line.now }
    ensures inside { result ≤ length line.now }
{
    line.iter().take_while(|b| **b != b'#').count()
}

// How many blanks stand at the front of a text.
fn blanks(text: &[u8]) -> usize
    ensures count { result ≡ prefix_len is_blank text.now }
    ensures inside { result ≤ length text.now }
{
    text.iter().take_while(|b| is_blank(**b)).count()
}

// How many bytes of a word stand at the front of a text.
fn letters(text: &[u8]) -> usize
    ensures count { result ≡ prefix_len is_letter text.now }
    ensures inside { result ≤ length text.now }
{
    text.iter().take_while(|b| !is_blank(**b)).count()
}

// The first word of a text, and what follows it.
fn first(text: &[u8]) -> (&[u8], &[u8])
    ensures word { result.0.now ≡ before is_letter (from is_blank text.now) }
    ensures rest { result.1.now ≡ from is_letter (from is_blank text.now) }
{
    let here = &text[blanks(text)..];
    here.split_at(letters(here))
}

// Word k of a line, from 0; empty past the last word.
pub fn word(line: &[u8], k: usize) -> &[u8]
    ensures { result.now ≡ word_in line.now k }
{
    let mut rest = &line[..code(line)];
    for i in 0..k {
        rest = first(rest).1;
    }
    first(rest).0
}
