// The bench's memory: cells changed by hand, one record by the dispatch.
use keeper_bench::Bench;
use keeper_bench::methods::Requested;
use record_kinds::Record;
use std::io;
use test_words::{name_in, number_in};

// One record by the dispatch.
pub fn dispatched(b: Bench, r: Record) -> Requested {
    let mut bytes = b.bytes;
    let mut words = b.words;
    let first = links::index(&bytes, &words);
    let reply = record_step::step(&mut bytes, &mut words, &first, r);
    Requested {
        outcome: Ok(reply),
        bench: Bench { bytes, words },
    }
}

// Word k of a line as a byte.
pub fn byte_in(line: &[u8], k: usize) -> u8 {
    (number_in(line, k) % 256) as u8
}

// A cell changed by hand: `set FIELD ROW VALUE`. The fields of a page are named in the order of the pages: five of the byte columns of
// devices, three of the links', and after the numbers of the whole bench three of the word columns.
pub fn set(rt: &impl Print, b: Bench, line: &[u8]) -> io::Result<Bench> {
    let mut bytes = b.bytes;
    let mut words = b.words;
    let row = number_in(line, 2) as usize;
    let value = number_in(line, 3);
    let first = byte_in(line, 2);
    let second = byte_in(line, 3);
    let third = byte_in(line, 4);
    let names =
        b"parent ignore status depth children consumer supplier flags n callback carried holds error linked m";
    match name_in(names, line, 1) {
        Some(page @ 0..=4) => memory::set_byte_at(&mut bytes, page, row, second),
        Some(k @ 5..=7) => memory::set_link_at(&mut bytes, k - 5, row, second),
        Some(8) => memory::set_devices(&mut bytes, second),
        Some(9) => memory::set_callback(&mut bytes, first, second, third),
        Some(10) => memory::set_carried(&mut bytes, [second, third, byte_in(line, 5)], first),
        Some(k @ 11..=13) => memory::set_word_at(&mut words, k - 11, row, value),
        Some(14) => memory::set_links(&mut words, value),
        _ => print!(rt; ": NO FIELD")?,
    }
    Ok(Bench { bytes, words })
}
