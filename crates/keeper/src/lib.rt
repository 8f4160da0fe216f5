// The keeper: a table is loaded into a bench, and pieces of log are fed to it.
#![tactic(auto)]

ghost use Rattle.std.specs.Prelude.{◌≡◌};
ghost use Rattle.model.specs.Table.{devices_in, links_in, wiring_in};
ghost use Rattle.model.specs.State.{loaded, empty_state, load_of};
ghost use Rattle.model.specs.Feed.{feed_of};
ghost use Rattle.memory.specs.Layout.{BytesBecome};
ghost use Rattle.keeper_bench.specs.Translate.{state_of};
ghost use Rattle.keeper.specs.Entries.{with_device_entries, with_link_entries};
ghost use Rattle.keeper.specs.Translate.{loaded_of, fed_of};

use keeper_bench::Bench;
use memory::{BYTES, WORDS};
use table_entries::{byte_at, device_byte, link_byte};

// What loading a table gives: the answer, and the bench, empty where the table is refused.
#[derive(Clone, Copy)]
pub struct Loaded {
    pub answer: Result<(), table::Refusal>,
    pub bench: Bench,
}

// The empty bench.
pub fn empty() -> Bench
    ensures { state_of result ≡ empty_state }
{
    Bench {
        bytes: [0u8; BYTES],
        words: [0u32; WORDS],
    }
}

// The entries of the devices: of each its parent, its flags and disable depth 1.
fn enter_devices(bytes: &mut [u8; BYTES], t: &[u8])
    ensures { BytesBecome (with_device_entries t.now (devices_in t.now)) bytes.old bytes.new }
{
    let n = byte_at(t, 5);
    for p in 0..n {
        memory_stores::set_parent(bytes, p, device_byte(t, 0, p));
        memory_stores::set_ignore(bytes, p, device_byte(t, 1, p));
        memory_stores::set_depth(bytes, p, 1);
    }
}

// The entries of the links: of each its consumer, its supplier and its flags.
fn enter_links(bytes: &mut [u8; BYTES], t: &[u8])
    ensures { BytesBecome (with_link_entries t.now (links_in t.now)) bytes.old bytes.new }
{
    let m = u16::from(byte_at(t, 6));
    for i in 0..m {
        let row = usize::from(i);
        memory_links::set_consumer(bytes, row, link_byte(t, 0, i));
        memory_links::set_supplier(bytes, row, link_byte(t, 1, i));
        memory_links::set_flags(bytes, row, link_byte(t, 2, i));
    }
}

// The bench of a table just loaded: every device suspended, with disable depth 1.
fn at_rest(t: &[u8]) -> Bench
    ensures { state_of result ≡ loaded (wiring_in t.now) }
{
    let fresh = empty();
    let mut bytes = fresh.bytes;
    let mut words = fresh.words;
    memory::set_devices(&mut bytes, byte_at(t, 5));
    memory::set_links(&mut words, u32::from(byte_at(t, 6)));
    enter_devices(&mut bytes, t);
    enter_links(&mut bytes, t);
    Bench { bytes, words }
}

// Load a table. Any bytes get an answer; a refused table leaves the empty bench.
pub fn load(t: &[u8]) -> Loaded
    ensures { loaded_of result ≡ load_of t.now }
{
    let answer = table::judge(t);
    let bench = match answer {
        Ok(()) => at_rest(t),
        Err(_) => empty(),
    };
    Loaded { answer, bench }
}

// What a piece of log gives: the answer, and the bench handed back, as it was where the piece is refused.
#[derive(Clone, Copy)]
pub struct Fed {
    pub answer: Result<u16, record_answer::Refusal>,
    pub bench: Bench,
}

// Feed a piece of log: 21, 22 and 23 are tested in this order. The replies stand at the front of the buffer, the rest of which stays.
// The memory is copied once for a piece.
pub fn feed(mut bench: Bench, piece: &[u8], replies: &mut [u8]) -> Fed
    ensures { fed_of result replies.new ≡ feed_of (state_of bench) (record { bytes = piece.now; buffer = replies.old }) }
{
    let mut bytes = bench.bytes;
    let mut words = bench.words;
    let answer = record_feed::feed(&mut bytes, &mut words, piece, replies);
    bench.bytes = bytes;
    bench.words = words;
    Fed { answer, bench }
}
