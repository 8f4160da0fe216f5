// The soundness test of a bench but for the open callback and the carried bytes, over a memory of any contents. It goes through every
// row and joins the tests without a branch.
#![tactic(auto)]

ghost use Rattle.std.specs.Prelude.{◌≡◌, List, ℕ, ◌-◌, ◌<◌, ◌≤◌};
ghost use Rattle.model.specs.Limits.{LINKS};
ghost use Rattle.model.specs.Logic.{all};
ghost use Rattle.memory.specs.Layout.{state_in};
ghost use Rattle.sound_rules.specs.Sayings.{Says};
ghost use Rattle.sound_columns.specs.Parts.{ascends_in, wiring_test, devices_test, kept};
ghost use Rattle.sound_columns.specs.Sayings.{SaysOf, ChildrenCounted, LinksCounted};

use memory::{BYTES, WORDS, link_page};
use model::{DEVICES, LINKS, ROWS};
use sound_rows::{
    byte_column, child_bit, comes_before, every, link_column, live_bit, same_bytes, same_words,
    word_column,
};
use sound_rules::{links_fit, links_supply, parents_good, parents_supply};

// ---- the order of the links

// Each of the m links comes before the next.
fn links_ascend<'a>(bytes: &'a [u8; BYTES], m: usize) -> bool
    requires { m ≤ LINKS }
    ensures { Says (λ s. all (ascends_in s.wiring) (m - 1)) bytes.now result }
{
    let c = link_page(bytes, memory::CONSUMER);
    let s = link_page(bytes, memory::SUPPLIER);
    every(
        m.saturating_sub(1),
        |i| comes_before(c[i], s[i], c[i + 1], s[i + 1]),
    )
}

// ---- the counts

// The child counts, counted anew. A loop of its own beside that of the links: another key, another width, and no bound on how many there are.
fn recount_children<'a>(bytes: &'a [u8; BYTES], n: u8) -> [u8; ROWS]
    ensures { ChildrenCounted n bytes.now result }
{
    let mut counts = [0u8; ROWS];
    for k in 0..n {
        let parent = memory_rows::parent(bytes, k);
        counts[usize::from(parent)] += child_bit(parent, memory_rows::status(bytes, k));
    }
    counts
}

// The counts of runtime links from powered consumers, counted anew.
fn recount_linked<'a>(bytes: &'a [u8; BYTES], m: usize) -> [u32; ROWS]
    requires { m ≤ LINKS }
    ensures { LinksCounted m bytes.now result }
{
    let mut counts = [0u32; ROWS];
    for k in 0..m {
        let consumer = memory_links::consumer(bytes, k);
        let supplier = memory_links::supplier(bytes, k);
        let status = memory_rows::status(bytes, consumer);
        counts[usize::from(supplier)] += live_bit(status, memory_links::flags(bytes, k));
    }
    counts
}

// ---- the whole

// The columns of the wiring are in range, and its entries keep the rules of a table.
fn wiring_good<'a>(bytes: &'a [u8; BYTES], n: u8, m: usize) -> bool
    requires { m ≤ LINKS }
    ensures { (words : List ℕ) → SaysOf (λ s. wiring_test s.wiring) n m (state_in bytes.now words) result }
{
    let rows = usize::from(n);
    let parent = byte_column(bytes, memory::PARENT, rows, 255);
    let ignore = byte_column(bytes, memory::IGNORE, rows, 1);
    let consumer = link_column(bytes, memory::CONSUMER, m, 255);
    let supplier = link_column(bytes, memory::SUPPLIER, m, 255);
    let flags = link_column(bytes, memory::FLAGS, m, 3);
    let columns = parent & ignore & consumer & supplier & flags;
    let fit = links_fit(bytes, n, m);
    let ascend = links_ascend(bytes, m);
    columns & parents_good(bytes, n) & fit & ascend
}

// The columns of the devices' state are in range, the counts are the recounts, and what a device rests on is powered.
fn devices_good<'a>(bytes: &'a [u8; BYTES], words: &'a [u32; WORDS], n: u8, m: usize) -> bool
    requires { m ≤ LINKS }
    ensures { SaysOf (λ s. devices_test s.wiring s.devices) n m (state_in bytes.now words.now) result }
{
    let rows = usize::from(n);
    let status = byte_column(bytes, memory::STATUS, rows, model::SUSPENDING);
    let holds = word_column(words, memory::HOLDS, rows, model::MAX_HOLDS);
    let depth = byte_column(bytes, memory::DEPTH, rows, model::MAX_DEPTH);
    let error = word_column(words, memory::ERROR, rows, model::MAX_ERROR);
    let columns = status & holds & depth & error;
    let below = recount_children(bytes, n);
    let children = same_bytes(bytes, memory::CHILDREN, &below);
    let links = recount_linked(bytes, m);
    let linked = same_words(words, memory::LINKED, &links);
    columns & children & linked & parents_supply(bytes, n) & links_supply(bytes, m)
}

// The whole.
pub fn well_kept<'a>(bytes: &'a [u8; BYTES], words: &'a [u32; WORDS]) -> bool
    ensures { result ≡ kept (state_in bytes.now words.now) }
{
    let n = memory::devices(bytes);
    if n < 1 {
        return false;
    }
    if DEVICES < n {
        return false;
    }
    // `as`, since the library has no `From` of u32 to usize
    let m = memory::links(words) as usize;
    if LINKS < m {
        return false;
    }
    let wiring = wiring_good(bytes, n, m);
    let devices = devices_good(bytes, words, n, m);
    wiring & devices
}
