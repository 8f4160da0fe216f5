// Benches compared in every cell.
#![tactic(auto)]

ghost use Rattle.test_same.specs.Same.{Tells};

use keeper_bench::Bench;

// The same words. They are compared one by one: `==` of the whole says nothing of a word, and an edit that leaves a word out could be
// refused for its form alone.
fn same_words(a: &[u32], b: &[u32]) -> bool
    ensures { Tells a.now b.now result }
{
    if a.len() != b.len() {
        return false;
    }
    for k in 0..a.len() {
        if a[k] != b[k] {
            return false;
        }
    }
    true
}

// The same bench.
pub fn same(a: Bench, b: Bench) -> bool
    ensures { Tells a b result }
{
    (a.bytes == b.bytes) & same_words(&a.words, &b.words)
}
