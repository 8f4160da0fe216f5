// The lines that are printed of a replay: the number of its replies, and the state that the log leaves.
ghost use Rattle.std.specs.Prelude.{◌≡◌};
ghost use Rattle.keeper_bench.specs.Translate.{state_of};
ghost use Rattle.replay_pieces.specs.Lines.{replies_line, carried_line, callback_line, device_line};

use crate::turn::Progress;
use keeper_bench::Bench;
use replay_row::Row;
use replay_text::line::Line;

// The number of replies.
pub fn replies(progress: Progress) -> Line
    ensures { result ≡ replies_line progress }
{
    replay_report::replies(progress.replies)
}

// How many bytes of a record that is not whole are carried.
pub fn carried(bench: Bench) -> Line
    ensures { result ≡ carried_line (state_of bench) }
{
    let bytes = bench.bytes;
    let used = memory::used(&bytes);
    replay_report::carried(used)
}

// The open callback.
pub fn callback(bench: Bench) -> Line
    ensures { result ≡ callback_line (state_of bench) }
{
    let bytes = bench.bytes;
    let kind = memory::callback(&bytes);
    let asked = memory::asked(&bytes);
    let target = memory::target(&bytes);
    replay_report::callback(kind, asked, target)
}

// Device p.
pub fn device(bench: Bench, p: u8) -> Line
    ensures { result ≡ device_line (state_of bench) p }
{
    let bytes = bench.bytes;
    let words = bench.words;
    let status = memory_rows::status(&bytes, p);
    let holds = memory_rows::holds(&words, p);
    let linked = memory_rows::linked(&words, p);
    let children = memory_rows::children(&bytes, p);
    let depth = memory_rows::depth(&bytes, p);
    let error = memory_rows::error(&words, p);
    replay_row::device(
        p,
        Row {
            status,
            holds,
            linked,
            children,
            depth,
            error,
        },
    )
}
