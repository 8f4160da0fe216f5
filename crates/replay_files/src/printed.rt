// What is written to standard output.
use crate::files::speaker;
use keeper_bench::Bench;
use program_files::{say, within};
use replay_pieces::lines;
use replay_pieces::turn::Progress;
use replay_text::line::Line;
use std::rt::Runtime;

// Writes a line to standard output and answers whether it could, and says so where not.
pub fn line(rt: &impl Runtime, resumes: bool, line: Line) -> bool {
    program_files::print(rt, speaker(resumes), line)
}

// Writes a line to standard error.
fn tell(rt: &impl Eprint, line: Line) {
    let bytes = line.bytes;
    let used = within(line.used, &bytes);
    say(rt, &bytes[..used]);
}

// Says that the keeper refused a piece.
pub fn stopped(rt: &impl Eprint, resumes: bool, number: u8) {
    tell(rt, replay_refusals::stopped(resumes, number));
}

// Says that a bench cannot be saved.
pub fn unsaved(rt: &impl Eprint, resumes: bool, number: u8) {
    tell(rt, replay_refusals::unsaved(resumes, number));
}

// The lines of all devices.
fn devices(rt: &impl Runtime, resumes: bool, bench: Bench) -> bool {
    let bytes = bench.bytes;
    let n = memory::devices(&bytes);
    for p in 0..n {
        if !line(rt, resumes, lines::device(bench, p)) {
            return false;
        }
    }
    true
}

// The number of replies, and the state that a log leaves.
pub fn state(rt: &impl Runtime, resumes: bool, progress: Progress) -> bool {
    let bench = progress.bench;
    line(rt, resumes, lines::replies(progress))
        && line(rt, resumes, lines::carried(bench))
        && line(rt, resumes, lines::callback(bench))
        && devices(rt, resumes, bench)
}
