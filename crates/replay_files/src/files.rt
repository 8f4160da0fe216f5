// What is said where a file fails, by the program that speaks.
ghost use Rattle.std.specs.Prelude.{◌≡◌, IfOk, IfErr};
ghost use Rattle.io.specs.Counts.{IsPrefixLen};
ghost use Rattle.replay_refusals.specs.Lines.{speaker_text};

use program_files::{FailedOpen, say};
use std::io::Error;
use std::rt::Runtime;

// The program that speaks.
pub fn speaker(resumes: bool) -> &'static [u8]
    ensures { result.now ≡ speaker_text resumes }
{
    if resumes { b"resume: " } else { b"replay: " }
}

// Says something, after the name of the program.
pub fn speak(rt: &impl Eprint, resumes: bool, text: &[u8]) {
    say(rt, speaker(resumes));
    say(rt, text);
}

// Names a file or an argument that failed, and the reason.
pub fn complain(rt: &(impl Eprint + Alloc), resumes: bool, what: &[u8], error: Error) {
    program_files::complain(rt, speaker(resumes), what, error);
}

// Opens the file whose name is argument i, as `program_files::opened` does.
pub fn opened<R: Runtime>(
    rt: &R,
    resumes: bool,
    i: usize,
    called: &[u8],
    path: &mut [u8],
    write: bool,
) -> Result<(R::File, usize), FailedOpen>
    ensures ok { IfOk result (λ opened. IsPrefixLen opened.1 path.new) }
    ensures err { IfErr result (λ failed. IsPrefixLen failed.length path.new) }
{
    program_files::opened(rt, speaker(resumes), i, called, path, write)
}

// Says that a file of replies lacks some.
pub fn incomplete(rt: &impl Eprint, resumes: bool, path: &[u8]) {
    speak(rt, resumes, path);
    say(rt, b": replies are not complete\n");
}

#[cfg(test)]
mod tests {
    use super::*;

    #[test]
    fn speakers(rt: HostRuntime) {
        assert_eq!(rt; speaker(false), b"replay: ".as_slice());
        assert_eq!(rt; speaker(true), b"resume: ".as_slice());
    }
}
