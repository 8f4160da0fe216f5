// The file that a bench is saved to. It is written whole or not at all: a new file beside it takes its name once every byte has reached the
// device.
#![tactic(auto)]

ghost use Rattle.std.specs.Prelude.{◌≡◌, ◌⊎◌};
ghost use Rattle.io.specs.Counts.{IsPrefixLen};
ghost use Rattle.keeper_bench.specs.Translate.{state_of};
ghost use Rattle.saved_form.specs.Form.{form};
ghost use Rattle.state_file.specs.Keeping.{Kept};

use keeper_bench::Bench;
use program_end::End;
use program_files::{argument, name, within};
use replay_files::arguments::Task;
use replay_files::{files, printed};
use saved_copy::copy_bytes;
use saved_form::FORM;
use std::fs;
use std::fs::{Files, OpenFile, OpenOptions};
use std::io::{Error, ErrorKind, Result, Write};
use std::os::unix::fs::OpenOptionsExt;
use std::rt::Runtime;

// How many names of new files are tried.
const TRIES: u32 = 1_000_000;

// Hands the library the bytes to be written, the form of the bench, and waits until they have reached the device. The bench is there to name
// them.
fn store(file: &mut (impl Write + OpenFile), bench: Bench, bytes: &[u8]) -> Result<()>
    requires { bytes.now ≡ form (state_of bench) }
{
    file.write_all(bytes)?;
    file.sync_all()
}

// The same, and the file is closed.
fn stored(mut file: impl Write + OpenFile + Drop, bench: Bench, bytes: &[u8]) -> Result<()>
    requires { bytes.now ≡ form (state_of bench) }
{
    store(&mut file, bench, bytes)
}

// Writes the new file, whose name is `new`, and gives it the name of the file to replace, or removes it.
fn moved<R: Files>(
    rt: &R,
    file: R::File,
    bench: Bench,
    bytes: &[u8],
    path: &[u8],
    new: &[u8],
) -> Result<()>
    requires { bytes.now ≡ form (state_of bench) }
{
    let new = name(new)?;
    let path = name(path)?;
    let mut moved = stored(file, bench, bytes);
    if moved.is_ok() {
        moved = fs::rename(rt, new, path);
    }
    if moved.is_err() {
        let _ = fs::remove_file(rt, new);
    }
    moved
}

// A digit of n.
fn digit(n: u32) -> u8 {
    b'0' + (n % 10) as u8
}

// The end of the name of a new file: a point, and six digits of n.
fn mark(n: u32) -> [u8; 7] {
    [
        b'.',
        digit(n / 100_000),
        digit(n / 10_000),
        digit(n / 1_000),
        digit(n / 100),
        digit(n / 10),
        digit(n),
    ]
}

// The name of a new file beside the one that is replaced; how long it is.
fn beside(path: &[u8], n: u32, new: &mut [u8]) -> usize
    ensures { IsPrefixLen result new.new }
{
    copy_bytes(path, new);
    let length = within(path.len(), new);
    let mark = mark(n);
    copy_bytes(&mark, &mut new[length..]);
    within(length + mark.len(), new)
}

// Makes a file of that name, where there is none. Nobody else may read it, from its first moment on.
fn create<R: Files>(rt: &R, new: &[u8]) -> Result<R::File> {
    OpenOptions::new()
        .write(true)
        .create_new(true)
        .mode(0o600)
        .open(rt, name(new)?)
}

// Makes a new file beside the one that is replaced, by the first name that is free, writes it and gives it the name of that one.
fn replace(rt: &impl Files, bench: Bench, bytes: &[u8], path: &[u8]) -> Result<()>
    requires { bytes.now ≡ form (state_of bench) }
{
    let mut new = io::large_buffer();
    for n in 0..TRIES {
        let end = beside(path, n, &mut new);
        match create(rt, &new[..end]) {
            Ok(file) => return moved(rt, file, bench, bytes, path, &new[..end]),
            Err(error) => {
                if error.kind() != ErrorKind::AlreadyExists {
                    return Err(error);
                }
            }
        }
    }
    Err(Error::from(ErrorKind::AlreadyExists))
}

// The same, and says where it fails.
fn replaced(rt: &impl Runtime, task: Task, bench: Bench, bytes: &[u8], path: &[u8]) -> End
    requires { bytes.now ≡ form (state_of bench) }
    ensures { (result ≡ End.Done) ⊎ (result ≡ End.Failed) }
{
    match replace(rt, bench, bytes, path) {
        Ok(()) => End::Done,
        Err(error) => {
            files::complain(rt, task.resumes, path, error);
            End::Failed
        }
    }
}

// Replaces the file that argument `save` names.
fn named(rt: &impl Runtime, task: Task, save: usize, bench: Bench, bytes: &[u8]) -> End
    requires { bytes.now ≡ form (state_of bench) }
    ensures { (result ≡ End.Done) ⊎ (result ≡ End.Failed) }
{
    let mut path = io::buffer();
    match argument(rt, save, &mut path) {
        Ok(length) => replaced(rt, task, bench, bytes, &path[..length]),
        Err(error) => {
            files::complain(rt, task.resumes, b"STATE", error);
            End::Failed
        }
    }
}

// Saves a bench to the file that the task names, or does nothing where it names none.
pub fn keep(rt: &impl Runtime, task: Task, bench: Bench) -> End
    ensures { Kept task.save (state_of bench) result }
{
    let Some(save) = task.save else {
        return End::Done;
    };
    let mut bytes = [0u8; FORM];
    let saving = saved::save(bench, &mut bytes);
    if let Err(refusal) = saving {
        printed::unsaved(rt, task.resumes, refusal.number());
        return End::Stopped;
    }
    named(rt, task, save, bench, &bytes)
}
