// The programs' arguments.
use crate::files::speak;
use program_files::{arg_count, argument, same_name, say};
use replay_text::size::MOST;
use std::env::Env;

// What the arguments ask for: the program that speaks, the size of the pieces, and which argument names the file to save to.
#[derive(Clone, Copy)]
pub struct Task {
    pub resumes: bool,
    pub size: usize,
    pub save: Option<usize>,
}

// The size of the pieces that argument 4 gives.
fn size(rt: &impl Env) -> Option<usize> {
    let mut text = io::buffer();
    let Ok(length) = argument(rt, 4, &mut text) else {
        return None;
    };
    replay_text::size::read(&text[..length])
}

// Whether argument i is `--save`.
fn is_save(rt: &impl Env, i: usize) -> bool {
    let mut text = io::buffer();
    match argument(rt, i, &mut text) {
        Ok(length) => &text[..length] == b"--save".as_slice(),
        Err(_) => false,
    }
}

// With PIECE, and the argument that names the file to save to.
fn sized(rt: &impl Env, resumes: bool, save: Option<usize>) -> Option<Task> {
    let size = size(rt)?;
    Some(Task {
        resumes,
        size,
        save,
    })
}

// Without PIECE, whose greatest size it is then.
fn whole(resumes: bool, save: Option<usize>) -> Option<Task> {
    Some(Task {
        resumes,
        size: MOST,
        save,
    })
}

// What follows REPLIES: nothing, PIECE, `--save STATE`, or both in this order.
fn task_of(rt: &impl Env, resumes: bool) -> Option<Task> {
    match arg_count(rt, 8) {
        4 => whole(resumes, None),
        5 => sized(rt, resumes, None),
        6 if is_save(rt, 4) => whole(resumes, Some(5)),
        7 if is_save(rt, 5) => sized(rt, resumes, Some(6)),
        _ => None,
    }
}

// Whether REPLIES has the name of TABLE, or the STATE to read, or of LOG, which writing it would empty.
fn overwrites(rt: &impl Env) -> bool {
    same_name(rt, 1, 3) || same_name(rt, 2, 3)
}

// Whether the file to save to has the name of another file. That of `resume` may be the one that was read.
fn replaces(rt: &impl Env, task: Task) -> bool {
    let Some(save) = task.save else {
        return false;
    };
    same_name(rt, 2, save) || same_name(rt, 3, save) || (!task.resumes && same_name(rt, 1, save))
}

// The usage of the program that speaks.
fn usage(rt: &impl Eprint, resumes: bool) {
    if resumes {
        say(
            rt,
            b"usage: resume STATE LOG REPLIES [PIECE] [--save STATE], PIECE from 1 to 4096\n",
        );
    } else {
        say(
            rt,
            b"usage: replay TABLE LOG REPLIES [PIECE] [--save STATE], PIECE from 1 to 4096\n",
        );
    }
}

// What the arguments ask for; says what is wrong with them.
pub fn read(rt: &(impl Env + Eprint), resumes: bool) -> Option<Task> {
    let Some(task) = task_of(rt, resumes) else {
        usage(rt, resumes);
        return None;
    };
    if overwrites(rt) {
        speak(rt, resumes, b"REPLIES has the name of a file to read\n");
        return None;
    }
    if replaces(rt, task) {
        speak(rt, resumes, b"STATE has the name of another file\n");
        return None;
    }
    Some(task)
}
