// Machines in state files: the machine that a session leaves is saved, a saved one is shown, and a session goes on from it.
// The contracts say what is done with what is read: which bytes a file gets, what the bytes of a file are taken for, and from which tables
// a session is answered.
#![tactic(auto)]

mod loading;
mod saving;
mod sessions;
mod showing;
mod telling;

ghost use Rattle.std.specs.Prelude.{◌≡◌, ◌≤◌, length};
ghost use Rattle.rules.specs.Machine.{unstarted};
ghost use Rattle.tables.specs.Layout.{laid};
ghost use Rattle.mast_state.specs.Command.{command_of};

use std::env::{Env, FillError};
use telling::tell_words;

#[derive(Clone, Copy, Debug, PartialEq, Eq)]
enum Command {
    Save,
    Show,
    Resume,
}

// What the first word asks for, with so many arguments, the program's own name among them.
#[tactic(auto, using(laws::proofs::Choose::cases), unfolding(crate::specs::Command::command_of))]
fn command_of(word: &str, count: usize) -> Option<Command>
    ensures { result ≡ command_of word.now count }
{
    match (word, count) {
        ("save", 3 | 4) => Some(Command::Save),
        ("resume", 3 | 4) => Some(Command::Resume),
        ("show", 3) => Some(Command::Show),
        _ => None,
    }
}

// How many arguments there are, the program's own name among them, or 5 where there are more.
fn arg_count<R: Env>(rt: &R) -> usize {
    for i in 0..5 {
        if let Err(FillError::NotPresent) = rt.arg(i, &mut []) {
            return i;
        }
    }
    5
}

fn tell_usage(rt: &HostRuntime) {
    tell_words(
        rt,
        b"usage: mast-state save FILE [SESSION] | show FILE | resume FILE [SESSION]\n",
    );
}

// Does it with the file of this name, on the tables of a machine that is not started.
fn work(
    rt: &HostRuntime,
    command: Command,
    path: &[u8],
    m: &mut [u8],
    file: &mut [u8],
    out: &mut [u8],
)
    requires { (m.old ≡ laid unstarted) × (length path.now ≤ 4096) × (4096 ≤ length file.old) × (65536 ≤ length out.old) }
{
    // what failed is told where it does
    match command {
        Command::Save => {
            let _ = saving::save(rt, path, m, file);
        }
        Command::Show => {
            let _ = showing::show(rt, path, m, file, out);
        }
        Command::Resume => {
            let _ = sessions::resume(rt, path, m, file);
        }
    }
}

fn run(rt: &HostRuntime, command: Command, path: &[u8])
    requires { length path.now ≤ 4096 }
{
    let mut memory = [0u8; tables::TABLES_LENGTH];
    let mut file = [0u8; 4096];
    let mut out = [0u8; 65536];
    work(rt, command, path, &mut memory, &mut file, &mut out);
}

// The file of the second argument.
fn run_named(rt: &HostRuntime, command: Command) {
    let mut path = [0u8; 4096];
    match rt.arg(2, &mut path) {
        Ok(length) => run(rt, command, &path[..length]),
        Err(FillError::TooLong) => {
            tell_words(rt, b"the argument: File name too long\n");
        }
        Err(FillError::NotPresent) => tell_usage(rt),
    }
}

fn main(rt: HostRuntime) {
    let mut word = [0u8; 8];
    let length = rt.arg(1, &mut word).unwrap_or(0);
    let word = std::str::from_utf8(&word[..length]).unwrap_or("");
    match command_of(word, arg_count(&rt)) {
        Some(command) => run_named(&rt, command),
        None => tell_usage(&rt),
    }
}
