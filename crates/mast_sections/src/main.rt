// Guarded sections from a text: standard input, or the file that the argument names, is run, and what that leaves is printed.
// What a stream or a file gives and takes no contract can say. What is done with it they do, of any reader and any writer: the bytes are
// fed in order and once, the run is that of what they say, and its whole report is written, once.
#![tactic(auto)]

mod reading;
mod showing;
mod telling;

ghost use Rattle.std.specs.Prelude.{◌≤◌, length, IfOk, IfSome};
ghost use Rattle.text.specs.Feeding.{lent};
ghost use Rattle.mast_sections.specs.Taken.{Fresh};
ghost use Rattle.mast_sections.specs.Program.{HasRoom, Prints, Answers, Printed};

use reading::TextError;
use std::env::{Env, FillError};
use std::io;
use std::io::{Error, Read, Write};
use telling::Told;

// Room for what a text says, in numbers. The sentences of `Told` name these limits.
const CELLS: usize = 1024;

const SCRIPTS: usize = 32768;

const EVENTS: usize = 655360;

// Why the report was not written: the text could not be read, or had no end, or the report could not be written.
#[derive(Clone, Copy, Debug)]
enum RunError {
    Unread(Error),
    Unended,
    Unwritten(Error),
}

// Reads a text, and shows its run or tells its fault. Returns how many bytes were handed to the writer.
fn work<R: Read, W: Write, E: Write>(
    reader: &mut R,
    writer: &mut W,
    err: &mut E,
    m: &mut [u8],
    ids: &mut [u32],
    cells: &mut [u32],
    locals: &mut [u32],
    scripts: &mut [u32],
    events: &mut [u32],
    line: &mut [u8],
    input: &mut [u8],
) -> Result<usize, RunError>
    requires { Fresh line.old (lent m.old ids.old cells.old locals.old scripts.old events.old)
        × HasRoom (lent m.old ids.old cells.old locals.old scripts.old events.old) }
    ensures ran { IfOk result Prints }
    ensures answers { 1 ≤ length input.old →
        Answers result (R.remaining reader.old) (R.remaining reader.new) (W.contents writer.old) (W.contents writer.new) }
    ensures printed { 1 ≤ length input.old → IfSome (R.remaining reader.old) (λ text.
        Printed result text (W.contents writer.old) (W.contents writer.new)) }
{
    match reading::read_text(reader, m, ids, cells, locals, scripts, events, line, input) {
        Ok(at) => showing::show(writer, m, ids, cells, locals, scripts, events, at).map_err(
            RunError::Unwritten,
        ),
        Err(TextError::Faulty(faulty)) => {
            // What standard error does not take cannot be told.
            let _ = write!(err, "{}", Told(faulty));
            Ok(0)
        }
        Err(TextError::Unread(e)) => Err(RunError::Unread(e)),
        Err(TextError::Unended(_)) => Err(RunError::Unended),
    }
}

// A text from a machine that is not started.
fn run<R: Read, W: Write, E: Write>(
    reader: &mut R,
    writer: &mut W,
    err: &mut E,
) -> Result<usize, RunError>
    ensures answers { Answers result (R.remaining reader.old) (R.remaining reader.new) (W.contents writer.old) (W.contents writer.new) }
    ensures printed { IfSome (R.remaining reader.old) (λ text.
        Printed result text (W.contents writer.old) (W.contents writer.new)) }
{
    let mut memory = [0u8; tables::TABLES_LENGTH];
    let mut ids = [0u32; CELLS];
    let mut cells = [0u32; CELLS];
    let mut locals = [0u32; 256];
    let mut scripts = [0u32; SCRIPTS];
    let mut events = [0u32; EVENTS];
    let mut line = [0u8; 257];
    let mut input = [0u8; 65536];
    work(
        reader,
        writer,
        err,
        &mut memory,
        &mut ids,
        &mut cells,
        &mut locals,
        &mut scripts,
        &mut events,
        &mut line,
        &mut input,
    )
}

// Why the text of this name was not read, or what it says not written.
fn tell_end<E: Write>(err: &mut E, name: &[u8], ended: Result<usize, RunError>) -> io::Result<()> {
    match ended {
        Ok(_) | Err(RunError::Unended) => Ok(()),
        Err(RunError::Unread(e)) => playing::tell(err, name, e),
        Err(RunError::Unwritten(e)) => playing::tell(err, b"standard output", e),
    }
}

// The text of the file that the argument names.
fn run_file(rt: &HostRuntime, path: &[u8]) -> io::Result<()> {
    let mut err = rt.stderr();
    match playing::open(rt, path) {
        Ok(mut file) => {
            let ended = run(&mut file, &mut rt.stdout(), &mut err);
            tell_end(&mut err, path, ended)
        }
        Err(e) => playing::tell(&mut err, path, e),
    }
}

fn start(rt: &HostRuntime) -> io::Result<()> {
    let mut none = [0u8; 0];
    let mut path = [0u8; 4096];
    match rt.arg(2, &mut none) {
        Ok(_) | Err(FillError::TooLong) => {
            return rt.stderr().write_all(b"usage: mast-sections [FILE]\n");
        }
        Err(FillError::NotPresent) => {}
    }
    match rt.arg(1, &mut path) {
        Ok(n) => run_file(rt, &path[..n]),
        Err(FillError::TooLong) => rt.stderr().write_all(b"the argument: File name too long\n"),
        Err(FillError::NotPresent) => {
            let mut err = rt.stderr();
            let ended = run(&mut rt.stdin(), &mut rt.stdout(), &mut err);
            tell_end(&mut err, b"standard input", ended)
        }
    }
}

// The status stays 0, as it is told on standard error what failed.
fn main(rt: HostRuntime) {
    let _ = start(&rt);
}
