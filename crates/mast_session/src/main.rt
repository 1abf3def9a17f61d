// A session in text: standard input, or the file that the argument names, is answered on standard output.
#![tactic(auto)]

ghost use Rattle.std.specs.Prelude.{◌≡◌, ℕ, List, is_ok, OnOk, IfSome};
ghost use Rattle.std.specs.Io.KnownBytes.{Consumes, Appends, IsAtEnd};
ghost use Rattle.rules.specs.Machine.{unstarted};
ghost use Rattle.tables.specs.Layout.{laid};
ghost use Rattle.session.specs.Session.{session};
ghost use Rattle.playing.specs.Turns.{Ran};

use playing::PlayError;
use std::env::{Env, FillError};
use std::io;
use std::io::{Read, Write};

// A session from a machine that is not started: what is read is answered, and nothing else is written.
fn play<R: Read, W: Write>(reader: &mut R, writer: &mut W, m: &mut [u8]) -> Result<(), PlayError>
    requires { m.old ≡ laid unstarted }
    ensures ran { Ran (laid unstarted) (is_ok result) m.new }
    ensures answered { OnOk result ((text : List ℕ) × Consumes (R.remaining reader.old) (R.remaining reader.new) text
        × IsAtEnd (R.remaining reader.new) × Appends (W.contents writer.old) (W.contents writer.new) (session text)) }
    ensures output { OnOk result (IfSome (R.remaining reader.old) (λ input.
        Appends (W.contents writer.old) (W.contents writer.new) (session input))) }
{
    playing::play(reader, writer, m)
}

fn run<R: Read, W: Write, E: Write>(
    reader: &mut R,
    name: &[u8],
    writer: &mut W,
    err: &mut E,
) -> io::Result<()> {
    let mut memory = [0u8; tables::TABLES_LENGTH];
    match play(reader, writer, &mut memory) {
        Ok(()) => Ok(()),
        Err(error) => playing::tell_broken(err, name, error),
    }
}

// The session of the file that the argument names.
fn run_file(rt: &HostRuntime, path: &[u8]) -> io::Result<()> {
    let mut err = rt.stderr();
    match playing::open(rt, path) {
        Ok(mut file) => run(&mut file, path, &mut rt.stdout(), &mut err),
        Err(error) => playing::tell(&mut err, path, error),
    }
}

fn run_named(rt: &HostRuntime) -> io::Result<()> {
    let mut path = [0u8; 4096];
    match rt.arg(1, &mut path) {
        Ok(length) => run_file(rt, &path[..length]),
        Err(FillError::TooLong) => rt.stderr().write_all(b"the argument: File name too long\n"),
        Err(FillError::NotPresent) => run(
            &mut rt.stdin(),
            b"standard input",
            &mut rt.stdout(),
            &mut rt.stderr(),
        ),
    }
}

fn start(rt: &HostRuntime) -> io::Result<()> {
    match rt.arg(2, &mut []) {
        Ok(_) | Err(FillError::TooLong) => rt.stderr().write_all(b"usage: mast-session [FILE]\n"),
        Err(FillError::NotPresent) => run_named(rt),
    }
}

// What standard error does not take cannot be told.
fn main(rt: HostRuntime) {
    let _ = start(&rt);
}
