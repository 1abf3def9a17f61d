// The session that the last argument names, or that of standard input: played from the tables as they are, or from those of a state file.
ghost use Rattle.std.specs.Prelude.{◌≡◌, is_ok};
ghost use Rattle.rules.specs.Machine.{unstarted};
ghost use Rattle.tables.specs.Layout.{laid};
ghost use Rattle.playing.specs.Turns.{Ran};
ghost use Rattle.mast_state.specs.Loaded.{Loaded, Resumed, Resumes};

use super::loading;
use super::telling::{Told, tell, tell_broken, tell_words};
use std::env::{Env, FillError};

fn play_file(rt: &HostRuntime, path: &[u8], m: &mut [u8]) -> Result<(), Told>
    ensures { Ran m.old (is_ok result) m.new }
{
    let mut file = playing::open(rt, path).map_err(|error| tell(rt, path, error))?;
    playing::play(&mut file, &mut rt.stdout(), m).map_err(|error| tell_broken(rt, path, error))
}

fn play_input(rt: &HostRuntime, m: &mut [u8]) -> Result<(), Told>
    ensures { Ran m.old (is_ok result) m.new }
{
    playing::play(&mut rt.stdin(), &mut rt.stdout(), m).map_err(|error| tell_broken(
        rt,
        b"standard input",
        error,
    ))
}

/// Plays the session to its end, and all that it says is written.
pub fn play(rt: &HostRuntime, m: &mut [u8]) -> Result<(), Told>
    ensures { Ran m.old (is_ok result) m.new }
{
    let mut path = [0u8; 4096];
    match rt.arg(3, &mut path) {
        Ok(length) => play_file(rt, &path[..length], m),
        Err(FillError::NotPresent) => play_input(rt, m),
        Err(FillError::TooLong) => Err(tell_words(rt, b"the argument: File name too long\n")),
    }
}

fn go_on(rt: &HostRuntime, m: &mut [u8]) -> Result<(), Told>
    requires { Loaded m.old }
    ensures { Resumed (is_ok result) m.new }
{
    play(rt, m)
}

/// Loads the file's machine, and plays the session from it.
pub fn resume(rt: &HostRuntime, path: &[u8], m: &mut [u8], file: &mut [u8]) -> Result<(), Told>
    requires { m.old ≡ laid unstarted }
    ensures { Resumes (is_ok result) m.new }
{
    loading::load(rt, path, m, file)?;
    go_on(rt, m)
}
