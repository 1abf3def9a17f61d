// A machine from a state file.
ghost use Rattle.std.specs.Prelude.{◌≡◌, ◌+◌, ◌<◌, ◌≤◌, length, take, drop, IfOk, is_ok};
ghost use Rattle.std.specs.Io.KnownBytes.{Consumes, IsAtEnd};
ghost use Rattle.rules.specs.Machine.{unstarted};
ghost use Rattle.tables.specs.Layout.{laid};
ghost use Rattle.mast_state.specs.Loaded.{ReadsAll, Loads, LoadsSome};

use super::telling::{Told, tell, tell_words};
use std::io;

// One read into the buffer from `at` on.
fn read_at<R: io::Read>(reader: &mut R, file: &mut [u8], at: usize) -> io::Result<usize>
    requires { at < length file.old }
    ensures front { take at file.new ≡ take at file.old }
    ensures fits { IfOk result (λ n. at + n ≤ length file.new) }
    ensures read { IfOk result (λ n. Consumes (R.remaining reader.old) (R.remaining reader.new) (take n (drop at file.new))) }
    ensures ended { IfOk result (λ n. n ≡ 0 → IsAtEnd (R.remaining reader.new)) }
{
    reader.read(&mut file[at..])
}

// Reads until the file ends or the buffer is full.
fn read_all<R: io::Read>(reader: &mut R, file: &mut [u8]) -> io::Result<usize>
    ensures within { IfOk result (λ n. n ≤ length file.new) }
    ensures reads { IfOk result (λ n. ReadsAll (R.remaining reader.old) (R.remaining reader.new) n file.new) }
{
    let mut done = 0;
    // goes on by what each read gave
    while done < file.len() {
        let more = read_at(reader, file, done)?;
        if more == 0 {
            return Ok(done);
        }
        done += more;
    }
    Ok(done)
}

fn read_named(rt: &HostRuntime, path: &[u8], file: &mut [u8]) -> io::Result<usize>
    ensures { IfOk result (λ n. n ≤ length file.new) }
{
    let mut reader = playing::open(rt, path)?;
    read_all(&mut reader, file)
}

// Takes a file's bytes into the tables of a machine that is not started, if they are those of a state file.
fn take_in(m: &mut [u8], file: &[u8]) -> bool
    requires { m.old ≡ laid unstarted }
    ensures { Loads result file.now m.new }
{
    let answer = state::load(m, file);
    answer.status == rules::SUCCESSFUL
}

fn tell_refused(rt: &HostRuntime, path: &[u8]) -> Told {
    tell_words(rt, path);
    tell_words(rt, b" is not a state file.\n")
}

/// Loads the machine of a file, by way of a buffer longer than any state file: what does not fit is refused as none.
pub fn load(rt: &HostRuntime, path: &[u8], m: &mut [u8], file: &mut [u8]) -> Result<(), Told>
    requires { m.old ≡ laid unstarted }
    ensures { LoadsSome (is_ok result) m.new }
{
    let n = read_named(rt, path, file).map_err(|error| tell(rt, path, error))?;
    if take_in(m, &file[..n]) {
        Ok(())
    } else {
        Err(tell_refused(rt, path))
    }
}
