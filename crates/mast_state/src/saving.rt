// The machine that a session leaves, in a state file.
ghost use Rattle.std.specs.Prelude.{◌≡◌, ◌++◌, ◌+◌, ◌≤◌, [], length, take, IfOk, OnOk, MatchOption};
ghost use Rattle.std.specs.Io.KnownBytes.{Appends};
ghost use Rattle.rules.specs.Machine.{unstarted};
ghost use Rattle.tables.specs.Layout.{laid};
ghost use Rattle.state.specs.File.{longest_file};
ghost use Rattle.mast_state.specs.Saved.{Counts, suffix, file_of, Files, Saves};

use super::sessions;
use super::telling::{Told, tell, tell_words};
use std::fs::{Files, OpenFile, OpenOptions};
use std::io::{Error, ErrorKind, Write};
use std::os::unix::fs::OpenOptionsExt;
use std::random::RandomSource;
use std::{fs, io};

// What stands for each X of a name.
const LETTERS: &[u8; 62] = b"abcdefghijklmnopqrstuvwxyzABCDEFGHIJKLMNOPQRSTUVWXYZ0123456789";

// How many names are tried before it is given up.
const TRIES: u32 = 62 * 62 * 62;

// Puts the file of the tables at the buffer's front and returns its length, if there is one.
fn file_of(m: &[u8], file: &mut [u8]) -> Option<usize>
    requires { longest_file ≤ length file.old }
    ensures { MatchOption result (file_of m.now ≡ []) (λ n. Files n m.now file.new) }
{
    let answer = state::save(m, file);
    if answer.status != rules::SUCCESSFUL {
        return None;
    }
    Some(answer.value as usize)
}

// The name of a file beside the one of this path, as `create_temp` asks for it.
fn name_beside(path: &[u8], name: &mut [u8]) -> usize
    requires { length path.now + 7 ≤ length name.old }
    ensures { Counts result name.new × (take result name.new ≡ path.now ++ suffix) }
{
    let end = line::put(name, 0, path);
    line::put(name, end, b".XXXXXX")
}

fn letter(random: u8) -> u8 {
    LETTERS[(random % 62) as usize]
}

// Puts letters at random in place of the X's at the name's end.
fn put_letters(name: &mut [u8], random: &[u8; 6]) {
    let start = name.len().saturating_sub(6);
    for (place, b) in name[start..].iter_mut().zip(random) {
        *place = letter(*b);
    }
}

// Opens a file of this name that was not there, for its owner alone.
fn create_new<R: Files>(rt: &R, name: &[u8]) -> io::Result<R::File> {
    OpenOptions::new()
        .write(true)
        .create_new(true)
        .mode(0o600)
        .open(rt, playing::text_of(name)?)
}

// Opens a file that was not there, with letters in the name's X's that no other file has.
fn create_temp<R: Files + RandomSource>(rt: &R, name: &mut [u8]) -> io::Result<R::File> {
    for _ in 0..TRIES {
        let mut random = [0u8; 6];
        rt.fill_bytes(&mut random)?;
        put_letters(name, &random);
        match create_new(rt, name) {
            Err(error) if error.kind() == ErrorKind::AlreadyExists => {}
            opened => return opened,
        }
    }
    Err(Error::from(ErrorKind::AlreadyExists))
}

// Writes all of it, and waits until it has reached the device.
fn write_out<F: Write + OpenFile>(file: &mut F, contents: &[u8]) -> io::Result<()>
    ensures { OnOk result (Appends (F.contents file.old) (F.contents file.new) contents.now) }
{
    file.write_all(contents)?;
    file.sync_all()
}

// Fills the file and closes it.
fn fill<R: Files>(mut file: R::File, contents: &[u8]) -> io::Result<()> {
    write_out(&mut file, contents)
}

fn rename<R: Files>(rt: &R, from: &[u8], to: &[u8]) -> io::Result<()> {
    fs::rename(rt, playing::text_of(from)?, playing::text_of(to)?)
}

// A file that is not there, or can't be removed, is left as it is.
fn unlink<R: Files>(rt: &R, name: &[u8]) {
    if let Ok(text) = playing::text_of(name) {
        let _ = fs::remove_file(rt, text);
    }
}

// Fills a file beside the one of this path and then gives it that name, or removes it again: nobody sees half a file.
fn replace_by(
    rt: &HostRuntime,
    name: &mut [u8],
    path: &[u8],
    contents: &[u8],
) -> Result<usize, Told>
    ensures { IfOk result (λ n. n ≡ length contents.now) }
{
    let file = create_temp(rt, name).map_err(|error| tell(rt, path, error))?;
    let replaced = match fill::<HostRuntime>(file, contents) {
        Ok(()) => rename(rt, name, path),
        Err(error) => Err(error),
    };
    if let Err(error) = replaced {
        // told first, so that it is said even where the program is ended at the removal
        let told = tell(rt, path, error);
        unlink(rt, name);
        return Err(told);
    }
    Ok(contents.len())
}

// Returns how many bytes the file of this path has now. On an error, which is told, it is as it was.
fn replace(rt: &HostRuntime, path: &[u8], contents: &[u8]) -> Result<usize, Told>
    requires { length path.now ≤ 4096 }
    ensures { IfOk result (λ n. n ≡ length contents.now) }
{
    let mut name = [0u8; 4103];
    let end = name_beside(path, &mut name);
    replace_by(rt, &mut name[..end], path, contents)
}

// Writes the file of the tables, and nothing where there is none. Returns how many bytes it has.
fn keep(rt: &HostRuntime, path: &[u8], m: &[u8], file: &mut [u8]) -> Result<usize, Told>
    requires { (length path.now ≤ 4096) × (longest_file ≤ length file.old) }
    ensures { IfOk result (λ n. Files n m.now file.new) }
{
    let Some(length) = file_of(m, file) else {
        return Err(tell_words(
            rt,
            b"the session starts no machine, so there is no state to save.\n",
        ));
    };
    replace(rt, path, &file[..length])
}

/// Plays a session from a machine that is not started, and saves what it leaves if all of it was read and answered.
pub fn save(rt: &HostRuntime, path: &[u8], m: &mut [u8], file: &mut [u8]) -> Result<usize, Told>
    requires { (m.old ≡ laid unstarted) × (length path.now ≤ 4096) × (longest_file ≤ length file.old) }
    ensures { IfOk result (λ n. Saves n m.new file.new) }
{
    sessions::play(rt, m)?;
    keep(rt, path, m, file)
}
